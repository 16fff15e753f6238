//! The machines that a run is given.

ghost use Rattle.vt_walk_commands.specs.Machines.{Machines, kind_of};
ghost use Rattle.vt_walk_commands.specs.commands.Walk.{WalksAs};

use vt_outside::File;
use vt_walk::SentMachine;

/// The machines by one of which a walk over files of type `F` draws: a type for each choice that its words have.
pub trait Machines<F: File + Send> {
    /// Those where the words ask for no others.
    type Standard: SentMachine<File = F>;

    /// Those over the swapped table.
    type SwappedTable: SentMachine<File = F>;

    /// Those whose samplers share rows.
    type SharedRows: SentMachine<File = F>;

    /// Those with bilinear filtering.
    type Bilinear: SentMachine<File = F>;

    /// Their kinds: how they draw, and the pictures that they have drawn.
    ghost kinds: { Machines };

    /// The kinds are those of the types: a walk by machines of the type is one by the kind.
    ghost standard: { WalksAs (kind_of Self.Standard.PassMachine) kinds.standard };

    /// The same.
    ghost swapped_table: { WalksAs (kind_of Self.SwappedTable.PassMachine) kinds.swapped_table };

    /// The same.
    ghost shared_rows: { WalksAs (kind_of Self.SharedRows.PassMachine) kinds.shared_rows };

    /// The same.
    ghost bilinear: { WalksAs (kind_of Self.Bilinear.PassMachine) kinds.bilinear };
}
