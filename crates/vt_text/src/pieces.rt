//! Texts that are put in pieces, so that putting them takes no memory.

ghost use Rattle.std.specs.Prelude.{◌≡◌, ℕ, ◌≤◌, take, option_map, OnOk, OnErr, IsErrOf};
ghost use Rattle.vt_outside.specs.Counts.{Rose};
ghost use Rattle.vt_outside.specs.Files.{gained};
ghost use Rattle.vt_text.specs.Pieces.{joined_pieces};
ghost use Rattle.vt_text.specs.Printing.{Prints};

use vt_outside::{OutsideError, Sink};

/// Puts the pieces one after another, without those that have no bytes. The first that is refused ends it: then a prefix of
/// the whole was put.
pub fn put_pieces<S: Sink>(sink: &mut S, pieces: &[&[u8]]) -> Result<(), OutsideError>
    ensures whole { OnOk result (S.held sink.new ≡ option_map (gained (joined_pieces pieces.now)) (S.held sink.old)) }
    ensures part { OnErr result ((k : ℕ) × (S.held sink.new ≡ option_map (gained (take k (joined_pieces pieces.now))) (S.held sink.old))) }
    ensures failed { IsErrOf result OutsideError.Failed → Rose (S.faults sink.old) (S.faults sink.new) }
    ensures no_memory { IsErrOf result OutsideError.NoMemory → Rose (S.refusals sink.old) (S.refusals sink.new) }
    ensures faults { S.faults sink.old ≤ S.faults sink.new }
    ensures refusals { S.refusals sink.old ≤ S.refusals sink.new }
{
    for piece in pieces {
        put_piece(sink, piece)?;
    }
    Ok(())
}

// Puts a piece, if it has bytes.
fn put_piece<S: Sink>(sink: &mut S, piece: &[u8]) -> Result<(), OutsideError>
    ensures whole { OnOk result (S.held sink.new ≡ option_map (gained piece.now) (S.held sink.old)) }
    ensures part { OnErr result ((k : ℕ) × (S.held sink.new ≡ option_map (gained (take k piece.now)) (S.held sink.old))) }
    ensures failed { IsErrOf result OutsideError.Failed → Rose (S.faults sink.old) (S.faults sink.new) }
    ensures no_memory { IsErrOf result OutsideError.NoMemory → Rose (S.refusals sink.old) (S.refusals sink.new) }
    ensures faults { S.faults sink.old ≤ S.faults sink.new }
    ensures refusals { S.refusals sink.old ≤ S.refusals sink.new }
{
    if piece.is_empty() {
        return Ok(());
    }
    sink.put(piece)
}

/// Puts the pieces one after another, as far as the sink takes them.
pub fn print_pieces<S: Sink>(sink: &mut S, pieces: &[&[u8]])
    ensures { Prints (joined_pieces pieces.now) (S.held sink.old) (S.held sink.new)
        (S.faults sink.old) (S.faults sink.new) (S.refusals sink.old) (S.refusals sink.new) }
{
    let _ = put_pieces(sink, pieces);
}
