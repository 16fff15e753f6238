//! The machines of a walk: each is the one machine over a page table, a schedule and a filter.
#![tactic(auto)]

mod laws;

pub use laws::rows_of_a_swapped_table_were_entered;
pub use vt_pass_machine::{Dealt, Machine, Shared};
pub use vt_plain_bilinear::Bilinear;
pub use vt_swap_table::SwapTable;
pub use vt_word_table::{Nearest, WordTable};

/// The machine over shared words that draws each pixel of one texel, each row by the sampler that it is dealt to.
pub type WordMachine<F> = Machine<F, WordTable, Dealt, Nearest>;

/// The machine whose page table lies in two copies.
pub type SwapMachine<F> = Machine<F, SwapTable, Dealt, Nearest>;

/// The machine whose samplers share the rows of each picture: each takes the next one when it has drawn the last, so that a slow row holds
/// up no other sampler's rows.
pub type StealMachine<F> = Machine<F, WordTable, Shared, Nearest>;

/// The machine whose pixels are blends of four texels. A row is drawn under one hold, so its blends are of one version.
pub type BlendMachine<F> = Machine<F, WordTable, Dealt, Bilinear>;
