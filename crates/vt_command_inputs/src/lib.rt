//! What the commands read and how they end: reading and opening the inputs, what may be wrong with each, the lines that several
//! commands put, and the refusals with their statuses and their lines on the error output. Walks and replays are no part of it.
#![tactic(auto)]

mod flaws;
mod input;
mod output;
mod refusal;

pub use flaws::Flaw;
pub use input::{
    StoreHeader, open_image, open_store, open_texture, read_journal, read_path, read_store_header,
    read_texture,
};
pub use output::{add, outside_error, put_end, put_store_line};
pub use refusal::{Refusal, print_end, refusal_of, status_of};
