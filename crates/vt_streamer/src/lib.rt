//! The one who streams into a table of shared words: it frees and fills frames, and publishes changes, while samplers hold versions.
#![tactic(auto)]

mod banks;
mod fills;
mod frees;
mod latest;
mod looks;
mod streamer;
mod table_writer;

pub use looks::Waiting;
pub use streamer::Streamer;
pub use table_writer::TableWriter;
pub use vt_grace::Words;
