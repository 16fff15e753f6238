//! A batch is streamed while loaders work: results are taken, and each is applied to the entry of its ticket. One loop does so for all
//! that a batch may be streamed into; a table of shared words is such a target.
#![tactic(auto)]

mod entries;
mod pause;
mod results;
mod stream;
mod target;
mod waits;
mod words;

pub use entries::{map_page, put_entry};
pub use stream::stream_results;
pub use target::Target;
pub use vt_requests::StreamReport;
pub use vt_streamer::Streamer;
pub use words::stream_batch;
