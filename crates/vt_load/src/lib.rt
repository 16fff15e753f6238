//! Loaders: workers that take requests for tiles from a queue, read them from a store, and put the results into another. Several are
//! dealt passes of the two queues and taken back, and each request of a round is answered once.
#![tactic(auto)]

mod laws;
mod load;
mod loader;
mod queued;

pub use laws::{each_request_is_answered_once, each_streamed_request_is_answered_once};
pub use loader::Loader;
pub use queued::{QueuedLoader, Queues, deal, take_back};
pub use vt_queue::{Loaded, Queue, QueuePass, Request, RequestQueue, ResultQueue};
pub use vt_tiles::{Store, Stores, tile_length};
