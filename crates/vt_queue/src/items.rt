//! What travels in the queues.

use crate::queue::Queue;
use vt_outside::Bytes;

/// A tile that is to be read.
#[derive(Drop)]
pub struct Request {
    /// The place of its entry in the batch, from 0.
    pub ticket: u32,
    /// The page whose tile it is.
    pub page: u32,
    /// Where the tile goes.
    pub buffer: Bytes,
}

/// How a request ended.
#[derive(Clone, Copy, Debug, PartialEq, Eq)]
pub enum Outcome {
    /// The buffer holds the tile.
    Read,
    /// The read failed, and what the buffer holds is open.
    Lost,
}

/// A request that was answered, with its buffer.
#[derive(Drop)]
pub struct Loaded {
    /// The request.
    pub request: Request,
    /// How it ended.
    pub outcome: Outcome,
}

/// The queue from those who want tiles to the loaders.
pub type RequestQueue = Queue<Request>;

/// The queue from the loaders to the streamer.
pub type ResultQueue = Queue<Loaded>;
