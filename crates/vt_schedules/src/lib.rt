//! How the samplers of a pass come by the rows of its picture: each row is dealt to one of them, or all lie in a bag from which each takes
//! the next one when it has drawn the last.
//!
//! The bag is an injector of `crossbeam_deque` under the rule of the queues. Where all passes of a bag are one again, every row that was put
//! is either still in the bag or was taken once, and no other row was; and the rows that one pass took rise, where they were put in order.
#![tactic(auto)]

mod bag;
mod dealt;
mod jobs;
mod laws;
mod schedule;
mod shared;

pub use bag::{BagPass, RowBag, RowJob};
pub use dealt::{Dealt, DealtHome, DealtWay, Nothing};
pub use laws::each_row_is_taken_once;
pub use schedule::Schedule;
pub use shared::{BagHome, BagWay, Shared};
pub use vt_sampler::{Turns, draw_all};
