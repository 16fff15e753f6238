//! The commands, a file each.

pub mod replay;
pub mod trial;
pub mod walk;
