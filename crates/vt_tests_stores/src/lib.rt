//! The tests of the crates that make mip chains and tile stores, of drawing over them, and of the names of pictures. It holds
//! nothing else, and nothing depends on it: a crate with tests is proved twice, and this one costs nothing beside them.
#![tactic(auto)]

#[cfg(test)]
mod draw;
#[cfg(test)]
mod fixtures;
#[cfg(test)]
mod mip;
#[cfg(test)]
mod names;
#[cfg(test)]
mod store;
