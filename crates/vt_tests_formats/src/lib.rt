//! The tests of the crates that read and write texts and files, by hand-made rows. It holds nothing else, and nothing depends on it:
//! a crate with tests is proved twice, and this one costs nothing beside them.
#![tactic(auto)]

#[cfg(test)]
mod camera;
#[cfg(test)]
mod definitions;
#[cfg(test)]
mod fixtures;
#[cfg(test)]
mod outside;
#[cfg(test)]
mod pages;
#[cfg(test)]
mod ppm;
#[cfg(test)]
mod print;
#[cfg(test)]
mod text;
