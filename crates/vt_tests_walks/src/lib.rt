//! The tests of the crates that run passes, walks and replays, and of whole commands, over stores and folders in memory. It holds
//! nothing else, and nothing depends on it: a crate with tests is proved twice, and one above the top call pays a minute or two for the
//! loading and linking of all below it.
#![tactic(auto)]

#[cfg(test)]
mod any_sampler;
#[cfg(test)]
mod cases;
#[cfg(test)]
mod commands;
#[cfg(test)]
mod fixtures;
#[cfg(test)]
mod gates;
#[cfg(test)]
mod pass;
#[cfg(test)]
mod replay;
#[cfg(test)]
mod told;
#[cfg(test)]
mod walk;
