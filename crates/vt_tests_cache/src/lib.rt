//! The tests of the crates that make the cache, from the journal and the counts of wanted pages to the loaders of tiles, of the cache whose page table
//! is published in two copies, of the bag of rows that samplers share, and of crews of threads and passes by them.
//! It holds nothing else, and nothing depends on it: a crate with tests is proved twice, and this one costs nothing beside them.
#![tactic(auto)]

#[cfg(test)]
mod bag;
#[cfg(test)]
mod checks;
#[cfg(test)]
mod crew;
#[cfg(test)]
mod crewed;
#[cfg(test)]
mod evict;
#[cfg(test)]
mod feedback;
#[cfg(test)]
mod journal;
#[cfg(test)]
mod load;
#[cfg(test)]
mod queue;
#[cfg(test)]
mod sampler;
#[cfg(test)]
mod swap;
#[cfg(test)]
mod table;
