//! The tests of the table of shared words, of its streamer, of streaming a batch, and of a sampler that draws from the words. It
//! holds nothing else, and nothing depends on it.
#![tactic(auto)]

#[cfg(test)]
mod sampler;
#[cfg(test)]
mod streamer;
