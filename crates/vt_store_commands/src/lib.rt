//! The commands that neither walk nor replay: `plain`, `tile`, `info`, `gen` and `upgrade`.
#![tactic(auto)]

pub mod commands;
mod plain_files;
mod plain_groups;
mod seen_textures;

pub use vt_store::write_store;
