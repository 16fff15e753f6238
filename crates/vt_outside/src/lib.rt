//! The outside of the program: files, folders, sinks and gates as traits, and what stands for them; what a call is to leave in
//! a folder, how far it came, and the writing of a file.
#![tactic(auto)]

mod answers;
mod closed_files;
mod fails;
mod files;
mod fixtures;
mod gate;
mod items;
mod memory_file;
mod memory_folder;
mod memory_sink;
mod outside;
mod place;
mod real_file;
mod real_folder;
mod real_sink;

pub use answers::{Failed, NoMemory, OutsideError};
pub use fails::{Fail, Fails};
pub use files::write_file;
pub use gate::OpenGate;
pub use items::{Bytes, Items};
pub use memory_file::MemoryFile;
pub use memory_folder::MemoryFolder;
pub use memory_sink::MemorySink;
pub use outside::{File, Folder, Gate, Sink};
pub use place::{Place, Point};
pub use real_file::RealFile;
pub use real_folder::RealFolder;
pub use real_sink::RealSink;
