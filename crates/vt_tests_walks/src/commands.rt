//! Whole commands by the words of the top call, over a folder in memory, with what each leaves.

mod files;
mod filters;
mod flights;
mod generate;
mod large_walk;
mod meetings;
mod plain;
mod replay_rows;
mod replays;
mod rows;
mod runs;
mod samplers;
mod stores;
mod trials;
mod walk_rows;
mod walk_stops;
mod walks;
