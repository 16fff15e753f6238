//! The limits of what a journal tells.

/// The greatest version of a page table.
pub const MOST_VERSIONS: u64 = 4_611_686_018_427_387_904;

/// How many frames a cache may have.
pub const MOST_FRAMES: u32 = 65_535;

/// How many samplers may draw.
pub const MOST_SAMPLERS: usize = 64;
