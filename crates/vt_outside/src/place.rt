/// A place that a file was asked for: `len` bytes from byte `at`, and whether that read failed.
#[derive(Clone, Copy, Debug, PartialEq, Eq)]
pub struct Place {
    pub at: u64,
    pub len: u64,
    pub failed: bool,
}

/// A point of a pass that a gate is told of.
#[derive(Clone, Copy)]
pub enum Point {
    /// After the pin and before the row's first look-up.
    Row { sampler: u32, row: u32 },
    /// Before the read of that ticket.
    Read { loader: u32, ticket: u32 },
    /// After that version was published inside a pass.
    Published { version: u64 },
}
