//! What a camera looks at.

/// A texture as a camera sees it: sides in texels, from 1 to 16384, and the number of its mip levels, at least 1.
#[derive(Clone, Copy, Debug, PartialEq, Eq)]
pub struct Surface {
    /// The number of columns of level 0.
    pub width: u32,
    /// The number of rows of level 0.
    pub height: u32,
    /// The number of mip levels, level 0 among them.
    pub levels: u32,
}
