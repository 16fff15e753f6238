//! What all parts of a walk are given.

use crate::mode::Mode;
use crate::settings::{Names, Settings};
use vt_machine::Path;
use vt_pages::Geometry;

/// A walk: its texture, its path, its names, its settings with the number of pinned pages, and its mode.
#[derive(Clone, Copy)]
pub struct WalkInput<'a> {
    /// How the texture is cut into pages.
    pub geometry: &'a Geometry,
    /// How many bytes a sample has, 1 or 2.
    pub depth: u32,
    /// The path along which pictures are taken.
    pub path: &'a Path,
    /// The names of its files.
    pub names: Names<'a>,
    /// Its frames, its pinned levels and its crew.
    pub settings: Settings,
    /// How many pages are pinned.
    pub pinned: u32,
    /// Live or settled.
    pub mode: Mode,
}
