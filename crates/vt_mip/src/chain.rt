ghost use Rattle.std.specs.Prelude.{◌≡◌, ◌+◌, ◌*◌, ◌<◌, ◌≤◌, ◌↔◌, length, IfOk, OnOk, IsTrue, vec_len, slice_range};
ghost use Rattle.vt_ppm.specs.Depths.{IsDepth, AreBytes};
ghost use Rattle.vt_ppm.specs.Limits.{most_levels, most_read_side};
ghost use Rattle.vt_ppm.specs.Tiles.{IsTileSide};
ghost use Rattle.vt_mip.specs.Chains.{ChainView, chain_levels, chain_width, chain_height, chain_texel, IsTexelRow, IsTexelRaster};
ghost use Rattle.vt_mip.specs.Levels.{GainsHalf, IsLastFitting};

use crate::halving::halved_image;
use std::alloc::Global;
use std::marker::Model;
use std::thread::Threads;
use vt_ppm::{Image, NoMemory, processors, samples_are_bytes, texel_length};

/// A texture and its coarser levels, each the one before it halved, down to the first whose two sides are at most the tile side.
#[derive(Drop)]
pub struct Chain {
    levels: Vec<Image>,
    tile: u32,
}

impl Model for Chain {
    ghost use Rattle.vt_mip.specs.Chains.{ChainView};
    ghost use Rattle.vt_mip.specs.Levels.{IsWholeChain, level_at};

    ghost Value = { ChainView };

    ghost view = { λ c. record { base = level_at c.levels.items 0; tile = c.tile } };

    ghost invariant = { λ c. IsWholeChain c.levels.items c.tile };
}

// Whether both sides of the last level are at most the tile side.
fn last_fits(levels: &Vec<Image>, tile: u32) -> bool
    requires { 1 ≤ vec_len levels.now }
    ensures { IsTrue result ↔ IsLastFitting levels.now.items tile }
{
    let last = &levels[levels.len() - 1];
    last.width() <= tile && last.height() <= tile
}

// The levels with the next one, the last one halved.
fn add_level<Rt: Threads + Sync>(
    rt: &Rt,
    processors: usize,
    alloc: Global,
    levels: &mut Vec<Image>,
) -> Result<(), NoMemory>
    requires { 1 ≤ vec_len levels.old }
    ensures { OnOk result (GainsHalf levels.old.items levels.new.items) }
{
    let last = levels.len() - 1;
    let next = halved_image(rt, processors, alloc, &levels[last])?;
    levels.push(next)?;
    Ok(())
}

// Row y of a raster whose rows have so many bytes.
fn raster_row(samples: &[u8], size: usize, y: usize) -> &[u8]
    requires { size * y + size ≤ length samples.now }
    ensures { result.now ≡ slice_range samples.now (size * y) (size * y + size) }
{
    let from = size * y;
    &samples[from..from + size]
}

impl Chain {
    /// Builds the chain of a texture for a tile side. Refused only where memory is.
    pub fn build<Rt: Threads + Sync>(
        rt: &Rt,
        alloc: Global,
        image: Image,
        tile: u32,
    ) -> Result<Chain, NoMemory>
        requires { IsTileSide tile }
        ensures { IfOk result (λ c. c ≡ record { base = image; tile = tile }) }
    {
        // An image has texels, and at most so many a side: so its chain has few levels.
        let _ = image.width();
        let processors = processors(rt);
        let mut levels = Vec::new(alloc);
        levels.push(image)?;
        while !last_fits(&levels, tile) {
            add_level(rt, processors, alloc, &mut levels)?;
        }
        Ok(Chain { levels, tile })
    }

    /// How many bytes a sample has: 1 or 2.
    pub fn depth(&self) -> u32
        ensures value { result ≡ self.now.base.depth }
        ensures depth { IsDepth result }
    {
        self.levels[0].depth()
    }

    /// The number of levels, from 1 to 14: the last is the first whose two sides are at most the tile side.
    pub fn levels(&self) -> u32
        ensures value { result ≡ chain_levels self.now }
        ensures some { 1 ≤ result }
        ensures few { result ≤ most_levels }
    {
        self.levels.len() as u32
    }

    /// The columns and rows of a level below the number of levels, each from 1 to 8,192.
    pub fn size(&self, level: u32) -> (u32, u32)
        requires { level < chain_levels self.now }
        ensures width { result.0 ≡ chain_width self.now level }
        ensures height { result.1 ≡ chain_height self.now level }
        ensures some_columns { 1 ≤ result.0 }
        ensures few_columns { result.0 ≤ most_read_side }
        ensures some_rows { 1 ≤ result.1 }
        ensures few_rows { result.1 ≤ most_read_side }
    {
        let level = &self.levels[level as usize];
        (level.width(), level.height())
    }

    /// The word of a level's texel in column `x` and row `y`, which are inside the level: its red, green and blue sample in one
    /// number, red first, of 24 bits where a sample has one byte and of 48 where it has two.
    pub fn texel(&self, level: u32, x: u32, y: u32) -> u64
        requires level { level < chain_levels self.now }
        requires column { x < chain_width self.now level }
        requires row { y < chain_height self.now level }
        ensures { result ≡ chain_texel self.now level x y }
    {
        self.levels[level as usize].word(x, y)
    }

    /// The bytes of a level's row, three samples a texel, red first, the most significant byte of a sample first.
    pub fn row(&self, level: u32, y: u32) -> &[u8]
        requires level { level < chain_levels self.now }
        requires row { y < chain_height self.now level }
        ensures { IsTexelRow self.now.base.depth (λ x. chain_texel self.now level x y) (chain_width self.now level) result.now }
    {
        let level = &self.levels[level as usize];
        samples_are_bytes(level);
        let size = texel_length(level.depth()) * level.width() as usize;
        raster_row(level.samples(), size, y as usize)
    }

    /// The bytes of a level, three samples a texel, red first, the most significant byte of a sample first, row by row from the
    /// top.
    pub fn samples(&self, level: u32) -> &[u8]
        requires { level < chain_levels self.now }
        ensures { IsTexelRaster self.now.base.depth (chain_texel self.now level) (chain_width self.now level)
            (chain_height self.now level) result.now }
    {
        let level = &self.levels[level as usize];
        samples_are_bytes(level);
        level.samples()
    }

    /// The tile side at which the chain ends.
    pub fn tile_side(&self) -> u32
        ensures { result ≡ self.now.tile }
    {
        self.tile
    }
}

/// The samples of a chain's texture are kept in bytes, and so its words are small at every level.
pub fn texture_samples_are_bytes(chain: &Chain)
    ensures { AreBytes chain.now.base.samples }
{
    samples_are_bytes(&chain.levels[0]);
}
