//! Level 1 of a texture that is not in memory, made while its rows come.

ghost use Rattle.std.specs.Prelude.{◌≡◌, ℕ, ◌+◌, ◌*◌, ◌/◌, ◌%◌, ◌≤◌, ◌⊎◌, ◌++◌, List, length, vec_len, vec_capacity, IfOk};
ghost use Rattle.vt_ppm.specs.Depths.{IsDepth, texel_length};
ghost use Rattle.vt_ppm.specs.Limits.{most_tiled_side};
ghost use Rattle.vt_ppm.specs.Files.{IsPiece};
ghost use Rattle.vt_ppm.specs.Image.{ImageView, IsLawfulImage};
ghost use Rattle.vt_mip.specs.Halves.{IsHalf, IsHalvedRaster};
ghost use Rattle.vt_mip.specs.TakenRows.{HalvesFront};

use crate::halving::halve_in_threads;
use std::alloc::Global;
use std::marker::Model;
use std::thread::Threads;
use vt_ppm::{Image, NoMemory, texel_length};

/// Level 1 of a texture as far as the texture's rows were taken, in order from the top. Room for all of it is asked for at once, but it is
/// written row by row: so nobody waits until a large level is full of zeros.
#[derive(Drop)]
pub struct Halving {
    depth: u32,
    width: u32,
    height: u32,
    taken: u32,
    samples: Vec<u8>,
}

impl Model for Halving {
    ghost use Rattle.std.specs.Prelude.{vec_capacity};
    ghost use Rattle.vt_mip.specs.TakenRows.{HalvingView, IsHalving};

    ghost Value = { HalvingView };

    ghost view = { λ h. record { depth = h.depth; width = h.width; height = h.height; taken = h.taken; samples = h.samples.items } };

    ghost invariant = { λ h. IsHalving (record { depth = h.depth; width = h.width; height = h.height; taken = h.taken; samples = h.samples.items })
        (vec_capacity h.samples) };
}

// How many bytes the rows of level 1 have that so many rows of a texture make.
fn half_size(depth: u32, width: usize, rows: usize) -> usize
    requires depth { IsDepth depth }
    requires few_columns { width ≤ most_tiled_side }
    requires few_rows { rows ≤ most_tiled_side }
    ensures { result ≡ texel_length depth * ((width + 1) / 2 * ((rows + 1) / 2)) }
{
    texel_length(depth) * ((width + 1) / 2 * ((rows + 1) / 2))
}

// Makes a list so long, within the room that it has, where it is shorter.
fn lengthen(samples: &mut Vec<u8>, size: usize)
    requires room { size ≤ vec_capacity samples.old }
    ensures front { (rest : List ℕ) × (samples.new.items ≡ samples.old.items ++ rest) }
    ensures long { size ≤ length samples.new.items }
    ensures within { (most : ℕ) → size ≤ most → length samples.old.items ≤ most → length samples.new.items ≤ most }
    ensures room { vec_capacity samples.old ≤ vec_capacity samples.new }
{
    if size <= samples.len() {
        return;
    }
    match samples.resize(size, 0) {
        Ok(()) => {}
        Err(_) => unreachable!(),
    }
}

// Halves so many rows that follow those that were taken, in so many threads, and writes what they make behind the rows of level 1 that are made.
fn halve_behind<Rt: Threads + Sync>(
    rt: &Rt,
    threads: usize,
    depth: u32,
    width: usize,
    height: usize,
    taken: usize,
    rows: &[u8],
    count: usize,
    samples: &mut [u8],
)
    requires depth { IsDepth depth }
    requires some_columns { 1 ≤ width }
    requires few_columns { width ≤ most_tiled_side }
    requires few_rows { height ≤ most_tiled_side }
    requires some { 1 ≤ count }
    requires inside { taken + count ≤ height }
    requires even { taken % 2 ≡ 0 }
    requires pairs { (count % 2 ≡ 0) ⊎ (taken + count ≡ height) }
    requires whole { length rows.now ≡ texel_length depth * (width * count) }
    requires room { texel_length depth * ((width + 1) / 2 * ((taken + count + 1) / 2)) ≤ length samples.old }
    ensures { (source : List ℕ) → IsPiece source (texel_length depth * (width * taken)) rows.now
        → IsHalvedRaster depth source width height ((taken + 1) / 2) samples.old
        → IsHalvedRaster depth source width height ((taken + count + 1) / 2) samples.new }
{
    let half_row = texel_length(depth) * ((width + 1) / 2);
    let from = half_row * (taken / 2);
    let made = half_row * ((count + 1) / 2);
    halve_in_threads(
        rt,
        threads,
        depth,
        width,
        count,
        rows,
        &mut samples[from..from + made],
    );
}

impl Halving {
    /// Makes room for level 1 of a texture of a depth, 1 or 2, and of sides from 1 to the largest of one that is cut into tiles.
    /// No row is taken yet. Refused only where memory is.
    pub fn new(alloc: Global, depth: u32, width: u32, height: u32) -> Result<Halving, NoMemory>
        requires depth { IsDepth depth }
        requires some_columns { 1 ≤ width }
        requires few_columns { width ≤ most_tiled_side }
        requires some_rows { 1 ≤ height }
        requires few_rows { height ≤ most_tiled_side }
        ensures none { IfOk result (λ h. h.taken ≡ 0) }
        ensures depth { IfOk result (λ h. h.depth ≡ depth) }
        ensures width { IfOk result (λ h. h.width ≡ width) }
        ensures height { IfOk result (λ h. h.height ≡ height) }
        ensures begun { IfOk result (λ h. (p : ImageView) → p.depth ≡ depth → p.width ≡ width → p.height ≡ height → HalvesFront p h) }
    {
        let mut samples = Vec::new(alloc);
        samples.reserve(half_size(depth, width as usize, height as usize))?;
        Ok(Halving {
            depth,
            width,
            height,
            taken: 0,
            samples,
        })
    }

    /// Writes the room into which so many rows more will be halved, which `take` does else: what was never written takes the system longer than
    /// halving does.
    pub fn make_room(&mut self, count: u32)
        requires inside { self.old.taken + count ≤ self.old.height }
        ensures taken { self.new.taken ≡ self.old.taken }
        ensures depth { self.new.depth ≡ self.old.depth }
        ensures width { self.new.width ≡ self.old.width }
        ensures height { self.new.height ≡ self.old.height }
        ensures halves { (p : ImageView) → HalvesFront p self.old → HalvesFront p self.new }
    {
        let size = half_size(
            self.depth,
            self.width as usize,
            self.taken as usize + count as usize,
        );
        lengthen(&mut self.samples, size);
    }

    /// Takes so many rows of the texture's samples, those behind the rows that were taken, and halves them in so many threads. Two rows make
    /// one of level 1, and an odd last row counts twice: so an even number is taken at a time, but at the end.
    pub fn take<Rt: Threads + Sync>(&mut self, rt: &Rt, threads: usize, rows: &[u8], count: u32)
        requires some { 1 ≤ count }
        requires inside { self.old.taken + count ≤ self.old.height }
        requires even { self.old.taken % 2 ≡ 0 }
        requires pairs { (count % 2 ≡ 0) ⊎ (self.old.taken + count ≡ self.old.height) }
        requires whole { length rows.now ≡ texel_length self.old.depth * (self.old.width * count) }
        ensures taken { self.new.taken ≡ self.old.taken + count }
        ensures depth { self.new.depth ≡ self.old.depth }
        ensures width { self.new.width ≡ self.old.width }
        ensures height { self.new.height ≡ self.old.height }
        ensures halves { (p : ImageView) → HalvesFront p self.old
            → IsPiece p.samples (texel_length p.depth * (p.width * self.old.taken)) rows.now → HalvesFront p self.new }
    {
        let taken = self.taken as usize;
        let size = half_size(self.depth, self.width as usize, taken + count as usize);
        lengthen(&mut self.samples, size);
        halve_behind(
            rt,
            threads,
            self.depth,
            self.width as usize,
            self.height as usize,
            taken,
            rows,
            count as usize,
            self.samples.as_mut_slice(),
        );
        self.taken += count;
    }

    /// Level 1, where all rows of the texture were taken.
    pub fn finish(self) -> Image
        requires { self.taken ≡ self.height }
        ensures depth { result.depth ≡ self.depth }
        ensures width { result.width ≡ (self.width + 1) / 2 }
        ensures height { result.height ≡ (self.height + 1) / 2 }
        ensures half { (p : ImageView) → HalvesFront p self → IsHalf p result }
        ensures lawful { IsLawfulImage result }
    {
        let Halving {
            depth,
            width,
            height,
            taken: _,
            samples,
        } = self;
        Image::new(depth, (width + 1) / 2, (height + 1) / 2, samples)
    }
}
