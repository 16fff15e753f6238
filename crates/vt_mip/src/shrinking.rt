//! A level that is halved in its own memory while its rows are read.

ghost use Rattle.std.specs.Prelude.{◌≡◌, ℕ, ◌+◌, ◌*◌, ◌/◌, ◌%◌, ◌<◌, ◌≤◌, ◌⊎◌, List, length, IfOk};
ghost use Rattle.vt_ppm.specs.Depths.{IsDepth, texel_length};
ghost use Rattle.vt_ppm.specs.Files.{IsPiece};
ghost use Rattle.vt_ppm.specs.Image.{ImageView, IsLawfulImage};
ghost use Rattle.vt_mip.specs.Halves.{IsHalf};
ghost use Rattle.vt_mip.specs.InPlace.{IsRoomForHalving, IsShrunk, ShrinksFront};

use std::alloc::Global;
use std::marker::Model;
use vt_box_filter::halve_rows;
use vt_ppm::{Image, NoMemory, texel_length};

/// An image whose rows are halved in its own memory, in order from the top, once they were read.
#[derive(Drop)]
pub struct Shrinking {
    depth: u32,
    width: u32,
    height: u32,
    taken: u32,
    samples: Vec<u8>,
    row: Vec<u8>,
}

impl Model for Shrinking {
    ghost use Rattle.std.specs.Prelude.{length};
    ghost use Rattle.vt_mip.specs.TakenRows.{HalvingView};
    ghost use Rattle.vt_mip.specs.InPlace.{IsShrinking};

    ghost Value = { HalvingView };

    ghost view = { λ h. record { depth = h.depth; width = h.width; height = h.height; taken = h.taken; samples = h.samples.items } };

    ghost invariant = { λ h. IsShrinking (record { depth = h.depth; width = h.width; height = h.height; taken = h.taken; samples = h.samples.items })
        (length h.row.items) };
}

// How many bytes a sample of an image has, and how many texels its sides have.
#[derive(Clone, Copy)]
struct Sizes {
    depth: u32,
    width: usize,
    height: usize,
}

// Halves a pair of rows, or an odd last row, where the pairs before it are halved.
fn halve_pair(sizes: Sizes, pair: usize, samples: &mut [u8], row: &mut [u8])
    requires room { IsRoomForHalving sizes.depth sizes.width sizes.height (length samples.old) (length row.old) }
    requires inside { pair < (sizes.height + 1) / 2 }
    ensures { (source : List ℕ) → IsShrunk sizes.depth source sizes.width sizes.height pair samples.old
        → IsShrunk sizes.depth source sizes.width sizes.height (pair + 1) samples.new }
{
    let Sizes {
        depth,
        width,
        height,
    } = sizes;
    let size = texel_length(depth) * width;
    let half_size = texel_length(depth) * ((width + 1) / 2);
    let top = size * (2 * pair);
    let bottom = size * (2 * pair + 1).min(height - 1);
    let to = half_size * pair;
    halve_rows(
        depth,
        width,
        &samples[top..top + size],
        &samples[bottom..bottom + size],
        row,
    );
    samples[to..to + half_size].copy_from_slice(row);
}

// Halves so many pairs of rows behind those that are halved.
fn halve_pairs(sizes: Sizes, first: usize, end: usize, samples: &mut [u8], row: &mut [u8])
    requires room { IsRoomForHalving sizes.depth sizes.width sizes.height (length samples.old) (length row.old) }
    requires order { first ≤ end }
    requires inside { end ≤ (sizes.height + 1) / 2 }
    ensures { (source : List ℕ) → IsShrunk sizes.depth source sizes.width sizes.height first samples.old
        → IsShrunk sizes.depth source sizes.width sizes.height end samples.new }
{
    for pair in first..end {
        halve_pair(sizes, pair, samples, row);
    }
}

impl Shrinking {
    /// Makes room to halve an image in its own memory. No row is taken yet. Refused only where memory is.
    pub fn new(alloc: Global, image: Image) -> Result<Shrinking, NoMemory>
        ensures none { IfOk result (λ s. s.taken ≡ 0) }
        ensures depth { IfOk result (λ s. s.depth ≡ image.depth) }
        ensures width { IfOk result (λ s. s.width ≡ image.width) }
        ensures height { IfOk result (λ s. s.height ≡ image.height) }
        ensures begun { IfOk result (λ s. ShrinksFront image s) }
    {
        let (depth, width, height) = (image.depth(), image.width(), image.height());
        let row = vec![in alloc; 0u8; texel_length(depth) * ((width as usize + 1) / 2)]?;
        Ok(Shrinking {
            depth,
            width,
            height,
            taken: 0,
            samples: image.into_samples(),
            row,
        })
    }

    /// How many bytes a sample has: 1 or 2.
    pub fn depth(&self) -> u32
        ensures value { result ≡ self.now.depth }
        ensures depth { IsDepth result }
    {
        let _ = &self.samples;
        self.depth
    }

    /// So many rows of the image, those behind the rows that were taken.
    pub fn rows(&self, count: u32) -> &[u8]
        requires inside { self.now.taken + count ≤ self.now.height }
        requires even { self.now.taken % 2 ≡ 0 }
        ensures full { length result.now ≡ texel_length self.now.depth * (self.now.width * count) }
        ensures piece { (p : ImageView) → ShrinksFront p self.now
            → IsPiece p.samples (texel_length p.depth * (p.width * self.now.taken)) result.now }
    {
        let size = texel_length(self.depth) * self.width as usize;
        let from = size * self.taken as usize;
        &self.samples[from..from + size * count as usize]
    }

    /// Halves so many rows behind those that were taken, in their own memory. Two rows make one, and an odd last row counts twice: so
    /// an even number is taken at a time, but at the end.
    pub fn take(&mut self, count: u32)
        requires inside { self.old.taken + count ≤ self.old.height }
        requires even { self.old.taken % 2 ≡ 0 }
        requires pairs { (count % 2 ≡ 0) ⊎ (self.old.taken + count ≡ self.old.height) }
        ensures taken { self.new.taken ≡ self.old.taken + count }
        ensures depth { self.new.depth ≡ self.old.depth }
        ensures width { self.new.width ≡ self.old.width }
        ensures height { self.new.height ≡ self.old.height }
        ensures halves { (p : ImageView) → ShrinksFront p self.old → ShrinksFront p self.new }
    {
        let first = self.taken as usize / 2;
        self.taken += count;
        let sizes = Sizes {
            depth: self.depth,
            width: self.width as usize,
            height: self.height as usize,
        };
        halve_pairs(
            sizes,
            first,
            (self.taken as usize + 1) / 2,
            self.samples.as_mut_slice(),
            self.row.as_mut_slice(),
        );
    }

    /// The half of the image, where all its rows were taken.
    pub fn finish(self) -> Image
        requires { self.taken ≡ self.height }
        ensures half { (p : ImageView) → ShrinksFront p self → IsHalf p result }
        ensures lawful { IsLawfulImage result }
    {
        let Shrinking {
            depth,
            width,
            height,
            taken: _,
            mut samples,
            row: _,
        } = self;
        let (half_width, half_height) = ((width + 1) / 2, (height + 1) / 2);
        samples.truncate(texel_length(depth) * (half_width as usize * half_height as usize));
        Image::new(depth, half_width, half_height, samples)
    }
}
