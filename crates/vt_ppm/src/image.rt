ghost use Rattle.std.specs.Prelude.{◌≡◌, ◌<◌};
ghost use Rattle.vt_ppm.specs.Image.{ImageView, IsLawfulImage, texel_of};

use std::marker::Model;
use vt_definitions::word_at;

/// An image in memory: three samples a texel, red first, row by row from the top. A sample has one byte, or two with
/// the most significant first.
#[derive(Drop)]
pub struct Image {
    depth: u32,
    width: u32,
    height: u32,
    samples: Vec<u8>,
}

impl Model for Image {
    ghost use Rattle.vt_ppm.specs.Image.{ImageView, IsLawfulImage};

    ghost Value = { ImageView };

    ghost view = { λ i. record { depth = i.depth; width = i.width; height = i.height; samples = i.samples.items } };

    ghost invariant = { λ i. IsLawfulImage (record { depth = i.depth; width = i.width; height = i.height; samples = i.samples.items }) };
}

impl Image {
    /// Makes an image of its samples, of which there are three a texel, each of `depth` bytes, 1 or 2.
    pub fn new(depth: u32, width: u32, height: u32, samples: Vec<u8>) -> Image
        requires { IsLawfulImage (record { depth = depth; width = width; height = height; samples = samples.items }) }
        ensures { result ≡ record { depth = depth; width = width; height = height; samples = samples.items } }
    {
        Image {
            depth,
            width,
            height,
            samples,
        }
    }

    /// How many bytes a sample has: 1 or 2.
    pub fn depth(&self) -> u32
        ensures value { result ≡ self.now.depth }
        ensures limits { IsLawfulImage self.now }
    {
        let _ = &self.samples;
        self.depth
    }

    /// The number of columns, from 1 to 8,192.
    pub fn width(&self) -> u32
        ensures value { result ≡ self.now.width }
        ensures limits { IsLawfulImage self.now }
    {
        let _ = &self.samples;
        self.width
    }

    /// The number of rows, from 1 to 8,192.
    pub fn height(&self) -> u32
        ensures value { result ≡ self.now.height }
        ensures limits { IsLawfulImage self.now }
    {
        let _ = &self.samples;
        self.height
    }

    /// The bytes of all samples, three samples a texel, row by row.
    pub fn samples(&self) -> &[u8]
        ensures value { result.now ≡ self.now.samples }
        ensures limits { IsLawfulImage self.now }
    {
        self.samples.as_slice()
    }

    /// The bytes of all samples, in place of the image.
    pub fn into_samples(self) -> Vec<u8>
        ensures value { result.items ≡ self.samples }
        ensures limits { IsLawfulImage self }
    {
        let Image {
            depth: _,
            width: _,
            height: _,
            samples,
        } = self;
        samples
    }

    /// The word of the texel in column `x` and row `y`: red, green and blue in one number, red first, of 24 bits where
    /// a sample has one byte and of 48 where it has two.
    pub fn word(&self, x: u32, y: u32) -> u64
        requires column { x < self.now.width }
        requires row { y < self.now.height }
        ensures { result ≡ texel_of self.now x y }
    {
        let i = y as usize * self.width as usize + x as usize;
        if self.depth == 1 {
            word_at::<1>(&self.samples, i)
        } else {
            word_at::<2>(&self.samples, i)
        }
    }
}
