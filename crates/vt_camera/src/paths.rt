//! A camera, and the path of cameras that a sequence of pictures is drawn along.

ghost use Rattle.std.specs.Prelude.{◌≡◌, ◌<◌, ◌≤◌, length, slice_get, Some};
ghost use Rattle.vt_text.specs.Limits.{most_picture_side, most_focal, most_pictures};
ghost use Rattle.vt_camera.specs.Paths.{IsCamera, IsPath};

use std::marker::Model;

/// Where a picture is taken from.
#[derive(Clone, Copy, Debug, PartialEq, Eq)]
pub struct Camera {
    /// The column below the camera, in 1/256 texel, from -2147483648 to 2147483648.
    pub u: i64,
    /// The row below the camera, in 1/256 texel, from -2147483648 to 2147483648.
    pub v: i64,
    /// The height over the texture, in 1/256 texel, from 1 to 16777216.
    pub h: i64,
    /// The cosine of the direction, in 1/16384, from -16384 to 16384.
    pub c: i64,
    /// The sine of the direction, in 1/16384, from -16384 to 16384.
    pub s: i64,
}

/// The sides of the pictures, the focal number and the camera of each picture, all within their limits. `parse_path`
/// makes it.
#[derive(Drop)]
pub struct Path {
    width: u32,
    height: u32,
    focal: u32,
    cameras: Vec<Camera>,
}

impl Model for Path {
    ghost use Rattle.vt_camera.specs.Paths.{PathView, IsPath};

    ghost Value = { PathView };

    ghost view = { λ p. record { width = p.width; height = p.height; focal = p.focal; cameras = p.cameras.items } };

    ghost invariant = { λ p.
        IsPath (record { width = p.width; height = p.height; focal = p.focal; cameras = p.cameras.items }) };
}

impl Path {
    /// Joins the parts of a path, whose numbers are within the limits.
    pub(crate) fn from_parts(width: u32, height: u32, focal: u32, cameras: Vec<Camera>) -> Path
        requires { IsPath (record { width = width; height = height; focal = focal; cameras = cameras.items }) }
        ensures { result ≡ record { width = width; height = height; focal = focal; cameras = cameras.items } }
    {
        Path {
            width,
            height,
            focal,
            cameras,
        }
    }

    /// The number of columns of each picture, from 1 to 2048.
    pub fn width(&self) -> u32
        ensures value { result ≡ self.now.width }
        ensures low { 1 ≤ result }
        ensures high { result ≤ most_picture_side }
    {
        self.width
    }

    /// The number of rows of each picture, from 1 to 2048.
    pub fn height(&self) -> u32
        ensures value { result ≡ self.now.height }
        ensures low { 1 ≤ result }
        ensures high { result ≤ most_picture_side }
    {
        self.height
    }

    /// The focal number, from 1 to 4096: at that many rows below the horizon a pixel lies as far off as the camera is high.
    pub fn focal(&self) -> u32
        ensures value { result ≡ self.now.focal }
        ensures low { 1 ≤ result }
        ensures high { result ≤ most_focal }
    {
        self.focal
    }

    /// The number of pictures, one for each camera, at most 9999.
    pub fn pictures(&self) -> u32
        ensures value { result ≡ length self.now.cameras }
        ensures high { result ≤ most_pictures }
    {
        self.cameras.len() as u32
    }

    /// The camera of a picture; pictures count from 0 in the order of the path.
    pub fn camera(&self, picture: u32) -> Camera
        requires { picture < length self.now.cameras }
        ensures value { slice_get self.now.cameras picture ≡ Some result }
        ensures limits { IsCamera result }
    {
        self.cameras[picture as usize]
    }
}
