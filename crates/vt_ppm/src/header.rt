//! The header of an image.
ghost use Rattle.std.specs.Prelude.{◌≡◌, ◌*◌, ◌≤◌, length, take, codes, ◌↔◌, MatchBool, IfOk, IfErr, IsTrue};
ghost use Rattle.vt_definitions.specs.Depths.{IsDepth, texel_length};
ghost use Rattle.vt_definitions.specs.Limits.{header_limit, most_tiled_side};
ghost use Rattle.vt_ppm.specs.Flaws.{IsFlawUpTo, IsBrokenAt, AreImageSides, IsLawfulHeader};
ghost use Rattle.vt_ppm.specs.Format.{depth_of};
ghost use Rattle.vt_ppm.specs.Header.{IsFirstHeader};
ghost use Rattle.vt_ppm.specs.Refusals.{IsRasterRefusal};

use crate::PpmError;
use crate::field::{field_at, is_white_byte};

/// Within how many bytes a header ends.
pub const HEADER_LIMIT: u64 = 65536;

/// The largest side of an image that is read whole.
pub const MOST_READ_SIDE: u32 = 8192;

/// The largest side of an image of which the header is read.
pub const MOST_TILED_SIDE: u32 = 16384;

// The largest maximum of a raster.
const MOST_MAXIMUM: u64 = 65535;

// The largest maximum of samples of one byte.
const MOST_BYTE: u32 = 255;

/// A header's numbers, and the place of the first raster byte.
#[derive(Clone, Copy, Debug, PartialEq, Eq)]
pub struct Header {
    /// The number of columns, from 1 to 16,384.
    pub width: u32,
    /// The number of rows, from 1 to 16,384.
    pub height: u32,
    /// The greatest sample, from 1 to 65,535. Where it is above 255, a sample has two bytes.
    pub maximum: u32,
    /// The place of the first raster byte, at most 65,536.
    pub raster: u64,
}

// A header as it is spelled: its numbers, whatever they are, and the place of the first raster byte.
#[derive(Clone, Copy)]
struct Spelled {
    width: u64,
    height: u64,
    maximum: u64,
    raster: usize,
}

// Whether the first two bytes are `P6`.
fn has_magic(bytes: &[u8]) -> bool
    ensures { IsTrue result ↔ (take 2 bytes.now ≡ codes "P6") }
{
    bytes.len() >= 2 && bytes[0] == b'P' && bytes[1] == b'6'
}

// The header in front; or the first byte with which none can be there, which is the length where the bytes end too
// soon.
fn first_header(head: &[u8]) -> Result<Spelled, usize>
    requires few { length head.now ≤ header_limit }
    requires magic { take 2 head.now ≡ codes "P6" }
    ensures header { IfOk result (λ h. IsFirstHeader head.now h.raster h.width h.height h.maximum) }
    ensures broken { IfErr result (λ at. IsBrokenAt head.now at) }
{
    let width = field_at(head, 2)?;
    let height = field_at(head, width.end)?;
    let maximum = field_at(head, height.end)?;
    if maximum.end == head.len() || !is_white_byte(head[maximum.end]) {
        return Err(maximum.end);
    }
    Ok(Spelled {
        width: width.value,
        height: height.value,
        maximum: maximum.value,
        raster: maximum.end + 1,
    })
}

// Whether these are sides of an image, where none is to be above `most`.
fn are_sides(width: u64, height: u64, most: u64) -> bool
    ensures { MatchBool result (AreImageSides most width height) (AreImageSides most width height → ⊥) }
{
    width >= 1 && width <= most && height >= 1 && height <= most
}

/// The header in the first bytes of an image; or the first flaw of those bytes, which is none of the raster. No side is
/// to be above `most`.
pub fn lawful_header(head: &[u8], most: u32) -> Result<Header, PpmError>
    requires { length head.now ≤ header_limit }
    ensures header { IfOk result (λ h. IsLawfulHeader most head.now h.raster h.width h.height h.maximum) }
    ensures flaw { IfErr result (λ e. IsFlawUpTo most head.now e) }
    ensures no_raster { IfErr result (λ e. IsRasterRefusal e → ⊥) }
{
    if !has_magic(head) {
        return Err(PpmError::BadMagic);
    }
    let spelled = match first_header(head) {
        Ok(spelled) => spelled,
        Err(at) => return Err(PpmError::BadHeader { at: at as u64 }),
    };
    if !are_sides(spelled.width, spelled.height, u64::from(most)) {
        return Err(PpmError::BadSize);
    }
    if spelled.maximum == 0 || spelled.maximum > MOST_MAXIMUM {
        return Err(PpmError::BadMaximum);
    }
    Ok(Header {
        width: spelled.width as u32,
        height: spelled.height as u32,
        maximum: spelled.maximum as u32,
        raster: spelled.raster as u64,
    })
}

/// How many bytes a sample has whose maximum is so much: 1 or 2.
#[tactic(auto, unfolding(crate::specs::Format::depth_of))]
pub fn depth_of(maximum: u32) -> u32
    ensures value { result ≡ depth_of maximum }
    ensures depth { IsDepth result }
{
    if maximum <= MOST_BYTE { 1 } else { 2 }
}

/// How many samples the raster behind a header has.
pub fn sample_count(header: &Header) -> usize
    requires { AreImageSides most_tiled_side header.now.width header.now.height }
    ensures value { result ≡ 3 * (header.now.width * header.now.height) }
    ensures few { result ≤ 3 * (most_tiled_side * most_tiled_side) }
{
    3 * (header.width as usize * header.height as usize)
}

/// How many bytes the raster behind a header has.
pub fn raster_length(header: &Header) -> u64
    requires { AreImageSides most_tiled_side header.now.width header.now.height }
    ensures { result ≡ texel_length (depth_of header.now.maximum) * (header.now.width * header.now.height) }
{
    depth_of(header.maximum) as u64 * sample_count(header) as u64
}
