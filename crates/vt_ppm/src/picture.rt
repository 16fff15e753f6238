//! Pictures are written in the raw PPM form.
ghost use Rattle.std.specs.Prelude.{◌≡◌, ◌*◌, length, IfOk, OnOk};
ghost use Rattle.vt_definitions.specs.Depths.{IsDepth, texel_length};
ghost use Rattle.vt_ppm.specs.Picture.{picture_header, picture_bytes};

use std::alloc::Global;
use vt_definitions::greatest_sample;
use vt_outside::NoMemory;

/// The bytes of a picture of the samples, three a texel and row by row from the top, each of one byte: a header with 255
/// as maximum, and the samples.
pub fn encode(alloc: Global, width: u32, height: u32, samples: &[u8]) -> Result<Vec<u8>, NoMemory>
    requires { length samples.now ≡ 3 * (width * height) }
    ensures { IfOk result (λ bytes. bytes.items ≡ picture_bytes 1 width height samples.now) }
{
    picture(alloc, 1, width, height, samples)
}

/// The bytes of a picture of the samples, three a texel and row by row from the top, each of two bytes with the most
/// significant first: a header with 65,535 as maximum, and the samples.
pub fn encode_wide(
    alloc: Global,
    width: u32,
    height: u32,
    samples: &[u8],
) -> Result<Vec<u8>, NoMemory>
    requires { length samples.now ≡ 6 * (width * height) }
    ensures { IfOk result (λ bytes. bytes.items ≡ picture_bytes 2 width height samples.now) }
{
    picture(alloc, 2, width, height, samples)
}

// The bytes of a picture of samples that have `depth` bytes each.
fn picture(
    alloc: Global,
    depth: u32,
    width: u32,
    height: u32,
    samples: &[u8],
) -> Result<Vec<u8>, NoMemory>
    requires { IsDepth depth }
    ensures { IfOk result (λ bytes. bytes.items ≡ picture_bytes depth width height samples.now) }
{
    let mut bytes = header(alloc, depth, width, height)?;
    bytes.extend_from_slice(samples)?;
    Ok(bytes)
}

// What is before the samples of a picture.
fn header(alloc: Global, depth: u32, width: u32, height: u32) -> Result<Vec<u8>, NoMemory>
    requires { IsDepth depth }
    ensures { IfOk result (λ bytes. bytes.items ≡ picture_header depth width height) }
{
    let maximum = greatest_sample(depth);
    Ok(format!(in alloc; "P6\n{width} {height}\n{maximum}\n")?.into_bytes())
}

/// Makes a buffer hold what is before the samples of a picture, each of `depth` bytes, 1 or 2, so that the samples can be added
/// behind it. After want of memory it may hold anything.
pub fn begin_picture(
    bytes: &mut Vec<u8>,
    alloc: Global,
    depth: u32,
    width: u32,
    height: u32,
) -> Result<(), NoMemory>
    requires { IsDepth depth }
    ensures { OnOk result (bytes.new.items ≡ picture_header depth width height) }
{
    let header = header(alloc, depth, width, height)?;
    bytes.clear();
    bytes.extend_from_slice(&header)?;
    Ok(())
}

/// Makes the bytes of a picture of the samples, each of `depth` bytes, 1 or 2, in a buffer, which can so serve one picture after the
/// other. After want of memory the buffer may hold anything.
pub fn encode_into(
    bytes: &mut Vec<u8>,
    alloc: Global,
    depth: u32,
    width: u32,
    height: u32,
    samples: &[u8],
) -> Result<(), NoMemory>
    requires depth { IsDepth depth }
    requires full { length samples.now ≡ texel_length depth * (width * height) }
    ensures { OnOk result (bytes.new.items ≡ picture_bytes depth width height samples.now) }
{
    begin_picture(bytes, alloc, depth, width, height)?;
    bytes.extend_from_slice(samples)?;
    Ok(())
}
