//! Images are read from a file.
ghost use Rattle.std.specs.Prelude.{◌≡◌, ◌+◌, ◌≤◌, length, min, IfOk, IfErr, IfSome, IsErrOf, OnOk};
ghost use Rattle.vt_definitions.specs.Limits.{header_limit, most_tiled_side};
ghost use Rattle.vt_outside.specs.Counts.{Rose};
ghost use Rattle.vt_outside.specs.Files.{IsPiece, AreBytesIfKnown};
ghost use Rattle.vt_ppm.specs.Format.{IsImage};
ghost use Rattle.vt_ppm.specs.Flaws.{AreImageSides, IsFlawUpTo, IsHeaderFlaw, IsImageFlaw, IsLawfulHeader};
ghost use Rattle.vt_ppm.specs.Reads.{AsksPpmHeader, AsksImage, AnswersOfHeader, AnswersOfImage, ReadsFront, NotesRead, IsImagePrefix};
ghost use Rattle.vt_ppm.specs.Refusals.{IsPpmOutsideRefusal, IsRasterRefusal, IsSampleRefusal};
ghost use Rattle.vt_ppm.specs.Strips.{IsTextureHeader, HasRasterIfKnown};

use crate::header::{HEADER_LIMIT, MOST_READ_SIDE, MOST_TILED_SIDE, lawful_header, raster_length};
use crate::parts::{over_at_in_parts, passing_threads};
use crate::raster::image_of;
use crate::{Header, Image, PpmError};
use std::alloc::Global;
use std::thread::Threads;
use vt_outside::{File, NoMemory};

// The front of a file, as far as a header may reach, and the length of the whole.
#[derive(Drop)]
struct Front {
    bytes: Vec<u8>,
    length: u64,
}

/// So many zeros.
pub fn zeros(alloc: Global, count: usize) -> Result<Vec<u8>, NoMemory>
    ensures { IfOk result (λ v. length v.items ≡ count) }
{
    Ok(vec![in alloc; 0u8; count]?)
}

// The bytes of the file from `at` on, so many.
fn bytes_at<F: File>(
    alloc: Global,
    file: &mut F,
    at: u64,
    count: usize,
) -> Result<Vec<u8>, PpmError>
    requires { 1 ≤ F.spare file.old }
    ensures piece { IfOk result (λ v. IfSome (F.bytes file.old) (λ b. IsPiece b at v.items)) }
    ensures count { IfOk result (λ v. length v.items ≡ count) }
    ensures refusals { IfErr result IsPpmOutsideRefusal }
    ensures failed { IsErrOf result PpmError.Failed → IfSome (F.bytes file.old) (λ b. at + count ≤ length b) → Rose (F.faults file.old) (F.faults file.new) }
    ensures asked { NotesRead result at count (F.asked file.old) (F.asked file.new) }
    ensures spare { F.spare file.old ≤ F.spare file.new + 1 }
    ensures bytes { F.bytes file.new ≡ F.bytes file.old }
    ensures name { F.name file.new ≡ F.name file.old }
    ensures faults { F.faults file.old ≤ F.faults file.new }
{
    let mut bytes = zeros(alloc, count)?;
    file.read_at(at, bytes.as_mut_slice())?;
    Ok(bytes)
}

// Reads the front of the file, after making room to note so many reads, of which this is one.
fn front_of<F: File>(alloc: Global, file: &mut F, reads: u64) -> Result<Front, PpmError>
    requires { 1 ≤ reads }
    ensures front { IfOk result (λ f. IfSome (F.bytes file.old) (λ b. IsImagePrefix b f.length f.bytes.items)) }
    ensures values { OnOk result (AreBytesIfKnown (F.bytes file.old)) }
    ensures few { IfOk result (λ f. length f.bytes.items ≡ min f.length header_limit) }
    ensures refusals { IfErr result IsPpmOutsideRefusal }
    ensures failed { IsErrOf result PpmError.Failed → Rose (F.faults file.old) (F.faults file.new) }
    ensures asked { AsksPpmHeader (F.bytes file.old) (F.asked file.old) (F.asked file.new) }
    ensures read { OnOk result (ReadsFront (F.bytes file.old) (F.asked file.old) (F.asked file.new)) }
    ensures spare { OnOk result (reads ≤ F.spare file.new + 1) }
    ensures bytes { F.bytes file.new ≡ F.bytes file.old }
    ensures name { F.name file.new ≡ F.name file.old }
    ensures faults { F.faults file.old ≤ F.faults file.new }
{
    let length = file.length()?;
    file.reserve(reads)?;
    let bytes = bytes_at(alloc, file, 0, length.min(HEADER_LIMIT) as usize)?;
    Ok(Front { bytes, length })
}

/// Reads the header of an image (the Netpbm manual's P6 page, with this project's comments and bounds), which ends within the
/// first 65,536 bytes.
///
/// Where the file tells its bytes, `BadMagic`, `BadHeader`, `BadSize` and `BadMaximum` come exactly as the first
/// flaw of those bytes. `Failed` comes only where the file's count of faults rose, and `NoMemory` where memory was refused. No
/// other refusal comes. It asks for one place at most: the front of the file, as far as a header may reach.
pub fn read_header<F: File>(alloc: Global, file: &mut F) -> Result<Header, PpmError>
    ensures header { IfOk result (λ h. IfSome (F.bytes file.old) (λ b. IsLawfulHeader most_tiled_side b h.raster h.width h.height h.maximum)) }
    ensures flaw { IfErr result (λ e. (IsPpmOutsideRefusal e → ⊥) → IfSome (F.bytes file.old) (λ b. IsHeaderFlaw b e)) }
    ensures no_raster { IfErr result (λ e. IsRasterRefusal e → ⊥) }
    ensures failed { IsErrOf result PpmError.Failed → Rose (F.faults file.old) (F.faults file.new) }
    ensures asked { AsksPpmHeader (F.bytes file.old) (F.asked file.old) (F.asked file.new) }
    ensures read { AnswersOfHeader result (F.bytes file.old) (F.asked file.old) (F.asked file.new) }
    ensures bytes { F.bytes file.new ≡ F.bytes file.old }
    ensures name { F.name file.new ≡ F.name file.old }
    ensures faults { F.faults file.old ≤ F.faults file.new }
{
    let front = front_of(alloc, file, 1)?;
    lawful_header(&front.bytes, MOST_TILED_SIDE)
}

/// Reads the header of a texture whose sides are at most `most`, and looks whether its raster is there. The refusals are those of
/// `StripReader::open`.
pub fn read_texture_header<F: File>(
    alloc: Global,
    file: &mut F,
    most: u32,
) -> Result<Header, PpmError>
    requires { most ≤ most_tiled_side }
    ensures limits { IfOk result IsTextureHeader }
    ensures sides { IfOk result (λ h. AreImageSides most h.width h.height) }
    ensures raster { IfOk result (HasRasterIfKnown (F.bytes file.old)) }
    ensures flaw { IfErr result (λ e. (IsPpmOutsideRefusal e → ⊥) → IfSome (F.bytes file.old) (λ b. IsFlawUpTo most b e)) }
    ensures no_sample { IfErr result (λ e. IsSampleRefusal e → ⊥) }
    ensures failed { IsErrOf result PpmError.Failed → Rose (F.faults file.old) (F.faults file.new) }
    ensures asked { AsksPpmHeader (F.bytes file.old) (F.asked file.old) (F.asked file.new) }
    ensures read { AnswersOfHeader result (F.bytes file.old) (F.asked file.old) (F.asked file.new) }
    ensures bytes { F.bytes file.new ≡ F.bytes file.old }
    ensures name { F.name file.new ≡ F.name file.old }
    ensures faults { F.faults file.old ≤ F.faults file.new }
{
    let Front { bytes, length } = front_of(alloc, file, 1)?;
    let header = lawful_header(&bytes, most)?;
    let want = raster_length(&header);
    let have = length - header.raster;
    if have < want {
        return Err(PpmError::Truncated { want, have });
    }
    Ok(header)
}

/// Reads the image of a file (the Netpbm manual's P6 page, with this project's comments and bounds), each sample scaled so that
/// the greatest is 255, or 65,535 where the maximum is above 255. Bytes after the raster are left unread.
///
/// Where the file tells its bytes, `BadMagic` to `SampleOver` come exactly as the first flaw of those bytes. `Failed` comes only
/// where the file's count of faults rose, and `NoMemory` where memory was refused. It asks for two places at most: the front of
/// the file, as far as a header may reach, and then the raster. The samples of a large raster are scaled in several threads.
pub fn read_image<Rt: Threads + Sync, F: File>(
    rt: &Rt,
    alloc: Global,
    file: &mut F,
) -> Result<Image, PpmError>
    ensures image { IfOk result (λ i. IfSome (F.bytes file.old) (λ b. IsImage b i)) }
    ensures flaw { IfErr result (λ e. (IsPpmOutsideRefusal e → ⊥) → IfSome (F.bytes file.old) (λ b. IsImageFlaw b e)) }
    ensures failed { IsErrOf result PpmError.Failed → Rose (F.faults file.old) (F.faults file.new) }
    ensures asked { AsksImage (F.bytes file.old) (F.asked file.old) (F.asked file.new) }
    ensures read { AnswersOfImage result (F.bytes file.old) (F.asked file.old) (F.asked file.new) }
    ensures bytes { F.bytes file.new ≡ F.bytes file.old }
    ensures name { F.name file.new ≡ F.name file.old }
    ensures faults { F.faults file.old ≤ F.faults file.new }
{
    let front = front_of(alloc, file, 2)?;
    let header = lawful_header(&front.bytes, MOST_READ_SIDE)?;
    let want = raster_length(&header);
    let have = front.length - header.raster;
    if have < want {
        return Err(PpmError::Truncated { want, have });
    }
    let raster = bytes_at(alloc, file, header.raster, want as usize)?;
    let threads = passing_threads(rt, &header);
    if let Some(at) = over_at_in_parts(rt, threads, &header, &raster) {
        return Err(PpmError::SampleOver { at });
    }
    Ok(image_of(rt, threads, &header, raster))
}
