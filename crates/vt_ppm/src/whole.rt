//! Bytes in memory are looked over.
ghost use Rattle.std.specs.Prelude.{IfSome, IfNone};
ghost use Rattle.vt_ppm.specs.Format.{IsImage};
ghost use Rattle.vt_ppm.specs.Flaws.{IsImageFlaw};
ghost use Rattle.vt_ppm.specs.Image.{ImageView};

use crate::PpmError;
use crate::header::{HEADER_LIMIT, MOST_READ_SIDE, lawful_header, raster_length};
use crate::raster::over_at;

/// The first flaw of bytes in memory, and none where they spell an image. It takes no memory.
pub fn image_flaw(bytes: &[u8]) -> Option<PpmError>
    ensures none { IfNone result ((p : ImageView) × IsImage bytes.now p) }
    ensures some { IfSome result (λ e. IsImageFlaw bytes.now e) }
{
    let (head, _) = bytes.split_at(bytes.len().min(HEADER_LIMIT as usize));
    let header = match lawful_header(head, MOST_READ_SIDE) {
        Ok(header) => header,
        Err(flaw) => return Some(flaw),
    };
    let (_, behind) = bytes.split_at(header.raster as usize);
    let want = raster_length(&header);
    let have = behind.len() as u64;
    if have < want {
        return Some(PpmError::Truncated { want, have });
    }
    let (raster, _) = behind.split_at(want as usize);
    let at = over_at(&header, raster)?;
    Some(PpmError::SampleOver { at })
}
