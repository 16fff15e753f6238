//! Laws of the image format.
ghost use Rattle.std.specs.Prelude.{◌≡◌, ℕ, ◌*◌, ◌<◌, ◌^◌, List};
ghost use Rattle.vt_definitions.specs.Depths.{IsDepth, AreBytes};
ghost use Rattle.vt_ppm.specs.declared.error.PpmError.{PpmError};
ghost use Rattle.vt_ppm.specs.Flaws.{AreImageSides, IsFlawUpTo, IsHeaderFlaw, IsLawfulHeader};
ghost use Rattle.vt_ppm.specs.declared.header.Header.{Header};
ghost use Rattle.vt_ppm.specs.Strips.{HasRaster};
ghost use Rattle.vt_ppm.specs.Format.{AreSameHeaders, HasHeader, IsImage, IsImageUpTo, IsTexture};
ghost use Rattle.vt_ppm.specs.Image.{ImageView, IsLawfulImage, texel_of};
ghost use Rattle.vt_ppm.specs.Picture.{picture_bytes};
ghost use Rattle.vt_ppm.specs.Refusals.{IsRasterRefusal};

use crate::Image;

/// Bytes begin with one header at most: of two, the places of the raster, the sides and the maxima are the same.
pub fn header_is_one()
    ensures { (b : List ℕ) (r w h m s u v n : ℕ) → HasHeader b r w h m → HasHeader b s u v n → AreSameHeaders r w h m s u v n }
{}

/// Bytes spell one image at most, whatever the largest side that is taken, so that a reader of known bytes can answer no other.
pub fn image_is_one()
    ensures { (most : ℕ) (b : List ℕ) (p q : ImageView) → IsImageUpTo most b p → IsImageUpTo most b q → p ≡ q }
{}

/// Bytes that spell an image that may be read whole spell it as a texture too, so that both readers answer the same samples.
pub fn image_is_texture()
    ensures { (b : List ℕ) (p : ImageView) → IsImage b p → IsTexture b p }
{}

/// A texture whose sides are not above a number is an image up to that number.
pub fn texture_within_sides()
    ensures { (most : ℕ) (b : List ℕ) (p : ImageView) → AreImageSides most p.width p.height → IsTexture b p → IsImageUpTo most b p }
{}

/// A sample above the maximum of a texture whose sides are not above a number is its flaw as an image up to that number.
pub fn sample_flaw_within_sides()
    ensures { (most : ℕ) (b : List ℕ) (h : Header) (at : ℕ) → HasRaster b h → AreImageSides most h.width h.height
        → IsHeaderFlaw b (PpmError.SampleOver at) → IsFlawUpTo most b (PpmError.SampleOver at) }
{}

/// The bytes that are written of an image spell that image.
pub fn written_is_read()
    ensures { (p : ImageView) → IsLawfulImage p → AreBytes p.samples → IsImage (picture_bytes p.depth p.width p.height p.samples) p }
{}

/// The samples of an image that bytes spell are kept in bytes.
pub fn spelt_samples_are_bytes()
    ensures { (most : ℕ) (b : List ℕ) (p : ImageView) → IsImageUpTo most b p → AreBytes p.samples }
{}

/// The samples of an image in memory are kept in bytes.
pub fn samples_are_bytes(image: &Image)
    ensures { AreBytes image.now.samples }
{
    are_bytes(image.samples());
}

// The numbers of a slice of bytes are below 256.
fn are_bytes(bytes: &[u8])
    ensures { AreBytes bytes.now }
{
    let _ = bytes;
}

/// The words of the texels of an image whose samples are bytes are below 2^24 at one byte a sample, and below 2^48 at two.
pub fn texel_words_are_small()
    ensures { (p : ImageView) (x y : ℕ) → IsDepth p.depth → AreBytes p.samples → texel_of p x y < 2 ^ (24 * p.depth) }
{}

/// The bytes of an image have no flaw, so that a reader that refuses only for a flaw of the bytes refuses no image.
pub fn image_has_no_flaw()
    ensures { (most : ℕ) (b : List ℕ) (p : ImageView) (e : PpmError) → IsImageUpTo most b p → IsFlawUpTo most b e → ⊥ }
{}

/// Bytes have one flaw at most, whatever the largest side that is taken, so that a reader of known bytes can name no other.
pub fn flaw_is_one()
    ensures { (most : ℕ) (b : List ℕ) (e f : PpmError) → IsFlawUpTo most b e → IsFlawUpTo most b f → e ≡ f }
{}

/// Bytes that begin with a lawful header have no flaw but one of the raster.
pub fn header_has_no_flaw()
    ensures { (most : ℕ) (b : List ℕ) (r w h m : ℕ) (e : PpmError) → IsLawfulHeader most b r w h m → IsFlawUpTo most b e → IsRasterRefusal e }
{}
