//! What may be wrong with an input, and how it is printed.

ghost use Rattle.std.specs.Prelude.{◌≡◌};
ghost use Rattle.vt_text.specs.Places.{place_text};
ghost use Rattle.vt_command_inputs.specs.Flaws.{flaw_place, flaw_of_path, flaw_of_texture, flaw_of_store};

use vt_camera::PathError;
use vt_outside::OutsideError;
use vt_ppm::PpmError;
use vt_text::Place;
use vt_tiles::StoreError;

/// What is wrong with an input: the first flaw of its bytes. Lines count from 1, bytes from 0.
#[derive(Clone, Copy)]
pub enum Flaw {
    /// A line of a path or a journal has none of its forms.
    BadLine(u32),
    /// A line of a path goes on from a key, and there is none.
    NoKey(u32),
    /// A path has more than 9999 pictures.
    TooManyPictures,
    /// A texture or a store does not begin as one.
    BadMagic,
    /// A texture's header does not go on at a byte.
    BadHeader(u64),
    /// A texture's side is outside its limits.
    BadSize,
    /// A texture's maximum is outside its limits.
    BadMaximum,
    /// A texture's raster has so many bytes, and should have others.
    Truncated { want: u64, have: u64 },
    /// A texture's sample that begins at a byte is above the maximum.
    SampleOver(u64),
    /// A texture has so many pages, which is too many.
    TooManyPages(u64),
    /// A store's header makes no geometry of pages.
    BadGeometry,
    /// A store has so many bytes, and should have others.
    WrongLength { want: u64, have: u64 },
    /// A store has samples of two bytes, and should have those of one.
    AlreadyWide,
}

impl Flaw {
    /// The place of the flaw, as it is printed.
    pub fn place(&self) -> Place<'static>
        ensures { place_text result ≡ flaw_place self.now }
    {
        match self {
            Flaw::BadLine(line) => Place::number(b"bad line ", *line as u64),
            Flaw::NoKey(line) => Place::number(b"no key at line ", *line as u64),
            Flaw::TooManyPictures => Place::words(b"too many pictures"),
            Flaw::BadMagic => Place::words(b"bad magic"),
            Flaw::BadHeader(at) => Place::number(b"bad header at byte ", *at),
            Flaw::BadSize => Place::words(b"bad size"),
            Flaw::BadMaximum => Place::words(b"bad maximum"),
            Flaw::Truncated { want, have } => {
                Place::two_numbers(b"raster of ", *have, b" bytes, wanted ", *want)
            }
            Flaw::SampleOver(at) => Place::number(b"sample over maximum at byte ", *at),
            Flaw::TooManyPages(pages) => Place::number(b"too many pages ", *pages),
            Flaw::BadGeometry => Place::words(b"bad geometry"),
            Flaw::WrongLength { want, have } => {
                Place::two_numbers(b"length ", *have, b", wanted ", *want)
            }
            Flaw::AlreadyWide => Place::words(b"already wide"),
        }
    }
}

/// The flaw of a path that is refused, or what the outside refused.
pub fn flaw_of_path(error: PathError) -> Result<Flaw, OutsideError>
    ensures { result ≡ flaw_of_path error }
{
    match error {
        PathError::BadLine { line } => Ok(Flaw::BadLine(line)),
        PathError::NoKey { line } => Ok(Flaw::NoKey(line)),
        PathError::TooManyPictures => Ok(Flaw::TooManyPictures),
        PathError::NoMemory => Err(OutsideError::NoMemory),
    }
}

/// The flaw of a texture that is refused, or what the outside refused.
pub fn flaw_of_texture(error: PpmError) -> Result<Flaw, OutsideError>
    ensures { result ≡ flaw_of_texture error }
{
    match error {
        PpmError::BadMagic => Ok(Flaw::BadMagic),
        PpmError::BadHeader { at } => Ok(Flaw::BadHeader(at)),
        PpmError::BadSize => Ok(Flaw::BadSize),
        PpmError::BadMaximum => Ok(Flaw::BadMaximum),
        PpmError::Truncated { want, have } => Ok(Flaw::Truncated { want, have }),
        PpmError::SampleOver { at } => Ok(Flaw::SampleOver(at)),
        PpmError::Failed => Err(OutsideError::Failed),
        PpmError::NoMemory => Err(OutsideError::NoMemory),
    }
}

/// The flaw of a store that is refused, or what the outside refused.
pub fn flaw_of_store(error: StoreError) -> Result<Flaw, OutsideError>
    ensures { result ≡ flaw_of_store error }
{
    match error {
        StoreError::BadMagic => Ok(Flaw::BadMagic),
        StoreError::BadGeometry => Ok(Flaw::BadGeometry),
        StoreError::WrongLength { want, have } => Ok(Flaw::WrongLength { want, have }),
        StoreError::Failed => Err(OutsideError::Failed),
        StoreError::NoMemory => Err(OutsideError::NoMemory),
    }
}
