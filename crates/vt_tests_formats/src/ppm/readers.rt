//! What the readers of a texture make of the bytes that `t` holds in a folder in memory.
ghost use Rattle.std.specs.Prelude.{◌≡◌, true, IfOk, OnOk};

use std::alloc::Global;
use std::thread::Threads;
use vt_outside::{Failed, Folder, MemoryFile, MemoryFolder};
use vt_ppm::{Header, Image, PpmError, StripReader, read_header, read_image};

/// Who reads a texture: as an image, its header alone, or by rows, with its samples looked over or not.
#[derive(Clone, Copy)]
pub enum Reader {
    Image,
    Header,
    Rows,
    Checked,
}

/// Rows of a texture, as many as the second number tells from the first on; none where their read fails.
pub type Strip<'a> = (u32, u32, Option<&'a [u8]>);

/// The image that `t` holds.
pub fn image_in<Rt: Threads + Sync>(
    rt: &Rt,
    alloc: Global,
    folder: &mut MemoryFolder,
) -> Result<Image, PpmError> {
    let Ok(mut file) = folder.open("t") else {
        return Err(PpmError::Failed);
    };
    let image = read_image(rt, alloc, &mut file);
    folder.close(file);
    image
}

/// The header of `t`.
pub fn header_in(alloc: Global, folder: &mut MemoryFolder) -> Result<Header, PpmError> {
    let Ok(mut file) = folder.open("t") else {
        return Err(PpmError::Failed);
    };
    let header = read_header(alloc, &mut file);
    folder.close(file);
    header
}

// A reader of the texture that `t` holds.
fn opened_in(
    alloc: Global,
    folder: &mut MemoryFolder,
) -> Result<StripReader<MemoryFile>, PpmError> {
    let Ok(file) = folder.open("t") else {
        return Err(PpmError::Failed);
    };
    match StripReader::open(alloc, file) {
        Ok(reader) => Ok(reader),
        Err((file, refusal)) => {
            folder.close(file);
            Err(refusal)
        }
    }
}

// Looks the samples of a texture over.
fn check(reader: &mut StripReader<MemoryFile>) -> Result<(), PpmError>
    ensures { OnOk result (reader.new.checked ≡ true) }
{
    let rows = reader.header().height;
    match reader.reserve(u64::from(rows)) {
        Ok(()) => reader.check(),
        Err(_) => Err(PpmError::NoMemory),
    }
}

// A reader of the texture that `t` holds, whose samples were looked over.
fn checked_in(alloc: Global, folder: &mut MemoryFolder) -> Result<StripReader<MemoryFile>, PpmError>
    ensures { IfOk result (λ reader. reader.checked ≡ true) }
{
    let mut reader = opened_in(alloc, folder)?;
    match check(&mut reader) {
        Ok(()) => Ok(reader),
        Err(refusal) => {
            folder.close(reader.into_file());
            Err(refusal)
        }
    }
}

// The refusal of an answer; a reader is closed.
fn refusal_of(
    folder: &mut MemoryFolder,
    answer: Result<StripReader<MemoryFile>, PpmError>,
) -> Option<PpmError> {
    match answer {
        Ok(reader) => {
            folder.close(reader.into_file());
            None
        }
        Err(refusal) => Some(refusal),
    }
}

/// Why a reader refuses what `t` holds.
pub fn refusal_in<Rt: Threads + Sync>(
    rt: &Rt,
    alloc: Global,
    folder: &mut MemoryFolder,
    reader: Reader,
) -> Option<PpmError> {
    let answer = match reader {
        Reader::Image => return image_in(rt, alloc, folder).err(),
        Reader::Header => return header_in(alloc, folder).err(),
        Reader::Rows => opened_in(alloc, folder),
        Reader::Checked => checked_in(alloc, folder),
    };
    refusal_of(folder, answer)
}

// Reads so many rows from one on, where there are as many, they fill the room, and there is memory to note the read.
fn read_into(
    reader: &mut StripReader<MemoryFile>,
    y: u32,
    count: u32,
    room: &mut [u8],
) -> Option<Result<(), Failed>>
    requires { reader.old.checked ≡ true }
    ensures { reader.new.checked ≡ true }
{
    let height = reader.header().height;
    if y > height || count > height - y || room.len() != count as usize * reader.row_length() {
        return None;
    }
    if reader.reserve(1).is_err() {
        return None;
    }
    if count == 1 {
        Some(reader.row(y, room))
    } else {
        Some(reader.rows(y, count, room))
    }
}

// Whether these rows, of sixteen bytes at most, are read, or their read fails.
fn is_strip(reader: &mut StripReader<MemoryFile>, strip: Strip) -> bool
    requires { reader.old.checked ≡ true }
    ensures { reader.new.checked ≡ true }
{
    let (y, count, want) = strip;
    let mut room = [0; 16];
    let length = count as usize * reader.row_length();
    if length > room.len() {
        return false;
    }
    match read_into(reader, y, count, &mut room[..length]) {
        Some(Ok(())) => want == Some(&room[..length]),
        Some(Err(_)) => want.is_none(),
        None => false,
    }
}

/// Whether the samples of the texture that `t` holds have so many bytes, and it gives a strip and then another.
pub fn gives(
    alloc: Global,
    folder: &mut MemoryFolder,
    depth: u32,
    first: Strip,
    second: Strip,
) -> bool {
    match checked_in(alloc, folder) {
        Ok(mut reader) => {
            let gives = reader.depth() == depth
                && is_strip(&mut reader, first)
                && is_strip(&mut reader, second);
            folder.close(reader.into_file());
            gives
        }
        Err(_) => false,
    }
}
