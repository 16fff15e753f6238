//! Level 1 of a texture that is read by strips, each of which is read while the one before it is halved.

ghost use Rattle.std.specs.Prelude.{◌≡◌, ℕ, ◌+◌, ◌*◌, ◌/◌, ◌%◌, ◌<◌, ◌≤◌, ◌⊎◌, List, Some, take, true, length, vec_len, is_err, IsErr, IsErrOf, IfOk, IfSome, OnOk, OnErr};
ghost use Rattle.std.specs.Thread.{IsSync};
ghost use Rattle.vt_ppm.specs.Counts.{Rose};
ghost use Rattle.vt_ppm.specs.Files.{IsPiece};
ghost use Rattle.vt_ppm.specs.Format.{depth_of};
ghost use Rattle.vt_ppm.specs.Image.{ImageView, IsLawfulImage};
ghost use Rattle.vt_ppm.specs.StripPlaces.{StripsAsked, StripsTried, strip_rows, strips_of};
ghost use Rattle.vt_ppm.specs.Strips.{IsTextureHeader, RowsAsked, row_length, sample_rows, texture_of};
ghost use Rattle.vt_mip.specs.Halves.{IsHalf};
ghost use Rattle.vt_mip.specs.TakenRows.{HalvesFront};
ghost use Rattle.vt_mip.specs.HalvedStrips.{HoldsStrip, IsAtStrip, IsHalvedTo, KeepsReader, reader_state, strip_height, strip_length};

use crate::taken_rows::Halving;
use std::alloc::Global;
use std::mem;
use std::thread::{Threads, join_mut};
use vt_ppm::{
    Failed, File, Header, Image, NoMemory, OutsideError, STRIP_HALVING_TIME, StripReader,
    processors, threads_for,
};

// How many rows a strip has.
const STRIP_ROWS: u32 = 128;

// How many strips a texture has.
fn strips_in(header: &Header) -> u32
    requires { IsTextureHeader header.now }
    ensures value { result ≡ strips_of header.now strip_height }
    ensures some { 1 ≤ result }
{
    (header.height + STRIP_ROWS - 1) / STRIP_ROWS
}

// How many rows a strip has: an even number, but at the end.
fn rows_in(header: &Header, strip: u32) -> u32
    requires header { IsTextureHeader header.now }
    requires strip { strip < strips_of header.now strip_height }
    ensures value { result ≡ strip_rows header.now strip_height strip }
    ensures some { 1 ≤ result }
    ensures few { result ≤ 128 }
    ensures inside { strip * strip_height + result ≤ header.now.height }
    ensures pairs { (result % 2 ≡ 0) ⊎ (strip * strip_height + result ≡ header.now.height) }
{
    STRIP_ROWS.min(header.height - strip * STRIP_ROWS)
}

// Reads a strip into the front of a room. It makes one read, and takes no memory.
fn read_strip<F: File>(
    reader: &mut StripReader<F>,
    strip: u32,
    room: &mut [u8],
) -> Result<(), Failed>
    requires checked { reader.old.checked ≡ true }
    requires strip { strip < strips_of reader.old.header strip_height }
    requires spare { 1 ≤ F.spare reader.old.file }
    requires room { strip_length reader.old.header strip ≤ length room.old }
    ensures holds { OnOk result (IfSome (F.bytes reader.old.file) (λ b. HoldsStrip reader.old.header strip b room.new)) }
    ensures failed { IsErr result → Rose (F.faults reader.old.file) (F.faults reader.new.file) }
    ensures asked { RowsAsked reader.old.header (strip * strip_height) (strip_rows reader.old.header strip_height strip) (is_err result)
        (F.asked reader.old.file) (F.asked reader.new.file) }
    ensures spare { F.spare reader.old.file ≤ F.spare reader.new.file + 1 }
    ensures kept { KeepsReader (reader_state F.File reader.old) (reader_state F.File reader.new) }
{
    let count = rows_in(reader.header(), strip);
    let size = count as usize * reader.row_length();
    reader.rows(strip * STRIP_ROWS, count, &mut room[..size])
}

// Halves the strip with which a room begins, whose rows have so many bytes, in so many threads.
fn halve_strip<Rt: Threads + Sync>(
    rt: &Rt,
    threads: usize,
    header: &Header,
    row: usize,
    strip: u32,
    room: &[u8],
    half: &mut Halving,
)
    requires header { IsTextureHeader header.now }
    requires row { row ≡ row_length header.now }
    requires strip { strip < strips_of header.now strip_height }
    requires to { IsHalvedTo header.now strip half.old }
    requires room { strip_length header.now strip ≤ length room.now }
    ensures taken { half.new.taken ≡ strip * strip_height + strip_rows header.now strip_height strip }
    ensures depth { half.new.depth ≡ half.old.depth }
    ensures width { half.new.width ≡ half.old.width }
    ensures height { half.new.height ≡ half.old.height }
    ensures halves { (p : ImageView) → HalvesFront p half.old
        → IsPiece p.samples (strip * strip_height * row_length header.now) (take (strip_length header.now strip) room.now) → HalvesFront p half.new }
{
    let count = rows_in(header, strip);
    half.take(rt, threads, &room[..count as usize * row], count);
}

// Halves the strip with which `front` begins, and reads the next one into `back`: meanwhile, where two threads are at work.
fn turn<Rt: Threads + Sync, F: File>(
    rt: &Rt,
    threads: usize,
    reader: &mut StripReader<F>,
    strip: u32,
    front: &[u8],
    back: &mut [u8],
    half: &mut Halving,
) -> Result<(), Failed>
    requires checked { reader.old.checked ≡ true }
    requires next { strip + 1 < strips_of reader.old.header strip_height }
    requires spare { 1 ≤ F.spare reader.old.file }
    requires to { IsHalvedTo reader.old.header strip half.old }
    requires front { strip_length reader.old.header strip ≤ length front.now }
    requires back { strip_length reader.old.header (strip + 1) ≤ length back.old }
    ensures holds { OnOk result (IfSome (F.bytes reader.old.file) (λ b. HoldsStrip reader.old.header (strip + 1) b back.new)) }
    ensures failed { IsErr result → Rose (F.faults reader.old.file) (F.faults reader.new.file) }
    ensures asked { RowsAsked reader.old.header ((strip + 1) * strip_height) (strip_rows reader.old.header strip_height (strip + 1)) (is_err result)
        (F.asked reader.old.file) (F.asked reader.new.file) }
    ensures spare { F.spare reader.old.file ≤ F.spare reader.new.file + 1 }
    ensures kept { KeepsReader (reader_state F.File reader.old) (reader_state F.File reader.new) }
    ensures to { IsHalvedTo reader.old.header (strip + 1) half.new }
    ensures halves { (p : ImageView) → HalvesFront p half.old
        → IsPiece p.samples (strip * strip_height * row_length reader.old.header) (take (strip_length reader.old.header strip) front.now)
        → HalvesFront p half.new }
{
    let header = *reader.header();
    let row = reader.row_length();
    if threads < 2 {
        halve_strip(rt, 1, &header, row, strip, front, half);
        return read_strip(reader, strip + 1, back);
    }
    let halvers = threads - 1;
    let next = strip + 1;
    let (_, read) = join_mut(
        rt,
        &mut || -> ()
            requires { IsSync Rt.row × IsTextureHeader header × (row ≡ row_length header) × (strip < strips_of header strip_height)
                × IsHalvedTo header strip half.now × (strip_length header strip ≤ length front.now) }
            ensures { (half.exit.now.taken ≡ strip * strip_height + strip_rows header strip_height strip)
                × (half.exit.now.depth ≡ half.entry.now.depth) × (half.exit.now.width ≡ half.entry.now.width)
                × (half.exit.now.height ≡ half.entry.now.height)
                × ((p : ImageView) → HalvesFront p half.entry.now
                → IsPiece p.samples (strip * strip_height * row_length header) (take (strip_length header strip) front.entry.now) → HalvesFront p half.exit.now) }
        { halve_strip(rt, halvers, &header, row, strip, front, half) },
        &mut || -> Result<(), Failed>
            requires { (reader.now.checked ≡ true) × (next < strips_of reader.now.header strip_height) × (1 ≤ F.spare reader.now.file)
                × (strip_length reader.now.header next ≤ length back.now) }
            ensures { OnOk result (IfSome (F.bytes reader.entry.now.file) (λ b. HoldsStrip reader.entry.now.header next b back.exit.now))
                × (IsErr result → Rose (F.faults reader.entry.now.file) (F.faults reader.exit.now.file))
                × RowsAsked reader.entry.now.header (next * strip_height) (strip_rows reader.entry.now.header strip_height next) (is_err result)
                (F.asked reader.entry.now.file) (F.asked reader.exit.now.file)
                × (F.spare reader.entry.now.file ≤ F.spare reader.exit.now.file + 1)
                × KeepsReader (reader_state F.File reader.entry.now) (reader_state F.File reader.exit.now) }
        { read_strip(reader, next, back) },
    );
    read
}

// Reads all strips in order, each once, and halves them. The rooms are as long as the first strip.
fn halve_strips<Rt: Threads + Sync, F: File>(
    rt: &Rt,
    threads: usize,
    reader: &mut StripReader<F>,
    front: &mut Vec<u8>,
    back: &mut Vec<u8>,
    half: &mut Halving,
) -> Result<(), Failed>
    requires checked { reader.old.checked ≡ true }
    requires spare { strips_of reader.old.header strip_height ≤ F.spare reader.old.file }
    requires to { IsHalvedTo reader.old.header 0 half.old }
    requires begun { (p : ImageView) → p.depth ≡ half.old.depth → p.width ≡ half.old.width → p.height ≡ half.old.height → HalvesFront p half.old }
    requires front { vec_len front.old ≡ strip_length reader.old.header 0 }
    requires back { vec_len back.old ≡ vec_len front.old }
    ensures read { OnOk result (StripsAsked reader.old.header strip_height (strips_of reader.old.header strip_height)
        (F.asked reader.old.file) (F.asked reader.new.file)) }
    ensures tried { OnErr result (StripsTried reader.old.header strip_height (F.asked reader.old.file) (F.asked reader.new.file)) }
    ensures failed { IsErr result → Rose (F.faults reader.old.file) (F.faults reader.new.file) }
    ensures kept { KeepsReader (reader_state F.File reader.old) (reader_state F.File reader.new) }
    ensures taken { OnOk result (half.new.taken ≡ reader.old.header.height) }
    ensures depth { half.new.depth ≡ half.old.depth }
    ensures width { half.new.width ≡ half.old.width }
    ensures height { half.new.height ≡ half.old.height }
    ensures halves { OnOk result ((b : List ℕ) → F.bytes reader.old.file ≡ Some b → HalvesFront (texture_of reader.old.header b) half.new) }
{
    let last = strips_in(reader.header()) - 1;
    read_strip(reader, 0, front.as_mut_slice())?;
    for strip in 0..last {
        turn(
            rt,
            threads,
            reader,
            strip,
            front.as_slice(),
            back.as_mut_slice(),
            half,
        )?;
        mem::swap(front, back);
    }
    let row = reader.row_length();
    halve_strip(
        rt,
        threads,
        reader.header(),
        row,
        last,
        front.as_slice(),
        half,
    );
    Ok(())
}

/// Makes level 1 of a texture whose samples were looked over, without the texture in memory. It reads the texture in strips of 128 rows, each
/// once and in order, and each while the one before it is halved, where the strips are worth a thread.
///
/// `Failed` comes only where the file's count of faults rose, and `NoMemory` where memory was refused; then a prefix of the strips was read. No
/// other refusal comes.
pub fn halve_texture<Rt: Threads + Sync, F: File>(
    rt: &Rt,
    alloc: Global,
    reader: &mut StripReader<F>,
) -> Result<Image, OutsideError>
    requires checked { reader.old.checked ≡ true }
    ensures half { IfOk result (λ half. (b : List ℕ) → F.bytes reader.old.file ≡ Some b → IsHalf (texture_of reader.old.header b) half) }
    ensures depth { IfOk result (λ half. half.depth ≡ depth_of reader.old.header.maximum) }
    ensures width { IfOk result (λ half. half.width ≡ (reader.old.header.width + 1) / 2) }
    ensures height { IfOk result (λ half. half.height ≡ (reader.old.header.height + 1) / 2) }
    ensures lawful { IfOk result (λ half. IsLawfulImage half) }
    ensures read { OnOk result (StripsAsked reader.old.header strip_height (strips_of reader.old.header strip_height)
        (F.asked reader.old.file) (F.asked reader.new.file)) }
    ensures tried { OnErr result (StripsTried reader.old.header strip_height (F.asked reader.old.file) (F.asked reader.new.file)) }
    ensures failed { IsErrOf result OutsideError.Failed → Rose (F.faults reader.old.file) (F.faults reader.new.file) }
    ensures bytes { F.bytes reader.new.file ≡ F.bytes reader.old.file }
    ensures name { F.name reader.new.file ≡ F.name reader.old.file }
    ensures faults { F.faults reader.old.file ≤ F.faults reader.new.file }
    ensures header { reader.new.header ≡ reader.old.header }
{
    let header = *reader.header();
    let depth = reader.depth();
    reader.reserve(u64::from(strips_in(&header)))?;
    let size = rows_in(&header, 0) as usize * reader.row_length();
    let mut front = vec![in alloc; 0u8; size]?;
    let mut back = vec![in alloc; 0u8; size]?;
    let mut half = Halving::new(alloc, depth, header.width, header.height)?;
    let texels = u64::from(header.width) * u64::from(STRIP_ROWS);
    let threads = threads_for(processors(rt), STRIP_HALVING_TIME * texels);
    halve_strips(rt, threads, reader, &mut front, &mut back, &mut half)?;
    Ok(half.finish())
}
