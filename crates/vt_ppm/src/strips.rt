//! A texture that is read by strips of whole rows, so that it is never in memory as a whole.
ghost use Rattle.std.specs.Prelude.{◌≡◌, ◌+◌, ◌*◌, ◌<◌, ◌≤◌, true, false, length, is_err, IsErr, IsErrOf, IfOk, IfErr, IfSome, OnOk, OnErr};
ghost use Rattle.vt_definitions.specs.Depths.{IsDepth, AreBytes};
ghost use Rattle.vt_definitions.specs.Limits.{most_tiled_side};
ghost use Rattle.vt_outside.specs.Counts.{Rose};
ghost use Rattle.vt_ppm.specs.Flaws.{AreImageSides, IsFlawUpTo, IsHeaderFlaw};
ghost use Rattle.vt_ppm.specs.Format.{depth_of};
ghost use Rattle.vt_ppm.specs.Reads.{AsksPpmHeader, AnswersOfHeader};
ghost use Rattle.vt_ppm.specs.Refusals.{IsPpmOutsideRefusal, IsSampleRefusal, IsCheckRefusal};
ghost use Rattle.vt_ppm.specs.Strips.{AreRowsUpTo, HasRasterIfKnown, HasSamplesIfKnown, IsTextureIfKnown, IsTextureHeader, MayBeOver, ChecksPieces, ChecksRows, ReadsNothing, GainsRows, RowsAsked, piece_rows, row_length, sample_rows, image_file_after, answer_in};

use crate::header::{MOST_TILED_SIDE, depth_of};
use crate::raster::{first_over, scale};
use crate::read::{read_texture_header, zeros};
use crate::rows::{may_be_over, piece_rows, pieces_of, row_length, row_start, sample_count};
use crate::{Header, PpmError};
use std::alloc::Global;
use std::marker::Model;
use vt_outside::{Failed, File, NoMemory};

/// A file that holds a texture, of which rows are read. Contracts see the file, the header, and whether the samples were
/// looked over.
pub struct StripReader<F: File> {
    file: F,
    header: Header,
    checked: bool,
    buffer: Vec<u8>,
}

impl<F: File> Model for StripReader<F> {
    ghost use Rattle.std.specs.Prelude.{length};
    ghost use Rattle.vt_ppm.specs.Strips.{StripView, IsStripReader};

    ghost Value = { StripView F };

    ghost view = { λ s. record { file = s.file; header = s.header; checked = s.checked } };

    ghost invariant = { λ s. IsStripReader (F.bytes s.file) s.header s.checked (length s.buffer.items) };
}

// How long the room is in which the rows of a texture are looked over: as many as are at once, or none where nothing will be read.
fn room_length(header: &Header) -> usize
    requires { IsTextureHeader header.now }
    ensures some { MayBeOver header.now → result ≡ piece_rows header.now * row_length header.now }
    ensures none { (MayBeOver header.now → ⊥) → result ≡ 0 }
{
    if !may_be_over(header) {
        return 0;
    }
    piece_rows(header) as usize * row_length(header)
}

// The header of a texture whose sides are at most `most`, and room to look its rows over.
fn opened<F: File>(alloc: Global, file: &mut F, most: u32) -> Result<(Header, Vec<u8>), PpmError>
    requires { most ≤ most_tiled_side }
    ensures limits { IfOk result (λ o. IsTextureHeader o.0) }
    ensures sides { IfOk result (λ o. AreImageSides most o.0.width o.0.height) }
    ensures raster { IfOk result (λ o. HasRasterIfKnown (F.bytes file.old) o.0) }
    ensures room { IfOk result (λ o. MayBeOver o.0 → length o.1.items ≡ piece_rows o.0 * row_length o.0) }
    ensures none { IfOk result (λ o. (MayBeOver o.0 → ⊥) → length o.1.items ≡ 0) }
    ensures flaw { IfErr result (λ e. (IsPpmOutsideRefusal e → ⊥) → IfSome (F.bytes file.old) (λ b. IsFlawUpTo most b e)) }
    ensures no_sample { IfErr result (λ e. IsSampleRefusal e → ⊥) }
    ensures failed { IsErrOf result PpmError.Failed → Rose (F.faults file.old) (F.faults file.new) }
    ensures asked { AsksPpmHeader (F.bytes file.old) (F.asked file.old) (F.asked file.new) }
    ensures read { AnswersOfHeader result (F.bytes file.old) (F.asked file.old) (F.asked file.new) }
    ensures bytes { F.bytes file.new ≡ F.bytes file.old }
    ensures name { F.name file.new ≡ F.name file.old }
    ensures faults { F.faults file.old ≤ F.faults file.new }
{
    let header = read_texture_header(alloc, file, most)?;
    let buffer = zeros(alloc, room_length(&header))?;
    Ok((header, buffer))
}

// Looks over so many rows from one on, which have the length of the buffer, by one read.
fn look_over_rows<F: File>(
    file: &mut F,
    header: &Header,
    y: u32,
    count: u32,
    buffer: &mut [u8],
) -> Result<(), PpmError>
    requires header { IsTextureHeader header.now }
    requires raster { HasRasterIfKnown (F.bytes file.old) header.now }
    requires inside { y + count ≤ header.now.height }
    requires size { length buffer.old ≡ count * row_length header.now }
    requires spare { 1 ≤ F.spare file.old }
    ensures few { OnOk result (IfSome (F.bytes file.old) (λ b. AreRowsUpTo header.now b y → AreRowsUpTo header.now b (y + count))) }
    ensures flaw { IfErr result (λ e. IsSampleRefusal e → IfSome (F.bytes file.old) (λ b. AreRowsUpTo header.now b y → IsHeaderFlaw b e)) }
    ensures refusals { IfErr result IsCheckRefusal }
    ensures failed { IsErrOf result PpmError.Failed → Rose (F.faults file.old) (F.faults file.new) }
    ensures asked { ChecksRows header.now y count result (F.asked file.old) (F.asked file.new) }
    ensures spare { F.spare file.old ≤ F.spare file.new + 1 }
    ensures bytes { F.bytes file.new ≡ F.bytes file.old }
    ensures name { F.name file.new ≡ F.name file.old }
    ensures faults { F.faults file.old ≤ F.faults file.new }
{
    let start = row_start(header, y);
    file.read_at(start, buffer)?;
    match first_over(buffer, sample_count(header, count), header.maximum) {
        Some(number) => Err(PpmError::SampleOver {
            at: start + depth_of(header.maximum) as u64 * number as u64,
        }),
        None => Ok(()),
    }
}

// Looks all rows over, in pieces that the buffer holds.
fn look_over_pieces<F: File>(
    file: &mut F,
    header: &Header,
    buffer: &mut [u8],
) -> Result<(), PpmError>
    requires header { IsTextureHeader header.now }
    requires raster { HasRasterIfKnown (F.bytes file.old) header.now }
    requires size { length buffer.old ≡ piece_rows header.now * row_length header.now }
    requires spare { header.now.height ≤ F.spare file.old }
    ensures few { OnOk result (HasSamplesIfKnown (F.bytes file.old) header.now) }
    ensures flaw { IfErr result (λ e. IsSampleRefusal e → IfSome (F.bytes file.old) (λ b. IsHeaderFlaw b e)) }
    ensures refusals { IfErr result IsCheckRefusal }
    ensures failed { IsErrOf result PpmError.Failed → Rose (F.faults file.old) (F.faults file.new) }
    ensures asked { ChecksPieces header.now result (F.asked file.old) (F.asked file.new) }
    ensures rows { GainsRows header.now (F.asked file.old) (F.asked file.new) }
    ensures spare { F.spare file.old ≤ F.spare file.new + header.now.height }
    ensures bytes { F.bytes file.new ≡ F.bytes file.old }
    ensures name { F.name file.new ≡ F.name file.old }
    ensures faults { F.faults file.old ≤ F.faults file.new }
{
    let step = piece_rows(header);
    let row = row_length(header);
    for piece in 0..pieces_of(header) {
        let y = piece * step;
        let count = step.min(header.height - y);
        look_over_rows(file, header, y, count, &mut buffer[..count as usize * row])?;
    }
    Ok(())
}

// Looks all rows over, where a sample may be above the maximum. Else no sample of bytes is, and nothing is read.
fn look_over<F: File>(file: &mut F, header: &Header, buffer: &mut [u8]) -> Result<(), PpmError>
    requires header { IsTextureHeader header.now }
    requires raster { HasRasterIfKnown (F.bytes file.old) header.now }
    requires size { MayBeOver header.now → length buffer.old ≡ piece_rows header.now * row_length header.now }
    requires spare { header.now.height ≤ F.spare file.old }
    ensures few { OnOk result (HasSamplesIfKnown (F.bytes file.old) header.now) }
    ensures flaw { IfErr result (λ e. IsSampleRefusal e → IfSome (F.bytes file.old) (λ b. IsHeaderFlaw b e)) }
    ensures refusals { IfErr result IsCheckRefusal }
    ensures failed { IsErrOf result PpmError.Failed → Rose (F.faults file.old) (F.faults file.new) }
    ensures asked { MayBeOver header.now → ChecksPieces header.now result (F.asked file.old) (F.asked file.new) }
    ensures rows { GainsRows header.now (F.asked file.old) (F.asked file.new) }
    ensures unread { (MayBeOver header.now → ⊥) → ReadsNothing result (F.asked file.old) (F.asked file.new) (F.faults file.old) (F.faults file.new) }
    ensures spare { F.spare file.old ≤ F.spare file.new + header.now.height }
    ensures bytes { F.bytes file.new ≡ F.bytes file.old }
    ensures name { F.name file.new ≡ F.name file.old }
    ensures faults { F.faults file.old ≤ F.faults file.new }
{
    if !may_be_over(header) {
        return Ok(());
    }
    look_over_pieces(file, header, buffer)
}

impl<F: File> StripReader<F> {
    /// Opens the texture of a file, whose sides may be up to 16,384: asks its length, and reads the front of the file, as far
    /// as a header may reach. A refusal hands the file back.
    ///
    /// Where the file tells its bytes, `BadMagic` to `Truncated` come exactly as the first flaw of those bytes, after that one
    /// read. `Failed` comes only where the file's count of faults rose, and `NoMemory` where memory was refused. No other
    /// refusal comes: samples are looked over by `check`.
    pub fn open(alloc: Global, file: F) -> Result<StripReader<F>, (F, PpmError)>
        ensures limits { IfOk result (λ s. IsTextureHeader s.header) }
        ensures raster { IfOk result (λ s. HasRasterIfKnown (F.bytes file) s.header) }
        ensures unchecked { IfOk result (λ s. s.checked ≡ false) }
        ensures flaw { IfErr result (λ e. (IsPpmOutsideRefusal e.1 → ⊥) → IfSome (F.bytes file) (λ b. IsHeaderFlaw b e.1)) }
        ensures no_sample { IfErr result (λ e. IsSampleRefusal e.1 → ⊥) }
        ensures failed { IfErr result (λ e. e.1 ≡ PpmError.Failed → Rose (F.faults file) (F.faults e.0)) }
        ensures asked { AsksPpmHeader (F.bytes file) (F.asked file) (F.asked (image_file_after result)) }
        ensures read { AnswersOfHeader (answer_in result) (F.bytes file) (F.asked file) (F.asked (image_file_after result)) }
        ensures bytes { F.bytes (image_file_after result) ≡ F.bytes file }
        ensures name { F.name (image_file_after result) ≡ F.name file }
        ensures faults { F.faults file ≤ F.faults (image_file_after result) }
    {
        StripReader::open_within(alloc, file, MOST_TILED_SIDE)
    }

    /// Opens the texture of a file as `open` does, where no side is to be above `most`: from 1 to 16,384.
    pub fn open_within(
        alloc: Global,
        mut file: F,
        most: u32,
    ) -> Result<StripReader<F>, (F, PpmError)>
        requires { most ≤ most_tiled_side }
        ensures limits { IfOk result (λ s. IsTextureHeader s.header) }
        ensures sides { IfOk result (λ s. AreImageSides most s.header.width s.header.height) }
        ensures raster { IfOk result (λ s. HasRasterIfKnown (F.bytes file) s.header) }
        ensures unchecked { IfOk result (λ s. s.checked ≡ false) }
        ensures flaw { IfErr result (λ e. (IsPpmOutsideRefusal e.1 → ⊥) → IfSome (F.bytes file) (λ b. IsFlawUpTo most b e.1)) }
        ensures no_sample { IfErr result (λ e. IsSampleRefusal e.1 → ⊥) }
        ensures failed { IfErr result (λ e. e.1 ≡ PpmError.Failed → Rose (F.faults file) (F.faults e.0)) }
        ensures asked { AsksPpmHeader (F.bytes file) (F.asked file) (F.asked (image_file_after result)) }
        ensures read { AnswersOfHeader (answer_in result) (F.bytes file) (F.asked file) (F.asked (image_file_after result)) }
        ensures bytes { F.bytes (image_file_after result) ≡ F.bytes file }
        ensures name { F.name (image_file_after result) ≡ F.name file }
        ensures faults { F.faults file ≤ F.faults (image_file_after result) }
    {
        match opened(alloc, &mut file, most) {
            Ok((header, buffer)) => Ok(StripReader {
                file,
                header,
                checked: false,
                buffer,
            }),
            Err(refusal) => Err((file, refusal)),
        }
    }

    /// The header of the texture.
    pub fn header(&self) -> &Header
        ensures value { result.now ≡ self.now.header }
        ensures limits { IsTextureHeader self.now.header }
        ensures raster { HasRasterIfKnown (F.bytes self.now.file) self.now.header }
        ensures texture { self.now.checked ≡ true → IsTextureIfKnown (F.bytes self.now.file) self.now.header }
    {
        let _ = &self.buffer;
        &self.header
    }

    /// How many bytes a sample has: 1 or 2.
    pub fn depth(&self) -> u32
        ensures value { result ≡ depth_of self.now.header.maximum }
        ensures depth { IsDepth result }
    {
        depth_of(self.header.maximum)
    }

    /// How many bytes a row has: three samples a texel.
    pub fn row_length(&self) -> usize
        ensures value { result ≡ row_length self.now.header }
        ensures some { 1 ≤ result }
        ensures few { result ≤ 6 * most_tiled_side }
    {
        row_length(&self.header)
    }

    /// Makes room to note so many more reads. After a refusal nothing changed.
    pub fn reserve(&mut self, reads: u64) -> Result<(), NoMemory>
        ensures room { OnOk result (reads ≤ F.spare self.new.file) }
        ensures refused { OnErr result (F.spare self.new.file ≡ F.spare self.old.file) }
        ensures bytes { F.bytes self.new.file ≡ F.bytes self.old.file }
        ensures asked { F.asked self.new.file ≡ F.asked self.old.file }
        ensures name { F.name self.new.file ≡ F.name self.old.file }
        ensures faults { F.faults self.new.file ≡ F.faults self.old.file }
        ensures header { self.new.header ≡ self.old.header }
        ensures checked { self.new.checked ≡ self.old.checked }
    {
        self.file.reserve(reads)
    }

    /// Looks all samples over, so that rows may be read. It reads the raster in pieces of whole rows, about a mebibyte each, in
    /// order; where the maximum is the greatest sample of its depth, so that none can be above it, it reads nothing and answers Ok.
    /// It takes no memory.
    ///
    /// Where the file tells its bytes, `SampleOver` comes exactly at the first sample above the maximum, once the piece that
    /// holds it was read. `Failed` comes only where the file's count of faults rose. No other refusal comes. After a refusal no
    /// row is read: `into_file` hands the file back.
    pub fn check(&mut self) -> Result<(), PpmError>
        requires spare { self.old.header.height ≤ F.spare self.old.file }
        ensures texture { OnOk result (IsTextureIfKnown (F.bytes self.old.file) self.old.header) }
        ensures checked { OnOk result (self.new.checked ≡ true) }
        ensures refused { OnErr result (self.new.checked ≡ false) }
        ensures flaw { IfErr result (λ e. IsSampleRefusal e → IfSome (F.bytes self.old.file) (λ b. IsHeaderFlaw b e)) }
        ensures refusals { IfErr result IsCheckRefusal }
        ensures failed { IsErrOf result PpmError.Failed → Rose (F.faults self.old.file) (F.faults self.new.file) }
        ensures asked { MayBeOver self.old.header → ChecksPieces self.old.header result (F.asked self.old.file) (F.asked self.new.file) }
        ensures unread { (MayBeOver self.old.header → ⊥)
            → ReadsNothing result (F.asked self.old.file) (F.asked self.new.file) (F.faults self.old.file) (F.faults self.new.file) }
        ensures rows { GainsRows self.old.header (F.asked self.old.file) (F.asked self.new.file) }
        ensures spare { F.spare self.old.file ≤ F.spare self.new.file + self.old.header.height }
        ensures bytes { F.bytes self.new.file ≡ F.bytes self.old.file }
        ensures name { F.name self.new.file ≡ F.name self.old.file }
        ensures faults { F.faults self.old.file ≤ F.faults self.new.file }
        ensures header { self.new.header ≡ self.old.header }
    {
        let answer = look_over(&mut self.file, &self.header, self.buffer.as_mut_slice());
        self.checked = answer.is_ok();
        answer
    }

    /// Fills the buffer, which has the length of so many rows, with those from row `y` on, each sample scaled so that the greatest
    /// is 255, or 65,535 where the maximum is above 255. It makes one read, whose place is noted whatever the answer, and takes
    /// no memory. `Failed` comes only where the file's count of faults rose.
    pub fn rows(&mut self, y: u32, count: u32, out: &mut [u8]) -> Result<(), Failed>
        requires checked { self.old.checked ≡ true }
        requires spare { 1 ≤ F.spare self.old.file }
        requires inside { y + count ≤ self.old.header.height }
        requires size { length out.old ≡ count * row_length self.old.header }
        ensures rows { OnOk result (IfSome (F.bytes self.old.file) (λ b. out.new ≡ sample_rows self.old.header b y count)) }
        ensures values { OnOk result (AreBytes out.new) }
        ensures failed { IsErr result → Rose (F.faults self.old.file) (F.faults self.new.file) }
        ensures asked { RowsAsked self.old.header y count (is_err result) (F.asked self.old.file) (F.asked self.new.file) }
        ensures spare { F.spare self.old.file ≤ F.spare self.new.file + 1 }
        ensures bytes { F.bytes self.new.file ≡ F.bytes self.old.file }
        ensures name { F.name self.new.file ≡ F.name self.old.file }
        ensures faults { F.faults self.old.file ≤ F.faults self.new.file }
        ensures header { self.new.header ≡ self.old.header }
        ensures kept { self.new.checked ≡ true }
    {
        self.file.read_at(row_start(&self.header, y), out)?;
        let count = sample_count(&self.header, count);
        scale(out, count, self.header.maximum);
        Ok(())
    }

    /// Fills the buffer, which has the length of a row, with row `y`, each sample scaled as in `rows`. It makes one read, whose
    /// place is noted whatever the answer, and takes no memory. `Failed` comes only where the file's count of faults rose.
    pub fn row(&mut self, y: u32, out: &mut [u8]) -> Result<(), Failed>
        requires checked { self.old.checked ≡ true }
        requires spare { 1 ≤ F.spare self.old.file }
        requires inside { y < self.old.header.height }
        requires size { length out.old ≡ row_length self.old.header }
        ensures row { OnOk result (IfSome (F.bytes self.old.file) (λ b. out.new ≡ sample_rows self.old.header b y 1)) }
        ensures values { OnOk result (AreBytes out.new) }
        ensures failed { IsErr result → Rose (F.faults self.old.file) (F.faults self.new.file) }
        ensures asked { RowsAsked self.old.header y 1 (is_err result) (F.asked self.old.file) (F.asked self.new.file) }
        ensures spare { F.spare self.old.file ≤ F.spare self.new.file + 1 }
        ensures bytes { F.bytes self.new.file ≡ F.bytes self.old.file }
        ensures name { F.name self.new.file ≡ F.name self.old.file }
        ensures faults { F.faults self.old.file ≤ F.faults self.new.file }
        ensures header { self.new.header ≡ self.old.header }
        ensures kept { self.new.checked ≡ true }
    {
        self.rows(y, 1, out)
    }

    /// The file, in place of the reader.
    pub fn into_file(self) -> F
        ensures { result ≡ self.file }
    {
        let StripReader {
            file,
            header: _,
            checked: _,
            buffer: _,
        } = self;
        file
    }
}
