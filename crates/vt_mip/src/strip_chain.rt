//! The mip chain of a texture that is read by rows, so that it is never in memory as a whole.

ghost use Rattle.std.specs.Prelude.{◌≡◌, ℕ, ◌+◌, ◌*◌, ◌<◌, ◌≤◌, ◌⊎◌, MatchBool, List, Some, true, length, vec_len, is_err, IsErr, IfOk, IfErr, IfSome, OnOk, OnErr};
ghost use Rattle.vt_ppm.specs.Depths.{IsDepth, AreBytes};
ghost use Rattle.vt_ppm.specs.Limits.{most_levels, most_tiled_side};
ghost use Rattle.vt_ppm.specs.Sides.{side, level_count};
ghost use Rattle.vt_ppm.specs.Tiles.{IsTileSide};
ghost use Rattle.vt_ppm.specs.Counts.{Rose};
ghost use Rattle.vt_ppm.specs.Format.{depth_of};
ghost use Rattle.vt_ppm.specs.Strips.{IsTextureIfKnown, RowsAsked, row_length, sample_rows};
ghost use Rattle.vt_mip.specs.Chains.{IsTexelRow};
ghost use Rattle.vt_mip.specs.StripChains.{HasWords, IsBelow, RowsRead, RowsFailed, first_under, rows_under, level_row_length, room_length, texture_texel};

use std::alloc::Global;
use std::marker::Model;
use vt_box_filter::halve_rows;
use vt_ppm::{Failed, File, NoMemory, StripReader, texel_length};

/// A texture that is read by rows, and its coarser levels, each the one before it halved, down to the first whose two sides are
/// at most the tile side. Contracts see the file, the header of the texture and the tile side.
pub struct StripChain<F: File> {
    reader: StripReader<F>,
    tile: u32,
    levels: u32,
    room: Vec<u8>,
}

impl<F: File> Model for StripChain<F> {
    ghost use Rattle.std.specs.Prelude.{length};
    ghost use Rattle.vt_mip.specs.StripChains.{StripChainView, IsStripChain};

    ghost Value = { StripChainView F };

    ghost view = { λ c. record { file = c.reader.file; header = c.reader.header; tile = c.tile } };

    ghost invariant = { λ c. IsStripChain c.reader.header c.reader.checked c.tile c.levels (length c.room.items) };
}

// The side of a level, by the texture's.
fn side_at(texture: u32, level: u32) -> u32
    requires some { 1 ≤ texture }
    requires few { texture ≤ most_tiled_side }
    ensures value { result ≡ side texture level }
    ensures some { 1 ≤ result }
    ensures few { result ≤ texture }
{
    let mut side = texture;
    for _level in 0..level {
        side = (side + 1) / 2;
    }
    side
}

// Whether both sides of a level are at most the tile side.
fn fits(columns: u32, rows: u32, tile: u32) -> bool
    ensures { MatchBool result ((columns ≤ tile) × (rows ≤ tile)) ((tile < columns) ⊎ (tile < rows)) }
{
    columns <= tile && rows <= tile
}

// The number of levels, down to the first whose two sides are at most the tile side.
fn count_levels(width: u32, height: u32, tile: u32) -> u32
    requires tile { IsTileSide tile }
    requires few_columns { width ≤ most_tiled_side }
    requires few_rows { height ≤ most_tiled_side }
    ensures value { result ≡ level_count width height tile }
    ensures some { 1 ≤ result }
    ensures few { result ≤ most_levels }
{
    let mut level = 0;
    let mut columns = width;
    let mut rows = height;
    while !fits(columns, rows, tile) {
        columns = (columns + 1) / 2;
        rows = (rows + 1) / 2;
        level += 1;
    }
    level + 1
}

// How many bytes two rows of each level below one have.
fn room_length<F: File>(reader: &StripReader<F>, level: u32) -> usize
    requires { level < most_levels }
    ensures { result ≡ room_length reader.now.header level }
{
    let width = reader.header().width;
    let size = texel_length(reader.depth());
    let mut room = 0;
    for finer in 0..level {
        room += 2 * (size * side_at(width, finer) as usize);
    }
    room
}

// What a row of a level is made of: how many bytes a sample has, the sides of the level below, and how many bytes a row of that has.
#[derive(Clone, Copy)]
struct Below {
    depth: u32,
    width: usize,
    height: u32,
    size: usize,
}

// What a row of a level that is not 0 is made of.
fn row_below<F: File>(reader: &StripReader<F>, level: u32, y: u32) -> Below
    requires some { 1 ≤ level }
    requires row { y < side reader.now.header.height level }
    ensures { IsBelow reader.now.header level y result.depth result.width result.height result.size }
{
    let texture = reader.header();
    let depth = reader.depth();
    let width = side_at(texture.width, level - 1) as usize;
    let height = side_at(texture.height, level - 1);
    Below {
        depth,
        width,
        height,
        size: texel_length(depth) * width,
    }
}

// Writes row `y` of a level, made of rows of the texture. The room holds two rows of each finer level.
fn level_row<F: File>(
    reader: &mut StripReader<F>,
    level: u32,
    y: u32,
    room: &mut [u8],
    out: &mut [u8],
) -> Result<(), Failed>
    requires checked { reader.old.checked ≡ true }
    requires row { y < side reader.old.header.height level }
    requires spare { rows_under reader.old.header.height level y ≤ F.spare reader.old.file }
    requires room { room_length reader.old.header level ≤ length room.old }
    requires size { length out.old ≡ level_row_length reader.old.header level }
    ensures words { OnOk result ((b : List ℕ) → F.bytes reader.old.file ≡ Some b → HasWords (depth_of reader.old.header.maximum)
        (λ x. texture_texel reader.old.header b level x y) (side reader.old.header.width level) out.new) }
    ensures values { OnOk result (AreBytes out.new) }
    ensures read { OnOk result (RowsRead reader.old.header (first_under level y) (rows_under reader.old.header.height level y)
        (F.asked reader.old.file) (F.asked reader.new.file)) }
    ensures tried { OnErr result (RowsFailed reader.old.header (first_under level y) (rows_under reader.old.header.height level y)
        (F.asked reader.old.file) (F.asked reader.new.file)) }
    ensures failed { IsErr result → Rose (F.faults reader.old.file) (F.faults reader.new.file) }
    ensures spare { F.spare reader.old.file ≤ F.spare reader.new.file + rows_under reader.old.header.height level y }
    ensures bytes { F.bytes reader.new.file ≡ F.bytes reader.old.file }
    ensures name { F.name reader.new.file ≡ F.name reader.old.file }
    ensures faults { F.faults reader.old.file ≤ F.faults reader.new.file }
    ensures header { reader.new.header ≡ reader.old.header }
    ensures kept { reader.new.checked ≡ true }
{
    if level == 0 {
        return reader.row(y, out);
    }
    let below = row_below(reader, level, y);
    let (rows, rest) = room.split_at_mut(2 * below.size);
    let (top, bottom) = rows.split_at_mut(below.size);
    level_row(reader, level - 1, 2 * y, rest, top)?;
    if 2 * y + 1 == below.height {
        halve_rows(below.depth, below.width, top, top, out);
        return Ok(());
    }
    level_row(reader, level - 1, 2 * y + 1, rest, bottom)?;
    halve_rows(below.depth, below.width, top, bottom, out);
    Ok(())
}

impl<F: File> StripChain<F> {
    /// Makes the chain of a texture whose samples were looked over, for a tile side. It makes no
    /// read. Refused only where memory is; the refusal hands the file back.
    pub fn new(
        alloc: Global,
        reader: StripReader<F>,
        tile: u32,
    ) -> Result<StripChain<F>, (F, NoMemory)>
        requires checked { reader.checked ≡ true }
        requires tile { IsTileSide tile }
        ensures made { IfOk result (λ c. c ≡ record { file = reader.file; header = reader.header; tile = tile }) }
        ensures refused { IfErr result (λ e. e.0 ≡ reader.file) }
    {
        let (width, height) = (reader.header().width, reader.header().height);
        let levels = count_levels(width, height, tile);
        let length = room_length(&reader, levels - 1);
        match room_of(alloc, length) {
            Ok(room) => Ok(StripChain {
                reader,
                tile,
                levels,
                room,
            }),
            Err(refused) => Err((reader.into_file(), refused)),
        }
    }

    /// The number of levels, from 1 to 14: the last is the first whose two sides are at most the tile side.
    pub fn levels(&self) -> u32
        ensures value { result ≡ level_count self.now.header.width self.now.header.height self.now.tile }
        ensures some { 1 ≤ result }
        ensures few { result ≤ most_levels }
    {
        let _ = &self.reader;
        self.levels
    }

    /// The columns and rows of a level below the number of levels, each from 1 to the largest side of a texture.
    pub fn size(&self, level: u32) -> (u32, u32)
        requires { level < level_count self.now.header.width self.now.header.height self.now.tile }
        ensures width { result.0 ≡ side self.now.header.width level }
        ensures height { result.1 ≡ side self.now.header.height level }
        ensures some_columns { 1 ≤ result.0 }
        ensures few_columns { result.0 ≤ most_tiled_side }
        ensures some_rows { 1 ≤ result.1 }
        ensures few_rows { result.1 ≤ most_tiled_side }
    {
        let header = self.reader.header();
        (side_at(header.width, level), side_at(header.height, level))
    }

    /// How many bytes a sample has: 1 or 2.
    pub fn depth(&self) -> u32
        ensures value { result ≡ depth_of self.now.header.maximum }
        ensures depth { IsDepth result }
        ensures texture { IsTextureIfKnown (F.bytes self.now.file) self.now.header }
    {
        let _ = self.reader.header();
        self.reader.depth()
    }

    /// The tile side at which the chain ends.
    pub fn tile_side(&self) -> u32
        ensures value { result ≡ self.now.tile }
        ensures lawful { IsTileSide result }
    {
        let _ = &self.reader;
        self.tile
    }

    /// Makes room to note so many more reads. After a refusal nothing changed.
    pub fn reserve(&mut self, reads: u64) -> Result<(), NoMemory>
        ensures room { OnOk result (reads ≤ F.spare self.new.file) }
        ensures refused { OnErr result (F.spare self.new.file ≡ F.spare self.old.file) }
        ensures bytes { F.bytes self.new.file ≡ F.bytes self.old.file }
        ensures asked { F.asked self.new.file ≡ F.asked self.old.file }
        ensures name { F.name self.new.file ≡ F.name self.old.file }
        ensures faults { F.faults self.new.file ≡ F.faults self.old.file }
        ensures header { self.new.header ≡ self.old.header }
        ensures tile { self.new.tile ≡ self.old.tile }
    {
        self.reader.reserve(reads)
    }

    /// Fills the buffer, which has the length of so many rows of the texture, with those from row `y` on. It makes one read,
    /// whose place is noted whatever the answer, and takes no memory. `Failed` comes only where the file's count of faults rose.
    pub fn rows(&mut self, y: u32, count: u32, out: &mut [u8]) -> Result<(), Failed>
        requires spare { 1 ≤ F.spare self.old.file }
        requires inside { y + count ≤ self.old.header.height }
        requires size { length out.old ≡ count * row_length self.old.header }
        ensures rows { OnOk result (IfSome (F.bytes self.old.file) (λ b. out.new ≡ sample_rows self.old.header b y count)) }
        ensures texture { IsTextureIfKnown (F.bytes self.old.file) self.old.header }
        ensures failed { IsErr result → Rose (F.faults self.old.file) (F.faults self.new.file) }
        ensures asked { RowsAsked self.old.header y count (is_err result) (F.asked self.old.file) (F.asked self.new.file) }
        ensures spare { F.spare self.old.file ≤ F.spare self.new.file + 1 }
        ensures bytes { F.bytes self.new.file ≡ F.bytes self.old.file }
        ensures name { F.name self.new.file ≡ F.name self.old.file }
        ensures faults { F.faults self.old.file ≤ F.faults self.new.file }
        ensures header { self.new.header ≡ self.old.header }
        ensures tile { self.new.tile ≡ self.old.tile }
    {
        let _ = self.reader.header();
        self.reader.rows(y, count, out)
    }

    /// Writes row `y` of a level: three samples a texel, red first, the most significant byte of a sample first. It reads each row
    /// of the texture that lies under it, from row `y * 2^level` on, once and in order, halves them level by level, and takes no
    /// memory.
    ///
    /// `Failed` comes only where the file's count of faults rose; then a prefix of those rows was read, each once, and no
    /// read follows the failed one.
    pub fn row(&mut self, level: u32, y: u32, out: &mut [u8]) -> Result<(), Failed>
        requires level { level < level_count self.old.header.width self.old.header.height self.old.tile }
        requires row { y < side self.old.header.height level }
        requires spare { rows_under self.old.header.height level y ≤ F.spare self.old.file }
        requires size { length out.old ≡ level_row_length self.old.header level }
        ensures row { OnOk result (IfSome (F.bytes self.old.file) (λ b. IsTexelRow (depth_of self.old.header.maximum)
            (λ x. texture_texel self.old.header b level x y) (side self.old.header.width level) out.new)) }
        ensures read { OnOk result (RowsRead self.old.header (first_under level y) (rows_under self.old.header.height level y)
            (F.asked self.old.file) (F.asked self.new.file)) }
        ensures tried { OnErr result (RowsFailed self.old.header (first_under level y) (rows_under self.old.header.height level y)
            (F.asked self.old.file) (F.asked self.new.file)) }
        ensures failed { IsErr result → Rose (F.faults self.old.file) (F.faults self.new.file) }
        ensures spare { F.spare self.old.file ≤ F.spare self.new.file + rows_under self.old.header.height level y }
        ensures bytes { F.bytes self.new.file ≡ F.bytes self.old.file }
        ensures name { F.name self.new.file ≡ F.name self.old.file }
        ensures faults { F.faults self.old.file ≤ F.faults self.new.file }
        ensures header { self.new.header ≡ self.old.header }
        ensures tile { self.new.tile ≡ self.old.tile }
    {
        level_row(&mut self.reader, level, y, self.room.as_mut_slice(), out)
    }

    /// The file, in place of the chain.
    pub fn into_file(self) -> F
        ensures { result ≡ self.file }
    {
        let StripChain {
            reader,
            tile: _,
            levels: _,
            room: _,
        } = self;
        reader.into_file()
    }
}

// Room for so many bytes.
fn room_of(alloc: Global, length: usize) -> Result<Vec<u8>, NoMemory>
    ensures { IfOk result (λ room. vec_len room ≡ length) }
{
    let room = vec![in alloc; 0u8; length]?;
    Ok(room)
}
