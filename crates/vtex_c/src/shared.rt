//! The calls on a shared table: one thread changes the page table while readers in other threads, which never wait, look pages up and read
//! texels. The calls are described in `include/vtex.h`.

ghost use Rattle.std.specs.Prelude.{◌≡◌, None};
ghost use Rattle.std.specs.Borrow.{full_share, sem};
ghost use Rattle.std.specs.Mem.{type_size};
ghost use Rattle.std.specs.Ptr.{lies_at, room_at};
ghost use Rattle.vtex_c.specs.contracts.table.TablePlace.{the_row as table_row};
ghost use Rattle.vtex_c.specs.contracts.reader.ReaderPlace.{the_row as reader_row};
ghost use Rattle.vtex_c.specs.declared.table.TablePlace.{TablePlace};
ghost use Rattle.vtex_c.specs.declared.reader.ReaderPlace.{ReaderPlace};
ghost use Rattle.vtex_c.specs.Tables.{IsTableOpened, IsMapped, IsUnmapped, IsReaderOpened, IsTakenBack, IsTableClosed, AreOfOneTable};
ghost use Rattle.vtex_c.specs.Settlings.{IsSettled};
ghost use Rattle.vtex_c.specs.Readers.{IsNumbered, IsNewestHeld, IsFoundUnder, IsRead, IsRunRead, IsRunBlended, IsReleased, IsShut};

use crate::reader::ReaderPlace;
use crate::settle::VtexStep;
use crate::shape::VtexShape;
use crate::table::{TablePlace, VtexWaiting};
use crate::{reader, settle, table};
use std::alloc::Global;
use vt_residency::Place;
use vt_shared::{Point, Span};

/// A place for a table, of which C knows the size only.
#[repr(C)]
pub struct VtexTable {
    opaque: u8,
}

/// A place for a reader, of which C knows the size only.
#[repr(C)]
pub struct VtexReader {
    opaque: u8,
}

/// How many bytes a place for a table has. Its alignment is that of a pointer.
#[unsafe(no_mangle)]
pub extern "C" fn vtex_table_size() -> usize
    ensures { result ≡ type_size table_row }
{
    std::mem::size_of::<TablePlace>()
}

/// How many bytes a place for a reader has. Its alignment is that of a pointer.
#[unsafe(no_mangle)]
pub extern "C" fn vtex_reader_size() -> usize
    ensures { result ≡ type_size reader_row }
{
    std::mem::size_of::<ReaderPlace>()
}

/// Makes a closed table of a place.
#[unsafe(no_mangle)]
pub unsafe extern "C" fn vtex_table_init(at: *mut VtexTable, alloc: Global)
    requires* { sem 𝓛 (room_at table_row at) }
    ensures* { sem 𝓛 (lies_at table_row full_share at (record { alloc = alloc; inner = None })) }
{
    std::ptr::write(at as *mut TablePlace, table::empty(alloc));
}

/// Makes a closed reader of a place.
#[unsafe(no_mangle)]
pub unsafe extern "C" fn vtex_reader_init(at: *mut VtexReader, alloc: Global)
    requires* { sem 𝓛 (room_at reader_row at) }
    ensures* { sem 𝓛 (lies_at reader_row full_share at (record { inner = None })) }
{
    std::ptr::write(at as *mut ReaderPlace, reader::empty(alloc));
}

/// Opens a table of a shape's pages, in place of the one that there is.
#[unsafe(no_mangle)]
pub unsafe extern "C" fn vtex_table_open(
    at: *mut VtexTable,
    shape: &VtexShape,
    depth: u32,
    frames: u32,
    readers: u32,
) -> u32
    ghost c: { TablePlace }
    requires* { sem 𝓛 (lies_at table_row full_share at c) }
    ensures* { ∃ₛ (λ (d : TablePlace). sem 𝓛 (lies_at table_row full_share at d) ∗ ⌜ IsTableOpened c shape.now depth frames readers result d ⌝) }
{
    table::open(&mut *(at as *mut TablePlace), shape, depth, frames, readers)
}

/// Fills a frame with a page's tile and maps the page to it, unless a reader may hold a version that still needs the frame or the bank:
/// then it tells which.
#[unsafe(no_mangle)]
pub unsafe extern "C" fn vtex_table_map(
    at: *mut VtexTable,
    page: u32,
    frame: u32,
    tile: &[u8],
    waiting: &mut VtexWaiting,
) -> u32
    ghost c: { TablePlace }
    requires* { sem 𝓛 (lies_at table_row full_share at c) }
    ensures* { ∃ₛ (λ (d : TablePlace). sem 𝓛 (lies_at table_row full_share at d) ∗ ⌜ IsMapped c page frame tile.now waiting.old result waiting.new d ⌝) }
{
    table::map(&mut *(at as *mut TablePlace), page, frame, tile, waiting)
}

/// Takes a page out of its frame, unless a reader may hold a version that still needs the bank: then it tells which.
#[unsafe(no_mangle)]
pub unsafe extern "C" fn vtex_table_unmap(
    at: *mut VtexTable,
    page: u32,
    waiting: &mut VtexWaiting,
) -> u32
    ghost c: { TablePlace }
    requires* { sem 𝓛 (lies_at table_row full_share at c) }
    ensures* { ∃ₛ (λ (d : TablePlace). sem 𝓛 (lies_at table_row full_share at d) ∗ ⌜ IsUnmapped c page waiting.old result waiting.new d ⌝) }
{
    table::unmap(&mut *(at as *mut TablePlace), page, waiting)
}

/// Makes changes in their order until one cannot be made at once, tells how many were made, and whom the next one waits for. A map has one
/// of the tiles given, which stand one after the other.
#[unsafe(no_mangle)]
pub unsafe extern "C" fn vtex_table_settle(
    at: *mut VtexTable,
    steps: &[VtexStep],
    tiles: &[u8],
    made: &mut u64,
    waiting: &mut VtexWaiting,
) -> u32
    ghost c: { TablePlace }
    requires* { sem 𝓛 (lies_at table_row full_share at c) }
    ensures* { ∃ₛ (λ (d : TablePlace). sem 𝓛 (lies_at table_row full_share at d) ∗ ⌜ IsSettled c steps.now tiles.now made.old waiting.old result made.new waiting.new d ⌝) }
{
    settle::settle(&mut *(at as *mut TablePlace), steps, tiles, made, waiting)
}

/// Opens a reader of a table whose root is mapped. The reader may then pass to another thread.
#[unsafe(no_mangle)]
pub unsafe extern "C" fn vtex_table_admit(at: *mut VtexTable, reader: *mut VtexReader) -> u32
    ghost c: { TablePlace × ReaderPlace }
    requires* table { sem 𝓛 (lies_at table_row full_share at c.0) }
    requires* reader { sem 𝓛 (lies_at reader_row full_share reader c.1) }
    ensures* { ∃ₛ (λ (d : TablePlace × ReaderPlace). sem 𝓛 (lies_at table_row full_share at d.0)
        ∗ sem 𝓛 (lies_at reader_row full_share reader d.1) ∗ ⌜ IsReaderOpened c.0 c.1 result d.0 d.1 ⌝) }
{
    table::admit(
        &mut *(at as *mut TablePlace),
        &mut *(reader as *mut ReaderPlace),
    )
}

/// Closes a reader of this table. Each texel that it was answered is then known to be that of the tile that was given for the page that it
/// found, in the version that it held.
#[unsafe(no_mangle)]
pub unsafe extern "C" fn vtex_table_dismiss(at: *mut VtexTable, reader: *mut VtexReader) -> u32
    ghost c: { TablePlace × ReaderPlace }
    requires* table { sem 𝓛 (lies_at table_row full_share at c.0) }
    requires* reader { sem 𝓛 (lies_at reader_row full_share reader c.1) }
    requires* own { ⌜ AreOfOneTable c.0 c.1 ⌝ }
    ensures* { ∃ₛ (λ (d : TablePlace × ReaderPlace). sem 𝓛 (lies_at table_row full_share at d.0)
        ∗ sem 𝓛 (lies_at reader_row full_share reader d.1) ∗ ⌜ IsTakenBack c.0 c.1 result d.0 d.1 ⌝) }
{
    table::dismiss(
        &mut *(at as *mut TablePlace),
        &mut *(reader as *mut ReaderPlace),
    )
}

/// Gives up the table. Readers that are open go on with the newest version.
#[unsafe(no_mangle)]
pub unsafe extern "C" fn vtex_table_close(at: *mut VtexTable) -> u32
    ghost c: { TablePlace }
    requires* { sem 𝓛 (lies_at table_row full_share at c) }
    ensures* { ∃ₛ (λ (d : TablePlace). sem 𝓛 (lies_at table_row full_share at d) ∗ ⌜ IsTableClosed c result d ⌝) }
{
    table::close(&mut *(at as *mut TablePlace))
}

/// Tells the number by which a table names the reader where it waits for it.
#[unsafe(no_mangle)]
pub unsafe extern "C" fn vtex_reader_number(at: *mut VtexReader, number: &mut u32) -> u32
    ghost c: { ReaderPlace }
    requires* { sem 𝓛 (lies_at reader_row full_share at c) }
    ensures* { ∃ₛ (λ (d : ReaderPlace). sem 𝓛 (lies_at reader_row full_share at d) ∗ ⌜ IsNumbered c number.old result number.new d ⌝) }
{
    reader::number(&mut *(at as *mut ReaderPlace), number)
}

/// Takes hold of the newest version, and tells it.
#[unsafe(no_mangle)]
pub unsafe extern "C" fn vtex_reader_hold(at: *mut VtexReader, version: &mut u64) -> u32
    ghost c: { ReaderPlace }
    requires* { sem 𝓛 (lies_at reader_row full_share at c) }
    ensures* { ∃ₛ (λ (d : ReaderPlace). sem 𝓛 (lies_at reader_row full_share at d) ∗ ⌜ IsNewestHeld c version.old result version.new d ⌝) }
{
    reader::hold(&mut *(at as *mut ReaderPlace), version)
}

/// Looks a page up in the version that is held.
#[unsafe(no_mangle)]
pub unsafe extern "C" fn vtex_reader_look_up(
    at: *mut VtexReader,
    page: u32,
    found: &mut Place,
) -> u32
    ghost c: { ReaderPlace }
    requires* { sem 𝓛 (lies_at reader_row full_share at c) }
    ensures* { ∃ₛ (λ (d : ReaderPlace). sem 𝓛 (lies_at reader_row full_share at d) ∗ ⌜ IsFoundUnder c page found.old result found.new d ⌝) }
{
    reader::look_up(&mut *(at as *mut ReaderPlace), page, found)
}

/// Writes the bytes of the texels over points in the version that is held.
#[unsafe(no_mangle)]
pub unsafe extern "C" fn vtex_reader_texels(
    at: *mut VtexReader,
    points: &[Point],
    out: &mut [u8],
) -> u32
    ghost c: { ReaderPlace }
    requires* { sem 𝓛 (lies_at reader_row full_share at c) }
    ensures* { ∃ₛ (λ (d : ReaderPlace). sem 𝓛 (lies_at reader_row full_share at d) ∗ ⌜ IsRead c points.now out.old result out.new d ⌝) }
{
    reader::texels(&mut *(at as *mut ReaderPlace), points, out)
}

/// Writes the bytes of a run of texels in the version that is held, and the page that each of them wants.
#[unsafe(no_mangle)]
pub unsafe extern "C" fn vtex_reader_run(
    at: *mut VtexReader,
    span: &Span,
    out: &mut [u8],
    pages: &mut [u32],
) -> u32
    ghost c: { ReaderPlace }
    requires* { sem 𝓛 (lies_at reader_row full_share at c) }
    ensures* { ∃ₛ (λ (d : ReaderPlace). sem 𝓛 (lies_at reader_row full_share at d) ∗ ⌜ IsRunRead c span.now out.old pages.old result out.new pages.new d ⌝) }
{
    reader::run(&mut *(at as *mut ReaderPlace), span, out, pages)
}

/// Writes the bytes of a run of texels by bilinear filtering in the version that is held, and the page that each of them wants.
#[unsafe(no_mangle)]
pub unsafe extern "C" fn vtex_reader_blended_run(
    at: *mut VtexReader,
    span: &Span,
    out: &mut [u8],
    pages: &mut [u32],
) -> u32
    ghost c: { ReaderPlace }
    requires* { sem 𝓛 (lies_at reader_row full_share at c) }
    ensures* { ∃ₛ (λ (d : ReaderPlace). sem 𝓛 (lies_at reader_row full_share at d) ∗ ⌜ IsRunBlended c span.now out.old pages.old result out.new pages.new d ⌝) }
{
    reader::blended_run(&mut *(at as *mut ReaderPlace), span, out, pages)
}

/// Holds the version no longer.
#[unsafe(no_mangle)]
pub unsafe extern "C" fn vtex_reader_release(at: *mut VtexReader) -> u32
    ghost c: { ReaderPlace }
    requires* { sem 𝓛 (lies_at reader_row full_share at c) }
    ensures* { ∃ₛ (λ (d : ReaderPlace). sem 𝓛 (lies_at reader_row full_share at d) ∗ ⌜ IsReleased c result d ⌝) }
{
    reader::release(&mut *(at as *mut ReaderPlace))
}

/// Closes a reader whose table is closed already.
#[unsafe(no_mangle)]
pub unsafe extern "C" fn vtex_reader_close(at: *mut VtexReader) -> u32
    ghost c: { ReaderPlace }
    requires* { sem 𝓛 (lies_at reader_row full_share at c) }
    ensures* { ∃ₛ (λ (d : ReaderPlace). sem 𝓛 (lies_at reader_row full_share at d) ∗ ⌜ IsShut c result d ⌝) }
{
    reader::close(&mut *(at as *mut ReaderPlace))
}
