//! A page cache that is new.

ghost use Rattle.std.specs.Prelude.{◌≡◌, ◌≤◌, [], drop, length, IfOk, All};
ghost use Rattle.left_right.specs.Sides.{view};
ghost use Rattle.vt_swap_steps.specs.Caches.{cache_of};
ghost use Rattle.vt_swap_steps.specs.Rules.{KnowsLog, nothing_known};
ghost use Rattle.vt_swap_steps.specs.Tables.{IsPublished, journal_of};
ghost use Rattle.vt_swap_steps.specs.Slots.{AreSlotsOf};
ghost use Rattle.vt_swap.specs.Making.{IsNewStreamer, IsNewReader};

use crate::reader::TableReader;
use crate::streamer::SwapStreamer;
use left_right::writer::Writer;
use std::alloc::Global;
use std::sync::Wait;
use std::thread;
use vt_journal::Journal;
use vt_outside::{Items, NoMemory};
use vt_swap_steps::{
    Front, LeftRightReader, Publishes, Slot, TableWriter, Tells, again, first_table, new_slot,
    open_log,
};

/// A page cache whose newest table maps none of so many pages: its writer, a slot for each frame, of which none is filled, and as many
/// readers as are asked for, at least one. It waits where a reader is refused its place, and asks again.
pub fn new_cache<R: Wait>(
    rt: &R,
    alloc: Global,
    pages: u32,
    frames: u32,
    readers: u32,
) -> Result<(SwapStreamer, Items<Slot>, Items<TableReader>), NoMemory>
    requires some { 1 ≤ readers }
    ensures streamer { IfOk result (λ made. IsNewStreamer made.0) }
    ensures slots { IfOk result (λ made. AreSlotsOf made.0.cache made.1.elements) }
    ensures pages { IfOk result (λ made. made.0.cache.pages ≡ pages) }
    ensures frames { IfOk result (λ made. length made.1.elements ≡ frames) }
    ensures each { IfOk result (λ made. All (IsNewReader made.0.cache) made.2.elements) }
    ensures readers { IfOk result (λ made. length made.2.elements ≡ readers) }
{
    let (head, front) = open_log(pages, frames);
    let slots = new_slots(alloc, &front)?;
    let mut list = Items::new(alloc);
    list.reserve(u64::from(readers))?;
    let mut writer = first_writer(rt, alloc, readers, &front)?;
    add_readers(rt, &mut writer, &mut list, readers, &front);
    let streamer = SwapStreamer {
        alloc,
        writer: Some(writer),
        head,
        front,
        journal: Journal::new(alloc),
        spare: Vec::new(alloc),
        broken: false,
    };
    Ok((streamer, slots, list))
}

// The slots of a cache's frames.
fn new_slots(alloc: Global, front: &Front) -> Result<Items<Slot>, NoMemory>
    ensures { IfOk result (λ slots. AreSlotsOf (cache_of front.now) slots.elements) }
{
    let mut slots = Items::new(alloc);
    let frames = front.frames;
    slots.reserve(u64::from(frames))?;
    for frame in 0..frames {
        slots.push(new_slot(alloc, frame, front));
    }
    Ok(slots)
}

// The writer of such a table, which knows which log it is.
fn first_writer<R: Wait>(
    rt: &R,
    alloc: Global,
    readers: u32,
    front: &Front,
) -> Result<TableWriter, NoMemory>
    requires some { 1 ≤ readers }
    requires empty { front.now.seen.log ≡ [] }
    ensures published { IfOk result (λ w. IsPublished w.desk.shown.value (drop w.behind w.log.items) front.now) }
    ensures knows { IfOk result (λ w. KnowsLog (view w.desk.place) front.now) }
{
    let first = first_table(alloc, front)?;
    let second = first_table(alloc, front)?;
    let writer: TableWriter = Writer::new(alloc, first, second, readers as usize)?;
    Ok(begin(rt, writer, front))
}

// Lets a writer publish what it shows anyhow, by which it knows which log it is.
fn begin<R: Wait>(rt: &R, writer: TableWriter, front: &Front) -> TableWriter
    requires front { writer.desk.shown.value.front ≡ front.now }
    requires version { writer.desk.shown.value.version ≡ length (journal_of front.now) }
    requires none { drop writer.behind writer.log.items ≡ [] }
    ensures published { IsPublished result.desk.shown.value (drop result.behind result.log.items) front.now }
    ensures knows { KnowsLog (view result.desk.place) front.now }
{
    let (writer, done) = writer.publish_as::<Publishes, R>(rt);
    match done {
        Ok(()) => writer,
        Err(_) => unreachable!(),
    }
}

// A reader of what a writer publishes, which has entered nothing. It asks again each time it is refused a place.
fn ask_reader<R: Wait>(rt: &R, writer: &TableWriter) -> LeftRightReader
    ensures view { view result.place ≡ nothing_known }
    ensures table { result.place.table_id ≡ writer.now.desk.place.table_id }
{
    for _ in rt.forever() {
        if let Ok(reader) = writer.factory().reader() {
            return reader;
        }
        thread::yield_now();
    }
    unreachable!()
}

// A reader that knows which log it is, since the writer tells it.
fn new_reader<R: Wait>(rt: &R, writer: &mut TableWriter, front: &Front) -> TableReader
    requires knows { KnowsLog (view writer.old.desk.place) front.now }
    ensures reader { result ≡ record { cache = cache_of front.now; log = front.now.seen.log; entered = [] } }
    ensures shown { writer.new.desk.shown ≡ writer.old.desk.shown }
    ensures pending { drop writer.new.behind writer.new.log.items ≡ drop writer.old.behind writer.old.log.items }
    ensures view { view writer.new.desk.place ≡ view writer.old.desk.place }
{
    let mut reader = ask_reader(rt, writer);
    reader.learn::<Tells>(writer.tell::<Tells>());
    TableReader {
        reader,
        front: again(front),
    }
}

// Adds so many readers to a list, which has room for them.
fn add_readers<R: Wait>(
    rt: &R,
    writer: &mut TableWriter,
    list: &mut Items<TableReader>,
    count: u32,
    front: &Front,
)
    requires none { list.old.elements ≡ [] }
    requires room { count ≤ list.old.spare }
    requires empty { front.now.seen.log ≡ [] }
    requires knows { KnowsLog (view writer.old.desk.place) front.now }
    ensures each { All (IsNewReader (cache_of front.now)) list.new.elements }
    ensures count { length list.new.elements ≡ count }
    ensures shown { writer.new.desk.shown ≡ writer.old.desk.shown }
    ensures pending { drop writer.new.behind writer.new.log.items ≡ drop writer.old.behind writer.old.log.items }
{
    for made in 0..count {
        let _ = made;
        list.push(new_reader(rt, writer, front));
    }
}
