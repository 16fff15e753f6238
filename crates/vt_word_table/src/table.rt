//! The shared words as a page table.

ghost use Rattle.std.specs.Prelude.{◌≡◌, None, All, IfOk, length};

use std::alloc::Global;
use std::mem;
use std::sync::Wait;
use vt_journal::{Geometry, Journal};
use vt_outside::{Gate, Items, NoMemory};
use vt_page_table::{PageTable, Planned, Shot};
use vt_sampler::{Filter, Pass, Words, draw_held};
use vt_word_notes::{Streamer, map_page, put_entry};

/// The shared words.
pub struct WordTable;

/// A sampler's right to read the words, which it has only while a pass of the walk is run.
#[derive(Drop)]
pub struct WordReader {
    pub(crate) pass: Option<Pass>,
}

impl PageTable for WordTable {
    ghost use Rattle.std.specs.Prelude.{◌≡◌, ◌≤◌, length};
    ghost use Rattle.vt_word_notes.specs.Views.{IsStreamerOf};
    ghost use Rattle.vt_word_notes.specs.Noted.{IsNotedBy};
    ghost use Rattle.vt_word_table.specs.WordReaders.{IsAtHome, HasOwnPass, given_of, IsNotedIf, EnteredWith, HeldRow, HeldRows, HeldAt};
    ghost use Rattle.vt_word_table.specs.WordWriters.{IsMappedWith, HasTakenMore, CameHomeIf, WasBack};
    ghost use Rattle.vt_word_table.specs.WordLaws.{fewer, taken_none, taken_twice, noted_later, back_later, came_within, rows_none_if, rows_more_if, held_now_if, held_then_if, held_since_if, held_rises_if, since_if, same_given_if, said_more_if};

    type Shared = Words;

    type Reader = WordReader;

    type Writer = Streamer;

    ghost is_of = { λ words w. IsStreamerOf words w };

    ghost shape = { λ w. w.shape };

    ghost frame_count = { λ w. length w.owners };

    ghost journal = { λ w. w.writer.journal };

    ghost has_room = { λ w n. n ≤ w.spare };

    ghost finds = { λ w n. n ≡ length w.writer.journal };

    ghost is_filled = { λ w page words. IsMappedWith w.writer.journal w.writer.contents page words };

    ghost knows = { λ w note. IsNotedBy w.writer note };

    ghost later = { λ v w. HasTakenMore v.writer w.writer };

    ghost came = { λ v w k r q. CameHomeIf v.writer w.writer k r.pass };

    ghost was_at = { λ w k r version. WasBack w.writer k version };

    ghost is_home = { λ w k r. IsAtHome w.writer k r.pass };

    ghost is_open = { λ words s k r. HasOwnPass words s k r.pass };

    ghost may_draw = { λ words s k r. HasOwnPass words s k r.pass };

    ghost start = { λ r. given_of r.pass };

    ghost says = { λ r note. IsNotedIf r.pass note };

    ghost entered = { λ r q. EnteredWith r.pass q.pass };

    ghost drew_row = { λ r q version. HeldRow r.pass q.pass version };

    ghost drew_rows = { λ r q versions. HeldRows r.pass q.pass versions };

    ghost drew = { λ r q version. HeldAt r.pass q.pass version };

    ghost refuses = { ⊥ };

    fn make<R: Wait>(
        _rt: &R,
        alloc: Global,
        geometry: &Geometry,
        frames: u32,
        samplers: u32,
    ) -> Result<(Words, Streamer, Items<WordReader>), NoMemory> {
        let readers = no_readers(alloc, samplers)?;
        let (words, streamer) = Streamer::new(alloc, geometry, frames, samplers)?;
        Ok((words, streamer, readers))
    }

    fn journal_of(writer: &Streamer) -> &Journal {
        writer.journal()
    }

    fn reserve(_words: &Words, streamer: &mut Streamer, n: u64) -> Result<(), NoMemory> {
        streamer.reserve(n)
    }

    fn place<R: Wait>(
        rt: &R,
        words: &Words,
        streamer: &mut Streamer,
        page: u32,
        frame: u32,
        tile: &[u8],
        _depth: u32,
    ) -> Result<(), NoMemory> {
        map_page(rt, words, streamer, page, frame, tile);
        Ok(())
    }

    fn open(words: &Words, streamer: &mut Streamer, number: u32, reader: &mut WordReader) {
        reader.pass = Some(streamer.give_pass(words, number));
    }

    fn enter<R: Wait>(_rt: &R, _words: &Words, _number: u32, _reader: &mut WordReader) {}

    fn draw_row<P: Filter, G: Gate, R: Wait>(
        _rt: &R,
        words: &Words,
        number: u32,
        reader: &mut WordReader,
        shot: &Shot,
        y: u32,
        gate: &G,
        out: &mut [u8],
        counts: &mut [u32],
    ) -> u64 {
        let pass = mem::replace(&mut reader.pass, None);
        match pass {
            Some(pass) => {
                let (next, version) = draw_held::<P, G>(
                    pass, words, shot, number, y, gate, out, counts,
                );
                reader.pass = Some(next);
                version
            }
            None => unreachable!(),
        }
    }

    fn bring<R: Wait, G: Gate>(
        rt: &R,
        words: &Words,
        streamer: &mut Streamer,
        planned: &Planned,
        tile: &[u8],
        _depth: u32,
        gate: &G,
    ) -> Result<(), NoMemory> {
        put_entry(rt, words, streamer, planned, tile, gate);
        Ok(())
    }

    fn close(
        words: &Words,
        streamer: &mut Streamer,
        _number: u32,
        reader: &mut WordReader,
    ) -> bool {
        let pass = mem::replace(&mut reader.pass, None);
        match pass {
            Some(pass) => {
                streamer.take_back(words, pass);
                true
            }
            None => unreachable!(),
        }
    }

    fn is_sound(_words: &Words, _streamer: &Streamer) -> bool {
        true
    }

    fn end<R: Wait>(_rt: &R, _streamer: Streamer) {}

    ghost later_none = { λ w. taken_none w.writer };

    ghost later_twice = { λ u v w one two. taken_twice u.writer v.writer w.writer one two };

    ghost knows_later = { λ v w note one known. noted_later v.writer w.writer note one known };

    ghost room_less = { λ w m n less room. fewer n m w.spare less room };

    ghost was_later = { λ v w k r version one was. back_later v.writer w.writer k version one was };

    ghost came_within = { λ t u v w k r q one two came. came_within t.writer u.writer v.writer w.writer k r.pass one two came };

    ghost rows_none = { λ words s k r may. rows_none_if words s k r.pass may };

    ghost rows_more = { λ p q r versions v one two. rows_more_if p.pass q.pass r.pass versions v one two };

    ghost drew_now = { λ p q r versions v one two. held_now_if p.pass q.pass r.pass versions v one two };

    ghost drew_then = { λ p q r u v one two. held_then_if p.pass q.pass r.pass u v one two };

    ghost drew_since = { λ p q r v one two. held_since_if p.pass q.pass r.pass v one two };

    ghost rises = { λ p q r u v one two. held_rises_if p.pass q.pass r.pass u v one two };

    ghost since = { λ q r v one. since_if q.pass r.pass v one };

    ghost same_start = { λ q r v one. same_given_if q.pass r.pass v one };

    ghost says_more = { λ q r v note one said. said_more_if q.pass r.pass v note one said };
}

/// So many readers without a pass.
pub fn no_readers(alloc: Global, samplers: u32) -> Result<Items<WordReader>, NoMemory>
    ensures number { IfOk result (λ made. length made.elements ≡ samplers) }
    ensures none { IfOk result (λ made. All (λ r. r.pass ≡ None) made.elements) }
{
    let mut readers = Items::new(alloc);
    readers.reserve(u64::from(samplers))?;
    for _ in 0..samplers {
        readers.push(WordReader { pass: None });
    }
    Ok(readers)
}
