//! The look-up that owns its hold.

ghost use Rattle.std.specs.Prelude.{◌≡◌, ◌<◌, true};
ghost use Rattle.vt_pages.specs.Pages.{pages_of};
ghost use Rattle.vt_pictures.specs.DrawLookups.{IsFinestFound};
ghost use Rattle.vt_grace.specs.Places.{texel_word};
ghost use Rattle.vt_grace.specs.Tokens.{IsHeldOf};
ghost use Rattle.vt_lookup.specs.Notes.{FitsShape, IsNotedIn, HasNotedMore, LookupValue, LookupBase, base_of};

use std::marker::Model;
use vt_grace::{Held, Words};
use vt_pages::{Geometry, PageName};
use vt_pictures::{Found, Lookup, place_of};

/// A look-up of pages in the version that is held. It says what was noted under the hold, and takes no memory.
#[derive(Drop)]
pub struct HeldLookup<'a> {
    held: Held,
    words: &'a Words,
    geometry: &'a Geometry,
    // The frame that was found last, and the index of its first word.
    slot: u32,
    start: usize,
}

impl<'a> Model for HeldLookup<'a> {
    ghost use Rattle.std.specs.Prelude.{◌≡◌, true};
    ghost use Rattle.vt_grace.specs.Places.{texel_word};
    ghost use Rattle.vt_grace.specs.Tokens.{IsHeldOf};
    ghost use Rattle.vt_lookup.specs.Notes.{FitsShape, LookupValue};

    ghost Value = { LookupValue };

    ghost view = { λ l. record { shape = l.geometry.now; words = l.words.now; held = l.held } };

    ghost invariant = { λ l. IsHeldOf l.words.now l.held × FitsShape l.geometry.now l.words.now.sizes × (l.held.view.rooted ≡ true)
        × (l.start ≡ texel_word l.words.now.sizes l.slot 0) };
}

impl<'a> HeldLookup<'a> {
    /// The look-up over a hold of a pass that was given at a version that maps the root.
    pub fn new(held: Held, words: &'a Words, geometry: &'a Geometry) -> HeldLookup<'a>
        requires of { IsHeldOf words.now held }
        requires fits { FitsShape geometry.now words.now.sizes }
        requires rooted { held.view.rooted ≡ true }
        ensures { result ≡ record { shape = geometry.now; words = words.now; held = held } }
    {
        HeldLookup {
            held,
            words,
            geometry,
            slot: 0,
            start: words.start_of(0),
        }
    }

    /// Gives the hold back.
    pub fn into_held(self) -> Held
        ensures held { result ≡ self.entry.held }
    {
        let HeldLookup {
            held,
            words: _,
            geometry: _,
            slot: _,
            start: _,
        } = self;
        held
    }

    // The index of the first word of a frame, which is mostly the one that was found last.
    #[inline(always)]
    fn start_of(&self, frame: u32) -> usize
        ensures { result ≡ texel_word self.now.words.sizes frame 0 }
    {
        if frame == self.slot {
            return self.start;
        }
        self.words.start_of(frame)
    }
}

// The finest page that is mapped in the held version, of a page and its ancestors. It is called once for a run of pixels, and
// keeps out of their loop.
#[inline(never)]
fn finest_mapped(held: &mut Held, words: &Words, geometry: &Geometry, page: u32) -> Found
    requires of { IsHeldOf words.now held.old }
    requires fits { FitsShape geometry.now words.now.sizes }
    requires rooted { held.old.view.rooted ≡ true }
    requires page { page < pages_of geometry.now }
    ensures of { IsHeldOf words.now held.new }
    ensures version { held.new.version ≡ held.old.version }
    ensures more { HasNotedMore held.old.view held.new.view }
    ensures finest { IsFinestFound geometry.now held.new.version (IsNotedIn held.new.view) page result }
{
    let name = geometry.page_at(page);
    let mut col = name.col;
    let mut row = name.row;
    for level in name.level..geometry.levels() {
        let ancestor = geometry.index_of(&PageName { level, col, row });
        let entry = held.entry(words, ancestor);
        if entry != 0 {
            return Found {
                page: ancestor,
                level,
                slot: (entry - 1) as u32,
            };
        }
        col /= 2;
        row /= 2;
    }
    unreachable!()
}

impl Lookup for HeldLookup<'_> {
    ghost shape = { λ v. v.shape };

    ghost version = { λ v. v.held.version };

    ghost says = { λ v. IsNotedIn v.held.view };

    ghost Kept = { LookupBase };

    ghost kept = { base_of };

    #[inline]
    fn find(&mut self, page: u32) -> Found {
        let found = finest_mapped(&mut self.held, self.words, self.geometry, page);
        self.start = self.words.start_of(found.slot);
        self.slot = found.slot;
        found
    }

    #[inline(always)]
    fn texel(&mut self, found: &Found, x: u32, y: u32) -> u64 {
        let start = self.start_of(found.slot);
        let place = place_of(self.geometry, x, y);
        self.held.word_from(self.words, start, found.slot, place)
    }
}
