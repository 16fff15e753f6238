//! A reader of a table of shared words, which one thread at a time uses.

ghost use Rattle.std.specs.Prelude.{◌≡◌, ◌≢◌, ◌*◌, ◌<◌, true, length, IfSome, IfNone, MatchOption};
ghost use Rattle.std.specs.List.{All};
ghost use Rattle.std.specs.Bool.{MatchBool};
ghost use Rattle.std.specs.Arc.{arc_value};
ghost use Rattle.vt_definitions.specs.Depths.{IsDepth, texel_length};
ghost use Rattle.vt_pages.specs.Pages.{pages_of};
ghost use Rattle.vt_draw.specs.Lookups.{IsFinestFound};
ghost use Rattle.vt_grace.specs.Tokens.{IsPassOf, IsHeldOf};
ghost use Rattle.vt_grace.specs.Values.{PassValue};
ghost use Rattle.vt_lookup.specs.Notes.{FitsShape, IsNotedIn, HasNotedMore};
ghost use Rattle.vt_texel_runs.specs.Points.{IsPoint, AreAnswered};
ghost use Rattle.vt_texel_runs.specs.Blends.{AreBlendsAlong};
ghost use Rattle.vt_shared.specs.Readers.{left_by, HoldsOne, HoldsNone, HasTakenHold, HasReleased, HasLookedUp, HasReadTexels, HasReadRun, HasBlendedRun};
ghost use Rattle.vt_texel_runs.specs.Spans.{IsSpanInside, AreSpanned, AreWantedBySpan};
ghost use Rattle.vt_shared.specs.declared.reader.Stand.TheVariants.{Gone, Resting, Holding};

use std::alloc::Global;
use std::marker::Model;
use std::mem;
use std::sync::Arc;
use vt_draw::{Found, Lookup};
use vt_grace::{Held, Pass, Words};
use vt_lookup::HeldLookup;
use vt_pages::Geometry;
use vt_texel_runs::{Point, Span, blend_run, read_all, read_run};

/// What a reader has of the words: its pass, or the version that it holds.
#[derive(Drop)]
pub enum Stand {
    /// Nothing, within a call.
    Gone,
    /// Its pass; it holds nothing.
    Resting(Pass),
    /// A version that it holds.
    Holding(Held),
}

/// A reader of a table of shared words. Contracts see the words, the shape of their pages, how many bytes a sample has, which sampler it
/// is, and its pass or hold.
#[derive(Drop)]
pub struct Reader {
    words: Arc<Words, Global>,
    geometry: Geometry,
    depth: u32,
    sampler: u32,
    stand: Stand,
}

impl Model for Reader {
    ghost use Rattle.std.specs.Arc.{arc_value};
    ghost use Rattle.vt_shared.specs.Readers.{SharedReaderView, IsReaderStanding};

    ghost Value = { SharedReaderView };

    ghost view = { λ r. record { words = arc_value r.words; shape = r.geometry; depth = r.depth; sampler = r.sampler; stand = r.stand } };

    ghost invariant = { λ r. IsReaderStanding (arc_value r.words) r.geometry r.depth r.sampler r.stand };
}

// Takes the hold out of a stand. One that rests stays as it was.
fn take_hold(stand: &mut Stand) -> Option<Held>
    requires { stand.old ≢ Gone }
    ensures { MatchOption result ((stand.new ≡ stand.old) × ((pass : PassValue) × (stand.old ≡ Resting pass)))
        (λ held. (stand.new ≡ Gone) × (stand.old ≡ Holding held)) }
{
    match mem::replace(stand, Stand::Gone) {
        Stand::Holding(held) => Some(held),
        Stand::Resting(pass) => {
            *stand = Stand::Resting(pass);
            None
        }
        Stand::Gone => unreachable!(),
    }
}

// Looks a page up under a hold.
fn find_under(held: Held, words: &Words, geometry: &Geometry, page: u32) -> (Held, Found)
    requires of { IsHeldOf words.now held }
    requires fits { FitsShape geometry.now words.now.sizes }
    requires rooted { held.view.rooted ≡ true }
    requires page { page < pages_of geometry.now }
    ensures of { IsHeldOf words.now result.0 }
    ensures version { result.0.version ≡ held.version }
    ensures more { HasNotedMore held.view result.0.view }
    ensures finest { IsFinestFound geometry.now result.0.version (IsNotedIn result.0.view) page result.1 }
{
    let mut lookup = HeldLookup::new(held, words, geometry);
    let found = lookup.find(page);
    (lookup.into_held(), found)
}

// Reads the texels over points under a hold.
fn read_under(
    held: Held,
    words: &Words,
    geometry: &Geometry,
    depth: u32,
    points: &[Point],
    out: &mut [u8],
) -> Held
    requires of { IsHeldOf words.now held }
    requires fits { FitsShape geometry.now words.now.sizes }
    requires rooted { held.view.rooted ≡ true }
    requires depth { IsDepth depth }
    requires points { All (IsPoint geometry.now) points.now }
    requires bytes { length out.old ≡ texel_length depth * length points.now }
    ensures of { IsHeldOf words.now result }
    ensures version { result.version ≡ held.version }
    ensures more { HasNotedMore held.view result.view }
    ensures answered { AreAnswered geometry.now depth result.version (IsNotedIn result.view) points.now (length points.now) out.new }
{
    let _levels = geometry.levels();
    let mut lookup = HeldLookup::new(held, words, geometry);
    read_all(&mut lookup, geometry, depth, points, out);
    lookup.into_held()
}

// Reads a run of texels under a hold.
fn run_under(
    held: Held,
    words: &Words,
    geometry: &Geometry,
    depth: u32,
    span: &Span,
    out: &mut [u8],
    pages: &mut [u32],
) -> Held
    requires of { IsHeldOf words.now held }
    requires fits { FitsShape geometry.now words.now.sizes }
    requires rooted { held.view.rooted ≡ true }
    requires depth { IsDepth depth }
    requires inside { IsSpanInside geometry.now span.now }
    requires bytes { length out.old ≡ texel_length depth * span.now.count }
    requires pages { length pages.old ≡ span.now.count }
    ensures of { IsHeldOf words.now result }
    ensures version { result.version ≡ held.version }
    ensures more { HasNotedMore held.view result.view }
    ensures answered { AreSpanned geometry.now depth result.version (IsNotedIn result.view) span.now span.now.count out.new }
    ensures wanted { AreWantedBySpan geometry.now span.now span.now.count pages.new }
{
    let _levels = geometry.levels();
    let mut lookup = HeldLookup::new(held, words, geometry);
    read_run(&mut lookup, geometry, depth, span, out, pages);
    lookup.into_held()
}

// Reads a run of texels by bilinear filtering under a hold.
fn blends_under(
    held: Held,
    words: &Words,
    geometry: &Geometry,
    depth: u32,
    span: &Span,
    out: &mut [u8],
    pages: &mut [u32],
) -> Held
    requires of { IsHeldOf words.now held }
    requires fits { FitsShape geometry.now words.now.sizes }
    requires rooted { held.view.rooted ≡ true }
    requires depth { IsDepth depth }
    requires inside { IsSpanInside geometry.now span.now }
    requires bytes { length out.old ≡ texel_length depth * span.now.count }
    requires pages { length pages.old ≡ span.now.count }
    ensures of { IsHeldOf words.now result }
    ensures version { result.version ≡ held.version }
    ensures more { HasNotedMore held.view result.view }
    ensures answered { AreBlendsAlong geometry.now depth result.version (IsNotedIn result.view) span.now span.now.count out.new }
    ensures wanted { AreWantedBySpan geometry.now span.now span.now.count pages.new }
{
    let _levels = geometry.levels();
    let mut lookup = HeldLookup::new(held, words, geometry);
    blend_run(&mut lookup, geometry, depth, span, out, pages);
    lookup.into_held()
}

impl Reader {
    /// A reader with a pass, which holds nothing.
    pub(crate) fn new(
        words: Arc<Words, Global>,
        geometry: Geometry,
        depth: u32,
        sampler: u32,
        pass: Pass,
    ) -> Reader
        requires fits { FitsShape geometry (arc_value words).sizes }
        requires depth { IsDepth depth }
        requires inside { sampler < (arc_value words).sizes.samplers }
        requires of { IsPassOf (arc_value words) pass }
        requires rooted { pass.view.rooted ≡ true }
        requires own { pass.view.sampler ≡ sampler }
        ensures { result ≡ record { words = arc_value words; shape = geometry; depth = depth; sampler = sampler; stand = Resting pass } }
    {
        Reader {
            words,
            geometry,
            depth,
            sampler,
            stand: Stand::Resting(pass),
        }
    }

    /// The pages of the table.
    pub fn geometry(&self) -> &Geometry
        ensures { result.now ≡ self.now.shape }
    {
        let _depth = self.depth;
        &self.geometry
    }

    /// How many bytes a sample has.
    pub fn depth(&self) -> u32
        ensures depth { result ≡ self.now.depth }
        ensures is { IsDepth self.now.depth }
    {
        self.depth
    }

    /// Which sampler it is.
    pub fn sampler(&self) -> u32
        ensures number { result ≡ self.now.sampler }
        ensures inside { result < self.now.words.sizes.samplers }
    {
        self.sampler
    }

    /// Takes hold of the newest version, which is not below any that it held before, and tells it. `None` where it holds one already.
    pub fn hold(&mut self) -> Option<u64>
        ensures held { IfSome result (HasTakenHold self.old self.new) }
        ensures none { IfNone result (self.new ≡ self.old) }
        ensures already { IfNone result (HoldsOne self.old) }
    {
        match mem::replace(&mut self.stand, Stand::Gone) {
            Stand::Resting(pass) => {
                let held = pass.pin(&*self.words);
                let version = held.version();
                self.stand = Stand::Holding(held);
                Some(version)
            }
            Stand::Holding(held) => {
                self.stand = Stand::Holding(held);
                None
            }
            Stand::Gone => unreachable!(),
        }
    }

    /// Holds its version no longer. False where it holds none.
    pub fn release(&mut self) -> bool
        ensures { MatchBool result (HasReleased self.old self.new) ((self.new ≡ self.old) × HoldsNone self.old) }
    {
        match take_hold(&mut self.stand) {
            Some(held) => {
                self.stand = Stand::Resting(held.unpin(&*self.words));
                true
            }
            None => false,
        }
    }

    /// Looks a page up in the version that it holds: the finest mapped page of the page's line. `None` where it holds none.
    pub fn look_up(&mut self, page: u32) -> Option<Found>
        requires { page < pages_of self.old.shape }
        ensures found { IfSome result (HasLookedUp self.old self.new page) }
        ensures none { IfNone result (self.new ≡ self.old) }
        ensures holds_none { IfNone result (HoldsNone self.old) }
    {
        match take_hold(&mut self.stand) {
            Some(held) => {
                let (held, found) = find_under(held, &*self.words, &self.geometry, page);
                self.stand = Stand::Holding(held);
                Some(found)
            }
            None => None,
        }
    }

    /// Writes the bytes of the texels over points in the version that it holds, three samples a texel, the most significant byte of a
    /// sample first. False where it holds none.
    pub fn texels(&mut self, points: &[Point], out: &mut [u8]) -> bool
        requires points { All (IsPoint self.old.shape) points.now }
        requires room { length out.old ≡ texel_length self.old.depth * length points.now }
        ensures read { MatchBool result (HasReadTexels self.old self.new points.now out.new) ((self.new ≡ self.old) × (out.new ≡ out.old)) }
        ensures holds_none { MatchBool result (Unit {0}) (HoldsNone self.old) }
        ensures long { length out.new ≡ length out.old }
    {
        match take_hold(&mut self.stand) {
            Some(held) => {
                let held = read_under(held, &*self.words, &self.geometry, self.depth, points, out);
                self.stand = Stand::Holding(held);
                true
            }
            None => false,
        }
    }

    /// Writes the bytes of a run of texels in the version that it holds, as `texels` does, and the page that each of them wants. False
    /// where it holds none.
    pub fn run(&mut self, span: &Span, out: &mut [u8], pages: &mut [u32]) -> bool
        requires inside { IsSpanInside self.old.shape span.now }
        requires room { length out.old ≡ texel_length self.old.depth * span.now.count }
        requires pages { length pages.old ≡ span.now.count }
        ensures read { MatchBool result (HasReadRun self.old self.new span.now out.new pages.new)
            ((self.new ≡ self.old) × (out.new ≡ out.old) × (pages.new ≡ pages.old)) }
        ensures holds_none { MatchBool result (Unit {0}) (HoldsNone self.old) }
        ensures long { length out.new ≡ length out.old }
        ensures wide { length pages.new ≡ length pages.old }
    {
        match take_hold(&mut self.stand) {
            Some(held) => {
                let held = run_under(
                    held,
                    &*self.words,
                    &self.geometry,
                    self.depth,
                    span,
                    out,
                    pages,
                );
                self.stand = Stand::Holding(held);
                true
            }
            None => false,
        }
    }

    /// Writes the bytes of a run of texels by bilinear filtering in the version that it holds, and the page that each of them wants, as
    /// `run` does by the nearest ones. False where it holds none.
    pub fn blended_run(&mut self, span: &Span, out: &mut [u8], pages: &mut [u32]) -> bool
        requires inside { IsSpanInside self.old.shape span.now }
        requires room { length out.old ≡ texel_length self.old.depth * span.now.count }
        requires pages { length pages.old ≡ span.now.count }
        ensures read { MatchBool result (HasBlendedRun self.old self.new span.now out.new pages.new)
            ((self.new ≡ self.old) × (out.new ≡ out.old) × (pages.new ≡ pages.old)) }
        ensures holds_none { MatchBool result (Unit {0}) (HoldsNone self.old) }
        ensures long { length out.new ≡ length out.old }
        ensures wide { length pages.new ≡ length pages.old }
    {
        match take_hold(&mut self.stand) {
            Some(held) => {
                let held = blends_under(
                    held,
                    &*self.words,
                    &self.geometry,
                    self.depth,
                    span,
                    out,
                    pages,
                );
                self.stand = Stand::Holding(held);
                true
            }
            None => false,
        }
    }

    /// Its pass; it holds its version no longer.
    pub(crate) fn into_pass(self) -> Pass
        ensures of { IsPassOf self.words result }
        ensures view { result.view ≡ left_by self.stand }
        ensures own { result.view.sampler ≡ self.sampler }
    {
        let Reader {
            words,
            geometry: _,
            depth: _,
            sampler: _,
            stand,
        } = self;
        match stand {
            Stand::Resting(pass) => pass,
            Stand::Holding(held) => held.unpin(&*words),
            Stand::Gone => unreachable!(),
        }
    }
}
