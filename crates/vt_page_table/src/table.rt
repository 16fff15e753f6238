//! A page table with one writer and a reader for each sampler.

ghost use Rattle.std.specs.Prelude.{◌≡◌, ℕ, ◌+◌, ◌*◌, ◌<◌, ◌≤◌, ◌^◌, false, Some, List, [], ◌∷◌, ◌++◌, length, slice_index, IsSome, IsTrue, IfOk, OnOk, OnErr};
ghost use Rattle.vt_definitions.specs.Depths.{IsDepth, texel_length};
ghost use Rattle.vt_definitions.specs.Limits.{most_samplers, most_versions};
ghost use Rattle.vt_tiles.specs.Shape.{Shape};
ghost use Rattle.vt_tiles.specs.Pages.{pages_of, root_of, IsWithinLimits};
ghost use Rattle.vt_tiles.specs.Format.{stored, tile_length};
ghost use Rattle.vt_tiles.specs.StoreViews.{IsStore};
ghost use Rattle.vt_pictures.specs.DrawLookups.{Note};
ghost use Rattle.vt_pictures.specs.Shots.{shot_row};
ghost use Rattle.vt_pictures.specs.Evidence.{AreShown, AreRaised, AreTrue};
ghost use Rattle.vt_pictures.specs.JournalTypes.changes.Change.{Change};
ghost use Rattle.vt_pictures.specs.JournalTypes.changes.Change.TheVariants.{Map};
ghost use Rattle.vt_pictures.specs.JournalText.{changes_of};
ghost use Rattle.vt_pictures.specs.Changes.{newest, at, IsNext};
ghost use Rattle.vt_machine.specs.Crews.{AreFrames};
ghost use Rattle.vt_machine.specs.Outcomes.{IsEntryFor, group_of};
ghost use Rattle.vt_page_table.specs.Readers.{AreHome};
ghost use Rattle.vt_page_table.specs.Fills.{AreStoredPages, FillsOne, FillsNone};

use std::alloc::Global;
use std::sync::Wait;
use vt_machine::{Journal, Planned, Shot};
use vt_outside::{Gate, Items, NoMemory};
use vt_pictures::Filter;
use vt_tiles::Geometry;

/// A page table that one writer changes while readers draw from it, each sampler by a reader of its own.
///
/// Between passes each reader is at home. Whoever has the writer opens it for a pass; its sampler lets it enter once, and then draws rows by
/// it; after the pass it is closed. What a reader says of versions is known to be true only once `close` has answered true.
///
/// Whether its types may be sent or shared is asked where a machine is made of them: as bounds here they would be assumptions of each
/// function that is generic in a table.
pub trait PageTable {
    /// What the workers of a pass share of the table.
    type Shared: Drop;

    /// A sampler's way to read it.
    type Reader: Drop;

    /// The right to change it.
    type Writer;

    /// What is shared is this writer's.
    ghost is_of: { Self.Shared → Self.Writer → Type 0 };

    /// How the texture of a writer is cut into pages.
    ghost shape: { Self.Writer → Shape };

    /// How many frames it has.
    ghost frame_count: { Self.Writer → ℕ };

    /// Its journal.
    ghost journal: { Self.Writer → List Change };

    /// It may make so many more changes.
    ghost has_room: { Self.Writer → ℕ → Type 0 };

    /// Readers who look from now on find this version or a later one.
    ghost finds: { Self.Writer → ℕ → Type 0 };

    /// It mapped a page to a frame that was filled with these words.
    ghost is_filled: { Self.Writer → ℕ → List ℕ → Type 0 };

    /// What it knows of versions.
    ghost knows: { Self.Writer → Note → Type 0 };

    /// The second writer is a later state of the first.
    ghost later: { Self.Writer → Self.Writer → Type 0 };

    /// Between these two states of the writer the reader of this sampler was closed: it was the first reader before, and is the second after.
    ghost came: { Self.Writer → Self.Writer → ℕ → Self.Reader → Self.Reader → Type 0 };

    /// By what the writer and this reader know, which is at home, the reader drew at this version.
    ghost was_at: { Self.Writer → ℕ → Self.Reader → ℕ → Type 0 };

    /// The reader of a sampler of this number is at home.
    ghost is_home: { Self.Writer → ℕ → Self.Reader → Type 0 };

    /// The reader of a sampler of this number was opened for pictures of a texture that is cut in this way.
    ghost is_open: { Self.Shared → Shape → ℕ → Self.Reader → Type 0 };

    /// It was opened so, has entered, and may draw rows.
    ghost may_draw: { Self.Shared → Shape → ℕ → Self.Reader → Type 0 };

    /// The version at which the pass starts for which a reader was opened.
    ghost start: { Self.Reader → ℕ };

    /// What a reader says of versions.
    ghost says: { Self.Reader → Note → Type 0 };

    /// The second reader is the first after `enter`.
    ghost entered: { Self.Reader → Self.Reader → Type 0 };

    /// The second reader is the first after it drew one row, at this version.
    ghost drew_row: { Self.Reader → Self.Reader → ℕ → Type 0 };

    /// By drawing rows at these versions, the newest first, each on its own, and by nothing else it came to be another.
    ghost drew_rows: { Self.Reader → Self.Reader → List ℕ → Type 0 };

    /// Between two views of a reader it drew at a version.
    ghost drew: { Self.Reader → Self.Reader → ℕ → Type 0 };

    /// What is so where memory is refused in a pass: nothing, for tables that take all their memory before.
    ghost refuses: { Type 0 };

    /// A table that maps nothing, with a reader for each of so many samplers. `frames` is from 1 to 65,535, with at most 8,388,608 texels
    /// together; `samplers` from 1 to 64. The one refusal is want of memory. It may wait.
    fn make<R: Wait>(
        rt: &R,
        alloc: Global,
        geometry: &Geometry,
        frames: u32,
        samplers: u32,
    ) -> Result<(Self::Shared, Self::Writer, Items<Self::Reader>), NoMemory>
        requires frames { AreFrames geometry.now frames }
        requires some { 1 ≤ samplers }
        requires few { samplers ≤ most_samplers }
        ensures of { IfOk result (λ made. is_of made.0 made.1) }
        ensures shape { IfOk result (λ made. shape made.1 ≡ geometry.now) }
        ensures frames { IfOk result (λ made. frame_count made.1 ≡ frames) }
        ensures empty { IfOk result (λ made. journal made.1 ≡ []) }
        ensures unfilled { IfOk result (λ made. (page : ℕ) (words : List ℕ) → is_filled made.1 page words → ⊥) }
        ensures home { IfOk result (λ made. AreHome (is_home made.1) samplers made.2.elements) };

    /// The journal, whose newest version is the table's.
    fn journal_of(writer: &Self::Writer) -> &Journal
        ensures { result.now.changes ≡ journal writer.now };

    /// Makes room for at least `n` more changes; no version may pass 2^62. After a refusal nothing changed.
    fn reserve(shared: &Self::Shared, writer: &mut Self::Writer, n: u64) -> Result<(), NoMemory>
        requires of { is_of shared.now writer.old }
        requires early { length (journal writer.old) + n ≤ most_versions }
        ensures of { is_of shared.now writer.new }
        ensures shape { shape writer.new ≡ shape writer.old }
        ensures frames { frame_count writer.new ≡ frame_count writer.old }
        ensures journal { journal writer.new ≡ journal writer.old }
        ensures fills { FillsNone (is_filled writer.old) (is_filled writer.new) }
        ensures later { later writer.old writer.new }
        ensures home { (k : ℕ) (r : Self.Reader) → is_home writer.old k r → is_home writer.new k r }
        ensures kept { OnErr result ((m : ℕ) → has_room writer.old m → has_room writer.new m) }
        ensures room { OnOk result (has_room writer.new n) };

    /// Fills a free frame with the tile of an unmapped page, and maps the page to it, between passes. Room for one change was reserved. A
    /// sample has `depth` bytes, 1 or 2; the tile has three samples a texel. It may wait. After a refusal the journal is as it was.
    fn place<R: Wait>(
        rt: &R,
        shared: &Self::Shared,
        writer: &mut Self::Writer,
        page: u32,
        frame: u32,
        tile: &[u8],
        depth: u32,
    ) -> Result<(), NoMemory>
        requires of { is_of shared.now writer.old }
        requires page { page < pages_of (shape writer.old) }
        requires frame { frame < frame_count writer.old }
        requires next { IsNext (newest (journal writer.old)) (Map page frame) }
        requires room { has_room writer.old 1 }
        requires depth { IsDepth depth }
        requires full { length tile.now ≡ tile_length (shape writer.old) depth }
        ensures of { is_of shared.now writer.new }
        ensures shape { shape writer.new ≡ shape writer.old }
        ensures frames { frame_count writer.new ≡ frame_count writer.old }
        ensures placed { OnOk result (journal writer.new ≡ journal writer.old ++ Map page frame ∷ []) }
        ensures finds { OnOk result (finds writer.new (length (journal writer.new))) }
        ensures filled { FillsOne depth ((shape writer.old).tile * (shape writer.old).tile) page tile.now
            (is_filled writer.old) (is_filled writer.new) }
        ensures later { OnOk result (later writer.old writer.new) }
        ensures home { (k : ℕ) (r : Self.Reader) → is_home writer.old k r → is_home writer.new k r }
        ensures same { OnErr result (journal writer.new ≡ journal writer.old) }
        ensures refused { OnErr result refuses };

    /// Opens a reader that is at home, for a pass that starts at the newest version, which maps the root. It takes no memory and waits
    /// for nobody.
    fn open(
        shared: &Self::Shared,
        writer: &mut Self::Writer,
        number: u32,
        reader: &mut Self::Reader,
    )
        requires of { is_of shared.now writer.old }
        requires home { is_home writer.old number reader.old }
        requires root { IsSome (newest (journal writer.old) (root_of (shape writer.old))) }
        ensures of { is_of shared.now writer.new }
        ensures open { is_open shared.now (shape writer.old) number reader.new }
        ensures start { start reader.new ≡ length (journal writer.old) }
        ensures shape { shape writer.new ≡ shape writer.old }
        ensures frames { frame_count writer.new ≡ frame_count writer.old }
        ensures journal { journal writer.new ≡ journal writer.old }
        ensures room { (n : ℕ) → has_room writer.old n → has_room writer.new n }
        ensures fills { FillsNone (is_filled writer.old) (is_filled writer.new) }
        ensures later { later writer.old writer.new }
        ensures others { (k : ℕ) (r : Self.Reader) → (k ≡ number → ⊥) → is_home writer.old k r → is_home writer.new k r };

    /// Lets a reader see the version at which its pass starts. It takes no memory. It may wait.
    fn enter<R: Wait>(rt: &R, shared: &Self::Shared, number: u32, reader: &mut Self::Reader)
        requires { (s : Shape) × is_open shared.now s number reader.old }
        ensures may { (s : Shape) → is_open shared.now s number reader.old → may_draw shared.now s number reader.new }
        ensures entered { entered reader.old reader.new }
        ensures start { start reader.new ≡ start reader.old };

    /// Draws row `y` of a picture by a filter, in a version that the reader holds or enters for this row, and tells that version.
    ///
    /// `y` is below the picture's height, `out` has three samples a column of the shot's depth, and `counts` has a number for each page,
    /// each of which can rise by four times the picture's width. The gate is told of the row, each time it is drawn, before the first
    /// look-up. It takes no memory and refuses nothing. It may wait.
    fn draw_row<P: Filter, G: Gate, R: Wait>(
        rt: &R,
        shared: &Self::Shared,
        number: u32,
        reader: &mut Self::Reader,
        shot: &Shot,
        y: u32,
        gate: &G,
        out: &mut [u8],
        counts: &mut [u32],
    ) -> u64
        requires may { may_draw shared.now shot.now.geometry.now number reader.old }
        requires depth { IsDepth shot.now.depth }
        requires picture { shot.now.picture < length shot.now.path.now.cameras }
        requires within { y < shot.now.path.now.height }
        requires bytes { length out.old ≡ texel_length shot.now.depth * shot.now.path.now.width }
        requires pages { length counts.old ≡ pages_of shot.now.geometry.now }
        requires room { (p : ℕ) → p < length counts.old → slice_index counts.old p + 4 * shot.now.path.now.width < 2 ^ 32 }
        ensures may { may_draw shared.now shot.now.geometry.now number reader.new }
        ensures drew { drew_row reader.old reader.new result }
        ensures drawn { let row = shot_row shot.now.geometry.now shot.now.path.now shot.now.picture y in
            AreShown P.shown shot.now.geometry.now shot.now.depth result (says reader.new) row
            shot.now.path.now.width out.new }
        ensures counted { let row = shot_row shot.now.geometry.now shot.now.path.now shot.now.picture y in
            AreRaised P.wants shot.now.geometry.now row shot.now.path.now.width counts.old counts.new };

    /// Puts the page of an entry in the place of its victim, if it has one: the victim is unmapped, the frame filled with the tile once
    /// nobody reads it, and the page mapped. Room for two changes was reserved. A sample has `depth` bytes, 1 or 2; the tile has three samples
    /// a texel. The gate is told of each version. It may wait. After a refusal the pass can only be ended.
    fn bring<R: Wait, G: Gate>(
        rt: &R,
        shared: &Self::Shared,
        writer: &mut Self::Writer,
        planned: &Planned,
        tile: &[u8],
        depth: u32,
        gate: &G,
    ) -> Result<(), NoMemory>
        requires of { is_of shared.now writer.old }
        requires entry { IsEntryFor (shape writer.old) (frame_count writer.old) (newest (journal writer.old)) planned.now }
        requires room { has_room writer.old 2 }
        requires depth { IsDepth depth }
        requires full { length tile.now ≡ tile_length (shape writer.old) depth }
        ensures of { is_of shared.now writer.new }
        ensures shape { shape writer.new ≡ shape writer.old }
        ensures frames { frame_count writer.new ≡ frame_count writer.old }
        ensures brought { OnOk result (journal writer.new ≡ journal writer.old ++ changes_of (group_of planned.now false)) }
        ensures finds { OnOk result (finds writer.new (length (journal writer.new))) }
        ensures room { OnOk result ((n : ℕ) → has_room writer.old (n + 2) → has_room writer.new n) }
        ensures filled { OnOk result (FillsOne depth ((shape writer.old).tile * (shape writer.old).tile) planned.now.page tile.now
            (is_filled writer.old) (is_filled writer.new)) }
        ensures later { OnOk result (later writer.old writer.new) }
        ensures home { (k : ℕ) (r : Self.Reader) → is_home writer.old k r → is_home writer.new k r }
        ensures refused { OnErr result refuses };

    /// Brings a reader home after a pass, and tells whether its writer knows by now what it said. It takes no memory and waits for nobody.
    fn close(
        shared: &Self::Shared,
        writer: &mut Self::Writer,
        number: u32,
        reader: &mut Self::Reader,
    ) -> bool
        requires of { is_of shared.now writer.old }
        requires may { may_draw shared.now (shape writer.old) number reader.old }
        ensures of { is_of shared.now writer.new }
        ensures shape { shape writer.new ≡ shape writer.old }
        ensures frames { frame_count writer.new ≡ frame_count writer.old }
        ensures journal { journal writer.new ≡ journal writer.old }
        ensures fills { FillsNone (is_filled writer.old) (is_filled writer.new) }
        ensures later { later writer.old writer.new }
        ensures home { is_home writer.new number reader.new }
        ensures others { (k : ℕ) (r : Self.Reader) → is_home writer.old k r → is_home writer.new k r }
        ensures came { IsTrue result → came writer.old writer.new number reader.old reader.new }
        ensures known { IsTrue result → (note : Note) → says reader.old note → knows writer.new note }
        ensures at { IsTrue result → (r : Self.Reader) (v : ℕ) → drew r reader.old v → was_at writer.new number reader.new v }
        ensures newest { IsTrue result → (r : Self.Reader) (v : ℕ) → drew r reader.old v → v ≤ length (journal writer.new) }
        ensures refused { result ≡ false → refuses };

    /// Whether all that a writer knows is true of its journal over a store, of whose tiles it filled its pages.
    fn is_sound(shared: &Self::Shared, writer: &Self::Writer) -> bool
        requires { is_of shared.now writer.now }
        ensures sound { IsTrue result → (s : Shape) (d : ℕ) (b : List ℕ) (version : ℕ) → IsWithinLimits s → IsStore b s d
            → AreStoredPages s d (Some b) (is_filled writer.now)
            → AreTrue s (stored b) (at (journal writer.now) version) version (knows writer.now) }
        ensures refused { result ≡ false → refuses };

    /// Ends a writer. It may wait.
    fn end<R: Wait>(rt: &R, writer: Self::Writer);

    /// A writer that did nothing.
    ghost later_none: { (w : Self.Writer) → later w w };

    /// By calls twice it came to be what it is.
    ghost later_twice: { (u v w : Self.Writer) → later u v → later v w → later u w };

    /// What it knew it knows.
    ghost knows_later: { (v w : Self.Writer) (note : Note) → later v w → knows v note → knows w note };

    /// Where it may make many more changes, it may make fewer.
    ghost room_less: { (w : Self.Writer) (m n : ℕ) → n ≤ m → has_room w m → has_room w n };

    /// At which version a reader drew stays known.
    ghost was_later: { (v w : Self.Writer) (k : ℕ) (r : Self.Reader) (version : ℕ) → later v w → was_at v k r version → was_at w k r version };

    /// Being closed between two states is being closed between states farther apart.
    ghost came_within: { (t u v w : Self.Writer) (k : ℕ) (r q : Self.Reader) → later t u → later v w → came u v k r q → came t w k r q };

    /// A reader that may draw and drew nothing.
    ghost rows_none: { (shared : Self.Shared) (s : Shape) (k : ℕ) (r : Self.Reader) → may_draw shared s k r → drew_rows r r [] };

    /// It drew one row more.
    ghost rows_more: { (p q r : Self.Reader) (versions : List ℕ) (v : ℕ) → drew_rows p q versions → drew_row q r v
        → drew_rows p r (v ∷ versions) };

    /// The version of the newest row is one at which it drew.
    ghost drew_now: { (p q r : Self.Reader) (versions : List ℕ) (v : ℕ) → drew_rows p q versions → drew_row q r v → drew p r v };

    /// A version at which it drew stays one, though it draws on.
    ghost drew_then: { (p q r : Self.Reader) (u v : ℕ) → drew p q u → drew_row q r v → drew p r u };

    /// What was drawn since it entered was drawn since before it entered.
    ghost drew_since: { (p q r : Self.Reader) (v : ℕ) → entered p q → drew q r v → drew p r v };

    /// Versions never fall.
    ghost rises: { (p q r : Self.Reader) (u v : ℕ) → drew p q u → drew_row q r v → u ≤ v };

    /// None is before the start of the pass.
    ghost since: { (q r : Self.Reader) (v : ℕ) → drew_row q r v → start q ≤ v };

    /// Drawing a row does not change the start.
    ghost same_start: { (q r : Self.Reader) (v : ℕ) → drew_row q r v → start r ≡ start q };

    /// What it said it says.
    ghost says_more: { (q r : Self.Reader) (v : ℕ) (note : Note) → drew_row q r v → says q note → says r note };
}
