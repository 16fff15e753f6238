//! Laws of passes: each is the contract of a function that does nothing.

ghost use Rattle.std.specs.Prelude.{◌≡◌, ◌≢◌, ℕ, ◌+◌, ◌<◌, ◌≤◌, Bool, true, List, [], ◌∷◌, ◌++◌, Some, length, take, slice_get, slice_index_or, slice_set, option_map};
ghost use Rattle.std.specs.List.{concat, range_with_len};
ghost use Rattle.vt_tiles.specs.Texels.{Source};
ghost use Rattle.vt_outside.specs.Counts.{Rose};
ghost use Rattle.vt_outside.specs.Files.{noted};
ghost use Rattle.vt_pages.specs.Shape.{Shape};
ghost use Rattle.vt_pages.specs.Pages.{IsWithinLimits};
ghost use Rattle.vt_pictures.specs.Shots.{pixels_wanting};
ghost use Rattle.vt_pictures.specs.FilterLaws.{picture_wants};
ghost use Rattle.vt_pictures.specs.JournalTypes.changes.Change.{Change};
ghost use Rattle.vt_pictures.specs.JournalTypes.changes.Event.{Event};
ghost use Rattle.vt_pictures.specs.Changes.{Table, newest};
ghost use Rattle.vt_pictures.specs.JournalText.{changes_of};
ghost use Rattle.vt_evict.specs.PlanTypes.batches.Planned.{Planned};
ghost use Rattle.vt_tiles.specs.Format.{tile_start, tile_length};
ghost use Rattle.vt_tiles.specs.StoreViews.{IsStore};
ghost use Rattle.vt_machine.specs.declared.crew.PassReport.{PassReport as Report};
ghost use Rattle.vt_pictures.specs.Scenes.{Scene};
ghost use Rattle.vt_machine.specs.Jobs.{Job};
ghost use Rattle.vt_machine.specs.Outcomes.{IsEntryFor, IsBatchFor, group_of, pass_events, IsOutcome};
ghost use Rattle.vt_machine.specs.Requests.{FileState, AreReadFor};
ghost use Rattle.vt_pictures.specs.Replays.{IsPictureOf, pixel_under, plain_pixel};
ghost use Rattle.vt_machine.specs.Machines.{MachineState};
ghost use Rattle.vt_machine.specs.Passes.{IsJobFor, MapsNeeded, Ran};

use crate::machine::PassMachine;

/// The picture of a pass that loaded nothing is the plain picture, where the root was mapped and every page that it
/// needs.
pub fn settled_pass_is_plain<M: PassMachine>()
    ensures { (m : M) (job : Job) (report : Report) (before after : MachineState) (b : List ℕ)
        → Ran M.drawing (M.drawn m) job report before after → job.batch ≡ []
        → IsWithinLimits job.scene.shape
        → IsJobFor before.setup job → before.setup.bytes ≡ Some b → IsStore b job.scene.shape job.scene.depth
        → MapsNeeded job.scene.shape (newest before.journal) (M.drawing.needs job.scene job.picture)
        → IsPictureOf before.setup.depth before.setup.width before.setup.height (λ x y. M.drawing.whole job.scene b
        job.picture x y) (concat after.rows) }
{}

/// The page table after a pass depends on the batch and on which entries were lost, and not on the order in which they
/// came.
pub fn order_leaves_one_table()
    ensures { (s : Shape) (frames : ℕ) (js : List Change) (batch : List Planned) (losses : List Bool)
        (events others : List Event)
        → IsBatchFor s frames (newest js) batch → IsOutcome batch losses events → IsOutcome batch losses others
        → newest (js ++ changes_of events) ≡ newest (js ++ changes_of others) }
{}

/// The reads of a batch add up, one entry after another: one of the loaders' files was asked once more, for the tile of
/// the next entry.
pub fn reads_add_up()
    ensures { (s : Shape) (d n : ℕ) (batch : List Planned) (losses : List Bool) (lost : Bool)
        (before files : List FileState) (k : ℕ)
        (now : FileState) (e : Planned) → AreReadFor s d (take n batch) losses before files → k < length files
        → n < length batch
        → slice_index_or batch n e ≡ e → length losses ≡ n → now.name ≡ (slice_index_or files k now).name
        → now.asked ≡ option_map (noted (tile_start s d e.page) (tile_length s d) lost)
        (slice_index_or files k now).asked
        → (slice_index_or files k now).faults ≤ now.faults
        → (lost ≡ true → Rose (slice_index_or files k now).faults now.faults)
        → AreReadFor s d (take (n + 1) batch) (losses ++ lost ∷ []) before (slice_set files k now) }
{}

/// Where the root is mapped and every page that a pixel of the picture wants, a pixel under the page table is that of
/// the plain picture (van Waveren 2012).
pub fn mapped_pixels_are_plain()
    ensures { (src : Source) (scene : Scene) (m : Table) (i x y : ℕ) → IsWithinLimits scene.shape → x < scene.path.width
        → y < scene.path.height → MapsNeeded scene.shape m (picture_wants pixels_wanting scene i)
        → pixel_under src scene m i x y ≡ plain_pixel src scene i x y }
{}

/// What an entry that was streamed leaves of a batch that is lawful: the others stay lawful, and the events gain its
/// group.
pub fn entries_are_streamed_one_by_one()
    ensures lawful { (s : Shape) (frames : ℕ) (js : List Change) (e f : Planned) (lost : Bool)
        → IsEntryFor s frames (newest js) e
        → IsEntryFor s frames (newest js) f → (e.page ≢ f.page) × (e.frame ≢ f.frame)
        → IsEntryFor s frames (newest (js ++ changes_of (group_of e lost))) f }
    ensures events { (batch : List Planned) (losses : List Bool) (lost : Bool) (n : ℕ) (e : Planned) → length losses ≡ n
        → slice_get batch n ≡ Some e
        → pass_events batch (losses ++ lost ∷ []) (range_with_len 0 (n + 1))
        ≡ pass_events batch losses (range_with_len 0 n) ++ group_of e lost }
{}
