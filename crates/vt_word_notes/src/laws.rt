//! Laws of rows that are drawn by notes of the shared words: each is the contract of a function that does nothing.

ghost use Rattle.std.specs.Prelude.{◌≡◌, ℕ, ◌++◌, Option, Some, IfSome, List, [], length, slice_get, slice_index_or, ◌≤◌};
ghost use Rattle.vt_tiles.specs.Shape.{Shape};
ghost use Rattle.vt_tiles.specs.Pages.{IsWithinLimits};
ghost use Rattle.vt_streaming.specs.Paths.{PathView};
ghost use Rattle.vt_streaming.specs.Rows.{RowView};
ghost use Rattle.vt_sampler.specs.Shots.{shot_row, AreDrawn};
ghost use Rattle.vt_journal.specs.declared.changes.Change.{Change};
ghost use Rattle.vt_journal.specs.declared.changes.RowLine.{RowLine};
ghost use Rattle.vt_journal.specs.Changes.{at};
ghost use Rattle.vt_tiles.specs.Format.{stored};
ghost use Rattle.vt_tiles.specs.StoreViews.{IsStore, IsStoreIfKnown};
ghost use Rattle.vt_sampler.specs.GraceTypes.views.EntryNote.{EntryNote as ReadEntry};
ghost use Rattle.vt_sampler.specs.GraceTypes.views.WordNote.{WordNote as ReadWord};
ghost use Rattle.vt_sampler.specs.GraceTypes.views.PassView.{PassView};
ghost use Rattle.vt_sampler.specs.GraceTypes.views.WriterView.{WriterView};
ghost use Rattle.vt_streaming.specs.WriterViews.{after_look, after_entry, after_word, after_change};
ghost use Rattle.vt_streaming.specs.Giving.{after_giving, after_return};
ghost use Rattle.vt_streaming.specs.Sound.{IsSound};
ghost use Rattle.vt_streaming.specs.Scenes.{Scene};
ghost use Rattle.vt_streaming.specs.Replays.{HasPixels, AreReplayed};
ghost use Rattle.vt_sampler.specs.Evidence.{IsBy, AreTrue, AreShown};
ghost use Rattle.vt_word_notes.specs.Noted.{IsAmong, IsNotedBy, HasNoted, HasNotesOf, AreNotedRows};
ghost use Rattle.vt_word_notes.specs.Stored.{AreStored};

use vt_sampler::{Filter, Nearest};

/// What a writer took back as notes of a version is true of that version's table over the store, where the contents of its
/// changes are tiles of the store.
pub fn notes_are_true()
    ensures { (w : WriterView) (s : Shape) (d : ℕ) (b : List ℕ) (version : ℕ)
        → IsSound w → IsWithinLimits s → IsStore b s d → AreStored s d (Some b) w.journal w.contents
        → AreTrue s (stored b) (at w.journal version) version (IsNotedBy w) }
{}

/// A pixel that a filter drew at a version by notes which a writer took back, whose contents are tiles of a store, has the
/// bytes that the replay of that version has, though the journal has grown since (van Waveren 2012).
pub fn noted_pixels_are_replayed<P: Filter>()
    ensures { (w : WriterView) (s : Shape) (d : ℕ) (b : List ℕ) (scene : Scene) (version i x y : ℕ) (bytes : List ℕ)
        → IsSound w → IsWithinLimits s → IsStore b s d → AreStored s d (Some b) w.journal w.contents
        → scene.shape ≡ s → scene.depth ≡ d
        → IsBy (IsNotedBy w) (λ notes. P.shown s d version notes (shot_row s scene.path i y) x bytes)
        → bytes ≡ P.under (stored b) scene (at w.journal version) i x y }
{}

/// So has each of the first `n` pixels of a row.
pub fn noted_rows_are_replayed<P: Filter>()
    ensures { (w : WriterView) (s : Shape) (d : ℕ) (b : List ℕ) (scene : Scene) (version i n y : ℕ) (bytes : List ℕ)
        → IsSound w → IsWithinLimits s → IsStore b s d → AreStored s d (Some b) w.journal w.contents
        → scene.shape ≡ s → scene.depth ≡ d
        → AreShown P.shown s d version (IsNotedBy w) (shot_row s scene.path i y) n bytes
        → HasPixels d n (λ x. P.under (stored b) scene (at w.journal version) i x y) bytes }
{}

/// A picture each of whose rows was drawn so, at the version that its line names, is the replay of the journal, where
/// the store's bytes are known.
pub fn pictures_by_notes_are_replayed<P: Filter>()
    ensures { (w : WriterView) (s : Shape) (d : ℕ) (known : Option (List ℕ)) (scene : Scene) (i n : ℕ)
        (lines : List RowLine) (rows : List (List ℕ))
        → IsSound w → IsWithinLimits s → IsStoreIfKnown known s d → AreStored s d known w.journal w.contents
        → scene.shape ≡ s → scene.depth ≡ d
        → ((y : ℕ) (line : RowLine) → slice_get lines y ≡ Some line
        → AreShown P.shown s d line.version (IsNotedBy w) (shot_row s scene.path i y) n (slice_index_or rows y []))
        → IfSome known (λ b. AreReplayed d n (λ m x y. P.under (stored b) scene m i x y) w.journal lines rows) }
{}

/// What a pass has noted the writer has noted once it took the pass back; and what a writer has noted it has noted after
/// each of its steps, and after any change of what it knows beside its notes.
pub fn notes_are_kept()
    ensures passed { (w : WriterView) (p : PassView) → HasNoted (after_return w p) p.notes p.word_notes }
    ensures returned { (w : WriterView) (p : PassView) → HasNotesOf (after_return w p) w }
    ensures given { (w : WriterView) (sampler : ℕ) → HasNotesOf (after_giving w sampler) w }
    ensures looked { (w : WriterView) (sampler word : ℕ) → HasNotesOf (after_look w sampler word) w }
    ensures entered { (w : WriterView) (page entry : ℕ) → HasNotesOf (after_entry w page entry) w }
    ensures filled { (w : WriterView) (frame place word : ℕ) → HasNotesOf (after_word w frame place word) w }
    ensures published { (w : WriterView) (change : Change) → HasNotesOf (after_change w change) w }
    ensures alike { (v w : WriterView) → w.notes ≡ v.notes → w.word_notes ≡ v.word_notes → HasNotesOf w v }
    ensures onward { (v w : WriterView) (entries : List ReadEntry) (words : List ReadWord) → HasNoted v entries words
        → HasNotesOf w v → HasNoted w entries words }
{}

/// A row that a filter drew by notes is drawn by those of a writer that has noted all of them.
pub fn drawn_rows_stay_drawn<P: Filter>()
    ensures { (w : WriterView) (entries : List ReadEntry) (words : List ReadWord) (s : Shape) (d version n : ℕ)
        (row : RowView) (bytes : List ℕ) → HasNoted w entries words
        → AreShown P.shown s d version (IsAmong entries words) row n bytes
        → AreShown P.shown s d version (IsNotedBy w) row n bytes }
{}

/// Where no texel word was noted between two views of a writer, no row that has a pixel of one texel was drawn by what was noted
/// between them: rows that were drawn before cannot be handed out anew.
pub fn rows_need_new_notes()
    ensures { (s : Shape) (d : ℕ) (v w : WriterView) (path : PathView) (i y : ℕ) (lines : List RowLine) (line : RowLine)
        (rows : List (List ℕ)) → AreNotedRows ⟦<Nearest as Filter>⟧ s d v w path i lines rows
        → slice_get lines y ≡ Some line → 1 ≤ path.width → w.word_notes ≡ v.word_notes → ⊥ }
{}

/// A row whose pixels are one texel each is shown by notes of a writer where it is drawn by them, and else is not.
pub fn nearest_rows_are_drawn()
    ensures drawn { (w : WriterView) (s : Shape) (d version n : ℕ) (row : RowView) (bytes : List ℕ)
        → AreShown ⟦<Nearest as Filter>⟧.shown s d version (IsNotedBy w) row n bytes
        → AreDrawn s d version (IsNotedBy w) row n bytes }
    ensures shown { (w : WriterView) (s : Shape) (d version n : ℕ) (row : RowView) (bytes : List ℕ)
        → AreDrawn s d version (IsNotedBy w) row n bytes
        → AreShown ⟦<Nearest as Filter>⟧.shown s d version (IsNotedBy w) row n bytes }
{}

/// Where the contents of a journal and those of the changes that were added are tiles of a store, those of the whole
/// journal are.
pub fn stored_contents_grow()
    ensures { (s : Shape) (d : ℕ) (known : Option (List ℕ)) (journal added : List Change)
        (contents more : List (List ℕ)) → length contents ≡ length journal
        → AreStored s d known journal contents → AreStored s d known added more
        → AreStored s d known (journal ++ added) (contents ++ more) }
{}
