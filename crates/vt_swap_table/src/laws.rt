//! Laws of rows that are drawn by the log of a page cache: each is the contract of a function that does nothing.

ghost use Rattle.std.specs.Prelude.{◌≡◌, ℕ, ◌++◌, Option, Some, IfSome, List, [], slice_get, slice_index_or};
ghost use mathlib.Core.List.{IsPrefix};
ghost use Rattle.vt_journal.specs.Shape.{Shape};
ghost use Rattle.vt_page_table.specs.Pages.{IsWithinLimits};
ghost use Rattle.vt_page_table.specs.Rows.{RowView};
ghost use Rattle.vt_page_table.specs.DrawLookups.{Note};
ghost use Rattle.vt_page_table.specs.Shots.{shot_row};
ghost use Rattle.vt_journal.specs.declared.changes.RowLine.{RowLine};
ghost use Rattle.vt_journal.specs.Changes.{at};
ghost use Rattle.vt_page_table.specs.Format.{stored};
ghost use Rattle.vt_page_table.specs.StoreViews.{IsStore, IsStoreIfKnown};
ghost use Rattle.vt_page_table.specs.Scenes.{Scene};
ghost use Rattle.vt_page_table.specs.Replays.{HasPixels, AreReplayed};
ghost use Rattle.vt_page_table.specs.Evidence.{AreTrue, AreShown};
ghost use Rattle.vt_swap.specs.LogTypes.records.LogRecord.{LogRecord};
ghost use Rattle.vt_swap.specs.Logs.{changes_in, IsLawfulLog};
ghost use Rattle.vt_swap.specs.Notes.{IsSaidBy};
ghost use Rattle.vt_swap_table.specs.Filled.{AreStoredFills};

use vt_page_table::Filter;

/// What a lawful log says of a version is true of that version's table over the store, where each frame was filled with a tile of
/// the store.
pub fn logs_are_true()
    ensures { (log : List LogRecord) (s : Shape) (d : ℕ) (b : List ℕ) (version : ℕ)
        → IsLawfulLog log → IsWithinLimits s → IsStore b s d → AreStoredFills s d (Some b) log
        → AreTrue s (stored b) (at (changes_in log) version) version (IsSaidBy log) }
{}

/// Each of the first `n` pixels of a row that a filter drew at a version by what such a log says has the bytes that the replay of
/// that version has, though the journal has grown since (van Waveren 2012).
pub fn rows_by_a_log_are_replayed<P: Filter>()
    ensures { (log : List LogRecord) (s : Shape) (d : ℕ) (b : List ℕ) (scene : Scene) (version i n y : ℕ) (bytes : List ℕ)
        → IsLawfulLog log → IsWithinLimits s → IsStore b s d → AreStoredFills s d (Some b) log
        → scene.shape ≡ s → scene.depth ≡ d
        → AreShown P.shown s d version (IsSaidBy log) (shot_row s scene.path i y) n bytes
        → HasPixels d n (λ x. P.under (stored b) scene (at (changes_in log) version) i x y) bytes }
{}

/// A picture each of whose rows was drawn so, at the version that its line names, is the replay of the log's journal, where the
/// store's bytes are known.
pub fn pictures_by_a_log_are_replayed<P: Filter>()
    ensures { (log : List LogRecord) (s : Shape) (d : ℕ) (known : Option (List ℕ)) (scene : Scene) (i n : ℕ)
        (lines : List RowLine) (rows : List (List ℕ))
        → IsLawfulLog log → IsWithinLimits s → IsStoreIfKnown known s d → AreStoredFills s d known log
        → scene.shape ≡ s → scene.depth ≡ d
        → ((y : ℕ) (line : RowLine) → slice_get lines y ≡ Some line
        → AreShown P.shown s d line.version (IsSaidBy log) (shot_row s scene.path i y) n (slice_index_or rows y []))
        → IfSome known (λ b. AreReplayed d n (λ m x y. P.under (stored b) scene m i x y) (changes_in log) lines rows) }
{}

/// What a beginning of a log says the whole says: so a row stays drawn.
pub fn what_is_said_stays_said<P: Filter>()
    ensures note { (rs ss : List LogRecord) (note : Note) → IsPrefix rs ss → IsSaidBy rs note → IsSaidBy ss note }
    ensures row { (rs ss : List LogRecord) (s : Shape) (d version n : ℕ) (row : RowView) (bytes : List ℕ) → IsPrefix rs ss
        → AreShown P.shown s d version (IsSaidBy rs) row n bytes → AreShown P.shown s d version (IsSaidBy ss) row n bytes }
{}

/// Where the fills of a log and those that were added are of tiles of a store, so are those of both.
pub fn fills_add_up()
    ensures { (s : Shape) (d : ℕ) (known : Option (List ℕ)) (rs ss : List LogRecord) → AreStoredFills s d known rs
        → AreStoredFills s d known ss → AreStoredFills s d known (rs ++ ss) }
{}
