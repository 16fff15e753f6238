//! Laws of the definitions: each is the contract of a function that does nothing.

ghost use Rattle.std.specs.Prelude.{◌≡◌, ◌≢◌, ℕ, ◌*◌, ◌≤◌, List, [], ◌∷◌, ◌++◌, length};
ghost use Rattle.vt_journal.specs.Depths.{texel_length, word_at};
ghost use Rattle.vt_journal.specs.Shape.{Shape};
ghost use Rattle.vt_journal.specs.declared.changes.Change.{Change};
ghost use Rattle.vt_journal.specs.Changes.{newest, IsFree};
ghost use Rattle.vt_table.specs.Views.{TableView, tile_of, tile_depth, tile_word, HoldsTiles, BringsTile};

/// A tile's depth follows from its length, and its words are those of its bytes at that depth.
pub fn tile_word_has_its_depth()
    ensures depth { (s : Shape) (d : ℕ) (tile : List ℕ) → 1 ≤ s.tile → length tile ≡ texel_length d * (s.tile * s.tile)
        → tile_depth s tile ≡ d }
    ensures word { (s : Shape) (d : ℕ) (tile : List ℕ) (place : ℕ) → 1 ≤ s.tile → length tile ≡ texel_length d * (s.tile * s.tile)
        → tile_word s tile place ≡ word_at d tile place }
{}

/// Where each mapped page's frame holds its tile, it does so after a free frame was filled, and after a change that maps a
/// page to a frame that holds its tile.
pub fn held_tiles_stay()
    ensures filled { (tiles : ℕ → List ℕ) (v w : TableView) (frame : ℕ) → HoldsTiles tiles v → IsFree (newest v.changes) frame
        → w.changes ≡ v.changes → ((f : ℕ) → f ≢ frame → tile_of w f ≡ tile_of v f) → HoldsTiles tiles w }
    ensures published { (tiles : ℕ → List ℕ) (v w : TableView) (change : Change) → HoldsTiles tiles v → BringsTile tiles v change
        → w.changes ≡ v.changes ++ change ∷ [] → w.tiles ≡ v.tiles → HoldsTiles tiles w }
{}
