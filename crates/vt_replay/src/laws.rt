//! Laws of the definitions: each is the contract of a function that does nothing.

ghost use Rattle.std.specs.Prelude.{◌≡◌, ℕ, List, length};
ghost use Rattle.vt_definitions.specs.Texels.{Source};
ghost use Rattle.vt_journal.specs.declared.changes.Change.{Change};
ghost use Rattle.vt_journal.specs.declared.changes.RowLine.{RowLine};
ghost use Rattle.vt_replay_rows.specs.Scenes.{Scene};
ghost use Rattle.vt_replay_rows.specs.Replays.{IsReplayOf};
ghost use Rattle.vt_replay_rows.specs.Trying.{Under};
ghost use Rattle.vt_replay.specs.Replayed.{replayed_rows};

/// A pass of which there is a line for each row has one replay, however a filter shows pixels under a page table: samples that are
/// its replay are these. So what a walk drew of a pass that its journal tells is what is drawn again from the journal.
pub fn replay_is_one()
    ensures { (under : Under) (src : Source) (scene : Scene) (changes : List Change) (lines : List RowLine) (i : ℕ) (samples : List ℕ)
        → length lines ≡ scene.path.height
        → IsReplayOf scene.depth scene.path.width scene.path.height (λ m x y. under src scene m i x y) changes lines samples
        → samples ≡ replayed_rows under src scene changes lines i scene.path.height }
{}
