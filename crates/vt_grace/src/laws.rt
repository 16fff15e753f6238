//! Laws of the definitions: each is the contract of a function that does nothing.

ghost use Rattle.std.specs.Prelude.{◌≡◌, ◌≢◌, ℕ, ◌<◌, List, Some, slice_get};
ghost use Rattle.vt_journal.specs.declared.changes.Change.{Change};
ghost use Rattle.vt_journal.specs.Changes.{at};
ghost use Rattle.vt_grace.specs.Contents.{backed, frame_in, IsPutBy};
ghost use Rattle.vt_journal.specs.Lookups.{change_page};

/// The frames and contents of a version have its frames.
pub fn contents_have_the_versions_frames()
    ensures { (changes : List Change) (contents : List (List ℕ)) (v page : ℕ)
        → at changes v page ≡ frame_in (backed changes contents v page) }
{}

/// What a version has for a page was put there by the last change of the page, a map, and is that change's content.
pub fn contents_are_those_of_the_change_in_force()
    ensures { (changes : List Change) (contents : List (List ℕ)) (v page frame : ℕ) (content : List ℕ)
        → backed changes contents v page ≡ Some (frame, content) → IsPutBy changes contents v page frame content }
{}
