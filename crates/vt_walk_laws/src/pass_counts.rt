//! Laws of the number of passes of a settled picture: each is the contract of a function that does nothing.

ghost use Rattle.std.specs.Prelude.{◌≡◌, ℕ, ◌+◌, ◌/◌, ◌<◌, ◌≤◌, min, nat_eq, true, false, List, ◌∷◌, ◌++◌, length, IsSome, None};
ghost use Rattle.std.specs.Int.{div_ceil};
ghost use Rattle.std.specs.List.{IsDistinct};
ghost use Rattle.vt_machine.specs.Changes.{newest};
ghost use Rattle.vt_walk.specs.Plans.{missing_pages};
ghost use Rattle.vt_machine.specs.PageLists.{is_in};
ghost use Rattle.vt_walk.specs.Wants.{pages_wanted};
ghost use Rattle.vt_walk.specs.WalkDecisionsTypes.mode.Mode.TheVariants.{Settled};
ghost use Rattle.vt_walk.specs.Fits.{WalkSetup, PictureFits};
ghost use Rattle.vt_walk.specs.Runs.{WalkPass, IsWalkSetup, IsWalkRun, IsWhole, IsFinished, WalkGoesOn, journal_after, recency_after, plan_after, planned_in};
ghost use Rattle.vt_walk.specs.Logs.{passes_of};
ghost use Rattle.vt_walk_laws.specs.PassCounts.{mapped_after, picture_pages, most_in_line, batch_pages, IsFinishedPicture, HasPicture};

/// A settled run has each picture before its newest one finished, and so it has the newest one, where its newest pass
/// finishes it and the run goes on; so it has all pictures of the path, where it is whole.
pub fn run_has_its_pictures()
    ensures earlier { (w : WalkSetup) (p : WalkPass) (passes : List WalkPass) (picture : ℕ) → IsWalkSetup w
        → w.mode ≡ Settled
        → IsWalkRun w (p ∷ passes) → picture < p.picture → HasPicture w (p ∷ passes) picture }
    ensures newest { (w : WalkSetup) (p : WalkPass) (passes : List WalkPass) → IsWalkSetup w → w.mode ≡ Settled
        → IsWalkRun w (p ∷ passes) → WalkGoesOn w.mode w p → IsFinished w p passes → HasPicture w (p ∷ passes) p.picture }
    ensures whole { (w : WalkSetup) (passes : List WalkPass) (picture : ℕ) → IsWalkSetup w → w.mode ≡ Settled
        → IsWalkRun w passes
        → IsWhole w passes → picture < w.pictures → HasPicture w passes picture }
{}

/// A page is mapped after passes of a run where the journal's newest version maps it.
pub fn mapped_pages_are_the_journals()
    ensures mapped { (w : WalkSetup) (passes : List WalkPass) (page : ℕ) → IsWalkSetup w → IsWalkRun w passes
        → mapped_after w passes page ≡ true → IsSome (newest (journal_after w passes) page) }
    ensures unmapped { (w : WalkSetup) (passes : List WalkPass) (page : ℕ) → IsWalkSetup w → IsWalkRun w passes
        → mapped_after w passes page ≡ false → newest (journal_after w passes) page ≡ None }
{}

/// What is planned for a picture that fits has all missing pages, or as many as a batch may have: frames are never
/// too few.
pub fn fitting_plan_is_full()
    ensures { (w : WalkSetup) (p : WalkPass) (passes : List WalkPass) → IsWalkSetup w → IsWalkRun w (p ∷ passes)
        → PictureFits w p.picture
        → length (plan_after w (p ∷ passes)) ≡ min w.most (length
        (missing_pages (recency_after w (p ∷ passes)) p.wants)) }
{}

/// The batches of a finished picture of a settled run together have exactly the pages that are before the look-up
/// in the lines of its wanted pages after its first pass, each once.
pub fn picture_loads_each_page_once()
    ensures exact { (w : WalkSetup) (later : List WalkPass) (first : WalkPass) (before : List WalkPass) (page : ℕ)
        → IsFinishedPicture w later first before
        → is_in (batch_pages (planned_in (passes_of first.picture (later ++ first ∷ before)))) page
        ≡ is_in (picture_pages w first before) page }
    ensures once { (w : WalkSetup) (later : List WalkPass) (first : WalkPass) (before : List WalkPass)
        → IsFinishedPicture w later first before
        → IsDistinct nat_eq (batch_pages (planned_in (passes_of first.picture (later ++ first ∷ before)))) }
{}

/// A finished picture of a settled run has one pass where all its wanted pages are mapped after its first pass.
pub fn mapped_picture_has_one_pass()
    ensures { (w : WalkSetup) (later : List WalkPass) (first : WalkPass) (before : List WalkPass)
        → IsFinishedPicture w later first before
        → ((page : ℕ) → is_in (pages_wanted first.wants) page ≡ true → mapped_after w (first ∷ before) page ≡ true)
        → length (passes_of first.picture (later ++ first ∷ before)) ≡ 1 }
{}

/// Where a wanted page is unmapped after the first pass, a finished picture of a settled run has the first pass, the
/// last pass, which loads nothing, and as many between them at least as full batches would hold its pages.
pub fn picture_has_passes_enough()
    ensures { (w : WalkSetup) (later : List WalkPass) (first : WalkPass) (before : List WalkPass) (page : ℕ)
        → IsFinishedPicture w later first before → is_in (pages_wanted first.wants) page ≡ true
        → mapped_after w (first ∷ before) page ≡ false
        → 2 + div_ceil (length (picture_pages w first before)) w.most
        ≤ length (passes_of first.picture (later ++ first ∷ before)) }
{}

/// A finished picture of a settled run has at most the first pass, the last pass, one for each full batch of its
/// pages, and one for each page of the line with most of them: a batch that is not full has a page of each line that
/// has one left.
pub fn picture_has_few_passes()
    ensures { (w : WalkSetup) (later : List WalkPass) (first : WalkPass) (before : List WalkPass)
        → IsFinishedPicture w later first before
        → length (passes_of first.picture (later ++ first ∷ before))
        ≤ 2 + length (picture_pages w first before) / w.most + most_in_line w first before }
{}
