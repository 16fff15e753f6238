//! Laws of runs: each is the contract of a function that does nothing.

ghost use Rattle.std.specs.Prelude.{◌≡◌, ℕ, ◌+◌, ◌<◌, ◌≤◌, ◌≢◌, Bool, List, [], ◌∷◌, ◌++◌, length, Some};
ghost use Rattle.std.specs.List.{concat};
ghost use Rattle.vt_machine.specs.JournalTypes.changes.Change.{Change};
ghost use Rattle.vt_machine.specs.JournalTypes.changes.Event.{Event};
ghost use Rattle.vt_machine.specs.Changes.{Table, newest, AreLegal, Pinned};
ghost use Rattle.vt_machine.specs.JournalText.{changes_of, content_changes, pass_text};
ghost use Rattle.vt_replay.specs.JournalFlaws.{IsLawfulJournal as IsLawfulContent};
ghost use Rattle.vt_machine.specs.PlanTypes.batches.Planned.{Planned};
ghost use Rattle.vt_walk.specs.Views.{RecencyView, IsRecencyTable, pages_needed};
ghost use Rattle.vt_machine.specs.Batches.{IsLawfulBatch, IsSettledByReads, read_entries};
ghost use Rattle.vt_machine.specs.Stamps.{Stamps, IsByStamps};
ghost use Rattle.vt_walk.specs.FeedbackTypes.Wanted.{Wanted};
ghost use Rattle.vt_walk.specs.Wants.{IsWants};
ghost use Rattle.vt_machine.specs.declared.crew.PassReport.{PassReport as Report};
ghost use Rattle.vt_machine.specs.Jobs.{Job};
ghost use Rattle.vt_machine.specs.Machines.{MachineState};
ghost use Rattle.vt_machine.specs.Outcomes.{IsBatchFor, IsOutcome, lost_count};
ghost use Rattle.vt_machine.specs.Requests.{times_planned, lost_entries};
ghost use Rattle.vt_machine.specs.Shape.{Shape};
ghost use Rattle.vt_machine.specs.Passes.{MapsNeeded, IsPictured, Ran};
ghost use Rattle.vt_walk.specs.WalkDecisionsTypes.mode.Mode.TheVariants.{Live, Settled};
ghost use Rattle.vt_walk.specs.Fits.{WalkSetup, NeedsFrames, PictureFits, DoesNotFit};
ghost use Rattle.vt_walk.specs.Runs.{WalkPass, IsWalkSetup, IsWalkRun, IsWhole, WalkGoesOn, IsFinished, journal_after, recency_after, plan_after, planned_in, lost_in};
ghost use Rattle.vt_walk.specs.Runs.{content_pass, run_content, run_text, walk_pass_of, IsStepOf, IsNextPass};
ghost use Rattle.vt_walk.specs.Agreements.{RecencyAgrees};
ghost use Rattle.vt_walk_laws.specs.Stamped.{AreStampsOf};
ghost use Rattle.vt_walk.specs.Shown.{IsRunPicture};
ghost use Rattle.vt_walk.specs.Logs.{passes_of, picture_lines, reads_of};

use vt_machine::PassMachine;

/// A batch that is lawful for the recency's table is lawful for a journal's table that agrees with it.
pub fn planned_batch_may_be_run()
    ensures { (v : RecencyView) (m : Table) (batch : List Planned) → IsRecencyTable v → RecencyAgrees v m → IsLawfulBatch v batch
        → IsBatchFor v.shape v.frames m batch }
{}

/// The recency and the journal agree after a pass where they did before it, in whatever order its entries came.
pub fn settled_table_is_newest()
    ensures table { (old new : RecencyView) (changes : List Change) (batch : List Planned) (losses : List Bool)
        (events : List Event)
        → IsRecencyTable old → RecencyAgrees old (newest changes) → IsLawfulBatch old batch → IsOutcome batch losses events
        → IsSettledByReads old (read_entries batch losses) new → IsRecencyTable new }
    ensures agrees { (old new : RecencyView) (changes : List Change) (batch : List Planned) (losses : List Bool)
        (events : List Event)
        → IsRecencyTable old → RecencyAgrees old (newest changes) → IsLawfulBatch old batch → IsOutcome batch losses events
        → IsSettledByReads old (read_entries batch losses) new → RecencyAgrees new (newest (changes ++ changes_of events)) }
{}

/// After each beginning of a run the recency is a table of the walk's pages and frames, and agrees with the journal.
pub fn run_keeps_its_tables()
    ensures table { (w : WalkSetup) (passes : List WalkPass) → IsWalkSetup w → IsWalkRun w passes
        → IsRecencyTable (recency_after w passes) }
    ensures agrees { (w : WalkSetup) (passes : List WalkPass) → IsWalkSetup w → IsWalkRun w passes
        → RecencyAgrees (recency_after w passes) (newest (journal_after w passes)) }
    ensures shape { (w : WalkSetup) (passes : List WalkPass) → IsWalkSetup w → IsWalkRun w passes
        → (recency_after w passes).shape ≡ w.shape }
    ensures frames { (w : WalkSetup) (passes : List WalkPass) → IsWalkSetup w → IsWalkRun w passes
        → (recency_after w passes).frames ≡ w.frames }
    ensures pinned { (w : WalkSetup) (passes : List WalkPass) → IsWalkSetup w → IsWalkRun w passes
        → (recency_after w passes).pinned ≡ w.pinned }
{}

/// What is planned next after a beginning of a run may be run, and has not too many entries.
pub fn next_batch_may_be_run()
    ensures lawful { (w : WalkSetup) (passes : List WalkPass) → IsWalkSetup w → IsWalkRun w passes
        → IsBatchFor w.shape w.frames (newest (journal_after w passes)) (plan_after w passes) }
    ensures settles { (w : WalkSetup) (passes : List WalkPass) → IsWalkSetup w → IsWalkRun w passes
        → IsLawfulBatch (recency_after w passes) (plan_after w passes) }
    ensures most { (w : WalkSetup) (passes : List WalkPass) → length (plan_after w passes) ≤ w.most }
{}

/// The content that tells a run is lawful, so that its text is read back, and two runs with two contents have two
/// texts.
pub fn run_content_is_lawful()
    ensures lawful { (w : WalkSetup) (passes : List WalkPass) → IsWalkSetup w → IsWalkRun w passes
        → IsLawfulContent w.shape w.height (run_content w passes) }
    ensures changes { (w : WalkSetup) (passes : List WalkPass) → content_changes w.shape
        (run_content w passes) ≡ journal_after w passes }
{}

/// The journal of a run is legal, and keeps the pinned pages mapped (Mayer 2010).
pub fn run_journal_is_legal()
    ensures legal { (w : WalkSetup) (passes : List WalkPass) → IsWalkSetup w → IsWalkRun w passes
        → AreLegal w.shape (journal_after w passes) }
    ensures pinned { (w : WalkSetup) (passes : List WalkPass) → IsWalkSetup w → IsWalkRun w passes
        → Pinned w.shape (journal_after w passes) w.pinned }
{}

/// The text of a run grows by the text of its next pass.
pub fn run_text_grows()
    ensures { (w : WalkSetup) (p : WalkPass) (passes : List WalkPass)
        → run_text w (p ∷ passes) ≡ run_text w passes ++ pass_text w.shape (content_pass w passes p) }
{}

/// A settled picture that is finished by a pass of a run, and fits, had all that it needs mapped when the pass began;
/// so the pass, which loaded nothing, shows the plain picture (vt_machine, law `settled_pass_is_plain`).
pub fn finished_picture_is_mapped()
    ensures { (w : WalkSetup) (p : WalkPass) (passes : List WalkPass) → IsWalkSetup w → IsWalkRun w (p ∷ passes)
        → w.mode ≡ Settled
        → WalkGoesOn w.mode w p → IsFinished w p passes → MapsNeeded w.shape (newest (journal_after w passes))
        (w.needs p.picture) }
{}

/// A picture needs one number of frames, which the recency tells, and it cannot both fit and not fit.
pub fn picture_fits_or_not()
    ensures one { (w : WalkSetup) (picture n m : ℕ) → NeedsFrames w picture n → NeedsFrames w picture m → n ≡ m }
    ensures needed { (w : WalkSetup) (v : RecencyView) (picture : ℕ) (wants : List Wanted) → v.shape ≡ w.shape
        → v.pinned ≡ w.pinned
        → IsWants w.shape (w.needs picture) wants → NeedsFrames w picture (pages_needed v wants) }
    ensures not_both { (w : WalkSetup) (picture n : ℕ) → PictureFits w picture → DoesNotFit w picture n → ⊥ }
{}

/// A run has one set of stamps, and the order of its pages is that of the stamps.
pub fn run_order_is_by_stamps()
    ensures some { (passes : List WalkPass) → (stamps : Stamps) × AreStampsOf passes stamps }
    ensures one { (passes : List WalkPass) (a b : Stamps) → AreStampsOf passes a → AreStampsOf passes b → a ≡ b }
    ensures order { (w : WalkSetup) (passes : List WalkPass) (stamps : Stamps) → IsWalkSetup w → IsWalkRun w passes
        → AreStampsOf passes stamps
        → IsByStamps stamps (recency_after w passes).order }
{}

/// What a machine has drawn of a pass is its picture in the run.
pub fn drawn_picture_is_the_runs<M: PassMachine>()
    ensures { (m : M) (w : WalkSetup) (p : WalkPass) (passes : List WalkPass) (job : Job) (s : MachineState)
        (b : List ℕ)
        → IsPictured M.drawing (M.drawn m) job p.rows s → s.setup.bytes ≡ Some b → s.setup.height ≡ w.height
        → s.journal ≡ journal_after w (p ∷ passes) → job.picture ≡ p.picture
        → IsRunPicture w (p ∷ passes) s.setup.depth s.setup.width (M.drawing.shows job.scene b) p.picture
        (concat s.rows) }
{}

/// The picture of a run stays through the passes of other pictures.
pub fn run_pictures_stay()
    ensures { (w : WalkSetup) (p : WalkPass) (passes : List WalkPass) (d width : ℕ) (pixel : Table → ℕ → ℕ → ℕ → List ℕ)
        (picture : ℕ) (samples : List ℕ) → IsWalkRun w passes → p.picture ≢ picture
        → IsRunPicture w passes d width pixel picture samples
        → IsRunPicture w (p ∷ passes) d width pixel picture samples }
{}

/// The lines of earlier pictures stay as the run grows.
pub fn picture_lines_stay()
    ensures { (p : WalkPass) (passes : List WalkPass) (pictures : ℕ) → pictures ≤ p.picture
        → picture_lines (p ∷ passes) pictures ≡ picture_lines passes pictures }
{}

/// A live run has one pass a picture, and a settled picture begins with the empty batch.
pub fn pictures_come_in_turn()
    ensures live { (w : WalkSetup) (p : WalkPass) (passes : List WalkPass) → w.mode ≡ Live → IsWalkRun w (p ∷ passes)
        → p.picture ≡ length passes }
    ensures settled { (w : WalkSetup) (p q : WalkPass) (passes : List WalkPass) → w.mode ≡ Settled
        → IsWalkRun w (p ∷ q ∷ passes)
        → p.picture ≢ q.picture → p.batch ≡ [] }
    ensures begins { (w : WalkSetup) (p : WalkPass) → IsWalkRun w (p ∷ []) → (p.picture ≡ 0) × (p.batch ≡ []) }
{}

/// A text is that of one content: where two runs have one text, they have the same passes, events and rows.
pub fn run_text_spells_its_content()
    ensures { (w : WalkSetup) (a b : List WalkPass) → IsWalkSetup w → IsWalkRun w a → IsWalkRun w b
        → run_text w a ≡ run_text w b
        → run_content w a ≡ run_content w b }
{}

/// In a settled run each picture before the newest one fits, and one that does not fit has no second pass.
pub fn unfit_picture_ends_the_run()
    ensures earlier { (w : WalkSetup) (p : WalkPass) (passes : List WalkPass) (picture : ℕ) → w.mode ≡ Settled
        → IsWalkRun w (p ∷ passes)
        → picture < p.picture → PictureFits w picture }
    ensures first { (w : WalkSetup) (p : WalkPass) (passes : List WalkPass) (n : ℕ) → w.mode ≡ Settled
        → IsWalkRun w (p ∷ passes)
        → DoesNotFit w p.picture n → passes_of p.picture passes ≡ [] }
{}

/// All whole settled runs of a walk have the same number of passes and ask for the same number of tiles, in whatever
/// order pages came and rows were drawn.
pub fn whole_runs_count_alike()
    ensures passes { (w : WalkSetup) (a b : List WalkPass) → w.mode ≡ Settled → IsWalkRun w a → IsWalkRun w b → IsWhole w a
        → IsWhole w b
        → length a ≡ length b }
    ensures reads { (w : WalkSetup) (a b : List WalkPass) → w.mode ≡ Settled → IsWalkRun w a → IsWalkRun w b → IsWhole w a
        → IsWhole w b
        → reads_of w a ≡ reads_of w b }
{}

/// What the passes of a run ask for, and what was lost of it, adds up pass by pass.
pub fn run_places_add_up()
    ensures planned { (s : Shape) (d at len : ℕ) (p : WalkPass) (passes : List WalkPass)
        → times_planned s d (planned_in (p ∷ passes)) at len
        ≡ times_planned s d p.batch at len + times_planned s d (planned_in passes) at len }
    ensures lost { (s : Shape) (d at len : ℕ) (p : WalkPass) (passes : List WalkPass)
        → times_planned s d (lost_in (p ∷ passes)) at len
        ≡ times_planned s d (lost_entries p.batch p.losses) at len + times_planned s d (lost_in passes) at len }
    ensures losses { (w : WalkSetup) (p : WalkPass) (passes : List WalkPass) → IsWalkRun w (p ∷ passes)
        → length (lost_in (p ∷ passes)) ≡ lost_count p.losses + length (lost_in passes) }
    ensures reads { (w : WalkSetup) (p : WalkPass) (passes : List WalkPass)
        → reads_of w (p ∷ passes) ≡ reads_of w passes + length p.batch }
{}

/// A pass that a machine ran is the next of the run, where its job has the picture that is to be drawn next and the batch
/// that was planned, and the recency was settled by it; and the machine's journal is then that of the longer run.
pub fn ran_pass_comes_next<M: PassMachine>()
    ensures next { (m : M) (w : WalkSetup) (before : List WalkPass) (job : Job) (report : Report) (wants : List Wanted)
        (settled : RecencyView)
        (s t : MachineState) → Ran M.drawing (M.drawn m) job report s t → w.dealt ≡ M.drawing.dealt
        → w.samplers ≡ s.setup.crew.samplers
        → w.height ≡ s.setup.height → s.journal ≡ journal_after w before → IsStepOf w before job.picture
        → job.picture < w.pictures
        → job.batch ≡ plan_after w before → IsWants w.shape (w.needs job.picture) wants
        → IsSettledByReads (recency_after w before) (read_entries job.batch report.losses.elements) settled
        → IsNextPass w before (walk_pass_of job report wants settled) }
    ensures journal { (m : M) (w : WalkSetup) (before : List WalkPass) (job : Job) (report : Report)
        (wants : List Wanted)
        (settled : RecencyView) (s t : MachineState) → Ran M.drawing (M.drawn m) job report s t
        → s.journal ≡ journal_after w before
        → t.journal ≡ journal_after w (walk_pass_of job report wants settled ∷ before) }
{}
