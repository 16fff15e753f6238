//! Laws that tie walks to replays: each is the contract of a function that does nothing.

ghost use Rattle.std.specs.Prelude.{◌≡◌, ℕ, ◌+◌, ◌<◌, ◌≤◌, List, ◌∷◌, length, Option, Some, option_map};
ghost use Rattle.vt_machine.specs.Files.{Files};
ghost use Rattle.vt_machine.specs.Pages.{pinned_of, IsWithinLimits};
ghost use Rattle.vt_machine.specs.JournalText.{Content, content_changes};
ghost use Rattle.vt_machine.specs.Format.{stored};
ghost use Rattle.vt_replay.specs.Expectations.{with_files};
ghost use Rattle.vt_replay.specs.Pictures.{expected_pictures};
ghost use Rattle.vt_machine.specs.Scenes.{Scene};
ghost use Rattle.vt_machine.specs.Replays.{pixel_under};
ghost use Rattle.vt_machine.specs.Nearest.{nearest};
ghost use Rattle.vt_walk.specs.WalkDecisionsTypes.mode.Mode.{Mode};
ghost use Rattle.vt_walk.specs.WalkDecisionsTypes.settings.Settings.{Settings};
ghost use Rattle.vt_walk.specs.Fits.{WalkSetup};
ghost use Rattle.vt_walk.specs.Folders.{with_pictures, IsApart};
ghost use Rattle.vt_walk.specs.Runs.{WalkPass, IsWalkSetup, IsWalkRun, IsWhole, content_passes, run_content, run_text};
ghost use Rattle.vt_walk.specs.Shown.{last_rows};
ghost use Rattle.vt_walk.specs.Standing.{Stands, Finished};
ghost use Rattle.vt_walk.specs.States.{WalkState};
ghost use Rattle.vt_walk.specs.Walks.{WalkGiven, WalkNames, AreSettings, given_by};
ghost use Rattle.vt_walk.specs.DrawnBy.{IsDrawnBySome};
ghost use Rattle.vt_walk.specs.Written.{IsWritten};
ghost use Rattle.vt_replay.specs.Outcomes.{IsReplayable};
ghost use Rattle.vt_replay.specs.Trying.{Under};
ghost use Rattle.vt_replay.specs.Replayed.{last_lines, pictures_of, replay_file, expected_replay};
ghost use Rattle.vt_walk_laws.specs.Walked.{IsOfStore, named_pictures};

use vt_machine::PassMachine;

/// The journal of a run tells of each picture the rows of its last pass, and it tells of as many pictures as the run
/// has reached: of all, where the run is whole.
pub fn journal_spells_its_run()
    ensures rows { (w : WalkSetup) (run : List WalkPass) (picture : ℕ)
        → last_lines (content_passes w run) picture ≡ last_rows run picture }
    ensures pictures { (w : WalkSetup) (p : WalkPass) (run : List WalkPass)
        → pictures_of (content_passes w (p ∷ run)) ≡ p.picture + 1 }
    ensures whole { (w : WalkSetup) (run : List WalkPass) → IsWhole w run
        → pictures_of (content_passes w run) ≡ w.pictures }
{}

/// What a walk has written of a picture to which its run has come is the file of the replay of the run's journal,
/// byte for byte. So a picture is drawn again from the journal, the store and the path, also where the walk was
/// refused later on.
pub fn replay_gives_the_written_picture<M: PassMachine>()
    ensures { (under : Under) (g : WalkGiven) (b : List ℕ) (run : List WalkPass) (picture : ℕ) (bytes : List ℕ) → IsOfStore under g b
        → IsWalkRun g.setup run
        → picture < pictures_of (content_passes g.setup run) → IsWritten (IsDrawnBySome M.PassMachine) g run picture bytes
        → bytes ≡ replay_file under (stored b) g.scene (content_changes g.scene.shape (run_content g.setup run))
        (content_passes g.setup run) picture }
{}

/// While a walk goes on, and where it was refused, the pictures written so far are those of the replay of the passes that
/// its journal tells by then.
pub fn replay_gives_what_stands<M: PassMachine>()
    ensures { (under : Under) (g : WalkGiven) (b prefix : List ℕ) (run : List WalkPass) (pictures : List (List ℕ))
        (first now : WalkState)
        → IsOfStore under g b
        → Stands (IsDrawnBySome M.PassMachine) g run pictures first now
        → let file = replay_file under (stored b) g.scene (content_changes g.scene.shape (run_content g.setup run))
        (content_passes g.setup run) in
        expected_pictures prefix file (length pictures) ≡ named_pictures prefix pictures }
{}

/// The replay of the journal of a finished walk: its text is that of a lawful journal whose pictures are in the path,
/// and whatever content is read from it, the files that the replay is to leave are the walk's pictures, all of them
/// and no more, under its names or others; so in the walk's own folder a replay leaves what it holds.
pub fn replay_gives_the_walk<M: PassMachine>()
    ensures replayable { (under : Under) (g : WalkGiven) (b : List ℕ) (first last : WalkState) → IsOfStore under g b → IsWalkSetup g.setup
        → (walk : Finished (IsDrawnBySome M.PassMachine) g first last)
        → IsReplayable g.scene.shape g.scene.path (run_text g.setup walk.run) (run_content g.setup walk.run) }
    ensures count { (under : Under) (g : WalkGiven) (b : List ℕ) (first last : WalkState) (content : Content) → IsOfStore under g b
        → IsWalkSetup g.setup
        → (walk : Finished (IsDrawnBySome M.PassMachine) g first last)
        → IsReplayable g.scene.shape g.scene.path (run_text g.setup walk.run) content
        → pictures_of content.passes ≡ g.setup.pictures }
    ensures expected { (under : Under) (g : WalkGiven) (b prefix : List ℕ) (first last : WalkState) (content : Content) → IsOfStore under g b
        → IsWalkSetup g.setup
        → (walk : Finished (IsDrawnBySome M.PassMachine) g first last)
        → IsReplayable g.scene.shape g.scene.path (run_text g.setup walk.run) content
        → expected_replay under g.scene.shape g.scene.depth b g.scene.path prefix content ≡ named_pictures prefix walk.pictures }
    ensures files { (prefix : List ℕ) (pictures : List (List ℕ)) (files : Files)
        → with_files (named_pictures prefix pictures) files ≡ with_pictures prefix pictures files }
    ensures again { (under : Under) (g : WalkGiven) (b : List ℕ) (first last : WalkState) (content : Content) → IsOfStore under g b
        → IsWalkSetup g.setup
        → (walk : Finished (IsDrawnBySome M.PassMachine) g first last)
        → IsReplayable g.scene.shape g.scene.path (run_text g.setup walk.run) content → IsApart g.names
        → option_map (with_files (expected_replay under g.scene.shape g.scene.depth b g.scene.path g.names.prefix content))
        last.files
        ≡ last.files }
{}

/// A walk by a machine that draws a pixel by the nearest mapped page is of its store, where this tells its bytes; and its numbers are
/// within their limits, where its settings are and there are frames for the pinned pages, as in each finished walk.
pub fn nearest_walk_is_of_its_store()
    ensures store { (scene : Scene) (settings : Settings) (mode : Mode) (b : List ℕ) (names : WalkNames)
        → IsOfStore pixel_under (given_by nearest scene settings mode (Some b) names) b }
    ensures setup { (scene : Scene) (settings : Settings) (mode : Mode) (known : Option (List ℕ)) (names : WalkNames)
        → IsWithinLimits scene.shape → AreSettings scene.shape settings
        → pinned_of scene.shape settings.pinned ≤ settings.frames
        → IsWalkSetup (given_by nearest scene settings mode known names).setup }
{}
