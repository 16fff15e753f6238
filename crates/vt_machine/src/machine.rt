//! What streams and draws, as its callers see it.

ghost use Rattle.std.specs.Prelude.{◌≡◌, ℕ, ◌<◌, Bool, List, [], ◌++◌, length, Result, IfOk, IfErr, OnOk, OnErr};
ghost use Rattle.std.specs.List.{concat};
ghost use Rattle.std.specs.Arc.{arc_value};
ghost use Rattle.vt_tiles.specs.Depths.{IsDepth};
ghost use Rattle.vt_pages.specs.Pages.{IsWithinLimits};
ghost use Rattle.vt_pictures.specs.Changes.{Table};
ghost use Rattle.vt_tiles.specs.StoreViews.{IsStore};
ghost use Rattle.vt_evict.specs.PlanTypes.batches.Planned.{Planned};
ghost use Rattle.vt_outside.specs.declared.answers.NoMemory.{NoMemory as Refusal};
ghost use Rattle.vt_machine.specs.declared.crew.PassReport.{PassReport as Report};
ghost use Rattle.vt_pictures.specs.Scenes.{Scene};
ghost use Rattle.vt_machine.specs.Drawings.{Drawing, RowRelation};
ghost use Rattle.vt_machine.specs.Jobs.{Job, job_of};
ghost use Rattle.vt_machine.specs.Crews.{IsCrew, AreFrames};
ghost use Rattle.vt_machine.specs.Machines.{MachineState, setup_of, files_of, known_bytes, AreStoresFor, IsIdleOrReady};
ghost use Rattle.vt_machine.specs.Passes.{Begins, MayPlace, with_placed, MayPrepare, IsUntouched, IsSpent, MapsRoot, IsJobFor, EndsPassRun, MapsNeeded};
ghost use Rattle.vt_machine.specs.All.{AllReady, AllDid};
ghost use Rattle.vt_pictures.specs.JournalTypes.changes.RowLine.{RowLine};

use crate::crew::{Crew, PassReport};
use crate::crewed::work_with_crew;
use crate::hand_task::HandTask;
use crate::lent_worker::LentWorker;
use crate::meanwhile::Meanwhile;
use crate::task::Task;
use std::alloc::Global;
use std::sync::{Arc, Wait};
use std::thread::Threads;
use vt_crew::Desks;
use vt_evict::{Batch, Counts};
use vt_outside::{File, Gate, Items, NoMemory};
use vt_pages::Geometry;
use vt_pictures::{Journal, Path, Shot};
use vt_tiles::Stores;

/// A value that streams tiles of a store into frames, and draws the pictures of a path from them.
///
/// It is made for a texture that is cut into pages, for pictures of the path's sides, a number of frames and a crew.
/// First pages are placed in frames. Then each pass is prepared for a batch and run; after it the picture, its counts
/// and the journal of the page table can be asked for. A machine that was refused memory by `prepare` or `run` can only
/// be ended. Where the files of the loaders do not tell their bytes or the places that they were asked, clauses on
/// these say nothing.
///
/// Its calls `make`, `place`, `run` and `end` may wait for others. `prepare` waits for nobody: what it puts, it puts
/// into queues that are new and have room for it.
pub trait PassMachine: Sized {
    /// What the loaders read.
    type File: File;

    /// What the workers of a pass share.
    type Shared: Drop;

    /// A worker that reads tiles.
    type Loader: HandTask<Self::Shared>;

    /// A worker that draws rows.
    type Sampler: HandTask<Self::Shared>;

    /// The worker that changes the page table while the samplers draw, if it is changed then.
    type Streamer: Task<Self::Shared>;

    /// Whether row y is always drawn by sampler y modulo their number.
    const DEALT: bool;

    /// Its value.
    ghost DEALT: { Bool };

    /// The same as a value.
    fn is_dealt() -> bool
        ensures { result ≡ drawing.dealt };

    /// How machines of this kind draw.
    ghost drawing: { Drawing };

    /// What it is at present.
    ghost state: { Self → MachineState };

    /// No pass is prepared, and it can go on.
    ghost is_idle: { Self → Type 0 };

    /// A pass is prepared for this batch.
    ghost is_ready: { Self → List Planned → Type 0 };

    /// By what it has done up to now, row y of a path's picture, drawn at a version, has these bytes.
    ghost drawn: { Self → RowRelation };

    /// What is so where want of memory ends the run of a pass: nothing, for machines that take all their memory before.
    ghost refuses: { Type 0 };

    /// How the rows of a pass that was run came in it, by what it was before and is after it.
    ghost held: { Self → Self → Job → List RowLine → Type 0 };

    /// What its workers share.
    ghost lent: { Self → Self.Shared };

    /// What it was and what it is once its workers were moved out, and what they are.
    ghost detached: { Self → Job → Self → List Self.Loader → List Self.Sampler → Self.Streamer → Type 0 };

    /// These workers may be moved back.
    ghost may_reattach: { Self → Job → List Self.Loader → List Self.Sampler → Self.Streamer → Type 0 };

    /// What it was without its workers, and what it is and answers once they were moved back.
    ghost reattached: { Self → Job → List Self.Loader → List Self.Sampler → Self.Streamer → Self
        → Result Report Refusal → Type 0 };

    /// Makes a machine as `make` does, with the stores of a list, which it leaves empty. After a refusal the list has
    /// them all.
    fn make_from<Rt: Threads + Wait>(
        rt: &Rt,
        alloc: Global,
        geometry: &Geometry,
        path: &Path,
        frames: u32,
        crew: &Crew,
        depth: u32,
        stores: &mut Stores<Self::File>,
    ) -> Result<Self, NoMemory>
        requires frames { AreFrames geometry.now frames }
        requires crew { IsCrew crew.now }
        requires depth { IsDepth depth }
        requires stores { AreStoresFor Self.File.File geometry.now depth crew.now.loaders stores.old.elements }
        ensures begins { IfOk result (λ m. Begins (setup_of geometry.now depth path.now frames crew.now
            (known_bytes Self.File.File stores.old.elements)) (files_of Self.File.File stores.old.elements) (state m)) }
        ensures idle { IfOk result is_idle }
        ensures taken { OnOk result (stores.new.elements ≡ []) }
        ensures refused { OnErr result (stores.new.elements ≡ stores.old.elements) };

    /// Makes a machine with one store for each loader, whose journal is empty. A refusal hands the stores back.
    ///
    /// The stores are cut as the geometry says, their samples have `depth` bytes, and all of them tell the same bytes
    /// or none does. The frames are from 1 to 65,535, and have at most 8,388,608 texels together. Of the path only the
    /// sides of its pictures count here.
    final fn make<Rt: Threads + Wait>(
        rt: &Rt,
        alloc: Global,
        geometry: &Geometry,
        path: &Path,
        frames: u32,
        crew: &Crew,
        depth: u32,
        mut stores: Stores<Self::File>,
    ) -> Result<Self, (Stores<Self::File>, NoMemory)>
        requires frames { AreFrames geometry.now frames }
        requires crew { IsCrew crew.now }
        requires depth { IsDepth depth }
        requires stores { AreStoresFor Self.File.File geometry.now depth crew.now.loaders stores.elements }
        ensures begins { IfOk result (λ m. Begins (setup_of geometry.now depth path.now frames crew.now
            (known_bytes Self.File.File stores.elements)) (files_of Self.File.File stores.elements) (state m)) }
        ensures idle { IfOk result is_idle }
        ensures refused { IfErr result (λ e. files_of Self.File.File e.0.elements
            ≡ files_of Self.File.File stores.elements) }
        ensures back { IfErr result (λ e. e.0.elements ≡ stores.elements) }
    {
        match Self::make_from(rt, alloc, geometry, path, frames, crew, depth, &mut stores) {
            Ok(machine) => {
                stores.destroy_empty();
                Ok(machine)
            }
            Err(refusal) => Err((stores, refusal)),
        }
    }

    /// Maps a page to a frame that it fills with the page's tile, while no pass is prepared. Both are free, and the
    /// tile is the store's, where that is known. After a refusal nothing changed.
    fn place<Rt: Threads + Wait>(
        &mut self,
        rt: &Rt,
        page: u32,
        frame: u32,
        tile: &[u8],
    ) -> Result<(), NoMemory>
        requires idle { is_idle self.old }
        requires may { MayPlace (state self.old) page frame tile.now }
        ensures placed { OnOk result (state self.new ≡ with_placed page frame (state self.old)) }
        ensures refused { OnErr result (state self.new ≡ state self.old) }
        ensures idle { is_idle self.new };

    /// Makes room for a pass that streams a batch, which is lawful for the newest version and no longer than the crew's
    /// batches. After a refusal the machine can only be ended.
    fn prepare<Rt: Threads + Wait>(&mut self, rt: &Rt, batch: &Batch) -> Result<(), NoMemory>
        requires idle { is_idle self.old }
        requires may { MayPrepare (state self.old) batch.now.elements }
        ensures ready { OnOk result (is_ready self.new batch.now.elements) }
        ensures untouched { OnOk result (IsUntouched (state self.old) (state self.new)) }
        ensures refused { OnErr result (IsSpent (state self.old) (state self.new)) };

    /// Moves the workers out, that they may be at work while what they share is lent.
    fn detach_workers(
        &mut self,
        shot: &Shot<'_>,
        batch: &Batch,
    ) -> (Items<Self::Loader>, Items<Self::Sampler>, Self::Streamer)
        requires ready { is_ready self.old batch.now.elements }
        requires root { MapsRoot (state self.old) }
        requires job { IsJobFor (state self.old).setup (job_of shot.now batch.now.elements) }
        ensures detached { detached self.old (job_of shot.now batch.now.elements)
            self.new result.0.elements result.1.elements result.2 }
        ensures loaders { AllReady (Self.Loader.ready (lent self.new) (job_of shot.now batch.now.elements))
            result.0.elements }
        ensures samplers { AllReady (Self.Sampler.ready (lent self.new) (job_of shot.now batch.now.elements))
            result.1.elements }
        ensures streamer { Self.Streamer.ready (lent self.new) (job_of shot.now batch.now.elements) result.2 };

    /// What the workers share.
    fn shared(&self) -> &Arc<Self::Shared>
        ensures { arc_value result.now ≡ lent self.now };

    /// Moves the workers back, does what they have left of the pass, and tells what the pass did.
    fn reattach_workers<Rt: Threads + Wait, G: Gate>(
        &mut self,
        rt: &Rt,
        loaders: Items<Self::Loader>,
        samplers: Items<Self::Sampler>,
        streamer: Self::Streamer,
        shot: &Shot<'_>,
        batch: &Batch,
        gate: &G,
    ) -> Result<PassReport, NoMemory>
        requires { may_reattach self.old (job_of shot.now batch.now.elements)
            loaders.elements samplers.elements streamer }
        ensures { reattached self.old (job_of shot.now batch.now.elements)
            loaders.elements samplers.elements streamer self.new result };

    /// Runs the pass that is prepared for this batch: draws the picture of the shot and streams the batch, by hands at these desks as far as there
    /// are some, and does meanwhile what the caller says. It may wait.
    ///
    /// After a refusal the machine can only be ended.
    final fn run<'w, Rt: Threads + Wait, G: Gate, A: Meanwhile>(
        &mut self,
        rt: &Rt,
        desks: &mut Desks<LentWorker<'w, Self::Shared, Self::Loader, Self::Sampler, G>>,
        shot: &Shot<'w>,
        batch: &Batch,
        gate: &'w G,
        meanwhile: &mut A,
    ) -> Result<PassReport, NoMemory>
        requires ready { is_ready self.old batch.now.elements }
        requires root { MapsRoot (state self.old) }
        requires job { IsJobFor (state self.old).setup (job_of shot.now batch.now.elements) }
        requires meanwhile { A.ready meanwhile.old }
        ensures ends { EndsPassRun drawing (drawn self.new) (is_idle self.new)
            (job_of shot.now batch.now.elements) result (state self.old) (state self.new) }
        ensures refused { OnErr result refuses }
        ensures held { IfOk result (λ report. held self.old self.new (job_of shot.now batch.now.elements)
            report.rows.elements) }
        ensures meanwhile { A.did meanwhile.old meanwhile.new }
    {
        let (mut loaders, samplers, mut streamer) = self.detach_workers(shot, batch);
        let samplers = work_with_crew(
            rt,
            desks,
            &mut loaders,
            samplers,
            &mut streamer,
            meanwhile,
            self.shared(),
            shot,
            batch.slice(),
            gate,
        );
        self.reattach_workers(rt, loaders, samplers, streamer, shot, batch, gate)
    }

    /// The journal of the page table, also once a pass is prepared.
    fn journal(&self) -> &Journal
        requires { IsIdleOrReady (is_idle self.now) (is_ready self.now) }
        ensures { result.now.changes ≡ (state self.now).journal };

    /// How many pixels of the last pass's picture need each page.
    fn counts(&self) -> &Counts
        requires { is_idle self.now }
        ensures { result.now ≡ (state self.now).counts };

    /// The samples of the last pass's picture: its rows from the top.
    fn picture(&self, alloc: Global) -> Result<Vec<u8>, NoMemory>
        requires { is_idle self.now }
        ensures { IfOk result (λ picture. picture.items ≡ concat (state self.now).rows) };

    /// Adds these samples to what a buffer holds. After want of memory it may have gained some of them.
    fn picture_into(&self, out: &mut Vec<u8>) -> Result<(), NoMemory>
        requires { is_idle self.now }
        ensures { OnOk result (out.new.items ≡ out.old.items ++ concat (state self.now).rows) };

    /// Ends the machine, and hands the stores back with the states of their files.
    fn end<Rt: Threads + Wait>(self, rt: &Rt) -> Stores<Self::File>
        ensures { files_of Self.File.File result.elements ≡ (state self).files };

    /// Where the root is mapped and every page that a picture needs, a pixel under the page table is that without one.
    ghost shows_whole: { (scene : Scene) (b : List ℕ) (m : Table) (i x y : ℕ) → IsWithinLimits scene.shape
        → IsStore b scene.shape scene.depth
        → i < length scene.path.cameras → x < scene.path.width → y < scene.path.height
        → MapsNeeded scene.shape m (drawing.needs scene i)
        → drawing.shows scene b m i x y ≡ drawing.whole scene b i x y };

    /// What the workers did leaves what can be moved back.
    ghost may_come_back: { (job : Job) (m n : Self) (a c : List Self.Loader) (e f : List Self.Sampler)
        (b d : Self.Streamer)
        → is_ready m job.batch → MapsRoot (state m) → IsJobFor (state m).setup job → detached m job n a e b
        → length c ≡ length a → length f ≡ length e
        → AllDid (Self.Loader.did (lent n) job) a c → AllDid (Self.Sampler.did (lent n) job) e f
        → Self.Streamer.did (lent n) job b d
        → may_reattach n job c f d };

    /// What the workers did is a pass, once they are moved back, and its rows came in it.
    ghost has_run: { (job : Job) (m n p : Self) (a c : List Self.Loader) (e f : List Self.Sampler)
        (b d : Self.Streamer) (r : Result Report Refusal)
        → is_ready m job.batch → MapsRoot (state m) → IsJobFor (state m).setup job → detached m job n a e b
        → length c ≡ length a → length f ≡ length e
        → AllDid (Self.Loader.did (lent n) job) a c → AllDid (Self.Sampler.did (lent n) job) e f
        → Self.Streamer.did (lent n) job b d
        → reattached n job c f d p r
        → EndsPassRun drawing (drawn p) (is_idle p) job r (state m) (state p)
        × IfOk r (λ report. held m p job report.rows.elements) };

    /// Where the pass was refused memory, that is so which may refuse it.
    ghost has_answered: { (job : Job) (n p : Self) (c : List Self.Loader) (f : List Self.Sampler) (d : Self.Streamer)
        (r : Result Report Refusal) → reattached n job c f d p r → OnErr r refuses };
}

/// A machine whose workers may go to the hands of a crew, with what they share.
pub trait SentMachine: PassMachine<Shared: Send + Sync, Loader: Send, Sampler: Send> {}
