//! What a kit is made of.

ghost use Rattle.std.specs.Prelude.{◌≡◌, IfOk};
ghost use Rattle.vt_pass_machine.specs.Depths.{IsDepth};
ghost use Rattle.vt_pass_machine.specs.Pools.{IsPool, line_length};
ghost use Rattle.vt_pass_machine.specs.SchedulesRows.{AreRowsInPlace};
ghost use Rattle.vt_loading.specs.Crews.{IsCrew};
ghost use Rattle.vt_pass.specs.WordPools.{HaveNoPass};

use std::alloc::Global;
use vt_load::{QueuePass, Queues, Request};
use vt_loading::{Crew, blank_report, new_queues};
use vt_outside::NoMemory;
use vt_pass_machine::{Dealt, Geometry, Nothing, PassPool, PassStreamer, Path, Schedule};
use vt_streamer::Streamer;
use vt_word_table::{WordTable, no_readers};

/// Queues with which no pass is made, the streamer of a pass with a spare writer of one frame, and a pass of the requests, since each pass is
/// prepared with new queues and run with its caller's writer; what samplers share of rows that are dealt, and the pool of a crew's samplers,
/// whose readers have no pass.
pub(crate) fn kit_parts(
    alloc: Global,
    geometry: &Geometry,
    path: &Path,
    crew: &Crew,
    depth: u32,
) -> Result<
    (
        Queues,
        PassStreamer<WordTable>,
        QueuePass<Request>,
        Nothing,
        PassPool<WordTable, Dealt>,
    ),
    NoMemory,
>
    requires crew { IsCrew crew.now }
    requires depth { IsDepth depth }
    ensures own_geometry { IfOk result (λ made. made.1.geometry ≡ geometry.now) }
    ensures own_depth { IfOk result (λ made. made.1.depth ≡ depth) }
    ensures pool { IfOk result (λ made. IsPool made.4 made.4.samplers.elements) }
    ensures none { IfOk result (λ made. HaveNoPass made.4.samplers.elements) }
    ensures rows { IfOk result (λ made. AreRowsInPlace made.4.height (line_length made.4) made.4.drawn.elements) }
    ensures geometry { IfOk result (λ made. made.4.geometry ≡ geometry.now) }
    ensures depth { IfOk result (λ made. made.4.depth ≡ depth) }
    ensures width { IfOk result (λ made. made.4.width ≡ path.now.width) }
    ensures height { IfOk result (λ made. made.4.height ≡ path.now.height) }
    ensures count { IfOk result (λ made. made.4.count ≡ crew.now.samplers) }
{
    // A tile's side is small, and so one frame is within its limits.
    let _side = geometry.tile();
    let (_words, writer) = Streamer::new(alloc, geometry, 1, 1)?;
    let (queues, asks, answers) = new_queues(alloc, 1)?;
    let report = blank_report(alloc, 0)?;
    let (rows, home) = Dealt::make(alloc)?;
    let readers = no_readers(alloc, crew.samplers)?;
    let pool = PassPool::<WordTable, Dealt>::new(
        alloc,
        geometry,
        path,
        crew.samplers,
        depth,
        readers,
        home,
    )?;
    let own = PassStreamer {
        writer,
        geometry: *geometry,
        depth,
        answers,
        report,
        refused: false,
    };
    Ok((queues, own, asks, rows, pool))
}
