ghost use Rattle.std.specs.Prelude.{◌≡◌, ◌<◌, ◌↔◌, ℕ, All, IfOk, IfSome, length};
ghost use Rattle.heap_words.specs.declared.config.Config.{Config as Sizes};
ghost use Rattle.shen_graph.specs.Work.{HasScript};
ghost use Rattle.heap_world.specs.Shows.{ShowsGraph};
ghost use Rattle.heap_machines.specs.Pause.{pause_image};
ghost use Rattle.step_core.specs.Begins.{Run, Begins, ending, graph_after};
ghost use Rattle.image_graph.specs.State as images;
ghost use Rattle.shen_core.specs.State as memory;
ghost use Rattle.heap_machines.specs.FromImage.{CanBeginFrom, stage_from};
ghost use Rattle.shen_core.specs.Progress.{AllRest, IsInSeats};
ghost use Rattle.trace_text.specs.Answer.{spelled_answer};
ghost use Rattle.graph_placing.specs.ByName.{Fits};
ghost use Rattle.graph_placing.specs.PlacedHeap.{IsPlaced};
ghost use Rattle.heap_dump.specs.Dumped.{dumped, graph_in, IsDump};
ghost use Rattle.heap_dump.specs.Resumed.{IsRunnableAfter, IsResumed, IsLeftBusy, IsCutFrom};
ghost use Rattle.heap_dump.specs.RunFromStage.{IfAnswered, HasEndedFrom};

use crate::Dump;
use crate::placing::place;
use graph_placing::Placed;
use heap_words::{Config, NoMemory, Schedule};
use image_graph::Image;
use shen_core::{Plain, Ran};
use shen_graph::{GraphText, Script, Work};
use std::alloc::Global;
use trace_text::Answer;

/// What comes of a run that goes on from a dump.
#[derive(Drop)]
pub enum Continued {
    /// The replies, and the graph at the end.
    Answered(Answer),
    /// A machine still had work after the steps that were allowed.
    Unfinished,
    /// The dump's objects need more regions than its heap has.
    TooSmall,
}

// Runs a schedule, and then rounds, on the heap of an image, until all machines are idle. None: a machine still has work.
fn run(
    alloc: Global,
    dump: &Dump,
    image: Image,
    scripts: Vec<Script>,
    schedule: &Schedule,
    steps: u64,
) -> Result<Option<(Work, Plain)>, NoMemory>
    requires dump { IsDump (dumped dump.now.config dump.now.counts dump.now.graph) }
    requires heap { images.config_of image ≡ dump.now.config }
    requires begins { CanBeginFrom dump.now.config (images.memory_of image) dump.now.counts (graph_in (dumped dump.now.config dump.now.counts dump.now.graph)) }
    requires count { length scripts.items ≡ dump.now.config.mutators }
    requires runnable { All IsRunnableAfter scripts.items }
    requires items { All (IsInSeats dump.now.config) schedule.now }
    ensures begins { IfOk result (λ ran. Begins dump.now.config (stage_from dump.now.config (images.words_of image) dump.now.counts) (graph_in (dumped dump.now.config dump.now.counts dump.now.graph))) }
    ensures ended { IfOk result (λ ran. IfSome ran (λ ended. HasEndedFrom dump.now.config (stage_from dump.now.config (images.words_of image) dump.now.counts) scripts.items schedule.now steps ended.0 ended.1)) }
    ensures cut { result ≡ Ok None → IsLeftBusy dump.now.config (stage_from dump.now.config (images.words_of image) dump.now.counts) scripts.items schedule.now steps }
{
    let Ok(mut work) = Work::of(alloc, scripts) else {
        return Err(NoMemory);
    };
    let mut plain = Plain::open_from(alloc, image, dump.counts.list())?;
    match plain.run(&mut work, schedule, steps) {
        Ran::Finished => Ok(Some((work, plain))),
        Ran::Unfinished => Ok(None),
    }
}

// The graph that a heap at rest stands for, as it is to be written.
fn graph_of(alloc: Global, config: Config, plain: &mut Plain) -> Result<GraphText, NoMemory>
    requires config { memory.config_of plain.old ≡ config }
    requires rest { AllRest plain.old }
    ensures shows { IfOk result (λ text. (run : Run config) → memory.Shows plain.old (ending pause_image config run) → ShowsGraph text config.mutators (graph_after pause_image config run)) }
    ensures threads { IfOk result (λ text. length text.roots ≡ config.mutators) }
{
    let Ok(mut text) = GraphText::open(alloc, config.heap_size(), config.mutators()) else {
        return Err(NoMemory);
    };
    plain.graph(&mut text);
    Ok(text)
}

/// Goes on from a dump: its objects are placed in a heap of its sizes, and the items of a schedule and then rounds are run there, so many
/// steps at most, with a script for each thread. The error is that memory was refused.
pub fn resume(
    alloc: Global,
    dump: &Dump,
    scripts: Vec<Script>,
    schedule: &Schedule,
    steps: u64,
) -> Result<Continued, NoMemory>
    requires dump { IsDump (dumped dump.now.config dump.now.counts dump.now.graph) }
    requires count { length scripts.items ≡ dump.now.config.mutators }
    requires runnable { All IsRunnableAfter scripts.items }
    requires items { All (IsInSeats dump.now.config) schedule.now }
    ensures too_small { (result ≡ Ok Continued.TooSmall) ↔ (Fits dump.now.config dump.now.graph → ⊥) }
    ensures answered { IfOk result (λ resumed. IfAnswered resumed (λ answer. IsResumed dump.now.config dump.now.counts dump.now.graph scripts.items schedule.now steps (spelled_answer answer))) }
    ensures unfinished { result ≡ Ok Continued.Unfinished → IsCutFrom dump.now.config dump.now.counts dump.now.graph scripts.items schedule.now steps }
    ensures scripts { IfOk result (λ resumed. IfAnswered resumed (λ answer. (mutator : ℕ) → mutator < length answer.graph.roots → HasScript answer.replies mutator)) }
{
    let image = match place(alloc, dump)? {
        Placed::Heap(image) => image,
        Placed::TooSmall => return Ok(Continued::TooSmall),
    };
    let Some((replies, mut plain)) = run(alloc, dump, image, scripts, schedule, steps)? else {
        return Ok(Continued::Unfinished);
    };
    let graph = graph_of(alloc, dump.config, &mut plain)?;
    Ok(Continued::Answered(Answer {
        version: 2,
        replies,
        graph,
    }))
}
