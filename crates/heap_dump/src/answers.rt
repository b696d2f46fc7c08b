ghost use Rattle.std.specs.Prelude.{◌≡◌, ◌<◌, ℕ, List, IfOk, length};
ghost use Rattle.shen_graph.specs.Work.{HasScript};
ghost use Rattle.trace_text.specs.Answer.{spelled_answer};
ghost use Rattle.graph_placing.specs.ByName.{Fits};
ghost use Rattle.heap_dump.specs.Dumped.{dumped};
ghost use Rattle.heap_dump.specs.DumpsToRun.{Resumes};
ghost use Rattle.heap_dump.specs.Resumed.{IsResumed, IsCutFrom};
ghost use Rattle.heap_dump.specs.RunFromStage.{IfAnswered};

use crate::Resumed as Read;
use crate::goes_on::{Continued, resume};
use heap_words::NoMemory;
use std::alloc::Global;

/// Goes on from a dump that was read, by the scripts and the schedule behind it, in so many steps at most. The error is that memory was
/// refused.
pub fn answer_from(alloc: Global, read: Read, steps: u64) -> Result<Continued, NoMemory>
    requires { (bytes : List ℕ) × Resumes bytes (dumped read.dump.config read.dump.counts read.dump.graph) read.trace.scripts read.trace.schedule }
    ensures fits { IfOk result (λ resumed. IfAnswered resumed (λ answer. Fits read.dump.config read.dump.graph)) }
    ensures answered { IfOk result (λ resumed. IfAnswered resumed (λ answer. IsResumed read.dump.config read.dump.counts read.dump.graph read.trace.scripts read.trace.schedule steps (spelled_answer answer))) }
    ensures unfinished_fits { result ≡ Ok Continued.Unfinished → Fits read.dump.config read.dump.graph }
    ensures unfinished { result ≡ Ok Continued.Unfinished → IsCutFrom read.dump.config read.dump.counts read.dump.graph read.trace.scripts read.trace.schedule steps }
    ensures too_small { result ≡ Ok Continued.TooSmall → Fits read.dump.config read.dump.graph → ⊥ }
    ensures scripts { IfOk result (λ resumed. IfAnswered resumed (λ answer. (mutator : ℕ) → mutator < length answer.graph.roots → HasScript answer.replies mutator)) }
{
    let Read { dump, trace } = read;
    resume(
        alloc,
        &dump,
        trace.scripts.into_vec(),
        &trace.schedule,
        steps,
    )
}
