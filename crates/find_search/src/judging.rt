//! The verdict on a trace of a test, by its own replay.
ghost use Rattle.std.specs.Prelude.{◌≡◌, ◌≢◌, true, false, IfOk};
ghost use Rattle.find_search.specs.Judged.{IsJudged};

use find_play::{Test, Verdict, verdict_on};
use heap_words::{Config, NoMemory};
use std::alloc::Global;
use trace_reading::{TraceFault, trace_of};
use trace_runs::{Refusal, noted_answer_to};

/// What is said of a trace.
#[derive(Clone, Copy)]
pub enum Judged {
    /// Its replay comes to its end, and this is the verdict of the test on it.
    Verdict(Verdict),
    /// It is longer than a trace may be, it is no trace of the heap of the test, its replay does not come to its end, its commands are not
    /// those of the test, or a thread has more of them.
    Nothing,
}

/// The most bytes that a trace may have.
const MOST_BYTES: usize = 16_777_216;

// Whether two heaps are of the same sizes.
#[tactic(auto, using(trace_reading::proofs::Once::same_config))]
fn are_same(one: Config, other: Config) -> bool
    ensures same { result ≡ true → one ≡ other }
    ensures other { result ≡ false → one ≢ other }
{
    one.regions() == other.regions()
        && one.region_words() == other.region_words()
        && one.mutators() == other.mutators()
        && one.helpers() == other.helpers()
        && one.reserve() == other.reserve()
}

/// The verdict of the test on the replay of a trace, of so many steps at most.
#[tactic(auto, using(crate::proofs::Verdicts::judged, crate::proofs::Verdicts::too_long, crate::proofs::Verdicts::cut_off))]
pub fn judge(alloc: Global, test: &Test, bytes: &[u8], steps: u64) -> Result<Judged, NoMemory>
    ensures { IfOk result (λ judged. IsJudged test.now bytes.now steps judged) }
{
    if bytes.len() > MOST_BYTES {
        return Ok(Judged::Nothing);
    }
    let trace = match trace_of(alloc, bytes) {
        Ok(trace) => trace,
        Err(TraceFault::BadLine { .. }) => return Ok(Judged::Nothing),
        Err(_) => return Err(NoMemory),
    };
    if !are_same(trace.config, test.config) {
        return Ok(Judged::Nothing);
    }
    match noted_answer_to(alloc, trace, steps) {
        Ok((answer, history)) => match verdict_on(alloc, test, &history, &answer.graph)? {
            Some(verdict) => Ok(Judged::Verdict(verdict)),
            None => Ok(Judged::Nothing),
        },
        Err(Refusal::Unfinished) => Ok(Judged::Nothing),
        Err(Refusal::NoMemory) => Err(NoMemory),
    }
}
