//! A text that is kept in memory, to be compared.
ghost use Rattle.std.specs.Prelude.{◌≡◌, ◌<◌, ℕ, Some, length, IfOk, MatchBool};
ghost use Rattle.shen_graph.specs.Work.{HasScript};
ghost use Rattle.trace_text.specs.Answer.{spelled_answer};

use shen_base::{Failed, Sink};
use shen_graph::NoMemory;
use std::alloc::Global;
use trace_text::{Answer, write_answer};

/// A sink that keeps what is written. It fails only where memory is refused.
#[derive(Drop)]
struct Kept {
    bytes: Vec<u8>,
    calls: u64,
    faults: u64,
}

impl Sink for Kept {
    ghost written = { λ sink. Some sink.bytes.items };

    ghost faults = { λ sink. sink.faults };

    ghost calls = { λ sink. sink.calls };

    fn write(&mut self, piece: &[u8]) -> Result<usize, Failed> {
        self.calls = self.calls.saturating_add(1);
        if self.bytes.extend_from_slice(piece).is_err() {
            self.faults = self.faults.saturating_add(1);
            return Err(Failed::Failed);
        }
        Ok(piece.len())
    }
}

/// Whether a body is the text of an answer, byte for byte.
pub fn is_text(alloc: Global, body: &[u8], answer: &Answer) -> Result<bool, NoMemory>
    requires { (mutator : ℕ) → mutator < length answer.now.graph.roots → HasScript answer.now.replies mutator }
    ensures { IfOk result (λ same. MatchBool same (body.now ≡ spelled_answer answer.now) (body.now ≡ spelled_answer answer.now → ⊥)) }
{
    let mut sink = Kept {
        bytes: Vec::new(alloc),
        calls: 0,
        faults: 0,
    };
    match write_answer(&mut sink, answer) {
        Ok(()) => Ok(body == sink.bytes.as_slice()),
        Err(_) => Err(NoMemory),
    }
}
