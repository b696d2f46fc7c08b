//! What the words of the command line ask for.
ghost use Rattle.std.specs.Prelude.{◌≡◌, ◌≤◌, ℕ, MatchBool, MatchOption, map};
ghost use Rattle.std.specs.Fmt.{decimal};
ghost use Rattle.std.specs.String.{string_bytes};
ghost use Rattle.trace_runs.specs.Words.{IsNumbered, IsReplay, IsReplayThen, IsRunBy, IsChurn, IsQueue, IsCheck, IsResume, most_seed, Asks, Ask};

use trace_reading::number_in;

/// The steps that a replay may make where the words name no number.
const USUAL_STEPS: u64 = 100_000_000;

/// The most steps that the words may name.
const MOST_STEPS: u64 = 4_000_000_000;

/// The most machines that a heap has, and so the most bundles.
pub(crate) const MOST_MACHINES: u64 = 12;

/// The largest number from which a churn is made.
const MOST_SEED: u64 = 1_000_000;

/// The most rounds of each thread of a churn.
const MOST_ROUNDS: u64 = 20_000;

/// The most numbers of each user of a queue.
const MOST_NUMBERS: u64 = 390;

/// What the program can be asked for.
#[derive(Clone, Copy)]
pub enum Mode {
    /// A trace, by its schedule, in at most so many steps, 1 to 4000000000.
    Replay { steps: u64 },
    /// The same, and its history behind the answer.
    Noted { steps: u64 },
    /// The same, and a dump of the heap at the end in place of the answer.
    Dump { steps: u64 },
    /// A run that goes on from a dump, by the schedule behind it, in at most so many steps, 1 to 4000000000.
    Resume { steps: u64 },
    /// The scripts of a trace, in at most so many threads, 1 to 12.
    Run { workers: u64 },
    /// A churn.
    Churn(Workload),
    /// A trace with an answer and a history that somebody claims for it.
    Check,
    /// A queue, of so many numbers of each user, 1 to 390.
    Queue { count: u64 },
}

/// What the scripts of a churn are made from.
#[derive(Clone, Copy)]
pub struct Workload {
    /// The number that all sizes and values depend on, 0 to 1000000.
    pub seed: u64,
    /// The rounds of each thread, 1 to 20000.
    pub count: u64,
}

/// What the words ask for; `None` where they are outside the grammar.
pub fn mode_of(words: &[String]) -> Option<Mode>
    ensures { MatchOption result (Ask (map string_bytes words.now) → ⊥) (Asks (map string_bytes words.now)) }
{
    if let Some(steps) = steps_of(words) {
        return Some(Mode::Replay { steps });
    }
    if let Some(steps) = steps_before("--history", words) {
        return Some(Mode::Noted { steps });
    }
    if let Some(steps) = steps_before("--dump", words) {
        return Some(Mode::Dump { steps });
    }
    if let Some(steps) = resume_steps_of(words) {
        return Some(Mode::Resume { steps });
    }
    if let Some(workers) = workers_of(words) {
        return Some(Mode::Run { workers });
    }
    if let Some(workload) = workload_of(words) {
        return Some(Mode::Churn(workload));
    }
    if let Some(count) = count_of(words) {
        return Some(Mode::Queue { count });
    }
    if is_check(words) {
        return Some(Mode::Check);
    }
    None
}

// The steps of `replay`, or `replay --steps N`.
fn steps_of(words: &[String]) -> Option<u64>
    ensures { MatchOption result (((steps : ℕ) × IsReplay (map string_bytes words.now) steps) → ⊥) (IsReplay (map string_bytes words.now)) }
{
    number_of("replay", "--steps", USUAL_STEPS, MOST_STEPS, words)
}

// The steps of a replay behind whose words this one stands.
fn steps_before(last_word: &str, words: &[String]) -> Option<u64>
    ensures { MatchOption result (((steps : ℕ) × IsReplayThen last_word.now (map string_bytes words.now) steps) → ⊥) (IsReplayThen last_word.now (map string_bytes words.now)) }
{
    match words {
        [front @ .., last] if last.as_str() == last_word => steps_of(front),
        _ => None,
    }
}

// The steps of `resume`, or `resume --steps N`.
fn resume_steps_of(words: &[String]) -> Option<u64>
    ensures { MatchOption result (((steps : ℕ) × IsResume (map string_bytes words.now) steps) → ⊥) (IsResume (map string_bytes words.now)) }
{
    number_of("resume", "--steps", USUAL_STEPS, MOST_STEPS, words)
}

// The bundles of `run`, or `run --workers K`.
fn workers_of(words: &[String]) -> Option<u64>
    ensures { MatchOption result (((workers : ℕ) × IsRunBy (map string_bytes words.now) workers) → ⊥) (IsRunBy (map string_bytes words.now)) }
{
    number_of("run", "--workers", MOST_MACHINES, MOST_MACHINES, words)
}

// What a churn is to be made from: `churn SEED COUNT`.
fn workload_of(words: &[String]) -> Option<Workload>
    ensures { MatchOption result (((seed : ℕ) × ((count : ℕ) × IsChurn (map string_bytes words.now) seed count)) → ⊥) (λ workload. IsChurn (map string_bytes words.now) workload.seed workload.count) }
{
    match words {
        [word, seed, count] if word.as_str() == "churn" => {
            let seed = seed_in(seed.as_str())?;
            let count = number_in(MOST_ROUNDS, count.as_bytes())?;
            Some(Workload { seed, count })
        }
        _ => None,
    }
}

// Whether the words are `check`.
fn is_check(words: &[String]) -> bool
    ensures { MatchBool result (IsCheck (map string_bytes words.now)) (IsCheck (map string_bytes words.now) → ⊥) }
{
    match words {
        [word] => word.as_str() == "check",
        _ => false,
    }
}

// The numbers of each user of a queue: `queue COUNT`.
fn count_of(words: &[String]) -> Option<u64>
    ensures { MatchOption result (((count : ℕ) × IsQueue (map string_bytes words.now) count) → ⊥) (IsQueue (map string_bytes words.now)) }
{
    match words {
        [word, count] if word.as_str() == "queue" => number_in(MOST_NUMBERS, count.as_bytes()),
        _ => None,
    }
}

// The seed that a whole word spells.
fn seed_in(word: &str) -> Option<u64>
    ensures { MatchOption result ((seed : ℕ) → seed ≤ most_seed → word.now ≡ decimal seed → ⊥) (λ seed. (seed ≤ most_seed) × (word.now ≡ decimal seed)) }
{
    if word == "0" {
        Some(0)
    } else {
        number_in(MOST_SEED, word.as_bytes())
    }
}

// The number that goes with a command, where the words are the command: the usual one where they are that word alone, or
// the one, at most `most`, that stands behind the option.
fn number_of(command: &str, option: &str, usual: u64, most: u64, words: &[String]) -> Option<u64>
    ensures { MatchOption result (((number : ℕ) × IsNumbered command.now option.now usual most (map string_bytes words.now) number) → ⊥) (IsNumbered command.now option.now usual most (map string_bytes words.now)) }
{
    match words {
        [word] if word.as_str() == command => Some(usual),
        [word, name, number] if word.as_str() == command && name.as_str() == option => {
            number_in(most, number.as_bytes())
        }
        _ => None,
    }
}
