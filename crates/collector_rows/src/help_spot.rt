ghost use Rattle.std.specs.Prelude.{ℕ, ◌≡◌, ◌<◌, ◌+◌, ◌↔◌, true, false, Some, IfSome};
ghost use Rattle.heap_words.specs.Access.{table_index};
ghost use Rattle.heap_words.specs.Words.{Heap, IsWord, table_words};
ghost use Rattle.heap_words.specs.Touch.{placed};
ghost use Rattle.collector_rows.specs.HelperRows as rows;
ghost use Rattle.collector_rows.specs.HelperReady.{spot_fits, UnitGoesOn};
ghost use Rattle.collector_rows.specs.HelperWaits.{waits_at};

use handshake::{EnterSpot, leave_access};
use heap_words::phase::IDLE;
use heap_words::{Access, Config, Place, Took, Unit};
use unit_part::UnitSpot;

/// Where a helper stands.
#[derive(Clone, Copy)]
pub enum HelpSpot {
    /// It loads whether the control has ended.
    LoadEnd,
    /// It enters the heap.
    Entering {
        /// Where the entering stands.
        at: EnterSpot,
    },
    /// It loads the phase.
    LoadPhase,
    /// It loads the collection set.
    LoadSet {
        /// The phase that it has loaded.
        phase: u64,
    },
    /// It claims a unit and works on it.
    Working {
        /// Where the work stands.
        at: UnitSpot,
    },
    /// It leaves the heap.
    Leave,
    /// It has ended.
    Gone,
}

impl HelpSpot {
    /// The place of the next access. There is none at the end, where it is named as that of the last access.
    pub fn place(self) -> Place
        ensures { result ≡ rows.place_at self }
    {
        match self {
            HelpSpot::LoadEnd | HelpSpot::Gone => Place::H0,
            HelpSpot::Entering { at } => at.place(),
            HelpSpot::LoadPhase => Place::PH,
            HelpSpot::LoadSet { .. } => Place::CS,
            HelpSpot::Working { at } => at.place(),
            HelpSpot::Leave => Place::LV,
        }
    }

    /// Whether the helper takes hints: it is about to claim a unit of marking.
    pub fn takes_hint(self) -> bool
        ensures { result ≡ rows.takes_hint self }
    {
        match self {
            HelpSpot::Working { at } => at.takes_hint(),
            _ => false,
        }
    }

    /// Where a helper that takes hints goes on with the hint of an address of the heap.
    pub fn hinted(self, config: Config, address: u64) -> HelpSpot
        requires takes { rows.takes_hint self ≡ true }
        requires heap { IsWord config (Heap address) }
        ensures row { result ≡ rows.hinted_by config (Some address) self }
        ensures fits { (seat : ℕ) → spot_fits config seat result ≡ true }
        ensures busy { rows.is_gone result ≡ false }
    {
        match self {
            HelpSpot::Working { at } => HelpSpot::Working {
                at: at.hinted(config, address),
            },
            _ => unreachable!(),
        }
    }

    /// The address that the next access makes grey, if it does so: one of the heap.
    pub fn greys(self) -> Option<u64>
        ensures row { result ≡ rows.greys_at self }
        ensures heap { (config : Config) (seat : ℕ) → spot_fits config seat self ≡ true → IfSome result (λ address. IsWord config (Heap address)) }
    {
        match self {
            HelpSpot::Working { at } => at.greys(),
            _ => None,
        }
    }

    /// Whether the helper has ended.
    pub fn is_gone(self) -> bool
        ensures { result ≡ rows.is_gone self }
    {
        matches!(self, HelpSpot::Gone)
    }

    /// The next access, of the helper of a seat.
    pub fn access(self, config: Config, seat: usize) -> Access
        requires seat { seat < config.mutators + config.helpers }
        requires fits { spot_fits config seat self ≡ true }
        requires busy { rows.is_gone self ≡ false }
        ensures row { result ≡ placed config (rows.touch_at config seat self) }
        ensures inside { table_index result < table_words config }
    {
        match self {
            HelpSpot::LoadEnd => Access::load(config.end_at()),
            HelpSpot::Entering { at } => at.access(config, seat),
            HelpSpot::LoadPhase => Access::load(config.phase_at()),
            HelpSpot::LoadSet { .. } => Access::load(config.cset_at()),
            HelpSpot::Working { at } => at.access(config, seat),
            HelpSpot::Leave => leave_access(config, seat),
            HelpSpot::Gone => unreachable!(),
        }
    }

    /// Where the helper stands after it, by the word that the access has found, and what the step says. A helper is done with
    /// nothing: there is always more to do, or it waits.
    pub fn after(self, config: Config, seat: usize, got: u64) -> (HelpSpot, Took)
        requires fits { spot_fits config seat self ≡ true }
        requires fit { UnitGoesOn config seat self got }
        ensures row { result.0 ≡ rows.next_spot config self got }
        ensures fits { spot_fits config seat result.0 ≡ true }
        ensures says { result.1 ≡ rows.says_at config self got }
        ensures again { (result.1 ≡ Took.Again) ↔ waits_at config self got }
    {
        self.next(config, seat, got)
    }

    // The same by its rows alone. That its numbers stay in range follows from them.
    fn next(self, config: Config, seat: usize, got: u64) -> (HelpSpot, Took)
        requires fits { spot_fits config seat self ≡ true }
        requires fit { UnitGoesOn config seat self got }
        ensures row { result.0 ≡ rows.next_spot config self got }
        ensures says { result.1 ≡ rows.says_at config self got }
        ensures again { (result.1 ≡ Took.Again) ↔ waits_at config self got }
    {
        match self {
            HelpSpot::LoadEnd if got == 1 => (HelpSpot::Gone, Took::More),
            HelpSpot::LoadEnd => (
                HelpSpot::Entering {
                    at: EnterSpot::Raise,
                },
                Took::More,
            ),
            HelpSpot::Entering { at } => (after_enter(at.after(got)), entering_says(at, got)),
            HelpSpot::LoadPhase if got == IDLE => (HelpSpot::Leave, Took::Again),
            HelpSpot::LoadPhase => (HelpSpot::LoadSet { phase: got }, Took::More),
            HelpSpot::LoadSet { phase } => (
                HelpSpot::Working {
                    at: UnitSpot::begin(phase, got),
                },
                Took::More,
            ),
            HelpSpot::Working { at } => {
                let (next, said) = at.after(config, seat, got);
                (after_unit(next), working_says(next, said))
            }
            HelpSpot::Leave => (HelpSpot::LoadEnd, Took::More),
            HelpSpot::Gone => (HelpSpot::Gone, Took::More),
        }
    }
}

// Once inside it loads the phase.
fn after_enter(at: EnterSpot) -> HelpSpot
    ensures { result ≡ rows.after_enter at }
{
    if at.is_ended() {
        HelpSpot::LoadPhase
    } else {
        HelpSpot::Entering { at }
    }
}

// It waits while a pause is wanted.
fn entering_says(at: EnterSpot, got: u64) -> Took
    ensures { result ≡ rows.entering_says at got }
{
    match at {
        EnterSpot::Await if got != 0 => Took::Again,
        _ => Took::More,
    }
}

// Once its unit is done, or none was left, it leaves.
fn after_unit(at: UnitSpot) -> HelpSpot
    ensures { result ≡ rows.after_unit at }
{
    if at.is_ended() {
        HelpSpot::Leave
    } else {
        HelpSpot::Working { at }
    }
}

// What a step of a unit says that leads there: where no unit was left it waits, and once a unit is done there is more to do.
fn working_says(next: UnitSpot, said: Took) -> Took
    ensures { result ≡ rows.working_says next said }
{
    match (next, said) {
        (
            UnitSpot::Ended {
                unit: Unit::NoneLeft,
            },
            _,
        ) => Took::Again,
        (_, Took::Done) => Took::More,
        (_, said) => said,
    }
}
