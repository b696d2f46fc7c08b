ghost use Rattle.std.specs.Prelude.{ℕ, ◌≡◌, ◌<◌, ◌↔◌, true, false, Some, IfSome};
ghost use Rattle.heap_words.specs.Ranges.{seat_count};
ghost use Rattle.heap_words.specs.Access.{table_index};
ghost use Rattle.heap_words.specs.Words.{Heap, IsWord, table_words};
ghost use Rattle.heap_words.specs.Touch.{placed};
ghost use Rattle.unit_part.specs.UpdateRows as updates;
ghost use Rattle.unit_part.specs.UpdateEnds as updating;
ghost use Rattle.unit_part.specs.Rows as rows;
ghost use Rattle.unit_part.specs.Ready.{is_ready, IsFit};
ghost use Rattle.unit_part.specs.Ends.{WaitsAt};

use crate::{ScanSpot, UpdateSpot};
use heap_words::phase::{EVACUATION, MARKING};
use heap_words::{Access, Config, Place, Took, Unit};
use load_barrier::EvacSpot;

/// Where a machine stands that claims a unit of the phase and works on it.
#[derive(Clone, Copy)]
pub enum UnitSpot {
    /// It claims a unit of marking and scans it.
    Scanning {
        /// Where the scan stands.
        at: ScanSpot,
    },
    /// It claims a unit of evacuation and copies what is marked there.
    Evacuating {
        /// The collection set.
        cset: u64,
        /// Where the evacuation stands.
        at: EvacSpot,
    },
    /// It claims a unit of updating and updates the references there.
    Updating {
        /// The collection set.
        cset: u64,
        /// Where the updating stands.
        at: UpdateSpot,
    },
    /// The unit is done, or none was left. It makes no access.
    Ended {
        /// Which of the two.
        unit: Unit,
    },
}

impl UnitSpot {
    /// Where a machine begins with a unit of a phase, which is not 0: of marking in phase 1, of evacuation in phase 2, and of updating
    /// in any other. The collection set is a word of bits, one for each region.
    pub fn begin(phase: u64, cset: u64) -> UnitSpot
        ensures { result ≡ rows.begins phase cset }
    {
        match phase {
            MARKING => UnitSpot::Scanning {
                at: ScanSpot::LoadClaim,
            },
            EVACUATION => UnitSpot::Evacuating {
                cset,
                at: EvacSpot::LoadClaim,
            },
            _ => UnitSpot::Updating {
                cset,
                at: UpdateSpot::LoadClaim,
            },
        }
    }

    /// Whether it takes hints: it marks, and has claimed no unit yet.
    pub fn takes_hint(self) -> bool
        ensures { result ≡ rows.takes_hint self }
    {
        matches!(
            self,
            UnitSpot::Scanning {
                at: ScanSpot::LoadClaim
            }
        )
    }

    /// Where a machine that takes hints goes on with the hint of an address of the heap: at the word that has its mark.
    pub fn hinted(self, config: Config, address: u64) -> UnitSpot
        requires takes { rows.takes_hint self ≡ true }
        requires heap { IsWord config (Heap address) }
        ensures row { result ≡ rows.hinted_by config (Some address) self }
        ensures ready { (seat : ℕ) → is_ready config seat result ≡ true }
        ensures busy { rows.is_ended result ≡ false }
    {
        UnitSpot::Scanning {
            at: ScanSpot::hinted(config, address),
        }
    }

    /// The address that the next access makes grey, if it does so: one of the heap.
    pub fn greys(self) -> Option<u64>
        ensures row { result ≡ rows.greys_at self }
        ensures heap { (config : Config) (seat : ℕ) → is_ready config seat self ≡ true → IfSome result (λ address. IsWord config (Heap address)) }
    {
        match self {
            UnitSpot::Scanning { at } => at.greys(),
            _ => None,
        }
    }

    /// The place of the next access. There is none at the end, where it is named as that of the claim.
    pub fn place(self) -> Place
        ensures { result ≡ rows.place_at self }
    {
        match self {
            UnitSpot::Scanning { at } => at.place(),
            UnitSpot::Evacuating { at, .. } => at.place(),
            UnitSpot::Updating { at, .. } => at.place(),
            UnitSpot::Ended { .. } => Place::KX,
        }
    }

    /// Whether the unit is done, or none was left.
    pub fn is_ended(self) -> bool
        ensures { result ≡ rows.is_ended self }
    {
        matches!(self, UnitSpot::Ended { .. })
    }

    /// The next access, of the machine of a seat.
    pub fn access(self, config: Config, seat: usize) -> Access
        requires seat { seat < seat_count config.mutators config.helpers }
        requires ready { is_ready config seat self ≡ true }
        requires busy { rows.is_ended self ≡ false }
        ensures row { result ≡ placed config (rows.touch_at config seat self) }
        ensures inside { table_index result < table_words config }
    {
        match self {
            UnitSpot::Scanning { at } => at.access(config),
            UnitSpot::Evacuating { at, .. } => at.access(config, seat),
            UnitSpot::Updating { at, .. } => at.access(config),
            UnitSpot::Ended { .. } => unreachable!(),
        }
    }

    /// Where the machine stands after it, by the word that the access has found, and what the step says.
    pub fn after(self, config: Config, seat: usize, got: u64) -> (UnitSpot, Took)
        requires ready { is_ready config seat self ≡ true }
        requires fit { IsFit config seat self got }
        ensures row { result.0 ≡ rows.next_at config self got }
        ensures says { result.1 ≡ rows.says_at config self got }
        ensures again { (result.1 ≡ Took.Again) ↔ WaitsAt self got }
    {
        match self {
            UnitSpot::Scanning { at } => (scanned(at.after(config, got)), at.says(config, got)),
            UnitSpot::Evacuating { cset, at } => {
                let (next, said) = at.after(config, seat, cset, got);
                (evacuated(cset, next), said)
            }
            UnitSpot::Updating { cset, at } => {
                let next = at.after(config, cset, got);
                (
                    updated(cset, next),
                    updating_says(config, cset, at, next, got),
                )
            }
            UnitSpot::Ended { .. } => (self, Took::Done),
        }
    }
}

// Once the scan has ended the unit has.
fn scanned(at: ScanSpot) -> UnitSpot
    ensures { result ≡ rows.scanned at }
{
    match at {
        ScanSpot::Ended { unit } => UnitSpot::Ended { unit },
        at => UnitSpot::Scanning { at },
    }
}

// Once the evacuation has ended the unit has.
fn evacuated(cset: u64, at: EvacSpot) -> UnitSpot
    ensures { result ≡ rows.evacuated cset at }
{
    match at {
        EvacSpot::Ended { unit } => UnitSpot::Ended { unit },
        at => UnitSpot::Evacuating { cset, at },
    }
}

// Once the updating has ended the unit has.
fn updated(cset: u64, at: UpdateSpot) -> UnitSpot
    ensures { result ≡ rows.updated cset at }
{
    match at {
        UpdateSpot::Ended { unit } => UnitSpot::Ended { unit },
        at => UnitSpot::Updating { cset, at },
    }
}

// What a step of updating says that leads there.
fn updating_says(config: Config, cset: u64, at: UpdateSpot, next: UpdateSpot, got: u64) -> Took
    requires { next ≡ updates.next_at config cset at got }
    ensures row { result ≡ updates.says_at config cset at got }
    ensures again { (result ≡ Took.Again) ↔ updating.WaitsAt at got }
{
    match at {
        UpdateSpot::ClaimUnit { unit } if got != unit => Took::Again,
        _ if next.is_ended() => Took::Done,
        _ => Took::More,
    }
}
