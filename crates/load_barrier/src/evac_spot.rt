ghost use Rattle.std.specs.Prelude.{◌≡◌, ◌<◌, ◌+◌, ◌↔◌, true, false};
ghost use Rattle.heap_words.specs.Ranges.{seat_count};
ghost use Rattle.heap_words.specs.Access.{table_index};
ghost use Rattle.heap_words.specs.Words.{Heap, IsWord, table_words};
ghost use Rattle.heap_words.specs.Touch.{placed};
ghost use Rattle.load_barrier.specs.UnitRows as rows;
ghost use Rattle.load_barrier.specs.Fit as resolve;
ghost use Rattle.load_barrier.specs.UnitFit.{is_ready, IsFit};
ghost use Rattle.load_barrier.specs.UnitEnds.{WaitsAt};

use crate::set::lies_in_set;
use crate::spot::ResolveSpot;
use heap_words::phase::EVACUATION;
use heap_words::{Access, Config, Place, Took, Unit, filler_words, words_of};
use regions::{base, is_in, is_marked_in, mark_word};

/// Where a machine stands that claims a unit of evacuation, a region, and copies what is marked there.
#[derive(Clone, Copy)]
pub enum EvacSpot {
    /// It loads how many units were claimed.
    LoadClaim,
    /// It claims the next unit.
    ClaimUnit {
        /// The unit: a region, counted from 0.
        unit: u64,
    },
    /// It loads the top of the region.
    LoadTop {
        /// The region, counted from 0.
        region: usize,
    },
    /// It loads the header where the walk stands, an object's or a filler's.
    LoadFirst {
        /// Where the walk stands.
        address: u64,
        /// Where the region's objects end.
        end: u64,
    },
    /// It loads the shape of an object.
    LoadShape {
        /// The object.
        address: u64,
        /// Where the region's objects end.
        end: u64,
    },
    /// It loads the word of black bits that has the object's mark.
    LoadMark {
        /// The object.
        address: u64,
        /// Where the region's objects end.
        end: u64,
        /// The address behind the object.
        next: u64,
    },
    /// The object is marked: it resolves its address, and so sees to it that there is a copy.
    Resolving {
        /// The object.
        address: u64,
        /// Where the region's objects end.
        end: u64,
        /// The address behind the object.
        next: u64,
        /// Where the resolving stands.
        at: ResolveSpot,
    },
    /// The unit is done, or none was left. It makes no access.
    Ended {
        /// Which of the two.
        unit: Unit,
    },
}

impl EvacSpot {
    /// The place of the next access. There is none at the end, where it is named as that of the claim.
    pub fn place(self) -> Place
        ensures { result ≡ rows.place_at self }
    {
        match self {
            EvacSpot::LoadClaim | EvacSpot::Ended { .. } => Place::EC,
            EvacSpot::ClaimUnit { .. } => Place::KX,
            EvacSpot::LoadTop { .. } => Place::ET,
            EvacSpot::LoadFirst { .. } => Place::EF,
            EvacSpot::LoadShape { .. } => Place::ES,
            EvacSpot::LoadMark { .. } => Place::EB,
            EvacSpot::Resolving { at, .. } => at.place(),
        }
    }

    /// Whether the unit is done, or none was left.
    pub fn is_ended(self) -> bool
        ensures { result ≡ rows.is_ended self }
    {
        matches!(self, EvacSpot::Ended { .. })
    }

    /// The next access, of the machine of a seat.
    pub fn access(self, config: Config, seat: usize) -> Access
        requires seat { seat < seat_count config.mutators config.helpers }
        requires ready { is_ready config seat self ≡ true }
        requires busy { rows.is_ended self ≡ false }
        ensures row { result ≡ placed config (rows.touch_at config seat self) }
        ensures inside { table_index result < table_words config }
    {
        match self {
            EvacSpot::LoadClaim => Access::load(config.claim_at()),
            // keeps AreCaredFor and KeepsFields
            EvacSpot::ClaimUnit { unit } => Access::exchange(config.claim_at(), unit, unit + 1),
            EvacSpot::LoadTop { region } => Access::load(config.top_at(region)),
            EvacSpot::LoadFirst { address, .. } => Access::load(config.heap_at(address)),
            EvacSpot::LoadShape { address, .. } => Access::load(config.heap_at(address + 1)),
            EvacSpot::LoadMark { address, .. } => Access::load(config.black_at(mark_word(
                config, address,
            ))),
            EvacSpot::Resolving { address, at, .. } => at.access(config, seat, address),
            EvacSpot::Ended { .. } => unreachable!(),
        }
    }

    /// Where the machine stands after it, by the word that the access has found, with a collection set, and what the step says.
    pub fn after(self, config: Config, seat: usize, cset: u64, got: u64) -> (EvacSpot, Took)
        requires ready { is_ready config seat self ≡ true }
        requires fit { IsFit config seat cset self got }
        ensures row { result.0 ≡ rows.next_at config cset self got }
        ensures says { result.1 ≡ rows.says_at config cset self got }
        ensures again { (result.1 ≡ Took.Again) ↔ WaitsAt self got }
    {
        match self {
            EvacSpot::LoadClaim if got < config.regions() as u64 => led(EvacSpot::ClaimUnit {
                unit: got,
            }),
            EvacSpot::LoadClaim => led(NONE_LEFT),
            EvacSpot::ClaimUnit { unit } if got == unit => led(after_claim(cset, unit as usize)),
            EvacSpot::ClaimUnit { .. } => (EvacSpot::LoadClaim, Took::Again),
            EvacSpot::LoadTop { region } => {
                let from = base(config, region);
                led(walk_on(from, from + got))
            }
            EvacSpot::LoadFirst { address, end } => led(after_first(config, address, end, got)),
            EvacSpot::LoadShape { address, end } => led(EvacSpot::LoadMark {
                address,
                end,
                next: address + words_of(got),
            }),
            EvacSpot::LoadMark { address, end, next } => {
                led(after_mark(config, address, end, next, got))
            }
            EvacSpot::Resolving {
                address,
                end,
                next,
                at,
            } => {
                let (at, said) = at.after(config, seat, address, EVACUATION, got);
                led_by(
                    said,
                    after_resolve(config, seat, cset, address, end, next, at),
                )
            }
            EvacSpot::Ended { .. } => led(self),
        }
    }
}

// The step leads there: it is done once the unit is, or none was left.
fn led(next: EvacSpot) -> (EvacSpot, Took)
    ensures spot { result.0 ≡ next }
    ensures says { result.1 ≡ rows.says_of next }
{
    match next {
        EvacSpot::Ended { .. } => (next, Took::Done),
        _ => (next, Took::More),
    }
}

// The step of a resolving that has said so leads there.
fn led_by(said: Took, next: EvacSpot) -> (EvacSpot, Took)
    ensures spot { result.0 ≡ next }
    ensures says { result.1 ≡ rows.says_by said next }
{
    match said {
        Took::Again => (next, Took::Again),
        _ => led(next),
    }
}

const WORKED: EvacSpot = EvacSpot::Ended { unit: Unit::Worked };

const NONE_LEFT: EvacSpot = EvacSpot::Ended {
    unit: Unit::NoneLeft,
};

// What follows once a unit is claimed.
fn after_claim(cset: u64, region: usize) -> EvacSpot
    requires { region < 64 }
    ensures { result ≡ rows.after_claim cset region }
{
    if is_in(cset, region) {
        EvacSpot::LoadTop { region }
    } else {
        WORKED
    }
}

// Where the walk goes on: at the next header below the end, if there is one.
fn walk_on(next: u64, end: u64) -> EvacSpot
    ensures { result ≡ rows.walk_on next end }
{
    if next < end {
        EvacSpot::LoadFirst { address: next, end }
    } else {
        WORKED
    }
}

// What follows the load of a header: the walk steps over a filler.
fn after_first(config: Config, address: u64, end: u64, header: u64) -> EvacSpot
    requires { IsWord config (Heap address) }
    ensures { result ≡ rows.after_first address end header }
{
    match filler_words(header) {
        Some(words) => walk_on(address + words, end),
        None => EvacSpot::LoadShape { address, end },
    }
}

// What follows the load of an object's mark: one that is marked is resolved.
fn after_mark(config: Config, address: u64, end: u64, next: u64, marks: u64) -> EvacSpot
    requires { IsWord config (Heap address) }
    ensures { result ≡ rows.after_mark config address end next marks }
{
    if is_marked_in(config, address, marks) {
        EvacSpot::Resolving {
            address,
            end,
            next,
            at: ResolveSpot::LoadHeader,
        }
    } else {
        walk_on(next, end)
    }
}

// Where it stands that resolves an object: it walks on with the answer outside the set, and ends with one in the set.
fn after_resolve(
    config: Config,
    seat: usize,
    cset: u64,
    address: u64,
    end: u64,
    next: u64,
    at: ResolveSpot,
) -> EvacSpot
    requires { resolve.is_ready config seat address at ≡ true }
    ensures { result ≡ rows.after_resolve config cset address end next at }
{
    match at {
        ResolveSpot::Resolved { answer } if lies_in_set(config, cset, answer) => WORKED,
        ResolveSpot::Resolved { .. } => walk_on(next, end),
        _ => EvacSpot::Resolving {
            address,
            end,
            next,
            at,
        },
    }
}
