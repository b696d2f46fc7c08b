ghost use Rattle.std.specs.Prelude.{◌≡◌, ◌<◌, ◌↔◌, ◌==◌, true, false, Some, IfSome};
ghost use Rattle.std.specs.Int.{bit_at};
ghost use Rattle.heap_words.specs.Access.{table_index};
ghost use Rattle.heap_words.specs.Words.{Heap, IsWord, table_words};
ghost use Rattle.heap_world.specs.Change.{image_words};
ghost use Rattle.collector_rows.specs.ControlRows as rows;
ghost use Rattle.collector_rows.specs.ControlReady.{is_ready, UnitGoesOn};
ghost use Rattle.collector_rows.specs.ControlWaits.{waits_at};

use crate::extent::{Extent, first_extent, image_words};
use handshake::{StopSpot, go_access};
use heap_words::phase::IDLE;
use heap_words::{Access, Config, Place, Took, Unit};
use regions::size;
use unit_part::UnitSpot;

// The bits of what is asked for: a cycle, and room for an object.
const CYCLE: u32 = 0;

const ROOM: u32 = 1;

/// What stood in the image at the end of the control's last pause.
#[derive(Clone, Copy)]
pub struct LastPause {
    /// The phase.
    pub phase: u64,
    /// The collection set.
    pub cset: u64,
    /// The free word, or that of the last pause before it that ended with phase 0.
    pub seen: u64,
}

/// Where the control stands.
#[derive(Clone, Copy)]
pub enum ControlSpot {
    /// It loads how many mutators have not ended.
    LookLeft,
    /// It stores that it has ended.
    StoreEnd,
    /// It loads what is asked for.
    LookAsked,
    /// It loads the free word.
    LookFree,
    /// It claims a unit and works on it.
    Working {
        /// Where the work stands.
        at: UnitSpot,
    },
    /// It stops the mutators and helpers.
    Stopping {
        /// Where the stopping stands.
        at: StopSpot,
    },
    /// It loads a word of the image.
    LoadWord {
        /// The word, counted from 0 in the order of places.
        index: usize,
        /// How much of the image it loads, as far as it knows.
        extent: Extent,
    },
    /// It stores a word of the new image.
    StoreWord {
        /// The word, counted from 0 in the order of places.
        index: usize,
        /// How much of the image it has loaded.
        extent: Extent,
    },
    /// It stores that the pause has ended.
    Go,
    /// It has ended.
    Gone,
}

impl ControlSpot {
    /// The place of the next access. There is none at the end, where it is named as that of the last access.
    pub fn place(self) -> Place
        ensures { result ≡ rows.control_place self }
    {
        match self {
            ControlSpot::LookLeft => Place::I0,
            ControlSpot::StoreEnd | ControlSpot::Gone => Place::IE,
            ControlSpot::LookAsked => Place::I1,
            ControlSpot::LookFree => Place::I2,
            ControlSpot::Working { at } => at.place(),
            ControlSpot::Stopping { at } => at.place(),
            ControlSpot::LoadWord { .. } => Place::PL,
            ControlSpot::StoreWord { .. } => Place::PS,
            ControlSpot::Go => Place::P3,
        }
    }

    /// Whether the control takes hints: it is about to claim a unit of marking.
    pub fn takes_hint(self) -> bool
        ensures { result ≡ rows.takes_hint self }
    {
        match self {
            ControlSpot::Working { at } => at.takes_hint(),
            _ => false,
        }
    }

    /// Where the control goes on with the hint of an address of the heap, where it takes hints.
    pub fn hinted(self, config: Config, address: u64) -> ControlSpot
        requires takes { rows.takes_hint self ≡ true }
        requires heap { IsWord config (Heap address) }
        ensures row { result ≡ rows.hinted_by config (Some address) self }
        ensures ready { is_ready config result ≡ true }
        ensures busy { rows.is_gone result ≡ false }
    {
        match self {
            ControlSpot::Working { at } => ControlSpot::Working {
                at: at.hinted(config, address),
            },
            _ => unreachable!(),
        }
    }

    /// The address that the next access makes grey, if it does so: one of the heap.
    pub fn greys(self) -> Option<u64>
        ensures row { result ≡ rows.greys_at self }
        ensures heap { (config : Config) → is_ready config self ≡ true → IfSome result (λ address. IsWord config (Heap address)) }
    {
        match self {
            ControlSpot::Working { at } => at.greys(),
            _ => None,
        }
    }

    /// Whether the control has ended.
    pub fn is_gone(self) -> bool
        ensures { result ≡ rows.is_gone self }
    {
        matches!(self, ControlSpot::Gone)
    }

    /// The next access. `word` is what is stored, where a word of the new image is.
    pub fn access(self, config: Config, word: u64) -> Access
        requires ready { is_ready config self ≡ true }
        requires busy { rows.is_gone self ≡ false }
        ensures row { result ≡ rows.access_with config self word }
        ensures inside { table_index result < table_words config }
    {
        match self {
            ControlSpot::LookLeft => Access::load(config.left_at()),
            // keeps IsEndWord
            ControlSpot::StoreEnd => Access::store(config.end_at(), 1),
            ControlSpot::LookAsked => Access::load(config.ask_at()),
            ControlSpot::LookFree => Access::load(config.free_at()),
            ControlSpot::Working { at } => at.access(config, seat_of(config)),
            ControlSpot::Stopping { at } => at.access(config),
            ControlSpot::LoadWord { index, .. } => Access::load(config.image_start() + index),
            // keeps settled, IsAim, IsSeen and IsThread.short
            ControlSpot::StoreWord { index, .. } => Access::store(
                config.image_start() + index,
                word,
            ),
            ControlSpot::Go => go_access(config),
            ControlSpot::Gone => unreachable!(),
        }
    }

    /// Where it stands after it, by what stood at the end of its last pause, the index of the word of the new image that it stores
    /// next, where it stores one, and the word that the access has found, and what the step says.
    pub fn after(
        self,
        config: Config,
        last: LastPause,
        next: usize,
        got: u64,
    ) -> (ControlSpot, Took)
        requires ready { is_ready config self ≡ true }
        requires fit { UnitGoesOn config self got }
        ensures row { result.0 ≡ rows.next_spot config last.phase last.cset last.seen next self got }
        ensures ready { is_ready config result.0 ≡ true }
        ensures says { result.1 ≡ rows.says_at config last.seen self got }
        ensures again { (result.1 ≡ Took.Again) ↔ waits_at config last.seen self got }
    {
        self.next(config, last, next, got)
    }

    // The same by its rows alone. That its numbers stay in range follows from them.
    fn next(self, config: Config, last: LastPause, next: usize, got: u64) -> (ControlSpot, Took)
        requires ready { is_ready config self ≡ true }
        requires fit { UnitGoesOn config self got }
        ensures row { result.0 ≡ rows.next_spot config last.phase last.cset last.seen next self got }
        ensures says { result.1 ≡ rows.says_at config last.seen self got }
        ensures again { (result.1 ≡ Took.Again) ↔ waits_at config last.seen self got }
    {
        match self {
            ControlSpot::LookLeft if got == 0 => (ControlSpot::StoreEnd, Took::More),
            ControlSpot::LookLeft => (ControlSpot::LookAsked, Took::More),
            ControlSpot::LookAsked if is_asked(last.phase, got) => (STOP, Took::More),
            ControlSpot::LookAsked => (unasked(last.phase, last.cset), Took::More),
            ControlSpot::LookFree if is_wanted(config, last.seen, got) => (STOP, Took::More),
            ControlSpot::LookFree => (ControlSpot::LookLeft, Took::Again),
            ControlSpot::Working { at } => {
                let (next, said) = at.after(config, seat_of(config), got);
                (after_unit(next), working_says(said))
            }
            ControlSpot::Stopping { at } => (
                stopping(config, last.phase, at.after(config, got)),
                stopping_says(at, got),
            ),
            ControlSpot::LoadWord { index, extent } => (
                after_load(config, extent.after(last.phase, index, got), index),
                Took::More,
            ),
            ControlSpot::StoreWord { extent, .. } => (
                after_store(config, extent, next),
                Took::More,
            ),
            ControlSpot::Go => (ControlSpot::LookLeft, Took::More),
            ControlSpot::StoreEnd | ControlSpot::Gone => (ControlSpot::Gone, Took::More),
        }
    }
}

// The control's seat is behind those of the mutators and the helpers.
fn seat_of(config: Config) -> usize
    ensures { result ≡ rows.control_seat config }
{
    config.mutators() + config.helpers()
}

// Where a pause begins.
const STOP: ControlSpot = ControlSpot::Stopping {
    at: StopSpot::Raise,
};

// Whether a pause is asked for. In the middle of a cycle one that is asked for can wait.
fn is_asked(phase: u64, asked: u64) -> bool
    ensures { result ≡ rows.begins_pause phase asked }
{
    is_set(asked, ROOM) || (phase == IDLE && is_set(asked, CYCLE))
}

// Whether a bit of the word is set.
fn is_set(word: u64, bit: u32) -> bool
    requires { bit < 64 }
    ensures { result ≡ (bit_at word bit == 1) }
{
    word >> bit & 1 == 1
}

// What it does where no pause is asked for.
fn unasked(phase: u64, cset: u64) -> ControlSpot
    ensures { result ≡ rows.unasked phase cset }
{
    if phase == IDLE {
        ControlSpot::LookFree
    } else {
        ControlSpot::Working {
            at: UnitSpot::begin(phase, cset),
        }
    }
}

// Once a unit is done it looks again what is to do, and once none was left it makes a pause.
fn after_unit(at: UnitSpot) -> ControlSpot
    ensures { result ≡ rows.after_unit at }
{
    match at {
        UnitSpot::Ended { unit: Unit::Worked } => ControlSpot::LookLeft,
        UnitSpot::Ended {
            unit: Unit::NoneLeft,
        } => STOP,
        at => ControlSpot::Working { at },
    }
}

// What a step of a unit says: once the unit is done, or none was left, there is more to do.
fn working_says(said: Took) -> Took
    ensures { result ≡ rows.working_says said }
{
    match said {
        Took::Done => Took::More,
        said => said,
    }
}

// Whether the free word calls for a pause.
fn is_wanted(config: Config, seen: u64, free: u64) -> bool
    ensures { result ≡ rows.wants_pause config seen free }
{
    let regions_free = size(free) as usize;
    2 * regions_free < config.regions() && free != seen
}

// Once all seats are out the image is loaded.
fn stopping(config: Config, phase: u64, at: StopSpot) -> ControlSpot
    ensures { result ≡ rows.stopping config phase at }
{
    if at.is_ended() {
        ControlSpot::LoadWord {
            index: 0,
            extent: first_extent(config, phase),
        }
    } else {
        ControlSpot::Stopping { at }
    }
}

// It says again while the seat is not out.
fn stopping_says(at: StopSpot, got: u64) -> Took
    ensures { result ≡ rows.stopping_says at got }
{
    match at {
        StopSpot::Check { .. } if got != 0 => Took::Again,
        _ => Took::More,
    }
}

// What follows once a word of the image is loaded.
fn after_load(config: Config, extent: Extent, index: usize) -> ControlSpot
    requires { index < image_words config }
    ensures { result ≡ rows.after_load config extent index }
{
    let next = extent.next(config, index);
    if next < image_words(config) {
        ControlSpot::LoadWord {
            index: next,
            extent,
        }
    } else {
        ControlSpot::StoreWord { index: 0, extent }
    }
}

// What follows once a word of the new image is stored, by the index of the next one.
fn after_store(config: Config, extent: Extent, next: usize) -> ControlSpot
    ensures { result ≡ rows.after_store config extent next }
{
    if next >= image_words(config) {
        return ControlSpot::Go;
    }
    ControlSpot::StoreWord {
        index: next,
        extent,
    }
}
