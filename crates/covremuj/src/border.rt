// What C passes and is told, beside the handles, and the numbers that answer.
ghost use Rattle.std.specs.Prelude.{◌≡◌};
ghost use Rattle.std.specs.Result.{result_err};
ghost use Rattle.covremuj.specs.StatusNumbers as numbers;
ghost use Rattle.covremuj.specs.Answers as answers;

use heap_seats::{Progress, Refused, Renewal, Seat, State};
use heap_words::{BadConfig, Place};
use shen_graph::{Command, Name, Reply};

/// The sizes of a heap, as C passes them.
#[repr(C)]
#[derive(Clone, Copy)]
pub struct Configuration {
    /// Regions of the heap.
    pub regions: usize,
    /// Words of each region.
    pub region_words: usize,
    /// Mutators.
    pub mutators: usize,
    /// Helpers.
    pub helpers: usize,
    /// Free regions that a new object leaves to evacuation.
    pub reserve: usize,
}

/// What belongs to a reply. What does not is 0.
#[repr(C)]
#[derive(Clone, Copy)]
pub struct Value {
    /// The number.
    pub number: u64,
    /// The thread of the object's name.
    pub thread: u64,
    /// The count of the object's name.
    pub count: u64,
}

/// What C is told of a seat.
#[repr(C)]
#[derive(Clone, Copy)]
pub struct Told {
    /// The machine, counted from 1: mutators, then helpers, then the control.
    pub number: u64,
    /// 1 a mutator, 2 a helper, 3 the control.
    pub kind: u64,
    /// 0 free, 1 at work, 2 ended.
    pub state: u64,
    /// How many objects it has made.
    pub made: u64,
    /// How many it may still make.
    pub left: u64,
    /// Of the control: the phase in which its last pause has left the heap, 0 to 3. Of others 0.
    pub phase: u64,
    /// The two letters or digits of the place of its next access, in ASCII; zeros where it has no step to make.
    pub place: [u8; 2],
    /// Zeros, by which the place is a text of C.
    pub place_end: [u8; 6],
}

pub(crate) const DONE: u32 = 0;

pub(crate) const MORE: u32 = 1;

pub(crate) const AGAIN: u32 = 2;

pub(crate) const IDLE: u32 = 3;

pub(crate) const ENDED: u32 = 4;

pub(crate) const REF: u32 = 8;

pub(crate) const NULL: u32 = 9;

pub(crate) const OK: u32 = 10;

pub(crate) const YES: u32 = 11;

pub(crate) const NO: u32 = 12;

pub(crate) const NUMBER: u32 = 13;

pub(crate) const BAD: u32 = 14;

pub(crate) const FULL: u32 = 15;

pub(crate) const AT: u32 = 16;

pub(crate) const PINNED: u32 = 24;

pub(crate) const TOO_SMALL: u32 = 25;

pub(crate) const NOT_RENEWED: u32 = 26;

pub(crate) const LOST: u32 = 27;

pub(crate) const NOT_OPEN: u32 = 32;

pub(crate) const WRONG_SEAT: u32 = 33;

pub(crate) const BUSY: u32 = 34;

pub(crate) const SPENT: u32 = 35;

pub(crate) const NO_COMMAND: u32 = 36;

pub(crate) const OUT_OF_RANGE: u32 = 37;

pub(crate) const BAD_REGIONS: u32 = 48;

pub(crate) const BAD_REGION_WORDS: u32 = 49;

pub(crate) const BAD_MUTATORS: u32 = 50;

pub(crate) const BAD_HELPERS: u32 = 51;

pub(crate) const BAD_RESERVE: u32 = 52;

pub(crate) const BAD_SEATS: u32 = 53;

pub(crate) const ALREADY_OPEN: u32 = 54;

pub(crate) const NO_MEMORY: u32 = 55;

pub(crate) const NOT_ALL: u32 = 56;

// The number of a configuration's fault.
pub(crate) fn of_fault(fault: BadConfig) -> u32
    ensures { result ≡ numbers.number_of_fault fault }
{
    match fault {
        BadConfig::Regions => BAD_REGIONS,
        BadConfig::RegionWords => BAD_REGION_WORDS,
        BadConfig::Mutators => BAD_MUTATORS,
        BadConfig::Helpers => BAD_HELPERS,
        BadConfig::Reserve => BAD_RESERVE,
    }
}

// The number of an order that was taken, or refused.
pub(crate) fn of_order(answer: Result<(), Refused>) -> u32
    ensures { result ≡ numbers.number_of_order (result_err answer) }
{
    match answer {
        Ok(()) => DONE,
        Err(refused) => of_refused(refused),
    }
}

// The number of a refusal.
pub(crate) fn of_refused(refused: Refused) -> u32
    ensures { result ≡ numbers.number_of_refused refused }
{
    match refused {
        Refused::Ended => ENDED,
        Refused::Busy => BUSY,
        Refused::OutOfRange => OUT_OF_RANGE,
        Refused::Spent => SPENT,
    }
}

// The number of a progress.
pub(crate) fn of_progress(progress: Progress) -> u32
    ensures { result ≡ numbers.number_of_progress progress }
{
    match progress {
        Progress::More => MORE,
        Progress::Again => AGAIN,
        Progress::Idle => IDLE,
        Progress::Ended => ENDED,
        Progress::Replied(reply) => of_reply(reply),
    }
}

// The number of a reply.
pub(crate) fn of_reply(reply: Reply) -> u32
    ensures { result ≡ numbers.number_of_reply reply }
{
    match reply {
        Reply::Ref(_) => REF,
        Reply::Null => NULL,
        Reply::Ok => OK,
        Reply::Yes => YES,
        Reply::No => NO,
        Reply::Number(_) => NUMBER,
        Reply::Bad => BAD,
        Reply::Full => FULL,
        Reply::At(_) => AT,
    }
}

// The number of what came of a renewal.
pub(crate) fn of_renewal(renewal: Renewal) -> u32
    ensures { result ≡ numbers.number_of_renewal renewal }
{
    match renewal {
        Renewal::Renewed => DONE,
        Renewal::Pinned => PINNED,
        Renewal::TooSmall => TOO_SMALL,
        Renewal::NoMemory => NOT_RENEWED,
    }
}

// It is written with a reply, and only then.
pub(crate) fn value_after(progress: Progress, before: Value) -> Value
    ensures { result ≡ answers.value_after progress before }
{
    match progress {
        Progress::Replied(reply) => value_of(reply),
        _ => before,
    }
}

// What belongs to a reply.
fn value_of(reply: Reply) -> Value
    ensures { result ≡ answers.value_of reply }
{
    match reply {
        Reply::Ref(Name { thread, count }) => Value {
            number: 0,
            thread: thread as u64,
            count: count as u64,
        },
        Reply::Number(number) | Reply::At(number) => Value {
            number,
            thread: 0,
            count: 0,
        },
        _ => Value {
            number: 0,
            thread: 0,
            count: 0,
        },
    }
}

// The command of a number and its arguments, if there is one.
pub(crate) fn command_of(op: u32, a: u32, b: u32, c: u32, d: u32, value: u64) -> Option<Command>
    ensures { result ≡ numbers.command_numbered op a b c d value }
{
    match op {
        0 => Some(Command::New {
            dst: a,
            refs: b,
            nums: c,
        }),
        1 => Some(Command::Get {
            dst: a,
            src: b,
            field: c,
        }),
        2 => Some(Command::Set {
            obj: a,
            field: b,
            val: c,
        }),
        3 => Some(Command::Cas {
            obj: a,
            field: b,
            expect: c,
            val: d,
        }),
        4 => Some(Command::Xchg {
            dst: a,
            obj: b,
            field: c,
            val: d,
        }),
        5 => Some(Command::Rd { obj: a, index: b }),
        6 => Some(Command::Wr {
            obj: a,
            index: b,
            value,
        }),
        7 => Some(Command::Copy { dst: a, src: b }),
        8 => Some(Command::Drop { dst: a }),
        9 => Some(Command::Same { a, b }),
        10 => Some(Command::Gc),
        11 => Some(Command::Pin { slot: a, obj: b }),
        12 => Some(Command::Unpin { slot: a }),
        _ => None,
    }
}

// What is told of a seat.
pub(crate) fn told_of(seat: &Seat) -> Told
    ensures { result ≡ answers.told_of seat.now }
{
    let made = seat.made();
    Told {
        number: seat.number() as u64 + 1,
        kind: kind_of(seat),
        state: state_number(seat.state()),
        made: made as u64,
        left: if seat.is_mutator() {
            (u32::MAX - made) as u64
        } else {
            0
        },
        phase: seat.phase().unwrap_or(0),
        place: place_code(seat.place()),
        place_end: [0; 6],
    }
}

// The two letters or digits of a place, or zeros.
fn place_code(place: Option<Place>) -> [u8; 2]
    ensures { result ≡ answers.place_code place }
{
    match place {
        Some(place) => place.code(),
        None => [0, 0],
    }
}

// 1 a mutator, 2 a helper, 3 the control.
pub(crate) fn kind_of(seat: &Seat) -> u64
    ensures { result ≡ answers.kind_of seat.now }
{
    let config = seat.config();
    if seat.is_mutator() {
        1
    } else if seat.number() < config.mutators() + config.helpers() {
        2
    } else {
        3
    }
}

// 0 free, 1 at work, 2 ended.
pub(crate) fn state_number(state: State) -> u64
    ensures { result ≡ answers.state_number state }
{
    match state {
        State::Free => 0,
        State::AtWork => 1,
        State::Ended => 2,
    }
}
