ghost use Rattle.std.specs.Prelude.{◌≡◌, ◌<◌, ◌↔◌, ◌+◌, true, false};
ghost use Rattle.heap_words.specs.Ranges.{seat_count};
ghost use Rattle.heap_words.specs.Access.{table_index};
ghost use Rattle.heap_words.specs.Words.{Heap, IsWord, table_words, word_at};
ghost use Rattle.heap_words.specs.Touch.{placed};
ghost use Rattle.load_barrier.specs.Rows as rows;
ghost use Rattle.load_barrier.specs.Fit.{is_ready, goes_on};
ghost use Rattle.load_barrier.specs.Waits.{WaitsAt};

use crate::copying::CopySpot;
use alloc_buffers::{Kind, TakeSpot, Taken};
use evac_room::RoomSpot;
use heap_words::phase::UPDATING;
use heap_words::{Access, Config, Place, Took, forwarded, forwardee, words_of};

/// Where a machine stands that resolves an address of the collection set.
#[derive(Clone, Copy)]
pub enum ResolveSpot {
    /// It loads the object's header.
    LoadHeader,
    /// The object is not forwarded: it asks to copy.
    Entering {
        /// Where the asking stands.
        at: RoomSpot,
    },
    /// It may copy, and loads the object's shape.
    LoadShape,
    /// It takes room for a copy.
    Taking {
        /// The words of the object.
        words: u64,
        /// Where the taking stands.
        at: TakeSpot,
    },
    /// It has room, and copies the object.
    Copying {
        /// Where the room begins.
        copy: u64,
        /// Where the buffer ends, out of which the room is taken.
        end: u64,
        /// Where the copying stands.
        at: CopySpot,
    },
    /// It has the answer, and leaves the copiers.
    Leaving {
        /// The answer.
        answer: u64,
    },
    /// It has found no room: it stops all copying, and waits until nobody copies.
    Stopping {
        /// Where the stopping stands.
        at: RoomSpot,
    },
    /// Nobody copies any more: it loads the object's header again.
    LoadAgain,
    /// The address is resolved. It makes no access.
    Resolved {
        /// The address to use: the object's current copy.
        answer: u64,
    },
}

impl ResolveSpot {
    /// The place of the next access. There is none at the end, where it is named as that of the last load of the header.
    pub fn place(self) -> Place
        ensures { result ≡ rows.place_at self }
    {
        match self {
            ResolveSpot::LoadHeader => Place::HL,
            ResolveSpot::Entering { at } => at.place(),
            ResolveSpot::LoadShape => Place::SL,
            ResolveSpot::Taking { at, .. } => at.place(),
            ResolveSpot::Copying { at, .. } => at.place(),
            ResolveSpot::Leaving { .. } => Place::XS,
            ResolveSpot::Stopping { at } => at.place(),
            ResolveSpot::LoadAgain | ResolveSpot::Resolved { .. } => Place::HR,
        }
    }

    /// Whether the address is resolved.
    pub fn is_ended(self) -> bool
        ensures { result ≡ rows.is_ended self }
    {
        matches!(self, ResolveSpot::Resolved { .. })
    }

    /// The next access of the machine of a seat that resolves the address.
    pub fn access(self, config: Config, seat: usize, address: u64) -> Access
        requires seat { seat < seat_count config.mutators config.helpers }
        requires address { IsWord config (Heap address) }
        requires ready { is_ready config seat address self ≡ true }
        requires busy { rows.is_ended self ≡ false }
        ensures row { result ≡ placed config (rows.touch_at config seat address self) }
        ensures inside { table_index result < table_words config }
    {
        match self {
            ResolveSpot::LoadHeader | ResolveSpot::LoadAgain => load_of_object(config, address, 0),
            ResolveSpot::Entering { at } => at.access(config),
            ResolveSpot::LoadShape => load_of_object(config, address, 1),
            ResolveSpot::Taking { words, at } => at.access(config, seat, words),
            ResolveSpot::Copying { copy, end, at } => at.access(config, seat, address, copy, end),
            ResolveSpot::Leaving { .. } => RoomSpot::Lower.access(config),
            ResolveSpot::Stopping { at } => at.access(config),
            ResolveSpot::Resolved { .. } => unreachable!(),
        }
    }

    /// Where the machine stands after it, by the word that the access has found, and what the step says.
    pub fn after(
        self,
        config: Config,
        seat: usize,
        address: u64,
        phase: u64,
        got: u64,
    ) -> (ResolveSpot, Took)
        requires ready { is_ready config seat address self ≡ true }
        requires fit { goes_on config seat address phase self got ≡ true }
        ensures row { result.0 ≡ rows.next_at config address phase self got }
        ensures says { result.1 ≡ rows.says_at config address phase self got }
        ensures again { (result.1 ≡ Took.Again) ↔ WaitsAt self got }
    {
        match self {
            ResolveSpot::LoadHeader => led(after_header(address, phase, got)),
            ResolveSpot::Entering { at } => led_by(at.says(got), after_enter(at.after(got))),
            ResolveSpot::LoadShape => led(ResolveSpot::Taking {
                words: words_of(got),
                at: TakeSpot::LoadBuffer,
            }),
            ResolveSpot::Taking { words, at } => {
                let next = at.after(config, seat, words, Kind::Evacuated, got);
                led_by(at.says(next), after_take(words, next))
            }
            ResolveSpot::Copying { copy, end, at } => {
                led(at.after(config, address, copy, end, got))
            }
            ResolveSpot::Leaving { answer } => led(ResolveSpot::Resolved { answer }),
            ResolveSpot::Stopping { at } => led_by(at.says(got), after_stop(at.after(got))),
            ResolveSpot::LoadAgain => led(ResolveSpot::Resolved {
                answer: current_copy(address, got),
            }),
            ResolveSpot::Resolved { .. } => led(self),
        }
    }
}

// The step leads there: it is done once the address is resolved.
fn led(next: ResolveSpot) -> (ResolveSpot, Took)
    ensures spot { result.0 ≡ next }
    ensures says { result.1 ≡ rows.says_of next }
{
    match next {
        ResolveSpot::Resolved { .. } => (next, Took::Done),
        _ => (next, Took::More),
    }
}

// The step of a part that has said so leads there.
fn led_by(said: Took, next: ResolveSpot) -> (ResolveSpot, Took)
    ensures spot { result.0 ≡ next }
    ensures says { result.1 ≡ rows.says_by said next }
{
    match said {
        Took::Again => (next, Took::Again),
        _ => led(next),
    }
}

// The load of a word of an object, counted from 0.
fn load_of_object(config: Config, address: u64, index: u64) -> Access
    requires { IsWord config (Heap (address + index)) }
    ensures row { result ≡ Access.Load (word_at config (Heap (address + index))) }
    ensures inside { table_index result < table_words config }
{
    Access::load(config.heap_at(address + index))
}

// The current copy of an object by the header of a copy.
fn current_copy(address: u64, header: u64) -> u64
    ensures { result ≡ rows.current_copy address header }
{
    if forwarded(header) {
        forwardee(header)
    } else {
        address
    }
}

// What follows the first load of the header.
fn after_header(address: u64, phase: u64, header: u64) -> ResolveSpot
    ensures { result ≡ rows.after_header address phase header }
{
    if forwarded(header) || phase == UPDATING {
        ResolveSpot::Resolved {
            answer: current_copy(address, header),
        }
    } else {
        ResolveSpot::Entering { at: RoomSpot::Look }
    }
}

// Once inside it loads the shape, and where nobody copies any more the header again.
fn after_enter(at: RoomSpot) -> ResolveSpot
    ensures { result ≡ rows.after_enter at }
{
    match at {
        RoomSpot::Inside => ResolveSpot::LoadShape,
        RoomSpot::Stopped => ResolveSpot::LoadAgain,
        _ => ResolveSpot::Entering { at },
    }
}

// With room it copies, the words behind the header first; without it stops all copying.
fn after_take(words: u64, at: TakeSpot) -> ResolveSpot
    ensures { result ≡ rows.after_take words at }
{
    match at {
        TakeSpot::Ended {
            taken: Taken::At(copy),
            end,
        } => ResolveSpot::Copying {
            copy,
            end,
            at: CopySpot::LoadWord { words, index: 1 },
        },
        TakeSpot::Ended {
            taken: Taken::NoRoom,
            ..
        } => ResolveSpot::Stopping { at: RoomSpot::Ask },
        _ => ResolveSpot::Taking { words, at },
    }
}

// Once nobody copies it loads the header again.
fn after_stop(at: RoomSpot) -> ResolveSpot
    ensures { result ≡ rows.after_stop at }
{
    match at {
        RoomSpot::Stopped => ResolveSpot::LoadAgain,
        _ => ResolveSpot::Stopping { at },
    }
}
