ghost use Rattle.std.specs.Prelude.{◌≡◌, ◌≢◌, false, None, MatchOption, length, List, ◌++◌};
ghost use Rattle.std.specs.Option.{option_map};
ghost use Rattle.heap_seats.specs.declared.seat.Seat.{Seat as Seats};
ghost use Rattle.heap_seats.specs.Gathered.{AreOfOneHeap, AreGathered, MakeUpHeap, HaveHistory};
ghost use Rattle.covremuj.specs.OpenedHandles.{seats_held, any_held};
ghost use Rattle.covremuj.specs.ClosedHandles as closed;

use crate::asked::Asked;
use crate::border::{BUSY, DONE, NOT_ALL, NOT_OPEN, kind_of, state_number};
use crate::handle::Handle;
use heap_seats::{Gathering, Seat, Share};
use std::alloc::Global;

/// Gives a seat up. The handle is empty afterwards.
#[unsafe(no_mangle)]
pub extern "C" fn cvm_close(alloc: Global, handle: &mut Handle) -> u32
    ensures empty { handle.new.held ≡ None }
    ensures answer { MatchOption handle.old.held (result ≡ 32) (λ _. result ≡ 0) }
{
    let Some(seat) = handle.take(alloc) else {
        return NOT_OPEN;
    };
    drop(seat);
    DONE
}

/// Gives all seats of a heap up at once, as `cvm_open` gave them, and with them the heap, whose mutators and control have ended. What one
/// call of `cvm_open` gave is of one heap, and each other call leaves a seat with its heap: then there is one history of all their calls.
#[unsafe(no_mangle)]
pub extern "C" fn cvm_close_all(alloc: Global, handles: &mut [Handle]) -> u32
    ensures answer { closed.AnswersClosing (seats_held handles.old) result }
    ensures unchanged { result ≢ 0 → seats_held handles.new ≡ seats_held handles.old }
    ensures empty { result ≡ 0 → any_held (seats_held handles.new) ≡ false }
    ensures history { result ≡ 0 → AreOfOneHeap (closed.seats_in (seats_held handles.old)) → HaveHistory (closed.seats_in (seats_held handles.old)) }
{
    let why = refuses(alloc, handles, Asked::Over);
    if why != DONE {
        return why;
    }
    give_up_all(alloc, handles);
    DONE
}

// Why not all seats of a heap are there, or one does not show what is asked last.
pub(crate) fn refuses(alloc: Global, handles: &mut [Handle], last: Asked) -> u32
    ensures held { seats_held handles.new ≡ seats_held handles.old }
    ensures answer { closed.AnswersAsked last (seats_held handles.old) result }
{
    if handles.is_empty() {
        return NOT_ALL;
    }
    let filled = all_show(alloc, handles, Asked::Open);
    let numbered = all_show(alloc, handles, Asked::Numbered);
    let over = all_show(alloc, handles, last);
    let shared = are_shared(alloc, handles);
    answer_by(filled, numbered, shared, over)
}

// The first cause, or none.
fn answer_by(filled: bool, numbered: bool, shared: bool, over: bool) -> u32
    ensures { closed.AnswersBy filled numbered over result }
{
    if !filled {
        NOT_OPEN
    } else if !numbered || !shared {
        NOT_ALL
    } else if over {
        DONE
    } else {
        BUSY
    }
}

// Whether each handle shows what is asked.
fn all_show(alloc: Global, handles: &mut [Handle], asked: Asked) -> bool
    ensures held { seats_held handles.new ≡ seats_held handles.old }
    ensures shown { result ≡ closed.each_shows asked (seats_held handles.old) }
{
    let seats = handles.len();
    for at in 0..handles.len() {
        if !shows(alloc, &mut handles[at], asked, seats, at) {
            return false;
        }
    }
    true
}

fn shows(alloc: Global, handle: &mut Handle, asked: Asked, seats: usize, at: usize) -> bool
    ensures held { handle.new.held ≡ handle.old.held }
    ensures shown { result ≡ closed.shows asked seats at handle.old.held }
{
    let Some(seat) = handle.take(alloc) else {
        return false;
    };
    let is = seat_shows(&seat, asked, seats, at);
    handle.fill(seat);
    is
}

fn seat_shows(seat: &Seat, asked: Asked, seats: usize, at: usize) -> bool
    ensures { result ≡ closed.seat_shows asked seats at seat.now }
{
    match asked {
        Asked::Open => true,
        Asked::Numbered => seat.number() == at && seat.config().seats() == seats,
        Asked::Over => kind_of(seat) == 2 || state_number(seat.state()) == 2,
        Asked::Ended => state_number(seat.state()) == 2,
    }
}

// Whether all that the handles hold are seats of one heap, as far as its shares tell.
fn are_shared(alloc: Global, handles: &mut [Handle]) -> bool
    ensures { seats_held handles.new ≡ seats_held handles.old }
{
    if handles.is_empty() {
        return false;
    }
    let Some(share) = share_of(alloc, &mut handles[0]) else {
        return false;
    };
    all_of(alloc, handles, &share)
}

// A share of the heap of a handle's seat.
fn share_of(alloc: Global, handle: &mut Handle) -> Option<Share>
    ensures { handle.new.held ≡ handle.old.held }
{
    let seat = handle.take(alloc)?;
    let share = seat.share();
    handle.fill(seat);
    share
}

fn all_of(alloc: Global, handles: &mut [Handle], share: &Share) -> bool
    ensures { seats_held handles.new ≡ seats_held handles.old }
{
    for at in 0..handles.len() {
        if !is_of(alloc, &mut handles[at], share) {
            return false;
        }
    }
    true
}

// Whether a handle holds a seat of that heap.
fn is_of(alloc: Global, handle: &mut Handle, share: &Share) -> bool
    ensures { handle.new.held ≡ handle.old.held }
{
    let Some(seat) = handle.take(alloc) else {
        return false;
    };
    let is = seat.is_of(share);
    handle.fill(seat);
    is
}

// Gives each seat up.
fn give_up_all(alloc: Global, handles: &mut [Handle])
    ensures empty { any_held (seats_held handles.new) ≡ false }
    ensures history { MakeUpHeap (closed.seats_in (seats_held handles.old)) → HaveHistory (closed.seats_in (seats_held handles.old)) }
{
    let mut gathering = Gathering::empty();
    for at in 0..handles.len() {
        gathering = with_next(gathering, handles[at].take(alloc));
    }
    gathering.end();
}

// One seat more, if there is one.
fn with_next(gathering: Gathering, seat: Option<Box<Seat>>) -> Gathering
    ensures { (before : List Seats) → AreGathered before gathering → AreGathered (before ++ closed.seat_in (option_map (λ boxed_seat. boxed_seat.value) seat)) result }
{
    match seat {
        Some(seat) => gathering.with(Box::into_inner(seat)),
        None => gathering,
    }
}
