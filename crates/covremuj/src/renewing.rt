ghost use Rattle.std.specs.Prelude.{◌≡◌, ◌≢◌, ◌<◌, ◌≤◌, ◌++◌, false, List, None, Some, MatchOption, IfSome, length, map, slice_get};
ghost use Rattle.std.specs.Option.{option_map};
ghost use Rattle.heap_seats.specs.declared.seat.Seat.{Seat as Seats};
ghost use Rattle.heap_seats.specs.Gathered.{AreOfOneHeap};
ghost use Rattle.heap_seats.specs.Renewed.{AreToBeRenewed};
ghost use Rattle.heap_seats.specs.RenewalStage.{sizes_for};
ghost use Rattle.heap_seats.specs.Seats.{config_of};
ghost use Rattle.covremuj.specs.declared.asked.Asked.{Asked as Askeds};
ghost use Rattle.covremuj.specs.ClosedHandles.{seat_in, seats_in, AnswersAsked};
ghost use Rattle.covremuj.specs.OpenedHandles.{seats_held, any_held};
ghost use Rattle.covremuj.specs.RenewedHandles.{AnswersRenewing, AreFollowedBy, AreFollowedHere, IsOfThatHeap, AreGivenIn, AreAbsent};
ghost use Rattle.covremuj.specs.StatusNumbers.{number_of_renewal};

use crate::asked::Asked;
use crate::border::{DONE, LOST, NO_MEMORY, of_renewal};
use crate::closing::refuses;
use crate::handle::Handle;
use crate::opening::{boxed, fill_all};
use heap_seats::{Closing, Following, RenewalRoom, Seat};
use std::alloc::Global;

/// Ends a heap, all of whose seats have ended, and goes on with its graph in another one of the same sizes, whose seats the handles hold
/// afterwards: with new names for its objects, or else with those that they have. The seats are of one heap.
#[unsafe(no_mangle)]
pub extern "C" fn cvm_renew(alloc: Global, handles: &mut [Handle]) -> u32
    requires one_heap { AreOfOneHeap (seats_in (seats_held handles.old)) }
    ensures answer { AnswersRenewing (seats_held handles.old) result }
    ensures unchanged { 32 ≤ result → seats_held handles.new ≡ seats_held handles.old }
    ensures lost { result ≡ 27 → any_held (seats_held handles.new) ≡ false }
    ensures goes_on { result < 27 → AreFollowedBy (seats_in (seats_held handles.old)) result (seats_held handles.new) }
{
    let why = refuses(alloc, handles, Asked::Ended);
    if why != DONE {
        return why;
    }
    let Some(room) = room_for(alloc, &mut handles[0]) else {
        return NO_MEMORY;
    };
    match renewed(alloc, handles, room) {
        Some(following) => hold(alloc, handles, following),
        None => LOST,
    }
}

// What the renewal of the heap of a handle's seat takes of memory before it is given up.
fn room_for(alloc: Global, handle: &mut Handle) -> Option<RenewalRoom>
    ensures held { handle.new.held ≡ handle.old.held }
    ensures sizes { IfSome result (λ room. MatchOption handle.old.held ⊥ (λ seat. sizes_for room ≡ config_of seat)) }
{
    let seat = handle.take(alloc)?;
    let config = seat.config();
    handle.fill(seat);
    match RenewalRoom::open(alloc, config) {
        Ok(room) => Some(room),
        Err(_) => None,
    }
}

// The seats of the heap that goes on, where there is one. Those of the handles are given up.
fn renewed(alloc: Global, handles: &mut [Handle], room: RenewalRoom) -> Option<Following>
    requires one_heap { AreOfOneHeap (seats_in (seats_held handles.old)) }
    requires all { AnswersAsked Askeds.Ended (seats_held handles.old) 0 }
    requires room { (seat : Seats) → slice_get (seats_in (seats_held handles.old)) 0 ≡ Some seat → sizes_for room ≡ config_of seat }
    ensures empty { any_held (seats_held handles.new) ≡ false }
    ensures count { length handles.new ≡ length handles.old }
    ensures goes_on { IfSome result (λ following. AreFollowedHere (seats_in (seats_held handles.old)) following) }
{
    let closing = give_up(alloc, handles)?;
    closing.renew(alloc, room)
}

// Gives up all seats, which are those of a heap.
fn give_up(alloc: Global, handles: &mut [Handle]) -> Option<Closing>
    requires one_heap { AreOfOneHeap (seats_in (seats_held handles.old)) }
    requires all { AnswersAsked Askeds.Ended (seats_held handles.old) 0 }
    ensures empty { any_held (seats_held handles.new) ≡ false }
    ensures count { length handles.new ≡ length handles.old }
    ensures given { IfSome result (AreToBeRenewed (seats_in (seats_held handles.old))) }
{
    let mut closing = None;
    for at in 0..handles.len() {
        closing = with_seat(closing, handles[at].take(alloc));
    }
    closing
}

// One seat more that is given up, if there is one, which is of the same heap.
fn with_seat(closing: Option<Closing>, seat: Option<Box<Seat>>) -> Option<Closing>
    requires { IsOfThatHeap closing (option_map (λ boxed_seat. boxed_seat.value) seat) }
    ensures { (before : List Seats) → AreGivenIn before closing → AreAbsent before (option_map (λ boxed_seat. boxed_seat.value) seat) → AreGivenIn (before ++ seat_in (option_map (λ boxed_seat. boxed_seat.value) seat)) result }
{
    let Some(seat) = seat else {
        return closing;
    };
    let seat = Box::into_inner(seat);
    match closing {
        None => Some(Closing::of(seat)),
        Some(closing) => Some(closing.with(seat)),
    }
}

// Puts the seats of the heap that goes on into their handles, where there is memory for it.
fn hold(alloc: Global, handles: &mut [Handle], following: Following) -> u32
    requires count { length handles.old ≡ length following.seats.items }
    requires empty { any_held (seats_held handles.old) ≡ false }
    ensures lost { result ≡ 27 → any_held (seats_held handles.new) ≡ false }
    ensures answer { result ≢ 27 → result ≡ number_of_renewal following.renewal }
    ensures holds { result ≢ 27 → seats_held handles.new ≡ map Some following.seats.items }
{
    let Following { seats, renewal } = following;
    let Ok(seats) = boxed(alloc, seats) else {
        return LOST;
    };
    fill_all(handles, seats);
    of_renewal(renewal)
}
