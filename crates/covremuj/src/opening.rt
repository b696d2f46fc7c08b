ghost use Rattle.std.specs.Prelude.{◌≡◌, ◌≢◌, ◌+◌, None, Some, MatchOption, IfOk, length, map};
ghost use Rattle.heap_words.specs.Ranges.{seat_count};
ghost use Rattle.covremuj.specs.OpenedHandles.{seats_held, any_held, HoldFreshSeats, HasSizes, fault_in, handles_refused, opening_refused};
ghost use Rattle.heap_words.specs.declared.config.Config.{Config as Configs};
ghost use mathlib.Core.List.{reverse};

use crate::border::{ALREADY_OPEN, BAD_SEATS, Configuration, DONE, NO_MEMORY, of_fault};
use crate::handle::Handle;
use heap_seats::{Seat, open_seats};
use heap_words::{Config, NoMemory};
use std::alloc::Global;

/// A heap with all its seats, whose handles are the mutators', the helpers' and the control's, in this order.
#[unsafe(no_mangle)]
pub extern "C" fn cvm_open(alloc: Global, sizes: &Configuration, handles: &mut [Handle]) -> u32
    ensures refused { MatchOption (opening_refused (fault_in sizes.now) (seat_count sizes.now.mutators sizes.now.helpers) (seats_held handles.old)) (result ≢ 55 → result ≡ 0) (λ why. result ≡ why) }
    ensures unchanged { result ≢ 0 → seats_held handles.new ≡ seats_held handles.old }
    ensures opened { result ≡ 0 → ((config : Configs) × HasSizes sizes.now config × HoldFreshSeats config (seats_held handles.new)) }
{
    match Config::wide(
        sizes.regions,
        sizes.region_words,
        sizes.mutators,
        sizes.helpers,
        sizes.reserve,
    ) {
        Err(fault) => of_fault(fault),
        Ok(config) => open_into(alloc, config, handles),
    }
}

// Opens a heap of this configuration into the handles.
fn open_into(alloc: Global, config: Config, handles: &mut [Handle]) -> u32
    ensures refused { MatchOption (handles_refused (seat_count config.mutators config.helpers) (seats_held handles.old)) (result ≢ 55 → result ≡ 0) (λ why. result ≡ why) }
    ensures unchanged { result ≢ 0 → seats_held handles.new ≡ seats_held handles.old }
    ensures opened { result ≡ 0 → HoldFreshSeats config (seats_held handles.new) }
{
    if handles.len() != config.seats() {
        return BAD_SEATS;
    }
    if any_open(alloc, handles) {
        return ALREADY_OPEN;
    }
    let Ok(seats) = open_seats(alloc, config) else {
        return NO_MEMORY;
    };
    let Ok(seats) = boxed(alloc, seats) else {
        return NO_MEMORY;
    };
    fill_all(handles, seats);
    DONE
}

// Whether one of the handles is open.
fn any_open(alloc: Global, handles: &mut [Handle]) -> bool
    ensures open { result ≡ any_held (seats_held handles.old) }
    ensures unchanged { seats_held handles.new ≡ seats_held handles.old }
{
    for at in 0..handles.len() {
        if handles[at].is_open(alloc) {
            return true;
        }
    }
    false
}

// Seats, each in a box, the last one first.
pub(crate) fn boxed(alloc: Global, mut seats: Vec<Seat>) -> Result<Vec<Box<Seat>>, NoMemory>
    ensures { IfOk result (λ boxes. reverse (map (λ boxed_seat. boxed_seat.value) boxes.items) ≡ seats.items) }
{
    let Ok(mut boxes) = Vec::with_capacity(alloc, seats.len()) else {
        return Err(NoMemory);
    };
    while let Some(seat) = seats.pop() {
        let Ok(boxed) = Box::new(alloc, seat) else {
            return Err(NoMemory);
        };
        let Ok(()) = boxes.push(boxed) else {
            return Err(NoMemory);
        };
    }
    Ok(boxes)
}

// Puts each seat into its handle: the last one of the list into the first.
pub(crate) fn fill_all(handles: &mut [Handle], mut seats: Vec<Box<Seat>>)
    requires { length handles.old ≡ length seats.items }
    ensures { seats_held handles.new ≡ map Some (reverse (map (λ boxed_seat. boxed_seat.value) seats.items)) }
{
    for at in 0..handles.len() {
        let Some(seat) = seats.pop() else {
            unreachable!()
        };
        handles[at].fill(seat);
    }
}
