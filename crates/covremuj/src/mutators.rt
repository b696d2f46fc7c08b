ghost use Rattle.std.specs.Prelude.{◌≡◌, true, Some};
ghost use Rattle.covremuj.specs.StatusNumbers.{command_numbered};
ghost use Rattle.covremuj.specs.Border.{HandleBegins, BeginsBy, HandleEnds, EndsBy, HandleGoesOn, GoesBy};
ghost use Rattle.heap_seats.specs.Seats.{is_mutator};

use crate::border::{
    NO_COMMAND, NOT_OPEN, Value, WRONG_SEAT, command_of, of_order, of_progress, of_refused,
    value_after,
};
use crate::handle::Handle;
use heap_seats::Seat;
use shen_graph::Command;
use std::alloc::Global;

/// Orders a command, by its number and its arguments. It makes no step.
#[unsafe(no_mangle)]
pub extern "C" fn cvm_begin(
    alloc: Global,
    handle: &mut Handle,
    op: u32,
    a: u32,
    b: u32,
    c: u32,
    d: u32,
    value: u64,
) -> u32
    ensures { HandleBegins handle.old.held handle.new.held (command_numbered op a b c d value) result }
{
    let Some(mut seat) = handle.take(alloc) else {
        return NOT_OPEN;
    };
    let said = begin(&mut seat, command_of(op, a, b, c, d, value));
    handle.fill(seat);
    said
}

fn begin(seat: &mut Seat, command: Option<Command>) -> u32
    ensures { BeginsBy (is_mutator seat.old) seat.old (Some seat.new) command result }
{
    if !seat.is_mutator() {
        return WRONG_SEAT;
    }
    match (command, seat.refuses()) {
        (_, Some(refused)) => of_refused(refused),
        (Some(command), None) => of_order(seat.begin(command)),
        (None, None) => NO_COMMAND,
    }
}

/// Makes so many steps of a mutator at most, until one ends its call, or one waits.
#[unsafe(no_mangle)]
pub extern "C" fn cvm_go(alloc: Global, handle: &mut Handle, steps: u32, value: &mut Value) -> u32
    ensures { HandleGoesOn handle.old.held handle.new.held steps result value.old value.new }
{
    let Some(mut seat) = handle.take(alloc) else {
        return NOT_OPEN;
    };
    let said = go(&mut seat, steps, value);
    handle.fill(seat);
    said
}

fn go(seat: &mut Seat, steps: u32, value: &mut Value) -> u32
    ensures { GoesBy (is_mutator seat.old) seat.old (Some seat.new) steps result value.old value.new }
{
    if !seat.is_mutator() {
        return WRONG_SEAT;
    }
    let progress = seat.go(steps);
    *value = value_after(progress, *value);
    of_progress(progress)
}

/// Orders the end of a mutator. Its next step is its last one.
#[unsafe(no_mangle)]
pub extern "C" fn cvm_end(alloc: Global, handle: &mut Handle) -> u32
    ensures { HandleEnds handle.old.held handle.new.held result }
{
    let Some(mut seat) = handle.take(alloc) else {
        return NOT_OPEN;
    };
    let said = end(&mut seat);
    handle.fill(seat);
    said
}

fn end(seat: &mut Seat) -> u32
    ensures { EndsBy (is_mutator seat.old) seat.old (Some seat.new) result }
{
    if !seat.is_mutator() {
        return WRONG_SEAT;
    }
    of_order(seat.finish())
}
