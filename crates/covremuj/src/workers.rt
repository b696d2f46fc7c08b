ghost use Rattle.std.specs.Prelude.{◌≡◌, Some, None, MatchOption};
ghost use Rattle.covremuj.specs.Answers as answers;
ghost use Rattle.covremuj.specs.Border.{WorksOn, WorksBy};
ghost use Rattle.heap_seats.specs.Seats.{is_mutator};

use crate::border::{DONE, NOT_OPEN, Told, WRONG_SEAT, of_progress, told_of};
use crate::handle::Handle;
use heap_seats::Seat;
use std::alloc::Global;

/// Makes so many steps of a helper or of the control at most, until one waits.
#[unsafe(no_mangle)]
pub extern "C" fn cvm_work(alloc: Global, handle: &mut Handle, steps: u32) -> u32
    ensures { WorksOn handle.old.held handle.new.held steps result }
{
    let Some(mut seat) = handle.take(alloc) else {
        return NOT_OPEN;
    };
    let said = work(&mut seat, steps);
    handle.fill(seat);
    said
}

fn work(seat: &mut Seat, steps: u32) -> u32
    ensures { WorksBy (is_mutator seat.old) seat.old (Some seat.new) steps result }
{
    if seat.is_mutator() {
        return WRONG_SEAT;
    }
    of_progress(seat.go(steps))
}

/// Tells of a seat. It makes no step.
#[unsafe(no_mangle)]
pub extern "C" fn cvm_look(alloc: Global, handle: &mut Handle, told: &mut Told) -> u32
    ensures held { handle.new.held ≡ handle.old.held }
    ensures told { MatchOption handle.old.held ((result ≡ 32) × (told.new ≡ told.old)) (λ seat. (result ≡ 0) × (told.new ≡ answers.told_of seat)) }
{
    let Some(seat) = handle.take(alloc) else {
        return NOT_OPEN;
    };
    *told = told_of(&seat);
    handle.fill(seat);
    DONE
}
