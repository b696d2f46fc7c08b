//! Whose turn it may be, and what that costs.

use crate::course::{Course, SEATS};
use heap_words::Place;

/// Which machines may make the next step, and how many preemptions each of that would be: 0 or 1.
#[derive(Clone, Copy)]
pub(crate) struct Turns {
    /// What each machine costs, if it may go.
    costs: [Option<u64>; 12],
    /// The machine that goes where nothing else is chosen.
    pub usual: usize,
}

// Whether each machine may go.
fn awake(course: &Course, everywhere: bool) -> [bool; 12] {
    let mut awake = [false; 12];
    let others = everywhere || course.somebody_waits();
    for number in 0..course.seats() {
        if number < SEATS {
            awake[number] = (number < course.mutators() || others) && course.is_awake(number);
        }
    }
    awake
}

// The first machine behind another, in a circle, that may go and need not let others go first.
fn first_free(course: &Course, awake: &[bool; 12], from: usize) -> Option<usize> {
    for number in from..SEATS {
        if awake[number] && !course.is_back(number) {
            return Some(number);
        }
    }
    for number in 0..from.min(SEATS) {
        if awake[number] && !course.is_back(number) {
            return Some(number);
        }
    }
    None
}

/// Whose turn it may be behind a step of this machine. None where no machine can go on.
pub(crate) fn possible_turns(
    course: &mut Course,
    last: Option<usize>,
    everywhere: bool,
) -> Option<Turns> {
    let mut may = awake(course, everywhere);
    if !may.contains(&true) {
        if !course.wake() {
            return None;
        }
        may = awake(course, everywhere);
    }
    // It goes on by itself, so that any other machine's turn is a preemption.
    if let Some(last) = last {
        if last < SEATS && may[last] && !course.is_back(last) {
            let mut costs = [None; 12];
            for number in 0..SEATS {
                if may[number] {
                    costs[number] = Some((number != last) as u64);
                }
            }
            return Some(Turns { costs, usual: last });
        }
    }
    let from = match last {
        Some(last) if last < course.mutators() => last + 1,
        _ => 0,
    };
    let usual = match first_free(course, &may, from) {
        Some(number) => number,
        None => {
            course.forget_back();
            first_free(course, &may, from)?
        }
    };
    let mut costs = [None; 12];
    for number in 0..SEATS {
        if may[number] {
            costs[number] = Some(course.is_back(number) as u64);
        }
    }
    Some(Turns { costs, usual })
}

impl Turns {
    /// How many preemptions it would be if the machine makes the next step. None where it cannot.
    pub(crate) fn cost(&self, number: usize) -> Option<u64> {
        if number < SEATS {
            self.costs[number]
        } else {
            None
        }
    }
}

// Whether an access at this place is of a word that no other machine accesses, while the mutator is inside the heap, or only to load it
// as this one does.
fn is_own(place: Place) -> bool {
    matches!(
        place,
        Place::PH | Place::CS | Place::RL | Place::RS | Place::SH | Place::NM | Place::IW
    )
}

/// Whether a preemption before the machine's next step is as good as one behind it.
pub(crate) fn goes_alone(course: &Course, number: usize) -> bool {
    if number >= course.mutators() {
        return false;
    }
    match course.place(number) {
        Some(place) => is_own(place),
        None => false,
    }
}
