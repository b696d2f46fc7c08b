use crate::event::Event;
use heap_words::{Place, Took};

// The most machines of a heap.
const MACHINES: usize = 12;

// So many rounds of a control or helper without any change are one too many.
const ROUNDS: u8 = 3;

// What is known of a machine since a word was changed.
#[derive(Clone, Copy)]
struct Course {
    // The number of its last event.
    number: u64,
    // That event, where it is to be made again.
    again: Option<Event>,
    // How many rounds it has begun.
    rounds: u8,
    // Whether it waits.
    waits: bool,
}

// Nothing is known of a machine.
const UNKNOWN: Course = Course {
    number: 0,
    again: None,
    rounds: 0,
    waits: false,
};

/// What is known of machines that step and get nowhere. A machine waits where a load has said twice that it is to be made again
/// and no word was changed between; and so does the control or a helper that goes round and round meanwhile.
#[derive(Drop)]
pub struct Stall {
    courses: [Course; 12],
    // The number of the last event, and of the one with which all that was known before is forgotten.
    made: u64,
    since: u64,
}

impl Stall {
    /// Nobody waits.
    pub fn new() -> Stall {
        Stall {
            courses: [UNKNOWN; 12],
            made: 0,
            since: 0,
        }
    }

    /// Forgets all events.
    pub fn clear(&mut self) {
        self.since = self.made;
    }

    // Whether an event changes what others may wait for. Entering and leaving do not count.
    fn matters(event: &Event) -> bool {
        event.changes() && !matches!(event.place, Place::E1 | Place::E3 | Place::LV)
    }

    // Whether what is known of a machine is not forgotten.
    fn knows(&self, seat: usize) -> bool {
        self.courses[seat % MACHINES].number > self.since
    }

    // The rounds that the machine has begun with an event.
    fn rounds(&self, event: &Event) -> u8 {
        let before = if self.knows(event.seat) {
            self.courses[event.seat % MACHINES].rounds
        } else {
            0
        };
        if matches!(event.place, Place::I0 | Place::H0) {
            before.saturating_add(1)
        } else {
            before
        }
    }

    // Whether the machine stands where it stood, and has found the same as before.
    fn is_same(&self, event: &Event) -> bool {
        if event.next != Some(event.place) || !self.knows(event.seat) {
            return false;
        }
        match &self.courses[event.seat % MACHINES].again {
            Some(last) => last.is_like(event),
            None => false,
        }
    }

    /// Takes down an event, which has a greater number than those before.
    pub fn note(&mut self, event: &Event) {
        self.made = event.number;
        if Stall::matters(event) {
            self.clear();
            return;
        }
        let rounds = self.rounds(event);
        let is_again = event.said == Took::Again;
        let waits = rounds > ROUNDS || is_again && self.is_same(event);
        let course = &mut self.courses[event.seat % MACHINES];
        course.number = event.number;
        course.rounds = rounds;
        course.waits = waits;
        course.again = if is_again { Some(*event) } else { None };
    }

    /// Whether the machine waits.
    pub fn waits(&self, seat: usize) -> bool {
        self.knows(seat) && self.courses[seat % MACHINES].waits
    }

    /// The last event of the machine since a word was changed, where it is to be made again.
    pub fn last(&self, seat: usize) -> Option<Event> {
        if self.knows(seat) {
            self.courses[seat % MACHINES].again
        } else {
            None
        }
    }
}
