use heap_words::{Access, Place, Took};

/// An event: the step of one machine, as memory saw it.
#[derive(Clone, Copy)]
pub struct Event {
    /// Its number, from 1.
    pub number: u64,
    /// The machine, counted from 0: the mutators, the helpers, the control.
    pub seat: usize,
    /// Where the machine stood.
    pub place: Place,
    /// Its access.
    pub access: Access,
    /// The word that the access found.
    pub found: u64,
    /// What the machine said then.
    pub said: Took,
    /// Where the machine stands then; None where it has nothing to do, or a call is to begin.
    pub next: Option<Place>,
}

impl Event {
    /// Whether two events of one machine differ in nothing but their numbers.
    pub fn is_like(&self, other: &Event) -> bool {
        self.place == other.place
            && self.access == other.access
            && self.found == other.found
            && self.said == other.said
    }

    /// Whether the word is another one then.
    pub fn changes(&self) -> bool {
        self.access.made(self.found) != self.found
    }
}
