//! Threads that wait for the end of a pause sleep on the pause word, and are woken behind it. No event tells of either, and nothing rests on
//! a wake: who sleeps looks at the word again by itself after a while.
ghost use Rattle.table_heap.specs.Running.{HasNoOrder};

use crate::bundle::Bundle;
use crate::heap::Heap;
use heap_words::Place;
use std::sync::Wait;
use std::time::Duration;

// The pause word while a pause is wanted or runs. With another number nobody would sleep, or all would sleep where there is no pause.
const PAUSED: u32 = 1;

// The most milliseconds of a sleep.
const LONGEST: u64 = 2;

impl Heap {
    // Sleeps until a wake where a pause is wanted or runs, and no longer than that.
    pub(crate) fn park<R: Wait>(&self, rt: &R) {
        self.table.shared.park_timeout(
            rt,
            self.config.pause_at(),
            PAUSED,
            Duration::from_millis(LONGEST),
        );
    }

    // Wakes all who sleep. Called before the pause word is down it would serve nobody: they would find it up.
    pub(crate) fn wake(&self) {
        self.table.shared.wake_all(self.config.pause_at());
    }
}

impl Bundle {
    // Whether each machine of the bundle that has a step to make waits outside the heap until no pause is wanted. The control never does.
    pub(crate) fn awaits_pause_end(&self) -> bool
        requires { HasNoOrder self.now }
    {
        for number in 0..self.machines.len() {
            if let Some(machine) = &self.machines[number]
                && machine.has_next()
                && !machine.awaits()
            {
                return false;
            }
        }
        true
    }

    // Whether the bundle has the control, and its next step ends a pause.
    pub(crate) fn ends_pause(&self) -> bool
        requires { HasNoOrder self.now }
    {
        let Some(control) = &self.machines[self.config.seats() - 1] else {
            return false;
        };
        control.is_at_place(None, Place::P3)
    }
}
