ghost use Rattle.std.specs.Prelude.{◌≡◌, Option, Some, None, MatchOption};
ghost use Rattle.std.specs.Option.{is_some};
ghost use Rattle.std.specs.Coded.{coded_option};
ghost use Rattle.heap_seats.specs.contracts.seat.Seat.{the_row};
ghost use Rattle.heap_seats.specs.declared.seat.Seat.{Seat as Seats};
ghost use Rattle.covremuj.specs.HeldSeats.{held_owns};

use crate::parts::Parts;
use heap_seats::Seat;
use std::alloc::Global;
use std::marker::Model;
use std::ptr::null_mut;

/// What C has of a seat: empty, or open. C keeps it in a place of its own, and passes its address.
#[repr(C)]
#[derive(Drop)]
pub struct Handle {
    at: *mut u8,
    is_open: bool,
    alloc: Global,
    pub ghost held: { Option Seats } by { coded_option the_row.coded },
    ghost told: { is_open ≡ is_some held },
}

impl Model for Handle {
    ghost also_owns = { λ handle. held_owns handle.at handle.alloc handle.held };
}

impl Handle {
    // An empty one.
    fn hollow(alloc: Global) -> Handle
        ensures { result.held ≡ None }
    {
        Handle {
            at: null_mut(),
            is_open: false,
            alloc,
        }
    }

    // An open one.
    fn of_parts(parts: Parts<Seat, Global>) -> Handle
        ensures { result.held ≡ Some parts.inside }
    {
        let Parts { address, allocator } = parts;
        Handle {
            at: address as *mut u8,
            is_open: true,
            alloc: allocator,
        }
    }

    // What it holds.
    fn into_parts(self) -> Option<Parts<Seat, Global>>
        ensures { MatchOption result (self.held ≡ None) (λ parts. self.held ≡ Some parts.inside) }
    {
        let Handle { at, is_open, alloc } = self;
        if is_open {
            Some(Parts {
                address: at as *mut Seat,
                allocator: alloc,
            })
        } else {
            None
        }
    }

    /// Puts a seat into its place.
    pub fn fill(&mut self, seat: Box<Seat>)
        ensures { self.new.held ≡ Some seat.value }
    {
        *self = Handle::of_parts(Parts::of_box(seat));
    }

    /// Takes its seat out, if it holds one. It is empty then.
    pub fn take(&mut self, alloc: Global) -> Option<Box<Seat>>
        ensures taken { MatchOption result (self.old.held ≡ None) (λ seat. self.old.held ≡ Some seat.value) }
        ensures empty { self.new.held ≡ None }
    {
        let handle = std::mem::replace(self, Handle::hollow(alloc));
        match handle.into_parts() {
            Some(parts) => Some(parts.together()),
            None => None,
        }
    }

    /// Whether it is open.
    pub fn is_open(&mut self, alloc: Global) -> bool
        ensures open { result ≡ is_some self.old.held }
        ensures held { self.new.held ≡ self.old.held }
    {
        match self.take(alloc) {
            Some(seat) => {
                self.fill(seat);
                true
            }
            None => false,
        }
    }
}
