ghost use Rattle.std.specs.Prelude.{ℕ, ◌≡◌, ◌<◌, ◌≤◌, length, slice_index, IfOk, IfErr, IfSome};
ghost use Rattle.shen_graph.specs.Graph.{Graph};
ghost use Rattle.shen_graph.specs.GraphText.{names_of};
ghost use Rattle.heap_world.specs.Shows.{ShowsGraph};
ghost use Rattle.step_core.specs.AtRest.{IsAtRest};
ghost use Rattle.step_core.specs.Machines.{made_of_machine};
ghost use Rattle.graph_placing.specs.PlaceableText.{IsPlaceable};
ghost use Rattle.graph_placing.specs.Renaming.{AreOfThreads};
ghost use Rattle.heap_machines.specs.Reopened.{AreMadeBy};
ghost use Rattle.table_heap.specs.Closed as ends;
ghost use Rattle.table_heap.specs.State.{HasMachine, machine_at};
ghost use Rattle.heap_seats.specs.declared.renewing.Renewal.{Renewal as Renewals};
ghost use Rattle.heap_seats.specs.Renewed.{KeepsNames, BeginSeats, IsGraphLeft};
ghost use Rattle.heap_seats.specs.RenewalStage.{sizes_for, IsLeftRenewable, IsLeftKept};

use crate::closing::Closing;
use crate::opening::open_seats_from;
use crate::room::RenewalRoom;
use crate::seat::Seat;
use graph_placing::{Renewed, renew};
use heap_machines::reopen_words;
use heap_words::{Config, NoMemory};
use shen_graph::GraphText;
use std::alloc::Global;
use table_heap::{Bundle, Closed};

/// What came of the renewal of a heap. It goes on in each case.
#[derive(Clone, Copy)]
pub enum Renewal {
    /// Its objects have new names, counted from 1 for each thread.
    Renewed,
    /// A pin slot holds an object, which may not move. All names are as they were.
    Pinned,
    /// The objects need more regions than the heap has, where each lies within one and they follow one another in the order of their names.
    /// All names are as they were.
    TooSmall,
    /// Memory was refused for the renewal. All names are as they were.
    NoMemory,
}

/// The seats of a heap that goes on in place of another.
#[derive(Drop)]
pub struct Following {
    /// The seats, by their numbers, before the first event.
    pub seats: Vec<Seat>,
    /// Whether its objects have new names.
    pub renewal: Renewal,
}

// The seats of a heap in which the objects of a text have new names, or why they keep those that they have.
fn renewed_seats(alloc: Global, config: Config, text: &GraphText) -> Result<Vec<Seat>, Renewal>
    requires whole { IsPlaceable config text.now }
    requires names { AreOfThreads config.mutators (names_of text.now) }
    ensures renewed { IfOk result (λ seats. BeginSeats config (ShowsGraph text.now config.mutators) Renewal.Renewed seats.items) }
    ensures kept { IfErr result (λ why. (graph : Graph) → ShowsGraph text.now config.mutators graph → KeepsNames why config graph) }
{
    match renew(alloc, config, text) {
        Ok(Renewed::Heap(image, counts)) => match open_seats_from(alloc, image, counts) {
            Ok(seats) => Ok(seats),
            Err(_) => Err(Renewal::NoMemory),
        },
        Ok(Renewed::Pinned) => Err(Renewal::Pinned),
        Ok(Renewed::TooSmall) => Err(Renewal::TooSmall),
        Err(_) => Err(Renewal::NoMemory),
    }
}

// The seats of a heap of the same words, whose threads have made so many objects.
fn reopened_seats(alloc: Global, closed: Closed, counts: Vec<u32>) -> Result<Vec<Seat>, NoMemory>
    requires rest { IsAtRest (ends.config_of closed) (ends.stage_of closed) }
    requires begins { ∥ IsLeftRenewable (ends.config_of closed) (ends.stage_of closed) ∥₁ }
    requires counts { AreMadeBy (ends.config_of closed).mutators (ends.stage_of closed) counts.items }
    ensures { IfOk result (λ seats. (why : Renewals) → BeginSeats (ends.config_of closed) (IsLeftKept (ends.config_of closed) (ends.stage_of closed) why) why seats.items) }
{
    let mut image = closed.into_image();
    reopen_words(&mut image);
    open_seats_from(alloc, image, counts)
}

// The seats of a heap that goes on where this one was left, if there is memory.
fn go_on(alloc: Global, room: RenewalRoom, mut closed: Closed) -> Option<Following>
    requires sizes { sizes_for room ≡ ends.config_of closed }
    requires rest { IsAtRest (ends.config_of closed) (ends.stage_of closed) }
    requires calls { ends.AllRest closed }
    requires begins { ∥ IsLeftRenewable (ends.config_of closed) (ends.stage_of closed) ∥₁ }
    requires counts { AreMadeBy (ends.config_of closed).mutators (ends.stage_of closed) room.counts.items }
    ensures { IfSome result (λ following. BeginSeats (ends.config_of closed) (IsGraphLeft (ends.config_of closed) (ends.stage_of closed)) following.renewal following.seats.items) }
{
    let RenewalRoom {
        config,
        mut text,
        counts,
    } = room;
    closed.graph(&mut text);
    let renewed = renewed_seats(alloc, config, &text);
    drop(text);
    match renewed {
        Ok(seats) => Some(Following {
            seats,
            renewal: Renewal::Renewed,
        }),
        Err(renewal) => match reopened_seats(alloc, closed, counts) {
            Ok(seats) => Some(Following { seats, renewal }),
            Err(_) => None,
        },
    }
}

// Notes how many objects each mutator has made.
fn count_made(together: &Bundle, counts: &mut Vec<u32>)
    requires { (index : ℕ) → index < length counts.old.items → HasMachine together.now index }
    ensures count { length counts.new.items ≡ length counts.old.items }
    ensures each { (index : ℕ) → index < length counts.old.items → slice_index counts.new.items index ≡ made_of_machine (machine_at together.now index) }
{
    for mutator in 0..counts.len() {
        counts[mutator] = together.made(mutator);
    }
}

impl Closing {
    ghost use Rattle.std.specs.Prelude.{List};
    ghost use Rattle.heap_seats.specs.declared.seat.Seat.{Seat as Seats};
    ghost use Rattle.heap_seats.specs.GivenUp.{sizes_closing, start_closing};
    ghost use Rattle.heap_seats.specs.Renewed.{AreToBeRenewed, MayRenewHeap, AreFollowed};

    /// Ends the heap, all of whose seats are given up and have ended, and goes on with its graph in another one of the same sizes: with new names
    /// for its objects, or else with those that they have, from the heap's own words. A mutator goes on with its roots and its pin slots. `None`
    /// where memory was refused for the second, which is less than the room and the old heap gave back, or where a share of the heap is
    /// elsewhere: then nothing is left of it. The time is linear in the words of the heap, but for the sort of the objects.
    pub fn renew(self, alloc: Global, mut room: RenewalRoom) -> Option<Following>
        requires whole { MayRenewHeap self }
        requires room { sizes_for room ≡ sizes_closing self }
        ensures { (seats : List Seats) → AreToBeRenewed seats self → IfSome result (λ following. AreFollowed (sizes_closing self) (start_closing self) seats following.renewal following.seats.items) }
    {
        count_made(&self.together, &mut room.counts);
        let closed = self.end()?;
        go_on(alloc, room, closed)
    }
}
