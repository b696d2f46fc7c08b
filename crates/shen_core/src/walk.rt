ghost use Rattle.std.specs.Prelude.{◌≡◌, ◌<◌, ◌≤◌, true, false, None, [], drop, All, IfSome};
ghost use Rattle.shen_graph.specs.declared.order.Order.TheVariants.{Nothing};
ghost use Rattle.shen_core.specs.State.{config_of, orders_of, seats_of};
ghost use Rattle.shen_core.specs.Progress.{CanRun, IsInSeats};
ghost use Rattle.shen_core.specs.Agendas.{agenda_number, left_of, wakes};
ghost use Rattle.shen_core.specs.Nexts.{IsOver, WalksOn, IsFirstBusy};

use crate::plain::Plain;
use crate::seen::{Seen, turn_seen};
use heap_machines::Stepped;
use heap_words::{Item, Schedule};
use shen_graph::Work;

/// Where a run of a schedule stands between two events: what is left of the item at work, the items after it, and the machine
/// whose turn it is in the rounds then.
#[derive(Drop)]
pub struct Walk {
    schedule: Schedule,
    // The items that have begun.
    begun: usize,
    // What is left of the last of them; None where nothing is.
    present: Option<Item>,
    // Whether the control's step is due, after a step that waited.
    control_due: bool,
    // The machine that is the next in the rounds.
    from: usize,
}

// The machine of an item.
fn machine_of(item: Item) -> usize
    ensures { result ≡ agenda_number item }
{
    match item {
        Item::Steps { number, .. } => number,
        Item::Until { number, .. } => number,
        Item::Replies { number, .. } => number,
    }
}

// Whether an item is done, or is not as long as its machine has turns.
fn is_over(item: Item, plain: &Plain, work: &Work) -> bool
    requires item { IsInSeats (config_of plain.now) item }
    requires run { CanRun plain.now work.now }
    ensures over { result ≡ true → IsOver plain.now work.now item }
    ensures more { result ≡ false → WalksOn plain.now work.now item }
{
    match item {
        Item::Steps { count, .. } => count == 0,
        Item::Until { number, place } => plain.is_at_place(work, number, place),
        Item::Replies { number, count } => { work.replies(number).list().len() as u64 >= count }
    }
}

// The first of the machines from one number on that has a turn, below another.
fn first_busy(plain: &Plain, from: usize, end: usize) -> Option<usize>
    requires end { end ≤ seats_of plain.now }
    requires orders { All (λ order. order ≡ Nothing) (orders_of plain.now) }
    ensures { IsFirstBusy plain.now from end result }
{
    for number in from..end {
        if plain.has_next(number) {
            return Some(number);
        }
    }
    None
}

// What is left of an item after an event of it.
fn item_after(item: Item) -> Item
    ensures { result ≡ left_of item }
{
    match item {
        Item::Steps { number, count } => Item::Steps {
            number,
            count: count.saturating_sub(1),
        },
        Item::Until { .. } | Item::Replies { .. } => item,
    }
}

// Whether an item lets the control make a step after one that waits.
fn wakes_control(item: Item) -> bool
    ensures { result ≡ wakes item }
{
    match item {
        Item::Replies { .. } => true,
        Item::Steps { .. } | Item::Until { .. } => false,
    }
}

impl Walk {
    ghost use Rattle.std.specs.Prelude.{is_some};
    ghost use Rattle.heap_words.specs.declared.config.Config.{Config};
    ghost use Rattle.heap_words.specs.Ranges.{seat_count};
    ghost use Rattle.step_core.specs.Schedule.{agenda_of};
    ghost use Rattle.shen_core.specs.Progress.{AllIdle};
    ghost use Rattle.shen_core.specs.Agendas.{agenda_in, agenda_after, weight_in, IsWalkOf, HasNoItem};
    ghost use Rattle.shen_core.specs.Nexts.{HasSameNext, HasNoNext, IsDueNext, MakesNext, SettlesNext, RunsOn};

    /// The walk before the first event of a schedule.
    pub fn open(schedule: Schedule) -> Walk
        ensures agenda { agenda_in result ≡ agenda_of schedule }
        ensures fits { (config : Config) → All (IsInSeats config) schedule → IsWalkOf config result }
    {
        Walk {
            schedule,
            begun: 0,
            present: None,
            control_due: false,
            from: 0,
        }
    }

    /// The items of the schedule.
    pub fn items(&self) -> &[Item]
        ensures { result.now ≡ self.now.schedule }
    {
        self.schedule.list()
    }

    /// How many items have begun.
    pub fn begun(&self) -> usize
        ensures { result ≡ self.now.begun }
    {
        self.begun
    }

    /// Whether an item is at work, the last that has begun; else it is the rounds.
    pub fn is_at_item(&self) -> bool
        ensures { result ≡ is_some self.now.present }
    {
        self.present.is_some()
    }

    // The item at work, which the next one is where there is none.
    fn item(&mut self) -> Option<Item>
        ensures agenda { agenda_in self.new ≡ agenda_in self.old }
        ensures present { self.new.present ≡ result }
        ensures none { result ≡ None → drop self.new.begun self.new.schedule ≡ [] }
        ensures control { self.new.control_due ≡ self.old.control_due }
        ensures schedule { self.new.schedule ≡ self.old.schedule }
        ensures from { self.new.from ≡ self.old.from }
        ensures fits { (config : Config) → IsWalkOf config self.old → IsWalkOf config self.new }
        ensures less { weight_in self.new ≤ weight_in self.old }
    {
        if self.present.is_none() && self.begun < self.schedule.list().len() {
            self.present = Some(self.schedule.list()[self.begun]);
            self.begun += 1;
        }
        self.present
    }

    // The machine of the next event of the items, where there is one.
    fn find_in_items(&mut self, plain: &Plain, work: &Work) -> Option<usize>
        requires run { CanRun plain.now work.now }
        requires walk { IsWalkOf (config_of plain.now) self.old }
        requires control { self.old.control_due ≡ false }
        ensures walk { IsWalkOf (config_of plain.now) self.new }
        ensures same { HasSameNext plain.now work.now (agenda_in self.old) (agenda_in self.new) }
        ensures due { IfSome result (λ number. IsDueNext plain.now work.now self.new number) }
        ensures none { result ≡ None → HasNoItem self.new }
    {
        while let Some(item) = self.item() {
            let number = machine_of(item);
            if !is_over(item, plain, work) && plain.has_next(number) {
                return Some(number);
            }
            self.present = None;
        }
        None
    }

    // The machine of the next event of the rounds, where there is one.
    fn find_in_rounds(&mut self, plain: &Plain, work: &Work) -> Option<usize>
        requires run { CanRun plain.now work.now }
        requires walk { IsWalkOf (config_of plain.now) self.old }
        requires none { HasNoItem self.old }
        ensures walk { IsWalkOf (config_of plain.now) self.new }
        ensures same { HasSameNext plain.now work.now (agenda_in self.old) (agenda_in self.new) }
        ensures due { IfSome result (λ number. IsDueNext plain.now work.now self.new number) }
        ensures none { result ≡ None → HasNoNext plain.now work.now (agenda_in self.new) }
        ensures idle { result ≡ None → AllIdle plain.now work.now }
    {
        let later = first_busy(plain, self.from, plain.seats());
        if let Some(number) = later {
            self.from = number;
            return later;
        }
        let sooner = first_busy(plain, 0, self.from);
        if let Some(number) = sooner {
            self.from = number;
        }
        sooner
    }

    // The control, where its step is due and it makes one.
    fn find_control(&mut self, plain: &Plain, work: &Work) -> Option<usize>
        requires run { CanRun plain.now work.now }
        requires walk { IsWalkOf (config_of plain.now) self.old }
        ensures walk { IsWalkOf (config_of plain.now) self.new }
        ensures same { HasSameNext plain.now work.now (agenda_in self.old) (agenda_in self.new) }
        ensures due { IfSome result (λ number. IsDueNext plain.now work.now self.new number) }
        ensures none { result ≡ None → self.new.control_due ≡ false }
    {
        if !self.control_due {
            return None;
        }
        let control = plain.seats() - 1;
        if plain.has_next(control) {
            return Some(control);
        }
        self.control_due = false;
        None
    }

    /// Finds the machine of the next event, which `next` makes: items that are done and machines that are idle are passed
    /// over. None where all machines are idle and nothing is left to do.
    pub fn find(&mut self, plain: &Plain, work: &Work) -> Option<usize>
        requires run { CanRun plain.now work.now }
        requires walk { IsWalkOf (config_of plain.now) self.old }
        ensures walk { IsWalkOf (config_of plain.now) self.new }
        ensures same { HasSameNext plain.now work.now (agenda_in self.old) (agenda_in self.new) }
        ensures due { IfSome result (λ number. IsDueNext plain.now work.now self.new number) }
        ensures none { result ≡ None → HasNoNext plain.now work.now (agenda_in self.new) }
        ensures idle { result ≡ None → AllIdle plain.now work.now }
    {
        let control = self.find_control(plain, work);
        if control.is_some() {
            return control;
        }
        let found = self.find_in_items(plain, work);
        if found.is_some() {
            return found;
        }
        self.find_in_rounds(plain, work)
    }

    // Takes down that the machine that was found has made its event, and whether it waits.
    fn note(&mut self, number: usize, waiting: bool)
        requires number { number < 1000 }
        requires rounds { self.old.control_due ≡ false → self.old.present ≡ None → drop self.old.begun self.old.schedule ≡ [] }
        ensures agenda { agenda_in self.new ≡ agenda_after self.old number waiting }
        ensures fits { (config : Config) → number < seat_count config.mutators config.helpers → IsWalkOf config self.old → IsWalkOf config self.new }
        ensures schedule { self.new.schedule ≡ self.old.schedule }
    {
        if self.control_due {
            self.control_due = false;
            return;
        }
        match self.present {
            Some(item) => {
                self.present = Some(item_after(item));
                self.control_due = waiting && wakes_control(item);
            }
            None => self.from = number + 1,
        }
    }

    /// Makes the next event of the schedule. None where there is none: all machines are idle then.
    pub fn next(&mut self, plain: &mut Plain, work: &mut Work) -> Option<Seen>
        requires run { CanRun plain.old work.old }
        requires walk { IsWalkOf (config_of plain.old) self.old }
        ensures run { CanRun plain.new work.new }
        ensures config { config_of plain.new ≡ config_of plain.old }
        ensures walk { IsWalkOf (config_of plain.new) self.new }
        ensures next { MakesNext plain.old work.old (agenda_in self.old) plain.new work.new (agenda_in self.new) result }
        ensures settles { IfSome result (λ seen. SettlesNext plain.old work.old (agenda_in self.old) seen.settles) }
        ensures none { result ≡ None → HasNoNext plain.new work.new (agenda_in self.new) }
        ensures idle { result ≡ None → AllIdle plain.new work.new }
    {
        let Some(number) = self.find(plain, work) else {
            return None;
        };
        let Some(seen) = turn_seen(plain, work, number) else {
            return None;
        };
        self.note(number, seen.said == Stepped::Again);
        Some(seen)
    }

    /// Makes so many events of the schedule, or fewer where it ends. How many were not made.
    pub fn skip(&mut self, plain: &mut Plain, work: &mut Work, count: u64) -> u64
        requires run { CanRun plain.old work.old }
        requires walk { IsWalkOf (config_of plain.old) self.old }
        ensures run { CanRun plain.new work.new }
        ensures config { config_of plain.new ≡ config_of plain.old }
        ensures walk { IsWalkOf (config_of plain.new) self.new }
        ensures events { RunsOn plain.old work.old (agenda_in self.old) count plain.new work.new (agenda_in self.new) result }
        ensures less { result ≤ count }
        ensures ended { 0 < result → HasNoNext plain.new work.new (agenda_in self.new) }
        ensures idle { 0 < result → AllIdle plain.new work.new }
    {
        let mut left = count;
        while left > 0 {
            match self.next(plain, work) {
                Some(_) => left -= 1,
                None => return left,
            }
        }
        left
    }
}
