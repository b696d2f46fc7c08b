ghost use Rattle.std.specs.Prelude.{ℕ, ◌≡◌, ◌+◌, ◌<◌, ◌≤◌, true, false, [], length, slice_set, All, IfSome};
ghost use Rattle.shen_graph.specs.Work.{replies_of, script_in};
ghost use Rattle.shen_core.specs.State.{config_of, words_of, machines_of, orders_of, order_at, machine_at, seats_of, has_turn, IsUnchanged};
ghost use Rattle.shen_graph.specs.declared.order.Order.TheVariants.{Nothing};
ghost use Rattle.shen_core.specs.Progress.{Jobs, CanRun, IsTurn, HasTurned, AllIdle, SomeBusy, HasNext, IsInSeats, agenda};
ghost use Rattle.heap_machines.specs.Inside.{is_inside_image};
ghost use Rattle.shen_core.specs.Halted.{AreHalted, words_left};
ghost use Rattle.shen_core.specs.Noting.{NotesTurn, RunsNoted, DoesNoted, EndsNoted, NotesSchedule, commands_in};
ghost use Rattle.step_core.specs.Schedule.{steps, until, replies, control, task_of, agenda_of};

use crate::plain::Plain;
use heap_machines::Stepped;
use heap_words::{Item, Place, Schedule};
use shen_graph::{History, Work};

/// How a run has ended.
#[derive(Clone, Copy)]
pub enum Ran {
    /// All machines are idle.
    Finished,
    /// So many steps were made as were allowed, and a machine is not idle.
    Unfinished,
}

impl Plain {
    ghost use Rattle.shen_core.specs.WholeRun.{RunsSchedule};

    // One turn of a machine: it goes on with its call, begins the next command of its script, or ends. It stands in the loop that calls
    // it, with all that a common step does, so that neither an access nor an answer goes by memory.
    #[inline(always)]
    fn turn(&mut self, work: &mut Work, number: usize) -> Stepped
        requires number { number < seats_of self.old }
        requires run { CanRun self.old work.old }
        ensures run { CanRun self.new work.new }
        ensures config { config_of self.new ≡ config_of self.old }
        ensures turned { HasTurned self.old work.old number self.new work.new result }
        ensures idle { result ≡ Stepped.Idle → IsUnchanged self.old self.new }
        ensures idle_work { result ≡ Stepped.Idle → work.new ≡ work.old }
        ensures notes { NotesTurn self.old work.old number self.new }
    {
        if self.is_halted(number) {
            return Stepped::Again;
        }
        if !self.order_noted(work, number) {
            return Stepped::Idle;
        }
        let stepped = self.step(number);
        if let Stepped::Done = stepped {
            work.told(number, self.reply(number));
        }
        stepped
    }

    // One turn of the control that goes from a word of the image to the next one.
    fn turn_inside_image(&mut self, work: &Work, number: usize)
        requires number { number < seats_of self.old }
        requires inside { is_inside_image (config_of self.old) (machine_at self.old number) ≡ true }
        requires run { CanRun self.old work.now }
        ensures run { CanRun self.new work.now }
        ensures config { config_of self.new ≡ config_of self.old }
        ensures turned { HasTurned self.old work.now number self.new work.now Stepped.More }
        ensures notes { NotesTurn self.old work.now number self.new }
        ensures halted { (waiting : ℕ) → AreHalted self.old number waiting → AreHalted self.new number waiting }
        ensures left { words_left self.new number + 1 ≡ words_left self.old number }
    {
        self.note_next(number);
        self.step_inside_image(number);
    }

    // One turn of a machine, by the shortest way where it is the control inside an image.
    fn short_turn(&mut self, work: &mut Work, number: usize) -> Stepped
        requires number { number < seats_of self.old }
        requires run { CanRun self.old work.old }
        ensures run { CanRun self.new work.new }
        ensures config { config_of self.new ≡ config_of self.old }
        ensures turned { HasTurned self.old work.old number self.new work.new result }
        ensures notes { NotesTurn self.old work.old number self.new }
    {
        if !self.is_inside_image(number) {
            return self.turn(work, number);
        }
        self.turn_inside_image(work, number);
        Stepped::More
    }

    // Steps of one machine: so many, or fewer if it becomes idle or no more are left. What is left then.
    fn run_steps(&mut self, work: &mut Work, number: usize, count: u64, limit: u64) -> u64
        requires number { number < seats_of self.old }
        requires run { CanRun self.old work.old }
        ensures run { CanRun self.new work.new }
        ensures config { config_of self.new ≡ config_of self.old }
        ensures task { DoesNoted self.old work.old (steps number count) limit self.new work.new result }
    {
        let mut left = limit;
        let mut wanted = count;
        while wanted > 0 && left > 0 {
            if let Stepped::Idle = self.short_turn(work, number) {
                return left;
            }
            wanted -= 1;
            left -= 1;
        }
        left
    }

    // Steps of one machine until its next access stands at the place, it is idle, or no more are left. What is left then.
    fn run_until(&mut self, work: &mut Work, number: usize, place: Place, limit: u64) -> u64
        requires number { number < seats_of self.old }
        requires run { CanRun self.old work.old }
        ensures run { CanRun self.new work.new }
        ensures config { config_of self.new ≡ config_of self.old }
        ensures task { DoesNoted self.old work.old (until number place) limit self.new work.new result }
    {
        let mut left = limit;
        while left > 0 && !self.is_at_place(work, number, place) {
            if let Stepped::Idle = self.short_turn(work, number) {
                return left;
            }
            left -= 1;
        }
        left
    }

    // Steps of a mutator until it has given so many replies, it is idle, or no more are left; after each step that waits
    // the control makes one. What is left then.
    fn run_replies(&mut self, work: &mut Work, number: usize, count: u64, limit: u64) -> u64
        requires number { number < (config_of self.old).mutators }
        requires run { CanRun self.old work.old }
        ensures run { CanRun self.new work.new }
        ensures config { config_of self.new ≡ config_of self.old }
        ensures task { DoesNoted self.old work.old (replies number count) limit self.new work.new result }
    {
        let mut left = limit;
        while left > 0 && (work.replies(number).list().len() as u64) < count {
            match self.turn(work, number) {
                Stepped::Idle => return left,
                Stepped::Again => left = self.run_control(work, left - 1),
                _ => left -= 1,
            }
        }
        left
    }

    // One step of the control, if it is not idle and one is left. What is left then.
    fn run_control(&mut self, work: &mut Work, left: u64) -> u64
        requires { CanRun self.old work.old }
        ensures run { CanRun self.new work.new }
        ensures config { config_of self.new ≡ config_of self.old }
        ensures less { result ≤ left }
        ensures task { DoesNoted self.old work.old control left self.new work.new result }
    {
        if left == 0 {
            return left;
        }
        let control = self.seats() - 1;
        match self.short_turn(work, control) {
            Stepped::Idle => left,
            _ => left - 1,
        }
    }

    // An item of a schedule, as far as there are steps left. What is left then.
    fn run_item(&mut self, work: &mut Work, item: Item, left: u64) -> u64
        requires item { IsInSeats (config_of self.old) item }
        requires run { CanRun self.old work.old }
        ensures run { CanRun self.new work.new }
        ensures config { config_of self.new ≡ config_of self.old }
        ensures task { DoesNoted self.old work.old (task_of item) left self.new work.new result }
    {
        match item {
            Item::Steps { number, count } => self.run_steps(work, number, count, left),
            Item::Until { number, place } => self.run_until(work, number, place, left),
            Item::Replies { number, count } => self.run_replies(work, number, count, left),
        }
    }

    /// Whether any machine would make a step on its turn.
    pub fn any_next(&self) -> bool
        requires { All (λ order. order ≡ Nothing) (orders_of self.now) }
        ensures idle { result ≡ false → (jobs : Jobs) → AllIdle self.now jobs }
        ensures busy { result ≡ true → (jobs : Jobs) → SomeBusy self.now jobs }
    {
        for number in 0..self.seats() {
            if self.has_next(number) {
                return true;
            }
        }
        false
    }

    // One round: each machine that is not idle makes a step, as long as there are steps left. What is left then.
    fn run_round(&mut self, work: &mut Work, limit: u64) -> u64
        requires { CanRun self.old work.old }
        ensures run { CanRun self.new work.new }
        ensures config { config_of self.new ≡ config_of self.old }
        ensures less { result ≤ limit }
        ensures round { RunsNoted self.old work.old (agenda [] 0) limit self.new work.new (agenda [] 0) result }
        ensures idle { result ≡ limit → 0 < limit → AllIdle self.new work.new }
    {
        let mut left = limit;
        let seats = self.seats();
        for number in 0..seats {
            if left == 0 {
                return left;
            }
            match self.turn(work, number) {
                Stepped::Idle => {}
                _ => left -= 1,
            }
        }
        left
    }

    // How many of the machines before this one wait for the end of a pause that goes on. None where another of them moves.
    fn count_halted(&self, control: usize) -> Option<u64>
        requires number { control < seats_of self.now }
        requires orders { All (λ order. order ≡ Nothing) (orders_of self.now) }
        ensures { IfSome result (λ waiting. AreHalted self.now control waiting) }
    {
        let mut waiting = 0;
        for number in 0..control {
            if self.is_halted(number) {
                waiting += 1;
            } else if self.may_move(number) {
                return None;
            }
        }
        Some(waiting)
    }

    // Whole rounds in which only the control moves, from word to word of the image, and all others wait for the end of its pause or
    // are idle: as many as there are, and as there are steps left for. What is left then.
    fn run_pause(&mut self, work: &Work, limit: u64) -> u64
        requires { CanRun self.old work.now }
        ensures run { CanRun self.new work.now }
        ensures config { config_of self.new ≡ config_of self.old }
        ensures less { result ≤ limit }
        ensures rounds { RunsNoted self.old work.now (agenda [] 0) limit self.new work.now (agenda [] 0) result }
    {
        let control = self.seats() - 1;
        let mut words = self.words_left(control);
        if words == 0 {
            return limit;
        }
        let Some(waiting) = self.count_halted(control) else {
            return limit;
        };
        let mut left = limit;
        while left > waiting && words > 0 {
            self.turn_inside_image(work, control);
            left -= waiting + 1;
            words -= 1;
        }
        left
    }

    // Rounds until all machines are idle or no more steps are left.
    fn run_rounds(&mut self, work: &mut Work, limit: u64) -> Ran
        requires { CanRun self.old work.old }
        ensures run { CanRun self.new work.new }
        ensures config { config_of self.new ≡ config_of self.old }
        ensures ends { EndsNoted self.old work.old (agenda [] 0) limit self.new work.new result }
    {
        let mut left = limit;
        loop {
            if left == 0 {
                return if self.any_next() {
                    Ran::Unfinished
                } else {
                    Ran::Finished
                };
            }
            let before = left;
            left = self.run_round(work, before);
            if left == before {
                return Ran::Finished;
            }
            left = self.run_pause(work, left);
        }
    }

    /// Runs the items of a schedule and then rounds, in which the machines take turns by their numbers and idle ones are
    /// passed over, until all machines are idle or so many steps were made. A mutator between two calls begins the next
    /// command of its script in `work`, where the replies are noted, and ends where there is none; the control ends when all
    /// mutators have.
    pub fn run(&mut self, work: &mut Work, schedule: &Schedule, steps: u64) -> Ran
        requires run { CanRun self.old work.old }
        requires items { All (IsInSeats (config_of self.old)) schedule.now }
        ensures run { CanRun self.new work.new }
        ensures config { config_of self.new ≡ config_of self.old }
        ensures events { RunsSchedule self.old work.old schedule.now steps self.new work.new result }
    {
        self.run_agenda(work, schedule, steps)
    }

    /// Runs as `run` does, and adds to the history the entry that each step settles, in the order of the steps: at the access by
    /// which a call takes effect, and not where its reply is given. It takes no memory.
    pub fn run_noted(
        &mut self,
        work: &mut Work,
        schedule: &Schedule,
        steps: u64,
        history: &mut History,
    ) -> Ran
        requires run { CanRun self.old work.old }
        requires items { All (IsInSeats (config_of self.old)) schedule.now }
        requires spare { commands_in (config_of self.old) work.old ≤ history.old.spare }
        ensures run { CanRun self.new work.new }
        ensures config { config_of self.new ≡ config_of self.old }
        ensures events { RunsSchedule self.old work.old schedule.now steps self.new work.new result }
        ensures history { NotesSchedule self.old work.old schedule.now steps history.old history.new }
    {
        self.swap_notes(history);
        let ran = self.run_agenda(work, schedule, steps);
        self.within_scripts(work);
        self.swap_notes(history);
        ran
    }

    // Runs the items of a schedule and then rounds, and notes what is settled as long as there is memory for it.
    fn run_agenda(&mut self, work: &mut Work, schedule: &Schedule, steps: u64) -> Ran
        requires run { CanRun self.old work.old }
        requires items { All (IsInSeats (config_of self.old)) schedule.now }
        ensures run { CanRun self.new work.new }
        ensures config { config_of self.new ≡ config_of self.old }
        ensures events { EndsNoted self.old work.old (agenda_of schedule.now) steps self.new work.new result }
    {
        let mut left = steps;
        for item in schedule.list() {
            left = self.run_item(work, *item, left);
        }
        self.run_rounds(work, left)
    }

    // No mutator has more replies than commands, as the work knows.
    fn within_scripts(&self, work: &Work)
        requires { CanRun self.now work.now }
        ensures { (mutator : ℕ) → mutator < (config_of self.now).mutators → length (replies_of work.now mutator) ≤ length (script_in work.now mutator) }
    {
        for mutator in 0..self.config().mutators() {
            let _ = work.next(mutator);
        }
    }
}
