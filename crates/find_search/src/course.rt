//! A run of a test, made step by step: each thread gives the command that its program gives by the replies so far.
ghost use Rattle.shen_core.specs.Progress.{CanRun};
ghost use Rattle.find_search.specs.Lone.{can_run_props};

use crate::handing::{empty_scripts, hand_over};
use crate::mixing::{mixed, name_sum, reply_sum};
use find_play::{Cast, Next, Test, Verdict, broken};
use heap_words::{Access, NoMemory, Place};
use shen_core::{Plain, Seen, Stepped, turn_seen};
use shen_graph::{Command, GraphText, History, Reply, Work};
use std::alloc::Global;

/// The most machines of a heap: eight mutators, three helpers, and the control.
pub const SEATS: usize = 12;

/// The most objects that a thread may have made before another command: names are left for what the command may make.
const MOST_MADE: u32 = 4_000_000_000;

/// Whether a machine has found nothing to do.
#[derive(Clone, Copy, PartialEq, Eq)]
enum Halt {
    /// It goes on.
    Awake,
    /// It waits until the word at this index is another one.
    AtWord { at: usize, found: u64 },
    /// It waits until another machine changes a word.
    Dozing,
}

/// A run of a test, up to some step. Machines are counted from 0: the mutators, the helpers, the control.
#[derive(Drop)]
pub struct Course {
    plain: Plain,
    // The command of each mutator that comes next, or that is in progress.
    work: Work,
    cast: Cast,
    history: History,
    halts: [Halt; 12],
    // Who has gone back to the beginning of a loop since each of the others went on.
    back: [bool; 12],
    // How often each mutator could go back to the beginning of a loop when its call began.
    returns: [u64; 12],
    // Each mutator's replies.
    replies: [u64; 12],
    steps: u64,
    // By the words of the table; by what each machine has found; by the replies of each thread; by the notes.
    words_sum: u64,
    found_sums: [u64; 12],
    reply_sums: [u64; 12],
    notes_sum: u64,
    ghost can_run: { CanRun plain work } by { Prim.hlevel can_run_props },
}

impl Course {
    ghost use Rattle.std.specs.Prelude.{◌≡◌, true, IfSome};
    ghost use Rattle.shen_graph.specs.Valid.{IsValid};
    ghost use Rattle.find_search.specs.Courses.{machines_in, mutators_in, HasControlEnded, IsResting, DoMutatorsRest};

    /// Before the first step.
    pub fn open(alloc: Global, test: &Test) -> Result<Course, NoMemory> {
        let mutators = test.config.mutators();
        let Ok(work) = Work::of(alloc, empty_scripts(alloc, mutators)?) else {
            return Err(NoMemory);
        };
        let Ok(history) = History::open(alloc) else {
            return Err(NoMemory);
        };
        let mut course = Course {
            plain: Plain::open(alloc, test.config)?,
            work,
            cast: Cast::open(alloc, test)?,
            history,
            halts: [Halt::Awake; 12],
            back: [false; 12],
            returns: [0; 12],
            replies: [0; 12],
            steps: 0,
            words_sum: 0,
            found_sums: [0; 12],
            reply_sums: [0; 12],
            notes_sum: 0,
        };
        for mutator in 0..mutators {
            course.go_on(alloc, mutator)?;
        }
        Ok(course)
    }

    // Gives a mutator whose last command was answered its next one, or none where it has nothing more to do.
    fn go_on(&mut self, alloc: Global, mutator: usize) -> Result<(), NoMemory> {
        if mutator >= 8 || mutator >= self.mutators() {
            return Ok(());
        }
        let made = self.plain.made(mutator);
        if made >= MOST_MADE {
            return Ok(());
        }
        match self.work.next(mutator) {
            Some(_) => Ok(()),
            None => {
                let next = self.next(mutator);
                hand_over(alloc, &mut self.work, mutator, next)?;
                self.returns[mutator] = self.cast.left(mutator);
                Ok(())
            }
        }
    }

    /// The command that a mutator gives next, once its call in progress has ended.
    pub fn next(&self, mutator: usize) -> Option<Command>
        ensures valid { IfSome result (λ command. IsValid command) }
    {
        match self.cast.act(mutator) {
            Next::Command(command) if command.is_valid() => Some(command),
            _ => None,
        }
    }

    /// How many steps were made.
    pub fn steps(&self) -> u64 {
        self.steps
    }

    /// How many machines there are.
    pub fn seats(&self) -> usize
        ensures { result ≡ machines_in self.now }
    {
        self.plain.seats()
    }

    /// How many mutators there are.
    pub fn mutators(&self) -> usize
        ensures { result ≡ mutators_in self.now }
    {
        self.plain.config().mutators()
    }

    /// How many replies a mutator has given.
    pub fn replies(&self, mutator: usize) -> u64 {
        if mutator < SEATS {
            self.replies[mutator]
        } else {
            0
        }
    }

    /// Whether a machine has a step to make.
    pub fn has_next(&self, number: usize) -> bool {
        number < self.seats() && self.plain.has_next(number)
    }

    /// Whether the machine's next access, on its turn, stands at the place.
    pub fn is_at_place(&self, number: usize, place: Place) -> bool {
        number < self.seats() && self.plain.is_at_place(&self.work, number, place)
    }

    /// The place of the machine's next access, in a call or a round.
    pub fn place(&self, number: usize) -> Option<Place> {
        if number < self.seats() {
            self.plain.place(number)
        } else {
            None
        }
    }

    // The word at an index of the table; 0 where there is none.
    fn word(&self, at: usize) -> u64 {
        if at < self.plain.config().table_words() {
            self.plain.word(at)
        } else {
            0
        }
    }

    /// Whether a machine has a step to make, and does not wait.
    pub fn is_awake(&self, number: usize) -> bool {
        if number >= SEATS || !self.has_next(number) {
            return false;
        }
        match self.halts[number] {
            Halt::Awake => true,
            Halt::AtWord { at, found } => self.word(at) != found,
            Halt::Dozing => false,
        }
    }

    /// Whether a mutator waits, so that the control has to run.
    pub fn somebody_waits(&self) -> bool {
        let mutators = self.mutators();
        for (number, halt) in self.halts.iter().enumerate() {
            if let Halt::AtWord { at, found } = *halt {
                if number < mutators && self.word(at) == found {
                    return true;
                }
            }
        }
        false
    }

    /// Whether all mutators have ended.
    pub fn is_over(&self) -> bool {
        for number in 0..self.mutators() {
            if self.has_next(number) {
                return false;
            }
        }
        true
    }

    /// Whether the machine has gone back to the beginning of a loop, and has to let others go first.
    pub fn is_back(&self, number: usize) -> bool {
        number < SEATS && self.back[number]
    }

    /// Lets all machines go on that had to let others go first.
    pub fn forget_back(&mut self) {
        self.back = [false; 12];
    }

    /// Wakes all machines that doze. Whether there was one.
    pub fn wake(&mut self) -> bool {
        let mut woken = false;
        for number in 0..SEATS {
            if self.halts[number] == Halt::Dozing {
                self.halts[number] = Halt::Awake;
                woken = true;
            }
        }
        woken
    }

    // Whether the machine stands at this place, and its next access is of the word at this index.
    fn stands_at(&self, number: usize, place: Place, at: usize) -> bool {
        if number >= self.seats() {
            return false;
        }
        match self.plain.place(number) {
            Some(here) => here.is(place) && self.plain.plan(number).at() == at,
            None => false,
        }
    }

    // How the machine goes on after this event.
    fn halt_after(&self, seen: &Seen) -> Halt {
        let Access::Load { at } = seen.access else {
            return Halt::Awake;
        };
        if seen.said != Stepped::Again {
            return Halt::Awake;
        }
        if self.stands_at(seen.number, seen.place, at) {
            Halt::AtWord {
                at,
                found: seen.found,
            }
        } else {
            Halt::Dozing
        }
    }

    // Takes the event into the sums, and wakes who waits for a change.
    fn sum_up(&mut self, seen: &Seen) {
        let at = seen.access.at();
        let after = self.word(at);
        let number = seen.number;
        if number < SEATS {
            self.found_sums[number] = mixed(self.found_sums[number], mixed(at as u64, seen.found));
        }
        if after != seen.found {
            let index = at as u64;
            self.words_sum ^= mixed(index, seen.found) ^ mixed(index, after);
            self.wake();
        }
    }

    // Notes an entry of the history, by which its thread goes on.
    fn settle(&mut self, alloc: Global, test: &Test, seen: &Seen) -> Result<(), NoMemory> {
        let Some(entry) = seen.settles else {
            return Ok(());
        };
        let Ok(()) = self
            .history
            .push(alloc, entry.thread, entry.command, entry.reply)
        else {
            return Err(NoMemory);
        };
        self.cast.answer(&test.programs, entry);
        let thread = entry.thread as usize;
        if thread < SEATS {
            self.reply_sums[thread] = mixed(self.reply_sums[thread], reply_sum(entry.reply));
        }
        self.notes_sum = notes_sum(self.cast.notes());
        Ok(())
    }

    /// One step of a machine. None where it has none to make.
    pub fn step(
        &mut self,
        alloc: Global,
        test: &Test,
        number: usize,
    ) -> Result<Option<Seen>, NoMemory> {
        if number >= SEATS || number >= self.seats() {
            return Ok(None);
        }
        let Some(seen) = turn_seen(&mut self.plain, &mut self.work, number) else {
            return Ok(None);
        };
        self.steps = self.steps.saturating_add(1);
        self.sum_up(&seen);
        self.back[number] = false;
        self.halts[number] = self.halt_after(&seen);
        self.settle(alloc, test, &seen)?;
        if seen.said == Stepped::Done {
            self.replies[number] = self.replies[number].saturating_add(1);
            self.back[number] = self.cast.left(number) < self.returns[number];
            self.go_on(alloc, number)?;
        }
        Ok(Some(seen))
    }

    /// The sum of the state: of all words, of what each machine has found, of the notes, and of who waits or lets others go first.
    pub fn state_sum(&self) -> u64 {
        let mut sum = mixed(self.words_sum, self.notes_sum);
        for number in 0..SEATS {
            sum = mixed(sum, self.found_sums[number]);
            let dozes = self.halts[number] == Halt::Dozing;
            sum = mixed(sum, self.back[number] as u64 * 2 + dozes as u64);
        }
        sum
    }

    // The first thread that would go back to the beginning of a loop once more than it may, counted from 1.
    fn stuck(&self) -> Option<usize> {
        for number in 0..8 {
            if self.cast.act(number) == Next::TooLong {
                return Some(number + 1);
            }
        }
        None
    }

    // Lets the helpers and the control end, in so many rounds at most.
    fn end(&mut self, alloc: Global, test: &Test, rounds: u64) -> Result<(), NoMemory> {
        for _ in 0..rounds {
            if self.has_control_ended() {
                return Ok(());
            }
            for number in 0..self.seats() {
                let _ = self.step(alloc, test, number)?;
            }
        }
        Ok(())
    }

    // Whether the control has ended.
    fn has_control_ended(&self) -> bool
        ensures { result ≡ true → HasControlEnded self.now }
    {
        match self.plain.place(self.seats() - 1) {
            None => true,
            Some(_) => false,
        }
    }

    // Whether a mutator has no call in progress: its last command was answered.
    fn is_resting(&self, mutator: usize) -> bool
        ensures { result ≡ true → IsResting self.now mutator }
    {
        if mutator >= self.mutators() {
            return false;
        }
        match self.work.next(mutator) {
            None => true,
            Some(_) => false,
        }
    }

    // Whether no mutator has a call in progress.
    fn do_mutators_rest(&self) -> bool
        ensures { result ≡ true → DoMutatorsRest self.now }
    {
        for mutator in 0..self.mutators() {
            if !self.is_resting(mutator) {
                return false;
            }
        }
        true
    }

    // The graph that is left, once no mutator has a call in progress and the control has ended. None before.
    fn graph(&mut self, alloc: Global) -> Result<Option<GraphText>, NoMemory> {
        if !self.do_mutators_rest() || !self.has_control_ended() {
            return Ok(None);
        }
        let config = self.plain.config();
        let Ok(mut text) = GraphText::open(alloc, config.heap_size(), config.mutators()) else {
            return Err(NoMemory);
        };
        self.plain.graph(&mut text);
        Ok(Some(text))
    }

    // The verdict, by the graph that is left.
    fn verdict(&self, alloc: Global, test: &Test, text: &GraphText) -> Result<Verdict, NoMemory> {
        let notes = self.cast.notes();
        let first = broken(
            alloc,
            &test.places,
            &test.claims,
            notes,
            &self.history,
            text,
        )?;
        Ok(match (self.stuck(), first) {
            (Some(number), _) => Verdict::Stuck(number),
            (None, Some(assertion)) => Verdict::Fails(assertion),
            (None, None) => Verdict::Holds,
        })
    }

    /// How a run ended whose mutators have all ended. None where the control has not ended within so many rounds.
    pub fn ending(
        &mut self,
        alloc: Global,
        test: &Test,
        rounds: u64,
    ) -> Result<Option<Ending>, NoMemory> {
        self.end(alloc, test, rounds)?;
        let Some(text) = self.graph(alloc)? else {
            return Ok(None);
        };
        let verdict = self.verdict(alloc, test, &text)?;
        let stuck = match verdict {
            Verdict::Stuck(number) => number as u64,
            Verdict::Holds | Verdict::Fails(_) => 0,
        };
        let outcome = mixed(mixed(self.notes_sum, graph_sum(&text)), stuck);
        let mut history = outcome;
        for sum in self.reply_sums {
            history = mixed(history, sum);
        }
        Ok(Some(Ending {
            verdict,
            outcome,
            history,
        }))
    }
}

/// How a run of a test ended.
#[derive(Clone, Copy)]
pub struct Ending {
    /// The verdict on it.
    pub verdict: Verdict,
    /// By what the notes hold and the graph is.
    pub outcome: u64,
    /// By the replies of each thread besides.
    pub history: u64,
}

// The sum of what notes hold.
fn notes_sum(notes: &[Option<Reply>]) -> u64 {
    let mut sum = 0;
    for note in notes {
        let next = match note {
            Some(reply) => reply_sum(*reply),
            None => 9,
        };
        sum = mixed(sum, next);
    }
    sum
}

// The sum of a graph: of its objects and what they hold.
fn graph_sum(text: &GraphText) -> u64 {
    let mut sum = 0;
    for row in 0..text.rows() {
        sum = mixed(sum, name_sum(Some(text.name_at(row))));
        for field in 0..text.refs_at(row) {
            sum = mixed(sum, name_sum(text.reference_at(row, field)));
        }
        for index in 0..text.nums_at(row) {
            sum = mixed(sum, text.number_at(row, index));
        }
    }
    sum
}
