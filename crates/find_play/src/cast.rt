//! The threads of a test, and what they do.
ghost use Rattle.std.specs.Prelude.{◌≡◌, ◌<◌, [], None, Ok, true, false, length, replicate, slice_index_or, slice_set, IfOk, IfSome};
ghost use Rattle.shen_graph.specs.Noting.{seen};
ghost use Rattle.find_play.specs.Plays.{KeepsOn, StepsOn, Begun, IsPlay, IsNotItsCommand, IsNoPlay, opening, start};
ghost use Rattle.find_play.specs.Scenes.{scene, IsNextEntry};

use crate::{Next, Program, Statement, Test, Thread};
use heap_words::NoMemory;
use shen_graph::{Entry, History, Reply};
use std::alloc::Global;

/// The threads of a test at one moment, counted from 0: where each stands, what it does there, and what the notes hold.
#[derive(Drop)]
pub struct Cast {
    threads: [Thread; 8],
    acts: [Next; 8],
    notes: Vec<Option<Reply>>,
}

// Puts a reply under a note.
fn keep(notes: &mut [Option<Reply>], note: usize, reply: Option<Reply>)
    ensures { notes.new ≡ slice_set notes.old note reply }
{
    if note < notes.len() {
        notes[note] = reply;
    }
}

// Goes on with a thread, up to what is no keeping. What it keeps is noted.
fn go_on(
    program: &[Statement],
    reply: Option<Reply>,
    thread: &mut Thread,
    notes: &mut [Option<Reply>],
) -> Next
    ensures { KeepsOn program.now reply thread.old notes.old result thread.new notes.new }
{
    'keeps: loop {
        match thread.next(program, reply) {
            Next::Keep(note) => keep(notes, note, reply),
            Next::Command(command) => return Next::Command(command),
            Next::Done => return Next::Done,
            Next::TooLong => return Next::TooLong,
        }
    }
}

// The program of a thread; one that has none does nothing.
fn program_of(programs: &[Program], number: usize) -> &[Statement]
    ensures { result.now ≡ slice_index_or programs.now number [] }
{
    if number < programs.len() {
        programs[number].list()
    } else {
        &[]
    }
}

// So many notes without a reply.
fn empty_notes(alloc: Global, count: usize) -> Result<Vec<Option<Reply>>, NoMemory>
    ensures { IfOk result (λ notes. notes.items ≡ replicate count None) }
{
    match vec![in alloc; None; count] {
        Ok(notes) => Ok(notes),
        Err(_) => Err(NoMemory),
    }
}

impl Cast {
    // The threads of a test before anything was done.
    fn opening(alloc: Global, returns: u64, notes: usize) -> Result<Cast, NoMemory>
        ensures { IfOk result (λ cast. scene cast ≡ opening returns notes) }
    {
        Ok(Cast {
            threads: [Thread::start(returns); 8],
            acts: [Next::Done; 8],
            notes: empty_notes(alloc, notes)?,
        })
    }

    // A thread goes on with its last reply.
    fn step(&mut self, programs: &[Program], number: usize, reply: Option<Reply>)
        requires { number < 8 }
        ensures { StepsOn programs.now number reply (scene self.old) (scene self.new) }
    {
        let mut thread = self.threads[number];
        let next = go_on(
            program_of(programs, number),
            reply,
            &mut thread,
            &mut self.notes,
        );
        self.threads[number] = thread;
        self.acts[number] = next;
    }

    /// The threads of a test, each of which has begun.
    pub fn open(alloc: Global, test: &Test) -> Result<Cast, NoMemory>
        ensures { IfOk result (λ cast. Begun test.now.programs.items (opening test.now.bounds.returns (length test.now.notes)) 8 (scene cast)) }
    {
        let mut cast = Cast::opening(alloc, test.bounds.returns, test.notes.len())?;
        for number in 0..8 {
            cast.step(&test.programs, number, None);
        }
        Ok(cast)
    }

    /// What a thread does, counted from 0.
    pub fn act(&self, number: usize) -> Next
        ensures { result ≡ slice_index_or self.now.acts number Next.Done }
    {
        if number < 8 {
            self.acts[number]
        } else {
            Next::Done
        }
    }

    /// How often a thread, counted from 0, may still go back to the beginning of a loop.
    pub fn left(&self, number: usize) -> u64
        ensures { number < 8 → result ≡ (slice_index_or self.now.threads number (start 0)).left }
    {
        if number < 8 {
            self.threads[number].left
        } else {
            0
        }
    }

    /// What the notes hold.
    pub fn notes(&self) -> &[Option<Reply>]
        ensures { result.now ≡ self.now.notes.items }
    {
        &self.notes
    }

    /// The command of a thread, which is counted from 1, was answered, and it goes on. Whether this was its command; where it was not,
    /// nothing is done.
    pub fn answer(&mut self, programs: &[Program], entry: Entry) -> bool
        ensures answers { result ≡ true → IsNextEntry programs.now (seen entry) (scene self.old) (scene self.new) }
        ensures refused { result ≡ false → IsNotItsCommand (scene self.old) (seen entry) }
        ensures kept { result ≡ false → self.new ≡ self.old }
    {
        if entry.thread == 0 {
            return false;
        }
        let number = entry.thread as usize - 1;
        match self.act(number) {
            Next::Command(command) if number < 8 && command == entry.command => {
                self.step(programs, number, Some(entry.reply));
                true
            }
            _ => false,
        }
    }
}

/// The threads of a test behind a history. None where an entry of it is not the command that its thread is to give there.
pub fn played(alloc: Global, test: &Test, history: &History) -> Result<Option<Cast>, NoMemory>
    ensures some { IfOk result (λ found. IfSome found (λ cast. IsPlay test.now.programs.items test.now.bounds.returns (length test.now.notes) history.now.list (scene cast))) }
    ensures none { result ≡ Ok None → IsNoPlay test.now.programs.items test.now.bounds.returns (length test.now.notes) history.now.list }
{
    let mut cast = Cast::open(alloc, test)?;
    for at in 0..history.len() {
        if !cast.answer(&test.programs, history.entry(at)) {
            return Ok(None);
        }
    }
    Ok(Some(cast))
}
