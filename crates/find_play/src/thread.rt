//! How a thread of a test goes on.
ghost use Rattle.std.specs.Prelude.{◌≡◌, ◌+◌, ◌<◌, ◌≤◌, ℕ, length, drop, IfSome};
ghost use Rattle.find_play.specs.Meaning.{fits_last, depth_after, after, move_at, Runs};

use crate::statement::Statement;
use crate::wanted::Wanted;
use shen_graph::{Command, Reply};

/// What a thread of a test does next.
#[derive(Clone, Copy, PartialEq, Eq)]
pub enum Next {
    /// It gives this command.
    Command(Command),
    /// It notes the last reply under this note, counted from 0.
    Keep(usize),
    /// It has nothing more to do.
    Done,
    /// It would go back to the beginning of a loop once more than it may.
    TooLong,
}

/// What is left behind: a loop, or a part of an `If`.
#[derive(Clone, Copy)]
pub enum Part {
    /// A loop, up to its `Again`.
    Loop,
    /// A part of an `If`, up to its `Else` or `End`.
    If,
}

/// What one statement makes a thread do. Statements are numbered from 0.
#[derive(Clone, Copy)]
pub enum Move {
    /// It goes on with a later statement.
    Goes(usize),
    /// It goes back to the beginning of a loop.
    Back(usize),
    /// It does this, and then goes on with that statement.
    Gives(Next, usize),
}

/// Where a thread of a test stands in its program.
#[derive(Clone, Copy)]
pub struct Thread {
    /// The number of the statement that comes next, counted from 0.
    pub at: usize,
    /// How often it may still go back to the beginning of a loop.
    pub left: u64,
}

/// Whether there is a last reply, and it is such.
fn fits_last(wanted: Wanted, reply: Option<Reply>) -> bool
    ensures { result ≡ fits_last wanted reply }
{
    match reply {
        Some(reply) => wanted.fits(reply),
        None => false,
    }
}

/// How many parts are open inside the one that is left, behind this statement. None: the part itself ends with it.
fn depth_after(part: Part, depth: usize, statement: Statement) -> Option<usize>
    requires { depth + 1 < 18446744073709551616 }
    ensures depth { result ≡ depth_after part depth statement }
    ensures near { IfSome result (λ inner. inner ≤ depth + 1) }
{
    match (part, statement) {
        (Part::Loop, Statement::Loop) | (Part::If, Statement::If(_)) => Some(depth + 1),
        (Part::Loop, Statement::Again { .. }) | (Part::If, Statement::End) => depth.checked_sub(1),
        (Part::If, Statement::Else) if depth == 0 => None,
        _ => Some(depth),
    }
}

/// The number of the statement behind the one that ends a part, of which the statement `from` is the next; behind the
/// last one where none ends it.
fn behind(part: Part, program: &[Statement], from: usize) -> usize
    requires { from ≤ length program.now }
    ensures behind { result ≡ from + after part 0 (drop from program.now) }
    ensures inside { result ≤ length program.now }
    ensures later { from ≤ result }
{
    let mut at = from;
    let mut depth = 0;
    'statements: while at < program.len() {
        match depth_after(part, depth, program[at]) {
            None => return at + 1,
            Some(inner) => depth = inner,
        }
        at += 1;
    }
    at
}

/// What the statement `at` makes a thread do.
fn move_at(program: &[Statement], reply: Option<Reply>, at: usize) -> Move
    ensures moves { result ≡ move_at program.now reply at }
    ensures later { (to : ℕ) → result ≡ Move.Goes to → (at < to) × (at < length program.now) }
{
    if at >= program.len() {
        return Move::Gives(Next::Done, at);
    }
    match program[at] {
        Statement::Run(command) => Move::Gives(Next::Command(command), at + 1),
        Statement::Keep { note } => Move::Gives(Next::Keep(note), at + 1),
        Statement::Until(wanted) if fits_last(wanted, reply) => {
            Move::Goes(behind(Part::Loop, program, at + 1))
        }
        Statement::If(wanted) if !fits_last(wanted, reply) => {
            Move::Goes(behind(Part::If, program, at + 1))
        }
        Statement::Else => Move::Goes(behind(Part::If, program, at + 1)),
        Statement::Again { first } => Move::Back(first),
        Statement::Loop | Statement::Until(_) | Statement::If(_) | Statement::End => {
            Move::Goes(at + 1)
        }
    }
}

impl Thread {
    /// At the beginning of a program, where it may go back to the beginning of a loop so often in all.
    pub fn start(returns: u64) -> Thread
        ensures at { result.at ≡ 0 }
        ensures left { result.left ≡ returns }
    {
        Thread {
            at: 0,
            left: returns,
        }
    }

    /// What it does next, where its last command got this reply, if it gave one. After `Done` and `TooLong` it stays where
    /// it is.
    pub fn next(&mut self, program: &[Statement], reply: Option<Reply>) -> Next
        ensures { Runs program.now reply self.old result self.new }
    {
        'moves: loop {
            match move_at(program, reply, self.at) {
                Move::Goes(at) => self.at = at,
                Move::Gives(next, at) => {
                    self.at = at;
                    return next;
                }
                Move::Back(first) => {
                    if self.left == 0 {
                        return Next::TooLong;
                    }
                    self.left -= 1;
                    self.at = first;
                }
            }
        }
    }
}
