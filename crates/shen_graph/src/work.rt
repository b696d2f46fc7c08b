ghost use Rattle.std.specs.Prelude.{◌≡◌, ◌+◌, ◌<◌, ◌≤◌, ℕ, [], ◌∷◌, ◌++◌, length, IfOk, slice_get};
ghost use Rattle.shen_graph.specs.Work.{HasScript, script_in, replies_of, next_of, with_reply, opened, parted, left_over, joined};

use crate::NoMemory;
use crate::command::{Command, Reply};
use crate::script::Script;
use std::alloc::Global;
use std::marker::Model;
use std::mem;

/// What the commands of one thread were answered, in their order.
#[derive(Drop)]
pub struct Replies {
    given: Vec<Reply>,
}

impl Model for Replies {
    ghost use Rattle.std.specs.Prelude.{◌-◌, vec_len, vec_capacity};
    ghost use Rattle.shen_graph.specs.Work.{Given};

    ghost Value = { Given };

    ghost view = { λ replies. record { list = replies.given.items; room = vec_capacity replies.given - vec_len replies.given } };
}

impl Replies {
    // No reply, and room for so many.
    fn open(alloc: Global, room: usize) -> Result<Replies, NoMemory>
        ensures none { IfOk result (λ replies. replies.list ≡ []) }
        ensures room { IfOk result (λ replies. room ≤ replies.room) }
    {
        let given = Vec::with_capacity(alloc, room)?;
        Ok(Replies { given })
    }

    fn push(&mut self, reply: Reply)
        requires { 0 < self.old.room }
        ensures added { self.new.list ≡ self.old.list ++ reply ∷ [] }
        ensures room { self.old.room ≤ self.new.room + 1 }
    {
        let _ = self.given.push(reply);
    }

    /// The replies, in their order.
    pub fn list(&self) -> &[Reply]
        ensures { result.now ≡ self.now.list }
    {
        &self.given
    }
}

// The script of a mutator and the replies to its first commands, with room for the other replies.
#[derive(Drop)]
struct Job {
    script: Script,
    replies: Replies,
}

impl Model for Job {
    ghost use Rattle.std.specs.Prelude.{◌+◌, ◌≤◌, length};
    ghost use Rattle.shen_graph.specs.Work.{Progress};

    ghost Value = { Progress };

    ghost view = { λ job. record { script = job.script; replies = job.replies.list } };

    ghost invariant = { λ job. (length job.replies.list ≤ length job.script) × (length job.script ≤ length job.replies.list + job.replies.room) };
}

impl Job {
    ghost use Rattle.shen_graph.specs.Work.{begun, answered};

    fn open(alloc: Global, commands: &[Command]) -> Result<Job, NoMemory>
        ensures { IfOk result (λ job. job ≡ begun commands.now) }
    {
        let mut script = Script::open(alloc)?;
        for command in commands {
            script.push(alloc, *command)?;
        }
        Job::of(alloc, script)
    }

    fn of(alloc: Global, script: Script) -> Result<Job, NoMemory>
        ensures { IfOk result (λ job. job ≡ begun script) }
    {
        let replies = Replies::open(alloc, script.list().len())?;
        Ok(Job { script, replies })
    }

    fn next(&self) -> Option<Command>
        ensures next { result ≡ slice_get self.now.script (length self.now.replies) }
        ensures within { length self.now.replies ≤ length self.now.script }
    {
        let told = self.replies.list().len();
        self.script.list().get(told).copied()
    }

    fn told(&mut self, reply: Reply)
        requires { length self.old.replies < length self.old.script }
        ensures { self.new ≡ answered self.old reply }
    {
        self.replies.push(reply);
    }
}

/// The scripts of up to eight mutators, each with the replies to its first commands and with room for the others.
/// Mutators are counted from 0.
#[derive(Drop)]
pub struct Work {
    jobs: [Option<Job>; 8],
}

impl Model for Work {
    ghost use Rattle.std.specs.Prelude.{◌≡◌, List, Option, length};
    ghost use Rattle.shen_graph.specs.Work.{Progress};

    ghost Value = { List (Option Progress) };

    ghost view = { λ work. work.jobs };

    ghost invariant = { λ work. length work.jobs ≡ 8 };
}

impl Work {
    /// These scripts, that of mutator 0 first, each at its first command and with room for one reply per command.
    pub fn open(alloc: Global, scripts: &[Script]) -> Result<Work, NoMemory>
        requires { length scripts.now ≤ 8 }
        ensures { IfOk result (λ work. work ≡ opened scripts.now) }
    {
        let mut jobs = [None, None, None, None, None, None, None, None];
        for (mutator, script) in scripts.iter().enumerate() {
            jobs[mutator] = Some(Job::open(alloc, script.list())?);
        }
        Ok(Work { jobs })
    }

    /// These scripts, as `open` has them. They move into the work: no command is copied.
    pub fn of(alloc: Global, mut scripts: Vec<Script>) -> Result<Work, NoMemory>
        requires { length scripts.items ≤ 8 }
        ensures { IfOk result (λ work. work ≡ opened scripts.items) }
    {
        let mut jobs = [None, None, None, None, None, None, None, None];
        while let Some(script) = scripts.pop() {
            let mutator = scripts.len();
            jobs[mutator] = Some(Job::of(alloc, script)?);
        }
        Ok(Work { jobs })
    }

    /// What the mutator's commands were answered so far.
    pub fn replies(&self, mutator: usize) -> &Replies
        requires { HasScript self.now mutator }
        ensures replies { result.now.list ≡ replies_of self.now mutator }
        ensures mutator { mutator < 8 }
    {
        let jobs = &self.jobs;
        match &jobs[mutator] {
            Some(job) => &job.replies,
            None => unreachable!(),
        }
    }

    /// The mutator's next command: `None` exactly at the end of its script.
    pub fn next(&self, mutator: usize) -> Option<Command>
        requires { HasScript self.now mutator }
        ensures next { result ≡ next_of self.now mutator }
        ensures within { length (replies_of self.now mutator) ≤ length (script_in self.now mutator) }
    {
        let jobs = &self.jobs;
        match &jobs[mutator] {
            Some(job) => job.next(),
            None => unreachable!(),
        }
    }

    /// Notes the reply to the mutator's next command, which the one after it is then. It takes no memory.
    pub fn told(&mut self, mutator: usize, reply: Reply)
        requires script { HasScript self.old mutator }
        requires more { length (replies_of self.old mutator) < length (script_in self.old mutator) }
        ensures { self.new ≡ with_reply self.old mutator reply }
    {
        let jobs = &mut self.jobs;
        match &mut jobs[mutator] {
            Some(job) => job.told(reply),
            None => unreachable!(),
        }
    }

    /// Moves out the scripts of the mutators whose number leaves the rest `part` when divided by `workers`, each with its
    /// replies. They keep their numbers. It takes no memory.
    pub fn part(&mut self, workers: usize, part: usize) -> Work
        requires { part < workers }
        ensures parted { result ≡ parted workers part self.old }
        ensures left { self.new ≡ left_over workers part self.old }
    {
        let mut jobs = [None, None, None, None, None, None, None, None];
        let own = &mut self.jobs;
        for mutator in 0..8 {
            if mutator % workers == part {
                mem::swap(&mut jobs[mutator], &mut own[mutator]);
            }
        }
        Work { jobs }
    }

    /// Moves in the scripts of other work, each with its replies, such as a part that was moved out. It takes no memory.
    pub fn join(&mut self, other: Work)
        requires { (mutator : ℕ) → HasScript self.old mutator → HasScript other mutator → ⊥ }
        ensures { self.new ≡ joined self.old other }
    {
        let mut others = other.jobs;
        let own = &mut self.jobs;
        for mutator in 0..8 {
            if others[mutator].is_some() {
                mem::swap(&mut own[mutator], &mut others[mutator]);
            }
        }
    }
}
