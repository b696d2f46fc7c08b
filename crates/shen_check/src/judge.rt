//! What is in memory while a history is judged: the graph after the entries so far, and what of the scripts is answered.
ghost use Rattle.std.specs.Prelude.{◌≡◌, ◌+◌, ◌-◌, ◌^◌, ◌<◌, ◌≤◌, ℕ, List, [], All, Some, None, IsSome, IfOk, MatchBool, MatchOption, length, take, slice_get};
ghost use Rattle.shen_graph.specs.Valid.{IsValid};
ghost use Rattle.shen_graph.specs.History.{after_entry, Entry as Claimed};
ghost use Rattle.shen_graph.specs.Step.{IsLegal, IsNew};
ghost use Rattle.shen_graph.specs.Noting.{seen};
ghost use Rattle.shen_graph.specs.PlainGraph.{graph_of, threads_of};
ghost use Rattle.shen_graph.specs.Work.{HasScript, next_of};
ghost use Rattle.shen_graph.specs.declared.command.Command.{Command as Asked};
ghost use Rattle.trace_text.specs.Answer.{IsAnswerText};
ghost use Rattle.shen_check.specs.Judged.{MayFollow};
ghost use Rattle.shen_check.specs.JudgeState.{HasJudged, HasPinsOf, IsFullFor, MayAnswer};

use crate::crowd::{is_full_for, live_words};
use crate::kept::is_text;
use heap_words::Config;
use shen_graph::{Command, Entry, GraphText, History, NoMemory, PlainGraph, Reply, Work};
use std::alloc::Global;
use trace_reading::Trace;
use trace_text::Answer;

/// The graph after the entries so far, and the scripts with what was answered.
#[derive(Drop)]
pub struct Judge {
    pub graph: PlainGraph,
    pub work: Work,
}

// Whether an entry has the next command of its thread's script.
fn is_next(work: &Work, threads: usize, entry: Entry) -> bool
    requires few { threads ≤ 8 }
    requires has { (mutator : ℕ) → mutator < threads → HasScript work.now mutator }
    ensures { MatchBool result ((1 ≤ entry.thread) × (entry.thread ≤ threads) × (next_of work.now (entry.thread - 1) ≡ Some entry.command))
        ((1 ≤ entry.thread) → (entry.thread ≤ threads) → next_of work.now (entry.thread - 1) ≡ Some entry.command → ⊥) }
{
    let thread = entry.thread as usize;
    if thread < 1 || thread > threads {
        return false;
    }
    work.next(thread - 1) == Some(entry.command)
}

// Whether a command makes an object.
fn is_new(command: Command) -> bool
    ensures { MatchBool result (IsNew command) (IsNew command → ⊥) }
{
    match command {
        Command::New { .. } => true,
        _ => false,
    }
}

impl Judge {
    /// Before any entry.
    pub fn open(alloc: Global, trace: &Trace) -> Result<Judge, NoMemory>
        requires { length trace.now.scripts ≡ trace.now.config.mutators }
        ensures { IfOk result (λ judge. HasJudged trace.now.scripts [] judge.graph judge.work) }
    {
        let graph = PlainGraph::open(alloc, trace.config.mutators() as u32)?;
        let work = Work::open(alloc, trace.scripts.list())?;
        Ok(Judge { graph, work })
    }

    // Whether a command of a thread may be refused.
    fn may_refuse(&self, alloc: Global, config: &Config, entry: Entry) -> Result<bool, NoMemory>
        requires threads { config.now.mutators ≡ threads_of self.now.graph }
        requires pins { HasPinsOf config.now.mutators (graph_of self.now.graph) }
        requires has { (mutator : ℕ) → mutator < config.now.mutators → HasScript self.now.work mutator }
        ensures { IfOk result (λ may. MatchBool may (IsNew entry.command × IsFullFor config.now (graph_of self.now.graph) self.now.work entry.thread entry.command)
            (IsNew entry.command → IsFullFor config.now (graph_of self.now.graph) self.now.work entry.thread entry.command → ⊥)) }
    {
        if !is_new(entry.command) {
            return Ok(false);
        }
        is_full_for(
            alloc,
            config,
            &self.graph,
            &self.work,
            entry.thread,
            entry.command,
        )
    }

    // Whether the command of an entry may be answered as it says. Where it may, the graph is the one after it.
    fn may_answer(&mut self, alloc: Global, config: &Config, entry: Entry) -> Result<bool, NoMemory>
        requires thread { (1 ≤ entry.thread) × (entry.thread ≤ threads_of self.old.graph) }
        requires valid { IsValid entry.command }
        requires count { (graph_of self.old.graph).count entry.thread < 2 ^ 32 - 1 }
        requires has { (mutator : ℕ) → mutator < config.now.mutators → HasScript self.old.work mutator }
        requires threads { config.now.mutators ≡ threads_of self.old.graph }
        requires pins { HasPinsOf config.now.mutators (graph_of self.old.graph) }
        ensures answer { IfOk result (λ may. MatchBool may
            (MayAnswer config.now (graph_of self.old.graph) self.old.work (seen entry) × (graph_of self.new.graph ≡ after_entry (graph_of self.old.graph) (seen entry)))
            (MayAnswer config.now (graph_of self.old.graph) self.old.work (seen entry) → ⊥)) }
        ensures threads { threads_of self.new.graph ≡ threads_of self.old.graph }
        ensures work { self.new.work ≡ self.old.work }
    {
        if entry.reply == Reply::Full {
            return self.may_refuse(alloc, config, entry);
        }
        self.graph.accept(
            alloc,
            config.regions() as u64,
            config.region_words() as u64,
            entry.thread,
            &entry.command,
            &entry.reply,
        )
    }

    /// Whether the entry at a place may follow those before it, which were taken. Where it may, it is taken too.
    pub fn take(
        &mut self,
        alloc: Global,
        trace: &Trace,
        history: &History,
        at: usize,
    ) -> Result<bool, NoMemory>
        requires place { at < length history.now.list }
        requires count { length trace.now.scripts ≡ trace.now.config.mutators }
        requires valid { All (λ script. All IsValid script) trace.now.scripts }
        requires few { All (λ script. length script < 2 ^ 32 - 1) trace.now.scripts }
        requires judged { HasJudged trace.now.scripts (take at history.now.list) self.old.graph self.old.work }
        ensures { (entry : Claimed) → slice_get history.now.list at ≡ Some entry → IfOk result (λ may. MatchBool may
            (MayFollow trace.now.config trace.now.scripts (take at history.now.list) entry × HasJudged trace.now.scripts (take (at + 1) history.now.list) self.new.graph self.new.work)
            (MayFollow trace.now.config trace.now.scripts (take at history.now.list) entry → ⊥)) }
    {
        let entry = history.entry(at);
        if !is_next(&self.work, trace.config.mutators(), entry) {
            return Ok(false);
        }
        if !self.may_answer(alloc, &trace.config, entry)? {
            return Ok(false);
        }
        self.work.told(entry.thread as usize - 1, entry.reply);
        Ok(true)
    }

    /// The first thread, counted from 1, that has a command left.
    pub fn first_left(&self, threads: usize) -> Option<u32>
        requires few { threads ≤ 8 }
        requires has { (mutator : ℕ) → mutator < threads → HasScript self.now.work mutator }
        ensures { MatchOption result ((mutator : ℕ) → mutator < threads → next_of self.now.work mutator ≡ None)
            (λ thread. (1 ≤ thread) × (thread ≤ threads) × IsSome (next_of self.now.work (thread - 1)) × ((mutator : ℕ) → mutator < thread - 1 → next_of self.now.work mutator ≡ None)) }
    {
        for mutator in 0..threads {
            if self.work.next(mutator).is_some() {
                return Some(mutator as u32 + 1);
            }
        }
        None
    }

    /// Whether a body is the text that answers for the entries that were taken, to a trace of a version.
    pub fn is_answered_by(
        self,
        alloc: Global,
        version: u32,
        threads: usize,
        body: &[u8],
    ) -> Result<bool, NoMemory>
        requires threads { threads ≡ threads_of self.graph }
        requires has { (mutator : ℕ) → mutator < threads → HasScript self.work mutator }
        ensures { (scripts : List (List Asked)) (before : List Claimed) → length scripts ≡ threads → HasJudged scripts before self.graph self.work
            → IfOk result (λ same. MatchBool same (IsAnswerText version (length scripts) before body.now) (IsAnswerText version (length scripts) before body.now → ⊥)) }
    {
        let words = live_words(alloc, &self.graph)?;
        let mut graph = GraphText::open(alloc, words as usize, threads)?;
        self.graph.write(alloc, &mut graph)?;
        let replies = self.work;
        is_text(
            alloc,
            body,
            &Answer {
                version,
                replies,
                graph,
            },
        )
    }
}
