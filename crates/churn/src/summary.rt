ghost use Rattle.std.specs.Prelude.{◌≡◌, ◌+◌, ◌<◌, ◌≤◌, ◌^◌, [], ◌∷◌, length, sum_by};
ghost use Rattle.shen_graph.specs.Work.{HasScript};
ghost use Rattle.churn.specs.Laws.{SumsUpRuns};
ghost use Rattle.churn.specs.Summary.{summary_of, all_replies, number_summed, row_words, with_replies, with_rows};

use shen_graph::{GraphText, Reply, Work};

/// What is told of a run of the workload.
#[derive(Clone, Copy, PartialEq, Eq)]
pub struct Summary {
    /// The number that the run was made from.
    pub seed: u64,
    /// The rounds of each thread.
    pub count: u64,
    /// How many commands were answered.
    pub commands: u64,
    /// How many of them with `Bad`.
    pub bad: u64,
    /// How many with `Full`.
    pub full: u64,
    /// How many objects can be reached.
    pub objects: u64,
    /// How many words they have.
    pub words: u64,
    /// The sum of all numbers that were read.
    pub sum: u64,
}

impl Summary {
    // Of no reply and no object.
    fn open(seed: u64, count: u64) -> Summary
        ensures { result ≡ summary_of seed count [] [] }
    {
        Summary {
            seed,
            count,
            commands: 0,
            bad: 0,
            full: 0,
            objects: 0,
            words: 0,
            sum: 0,
        }
    }

    // Counts a reply.
    fn add_reply(&mut self, reply: Reply)
        requires counts { self.old.bad ≤ self.old.commands × self.old.full ≤ self.old.commands }
        requires commands { self.old.commands + 1 < 2 ^ 64 }
        requires sum { self.old.sum + number_summed reply < 2 ^ 64 }
        ensures { self.new ≡ with_replies self.old (reply ∷ []) }
    {
        self.commands += 1;
        match reply {
            Reply::Bad => self.bad += 1,
            Reply::Full => self.full += 1,
            Reply::Number(number) => self.sum += number,
            _ => (),
        }
    }

    // Counts replies.
    fn add_replies(&mut self, replies: &[Reply])
        requires counts { self.old.bad ≤ self.old.commands × self.old.full ≤ self.old.commands }
        requires commands { self.old.commands + length replies.now < 2 ^ 64 }
        requires sum { self.old.sum + sum_by number_summed replies.now < 2 ^ 64 }
        ensures { self.new ≡ with_replies self.old replies.now }
    {
        for reply in replies {
            self.add_reply(*reply);
        }
    }

    // Counts the objects of a graph.
    fn add_objects(&mut self, graph: &GraphText)
        requires none { self.old.objects ≡ 0 × self.old.words ≡ 0 }
        requires words { sum_by row_words graph.now.rows < 2 ^ 64 }
        ensures { self.new ≡ with_rows self.old graph.now.rows }
    {
        for row in 0..graph.rows() {
            let fields = graph.refs_at(row) as u64 + graph.nums_at(row) as u64;
            self.objects += 1;
            self.words += 3 + fields;
        }
    }
}

// The summary of replies and objects, whoever gave them.
fn counted(seed: u64, count: u64, replies: &Work, graph: &GraphText) -> Summary
    requires scripts { HasScript replies.now 0 × HasScript replies.now 1 × HasScript replies.now 2 }
    requires commands { length (all_replies replies.now) < 2 ^ 64 }
    requires sum { sum_by number_summed (all_replies replies.now) < 2 ^ 64 }
    requires words { sum_by row_words graph.now.rows < 2 ^ 64 }
    ensures { result ≡ summary_of seed count (all_replies replies.now) graph.now.rows }
{
    let mut summary = Summary::open(seed, count);
    summary.add_replies(replies.replies(0).list());
    summary.add_replies(replies.replies(1).list());
    summary.add_replies(replies.replies(2).list());
    summary.add_objects(graph);
    summary
}

/// The summary of the replies of three threads and the objects of a graph, each looked at once. Where they are those of a
/// run, it is the summary of the run in which the threads run one after the other.
pub fn summarize(seed: u64, count: u64, replies: &Work, graph: &GraphText) -> Summary
    requires scripts { HasScript replies.now 0 × HasScript replies.now 1 × HasScript replies.now 2 }
    requires commands { length (all_replies replies.now) < 2 ^ 64 }
    requires sum { sum_by number_summed (all_replies replies.now) < 2 ^ 64 }
    requires words { sum_by row_words graph.now.rows < 2 ^ 64 }
    ensures counts { result ≡ summary_of seed count (all_replies replies.now) graph.now.rows }
    ensures turns { SumsUpRuns seed count replies.now graph.now.rows result }
{
    counted(seed, count, replies, graph)
}
