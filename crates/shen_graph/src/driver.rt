ghost use Rattle.std.specs.Prelude.{ℕ, ◌≡◌, ◌<◌, ◌≤◌, Option, Some, IfSome};
ghost use Rattle.shen_graph.specs.declared.command.Command.{Command};
ghost use Rattle.shen_graph.specs.declared.command.Reply.{Reply};
ghost use Rattle.shen_graph.specs.Step.{IsNew};
ghost use Rattle.shen_graph.specs.Valid.{IsValid};

use crate::command::{Command, Reply};

/// What gives the commands of one thread, each by the replies to those before.
pub trait Driver {
    /// What `next` answers.
    ghost next_of: { Self → Option Command };

    /// Its state after a reply to that command.
    ghost replied: { Self → Reply → Self };

    /// How many allocations are to come, at most.
    ghost to_come: { Self → ℕ };

    /// The next command, in range; `None` at the end. Where it is an allocation, one is to come.
    fn next(&self) -> Option<Command>
        ensures next { result ≡ next_of self.now }
        ensures valid { IfSome result (λ command. IsValid command) }
        ensures due { IfSome result (λ command. IsNew command → 1 ≤ to_come self.now) };

    /// Takes the reply to that command. It never raises the number of allocations to come, and the reply to one lowers it.
    fn took(&mut self, reply: &Reply)
        ensures replied { self.new ≡ replied self.old reply.now }
        ensures falls { to_come self.new ≤ to_come self.old }
        ensures pays { (command : Command) → next_of self.old ≡ Some command → IsNew command → to_come self.new < to_come self.old };
}
