ghost use Rattle.std.specs.Prelude.{◌≡◌, [], ◌∷◌, ◌++◌, IfOk, OnOk, OnErr};

use crate::NoMemory;
use crate::command::Command;
use std::alloc::Global;
use std::marker::Model;

/// The commands of one thread, in their order.
#[derive(Drop)]
pub struct Script {
    commands: Vec<Command>,
}

impl Model for Script {
    ghost use Rattle.std.specs.Prelude.{List};
    ghost use Rattle.shen_graph.specs.declared.command.Command.{Command};

    ghost Value = { List Command };

    ghost view = { λ script. script.commands.items };
}

impl Script {
    /// A script without a command.
    pub fn open(alloc: Global) -> Result<Script, NoMemory>
        ensures { IfOk result (λ script. script ≡ []) }
    {
        let commands = Vec::new(alloc);
        Ok(Script { commands })
    }

    /// Adds a command at the end. After `NoMemory` the script is as before.
    pub fn push(&mut self, _alloc: Global, command: Command) -> Result<(), NoMemory>
        ensures added { OnOk result (self.new ≡ self.old ++ command ∷ []) }
        ensures kept { OnErr result (self.new ≡ self.old) }
    {
        self.commands.push(command)?;
        Ok(())
    }

    /// The commands, in their order.
    pub fn list(&self) -> &[Command]
        ensures { result.now ≡ self.now }
    {
        &self.commands
    }
}
