ghost use Rattle.std.specs.Prelude.{ℕ};
ghost use Rattle.heap_words.specs.Steps.{MachineKind, Stage};
ghost use Rattle.shared_table.specs.Views as views;
ghost use Rattle.shared_table.specs.Laws.{TableLaws, ReachLaws, DealingLaws, KeptLaws, StepLaws, NumberLaws, CountLaws};

/// A law: the rule holds at the opening, each step keeps it, and who has all machines knows one run. `S` is what slots
/// hold.
pub fn steps_keep_the_rule<R, O, S>()
    ensures { (kind : MachineKind R O) (start : Stage R) → TableLaws S kind start }
{}

/// A law: each machine of a bundle stands as it does in some run.
pub fn bundles_are_reached<R, O, S>()
    ensures { (kind : MachineKind R O) (start : Stage R) → ReachLaws S kind start }
{}

/// A law: machines dealt in turn to some bundles are all there once the bundles are joined.
pub fn bundles_are_all<R>()
    ensures { (bundles : ℕ) (view : views.View R) → DealingLaws R bundles view }
{}

/// A law: what memory keeps of the machines of a view changes as the view does.
pub fn memory_follows_views<R, T>()
    ensures { (kept : R → T) → KeptLaws kept }
{}

/// A law: a bundle keeps its numbers, and who has all those of the opening has all machines.
pub fn numbers_stay<R>()
    ensures { NumberLaws R }
{}

/// A law: where memory has a machine of a view, its step is one of the view, and memory keeps what it then is.
pub fn steps_reach_memory<R, O, T, S>()
    ensures { (kind : MachineKind R O) (start : Stage R) (kept : R → T) → StepLaws S kind start kept }
{}

/// A law: machines that count their steps run as those that do not, and a step is counted once.
pub fn steps_are_counted<R, O, S>()
    ensures { (kind : MachineKind R O) (start : Stage R) → CountLaws S kind start }
{}
