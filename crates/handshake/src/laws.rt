//! The handshake by itself, over any kind of machine: it looks at no object. The laws are of every list of events, so of every
//! way in which threads may take turns.

ghost use Rattle.std.specs.Prelude.{ℕ, ◌≡◌, ◌≢◌, Bool, true, List, Some, slice_get};
ghost use Rattle.heap_words.specs.declared.config.Config.{Config};
ghost use Rattle.heap_words.specs.Words.{Left, view};
ghost use Rattle.heap_words.specs.Steps.{MachineKind, Stage, Event, go};
ghost use Rattle.handshake.specs.Standing.{Standing};
ghost use Rattle.handshake.specs.Obeys.{RowsObey};
ghost use Rattle.handshake.specs.Shaken.{IsShaken, EachObeys, IsPausing, IsStill};
ghost use Rattle.handshake.specs.Left.{AreLeftCounted, EachCounts};
ghost use Rattle.handshake.specs.Ending.{IsEndWord, EachKeepsEnd};

/// The law of the handshake: whatever list of events is made of which each one obeys, state words and pause word go on to say
/// where the machines stand; and from the last check of a pause to its end no mutator or helper is in the heap, and none makes
/// an access to a word of the image but to read it.
pub fn every_list_of_events<R, O>()
    ensures shaken { (config : Config) (kind : MachineKind R O) (standing : R → Standing) (stage : Stage R) (events : List (Event O))
        → IsShaken config standing stage → EachObeys config kind standing stage events → IsShaken config standing (go kind stage events) }
    ensures still { (config : Config) (kind : MachineKind R O) (standing : R → Standing) (stage : Stage R)
        → IsShaken config standing stage → IsPausing config standing stage → IsStill config kind standing stage }
{}

/// A law: the rows of entering, leaving, stopping and ending a pause are steps that obey.
pub fn rows_obey()
    ensures { (config : Config) → RowsObey config }
{}

/// The law of the count of mutators that have not ended: whatever list of events is made of which each one counts, the word
/// goes on to be their number. So a mutator that ends finds no 0; and a word that is 0 stays 0.
pub fn mutators_are_counted<R, O>()
    ensures counted { (config : Config) (kind : MachineKind R O) (left : R → Bool) (stage : Stage R) (events : List (Event O))
        → AreLeftCounted config left stage → EachCounts config kind left stage events → AreLeftCounted config left (go kind stage events) }
    ensures found { (config : Config) (left : R → Bool) (stage : Stage R) (number : ℕ) (machine : R)
        → AreLeftCounted config left stage → slice_get stage.machines number ≡ Some machine → left machine ≡ true → view config stage.words Left ≢ 0 }
    ensures none_stays { (config : Config) (kind : MachineKind R O) (left : R → Bool) (stage : Stage R) (events : List (Event O))
        → AreLeftCounted config left stage → EachCounts config kind left stage events → view config stage.words Left ≡ 0 → view config (go kind stage events).words Left ≡ 0 }
{}

/// The law of the word that says that the control has ended: whatever list of events is made of which each one keeps it, the word
/// goes on to be 1 where a machine has ended so, and 0 where none has.
pub fn end_is_known<R, O>()
    ensures { (config : Config) (kind : MachineKind R O) (ended : R → Bool) (stage : Stage R) (events : List (Event O))
        → IsEndWord config ended stage → EachKeepsEnd config kind ended stage events → IsEndWord config ended (go kind stage events) }
{}
