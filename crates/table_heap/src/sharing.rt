ghost use Rattle.std.specs.Prelude.{◌≡◌, ◌≢◌, ◌<◌, length, Some, IfOk, IfSome, slice_get};
ghost use Rattle.heap_words.specs.declared.config.Config.{Config};
ghost use Rattle.heap_words.specs.Words.{Heap, IsWord};
ghost use Rattle.table_heap.specs.Seen.{config_in, IsThiefOf};
ghost use Rattle.table_heap.specs.Known.{AreThievesOf};
ghost use Rattle.table_heap.specs.State.{config_in as bundle_config, HasMachine, IsUnmoved};
ghost use Rattle.table_heap.specs.Sharing.{HaveConfig, SharesMore, AllShareMore, StealsFrom, StealFrom};
ghost use Rattle.table_heap.specs.Turning.{IsHinted, OnlyHintsDiffer};
ghost use Rattle.table_heap.specs.declared.bundle.Bundle.{Bundle as Bundles};

use crate::Thief;
use crate::bundle::Bundle;
use crate::gate::Gate;
use heap_words::NoMemory;

// From now on the other bundle steals the hints of this one, if it is another.
fn share_with(bundles: &mut Vec<Bundle>, bundle: usize, other: usize) -> Result<(), NoMemory>
    requires bundle { bundle < length bundles.old.items }
    requires other { other < length bundles.old.items }
    requires heap { (config : Config) × HaveConfig config bundles.old.items }
    ensures more { AllShareMore bundles.old.items bundles.new.items }
    ensures steals { IfOk result (λ _. (other_bundle own : Bundles) → other ≢ bundle → slice_get bundles.new.items other ≡ Some other_bundle → slice_get bundles.new.items bundle ≡ Some own → StealsFrom other_bundle own) }
{
    if other == bundle {
        return Ok(());
    }
    let thief = bundles[bundle].thief()?;
    bundles[other].steal_by(thief)?;
    Ok(())
}

// From now on each other bundle steals the hints of this one.
pub(crate) fn share_hints(bundles: &mut Vec<Bundle>, bundle: usize) -> Result<(), NoMemory>
    requires bundle { bundle < length bundles.old.items }
    requires heap { (config : Config) × HaveConfig config bundles.old.items }
    ensures more { AllShareMore bundles.old.items bundles.new.items }
    ensures steal { IfOk result (λ _. StealFrom (length bundles.old.items) bundles.new.items bundle) }
{
    for other in 0..bundles.len() {
        share_with(bundles, bundle, other)?;
    }
    Ok(())
}

// A hint that one of these steals: the first who finds one.
fn stolen(thieves: &mut [Thief]) -> Option<u64>
    ensures { (config : Config) → AreThievesOf config thieves.old → IfSome result (λ address. IsWord config (Heap address)) × AreThievesOf config thieves.new }
{
    for thief in thieves.iter_mut() {
        if let Some(address) = thief.steal() {
            return Some(address);
        }
    }
    None
}

impl Bundle {
    // One who steals the hints of this bundle.
    fn thief(&mut self) -> Result<Thief, NoMemory>
        ensures more { SharesMore self.old self.new }
        ensures thief { IfOk result (λ thief. (config_in thief ≡ bundle_config self.old) × IsThiefOf self.new.hints thief) }
    {
        self.hints.thief()
    }

    // From now on the bundle steals by this one, too.
    fn steal_by(&mut self, thief: Thief) -> Result<(), NoMemory>
        requires heap { config_in thief ≡ bundle_config self.old }
        ensures more { SharesMore self.old self.new }
        ensures thief { IfOk result (λ _. slice_get self.new.thieves.items (length self.old.thieves.items) ≡ Some thief) }
    {
        match self.thieves.push(thief) {
            Ok(()) => Ok(()),
            Err(_) => Err(NoMemory),
        }
    }

    // A hint, if there is one: of the bundle's own the latest, or else one that is stolen from another bundle.
    fn next_hint(&mut self) -> Option<u64>
        ensures heap { IfSome result (λ address. IsWord (bundle_config self.old) (Heap address)) }
        ensures only { OnlyHintsDiffer self.old self.new }
    {
        if let Some(address) = self.hints.pop() {
            return Some(address);
        }
        stolen(self.thieves.as_mut_slice())
    }

    // Gives the machine a hint, where the gate lets hints through, it takes them and there is one.
    pub(crate) fn take_hint<G: Gate>(&mut self, gate: &G, number: usize)
        requires here { HasMachine self.old number }
        ensures unmoved { IsUnmoved self.old self.new }
        ensures order { IsHinted self.old self.new number }
    {
        if !gate.has_hints() || !self.takes_hint(number) {
            return;
        }
        if let Some(address) = self.next_hint() {
            self.hint(number, address);
        }
    }

    // Adds to the bundle's own hints what the machine's last step made grey, if it did so.
    pub(crate) fn share_greyed(&mut self, number: usize)
        requires here { HasMachine self.old number }
        ensures { OnlyHintsDiffer self.old self.new }
    {
        if let Some(address) = self.greyed[number] {
            self.hints.push(address);
        }
    }
}
