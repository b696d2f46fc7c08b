ghost use Rattle.std.specs.Prelude.{◌≡◌, ◌<◌, ◌+◌, true};
ghost use Rattle.collector_rows.specs.HelperReady.{spot_fits, IsHintFor};

use crate::help_spot::HelpSpot;
use heap_words::{Access, Config, Place, Took};

/// A helper: it goes through rounds, each in steps of one access. In a round it works on one unit of the phase, if there is one.
#[derive(Drop)]
pub struct Helper {
    config: Config,
    seat: usize,
    spot: HelpSpot,
    // The address of the heap that it was given as a hint, for its next step.
    hint: Option<u64>,
    // How many hints it has taken.
    hints: u64,
    ghost is_seat: { seat < config.mutators + config.helpers },
    ghost fits: { spot_fits config seat spot ≡ true },
    ghost given: { IsHintFor config spot hint },
}

impl Helper {
    ghost use Rattle.std.specs.Prelude.{◌↔◌, false, Some, None, IfSome};
    ghost use Rattle.heap_words.specs.Access.{table_index};
    ghost use Rattle.heap_words.specs.Words.{Heap, IsWord, table_words};
    ghost use Rattle.heap_words.specs.Touch.{placed};
    ghost use Rattle.collector_rows.specs.HelperRows.{fresh_helper, help_place, help_touch, help_next, help_says, is_gone, takes_hint, hinted_by, help_hinted, greys_at};
    ghost use Rattle.collector_rows.specs.HelperReady.{IsFit};
    ghost use Rattle.collector_rows.specs.HelperWaits.{WaitsAt};
    ghost use Rattle.collector_rows.specs.Seen.{config_of, seen_helper, hint_of};

    /// A helper, counted from 0, that has not begun a round. Its seat is behind those of the mutators.
    pub fn new(config: Config, helper: usize) -> Helper
        requires { helper < config.helpers }
        ensures config { config_of result ≡ config }
        ensures seen { seen_helper result ≡ fresh_helper (config.mutators + helper) }
        ensures hint { hint_of result ≡ None }
    {
        Helper {
            config,
            seat: config.mutators() + helper,
            spot: HelpSpot::LoadEnd,
            hint: None,
            hints: 0,
        }
    }

    /// Whether it has ended. A hint stands only where it is taken.
    pub fn is_idle(&self) -> bool
        ensures gone { result ≡ is_gone (seen_helper self.now).spot }
        ensures given { IsHintFor (config_of self.now) (seen_helper self.now).spot (hint_of self.now) }
    {
        self.spot.is_gone()
    }

    /// Whether it takes hints: it is about to claim a unit of marking.
    pub fn takes_hint(&self) -> bool
        ensures { result ≡ takes_hint (seen_helper self.now).spot }
    {
        self.spot.takes_hint()
    }

    /// Gives it the hint of an address of the heap, which its next step takes: it scans the word that has the address's mark, and
    /// claims no unit. It is about to claim one.
    pub fn give_hint(&mut self, address: u64)
        requires takes { takes_hint (seen_helper self.old).spot ≡ true }
        requires heap { IsWord (config_of self.old) (Heap address) }
        ensures hint { hint_of self.new ≡ Some address }
        ensures seen { seen_helper self.new ≡ seen_helper self.old }
        ensures config { config_of self.new ≡ config_of self.old }
    {
        self.hint = Some(address);
    }

    /// The hint that it was given for its next step, if it was given one.
    pub fn hint(&self) -> Option<u64>
        ensures { result ≡ hint_of self.now }
    {
        self.hint
    }

    /// How many hints it has taken, up to `u64::MAX`.
    pub fn hints(&self) -> u64
        ensures { result ≡ (seen_helper self.now).hints }
    {
        self.hints
    }

    /// The address that its next access makes grey, if it does so: one of the heap.
    pub fn greys(&self) -> Option<u64>
        ensures row { result ≡ greys_at (seen_helper self.now).spot }
        ensures heap { IfSome result (λ address. IsWord (config_of self.now) (Heap address)) }
    {
        self.spot.greys()
    }

    // Where it goes on: with a hint, at the word of that.
    fn goes_on_at(&self) -> HelpSpot
        ensures row { result ≡ hinted_by (config_of self.now) (hint_of self.now) (seen_helper self.now).spot }
        ensures fits { spot_fits (config_of self.now) (seen_helper self.now).seat result ≡ true }
        ensures gone { is_gone result ≡ is_gone (seen_helper self.now).spot }
    {
        match self.hint {
            Some(address) => self.spot.hinted(self.config, address),
            None => self.spot,
        }
    }

    /// The place of its next access; once it has ended, that of the last one.
    pub fn place(&self) -> Place
        ensures { result ≡ help_place (seen_helper self.now) }
    {
        self.spot.place()
    }

    /// The access of its next step.
    #[inline(never)]
    pub fn plan(&self) -> Access
        requires { is_gone (seen_helper self.now).spot ≡ false }
        ensures row { result ≡ placed (config_of self.now) (help_touch (config_of self.now) (help_hinted (config_of self.now) (hint_of self.now) (seen_helper self.now))) }
        ensures inside { table_index result < table_words (config_of self.now) }
    {
        self.goes_on_at().access(self.config, self.seat)
    }

    /// Goes on with the word that its access has found. In a unit of work a word is fit if the unit can go on from it; anywhere else
    /// each word is.
    #[inline(never)]
    pub fn took(&mut self, got: u64) -> Took
        requires busy { is_gone (seen_helper self.old).spot ≡ false }
        requires fit { IsFit (config_of self.old) (help_hinted (config_of self.old) (hint_of self.old) (seen_helper self.old)) got }
        ensures row { seen_helper self.new ≡ help_next (config_of self.old) (help_hinted (config_of self.old) (hint_of self.old) (seen_helper self.old)) got }
        ensures hint { hint_of self.new ≡ None }
        ensures config { config_of self.new ≡ config_of self.old }
        ensures says { result ≡ help_says (config_of self.old) (help_hinted (config_of self.old) (hint_of self.old) (seen_helper self.old)) got }
        ensures again { (result ≡ Took.Again) ↔ WaitsAt (config_of self.old) (help_hinted (config_of self.old) (hint_of self.old) (seen_helper self.old)) got }
    {
        let (spot, said) = self.goes_on_at().after(self.config, self.seat, got);
        if self.hint.is_some() {
            self.hints = self.hints.saturating_add(1);
            self.hint = None;
        }
        self.spot = spot;
        said
    }
}
