ghost use Rattle.std.specs.Prelude.{◌≡◌, ◌<◌, true};
ghost use Rattle.heap_words.specs.Words.{Heap, IsWord};
ghost use Rattle.satb_barrier.specs.Rows.{is_ready};

use crate::spot::RememberSpot;
use heap_words::{Access, Config, Place, Took};

/// A mutator that records an address in its buffer, in steps of one access.
#[derive(Drop)]
pub struct Remember {
    config: Config,
    mutator: usize,
    address: u64,
    spot: RememberSpot,
    ghost is_mutator: { mutator < config.mutators },
    ghost is_address: { IsWord config (Heap address) },
    ghost ready: { is_ready config spot ≡ true },
}

impl Remember {
    ghost use Rattle.std.specs.Prelude.{false, ◌↔◌};
    ghost use Rattle.heap_words.specs.Access.{table_index};
    ghost use Rattle.heap_words.specs.Words.{table_words};
    ghost use Rattle.heap_words.specs.Touch.{placed};
    ghost use Rattle.satb_barrier.specs.Rows.{place_at, touch_at, next_at, says_at, is_ended, IsFit};
    ghost use Rattle.satb_barrier.specs.Seen.{recorder_of, spot_of};

    /// A mutator, counted from 0, that is to record an address of the heap.
    pub fn new(config: Config, mutator: usize, address: u64) -> Remember
        requires mutator { mutator < config.mutators }
        requires address { IsWord config (Heap address) }
        ensures recorder { recorder_of result ≡ record { config = config; mutator = mutator; address = address } }
        ensures spot { spot_of result ≡ RememberSpot.LoadCount }
    {
        Remember {
            config,
            mutator,
            address,
            spot: RememberSpot::LoadCount,
        }
    }

    /// Whether the address is recorded. It makes no step then.
    pub fn is_done(&self) -> bool
        ensures { result ≡ is_ended (spot_of self.now) }
    {
        self.spot.is_ended()
    }

    /// The place of its next access.
    pub fn place(&self) -> Place
        requires { is_ended (spot_of self.now) ≡ false }
        ensures { result ≡ place_at (spot_of self.now) }
    {
        self.spot.place()
    }

    /// The access of its next step.
    pub fn plan(&self) -> Access
        requires { is_ended (spot_of self.now) ≡ false }
        ensures row { let r = recorder_of self.now in result ≡ placed r.config (touch_at r.config r.mutator r.address (spot_of self.now)) }
        ensures inside { table_index result < table_words (recorder_of self.now).config }
    {
        self.spot.access(self.config, self.mutator, self.address)
    }

    /// Goes on with the word that its access has found. A count is fit up to 8, and an entry if it is an address of the heap.
    pub fn took(&mut self, got: u64) -> Took
        requires busy { is_ended (spot_of self.old) ≡ false }
        requires fit { IsFit (recorder_of self.old).config (spot_of self.old) got }
        ensures spot { spot_of self.new ≡ next_at (spot_of self.old) got }
        ensures recorder { recorder_of self.new ≡ recorder_of self.old }
        ensures says { result ≡ says_at (spot_of self.old) }
        ensures done { (result ≡ Took.Done) ↔ (is_ended (spot_of self.new) ≡ true) }
    {
        let before = self.spot;
        self.spot = before.after(got);
        before.says()
    }
}
