ghost use Rattle.std.specs.Prelude.{◌≡◌, ◌<◌, true};
ghost use Rattle.heap_words.specs.Ranges.{seat_count};
ghost use Rattle.heap_words.specs.Words.{Heap, IsWord};
ghost use Rattle.heap_words.specs.Phases.{updating_phase};
ghost use Rattle.load_barrier.specs.Fit.{is_ready};

use crate::spot::ResolveSpot;
use heap_words::{Access, Config, Place, Took};

/// A machine that resolves an address of the collection set, in steps of one access.
#[derive(Drop)]
pub struct Resolve {
    config: Config,
    seat: usize,
    address: u64,
    phase: u64,
    spot: ResolveSpot,
    ghost is_seat: { seat < seat_count config.mutators config.helpers },
    ghost is_address: { IsWord config (Heap address) },
    ghost ready: { is_ready config seat address spot ≡ true },
}

impl Resolve {
    ghost use Rattle.std.specs.Prelude.{false, ◌≤◌, ◌↔◌};
    ghost use Rattle.heap_words.specs.Access.{table_index};
    ghost use Rattle.heap_words.specs.Words.{table_words};
    ghost use Rattle.heap_words.specs.Touch.{placed};
    ghost use Rattle.load_barrier.specs.Rows.{place_at, touch_at, next_at, says_at, is_ended};
    ghost use Rattle.load_barrier.specs.Fit.{IsFit};
    ghost use Rattle.load_barrier.specs.Waits.{WaitsAt};
    ghost use Rattle.load_barrier.specs.UnitRows.{must_resolve};
    ghost use Rattle.load_barrier.specs.Seen.{resolver_of, spot_of};

    /// A machine of a seat that is to resolve an address of the heap, in a phase in which it has to be.
    pub fn new(config: Config, seat: usize, address: u64, phase: u64, cset: u64) -> Resolve
        requires seat { seat < seat_count config.mutators config.helpers }
        requires address { IsWord config (Heap address) }
        requires phase { phase ≤ updating_phase }
        requires inside { must_resolve config phase cset address ≡ true }
        ensures resolver { resolver_of result ≡ record { config = config; seat = seat; address = address; phase = phase } }
        ensures spot { spot_of result ≡ ResolveSpot.LoadHeader }
    {
        Resolve {
            config,
            seat,
            address,
            phase,
            spot: ResolveSpot::LoadHeader,
        }
    }

    /// Whether the address is resolved. It makes no step then.
    pub fn is_done(&self) -> bool
        ensures { result ≡ is_ended (spot_of self.now) }
    {
        self.spot.is_ended()
    }

    /// The place of its next access.
    pub fn place(&self) -> Place
        requires { is_ended (spot_of self.now) ≡ false }
        ensures { result ≡ place_at (spot_of self.now) }
    {
        self.spot.place()
    }

    /// The access of its next step.
    pub fn plan(&self) -> Access
        requires { is_ended (spot_of self.now) ≡ false }
        ensures row { let r = resolver_of self.now in result ≡ placed r.config (touch_at r.config r.seat r.address (spot_of self.now)) }
        ensures inside { table_index result < table_words (resolver_of self.now).config }
    {
        self.spot.access(self.config, self.seat, self.address)
    }

    /// Goes on with the word that its access has found. A word is fit if the access that follows is of the table, and whoever
    /// leaves the copiers is counted.
    pub fn took(&mut self, got: u64) -> Took
        requires busy { is_ended (spot_of self.old) ≡ false }
        requires fit { let r = resolver_of self.old in IsFit r.config r.seat r.address r.phase (spot_of self.old) got }
        ensures spot { let r = resolver_of self.old in spot_of self.new ≡ next_at r.config r.address r.phase (spot_of self.old) got }
        ensures resolver { resolver_of self.new ≡ resolver_of self.old }
        ensures says { let r = resolver_of self.old in result ≡ says_at r.config r.address r.phase (spot_of self.old) got }
        ensures done { (result ≡ Took.Done) ↔ (is_ended (spot_of self.new) ≡ true) }
        ensures again { (result ≡ Took.Again) ↔ WaitsAt (spot_of self.old) got }
    {
        let (spot, said) = self
            .spot
            .after(self.config, self.seat, self.address, self.phase, got);
        self.spot = spot;
        said
    }

    /// The address to use, once it is resolved: one of the heap.
    pub fn answer(&self) -> u64
        requires { is_ended (spot_of self.now) ≡ true }
        ensures answer { spot_of self.now ≡ ResolveSpot.Resolved result }
        ensures inside { IsWord (resolver_of self.now).config (Heap result) }
    {
        match self.spot {
            ResolveSpot::Resolved { answer } => answer,
            _ => unreachable!(),
        }
    }
}
