ghost use Rattle.std.specs.Prelude.{◌≡◌, ◌<◌, true};
ghost use Rattle.heap_words.specs.Ranges.{seat_count};
ghost use Rattle.load_barrier.specs.UnitFit.{is_ready};

use crate::evac_spot::EvacSpot;
use heap_words::{Access, Config, Place, Took, Unit};

/// A machine that claims a unit of evacuation and copies what is marked there, in steps of one access.
#[derive(Drop)]
pub struct EvacUnit {
    config: Config,
    seat: usize,
    cset: u64,
    spot: EvacSpot,
    ghost is_seat: { seat < seat_count config.mutators config.helpers },
    ghost ready: { is_ready config seat spot ≡ true },
}

impl EvacUnit {
    ghost use Rattle.std.specs.Prelude.{false, ◌^◌, ◌↔◌};
    ghost use Rattle.heap_words.specs.Access.{table_index};
    ghost use Rattle.heap_words.specs.Words.{table_words};
    ghost use Rattle.heap_words.specs.Touch.{placed};
    ghost use Rattle.load_barrier.specs.UnitRows.{place_at, touch_at, next_at, says_at, is_ended};
    ghost use Rattle.load_barrier.specs.UnitFit.{IsFit};
    ghost use Rattle.load_barrier.specs.UnitEnds.{WaitsAt, HasNoneLeft};
    ghost use Rattle.load_barrier.specs.Seen.{evacuator_of, evac_spot_of};

    /// A machine of a seat that has claimed no unit yet. The collection set has regions of the heap.
    pub fn new(config: Config, seat: usize, cset: u64) -> EvacUnit
        requires seat { seat < seat_count config.mutators config.helpers }
        requires cset { cset < 2 ^ config.regions }
        ensures evacuator { evacuator_of result ≡ record { config = config; seat = seat; cset = cset } }
        ensures spot { evac_spot_of result ≡ EvacSpot.LoadClaim }
    {
        EvacUnit {
            config,
            seat,
            cset,
            spot: EvacSpot::LoadClaim,
        }
    }

    /// Whether it is done. It makes no step then.
    pub fn is_done(&self) -> bool
        ensures { result ≡ is_ended (evac_spot_of self.now) }
    {
        self.spot.is_ended()
    }

    /// The place of its next access.
    pub fn place(&self) -> Place
        requires { is_ended (evac_spot_of self.now) ≡ false }
        ensures { result ≡ place_at (evac_spot_of self.now) }
    {
        self.spot.place()
    }

    /// The access of its next step.
    pub fn plan(&self) -> Access
        requires { is_ended (evac_spot_of self.now) ≡ false }
        ensures row { let e = evacuator_of self.now in result ≡ placed e.config (touch_at e.config e.seat (evac_spot_of self.now)) }
        ensures inside { table_index result < table_words (evacuator_of self.now).config }
    {
        self.spot.access(self.config, self.seat)
    }

    /// Goes on with the word that its access has found. A word is fit if the access that follows is of the table; a top, if it is
    /// at most the words of a region; and one that a resolving finds, if it is fit there.
    pub fn took(&mut self, got: u64) -> Took
        requires busy { is_ended (evac_spot_of self.old) ≡ false }
        requires fit { let e = evacuator_of self.old in IsFit e.config e.seat e.cset (evac_spot_of self.old) got }
        ensures spot { let e = evacuator_of self.old in evac_spot_of self.new ≡ next_at e.config e.cset (evac_spot_of self.old) got }
        ensures evacuator { evacuator_of self.new ≡ evacuator_of self.old }
        ensures says { let e = evacuator_of self.old in result ≡ says_at e.config e.cset (evac_spot_of self.old) got }
        ensures done { (result ≡ Took.Done) ↔ (is_ended (evac_spot_of self.new) ≡ true) }
        ensures none_left { (evac_spot_of self.new ≡ EvacSpot.Ended Unit.NoneLeft) ↔ HasNoneLeft (evacuator_of self.old).config (evac_spot_of self.old) got }
        ensures again { (result ≡ Took.Again) ↔ WaitsAt (evac_spot_of self.old) got }
    {
        let (spot, said) = self.spot.after(self.config, self.seat, self.cset, got);
        self.spot = spot;
        said
    }

    /// Whether it has done a unit or none was left, once it is done.
    pub fn answer(&self) -> Unit
        requires { is_ended (evac_spot_of self.now) ≡ true }
        ensures { evac_spot_of self.now ≡ EvacSpot.Ended result }
    {
        match self.spot {
            EvacSpot::Ended { unit } => unit,
            _ => unreachable!(),
        }
    }
}
