ghost use Rattle.std.specs.Prelude.{◌≡◌, ◌<◌, ◌≤◌, true};
ghost use Rattle.heap_words.specs.Ranges.{seat_count};
ghost use Rattle.alloc_buffers.specs.Rows.{is_ready};

use crate::spot::{Kind, TakeSpot, Taken};
use heap_words::{Access, Config, Place, Took};

/// A machine that takes room of so many words for one object, in steps of one access.
#[derive(Drop)]
pub struct Take {
    config: Config,
    seat: usize,
    words: u64,
    kind: Kind,
    spot: TakeSpot,
    ghost is_seat: { seat < seat_count config.mutators config.helpers },
    ghost least: { 3 ≤ words },
    ghost most: { words ≤ 35 },
    ghost ready: { is_ready config seat words spot ≡ true },
}

impl Take {
    ghost use Rattle.std.specs.Prelude.{false, ◌↔◌, Some};
    ghost use Rattle.heap_words.specs.Access.{table_index};
    ghost use Rattle.heap_words.specs.Words.{table_words};
    ghost use Rattle.heap_words.specs.Touch.{placed};
    ghost use Rattle.alloc_buffers.specs.Rows.{place_at, touch_at, next_at, is_ended, says_at};
    ghost use Rattle.alloc_buffers.specs.Seen.{wanted, spot_of, taken_in, end_of_taken, looks_at_free, IsFit};
    ghost use Rattle.alloc_buffers.specs.Waits.{WaitsAt, TakingEndsAt};
    ghost use Rattle.alloc_buffers.specs.Room.{MayTakeNone};

    /// A machine of a seat that wants 3 to 35 words.
    pub fn new(config: Config, seat: usize, words: u64, kind: Kind) -> Take
        requires seat { seat < seat_count config.mutators config.helpers }
        requires least { 3 ≤ words }
        requires most { words ≤ 35 }
        ensures wanted { wanted result ≡ record { config = config; seat = seat; words = words; kind = kind } }
        ensures spot { spot_of result ≡ TakeSpot.LoadBuffer }
    {
        Take {
            config,
            seat,
            words,
            kind,
            spot: TakeSpot::LoadBuffer,
        }
    }

    /// The place of its next access.
    pub fn place(&self) -> Place
        requires { is_ended (spot_of self.now) ≡ false }
        ensures { result ≡ place_at (spot_of self.now) }
    {
        self.spot.place()
    }

    /// The access of its next step.
    pub fn plan(&self) -> Access
        requires { is_ended (spot_of self.now) ≡ false }
        ensures row { result ≡ placed (wanted self.now).config (touch_at (wanted self.now).seat (wanted self.now).words (spot_of self.now)) }
        ensures inside { table_index result < table_words (wanted self.now).config }
    {
        self.spot.access(self.config, self.seat, self.words)
    }

    /// Goes on with the word that its access has found.
    pub fn took(&mut self, got: u64) -> Took
        requires busy { is_ended (spot_of self.old) ≡ false }
        requires fit { let w = wanted self.old in IsFit w.config w.seat w.words w.kind (spot_of self.old) got }
        ensures row { let w = wanted self.old in spot_of self.new ≡ next_at w.config w.words w.kind (spot_of self.old) got }
        ensures wanted { wanted self.new ≡ wanted self.old }
        ensures says { result ≡ says_at (spot_of self.old) (spot_of self.new) }

        // The taking ends at TS, and at TF where no region may be taken, and its answer is there then.
        ensures done { let w = wanted self.old in (result ≡ Took.Done) ↔ TakingEndsAt w.config w.kind (spot_of self.old) got }
        ensures answered { result ≡ Took.Done → is_ended (spot_of self.new) ≡ true }
        ensures again { (result ≡ Took.Again) ↔ WaitsAt (spot_of self.old) got }

        // There is no room exactly where the free word that was read has no region that may be taken: for a new object at most those of
        // the reserve, and for a copy none.
        ensures no_room { (taken_in (spot_of self.new) ≡ Some Taken.NoRoom) ↔ ((looks_at_free (spot_of self.old) ≡ true) × MayTakeNone (wanted self.old).config (wanted self.old).kind got) }
    {
        let before = self.spot;
        self.spot = before.after(self.config, self.seat, self.words, self.kind, got);
        before.says(self.spot)
    }

    /// The answer, once it has one: where its room begins, an address in words, or that there was no room.
    pub fn answer(&self) -> Taken
        requires { is_ended (spot_of self.now) ≡ true }
        ensures { taken_in (spot_of self.now) ≡ Some result }
    {
        match self.spot {
            TakeSpot::Ended { taken, .. } => taken,
            _ => unreachable!(),
        }
    }

    /// Where the buffer ends, out of which the room is taken, an address in words; 0 where there was no room.
    pub fn end(&self) -> u64
        requires { is_ended (spot_of self.now) ≡ true }
        ensures { end_of_taken (spot_of self.now) ≡ Some result }
    {
        match self.spot {
            TakeSpot::Ended { end, .. } => end,
            _ => unreachable!(),
        }
    }
}
