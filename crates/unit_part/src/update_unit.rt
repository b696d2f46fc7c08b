ghost use Rattle.std.specs.Prelude.{◌≡◌, true};
ghost use Rattle.unit_part.specs.UpdateRows.{is_ready};

use crate::update_spot::UpdateSpot;
use heap_words::{Access, Config, Place, Took, Unit};

/// A machine that claims a unit of updating and updates it, in steps of one access.
#[derive(Drop)]
pub struct UpdateUnit {
    config: Config,
    cset: u64,
    spot: UpdateSpot,
    ghost ready: { is_ready config spot ≡ true },
}

impl UpdateUnit {
    ghost use Rattle.std.specs.Prelude.{false, ◌<◌, ◌↔◌};
    ghost use Rattle.heap_words.specs.Access.{table_index};
    ghost use Rattle.heap_words.specs.Words.{table_words};
    ghost use Rattle.heap_words.specs.Touch.{placed};
    ghost use Rattle.unit_part.specs.UpdateRows.{place_at, touch_at, next_at, says_at, is_ended};
    ghost use Rattle.unit_part.specs.UpdateSeen.{config_of, set_of, spot_of, IsFit};
    ghost use Rattle.unit_part.specs.UpdateEnds.{WaitsAt, HasNoneLeft, IsDoneAt};

    /// A machine that has claimed no unit yet, where these regions are the collection set.
    pub fn new(config: Config, cset: u64) -> UpdateUnit
        ensures config { config_of result ≡ config }
        ensures set { set_of result ≡ cset }
        ensures spot { spot_of result ≡ UpdateSpot.LoadClaim }
    {
        UpdateUnit {
            config,
            cset,
            spot: UpdateSpot::LoadClaim,
        }
    }

    /// Whether it is done. It makes no step then.
    pub fn is_done(&self) -> bool
        ensures { result ≡ is_ended (spot_of self.now) }
    {
        self.spot.is_ended()
    }

    /// The place of its next access.
    pub fn place(&self) -> Place
        requires { is_ended (spot_of self.now) ≡ false }
        ensures { result ≡ place_at (spot_of self.now) }
    {
        self.spot.place()
    }

    /// The access of its next step.
    pub fn plan(&self) -> Access
        requires { is_ended (spot_of self.now) ≡ false }
        ensures row { result ≡ placed (config_of self.now) (touch_at (config_of self.now) (spot_of self.now)) }
        ensures inside { table_index result < table_words (config_of self.now) }
    {
        self.spot.access(self.config)
    }

    /// Goes on with the word that its access has found. A word is fit if the access that follows is of the table: limit and tams
    /// are not past the region's end, and an object below the limit lies in the heap, up to its last reference.
    pub fn took(&mut self, got: u64) -> Took
        requires busy { is_ended (spot_of self.old) ≡ false }
        requires fit { IsFit (config_of self.old) (set_of self.old) (spot_of self.old) got }
        ensures spot { spot_of self.new ≡ next_at (config_of self.old) (set_of self.old) (spot_of self.old) got }
        ensures config { config_of self.new ≡ config_of self.old }
        ensures set { set_of self.new ≡ set_of self.old }
        ensures says { result ≡ says_at (config_of self.old) (set_of self.old) (spot_of self.old) got }

        // It ends at UC where no unit is left, and elsewhere where the unit is done; again is said at KX alone.
        ensures done { (result ≡ Took.Done) ↔ (is_ended (spot_of self.new) ≡ true) }
        ensures none_left { (spot_of self.new ≡ UpdateSpot.Ended Unit.NoneLeft) ↔ HasNoneLeft (config_of self.old) (spot_of self.old) got }
        ensures worked { (spot_of self.new ≡ UpdateSpot.Ended Unit.Worked) ↔ IsDoneAt (config_of self.old) (set_of self.old) (spot_of self.old) got }
        ensures again { (result ≡ Took.Again) ↔ WaitsAt (spot_of self.old) got }
    {
        let before = self.spot;
        self.spot = before.after(self.config, self.cset, got);
        before.says(self.config, self.cset, got)
    }

    /// Whether it has done a unit or none was left, once it is done.
    pub fn answer(&self) -> Unit
        requires { is_ended (spot_of self.now) ≡ true }
        ensures { spot_of self.now ≡ UpdateSpot.Ended result }
    {
        match self.spot {
            UpdateSpot::Ended { unit } => unit,
            _ => unreachable!(),
        }
    }
}
