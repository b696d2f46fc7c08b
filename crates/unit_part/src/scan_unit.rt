ghost use Rattle.std.specs.Prelude.{◌≡◌, true};
ghost use Rattle.unit_part.specs.ScanRows.{is_ready};

use crate::scan_spot::ScanSpot;
use heap_words::{Access, Config, Place, Took, Unit};

/// A machine that claims a unit of marking and scans it, in steps of one access.
#[derive(Drop)]
pub struct ScanUnit {
    config: Config,
    spot: ScanSpot,
    ghost ready: { is_ready config spot ≡ true },
}

impl ScanUnit {
    ghost use Rattle.std.specs.Prelude.{false, ◌<◌, ◌↔◌};
    ghost use Rattle.heap_words.specs.Access.{table_index};
    ghost use Rattle.heap_words.specs.Words.{Heap, IsWord, table_words};
    ghost use Rattle.heap_words.specs.Touch.{placed};
    ghost use Rattle.unit_part.specs.ScanRows.{place_at, touch_at, next_at, says_at, is_ended, hinted, has_claimed};
    ghost use Rattle.unit_part.specs.ScanSeen.{config_of, spot_of, IsFit};
    ghost use Rattle.unit_part.specs.ScanEnds.{WaitsAt, HasNoneLeft, IsDoneAt};

    /// A machine that has claimed no unit yet.
    pub fn new(config: Config) -> ScanUnit
        ensures config { config_of result ≡ config }
        ensures spot { spot_of result ≡ ScanSpot.LoadClaim }
    {
        ScanUnit {
            config,
            spot: ScanSpot::LoadClaim,
        }
    }

    /// A machine that takes the hint of an address of the heap: it scans the word that has the address's mark, and claims no unit.
    pub fn hinted(config: Config, address: u64) -> ScanUnit
        requires { IsWord config (Heap address) }
        ensures config { config_of result ≡ config }
        ensures spot { spot_of result ≡ hinted config address }
        ensures claimed { has_claimed (spot_of result) ≡ true }
    {
        ScanUnit {
            config,
            spot: ScanSpot::hinted(config, address),
        }
    }

    /// Whether it is done. It makes no step then.
    pub fn is_done(&self) -> bool
        ensures { result ≡ is_ended (spot_of self.now) }
    {
        self.spot.is_ended()
    }

    /// The place of its next access.
    pub fn place(&self) -> Place
        requires { is_ended (spot_of self.now) ≡ false }
        ensures { result ≡ place_at (spot_of self.now) }
    {
        self.spot.place()
    }

    /// The access of its next step.
    pub fn plan(&self) -> Access
        requires { is_ended (spot_of self.now) ≡ false }
        ensures row { result ≡ placed (config_of self.now) (touch_at (config_of self.now) (spot_of self.now)) }
        ensures inside { table_index result < table_words (config_of self.now) }
    {
        self.spot.access(self.config)
    }

    /// Goes on with the word that its access has found. A word is fit if the access that follows is of the table: the address
    /// of a bit that is grey and not black is one of the heap, a shape's references lie in it, and a reference is 0 or an address.
    pub fn took(&mut self, got: u64) -> Took
        requires busy { is_ended (spot_of self.old) ≡ false }
        requires fit { IsFit (config_of self.old) (spot_of self.old) got }
        ensures spot { spot_of self.new ≡ next_at (config_of self.old) (spot_of self.old) got }
        ensures config { config_of self.new ≡ config_of self.old }
        ensures says { result ≡ says_at (config_of self.old) (spot_of self.old) got }

        // Who has claimed a unit or taken a hint does so to its end.
        ensures claimed { has_claimed (spot_of self.old) ≡ true → has_claimed (spot_of self.new) ≡ true }

        // It ends at MC where no unit is left, and at MB where the unit is done; again is said at KX alone.
        ensures done { (result ≡ Took.Done) ↔ (is_ended (spot_of self.new) ≡ true) }
        ensures none_left { (spot_of self.new ≡ ScanSpot.Ended Unit.NoneLeft) ↔ HasNoneLeft (config_of self.old) (spot_of self.old) got }
        ensures worked { (spot_of self.new ≡ ScanSpot.Ended Unit.Worked) ↔ IsDoneAt (spot_of self.old) got }
        ensures again { (result ≡ Took.Again) ↔ WaitsAt (spot_of self.old) got }
    {
        let before = self.spot;
        self.spot = before.after(self.config, got);
        before.says(self.config, got)
    }

    /// Whether it has done a unit or none was left, once it is done. Who has taken a hint has done one.
    pub fn answer(&self) -> Unit
        requires { is_ended (spot_of self.now) ≡ true }
        ensures which { spot_of self.now ≡ ScanSpot.Ended result }
        ensures claimed { has_claimed (spot_of self.now) ≡ true → result ≡ Unit.Worked }
    {
        match self.spot {
            ScanSpot::Ended { unit } => unit,
            _ => unreachable!(),
        }
    }
}
