ghost use Rattle.std.specs.Prelude.{◌≡◌, ◌<◌, ◌+◌, ◌↔◌, true, false, IfSome};
ghost use Rattle.heap_words.specs.Access.{table_index};
ghost use Rattle.heap_words.specs.Words.{Claim, Heap, IsWord, table_words, word_at};
ghost use Rattle.heap_words.specs.Touch.{placed};
ghost use Rattle.unit_part.specs.ScanRows as rows;
ghost use Rattle.unit_part.specs.ScanEnds.{WaitsAt};
ghost use Rattle.unit_part.specs.ScanSeen.{IsFit};

use heap_words::{Access, Config, Place, Took, Unit, refs_of};
use regions::{black_access, grey_access, is_marked_in, lowest_address, mark_word, mark_words};

/// Where a machine stands that claims a unit of marking and scans it.
#[derive(Clone, Copy)]
pub enum ScanSpot {
    /// It loads how many units were claimed.
    LoadClaim,
    /// It claims the next unit.
    ClaimUnit {
        /// The unit, counted from 0.
        unit: u64,
    },
    /// It loads a word of grey bits.
    LoadGrey {
        /// The word, counted from 0.
        word: usize,
    },
    /// It loads the black bits of the same addresses.
    LoadBlack {
        /// The word, counted from 0.
        word: usize,
        /// The grey bits that it has found.
        grey: u64,
    },
    /// It makes an address black.
    SetBlack {
        /// The address.
        address: u64,
    },
    /// It loads the shape of the object there.
    LoadShape {
        /// The object's address.
        address: u64,
    },
    /// It loads a reference of the object.
    LoadField {
        /// The object's address.
        address: u64,
        /// The reference, counted from 0.
        field: u64,
        /// The object's references.
        refs: u64,
    },
    /// It makes grey what that reference names.
    SetGrey {
        /// The object's address.
        address: u64,
        /// The reference, counted from 0.
        field: u64,
        /// The object's references.
        refs: u64,
        /// The address that it names.
        found: u64,
    },
    /// The unit is done, or none was left. It makes no access.
    Ended {
        /// Which of the two.
        unit: Unit,
    },
}

impl ScanSpot {
    /// Where a machine goes on that has claimed no unit and takes the hint of an address: at the word that has its mark, as if it
    /// had claimed that.
    pub fn hinted(config: Config, address: u64) -> ScanSpot
        requires { IsWord config (Heap address) }
        ensures row { result ≡ rows.hinted config address }
        ensures claimed { rows.has_claimed result ≡ true }
        ensures ready { rows.is_ready config result ≡ true }
    {
        ScanSpot::LoadGrey {
            word: mark_word(config, address),
        }
    }

    /// The address that the next access makes grey, if it does so: one of the heap.
    pub fn greys(self) -> Option<u64>
        ensures row { result ≡ rows.greys_at self }
        ensures heap { (config : Config) → rows.is_ready config self ≡ true → IfSome result (λ address. IsWord config (Heap address)) }
    {
        match self {
            ScanSpot::SetGrey { found, .. } => Some(found),
            _ => None,
        }
    }

    /// The place of the next access. There is none at the end, where it is named as that of the last access.
    pub fn place(self) -> Place
        ensures { result ≡ rows.place_at self }
    {
        match self {
            ScanSpot::LoadClaim => Place::MC,
            ScanSpot::ClaimUnit { .. } => Place::KX,
            ScanSpot::LoadGrey { .. } => Place::MG,
            ScanSpot::LoadBlack { .. } => Place::MB,
            ScanSpot::SetBlack { .. } => Place::MO,
            ScanSpot::LoadShape { .. } => Place::MS,
            ScanSpot::LoadField { .. } => Place::MF,
            ScanSpot::SetGrey { .. } => Place::GO,
            ScanSpot::Ended { unit: Unit::Worked } => Place::MB,
            ScanSpot::Ended {
                unit: Unit::NoneLeft,
            } => Place::MC,
        }
    }

    /// Whether the unit is done, or none was left.
    pub fn is_ended(self) -> bool
        ensures { result ≡ rows.is_ended self }
    {
        matches!(self, ScanSpot::Ended { .. })
    }

    /// The next access.
    pub fn access(self, config: Config) -> Access
        requires ready { rows.is_ready config self ≡ true }
        requires busy { rows.is_ended self ≡ false }
        ensures row { result ≡ placed config (rows.touch_at config self) }
        ensures inside { table_index result < table_words config }
    {
        match self {
            ScanSpot::LoadClaim => Access::load(config.claim_at()),
            ScanSpot::ClaimUnit { unit } => claim_access(config, unit),
            ScanSpot::LoadGrey { word } => Access::load(config.grey_at(word)),
            ScanSpot::LoadBlack { word, .. } => Access::load(config.black_at(word)),
            ScanSpot::SetBlack { address } => black_access(config, address),
            ScanSpot::LoadShape { address } => load_of_object(config, address, 1),
            ScanSpot::LoadField { address, field, .. } => load_of_object(
                config,
                address,
                3 + field,
            ),
            ScanSpot::SetGrey { found, .. } => grey_access(config, found),
            ScanSpot::Ended { .. } => unreachable!(),
        }
    }

    /// Where the machine stands after it, by the word that the access has found.
    pub fn after(self, config: Config, got: u64) -> ScanSpot
        requires ready { rows.is_ready config self ≡ true }
        requires fit { IsFit config self got }
        ensures row { result ≡ rows.next_at config self got }
    {
        match self {
            ScanSpot::LoadClaim if has_unit(config, got) => ScanSpot::ClaimUnit { unit: got },
            ScanSpot::LoadClaim => NONE_LEFT,
            ScanSpot::ClaimUnit { unit } if got == unit => ScanSpot::LoadGrey {
                word: unit as usize,
            },
            ScanSpot::ClaimUnit { .. } => ScanSpot::LoadClaim,
            ScanSpot::LoadGrey { word } => ScanSpot::LoadBlack { word, grey: got },
            ScanSpot::LoadBlack { word, grey } => after_bits(config, word, grey & !got),
            ScanSpot::SetBlack { address } if is_marked_in(config, address, got) => {
                ScanSpot::LoadGrey {
                    word: mark_word(config, address),
                }
            }
            ScanSpot::SetBlack { address } => ScanSpot::LoadShape { address },
            ScanSpot::LoadShape { address } => next_reference(config, address, 0, refs_of(got)),
            ScanSpot::LoadField {
                address,
                field,
                refs,
            } if got == 0 => next_reference(config, address, field + 1, refs),
            ScanSpot::LoadField {
                address,
                field,
                refs,
            } => ScanSpot::SetGrey {
                address,
                field,
                refs,
                found: got,
            },
            ScanSpot::SetGrey {
                address,
                field,
                refs,
                ..
            } => next_reference(config, address, field + 1, refs),
            ScanSpot::Ended { .. } => self,
        }
    }

    /// What the step says that finds this word.
    pub fn says(self, config: Config, got: u64) -> Took
        ensures row { result ≡ rows.says_at config self got }
        ensures again { (result ≡ Took.Again) ↔ WaitsAt self got }
    {
        match self {
            ScanSpot::LoadClaim if !has_unit(config, got) => Took::Done,
            ScanSpot::ClaimUnit { unit } if got != unit => Took::Again,
            ScanSpot::LoadBlack { grey, .. } if grey & !got == 0 => Took::Done,
            ScanSpot::Ended { .. } => Took::Done,
            _ => Took::More,
        }
    }
}

const WORKED: ScanSpot = ScanSpot::Ended { unit: Unit::Worked };

const NONE_LEFT: ScanSpot = ScanSpot::Ended {
    unit: Unit::NoneLeft,
};

// Whether there is a unit of this number.
fn has_unit(config: Config, unit: u64) -> bool
    ensures { result ≡ rows.has_unit config unit }
{
    unit < mark_words(config) as u64
}

// The access that claims a unit.
fn claim_access(config: Config, unit: u64) -> Access
    requires { rows.has_unit config unit ≡ true }
    ensures row { result ≡ placed config (rows.touch_at config (ScanSpot.ClaimUnit unit)) }
    ensures inside { table_index result < table_words config }
{
    // keeps KeepsFields: the word of the claims only grows
    Access::exchange(config.claim_at(), unit, unit + 1)
}

// The load of a word of an object, counted from 0.
fn load_of_object(config: Config, address: u64, index: u64) -> Access
    requires { IsWord config (Heap (address + index)) }
    ensures row { result ≡ Access.Load (word_at config (Heap (address + index))) }
    ensures inside { table_index result < table_words config }
{
    Access::load(config.heap_at(address + index))
}

// What follows the loads of a word of bits: the lowest address that is grey and not black, if there is one.
fn after_bits(config: Config, word: usize, unscanned: u64) -> ScanSpot
    requires { rows.is_ready config (ScanSpot.LoadGrey word) ≡ true }
    ensures { result ≡ rows.after_bits config word unscanned }
{
    if unscanned == 0 {
        WORKED
    } else {
        ScanSpot::SetBlack {
            address: lowest_address(config, word, unscanned),
        }
    }
}

// What follows once so many of an object's references are dealt with.
fn next_reference(config: Config, address: u64, field: u64, refs: u64) -> ScanSpot
    requires { IsWord config (Heap address) }
    ensures { result ≡ rows.next_reference config address field refs }
{
    if field < refs {
        ScanSpot::LoadField {
            address,
            field,
            refs,
        }
    } else {
        ScanSpot::LoadGrey {
            word: mark_word(config, address),
        }
    }
}
