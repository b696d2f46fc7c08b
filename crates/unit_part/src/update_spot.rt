ghost use Rattle.std.specs.Prelude.{◌≡◌, ◌<◌, ◌+◌, ◌==◌, ◌↔◌, true, false};
ghost use Rattle.std.specs.Int.{bit_at};
ghost use Rattle.heap_words.specs.Access.{table_index};
ghost use Rattle.heap_words.specs.Words.{Heap, IsWord, is_word, table_words, word_at};
ghost use Rattle.heap_words.specs.Touch.{placed};
ghost use Rattle.unit_part.specs.UpdateRows as rows;
ghost use Rattle.unit_part.specs.UpdateEnds.{WaitsAt};

use heap_words::{
    Access, Config, Place, Took, Unit, filler_words, forwarded, forwardee, refs_of, words_of,
};
use regions::{base, is_in, is_marked_in, mark_word, region_of};

/// A walk over the objects of a region, with the words of the region that end it and say which objects are kept.
#[derive(Clone, Copy)]
pub struct Walk {
    /// The region, counted from 0.
    pub region: usize,
    /// Its top when updating began, counted in words from its base. The walk ends there.
    pub limit: u64,
    /// Its top when marking began, counted alike. An object below it is kept where it is marked; each other one is.
    pub tams: u64,
}

/// An object that a walk has come to.
#[derive(Clone, Copy)]
pub struct Visit {
    /// The walk.
    pub walk: Walk,
    /// The object's address.
    pub address: u64,
    /// Its shape word.
    pub shape: u64,
}

/// Where a machine stands that claims a unit of updating and updates it.
#[derive(Clone, Copy)]
pub enum UpdateSpot {
    /// It loads how many units were claimed.
    LoadClaim,
    /// It claims the next unit.
    ClaimUnit {
        /// The unit: a region, counted from 0.
        unit: u64,
    },
    /// It loads the limit of its region.
    LoadLimit {
        /// The region.
        region: usize,
    },
    /// It loads the region's top when marking began.
    LoadTams {
        /// The region.
        region: usize,
        /// Its limit.
        limit: u64,
    },
    /// It loads the header where the walk stands, an object's or a filler's.
    LoadFirst {
        /// The walk over the region.
        walk: Walk,
        /// Where it stands.
        address: u64,
    },
    /// It loads the shape of the next object.
    LoadShape {
        /// The walk over the region.
        walk: Walk,
        /// The object's address.
        address: u64,
    },
    /// It loads the word that has the object's black bit.
    LoadBlack {
        /// The object.
        at: Visit,
    },
    /// It loads a reference of the object.
    LoadField {
        /// The object.
        at: Visit,
        /// The reference, counted from 0.
        field: u64,
    },
    /// It loads the header of what that reference names, an object of the collection set.
    LoadHeader {
        /// The object.
        at: Visit,
        /// The reference, counted from 0.
        field: u64,
        /// The address that it names.
        found: u64,
    },
    /// It exchanges the reference for one to the copy.
    ExchangeField {
        /// The object.
        at: Visit,
        /// The reference, counted from 0.
        field: u64,
        /// The address that it names.
        found: u64,
        /// The address of the copy.
        copy: u64,
    },
    /// The unit is done, or none was left. It makes no access.
    Ended {
        /// Which of the two.
        unit: Unit,
    },
}

impl UpdateSpot {
    /// The place of the next access. There is none at the end, where it is named as that of one that ends so.
    pub fn place(self) -> Place
        ensures { result ≡ rows.place_at self }
    {
        match self {
            UpdateSpot::LoadClaim => Place::UC,
            UpdateSpot::ClaimUnit { .. } => Place::KX,
            UpdateSpot::LoadLimit { .. } => Place::UL,
            UpdateSpot::LoadTams { .. } => Place::UT,
            UpdateSpot::LoadFirst { .. } => Place::UG,
            UpdateSpot::LoadShape { .. } => Place::US,
            UpdateSpot::LoadBlack { .. } => Place::UB,
            UpdateSpot::LoadField { .. } => Place::UF,
            UpdateSpot::LoadHeader { .. } => Place::UH,
            UpdateSpot::ExchangeField { .. } => Place::UX,
            UpdateSpot::Ended { unit: Unit::Worked } => Place::UF,
            UpdateSpot::Ended {
                unit: Unit::NoneLeft,
            } => Place::UC,
        }
    }

    /// Whether the unit is done, or none was left.
    pub fn is_ended(self) -> bool
        ensures { result ≡ rows.is_ended self }
    {
        matches!(self, UpdateSpot::Ended { .. })
    }

    /// The next access.
    pub fn access(self, config: Config) -> Access
        requires ready { rows.is_ready config self ≡ true }
        requires busy { rows.is_ended self ≡ false }
        ensures row { result ≡ placed config (rows.touch_at config self) }
        ensures inside { table_index result < table_words config }
    {
        match self {
            UpdateSpot::LoadClaim => Access::load(config.claim_at()),
            UpdateSpot::ClaimUnit { unit } => claim_access(config, unit),
            UpdateSpot::LoadLimit { region } => Access::load(config.limit_at(region)),
            UpdateSpot::LoadTams { region, .. } => Access::load(config.tams_at(region)),
            UpdateSpot::LoadFirst { address, .. } => load_of_heap(config, address),
            UpdateSpot::LoadShape { address, .. } => load_of_heap(config, address + 1),
            UpdateSpot::LoadBlack { at } => Access::load(config.black_at(mark_word(
                config, at.address,
            ))),
            UpdateSpot::LoadField { at, field } => load_of_heap(config, at.address + 3 + field),
            UpdateSpot::LoadHeader { found, .. } => load_of_heap(config, found),
            UpdateSpot::ExchangeField {
                at,
                field,
                found,
                copy,
            } => exchange_of_heap(config, at.address + 3 + field, found, copy),
            UpdateSpot::Ended { .. } => unreachable!(),
        }
    }

    /// Where the machine stands after it, by the collection set and the word that the access has found.
    pub fn after(self, config: Config, cset: u64, got: u64) -> UpdateSpot
        requires { rows.is_ready config self ≡ true }
        ensures { result ≡ rows.next_at config cset self got }
    {
        match self {
            UpdateSpot::LoadClaim => after_load_claim(config, got),
            UpdateSpot::ClaimUnit { unit } => after_claim(config, cset, unit, got),
            UpdateSpot::LoadLimit { .. } if got == 0 => WORKED,
            UpdateSpot::LoadLimit { region } => UpdateSpot::LoadTams { region, limit: got },
            UpdateSpot::LoadTams { region, limit } => first_object(config, region, limit, got),
            UpdateSpot::LoadFirst { walk, address } => after_first(config, walk, address, got),
            UpdateSpot::LoadShape { walk, address } => after_shape(
                config,
                Visit {
                    walk,
                    address,
                    shape: got,
                },
            ),
            UpdateSpot::LoadBlack { at } if is_marked_in(config, at.address, got) => {
                UpdateSpot::LoadField { at, field: 0 }
            }
            UpdateSpot::LoadBlack { at } => object_behind(config, at),
            UpdateSpot::LoadField { at, field } => after_field(config, cset, at, field, got),
            UpdateSpot::LoadHeader { at, field, found } => {
                after_header(config, at, field, found, got)
            }
            UpdateSpot::ExchangeField { at, field, .. } => next_field(config, at, field + 1),
            UpdateSpot::Ended { .. } => self,
        }
    }

    /// What the step says that finds this word.
    pub fn says(self, config: Config, cset: u64, got: u64) -> Took
        requires { rows.is_ready config self ≡ true }
        ensures row { result ≡ rows.says_at config cset self got }
        ensures again { (result ≡ Took.Again) ↔ WaitsAt self got }
    {
        match self {
            UpdateSpot::ClaimUnit { unit } if got != unit => Took::Again,
            _ if self.after(config, cset, got).is_ended() => Took::Done,
            _ => Took::More,
        }
    }
}

const WORKED: UpdateSpot = UpdateSpot::Ended { unit: Unit::Worked };

const NONE_LEFT: UpdateSpot = UpdateSpot::Ended {
    unit: Unit::NoneLeft,
};

// The access that claims a unit.
fn claim_access(config: Config, unit: u64) -> Access
    requires { rows.has_unit config unit ≡ true }
    ensures row { result ≡ placed config (rows.touch_at config (UpdateSpot.ClaimUnit unit)) }
    ensures inside { table_index result < table_words config }
{
    // keeps IsUpdating.renewed and KeepsFields
    Access::exchange(config.claim_at(), unit, unit + 1)
}

// The load of a word of the heap.
fn load_of_heap(config: Config, address: u64) -> Access
    requires { IsWord config (Heap address) }
    ensures row { result ≡ Access.Load (word_at config (Heap address)) }
    ensures inside { table_index result < table_words config }
{
    Access::load(config.heap_at(address))
}

// The exchange of a word of the heap.
fn exchange_of_heap(config: Config, address: u64, expect: u64, value: u64) -> Access
    requires { IsWord config (Heap address) }
    ensures row { result ≡ Access.Exchange (word_at config (Heap address)) expect value }
    ensures inside { table_index result < table_words config }
{
    // keeps AreObjects, IsUpdating.renewed, KeepsFields and HasFound.still
    Access::exchange(config.heap_at(address), expect, value)
}

// What follows the load of the claim word.
fn after_load_claim(config: Config, got: u64) -> UpdateSpot
    ensures { result ≡ rows.next_at config 0 UpdateSpot.LoadClaim got }
{
    if got < config.regions() as u64 {
        UpdateSpot::ClaimUnit { unit: got }
    } else {
        NONE_LEFT
    }
}

// What follows the claim of a unit, by the word that it has found.
fn after_claim(config: Config, cset: u64, unit: u64, got: u64) -> UpdateSpot
    requires { rows.has_unit config unit ≡ true }
    ensures { result ≡ rows.next_at config cset (UpdateSpot.ClaimUnit unit) got }
{
    if got != unit {
        UpdateSpot::LoadClaim
    } else if is_in(cset, unit as usize) {
        WORKED
    } else {
        UpdateSpot::LoadLimit {
            region: unit as usize,
        }
    }
}

// The spot at the base of a region.
fn first_object(config: Config, region: usize, limit: u64, tams: u64) -> UpdateSpot
    requires { region < config.regions }
    ensures { result ≡ rows.next_at config 0 (UpdateSpot.LoadTams region limit) tams }
{
    UpdateSpot::LoadFirst {
        walk: Walk {
            region,
            limit,
            tams,
        },
        address: base(config, region),
    }
}

// What follows once an object is dealt with: the next one below the limit, if there is one.
fn object_behind(config: Config, at: Visit) -> UpdateSpot
    requires walk { rows.walk_fits config at.walk ≡ true }
    requires there { IsWord config (Heap at.address) }
    ensures { result ≡ rows.next_object config at.walk (rows.visit_end at) }
{
    walk_on(config, at.walk, at.address + words_of(at.shape))
}

// Where the walk goes on once all below an address is dealt with.
fn walk_on(config: Config, walk: Walk, address: u64) -> UpdateSpot
    requires walk { rows.walk_fits config walk ≡ true }
    ensures { result ≡ rows.next_object config walk address }
{
    if address < base(config, walk.region) + walk.limit {
        UpdateSpot::LoadFirst { walk, address }
    } else {
        WORKED
    }
}

// What follows the load of a header: the walk steps over a filler.
fn after_first(config: Config, walk: Walk, address: u64, header: u64) -> UpdateSpot
    requires walk { rows.walk_fits config walk ≡ true }
    requires there { IsWord config (Heap address) }
    ensures { result ≡ rows.after_first config walk address header }
{
    match filler_words(header) {
        Some(words) => walk_on(config, walk, address + words),
        None => UpdateSpot::LoadShape { walk, address },
    }
}

// What follows once so many of an object's references are dealt with.
fn next_field(config: Config, at: Visit, field: u64) -> UpdateSpot
    requires walk { rows.walk_fits config at.walk ≡ true }
    requires there { IsWord config (Heap at.address) }
    ensures { result ≡ rows.next_field config at field }
{
    if field < refs_of(at.shape) {
        UpdateSpot::LoadField { at, field }
    } else {
        object_behind(config, at)
    }
}

// What follows once an object's shape is loaded.
fn after_shape(config: Config, at: Visit) -> UpdateSpot
    requires walk { rows.walk_fits config at.walk ≡ true }
    requires there { IsWord config (Heap at.address) }
    ensures { result ≡ rows.after_shape config at }
{
    if refs_of(at.shape) == 0 {
        object_behind(config, at)
    } else if at.address < base(config, at.walk.region) + at.walk.tams {
        UpdateSpot::LoadBlack { at }
    } else {
        UpdateSpot::LoadField { at, field: 0 }
    }
}

// Whether a word is an address of a region in the collection set.
fn names_set(config: Config, cset: u64, word: u64) -> bool
    ensures { result ≡ rows.names_set config cset word }
{
    is_address(config, word) && is_in(cset, region_of(config, word))
}

// Whether a word is an address of the heap.
fn is_address(config: Config, word: u64) -> bool
    ensures { result ≡ is_word config (Heap word) }
{
    let words = config.region_words() as u64;
    words <= word && word < (config.regions() as u64 + 1) * words
}

// What follows the load of a reference.
fn after_field(config: Config, cset: u64, at: Visit, field: u64, got: u64) -> UpdateSpot
    requires { rows.has_field config at field ≡ true }
    ensures { result ≡ rows.next_at config cset (UpdateSpot.LoadField at field) got }
{
    if names_set(config, cset, got) {
        UpdateSpot::LoadHeader {
            at,
            field,
            found: got,
        }
    } else {
        next_field(config, at, field + 1)
    }
}

// What follows the load of the header of what a reference names.
fn after_header(config: Config, at: Visit, field: u64, found: u64, header: u64) -> UpdateSpot
    requires { rows.has_field config at field ≡ true }
    ensures { result ≡ rows.next_at config 0 (UpdateSpot.LoadHeader at field found) header }
{
    if forwarded(header) {
        UpdateSpot::ExchangeField {
            at,
            field,
            found,
            copy: forwardee(header),
        }
    } else {
        next_field(config, at, field + 1)
    }
}
