ghost use Rattle.std.specs.Prelude.{◌≡◌, ◌<◌, true, false, IfSome};
ghost use Rattle.heap_words.specs.Access.{table_index};
ghost use Rattle.heap_words.specs.Words.{Heap, IsWord, table_words};
ghost use Rattle.heap_words.specs.Touch.{placed};
ghost use Rattle.satb_barrier.specs.Rows as rows;

use heap_words::{Access, Config, Place, Took};
use regions::grey_access;

// The last entry of a buffer.
const LAST_ENTRY: usize = 7;

/// Where a mutator stands that records an address in its buffer.
#[derive(Clone, Copy)]
pub enum RememberSpot {
    /// It loads the count of its entries.
    LoadCount,
    /// Its buffer is full: it loads an entry, to mark it.
    LoadEntry {
        /// The entry, counted from 0.
        entry: usize,
    },
    /// Its buffer is full: it marks grey what it has found in an entry.
    MarkEntry {
        /// The entry, counted from 0.
        entry: usize,
        /// The address that stands in it.
        found: u64,
    },
    /// All its entries are grey: it stores that it has none.
    ClearCount,
    /// It stores the address behind its entries.
    StoreEntry {
        /// The entry, counted from 0.
        entry: usize,
    },
    /// It stores the count with that entry.
    StoreCount {
        /// The entry, counted from 0.
        entry: usize,
    },
    /// The address is recorded. It makes no access.
    Recorded,
}

impl RememberSpot {
    /// The place of the next access. There is none at the end, where it is named as that of the last access.
    pub fn place(self) -> Place
        ensures { result ≡ rows.place_at self }
    {
        match self {
            RememberSpot::LoadCount => Place::BC,
            RememberSpot::LoadEntry { .. } => Place::BL,
            RememberSpot::MarkEntry { .. } => Place::GO,
            RememberSpot::ClearCount => Place::BZ,
            RememberSpot::StoreEntry { .. } => Place::BE,
            RememberSpot::StoreCount { .. } | RememberSpot::Recorded => Place::BN,
        }
    }

    /// The address that the next access makes grey, if it does so: one of the heap.
    pub fn greys(self) -> Option<u64>
        ensures row { result ≡ rows.greys_at self }
        ensures heap { (config : Config) → rows.is_ready config self ≡ true → IfSome result (λ address. IsWord config (Heap address)) }
    {
        match self {
            RememberSpot::MarkEntry { found, .. } => Some(found),
            _ => None,
        }
    }

    /// Whether the address is recorded.
    pub fn is_ended(self) -> bool
        ensures { result ≡ rows.is_ended self }
    {
        matches!(self, RememberSpot::Recorded)
    }

    /// The next access of a mutator that records an address of the heap.
    pub fn access(self, config: Config, mutator: usize, address: u64) -> Access
        requires mutator { mutator < config.mutators }
        requires ready { rows.is_ready config self ≡ true }
        requires busy { rows.is_ended self ≡ false }
        ensures row { result ≡ placed config (rows.touch_at config mutator address self) }
        ensures inside { table_index result < table_words config }
    {
        match self {
            RememberSpot::LoadCount => Access::load(config.count_at(mutator)),
            RememberSpot::LoadEntry { entry } => Access::load(config.buffer_at(mutator, entry)),
            RememberSpot::MarkEntry { found, .. } => grey_access(config, found),
            // keeps AreTraced, KeepsMarks and ScanFacts: the entries are grey
            RememberSpot::ClearCount => Access::store(config.count_at(mutator), 0),
            // keeps KeepsMarks: the entry does not count yet
            RememberSpot::StoreEntry { entry } => Access::store(
                config.buffer_at(mutator, entry),
                address,
            ),
            // keeps KeepsMarking.entries, AreTraced and IsCovered
            RememberSpot::StoreCount { entry } => Access::store(
                config.count_at(mutator),
                entry as u64 + 1,
            ),
            RememberSpot::Recorded => unreachable!(),
        }
    }

    /// Where the mutator stands after it, by the word that the access has found.
    pub fn after(self, got: u64) -> RememberSpot
        ensures row { result ≡ rows.next_at self got }
        ensures ready { (config : Config) → rows.is_ready config self ≡ true → rows.IsFit config self got → rows.is_ready config result ≡ true }
    {
        match self {
            RememberSpot::LoadCount if got <= LAST_ENTRY as u64 => RememberSpot::StoreEntry {
                entry: got as usize,
            },
            RememberSpot::LoadCount => RememberSpot::LoadEntry { entry: 0 },
            RememberSpot::LoadEntry { entry } => RememberSpot::MarkEntry { entry, found: got },
            RememberSpot::MarkEntry { entry, .. } if entry < LAST_ENTRY => RememberSpot::LoadEntry {
                entry: entry + 1,
            },
            RememberSpot::MarkEntry { .. } => RememberSpot::ClearCount,
            RememberSpot::ClearCount => RememberSpot::StoreEntry { entry: 0 },
            RememberSpot::StoreEntry { entry } => RememberSpot::StoreCount { entry },
            RememberSpot::StoreCount { .. } | RememberSpot::Recorded => RememberSpot::Recorded,
        }
    }

    /// What the step says that is made from here: done once the count has the entry.
    pub fn says(self) -> Took
        ensures { result ≡ rows.says_at self }
    {
        match self {
            RememberSpot::StoreCount { .. } | RememberSpot::Recorded => Took::Done,
            _ => Took::More,
        }
    }
}
