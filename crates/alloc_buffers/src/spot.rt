ghost use Rattle.std.specs.Prelude.{◌≡◌, ◌<◌, ◌≤◌, true, false};
ghost use Rattle.heap_words.specs.Ranges.{seat_count};
ghost use Rattle.heap_words.specs.Access.{table_index};
ghost use Rattle.heap_words.specs.Words.{table_words};
ghost use Rattle.heap_words.specs.Touch.{placed};
ghost use Rattle.alloc_buffers.specs.Rows as rows;
ghost use Rattle.alloc_buffers.specs.Seen.{IsFit};

use heap_words::{Access, Config, Place, Took, buffer, end_of, filler, next_of};
use regions::{all_but, base, is_in, lowest, size};

/// The words of a buffer, where the shared region has so many left.
const BUFFER_WORDS: u64 = 64;

/// What the room is for.
#[derive(Clone, Copy)]
pub enum Kind {
    /// For a new object: it leaves the reserve of free regions to copies.
    Fresh,
    /// For a copy, which may take the last free region.
    Evacuated,
}

/// What came of it.
#[derive(Clone, Copy, PartialEq, Eq)]
pub enum Taken {
    /// The room begins at this address, in words. That nobody else has it is a theorem of the machines together.
    At(u64),
    /// The buffer and the shared region, if there are any, have too little room, and no free region may be taken.
    NoRoom,
}

/// Where a machine stands that takes room.
#[derive(Clone, Copy)]
pub enum TakeSpot {
    /// It loads the buffer of its seat.
    LoadBuffer,
    /// The buffer has too little room: it loads the shared region.
    LoadShared {
        /// The word of the buffer.
        buffer: u64,
    },
    /// It loads the top of the shared region.
    LoadTop {
        /// The word of the old buffer.
        buffer: u64,
        /// The region, counted from 0.
        region: usize,
    },
    /// It carves a buffer out of the shared region.
    Carve {
        /// The word of the old buffer.
        buffer: u64,
        /// The region, counted from 0.
        region: usize,
        /// Its top, in words used.
        top: u64,
        /// The words of the new buffer.
        room: u64,
    },
    /// It loads the free word.
    LoadFree {
        /// The word of the buffer.
        buffer: u64,
        /// The word of the shared region.
        shared: u64,
    },
    /// It clears the region's bit in the free word.
    TakeRegion {
        /// The word of the buffer.
        buffer: u64,
        /// The word of the shared region.
        shared: u64,
        /// The region, counted from 0.
        region: usize,
    },
    /// It makes the region the shared one.
    ShareRegion {
        /// The word of the buffer.
        buffer: u64,
        /// The word of the region that was shared.
        shared: u64,
        /// The region, counted from 0.
        region: usize,
    },
    /// Another machine has shared a region first: it sets the region's bit in the free word again.
    GiveBack {
        /// The word of the buffer.
        buffer: u64,
        /// The region, counted from 0.
        region: usize,
    },
    /// It has carved a buffer, and stores a filler over what is left of the old one.
    Fill {
        /// The word of the old buffer.
        buffer: u64,
        /// Where the new buffer begins.
        address: u64,
        /// The words of the new buffer.
        room: u64,
    },
    /// It stores its buffer, without the words that it takes.
    StoreBuffer {
        /// Where the free words begin.
        address: u64,
        /// How many they are.
        room: u64,
    },
    /// It has its answer.
    Ended {
        /// The answer.
        taken: Taken,
        /// Where the buffer ends, out of which the room is taken; 0 where there was no room.
        end: u64,
    },
}

impl TakeSpot {
    /// The place of the next access.
    pub fn place(self) -> Place
        ensures { result ≡ rows.place_at self }
    {
        match self {
            TakeSpot::LoadBuffer => Place::TC,
            TakeSpot::LoadShared { .. } => Place::TR,
            TakeSpot::LoadTop { .. } => Place::TT,
            TakeSpot::Carve { .. } => Place::TX,
            TakeSpot::LoadFree { .. } => Place::TF,
            TakeSpot::TakeRegion { .. } => Place::TG,
            TakeSpot::ShareRegion { .. } => Place::TV,
            TakeSpot::GiveBack { .. } => Place::TQ,
            TakeSpot::Fill { .. } => Place::TZ,
            TakeSpot::StoreBuffer { .. } | TakeSpot::Ended { .. } => Place::TS,
        }
    }

    /// Whether the machine has its answer.
    pub fn is_ended(self) -> bool
        ensures { result ≡ rows.is_ended self }
    {
        matches!(self, TakeSpot::Ended { .. })
    }

    /// The next access of the machine of a seat that wants so many words.
    pub fn access(self, config: Config, seat: usize, words: u64) -> Access
        requires seat { seat < seat_count config.mutators config.helpers }
        requires ready { rows.is_ready config seat words self ≡ true }
        requires busy { rows.is_ended self ≡ false }
        ensures row { result ≡ placed config (rows.touch_at seat words self) }
        ensures inside { table_index result < table_words config }
    {
        match self {
            TakeSpot::LoadBuffer => Access::load(config.cur_at(seat)),
            TakeSpot::LoadShared { .. } => Access::load(config.share_at()),
            TakeSpot::LoadTop { region, .. } => Access::load(config.top_at(region)),
            TakeSpot::Carve {
                region,
                top,
                room,
                ..
            } => {
                // keeps IsPlotted, IsFilled and AreRooms
                // keeps KeepsSnapshot.floors, KeepsMarking.young, IsUpdating.limits and IsUpdating.young
                Access::exchange(config.top_at(region), top, top + room)
            }
            TakeSpot::LoadFree { .. } => Access::load(config.free_at()),
            // keeps IsFreeWord and AreSetAside
            TakeSpot::TakeRegion { region, .. } => Access::and(config.free_at(), all_but(region)),
            // keeps ShareIsOpen
            TakeSpot::ShareRegion { shared, region, .. } => Access::exchange(
                config.share_at(),
                shared,
                region as u64 + 1,
            ),
            // keeps IsFreeWord, ShareIsOpen and AreSetAside
            TakeSpot::GiveBack { region, .. } => Access::or(config.free_at(), 1 << region),
            // keeps AreUnwritten.fillers and AreBuffers
            TakeSpot::Fill { buffer, .. } => Access::store(
                config.heap_at(next_of(buffer)),
                filler(end_of(buffer) - next_of(buffer)),
            ),
            // keeps AreBuffers and AreRooms
            TakeSpot::StoreBuffer { address, room } => Access::store(
                config.cur_at(seat),
                buffer(address + words, address + room),
            ),
            TakeSpot::Ended { .. } => unreachable!(),
        }
    }

    /// Where the machine stands after it, by the word that the access has found.
    pub fn after(self, config: Config, seat: usize, words: u64, kind: Kind, got: u64) -> TakeSpot
        requires least { 3 ≤ words }
        requires most { words ≤ 35 }
        requires ready { rows.is_ready config seat words self ≡ true }
        requires fit { IsFit config seat words kind self got }
        ensures row { result ≡ rows.next_at config words kind self got }
    {
        match self {
            TakeSpot::LoadBuffer => after_buffer(words, got),
            TakeSpot::LoadShared { buffer } => after_shared(buffer, got),
            TakeSpot::LoadTop { buffer, region } => after_top(config, words, buffer, region, got),
            TakeSpot::Carve {
                buffer,
                region,
                top,
                room,
            } => {
                if got != top {
                    TakeSpot::LoadShared { buffer }
                } else {
                    carved(buffer, base(config, region) + top, room)
                }
            }
            TakeSpot::LoadFree { buffer, shared } => after_free(config, kind, buffer, shared, got),
            TakeSpot::TakeRegion {
                buffer,
                shared,
                region,
            } => {
                if is_in(got, region) {
                    TakeSpot::ShareRegion {
                        buffer,
                        shared,
                        region,
                    }
                } else {
                    TakeSpot::LoadFree { buffer, shared }
                }
            }
            TakeSpot::ShareRegion {
                buffer,
                shared,
                region,
            } => {
                if got == shared {
                    TakeSpot::LoadTop { buffer, region }
                } else {
                    TakeSpot::GiveBack { buffer, region }
                }
            }
            TakeSpot::GiveBack { buffer, .. } => TakeSpot::LoadShared { buffer },
            TakeSpot::Fill { address, room, .. } => TakeSpot::StoreBuffer { address, room },
            TakeSpot::StoreBuffer { address, room } => TakeSpot::Ended {
                taken: Taken::At(address),
                end: address + room,
            },
            TakeSpot::Ended { taken, end } => TakeSpot::Ended { taken, end },
        }
    }

    /// What the step says that has led from here to the next spot.
    pub fn says(self, next: TakeSpot) -> Took
        ensures { result ≡ rows.says_at self next }
    {
        match (self, next) {
            (TakeSpot::Carve { .. }, TakeSpot::LoadShared { .. }) => Took::Again,
            (TakeSpot::TakeRegion { .. }, TakeSpot::LoadFree { .. }) => Took::Again,
            (TakeSpot::ShareRegion { .. }, TakeSpot::GiveBack { .. }) => Took::Again,
            (_, TakeSpot::Ended { .. }) => Took::Done,
            _ => Took::More,
        }
    }
}

// What follows the load of the buffer.
fn after_buffer(words: u64, got: u64) -> TakeSpot
    requires most { words ≤ 35 }
    ensures { result ≡ rows.after_buffer words got }
{
    let next = next_of(got);
    let end = end_of(got);
    if next + words <= end {
        TakeSpot::StoreBuffer {
            address: next,
            room: end - next,
        }
    } else {
        TakeSpot::LoadShared { buffer: got }
    }
}

// What follows the load of the shared region.
fn after_shared(buffer: u64, got: u64) -> TakeSpot
    ensures { result ≡ rows.after_shared buffer got }
{
    if got == 0 {
        TakeSpot::LoadFree { buffer, shared: 0 }
    } else {
        TakeSpot::LoadTop {
            buffer,
            region: (got - 1) as usize,
        }
    }
}

// What follows the load of its top.
fn after_top(config: Config, words: u64, buffer: u64, region: usize, top: u64) -> TakeSpot
    requires most { words ≤ 35 }
    requires region { region < config.regions }
    ensures { result ≡ rows.after_top config words buffer region top }
{
    let region_words = config.region_words() as u64;
    if top > region_words - words {
        return TakeSpot::LoadFree {
            buffer,
            shared: region as u64 + 1,
        };
    }
    let room = if top <= region_words - BUFFER_WORDS {
        BUFFER_WORDS
    } else {
        region_words - top
    };
    TakeSpot::Carve {
        buffer,
        region,
        top,
        room,
    }
}

// What follows once a buffer is carved that begins at an address.
fn carved(buffer: u64, address: u64, room: u64) -> TakeSpot
    ensures { result ≡ rows.carved_at buffer address room }
{
    if next_of(buffer) < end_of(buffer) {
        TakeSpot::Fill {
            buffer,
            address,
            room,
        }
    } else {
        TakeSpot::StoreBuffer { address, room }
    }
}

// What follows the load of the free word.
fn after_free(config: Config, kind: Kind, buffer: u64, shared: u64, free: u64) -> TakeSpot
    ensures { result ≡ rows.after_free config kind buffer shared free }
{
    let kept_back = match kind {
        Kind::Fresh => config.reserve(),
        Kind::Evacuated => 0,
    };
    if size(free) as usize <= kept_back {
        return TakeSpot::Ended {
            taken: Taken::NoRoom,
            end: 0,
        };
    }
    match lowest(free) {
        Some(region) => TakeSpot::TakeRegion {
            buffer,
            shared,
            region,
        },
        None => unreachable!(),
    }
}
