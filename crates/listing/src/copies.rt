//! Which copy of an object an address is of. While a collection set is there, an object may have several.

use crate::pieces::{piece_at, used};
use crate::table::Table;
use crate::view::{base, heap_word, region_of};
use heap_words::{forwarded, forwardee};
use regions::is_in;

// The regions that are to be emptied.
fn cset(table: &Table) -> u64 {
    table.word(table.config().cset_at())
}

// Whether a region is in a set.
fn is_region_in(set: u64, region: usize) -> bool {
    region < 64 && is_in(set, region)
}

// Whether an old copy in a region leads to the address.
fn leads_to(table: &Table, region: usize, address: u64) -> bool {
    let (mut at, end) = used(table, region);
    for _ in 0..1024 {
        let Some(piece) = piece_at(table, at, end) else {
            return false;
        };
        let header = heap_word(table, at);
        if piece.is_object() && forwarded(header) && forwardee(header) == address {
            return true;
        }
        at = piece.next;
    }
    false
}

// Whether an old copy of an object leads to the address.
fn forwards_to(table: &Table, address: u64) -> bool {
    let set = cset(table);
    for region in 0..table.config().regions() {
        if is_region_in(set, region) && leads_to(table, region, address) {
            return true;
        }
    }
    false
}

// How far a region was used when marking began.
fn marked_to(table: &Table, region: usize) -> u64 {
    let config = table.config();
    if region < config.regions() {
        table.word(config.tams_at(region))
    } else {
        0
    }
}

/// Whether the object at an address has moved or is to move: it lies in a region that is to be emptied, or is a copy out of one.
/// A copy is young, so only the addresses of young objects are looked for.
pub fn is_moving(table: &Table, address: u64) -> bool {
    let set = cset(table);
    if set == 0 {
        return false;
    }
    let Some(region) = region_of(table, address) else {
        return false;
    };
    if is_region_in(set, region) {
        return true;
    }
    address.saturating_sub(base(table, region)) >= marked_to(table, region)
        && forwards_to(table, address)
}
