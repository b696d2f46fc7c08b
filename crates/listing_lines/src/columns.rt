//! The columns of a line.

// What stands in the columns, and how addresses are counted.
pub(crate) const COLUMNS: &[u8] =
    b" event  machine   at  access (@3+0: in region 3 at word 0, from 0)  found             says";

pub(crate) const NARROW: &[u8] =
    b" event  machine   at  access = found; says (@3+0: in region 3 at word 0, from 0)";

pub(crate) const ADDRESSES: &[u8] = b"(@3+0: in region 3 at word 0, from 0)";

// Behind which column a list goes on in a new line, in wide lines and in others.
pub(crate) const WRAP: usize = 100;

pub(crate) const NARROW_WRAP: usize = 66;

// The columns.
pub(crate) const MACHINE: usize = 8;

pub(crate) const PLACE: usize = 18;

pub(crate) const ACCESS: usize = 22;

pub(crate) const FOUND: usize = 68;

pub(crate) const SAYS: usize = 86;

// The most machines of a heap.
pub(crate) const MACHINES: usize = 12;

// The column of a machine where each of so many has one, in lines of so many columns.
pub(crate) fn column_of(seat: usize, seats: usize, width: u64) -> usize {
    let wide = width.min(1000).saturating_sub(MACHINE as u64) / seats.max(1) as u64;
    (seat % MACHINES) * wide.clamp(30, 44) as usize + MACHINE
}
