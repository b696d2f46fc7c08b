//! Sums of 64 bits, by which states, histories and outcomes are told apart.
use shen_graph::{Command, Name, Reply};

/// A number that depends on all bits of both.
pub fn mixed(sum: u64, value: u64) -> u64 {
    let mut x = sum.wrapping_mul(0x9E37_79B9_7F4A_7C15) ^ value;
    x = (x ^ (x >> 32)).wrapping_mul(0xD6E8_FEB8_6659_FD93);
    x = (x ^ (x >> 29)).wrapping_mul(0xBF58_476D_1CE4_E5B9);
    x ^ (x >> 32)
}

/// The sum of a name.
pub(crate) fn name_sum(name: Option<Name>) -> u64 {
    match name {
        Some(name) => mixed(mixed(1, name.thread as u64), name.count as u64),
        None => 2,
    }
}

/// The sum of a reply.
pub(crate) fn reply_sum(reply: Reply) -> u64 {
    match reply {
        Reply::Ref(name) => name_sum(Some(name)),
        Reply::Null => 2,
        Reply::Ok => 3,
        Reply::Yes => 4,
        Reply::No => 5,
        Reply::Number(number) => mixed(6, number),
        Reply::Bad => 7,
        Reply::Full => 8,
        Reply::At(place) => mixed(9, place),
    }
}
