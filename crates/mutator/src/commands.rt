ghost use Rattle.std.specs.Prelude.{◌≡◌, length};
ghost use Rattle.shen_graph.specs.Step.{slot_of};
ghost use Rattle.mutator.specs.Commands as parts;

use heap_words::{nums_of, refs_of};
use shen_graph::Command;

/// How many roots a command loads.
pub(crate) fn root_count(command: Command) -> usize
    ensures { result ≡ length (parts.command_roots command) }
{
    match command {
        Command::New { .. } | Command::Drop { .. } | Command::Gc | Command::Unpin { .. } => 0,
        Command::Get { .. }
        | Command::Rd { .. }
        | Command::Wr { .. }
        | Command::Copy { .. }
        | Command::Pin { .. } => 1,
        Command::Set { .. } | Command::Xchg { .. } | Command::Same { .. } => 2,
        Command::Cas { .. } => 3,
    }
}

/// The root that a command loads first, if it loads one.
pub(crate) fn first_root(command: Command) -> u32
    ensures { result ≡ parts.command_root command 0 }
{
    match command {
        Command::Get { src, .. } | Command::Copy { src, .. } => src,
        Command::Set { obj, .. }
        | Command::Cas { obj, .. }
        | Command::Xchg { obj, .. }
        | Command::Rd { obj, .. }
        | Command::Wr { obj, .. }
        | Command::Pin { obj, .. } => obj,
        Command::Same { a, .. } => a,
        Command::New { .. } | Command::Drop { .. } | Command::Gc | Command::Unpin { .. } => 0,
    }
}

/// The root that a command loads second, if it loads two.
pub(crate) fn second_root(command: Command) -> u32
    ensures { result ≡ parts.command_root command 1 }
{
    match command {
        Command::Set { val, .. } | Command::Xchg { val, .. } => val,
        Command::Cas { expect, .. } => expect,
        Command::Same { b, .. } => b,
        _ => 0,
    }
}

/// The root that a command loads third, if it loads three.
pub(crate) fn third_root(command: Command) -> u32
    ensures { result ≡ parts.command_root command 2 }
{
    match command {
        Command::Cas { val, .. } => val,
        _ => 0,
    }
}

/// The root that a command changes, if it changes one.
pub(crate) fn dst_of(command: Command) -> u32
    ensures { result ≡ parts.dst_of command }
{
    match command {
        Command::New { dst, .. }
        | Command::Get { dst, .. }
        | Command::Xchg { dst, .. }
        | Command::Copy { dst, .. }
        | Command::Drop { dst } => dst,
        _ => 0,
    }
}

/// The reference field or the number that a command is about, if it is about one.
pub(crate) fn index_of(command: Command) -> u32
    ensures { result ≡ parts.index_of command }
{
    match command {
        Command::Get { field, .. }
        | Command::Set { field, .. }
        | Command::Cas { field, .. }
        | Command::Xchg { field, .. } => field,
        Command::Rd { index, .. } | Command::Wr { index, .. } => index,
        _ => 0,
    }
}

/// The number that a command stores, if it stores one.
pub(crate) fn number_of(command: Command) -> u64
    ensures { result ≡ parts.stored_number command }
{
    match command {
        Command::Wr { value, .. } => value,
        _ => 0,
    }
}

/// How many references and how many numbers the object has that a command makes, if it makes one.
pub(crate) fn size_of(command: Command) -> (u32, u32)
    ensures refs { result.0 ≡ parts.refs_of command }
    ensures nums { result.1 ≡ parts.nums_of command }
{
    match command {
        Command::New { refs, nums, .. } => (refs, nums),
        _ => (0, 0),
    }
}

/// Whether a command works on the object of a root.
pub(crate) fn is_on_object(command: Command) -> bool
    ensures { result ≡ parts.is_on_object command }
{
    match command {
        Command::Get { .. }
        | Command::Set { .. }
        | Command::Cas { .. }
        | Command::Xchg { .. }
        | Command::Rd { .. }
        | Command::Wr { .. }
        | Command::Pin { .. } => true,
        _ => false,
    }
}

/// The pin slot that a command is about, if it is about one.
pub(crate) fn slot_of(command: Command) -> u32
    ensures { result ≡ slot_of command }
{
    match command {
        Command::Pin { slot, .. } | Command::Unpin { slot } => slot,
        _ => 0,
    }
}

/// Whether a command goes on that has found this word in its pin slot: a Pin where it is empty, an Unpin where not.
pub(crate) fn fits_slot(command: Command, found: u64) -> bool
    ensures { result ≡ parts.fits_slot command found }
{
    match command {
        Command::Pin { .. } => found == 0,
        _ => found != 0,
    }
}

/// Whether an object of this shape word has the field or the number that the command is about.
pub(crate) fn has_part(command: Command, shape: u64) -> bool
    ensures { result ≡ parts.has_part command shape }
{
    match command {
        Command::Get { field, .. }
        | Command::Set { field, .. }
        | Command::Cas { field, .. }
        | Command::Xchg { field, .. } => (field as u64) < refs_of(shape),
        Command::Rd { index, .. } | Command::Wr { index, .. } => (index as u64) < nums_of(shape),
        _ => false,
    }
}
