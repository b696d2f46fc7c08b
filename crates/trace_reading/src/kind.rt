//! The kinds of commands.
ghost use Rattle.std.specs.Prelude.{◌≡◌};
ghost use Rattle.trace_reading.specs.Kinds.{kinds, word, limits, command_from, Suit, IsOnObject};

use shen_graph::Command;

/// The kinds of commands.
#[derive(Clone, Copy)]
pub enum CommandKind {
    New,
    Get,
    Set,
    Cas,
    Xchg,
    Rd,
    Wr,
    Copy,
    Drop,
    Same,
    Gc,
    Pin,
    Unpin,
}

// Each kind once: those of version 1, and behind them those that joined in version 2.
const KINDS: [CommandKind; 13] = [
    CommandKind::New,
    CommandKind::Get,
    CommandKind::Set,
    CommandKind::Cas,
    CommandKind::Xchg,
    CommandKind::Rd,
    CommandKind::Wr,
    CommandKind::Copy,
    CommandKind::Drop,
    CommandKind::Same,
    CommandKind::Gc,
    CommandKind::Pin,
    CommandKind::Unpin,
];

/// The kinds of commands of a version.
pub fn kinds_of(version: u32) -> &'static [CommandKind]
    ensures { result.now ≡ kinds version }
{
    if version < 2 { &KINDS[..11] } else { &KINDS }
}

impl CommandKind {
    /// The word that a line of this kind has behind the thread.
    pub fn word(self) -> &'static [u8]
        ensures { result.now ≡ word self }
    {
        match self {
            CommandKind::New => b"new",
            CommandKind::Get => b"get",
            CommandKind::Set => b"set",
            CommandKind::Cas => b"cas",
            CommandKind::Xchg => b"xchg",
            CommandKind::Rd => b"rd",
            CommandKind::Wr => b"wr",
            CommandKind::Copy => b"copy",
            CommandKind::Drop => b"drop",
            CommandKind::Same => b"same",
            CommandKind::Gc => b"gc",
            CommandKind::Pin => b"pin",
            CommandKind::Unpin => b"unpin",
        }
    }

    /// The largest numbers that may follow the word.
    pub fn limits(self) -> &'static [u64]
        ensures { result.now ≡ limits self }
    {
        match self {
            CommandKind::New => &[15, 16, 16],
            CommandKind::Get => &[15, 15, 31],
            CommandKind::Set => &[15, 31, 15],
            CommandKind::Cas => &[15, 31, 15, 15],
            CommandKind::Xchg => &[15, 15, 31, 15],
            CommandKind::Rd => &[15, 31],
            CommandKind::Wr => &[15, 31, u64::MAX],
            CommandKind::Copy => &[15, 15],
            CommandKind::Drop => &[15],
            CommandKind::Same => &[15, 15],
            CommandKind::Gc => &[],
            CommandKind::Pin => &[3, 15],
            CommandKind::Unpin => &[3],
        }
    }

    /// The command of this kind with these numbers, of which it takes the first.
    pub fn command(self, numbers: [u64; 4]) -> Command
        requires { Suit self numbers }
        ensures { result ≡ command_from self numbers }
    {
        let [first, second, third, _] = numbers;
        match self {
            CommandKind::New => Command::New {
                dst: first as u32,
                refs: second as u32,
                nums: third as u32,
            },
            CommandKind::Copy => Command::Copy {
                dst: first as u32,
                src: second as u32,
            },
            CommandKind::Drop => Command::Drop { dst: first as u32 },
            CommandKind::Same => Command::Same {
                a: first as u32,
                b: second as u32,
            },
            CommandKind::Gc => Command::Gc,
            CommandKind::Pin => Command::Pin {
                slot: first as u32,
                obj: second as u32,
            },
            CommandKind::Unpin => Command::Unpin { slot: first as u32 },
            CommandKind::Get
            | CommandKind::Set
            | CommandKind::Cas
            | CommandKind::Xchg
            | CommandKind::Rd
            | CommandKind::Wr => self.command_on_object(numbers),
        }
    }

    // The same, of a kind that is on a field or a number of an object.
    fn command_on_object(self, numbers: [u64; 4]) -> Command
        requires object { IsOnObject self }
        requires numbers { Suit self numbers }
        ensures { result ≡ command_from self numbers }
    {
        let [first, second, third, fourth] = numbers;
        match self {
            CommandKind::Get => Command::Get {
                dst: first as u32,
                src: second as u32,
                field: third as u32,
            },
            CommandKind::Set => Command::Set {
                obj: first as u32,
                field: second as u32,
                val: third as u32,
            },
            CommandKind::Cas => Command::Cas {
                obj: first as u32,
                field: second as u32,
                expect: third as u32,
                val: fourth as u32,
            },
            CommandKind::Xchg => Command::Xchg {
                dst: first as u32,
                obj: second as u32,
                field: third as u32,
                val: fourth as u32,
            },
            CommandKind::Rd => Command::Rd {
                obj: first as u32,
                index: second as u32,
            },
            CommandKind::Wr => Command::Wr {
                obj: first as u32,
                index: second as u32,
                value: third,
            },
            CommandKind::New
            | CommandKind::Copy
            | CommandKind::Drop
            | CommandKind::Same
            | CommandKind::Gc
            | CommandKind::Pin
            | CommandKind::Unpin => unreachable!(),
        }
    }
}
