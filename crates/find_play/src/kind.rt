//! The kinds of lines.
ghost use Rattle.std.specs.Prelude.{◌≡◌};
ghost use Rattle.find_play.specs.Kinds.{line_kinds, line_word, command_slots, fact_slots, line_slots};

use crate::slot::Slot;
use trace_reading::CommandKind;

/// The kinds of lines behind the head.
#[derive(Clone, Copy)]
pub enum LineKind {
    /// The bounds of the search.
    Bounds,
    /// A note gets its name.
    Note,
    /// A place gets its name, and where it is.
    Place,
    /// The next thread begins.
    Thread,
    /// The next root of the thread gets its name.
    Root,
    /// A command.
    Command(CommandKind),
    /// The last reply is noted.
    Keep,
    /// A loop begins.
    Loop,
    /// A loop is left at some replies.
    Until,
    /// An `if` begins.
    If,
    /// The other part of an `if` begins.
    Else,
    /// A loop or an `if` ends.
    End,
    /// An assertion begins.
    Assert,
    /// Another alternative of the assertion begins.
    Or,
    /// A fact: a note has such a reply.
    Is,
    /// A fact: a note has a reply, but not such a one.
    Isnt,
    /// A fact: no reply is such.
    Never,
    /// A fact: how many notes have such a reply.
    Count,
    /// A fact: two notes have equal replies.
    Alike,
    /// A fact: two notes have replies that differ.
    Differ,
    /// A fact: a number of the object at a place.
    Number,
    /// A fact: a place is null.
    Null,
    /// A fact: how long a chain from a place on is.
    Chain,
    /// A fact: two places hold one reference.
    One,
}

// Each kind once: those of version 1, and behind them those that joined in version 2.
const KINDS: [LineKind; 36] = [
    LineKind::Bounds,
    LineKind::Note,
    LineKind::Place,
    LineKind::Thread,
    LineKind::Root,
    LineKind::Command(CommandKind::New),
    LineKind::Command(CommandKind::Get),
    LineKind::Command(CommandKind::Set),
    LineKind::Command(CommandKind::Cas),
    LineKind::Command(CommandKind::Xchg),
    LineKind::Command(CommandKind::Rd),
    LineKind::Command(CommandKind::Wr),
    LineKind::Command(CommandKind::Copy),
    LineKind::Command(CommandKind::Drop),
    LineKind::Command(CommandKind::Same),
    LineKind::Command(CommandKind::Gc),
    LineKind::Keep,
    LineKind::Loop,
    LineKind::Until,
    LineKind::If,
    LineKind::Else,
    LineKind::End,
    LineKind::Assert,
    LineKind::Or,
    LineKind::Is,
    LineKind::Isnt,
    LineKind::Never,
    LineKind::Count,
    LineKind::Alike,
    LineKind::Differ,
    LineKind::Number,
    LineKind::Null,
    LineKind::Chain,
    LineKind::One,
    LineKind::Command(CommandKind::Pin),
    LineKind::Command(CommandKind::Unpin),
];

/// The kinds of lines of a version.
pub(crate) fn kinds_of(version: u32) -> &'static [LineKind]
    ensures { result.now ≡ line_kinds version }
{
    if version < 2 { &KINDS[..34] } else { &KINDS }
}

/// The slots of a command's line.
fn command_slots(kind: CommandKind) -> [Slot; 4]
    ensures { result ≡ command_slots kind }
{
    let slot = Slot::Small(3);
    let size = Slot::Small(16);
    let field = Slot::Small(31);
    let value = Slot::Large {
        least: 0,
        most: u64::MAX,
    };
    match kind {
        CommandKind::New => [Slot::Root, size, size, Slot::Nothing],
        CommandKind::Get => [Slot::Root, Slot::Root, field, Slot::Nothing],
        CommandKind::Set => [Slot::Root, field, Slot::Root, Slot::Nothing],
        CommandKind::Cas => [Slot::Root, field, Slot::Root, Slot::Root],
        CommandKind::Xchg => [Slot::Root, Slot::Root, field, Slot::Root],
        CommandKind::Rd => [Slot::Root, field, Slot::Nothing, Slot::Nothing],
        CommandKind::Wr => [Slot::Root, field, value, Slot::Nothing],
        CommandKind::Copy | CommandKind::Same => {
            [Slot::Root, Slot::Root, Slot::Nothing, Slot::Nothing]
        }
        CommandKind::Drop => [Slot::Root, Slot::Nothing, Slot::Nothing, Slot::Nothing],
        CommandKind::Gc => [Slot::Nothing, Slot::Nothing, Slot::Nothing, Slot::Nothing],
        CommandKind::Pin => [slot, Slot::Root, Slot::Nothing, Slot::Nothing],
        CommandKind::Unpin => [slot, Slot::Nothing, Slot::Nothing, Slot::Nothing],
    }
}

/// The slots of a line of a fact.
fn fact_slots(kind: LineKind) -> [Slot; 4]
    ensures { result ≡ fact_slots kind }
{
    let count = Slot::Large {
        least: 0,
        most: u64::MAX,
    };
    match kind {
        LineKind::Is | LineKind::Isnt => [Slot::Wanted, Slot::Note, Slot::Nothing, Slot::Nothing],
        LineKind::Count => [Slot::Wanted, count, Slot::Nothing, Slot::Nothing],
        LineKind::Alike | LineKind::Differ => {
            [Slot::Note, Slot::Note, Slot::Nothing, Slot::Nothing]
        }
        LineKind::Number => [Slot::Place, Slot::Small(31), count, Slot::Nothing],
        LineKind::Null => [Slot::Place, Slot::Nothing, Slot::Nothing, Slot::Nothing],
        LineKind::Chain => [Slot::Place, Slot::Small(31), count, Slot::Nothing],
        LineKind::One => [Slot::Place, Slot::Place, Slot::Nothing, Slot::Nothing],
        _ => [Slot::Nothing, Slot::Nothing, Slot::Nothing, Slot::Nothing],
    }
}

impl LineKind {
    /// The first word of a line of this kind.
    pub fn word(self) -> &'static [u8]
        ensures { result.now ≡ line_word self }
    {
        match self {
            LineKind::Bounds => b"bounds",
            LineKind::Note => b"note",
            LineKind::Place => b"place",
            LineKind::Thread => b"thread",
            LineKind::Root => b"root",
            LineKind::Command(kind) => kind.word(),
            LineKind::Keep => b"keep",
            LineKind::Loop => b"loop",
            LineKind::Until => b"until",
            LineKind::If => b"if",
            LineKind::Else => b"else",
            LineKind::End => b"end",
            LineKind::Assert => b"assert",
            LineKind::Or => b"or",
            LineKind::Is => b"is",
            LineKind::Isnt => b"isnt",
            LineKind::Never => b"never",
            LineKind::Count => b"count",
            LineKind::Alike => b"alike",
            LineKind::Differ => b"differ",
            LineKind::Number => b"number",
            LineKind::Null => b"null",
            LineKind::Chain => b"chain",
            LineKind::One => b"one",
        }
    }

    /// What the words behind it are to be.
    pub fn slots(self) -> [Slot; 4]
        ensures { result ≡ line_slots self }
    {
        let nothing = Slot::Nothing;
        match self {
            LineKind::Command(kind) => command_slots(kind),
            LineKind::Bounds => [
                Slot::Large {
                    least: 0,
                    most: 1000,
                },
                Slot::Large {
                    least: 1,
                    most: 4_000_000_000,
                },
                Slot::Large {
                    least: 0,
                    most: 1_000_000,
                },
                nothing,
            ],
            LineKind::Note | LineKind::Root => [Slot::Fresh, nothing, nothing, nothing],
            LineKind::Place => [Slot::Fresh, Slot::Place, Slot::Small(31), nothing],
            LineKind::Keep => [Slot::Note, nothing, nothing, nothing],
            LineKind::Until | LineKind::If | LineKind::Never => {
                [Slot::Wanted, nothing, nothing, nothing]
            }
            _ => fact_slots(self),
        }
    }
}
