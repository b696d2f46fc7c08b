//! What a reply is asked to be.
ghost use Rattle.std.specs.Prelude.{◌≡◌};
ghost use Rattle.find_play.specs.Wanted.{fits};

use shen_graph::Reply;

/// What a reply is asked to be.
#[derive(Clone, Copy, PartialEq, Eq)]
pub enum Wanted {
    /// `yes`.
    Yes,
    /// `no`.
    No,
    /// A null reference.
    Null,
    /// A reference to an object.
    Object,
    /// `ok`.
    Ok,
    /// `full`.
    Full,
    /// `bad`.
    Bad,
    /// This number.
    Number(u64),
    /// The place of an object that was pinned.
    Pinned,
}

impl Wanted {
    /// Whether a reply is such.
    pub fn fits(self, reply: Reply) -> bool
        ensures { result ≡ fits self reply }
    {
        match (self, reply) {
            (Wanted::Yes, Reply::Yes)
            | (Wanted::No, Reply::No)
            | (Wanted::Null, Reply::Null)
            | (Wanted::Object, Reply::Ref(_))
            | (Wanted::Ok, Reply::Ok)
            | (Wanted::Full, Reply::Full)
            | (Wanted::Bad, Reply::Bad)
            | (Wanted::Pinned, Reply::At(_)) => true,
            (Wanted::Number(wanted), Reply::Number(number)) => wanted == number,
            _ => false,
        }
    }
}
