ghost use Rattle.std.specs.Prelude.{◌≡◌, true};
ghost use Rattle.heap_words.specs.Touch.{placed};
ghost use Rattle.heap_words.specs.Fits.{touch_fits};
ghost use Rattle.mutator.specs.Rows as rows;

use crate::commands::{first_root, has_part, is_on_object, root_count, second_root, third_root};
use crate::fields::FieldSpot;
use crate::makes::MakeSpot;
use crate::numbers::NumberSpot;
use crate::pins::PinSpot;
use crate::spot::Spot;
use alloc_buffers::TakeSpot;
use heap_words::phase::MARKING;
use heap_words::{Access, Config, Place, refs_of};
use shen_graph::{Command, Reply};

/// Where a call stands that loads the roots of its command, and the shape of its object.
#[derive(Clone, Copy)]
pub enum LoadSpot {
    /// It loads the first root of its command.
    First,
    /// It loads the second root of its command.
    Second {
        /// The first root.
        first: u64,
    },
    /// It loads the third root of its command.
    Third {
        /// The first root.
        first: u64,
        /// The second root.
        second: u64,
    },
    /// It loads the shape of the object that its command works on.
    Shape {
        /// The object, which is the first root.
        object: u64,
        /// The second root, if the command has one.
        second: u64,
        /// The third root, if the command has one.
        third: u64,
    },
}

impl LoadSpot {
    /// The place of the next access.
    pub(crate) fn place(self) -> Place
        ensures { result ≡ rows.load_place self }
    {
        match self {
            LoadSpot::Shape { .. } => Place::SH,
            _ => Place::RL,
        }
    }

    /// The next access of the mutator of a seat.
    #[inline(always)]
    pub(crate) fn access(self, config: Config, seat: usize, command: Command) -> Access
        requires { touch_fits config (rows.load_touch seat command self) ≡ true }
        ensures { result ≡ placed config (rows.load_touch seat command self) }
    {
        let at = match self {
            LoadSpot::First => config.root_at(seat, first_root(command) as usize),
            LoadSpot::Second { .. } => config.root_at(seat, second_root(command) as usize),
            LoadSpot::Third { .. } => config.root_at(seat, third_root(command) as usize),
            LoadSpot::Shape { object, .. } => config.heap_at(object + 1),
        };
        Access::load(at)
    }

    /// Where the call goes on, in its phase, with the word that was loaded.
    #[inline(always)]
    pub(crate) fn after(self, phase: u64, command: Command, got: u64) -> Spot
        ensures { result ≡ rows.load_next phase command self got }
    {
        match self {
            LoadSpot::First => after_root(command, got),
            LoadSpot::Second { first } => after_second(command, first, got),
            LoadSpot::Third { first, second } => after_roots(command, first, second, got),
            LoadSpot::Shape {
                object,
                second,
                third,
            } => after_shape(phase, command, object, second, third, got),
        }
    }
}

/// Where a call goes on once the collection set was loaded.
pub(crate) fn first_spot(command: Command) -> Spot
    ensures { result ≡ rows.first_spot command }
{
    match command {
        Command::New { .. } => Spot::Making {
            at: MakeSpot::Taking {
                take: TakeSpot::LoadBuffer,
            },
        },
        Command::Drop { .. } => Spot::StoreRoot { value: 0 },
        Command::Gc => Spot::AskCycle,
        Command::Unpin { .. } => Spot::Pinning {
            value: 0,
            at: PinSpot::Look,
        },
        _ => Spot::Loading {
            at: LoadSpot::First,
        },
    }
}

// Where it goes on once its first root was loaded: the reply is Bad where the object's root is null.
fn after_root(command: Command, first: u64) -> Spot
    ensures { result ≡ rows.after_root command first }
{
    if is_on_object(command) && first == 0 {
        return Spot::Leave { reply: Reply::Bad };
    }
    if root_count(command) > 1 {
        Spot::Loading {
            at: LoadSpot::Second { first },
        }
    } else {
        after_roots(command, first, 0, 0)
    }
}

// Where it goes on once its second root was loaded.
fn after_second(command: Command, first: u64, second: u64) -> Spot
    ensures { result ≡ rows.after_second command first second }
{
    if root_count(command) > 2 {
        Spot::Loading {
            at: LoadSpot::Third { first, second },
        }
    } else {
        after_roots(command, first, second, 0)
    }
}

// Where it goes on once all its roots were loaded.
fn after_roots(command: Command, first: u64, second: u64, third: u64) -> Spot
    ensures { result ≡ rows.after_roots command first second third }
{
    match command {
        Command::Copy { .. } => Spot::StoreRoot { value: first },
        Command::Pin { .. } => Spot::Pinning {
            value: first,
            at: PinSpot::Look,
        },
        Command::Same { .. } => {
            let reply = if first == second {
                Reply::Yes
            } else {
                Reply::No
            };
            Spot::Leave { reply }
        }
        _ => Spot::Loading {
            at: LoadSpot::Shape {
                object: first,
                second,
                third,
            },
        },
    }
}

// Where it goes on with an object of this shape: the reply is Bad where it has no such field or number.
fn after_shape(
    phase: u64,
    command: Command,
    object: u64,
    second: u64,
    third: u64,
    shape: u64,
) -> Spot
    ensures { result ≡ rows.after_shape phase command object second third shape }
{
    if !has_part(command, shape) {
        return Spot::Leave { reply: Reply::Bad };
    }
    let at = match command {
        Command::Get { .. } => FieldSpot::Load,
        Command::Set { .. } => first_of_set(phase, second),
        Command::Xchg { .. } => FieldSpot::Swap { value: second },
        Command::Cas { .. } => FieldSpot::LoadExpected {
            expect: second,
            value: third,
        },
        _ => return on_number(command, object, shape),
    };
    Spot::OnField { object, at }
}

// What a Set does to the field first: while objects are marked it looks what it will overwrite.
fn first_of_set(phase: u64, value: u64) -> FieldSpot
    ensures { result ≡ rows.first_of_set phase value }
{
    if phase == MARKING {
        FieldSpot::LoadOld { value }
    } else {
        FieldSpot::Store { value }
    }
}

// Where a command on a number goes on with it.
fn on_number(command: Command, object: u64, shape: u64) -> Spot
    ensures { result ≡ rows.on_number command object shape }
{
    let at = match command {
        Command::Rd { .. } => NumberSpot::Load,
        Command::Wr { .. } => NumberSpot::Store,
        _ => return Spot::Leave { reply: Reply::Bad },
    };
    Spot::OnNumber {
        object,
        refs: refs_of(shape),
        at,
    }
}
