ghost use Rattle.std.specs.Prelude.{◌≡◌, ◌<◌, true, length};
ghost use Rattle.shen_graph.specs.Valid.{most_objects};
ghost use Rattle.heap_words.specs.Touch.{placed};
ghost use Rattle.mutator.specs.Orders.{is_pending};
ghost use Rattle.mutator.specs.Rows.{first_touch};
ghost use Rattle.mutator.specs.Fit.{is_ready};

use crate::commands::dst_of;
use crate::fields::FieldSpot;
use crate::loads::first_spot;
use crate::makes::{MakeSpot, next_name};
use crate::resolves::Loaded;
use crate::settles::{field_settles, load_settles, number_settles, pin_settles};
use crate::spot::{Entered, Kept, Spot, call_says};
use crate::waits::WaitSpot;
use handshake::{EnterSpot, leave_access};
use heap_words::phase::IDLE;
use heap_words::{Access, Config, Place, Took, make_access};
use load_barrier::ResolveSpot;
use shen_graph::{Command, Order, Reply};

/// A mutator thread: it makes calls one after the other, each in steps of one access.
#[derive(Drop)]
pub struct Mutator {
    config: Config,
    mutator: usize,
    made: u32,
    kept: Kept,
    spot: Spot,
    order: Order,
    ghost is_mutator: { mutator < config.mutators },
    ghost allowed: { is_pending spot made order ≡ true },
    ghost ready: { is_ready config mutator made kept spot ≡ true },
}

impl Mutator {
    ghost use Rattle.std.specs.Prelude.{◌↔◌, ◌≢◌, Some, None, IfSome, false, vec_len};
    ghost use Rattle.shen_graph.specs.Valid.{IsValid};
    ghost use Rattle.heap_words.specs.Access.{table_index};
    ghost use Rattle.heap_words.specs.Steps.{accessed};
    ghost use Rattle.heap_words.specs.Words.{Heap, IsWord, table_words, view};
    ghost use Rattle.mutator.specs.Orders.{is_between_calls, takes_commands, takes_at};
    ghost use Rattle.mutator.specs.Apart.{is_apart};
    ghost use Rattle.mutator.specs.Rows.{fresh_mutator, mutator_after, place_at, touch_of, call_begun, next_of, make_says, answer_at, reply_at, greys_at};
    ghost use Rattle.mutator.specs.WaitRows.{wait_says};
    ghost use Rattle.mutator.specs.Fit.{IsFit};
    ghost use Rattle.mutator.specs.Told.{told_of};
    ghost use Rattle.mutator.specs.Waits.{WaitsAt};
    ghost use Rattle.mutator.specs.Seen.{seen, config_of, order_of, is_idle, access_of, word_found};
    ghost use Rattle.load_barrier.specs.Waits as resolves;

    /// A mutator, counted from 0, that has not begun a call.
    pub fn new(config: Config, mutator: usize) -> Mutator
        requires { mutator < config.mutators }
        ensures seen { seen result ≡ fresh_mutator mutator }
        ensures config { config_of result ≡ config }
        ensures order { order_of result ≡ Order.Nothing }
    {
        Mutator::after(config, mutator, 0)
    }

    /// A mutator, counted from 0, that has not begun a call, of a thread that has made `count` objects before.
    pub fn after(config: Config, mutator: usize, count: u32) -> Mutator
        requires { mutator < config.mutators }
        ensures seen { seen result ≡ mutator_after mutator count }
        ensures config { config_of result ≡ config }
        ensures order { order_of result ≡ Order.Nothing }
    {
        Mutator {
            config,
            mutator,
            made: count,
            kept: Kept {
                command: Command::Gc,
                phase: IDLE,
                cset: 0,
            },
            spot: Spot::Rest,
            order: Order::Nothing,
        }
    }

    /// Orders the command, which the mutator's next step begins.
    pub fn begin(&mut self, command: Command)
        requires rest { takes_commands (seen self.old).spot ≡ true }
        requires valid { IsValid command }
        requires made { (seen self.old).made < most_objects }
        ensures order { order_of self.new ≡ Order.Begin command }
        ensures takes { takes_at (seen self.new).spot (seen self.new).made (Order.Begin command) ≡ true }
        ensures seen { seen self.new ≡ seen self.old }
        ensures config { config_of self.new ≡ config_of self.old }
    {
        self.order = Order::Begin(command);
    }

    /// Orders the end: the mutator's next step is its last one.
    pub fn finish(&mut self)
        requires { takes_commands (seen self.old).spot ≡ true }
        ensures order { order_of self.new ≡ Order.End }
        ensures takes { takes_at (seen self.new).spot (seen self.new).made Order.End ≡ true }
        ensures seen { seen self.new ≡ seen self.old }
        ensures config { config_of self.new ≡ config_of self.old }
    {
        self.order = Order::End;
    }

    /// Whether it has neither a call in progress nor an order, or has ended. It makes no step then.
    pub fn is_idle(&self) -> bool
        ensures idle { result ≡ is_idle self.now }
        ensures takes { result ≡ false → takes_at (seen self.now).spot (seen self.now).made (order_of self.now) ≡ true }
    {
        match (self.spot, self.order) {
            (Spot::Rest | Spot::Ended { .. }, Order::Nothing) | (Spot::Gone, _) => true,
            _ => false,
        }
    }

    /// Whether it may be given a command, or be told to end: no call is in progress, and it has not ended.
    pub fn takes_commands(&self) -> bool
        ensures { result ≡ takes_commands (seen self.now).spot }
    {
        self.spot.takes_commands()
    }

    /// How many objects its thread has made.
    pub fn made(&self) -> u32
        ensures { result ≡ (seen self.now).made }
    {
        self.made
    }

    /// The command of the call in progress.
    pub fn command(&self) -> Command
        requires { is_between_calls (seen self.now).spot ≡ false }
        ensures { result ≡ (seen self.now).kept.command }
    {
        self.kept.command
    }

    // The word that its next access finds.
    fn found(&self, words: &[u64]) -> u64
        requires busy { is_idle self.now ≡ false }
        requires words { length words.now ≡ table_words (config_of self.now) }
        ensures { view (config_of self.now) words.now (touch_of (config_of self.now) (seen self.now) (order_of self.now)).word ≡ result }
    {
        words[self.plan().at()]
    }

    /// The reply that its next access settles, if it settles one, by the words of the heap's table as they are before it. It is
    /// the reply that the call is given in the end. That the heap is full is settled by a pause, and not here.
    pub fn settles(&self, words: &[u64]) -> Option<Reply>
        requires { length words.now ≡ table_words (config_of self.now) }
        ensures { result ≡ told_of (view (config_of self.now) words.now) (seen self.now) }
    {
        let config = self.config;
        let command = self.kept.command;
        match self.spot {
            Spot::Loading { at } => {
                load_settles(config, words, self.mutator, command, at, self.found(words))
            }
            Spot::OnField { object, at } => {
                field_settles(config, words, object, command, at, self.found(words))
            }
            Spot::OnNumber { at, .. } => Some(number_settles(at, self.found(words))),
            Spot::StoreRoot { .. } | Spot::AskCycle => Some(Reply::Ok),
            Spot::Pinning { value, at } => pin_settles(value, command, at, self.found(words)),
            Spot::Making {
                at: MakeSpot::StoreRoot { .. },
            }
            | Spot::Waiting {
                at: WaitSpot::StoreRoot { .. },
            } => Some(Reply::Ref(next_name(self.mutator, self.made))),
            _ => None,
        }
    }

    /// The order that it was given.
    pub fn order(&self) -> Order
        ensures { result ≡ order_of self.now }
    {
        self.order
    }

    /// The place of its next access; between two calls, that of the first access of a call, or of the access by which it ends.
    pub fn place(&self) -> Place
        ensures { result ≡ place_at (order_of self.now) (seen self.now).spot }
    {
        self.spot.place(self.order)
    }

    /// The access of its next step.
    #[inline(always)]
    pub fn plan(&self) -> Access
        requires { is_idle self.now ≡ false }
        ensures row { result ≡ placed (config_of self.now) (touch_of (config_of self.now) (seen self.now) (order_of self.now)) }
        ensures inside { table_index result < table_words (config_of self.now) }
    {
        self.access(self.spot)
    }

    // The same by its spot, which whoever calls has at hand. That it is inside follows from what a mutator's numbers are. The longer parts of a call have a function
    // of their own, so that the others do not pay for what those put aside.
    #[inline(always)]
    fn access(&self, spot: Spot) -> Access
        requires at { (seen self.now).spot ≡ spot }
        requires busy { is_idle self.now ≡ false }
        ensures { result ≡ placed (config_of self.now) (touch_of (config_of self.now) (seen self.now) (order_of self.now)) }
    {
        match spot {
            Spot::Rest | Spot::Ended { .. } => first_access(self.config, self.mutator, self.order),
            Spot::Entering { at, .. } => at.access(self.config, self.mutator),
            Spot::LoadPhase => Access::load(self.config.phase_at()),
            Spot::LoadSet => Access::load(self.config.cset_at()),
            Spot::Loading { at } => at.access(self.config, self.mutator, self.kept.command),
            Spot::OnField { object, at } => at.access(self.config, object, self.kept.command),
            Spot::OnNumber { object, refs, at } => {
                at.access(self.config, object, refs, self.kept.command)
            }
            Spot::Showing { value, at } => {
                at.access(self.config, self.mutator, value, self.kept.command)
            }
            // keeps HasItsOwn.roots and IsSeated.usable
            Spot::StoreRoot { value } => Access::store(
                self.config
                    .root_at(self.mutator, dst_of(self.kept.command) as usize),
                value,
            ),
            // keeps IsHeard and IsDue of heap_world
            Spot::AskCycle => Access::or(self.config.ask_at(), 1),
            Spot::Leave { .. } => leave_access(self.config, self.mutator),
            Spot::Resolving { .. }
            | Spot::Recording { .. }
            | Spot::Making { .. }
            | Spot::Pinning { .. }
            | Spot::Waiting { .. } => self.access_apart(),
            Spot::Gone => unreachable!(),
        }
    }

    // The same in a longer part of a call.
    #[inline(never)]
    fn access_apart(&self) -> Access
        requires { is_apart (seen self.now).spot ≡ true }
        ensures { result ≡ placed (config_of self.now) (touch_of (config_of self.now) (seen self.now) (order_of self.now)) }
    {
        let config = self.config;
        let seat = self.mutator;
        let command = self.kept.command;
        match self.spot {
            Spot::Resolving { address, at, .. } => at.access(config, seat, address),
            Spot::Recording { at, address, .. } => at.access(config, seat, address),
            Spot::Making { at } => at.access(config, seat, self.made, command),
            Spot::Pinning { value, at } => at.access(config, seat, value, command),
            Spot::Waiting { at } => at.access(config, seat, self.made, command),
            _ => unreachable!(),
        }
    }

    /// The address that its next access makes grey, if it does so: one of the heap.
    pub fn greys(&self) -> Option<u64>
        ensures row { result ≡ greys_at (seen self.now).spot }
        ensures heap { IfSome result (λ address. IsWord (config_of self.now) (Heap address)) }
    {
        match self.spot {
            Spot::Recording { at, .. } => at.greys(),
            _ => None,
        }
    }

    /// Goes on with the word that its access has found. Each spot at which calls often stand is named here, so that the compiler makes a
    /// way of its own for it.
    #[inline(always)]
    pub fn took(&mut self, got: u64) -> Took
        requires busy { is_idle self.old ≡ false }
        requires fit { IsFit (config_of self.old) (seen self.old) (order_of self.old) got }
        ensures seen { seen self.new ≡ next_of (config_of self.old) (seen self.old) (order_of self.old) got }
        ensures order { order_of self.new ≡ Order.Nothing }
        ensures config { config_of self.new ≡ config_of self.old }
        ensures answer { result ≡ answer_at (config_of self.old) (seen self.old).kept (seen self.old).spot got }

        // A call ends exactly where the mutator leaves, and its reply is there then.
        ensures done { (result ≡ Took.Done) ↔ (place_at (order_of self.old) (seen self.old).spot ≡ Place.LV) }
        ensures replied { result ≡ Took.Done → reply_at (seen self.new).spot ≢ None }
        ensures again { (result ≡ Took.Again) ↔ WaitsAt (seen self.old).spot got }
    {
        match self.spot {
            Spot::Ended { reply } => self.took_from(Spot::Ended { reply }, got),
            Spot::Entering { at, then } => self.took_from(Spot::Entering { at, then }, got),
            Spot::LoadPhase => self.took_from(Spot::LoadPhase, got),
            Spot::LoadSet => self.took_from(Spot::LoadSet, got),
            Spot::Loading { at } => self.took_from(Spot::Loading { at }, got),
            Spot::OnField { object, at } => self.took_from(Spot::OnField { object, at }, got),
            Spot::OnNumber { object, refs, at } => self.took_from(
                Spot::OnNumber { object, refs, at },
                got,
            ),
            Spot::Showing { value, at } => self.took_from(Spot::Showing { value, at }, got),
            Spot::Leave { reply } => self.took_from(Spot::Leave { reply }, got),
            spot => self.took_from(spot, got),
        }
    }

    // The same by its spot, which whoever calls has at hand.
    #[inline(always)]
    fn took_from(&mut self, spot: Spot, got: u64) -> Took
        requires at { (seen self.old).spot ≡ spot }
        requires busy { is_idle self.old ≡ false }
        requires fit { IsFit (config_of self.old) (seen self.old) (order_of self.old) got }
        ensures seen { seen self.new ≡ next_of (config_of self.old) (seen self.old) (order_of self.old) got }
        ensures order { order_of self.new ≡ Order.Nothing }
        ensures config { config_of self.new ≡ config_of self.old }
        ensures answer { result ≡ answer_at (config_of self.old) (seen self.old).kept (seen self.old).spot got }
        ensures done { (result ≡ Took.Done) ↔ (place_at (order_of self.old) (seen self.old).spot ≡ Place.LV) }
        ensures replied { result ≡ Took.Done → reply_at (seen self.new).spot ≢ None }
        ensures again { (result ≡ Took.Again) ↔ WaitsAt (seen self.old).spot got }
    {
        if spot.takes_commands() {
            self.obey();
            return Took::More;
        }
        self.go_on(spot, got)
    }

    /// Makes its next step on the words of the heap's table: the access of `plan`, and what `took` makes of the word that it finds. Spots
    /// at which every call stands have their step written out here, and two of the others are handed on as values, so that the compiler
    /// makes a way of its own for each. With all of them handed on the function is too large for the compiler to leave it inline.
    #[inline(always)]
    pub fn step(&mut self, words: &mut Vec<u64>) -> Took
        requires busy { is_idle self.old ≡ false }
        requires words { vec_len words.old ≡ table_words (config_of self.old) }
        requires fit { IsFit (config_of self.old) (seen self.old) (order_of self.old) (word_found self.old words.old.items) }
        ensures words { words.new.items ≡ accessed (access_of self.old) words.old.items }
        ensures seen { seen self.new ≡ next_of (config_of self.old) (seen self.old) (order_of self.old) (word_found self.old words.old.items) }
        ensures order { order_of self.new ≡ Order.Nothing }
        ensures config { config_of self.new ≡ config_of self.old }
        ensures answer { result ≡ answer_at (config_of self.old) (seen self.old).kept (seen self.old).spot (word_found self.old words.old.items) }
        ensures done { (result ≡ Took.Done) ↔ (place_at (order_of self.old) (seen self.old).spot ≡ Place.LV) }
        ensures replied { result ≡ Took.Done → reply_at (seen self.new).spot ≢ None }
        ensures again { (result ≡ Took.Again) ↔ WaitsAt (seen self.old).spot (word_found self.old words.old.items) }
    {
        match self.spot {
            Spot::Ended { .. } => {
                let _ = make_access(words, first_access(self.config, self.mutator, self.order));
                self.obey();
                Took::More
            }
            Spot::Entering { at, then } => {
                let got = make_access(words, at.access(self.config, self.mutator));
                self.spot = then.after(at.after(got));
                call_says(at.says(got))
            }
            Spot::LoadPhase => {
                self.kept.phase = make_access(words, Access::load(self.config.phase_at()));
                self.spot = Spot::LoadSet;
                Took::More
            }
            Spot::LoadSet => {
                self.kept.cset = make_access(words, Access::load(self.config.cset_at()));
                self.spot = first_spot(self.kept.command);
                Took::More
            }
            Spot::Loading { at } => self.step_from(Spot::Loading { at }, words),
            Spot::OnField { object, at } => self.step_from(Spot::OnField { object, at }, words),
            Spot::Leave { reply } => {
                let _ = make_access(words, leave_access(self.config, self.mutator));
                self.spot = Spot::Ended { reply };
                Took::Done
            }
            spot => self.step_from(spot, words),
        }
    }

    // The same by its spot.
    #[inline(always)]
    fn step_from(&mut self, spot: Spot, words: &mut Vec<u64>) -> Took
        requires at { (seen self.old).spot ≡ spot }
        requires busy { is_idle self.old ≡ false }
        requires words { vec_len words.old ≡ table_words (config_of self.old) }
        requires fit { IsFit (config_of self.old) (seen self.old) (order_of self.old) (word_found self.old words.old.items) }
        ensures words { words.new.items ≡ accessed (access_of self.old) words.old.items }
        ensures seen { seen self.new ≡ next_of (config_of self.old) (seen self.old) (order_of self.old) (word_found self.old words.old.items) }
        ensures order { order_of self.new ≡ Order.Nothing }
        ensures config { config_of self.new ≡ config_of self.old }
        ensures answer { result ≡ answer_at (config_of self.old) (seen self.old).kept (seen self.old).spot (word_found self.old words.old.items) }
        ensures done { (result ≡ Took.Done) ↔ (place_at (order_of self.old) (seen self.old).spot ≡ Place.LV) }
        ensures replied { result ≡ Took.Done → reply_at (seen self.new).spot ≢ None }
        ensures again { (result ≡ Took.Again) ↔ WaitsAt (seen self.old).spot (word_found self.old words.old.items) }
    {
        let got = make_access(words, self.access(spot));
        self.took_from(spot, got)
    }

    /// The reply of the last call, until the next one is ordered.
    pub fn reply(&self) -> Reply
        requires { reply_at (seen self.now).spot ≢ None }
        ensures { reply_at (seen self.now).spot ≡ Some result }
    {
        match self.spot {
            Spot::Ended { reply } => reply,
            _ => unreachable!(),
        }
    }

    // Goes on in a call with the word that its access has found. The longer parts go on in a function of their own, so that the
    // others do not pay for what those put aside.
    #[inline(always)]
    fn go_on(&mut self, spot: Spot, got: u64) -> Took
        requires at { (seen self.old).spot ≡ spot }
        requires none { order_of self.old ≡ Order.Nothing }
        requires takes { takes_at (seen self.old).spot (seen self.old).made Order.Nothing ≡ true }
        requires fit { IsFit (config_of self.old) (seen self.old) Order.Nothing got }
        ensures seen { seen self.new ≡ next_of (config_of self.old) (seen self.old) Order.Nothing got }
        ensures order { order_of self.new ≡ Order.Nothing }
        ensures config { config_of self.new ≡ config_of self.old }
        ensures answer { result ≡ answer_at (config_of self.old) (seen self.old).kept (seen self.old).spot got }
        ensures again { (result ≡ Took.Again) ↔ WaitsAt (seen self.old).spot got }
    {
        match spot {
            Spot::Entering { at, then } => {
                self.spot = then.after(at.after(got));
                return call_says(at.says(got));
            }
            Spot::LoadPhase => {
                self.kept.phase = got;
                self.spot = Spot::LoadSet;
            }
            Spot::LoadSet => {
                self.kept.cset = got;
                self.spot = first_spot(self.kept.command);
            }
            Spot::Loading { at } => self.spot = at.after(self.kept.phase, self.kept.command, got),
            Spot::OnField { object, at } => return self.field(object, at, got),
            Spot::OnNumber { at, .. } => self.spot = at.after(got),
            Spot::Showing { value, at } => self.spot = at.after(value, got),
            Spot::StoreRoot { .. } | Spot::AskCycle => self.spot = Spot::Leave { reply: Reply::Ok },
            Spot::Leave { reply } => {
                self.spot = Spot::Ended { reply };
                return Took::Done;
            }
            Spot::Resolving { .. }
            | Spot::Recording { .. }
            | Spot::Making { .. }
            | Spot::Pinning { .. }
            | Spot::Waiting { .. } => return self.go_on_apart(got),
            Spot::Rest | Spot::Ended { .. } | Spot::Gone => unreachable!(),
        }
        Took::More
    }

    // The same in a longer part of a call.
    #[inline(never)]
    fn go_on_apart(&mut self, got: u64) -> Took
        requires apart { is_apart (seen self.old).spot ≡ true }
        requires none { order_of self.old ≡ Order.Nothing }
        requires fit { IsFit (config_of self.old) (seen self.old) Order.Nothing got }
        ensures seen { seen self.new ≡ next_of (config_of self.old) (seen self.old) Order.Nothing got }
        ensures order { order_of self.new ≡ Order.Nothing }
        ensures config { config_of self.new ≡ config_of self.old }
        ensures answer { result ≡ answer_at (config_of self.old) (seen self.old).kept (seen self.old).spot got }
        ensures again { (result ≡ Took.Again) ↔ WaitsAt (seen self.old).spot got }
    {
        match self.spot {
            Spot::Resolving { address, at, next } => return self.resolve(address, at, next, got),
            Spot::Recording { at, address, next } => self.spot = next.remember(
                address,
                at.after(got),
            ),
            Spot::Making { at } => return self.make(at, got),
            Spot::Pinning { value, at } => self.spot = at.after(value, self.kept.command, got),
            Spot::Waiting { at } => return self.wait(at, got),
            _ => unreachable!(),
        }
        Took::More
    }

    // Goes on by its order, once its first access has been made: it enters for a call, or has ended.
    fn obey(&mut self)
        ensures seen { seen self.new ≡ call_begun (order_of self.old) (seen self.old) }
        ensures order { order_of self.new ≡ Order.Nothing }
        ensures config { config_of self.new ≡ config_of self.old }
    {
        let order = self.order;
        self.order = Order::Nothing;
        match order {
            Order::Begin(command) => {
                self.kept.command = command;
                self.spot = Spot::Entering {
                    at: EnterSpot::Look,
                    then: Entered::Call,
                };
            }
            Order::End => self.spot = Spot::Gone,
            Order::Nothing | Order::Hint(_) => {}
        }
    }

    // Goes on with its reference field, in a function of its own for the same reason.
    #[inline(never)]
    fn field(&mut self, object: u64, at: FieldSpot, got: u64) -> Took
        requires at { (seen self.old).spot ≡ Spot.OnField object at }
        requires order { order_of self.old ≡ Order.Nothing }
        requires fit { IsFit (config_of self.old) (seen self.old) Order.Nothing got }
        ensures seen { seen self.new ≡ next_of (config_of self.old) (seen self.old) Order.Nothing got }
        ensures order { order_of self.new ≡ Order.Nothing }
        ensures config { config_of self.new ≡ config_of self.old }
        ensures answer { result ≡ answer_at (config_of self.old) (seen self.old).kept (Spot.OnField object at) got }
        ensures again { (result ≡ Took.Again) ↔ WaitsAt (Spot.OnField object at) got }
    {
        self.spot = at.after(self.config, self.kept.phase, self.kept.cset, object, got);
        at.says(got)
    }

    // Goes on with the resolving of what it has found in a field.
    fn resolve(&mut self, address: u64, at: ResolveSpot, next: Loaded, got: u64) -> Took
        requires at { (seen self.old).spot ≡ Spot.Resolving address at next }
        requires order { order_of self.old ≡ Order.Nothing }
        requires fit { IsFit (config_of self.old) (seen self.old) Order.Nothing got }
        ensures seen { seen self.new ≡ next_of (config_of self.old) (seen self.old) Order.Nothing got }
        ensures order { order_of self.new ≡ Order.Nothing }
        ensures config { config_of self.new ≡ config_of self.old }
        ensures answer { result ≡ answer_at (config_of self.old) (seen self.old).kept (Spot.Resolving address at next) got }
        ensures again { (result ≡ Took.Again) ↔ resolves.WaitsAt at got }
    {
        let (at, said) = at.after(self.config, self.mutator, address, self.kept.phase, got);
        self.spot = next.resolve(address, at);
        call_says(said)
    }

    // Goes on with the making of its object.
    fn make(&mut self, at: MakeSpot, got: u64) -> Took
        requires at { (seen self.old).spot ≡ Spot.Making at }
        requires order { order_of self.old ≡ Order.Nothing }
        requires fit { IsFit (config_of self.old) (seen self.old) Order.Nothing got }
        ensures seen { seen self.new ≡ next_of (config_of self.old) (seen self.old) Order.Nothing got }
        ensures order { order_of self.new ≡ Order.Nothing }
        ensures config { config_of self.new ≡ config_of self.old }
        ensures answer { result ≡ make_says (config_of self.old) (seen self.old).kept.command at got }
    {
        let made = self.made;
        let (next, says) = at.after(self.config, self.mutator, made, self.kept.command, got);
        self.made = at.made_after(made);
        self.spot = next;
        says
    }

    // Goes on with the waiting for its object.
    fn wait(&mut self, at: WaitSpot, got: u64) -> Took
        requires at { (seen self.old).spot ≡ Spot.Waiting at }
        requires order { order_of self.old ≡ Order.Nothing }
        requires fit { IsFit (config_of self.old) (seen self.old) Order.Nothing got }
        ensures seen { seen self.new ≡ next_of (config_of self.old) (seen self.old) Order.Nothing got }
        ensures order { order_of self.new ≡ Order.Nothing }
        ensures config { config_of self.new ≡ config_of self.old }
        ensures answer { result ≡ wait_says at got }
    {
        let made = self.made;
        self.made = at.made_after(made);
        self.spot = at.after(self.mutator, made, got);
        at.says(got)
    }
}

// The access between two calls: by its order the mutator begins a call, or there is one mutator less.
fn first_access(config: Config, seat: usize, order: Order) -> Access
    requires { seat < config.mutators }
    ensures { result ≡ placed config (first_touch seat order) }
{
    let at = config.left_at();
    match order {
        // keeps AreLeftCounted
        Order::End => Access::sub(at, 1),
        _ => EnterSpot::Raise.access(config, seat),
    }
}
