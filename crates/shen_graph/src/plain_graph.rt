ghost use Rattle.std.specs.Prelude.{ℕ, ◌≡◌, ◌≢◌, ◌+◌, ◌-◌, ◌*◌, ◌^◌, ◌<◌, ◌≤◌, ◌∷◌, ◌++◌, length, map, sum_by, None, Some, replicate, position, IsSome, MatchBool, MatchOption, IfOk, OnOk, OnErr, slice_index_or};
ghost use Rattle.std.specs.Option.{option_map};
ghost use Rattle.std.specs.List.{flat_map, list_any};
ghost use Rattle.shen_graph.specs.declared.command.Command.TheVariants.{Get, Set, Cas, Xchg, Wr, Unpin};
ghost use Rattle.shen_graph.specs.declared.command.Reply.TheVariants.{Full, At};
ghost use Rattle.shen_graph.specs.Valid.{IsValid};
ghost use Rattle.shen_graph.specs.Graph.{Graph, blank, field_at, number_at, fresh, with_root, with_field, with_number, with_fresh, with_pin, hub, named, opening, same_name};
ghost use Rattle.shen_graph.specs.Step.{answers, outcome, shown, yes_or_no, ok_or_bad, shown_at, pinned_by, name_in, place_in, slot_of, MayBePinned, IsLegal, IsPinning, IsPin};
ghost use Rattle.shen_graph.specs.Reach.{IsReach, Live, size};
ghost use Rattle.shen_graph.specs.GraphText.{cleared, root_of, pin_of, row_in, with_whole_row, IsTextOf};
ghost use Rattle.shen_graph.specs.PlainGraph.{graph_of, threads_of, place_of, root_in, pin_in, differs};
ghost use Rattle.shen_graph.specs.Found.{with_names};

use crate::NoMemory;
use crate::command::{Command, Reply};
use crate::found::{add_names, add_pinned, name_in, names_in};
use crate::graph_text::GraphText;
use crate::name::Name;
use crate::object::Object;
use crate::pin::Pinned;
use crate::roots::{alike, slots_alike};
use std::alloc::Global;
use std::marker::Model;

/// The graph of objects as it is defined, plain and slow: what the heap is judged by. It moves and frees nothing.
/// Threads are counted from 1.
#[derive(Drop)]
pub struct PlainGraph {
    // the newest first
    objects: Vec<Object>,
    // by thread: place 0 is nobody's
    roots: Vec<[Option<Name>; 16]>,
    counts: Vec<u32>,
    pins: Vec<[Option<Pinned>; 4]>,
}

impl Model for PlainGraph {
    ghost use Rattle.std.specs.Prelude.{◌≡◌, ◌≤◌, All, length, vec_len};
    ghost use Rattle.shen_graph.specs.PlainGraph.{Plain};

    ghost Value = { Plain };

    ghost view = { λ graph. record { rows = graph.objects.items; roots = graph.roots.items; counts = graph.counts.items; pins = graph.pins.items } };

    ghost invariant = { λ graph. (1 ≤ vec_len graph.roots) × (vec_len graph.counts ≡ vec_len graph.roots) × All (λ row. length row ≡ 16) graph.roots.items × (vec_len graph.pins ≡ vec_len graph.roots) × All (λ row. length row ≡ 4) graph.pins.items };
}

// What shows a reference.
fn shown(reference: Option<Name>) -> Reply
    ensures { result ≡ shown reference }
{
    match reference {
        None => Reply::Null,
        Some(name) => Reply::Ref(name),
    }
}

fn yes_or_no(holds: bool) -> Reply
    ensures { result ≡ yes_or_no holds }
{
    if holds { Reply::Yes } else { Reply::No }
}

fn ok_or_bad(done: bool) -> Reply
    ensures { result ≡ ok_or_bad done }
{
    if done { Reply::Ok } else { Reply::Bad }
}

// The place that a reply tells.
fn place_in(reply: &Reply) -> Option<u64>
    ensures { result ≡ place_in reply.now }
{
    match *reply {
        Reply::At(place) => Some(place),
        _ => None,
    }
}

// The pin slot that a command names.
fn slot_of(command: &Command) -> u32
    ensures { result ≡ slot_of command.now }
{
    match *command {
        Command::Pin { slot, .. } | Command::Unpin { slot } => slot,
        _ => 0,
    }
}

// Whether a command is to pin an object.
fn is_pin(command: &Command) -> bool
    ensures { MatchBool result (IsPin command.now) (IsPin command.now → ⊥) }
{
    match *command {
        Command::Pin { .. } => true,
        _ => false,
    }
}

// Whether a pin slot holds the object at another place, or another object at the place.
fn differs(slot: Option<Pinned>, name: Name, place: u64) -> bool
    ensures { result ≡ differs name place slot }
{
    match slot {
        Some(held) => (held.name == name) != (held.place == place),
        None => false,
    }
}

// Where the first object of that name stands.
fn first_named(objects: &[Object], name: Name) -> Option<usize>
    ensures { result ≡ position (λ object. same_name name object.name) objects.now }
{
    objects.iter().position(|object| object.name == name)
}

// Whether one of these pin slots holds the object at another place, or another object at the place.
fn any_slot_differs(slots: &[Option<Pinned>], name: Name, place: u64) -> bool
    ensures { result ≡ list_any (differs name place) slots.now }
{
    for slot in slots {
        if differs(*slot, name, place) {
            return true;
        }
    }
    false
}

// Whether a place is one of a heap of so many regions of so many words.
fn is_in_heap(regions: u64, region_words: u64, place: u64) -> bool
    ensures { MatchBool result ((region_words ≤ place) × (place < (regions + 1) * region_words))
        (region_words ≤ place → place < (regions + 1) * region_words → ⊥) }
{
    if region_words == 0 || place < region_words {
        return false;
    }
    place / region_words <= regions
}

// The roots of nobody, and of so many threads that each name the hub.
fn first_roots(alloc: Global, mutators: u32) -> Result<Vec<[Option<Name>; 16]>, NoMemory>
    ensures { IfOk result (λ roots. roots.items ≡ replicate 16 None ∷ replicate mutators (Some hub ∷ replicate 15 None)) }
{
    let mut first = [None; 16];
    first[0] = Some(Name::HUB);
    let mut roots = alike(alloc, mutators as usize + 1, first)?;
    roots[0] = [None; 16];
    Ok(roots)
}

// The commands that look for a field or a number. Each answers `Bad` where there is none.
impl PlainGraph {
    fn get(&mut self, thread: u32, dst: u32, src: u32, field: u32) -> Reply
        requires thread { thread ≤ threads_of self.old }
        requires roots { (dst < 16) × (src < 16) }
        ensures done { answers result (graph_of self.new) ≡ outcome (graph_of self.old) thread (Get dst src field) }
        ensures threads { threads_of self.new ≡ threads_of self.old }
    {
        match self.field(thread, src, field) {
            Some(value) => {
                self.set_root(thread, dst, value);
                shown(value)
            }
            None => Reply::Bad,
        }
    }

    fn set(&mut self, thread: u32, obj: u32, field: u32, val: u32) -> Reply
        requires thread { thread ≤ threads_of self.old }
        requires roots { (obj < 16) × (val < 16) }
        ensures done { answers result (graph_of self.new) ≡ outcome (graph_of self.old) thread (Set obj field val) }
        ensures threads { threads_of self.new ≡ threads_of self.old }
    {
        match self.field(thread, obj, field) {
            Some(_) => {
                let value = self.root(thread, val);
                self.set_field(thread, obj, field, value);
                Reply::Ok
            }
            None => Reply::Bad,
        }
    }

    fn compare_exchange(
        &mut self,
        thread: u32,
        obj: u32,
        field: u32,
        expect: u32,
        val: u32,
    ) -> Reply
        requires thread { thread ≤ threads_of self.old }
        requires roots { (obj < 16) × (expect < 16) × (val < 16) }
        ensures done { answers result (graph_of self.new)
            ≡ outcome (graph_of self.old) thread (Cas obj field expect val) }
        ensures threads { threads_of self.new ≡ threads_of self.old }
    {
        match self.field(thread, obj, field) {
            Some(found) => {
                if found == self.root(thread, expect) {
                    let value = self.root(thread, val);
                    self.set_field(thread, obj, field, value);
                    Reply::Yes
                } else {
                    Reply::No
                }
            }
            None => Reply::Bad,
        }
    }

    fn exchange(&mut self, thread: u32, dst: u32, obj: u32, field: u32, val: u32) -> Reply
        requires thread { thread ≤ threads_of self.old }
        requires roots { (dst < 16) × (obj < 16) × (val < 16) }
        ensures done { answers result (graph_of self.new)
            ≡ outcome (graph_of self.old) thread (Xchg dst obj field val) }
        ensures threads { threads_of self.new ≡ threads_of self.old }
    {
        match self.field(thread, obj, field) {
            Some(found) => {
                let value = self.root(thread, val);
                self.set_field(thread, obj, field, value);
                self.set_root(thread, dst, found);
                shown(found)
            }
            None => Reply::Bad,
        }
    }

    fn write_number(&mut self, thread: u32, obj: u32, index: u32, value: u64) -> Reply
        requires thread { thread ≤ threads_of self.old }
        requires root { obj < 16 }
        ensures done { answers result (graph_of self.new) ≡ outcome (graph_of self.old) thread (Wr obj index value) }
        ensures threads { threads_of self.new ≡ threads_of self.old }
    {
        match self.number(thread, obj, index) {
            Some(_) => {
                self.set_number(thread, obj, index, value);
                Reply::Ok
            }
            None => Reply::Bad,
        }
    }
}

impl PlainGraph {
    /// The graph that so many threads begin with: the hub, which root 0 of each thread names.
    pub fn open(alloc: Global, mutators: u32) -> Result<PlainGraph, NoMemory>
        requires { (1 ≤ mutators) × (mutators ≤ 8) }
        ensures graph { IfOk result (λ plain. graph_of plain ≡ opening mutators) }
        ensures threads { IfOk result (λ plain. threads_of plain ≡ mutators) }
    {
        let hub = Object::blank(alloc, Name::HUB, Command::FIELDS, 0)?;
        let mut objects = Vec::new(alloc);
        objects.push(hub)?;
        let roots = first_roots(alloc, mutators)?;
        let counts = vec![in alloc; 0; mutators as usize + 1]?;
        let pins = slots_alike(alloc, mutators as usize + 1)?;
        Ok(PlainGraph {
            objects,
            roots,
            counts,
            pins,
        })
    }

    fn root(&self, thread: u32, root: u32) -> Option<Name>
        requires thread { thread ≤ threads_of self.now }
        requires root { root < 16 }
        ensures root { result ≡ (graph_of self.now).root thread root }
        ensures read { result ≡ root_in self.now.roots thread root }
    {
        let row = &self.roots[thread as usize];
        row[root as usize]
    }

    // Where the object stands that a root names.
    fn place(&self, thread: u32, root: u32) -> Option<usize>
        requires thread { thread ≤ threads_of self.now }
        requires root { root < 16 }
        ensures { result ≡ place_of self.now thread root }
    {
        match self.root(thread, root) {
            Some(name) => first_named(&self.objects, name),
            None => None,
        }
    }

    fn field(&self, thread: u32, root: u32, field: u32) -> Option<Option<Name>>
        requires thread { thread ≤ threads_of self.now }
        requires root { root < 16 }
        ensures { result ≡ field_at (graph_of self.now) thread root field }
    {
        match self.place(thread, root) {
            Some(place) => self.objects[place].field(field),
            None => None,
        }
    }

    fn number(&self, thread: u32, root: u32, index: u32) -> Option<u64>
        requires thread { thread ≤ threads_of self.now }
        requires root { root < 16 }
        ensures { result ≡ number_at (graph_of self.now) thread root index }
    {
        match self.place(thread, root) {
            Some(place) => self.objects[place].number(index),
            None => None,
        }
    }

    fn set_root(&mut self, thread: u32, root: u32, value: Option<Name>)
        requires thread { thread ≤ threads_of self.old }
        requires root { root < 16 }
        ensures graph { graph_of self.new ≡ with_root (graph_of self.old) thread root value }
        ensures threads { threads_of self.new ≡ threads_of self.old }
    {
        let row = &mut self.roots[thread as usize];
        row[root as usize] = value;
    }

    fn set_field(&mut self, thread: u32, root: u32, field: u32, value: Option<Name>)
        requires thread { thread ≤ threads_of self.old }
        requires root { root < 16 }
        requires field { IsSome (field_at (graph_of self.old) thread root field) }
        ensures graph { graph_of self.new ≡ with_field (graph_of self.old) thread root field value }
        ensures threads { threads_of self.new ≡ threads_of self.old }
    {
        match self.place(thread, root) {
            Some(place) => {
                let object = &mut self.objects[place];
                object.set_field(field, value);
            }
            None => unreachable!(),
        }
    }

    fn set_number(&mut self, thread: u32, root: u32, index: u32, value: u64)
        requires thread { thread ≤ threads_of self.old }
        requires root { root < 16 }
        requires index { IsSome (number_at (graph_of self.old) thread root index) }
        ensures graph { graph_of self.new ≡ with_number (graph_of self.old) thread root index value }
        ensures threads { threads_of self.new ≡ threads_of self.old }
    {
        match self.place(thread, root) {
            Some(place) => {
                let object = &mut self.objects[place];
                object.set_number(index, value);
            }
            None => unreachable!(),
        }
    }

    // An object more, of the thread's next name.
    fn make(&mut self, alloc: Global, thread: u32, refs: u32, nums: u32) -> Result<Name, NoMemory>
        requires thread { (1 ≤ thread) × (thread ≤ threads_of self.old) }
        requires count { (graph_of self.old).count thread < 2 ^ 32 - 1 }
        ensures name { IfOk result (λ name. name ≡ fresh (graph_of self.old) thread) }
        ensures graph { OnOk result (graph_of self.new ≡ with_fresh (graph_of self.old) thread (blank refs nums)) }
        ensures threads { threads_of self.new ≡ threads_of self.old }
        ensures err { OnErr result (self.new ≡ self.old) }
    {
        let count = self.counts[thread as usize] + 1;
        let name = Name { thread, count };
        let object = Object::blank(alloc, name, refs, nums)?;
        self.objects.insert(0, object)?;
        self.counts[thread as usize] = count;
        Ok(name)
    }

    /// Does a command of a thread, other than a pin, and answers it, never with `Full`. After `NoMemory` the graph is as before.
    pub fn apply(
        &mut self,
        alloc: Global,
        thread: u32,
        command: &Command,
    ) -> Result<Reply, NoMemory>
        requires thread { (1 ≤ thread) × (thread ≤ threads_of self.old) }
        requires valid { IsValid command.now }
        requires no_pin { IsPin command.now → ⊥ }
        requires count { (graph_of self.old).count thread < 2 ^ 32 - 1 }
        ensures ok { IfOk result
            (λ reply. answers reply (graph_of self.new) ≡ outcome (graph_of self.old) thread command.now) }
        ensures never_full { IfOk result (λ reply. reply ≢ Full) }
        ensures threads { threads_of self.new ≡ threads_of self.old }
        ensures err { OnErr result (self.new ≡ self.old) }
    {
        let reply = match *command {
            Command::New { dst, refs, nums } => {
                let name = self.make(alloc, thread, refs, nums)?;
                self.set_root(thread, dst, Some(name));
                Reply::Ref(name)
            }
            Command::Get { dst, src, field } => self.get(thread, dst, src, field),
            Command::Set { obj, field, val } => self.set(thread, obj, field, val),
            Command::Cas {
                obj,
                field,
                expect,
                val,
            } => self.compare_exchange(thread, obj, field, expect, val),
            Command::Xchg {
                dst,
                obj,
                field,
                val,
            } => self.exchange(thread, dst, obj, field, val),
            Command::Rd { obj, index } => match self.number(thread, obj, index) {
                Some(number) => Reply::Number(number),
                None => Reply::Bad,
            },
            Command::Wr { obj, index, value } => self.write_number(thread, obj, index, value),
            Command::Copy { dst, src } => {
                let value = self.root(thread, src);
                self.set_root(thread, dst, value);
                Reply::Ok
            }
            Command::Drop { dst } => {
                self.set_root(thread, dst, None);
                Reply::Ok
            }
            Command::Same { a, b } => yes_or_no(self.root(thread, a) == self.root(thread, b)),
            Command::Gc => Reply::Ok,
            Command::Unpin { slot } => self.unpin(thread, slot),
            Command::Pin { .. } => unreachable!(),
        };
        Ok(reply)
    }

    /// What a pin slot of a thread holds. `None`: it is empty.
    pub fn pin_of(&self, thread: u32, slot: u32) -> Option<Pinned>
        requires thread { (1 ≤ thread) × (thread ≤ threads_of self.now) }
        requires slot { slot < 4 }
        ensures { result ≡ (graph_of self.now).pin thread slot }
    {
        self.pin(thread, slot)
    }

    fn pin(&self, thread: u32, slot: u32) -> Option<Pinned>
        requires thread { thread ≤ threads_of self.now }
        requires slot { slot < 4 }
        ensures pin { result ≡ (graph_of self.now).pin thread slot }
        ensures read { result ≡ pin_in self.now.pins thread slot }
    {
        let row = &self.pins[thread as usize];
        row[slot as usize]
    }

    fn set_pin(&mut self, thread: u32, slot: u32, held: Option<Pinned>)
        requires thread { thread ≤ threads_of self.old }
        requires slot { slot < 4 }
        ensures graph { graph_of self.new ≡ with_pin (graph_of self.old) thread slot held }
        ensures threads { threads_of self.new ≡ threads_of self.old }
    {
        let row = &mut self.pins[thread as usize];
        row[slot as usize] = held;
    }

    fn unpin(&mut self, thread: u32, slot: u32) -> Reply
        requires thread { thread ≤ threads_of self.old }
        requires slot { slot < 4 }
        ensures done { answers result (graph_of self.new) ≡ outcome (graph_of self.old) thread (Unpin slot) }
        ensures threads { threads_of self.new ≡ threads_of self.old }
    {
        match self.pin(thread, slot) {
            Some(_) => {
                self.set_pin(thread, slot, None);
                Reply::Ok
            }
            None => Reply::Bad,
        }
    }

    // What a command of a thread is answered that pins nothing, and that is not refused.
    fn answer(&self, thread: u32, command: &Command) -> Reply
        requires thread { thread ≤ threads_of self.now }
        requires valid { IsValid command.now }
        requires count { (graph_of self.now).count thread < 2 ^ 32 - 1 }
        ensures { result ≡ (outcome (graph_of self.now) thread command.now).reply }
    {
        match *command {
            Command::New { .. } => Reply::Ref(Name {
                thread,
                count: self.counts[thread as usize] + 1,
            }),
            Command::Get { src, field, .. } => self.shown_field(thread, src, field),
            Command::Xchg { obj, field, .. } => self.shown_field(thread, obj, field),
            Command::Set { obj, field, .. } => ok_or_bad(self.field(thread, obj, field).is_some()),
            Command::Cas {
                obj,
                field,
                expect,
                ..
            } => match self.field(thread, obj, field) {
                Some(found) => yes_or_no(found == self.root(thread, expect)),
                None => Reply::Bad,
            },
            Command::Rd { obj, index } => match self.number(thread, obj, index) {
                Some(number) => Reply::Number(number),
                None => Reply::Bad,
            },
            Command::Wr { obj, index, .. } => ok_or_bad(self.number(thread, obj, index).is_some()),
            Command::Copy { .. } | Command::Drop { .. } | Command::Gc => Reply::Ok,
            Command::Same { a, b } => yes_or_no(self.root(thread, a) == self.root(thread, b)),
            Command::Unpin { slot } => ok_or_bad(self.pin(thread, slot).is_some()),
            Command::Pin { .. } => Reply::Bad,
        }
    }

    fn shown_field(&self, thread: u32, obj: u32, field: u32) -> Reply
        requires thread { thread ≤ threads_of self.now }
        requires root { obj < 16 }
        ensures { result ≡ shown_at (field_at (graph_of self.now) thread obj field) }
    {
        match self.field(thread, obj, field) {
            Some(value) => shown(value),
            None => Reply::Bad,
        }
    }

    // The object that a command of a thread pins.
    fn pinned_by(&self, thread: u32, command: &Command) -> Option<Name>
        requires thread { thread ≤ threads_of self.now }
        requires valid { IsValid command.now }
        ensures { result ≡ pinned_by (graph_of self.now) thread command.now }
    {
        match *command {
            Command::Pin { slot, obj } => match self.pin(thread, slot) {
                Some(_) => None,
                None => self.root(thread, obj),
            },
            _ => None,
        }
    }

    // Whether some pin slot holds the object at another place, or another object at the place.
    fn any_differs(&self, name: Name, place: u64) -> bool
        ensures { result ≡ list_any (list_any (differs name place)) self.now.pins }
    {
        for row in &self.pins {
            if any_slot_differs(row, name, place) {
                return true;
            }
        }
        false
    }

    // Whether an object may be pinned at a place, in a heap of so many regions of so many words.
    fn may_be_pinned(&self, regions: u64, region_words: u64, name: Name, place: u64) -> bool
        ensures { MatchBool result (MayBePinned regions region_words (graph_of self.now) name place)
            (MayBePinned regions region_words (graph_of self.now) name place → ⊥) }
    {
        if !is_in_heap(regions, region_words, place) {
            return false;
        }
        !self.any_differs(name, place)
    }

    // Pins an object where it may be at that place.
    fn try_pin(
        &mut self,
        regions: u64,
        region_words: u64,
        thread: u32,
        command: &Command,
        name: Name,
        place: u64,
    ) -> bool
        requires thread { thread ≤ threads_of self.old }
        requires valid { IsValid command.now }
        requires pins { pinned_by (graph_of self.old) thread command.now ≡ Some name }
        ensures done { MatchBool result
            (IsPinning regions region_words (graph_of self.old) thread command.now (At place) (graph_of self.new))
            ((MayBePinned regions region_words (graph_of self.old) name place → ⊥) × (self.new ≡ self.old)) }
        ensures threads { threads_of self.new ≡ threads_of self.old }
    {
        if !self.may_be_pinned(regions, region_words, name, place) {
            return false;
        }
        self.set_pin(thread, slot_of(command), Some(Pinned { name, place }));
        true
    }

    // Whether a command that pins an object may be answered so. Where it may, it is done.
    fn take_pin(
        &mut self,
        regions: u64,
        region_words: u64,
        thread: u32,
        command: &Command,
        name: Name,
        reply: &Reply,
    ) -> bool
        requires thread { thread ≤ threads_of self.old }
        requires valid { IsValid command.now }
        requires pins { pinned_by (graph_of self.old) thread command.now ≡ Some name }
        ensures done { MatchBool result
            (IsLegal regions region_words (graph_of self.old) thread command.now reply.now (graph_of self.new) × (reply.now ≢ Full))
            (((graph : Graph) → IsLegal regions region_words (graph_of self.old) thread command.now reply.now graph → reply.now ≡ Full) × (self.new ≡ self.old)) }
        ensures threads { threads_of self.new ≡ threads_of self.old }
    {
        match place_in(reply) {
            Some(place) => self.try_pin(regions, region_words, thread, command, name, place),
            None => false,
        }
    }

    // Whether a command that pins nothing may be answered so, other than by `Full`. Where it may, it is done.
    fn take_other(
        &mut self,
        alloc: Global,
        thread: u32,
        command: &Command,
        reply: &Reply,
    ) -> Result<bool, NoMemory>
        requires thread { (1 ≤ thread) × (thread ≤ threads_of self.old) }
        requires valid { IsValid command.now }
        requires count { (graph_of self.old).count thread < 2 ^ 32 - 1 }
        ensures ok { IfOk result (λ may. MatchBool may
            ((answers reply.now (graph_of self.new) ≡ outcome (graph_of self.old) thread command.now) × (reply.now ≢ Full))
            ((reply.now ≢ (outcome (graph_of self.old) thread command.now).reply) × (self.new ≡ self.old))) }
        ensures threads { threads_of self.new ≡ threads_of self.old }
        ensures err { OnErr result (self.new ≡ self.old) }
    {
        if self.answer(thread, command) != *reply {
            return Ok(false);
        }
        if !is_pin(command) {
            self.apply(alloc, thread, command)?;
        }
        Ok(true)
    }

    /// Whether a command of a thread may be answered so, other than by `Full`, in a heap of so many regions of so many
    /// words. Where it may, it is done; else the graph is as before, and after `NoMemory` too.
    pub fn accept(
        &mut self,
        alloc: Global,
        regions: u64,
        region_words: u64,
        thread: u32,
        command: &Command,
        reply: &Reply,
    ) -> Result<bool, NoMemory>
        requires thread { (1 ≤ thread) × (thread ≤ threads_of self.old) }
        requires valid { IsValid command.now }
        requires count { (graph_of self.old).count thread < 2 ^ 32 - 1 }
        ensures ok { IfOk result (λ may. MatchBool may
            (IsLegal regions region_words (graph_of self.old) thread command.now reply.now (graph_of self.new) × (reply.now ≢ Full))
            (((graph : Graph) → IsLegal regions region_words (graph_of self.old) thread command.now reply.now graph → reply.now ≡ Full) × (self.new ≡ self.old))) }
        ensures threads { threads_of self.new ≡ threads_of self.old }
        ensures err { OnErr result (self.new ≡ self.old) }
    {
        match self.pinned_by(thread, command) {
            Some(name) => { Ok(self.take_pin(regions, region_words, thread, command, name, reply)) }
            None => self.take_other(alloc, thread, command, reply),
        }
    }

    fn add_roots(&self, found: &mut Vec<Name>) -> Result<(), NoMemory>
        ensures { OnOk result (found.new.items ≡ with_names found.old.items (flat_map (λ row. row) self.now.roots)) }
    {
        for row in &self.roots {
            add_names(found, row)?;
        }
        Ok(())
    }

    fn add_pins(&self, found: &mut Vec<Name>) -> Result<(), NoMemory>
        ensures { OnOk result (found.new.items ≡ with_names found.old.items (map name_in (flat_map (λ row. row) self.now.pins))) }
    {
        for row in &self.pins {
            add_pinned(found, row)?;
        }
        Ok(())
    }

    // Adds the names that the fields of an object hold.
    fn add_fields(&self, found: &mut Vec<Name>, name: Name) -> Result<(), NoMemory>
        ensures { OnOk result (found.new.items ≡ with_names found.old.items (named (graph_of self.now) (Some name)).refs) }
    {
        match first_named(&self.objects, name) {
            Some(place) => self.objects[place].add_fields(found),
            None => Ok(()),
        }
    }

    /// The names that can be reached from the roots and the pin slots of all threads, in their order.
    pub fn reach(&self, alloc: Global) -> Result<Vec<Name>, NoMemory>
        ensures { IfOk result (λ names. IsReach (graph_of self.now) names.items) }
    {
        let mut found = Vec::new(alloc);
        self.add_roots(&mut found)?;
        self.add_pins(&mut found)?;
        let mut next = 0;
        while next < found.len() {
            let name = found[next];
            self.add_fields(&mut found, name)?;
            next += 1;
        }
        found.sort_unstable();
        Ok(found)
    }

    // The object of that name.
    fn object_named(&self, name: Name) -> Option<&Object>
        ensures { MatchOption result ((graph_of self.now).object name ≡ None)
            (λ found. ((graph_of self.now).object name ≡ Some (record { refs = found.now.refs; nums = found.now.nums })) × (found.now.name ≡ name)) }
    {
        match first_named(&self.objects, name) {
            Some(place) => Some(&self.objects[place]),
            None => None,
        }
    }

    /// How many words the object of that name has. `None`: the graph has no object of that name.
    pub fn words_of(&self, name: Name) -> Option<u64>
        ensures { result ≡ option_map size ((graph_of self.now).object name) }
    {
        match self.object_named(name) {
            Some(object) => Some(object.words()),
            None => None,
        }
    }

    // Adds the row of the object of that name to a text.
    fn put_object(&self, name: Name, text: &mut GraphText)
        requires { size (named (graph_of self.now) (Some name)) ≤ text.old.spare }
        ensures { text.new ≡ with_whole_row text.old (row_in (graph_of self.now) name) }
    {
        match self.object_named(name) {
            Some(object) => object.put(text),
            None => text.object(name),
        }
    }

    // Adds the rows of the objects of these names to a text.
    fn put_objects(&self, names: &[Name], text: &mut GraphText)
        requires { sum_by (λ name. size (named (graph_of self.now) (Some name))) names.now ≤ text.old.spare }
        ensures rows { text.new.rows ≡ text.old.rows ++ map (row_in (graph_of self.now)) names.now }
        ensures roots { text.new.roots ≡ text.old.roots }
        ensures pins { text.new.pins ≡ text.old.pins }
        ensures room { text.new.room ≡ text.old.room }
    {
        for name in names {
            self.put_object(*name, text);
        }
    }

    // Sets the roots of all threads in a text.
    fn put_roots(&self, text: &mut GraphText)
        requires { length text.old.roots ≡ threads_of self.now }
        ensures roots { (thread index : ℕ) → 1 ≤ thread → thread ≤ threads_of self.now
            → root_of text.new thread index ≡ (graph_of self.now).root thread index }
        ensures kept { text.new ≡ record text.old { roots = text.new.roots } }
        ensures threads { length text.new.roots ≡ length text.old.roots }
    {
        for thread in 1..self.roots.len() {
            text.set_roots(thread - 1, self.roots[thread]);
        }
    }

    // Says in a text what the pin slots of all threads hold.
    fn put_pins(&self, text: &mut GraphText)
        requires { length text.old.pins ≡ threads_of self.now }
        ensures pins { (thread slot : ℕ) → 1 ≤ thread → thread ≤ threads_of self.now
            → pin_of text.new thread slot ≡ name_in ((graph_of self.now).pin thread slot) }
        ensures kept { text.new ≡ record text.old { pins = text.new.pins } }
        ensures threads { length text.new.pins ≡ length text.old.pins }
    {
        for thread in 1..self.pins.len() {
            text.set_pins(thread - 1, names_in(self.pins[thread]));
        }
    }

    /// Makes a text that was opened for as many threads that of the graph. It is to have room for the words of all objects
    /// that can be reached. After `NoMemory` the text is empty.
    pub fn write(&self, alloc: Global, text: &mut GraphText) -> Result<(), NoMemory>
        requires threads { length text.old.roots ≡ threads_of self.now }
        requires room { (words : ℕ) → Live (graph_of self.now) words → words ≤ text.old.room }
        ensures ok { OnOk result (IsTextOf (graph_of self.now) (threads_of self.now) text.new) }
        ensures room { text.new.room ≡ text.old.room }
        ensures err { OnErr result (text.new ≡ cleared text.old) }
    {
        text.clear();
        let names = self.reach(alloc)?;
        self.put_objects(&names, text);
        self.put_roots(text);
        self.put_pins(text);
        Ok(())
    }
}
