ghost use Rattle.std.specs.Prelude.{◌≡◌, ◌+◌, ◌-◌, ◌<◌, ◌≤◌, [], ◌++◌, length, map, replicate, sum_by, All, IfOk, None, slice_index, slice_index_or, slice_set, vec_len, vec_capacity};
ghost use Rattle.std.specs.List.Sorted.{IsPermutation};
ghost use Rattle.shen_graph.specs.Reach.{InOrder};
ghost use Rattle.shen_graph.specs.GraphText.{empty, cleared, with_row, with_reference, with_number, with_numbers, with_root_of, with_pin_of, root_of, pin_of, row_of, names_of, NamesDiffer};
ghost use Rattle.shen_graph.specs.TextLayout.{part, row_at, span_length, Within, IsLaid};

use crate::NoMemory;
use crate::name::Name;
use crate::roots::{alike, slots_alike};
use std::alloc::Global;
use std::marker::Model;
use std::mem;

// Part of a list, from one index up to another.
#[derive(Clone, Copy)]
struct Span {
    from: usize,
    to: usize,
}

// Where the fields of an object lie, in the references of all objects and in their numbers.
#[derive(Clone, Copy)]
struct Place {
    name: Name,
    refs: Span,
    nums: Span,
}

/// A graph as it is to be written: rows of objects, and for each thread a row of 16 roots and one of 4 pin slots. Threads
/// are counted from 1, rows, fields, roots and pin slots from 0. Only `open` takes memory.
#[derive(Drop)]
pub struct GraphText {
    places: Vec<Place>,
    references: Vec<Option<Name>>,
    numbers: Vec<u64>,
    roots: Vec<[Option<Name>; 16]>,
    pins: Vec<[Option<Name>; 4]>,
    spare: usize,
    room: usize,
    // where `sort` moves the fields to
    moved_references: Vec<Option<Name>>,
    moved_numbers: Vec<u64>,
}

impl Model for GraphText {
    ghost use Rattle.shen_graph.specs.GraphText.{Text};

    ghost Value = { Text };

    ghost use Rattle.shen_graph.specs.TextRoom.{text_in, HasRoom};

    ghost view = { text_in };

    ghost invariant = { HasRoom };
}

// Copies a part of a list to the end of another, which has room, and says where it is then.
fn carry<T: Copy>(span: Span, from: &[T], into: &mut Vec<T>) -> Span
    requires within { (span.from ≤ span.to) × (span.to ≤ length from.now) }
    requires room { vec_len into.old + span_length span ≤ vec_capacity into.old }
    ensures items { into.new.items ≡ into.old.items ++ part from.now span }
    ensures len { vec_len into.new ≡ vec_len into.old + span_length span }
    ensures span { result ≡ record { from = vec_len into.old; to = vec_len into.old + span_length span } }
    ensures capacity { vec_capacity into.old ≤ vec_capacity into.new }
{
    let begin = into.len();
    let _ = into.extend_from_slice(&from[span.from..span.to]);
    Span {
        from: begin,
        to: into.len(),
    }
}

// Copies the fields of all rows, in the order of the rows, into two empty lists, which have room.
fn gather(
    places: &mut Vec<Place>,
    references: &[Option<Name>],
    numbers: &[u64],
    moved_references: &mut Vec<Option<Name>>,
    moved_numbers: &mut Vec<u64>,
)
    requires within { All (Within (length references.now) (length numbers.now)) places.old.items }
    requires no_references { moved_references.old.items ≡ [] }
    requires no_numbers { moved_numbers.old.items ≡ [] }
    requires room_for_references { sum_by (λ place. span_length place.refs) places.old.items ≤ vec_capacity moved_references.old }
    requires room_for_numbers { sum_by (λ place. span_length place.nums) places.old.items ≤ vec_capacity moved_numbers.old }
    ensures rows { map (row_at moved_references.new.items moved_numbers.new.items) places.new.items
        ≡ map (row_at references.now numbers.now) places.old.items }
    ensures laid { IsLaid places.new.items (vec_len moved_references.new) (vec_len moved_numbers.new) }
    ensures references { vec_len moved_references.new ≡ sum_by (λ place. span_length place.refs) places.old.items }
    ensures numbers { vec_len moved_numbers.new ≡ sum_by (λ place. span_length place.nums) places.old.items }
    ensures places { vec_len places.new ≡ vec_len places.old }
    ensures place_room { vec_capacity places.new ≡ vec_capacity places.old }
    ensures reference_room { vec_capacity moved_references.old ≤ vec_capacity moved_references.new }
    ensures number_room { vec_capacity moved_numbers.old ≤ vec_capacity moved_numbers.new }
{
    for i in 0..places.len() {
        let place = places[i];
        let refs = carry(place.refs, references, moved_references);
        let nums = carry(place.nums, numbers, moved_numbers);
        places[i] = Place {
            name: place.name,
            refs,
            nums,
        };
    }
}

// Makes all roots null.
fn make_null(roots: &mut [[Option<Name>; 16]])
    ensures { roots.new ≡ replicate (length roots.old) (replicate 16 None) }
{
    for row in roots.iter_mut() {
        *row = [None; 16];
    }
}

// Makes all pin slots empty.
fn make_empty(pins: &mut [[Option<Name>; 4]])
    ensures { pins.new ≡ replicate (length pins.old) (replicate 4 None) }
{
    for row in pins.iter_mut() {
        *row = [None; 4];
    }
}

impl GraphText {
    /// A text without objects, with null roots and empty pin slots, and with room for every graph of so many heap words.
    pub fn open(alloc: Global, words: usize, mutators: usize) -> Result<GraphText, NoMemory>
        ensures { IfOk result (λ text. text ≡ empty words mutators) }
    {
        let roots = alike(alloc, mutators, [None; 16])?;
        let pins = slots_alike(alloc, mutators)?;
        Ok(GraphText {
            places: Vec::with_capacity(alloc, words / 3)?,
            references: Vec::with_capacity(alloc, words)?,
            numbers: Vec::with_capacity(alloc, words)?,
            roots,
            pins,
            spare: words,
            room: words,
            moved_references: Vec::with_capacity(alloc, words)?,
            moved_numbers: Vec::with_capacity(alloc, words)?,
        })
    }

    /// Takes all objects out, and makes all roots null and all pin slots empty.
    pub fn clear(&mut self)
        ensures { self.new ≡ cleared self.old }
    {
        self.places.clear();
        self.references.clear();
        self.numbers.clear();
        make_null(&mut self.roots);
        make_empty(&mut self.pins);
        self.spare = self.room;
    }

    /// Adds an object without fields.
    pub fn object(&mut self, name: Name)
        requires { 3 ≤ self.old.spare }
        ensures { self.new ≡ with_row self.old name }
    {
        let refs = self.references.len();
        let nums = self.numbers.len();
        let _ = self.places.push(Place {
            name,
            refs: Span {
                from: refs,
                to: refs,
            },
            nums: Span {
                from: nums,
                to: nums,
            },
        });
        self.spare -= 3;
    }

    /// Adds a reference to the object in the last row.
    pub fn reference(&mut self, to: Option<Name>)
        requires room { 1 ≤ self.old.spare }
        requires row { 0 < length self.old.rows }
        ensures { self.new ≡ with_reference self.old to }
    {
        let last = self.places.len() - 1;
        let _ = self.references.push(to);
        let place = &mut self.places[last];
        place.refs.to += 1;
        self.spare -= 1;
    }

    /// Adds a number to the object in the last row.
    pub fn number(&mut self, value: u64)
        requires room { 1 ≤ self.old.spare }
        requires row { 0 < length self.old.rows }
        ensures { self.new ≡ with_number self.old value }
    {
        let last = self.places.len() - 1;
        let _ = self.numbers.push(value);
        let place = &mut self.places[last];
        place.nums.to += 1;
        self.spare -= 1;
    }

    /// Adds numbers to the object in the last row.
    pub fn add_numbers(&mut self, numbers: &[u64])
        requires row { 0 < length self.old.rows }
        requires room { length numbers.now ≤ self.old.spare }
        ensures { self.new ≡ with_numbers self.old numbers.now }
    {
        for number in numbers {
            self.number(*number);
        }
    }

    /// Sets a root of a thread.
    pub fn root(&mut self, thread: u32, index: usize, to: Option<Name>)
        requires thread { (1 ≤ thread) × (thread ≤ length self.old.roots) }
        requires index { index < 16 }
        ensures { self.new ≡ with_root_of self.old thread index to }
    {
        let mutator = thread as usize - 1;
        let row = &mut self.roots[mutator];
        row[index] = to;
    }

    /// Says what a pin slot of a thread holds.
    pub fn pin(&mut self, thread: u32, slot: u32, to: Option<Name>)
        requires thread { (1 ≤ thread) × (thread ≤ length self.old.roots) }
        requires slot { slot < 4 }
        ensures { self.new ≡ with_pin_of self.old thread slot to }
    {
        let row = &mut self.pins[thread as usize - 1];
        row[slot as usize] = to;
    }

    /// Sets all roots of a thread, which is counted from 0 here.
    pub(crate) fn set_roots(&mut self, mutator: usize, roots: [Option<Name>; 16])
        requires { mutator < length self.old.roots }
        ensures { self.new ≡ record self.old { roots = slice_set self.old.roots mutator roots } }
    {
        self.roots[mutator] = roots;
    }

    /// Says what all pin slots of a thread hold, which is counted from 0 here.
    pub(crate) fn set_pins(&mut self, mutator: usize, pins: [Option<Name>; 4])
        requires { mutator < length self.old.pins }
        ensures { self.new ≡ record self.old { pins = slice_set self.old.pins mutator pins } }
    {
        self.pins[mutator] = pins;
    }

    /// Puts the objects into the order of their names.
    pub fn sort(&mut self)
        requires { NamesDiffer self.old }
        ensures rows { IsPermutation self.old.rows self.new.rows }
        ensures order { InOrder (names_of self.new) }
        ensures kept { self.new ≡ record self.old { rows = self.new.rows } }
    {
        self.places.sort_unstable_by_key(|place| place.name);
        gather(
            &mut self.places,
            &self.references,
            &self.numbers,
            &mut self.moved_references,
            &mut self.moved_numbers,
        );
        mem::swap(&mut self.references, &mut self.moved_references);
        mem::swap(&mut self.numbers, &mut self.moved_numbers);
        self.moved_references.clear();
        self.moved_numbers.clear();
    }

    /// The number of threads that the text was opened for.
    pub fn mutators(&self) -> usize
        ensures threads { result ≡ length self.now.roots }
        ensures sixteen { All (λ roots. length roots ≡ 16) self.now.roots }
    {
        self.roots.len()
    }

    /// The number of objects.
    pub fn rows(&self) -> usize
        ensures { result ≡ length self.now.rows }
    {
        self.places.len()
    }

    /// The name of the object in a row.
    pub fn name_at(&self, row: usize) -> Name
        requires { row < length self.now.rows }
        ensures { result ≡ (row_of self.now row).name }
    {
        self.places[row].name
    }

    /// The number of references of the object in a row.
    pub fn refs_at(&self, row: usize) -> usize
        requires { row < length self.now.rows }
        ensures { result ≡ length (row_of self.now row).refs }
    {
        let span = self.places[row].refs;
        span.to - span.from
    }

    /// A reference of the object in a row. `None` is null.
    pub fn reference_at(&self, row: usize, index: usize) -> Option<Name>
        requires row { row < length self.now.rows }
        requires index { index < length (row_of self.now row).refs }
        ensures { result ≡ slice_index_or (row_of self.now row).refs index None }
    {
        let span = self.places[row].refs;
        self.references[span.from + index]
    }

    /// The number of numbers of the object in a row.
    pub fn nums_at(&self, row: usize) -> usize
        requires { row < length self.now.rows }
        ensures { result ≡ length (row_of self.now row).nums }
    {
        let span = self.places[row].nums;
        span.to - span.from
    }

    /// A number of the object in a row.
    pub fn number_at(&self, row: usize, index: usize) -> u64
        requires row { row < length self.now.rows }
        requires index { index < length (row_of self.now row).nums }
        ensures { result ≡ slice_index (row_of self.now row).nums index }
    {
        let span = self.places[row].nums;
        self.numbers[span.from + index]
    }

    /// A root of a thread. `None` is null.
    pub fn root_at(&self, thread: u32, index: usize) -> Option<Name>
        requires thread { (1 ≤ thread) × (thread ≤ length self.now.roots) }
        requires index { index < 16 }
        ensures { result ≡ root_of self.now thread index }
    {
        let row = &self.roots[thread as usize - 1];
        row[index]
    }

    /// What a pin slot of a thread holds. `None`: it is empty.
    pub fn pin_at(&self, thread: u32, slot: u32) -> Option<Name>
        requires thread { (1 ≤ thread) × (thread ≤ length self.now.roots) }
        requires slot { slot < 4 }
        ensures { result ≡ pin_of self.now thread slot }
    {
        let row = &self.pins[thread as usize - 1];
        row[slot as usize]
    }
}
