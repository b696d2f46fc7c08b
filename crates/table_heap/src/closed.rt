ghost use Rattle.std.specs.Prelude.{◌≡◌, None, List, length, slice_get};
ghost use Rattle.std.specs.Slots.{slots_items, slots_len, IsFull};
ghost use Rattle.heap_words.specs.Words.{table_words, heap_size};
ghost use Rattle.image_graph.specs.State as images;
ghost use Rattle.heap_words.specs.Steps.{IsReached};
ghost use Rattle.shared_table.specs.Views.{machines_of, whole, kept_in_view};
ghost use Rattle.heap_machines.specs.Shown.{shown};
ghost use Rattle.step_core.specs.Actor.{Actor};
ghost use Rattle.table_heap.specs.Hinted.{place_hints, hints_in};
ghost use Rattle.shared_table.specs.Counted.{uncounted_view};
ghost use Rattle.step_core.specs.Settled.{image_of, control_number};
ghost use Rattle.table_heap.specs.Core.{heap_kind, start_of_key, machine_in};
ghost use Rattle.table_heap.specs.Known.{HasTheControl};

use crate::bundle::Bundle;
use crate::heap::Heap;
use crate::key::HeapKey;
use crate::machines::{Acting, OfHeaps};
use atomic_table::Closed as Rows;
use heap_machines::Machine;
use heap_words::Config;
use image_graph::Image;
use shared_table::{ViewSeat, close_table};
use shen_graph::{GraphText, Order};
use std::alloc::Global;
use std::snapshot::Snapshot;

/// A heap that no thread shares any more: its words as the last event left them.
#[derive(Drop)]
pub struct Closed {
    // The words, and where `graph` works: the image that was the control's.
    image: Image,
    // By what the heap was known.
    key: HeapKey,
    // Which machines led to the words.
    seat: Snapshot<ViewSeat<Acting>>,
    // How many hints the machines took.
    hinted: u64,
    ghost same_sizes: { key.config ≡ images.config_of image },
    ghost counted: { hinted ≡ hints_in (machines_of (uncounted_view seat.value.me.0)) },
    ghost reached: { ∥ IsReached (heap_kind (images.config_of image)) (start_of_key key) (record { words = images.words_of image; machines = machines_of (uncounted_view seat.value.me.0) }) ∥₁ },
    ghost calm: { image_of (slice_get (machines_of (uncounted_view seat.value.me.0)) (control_number (images.config_of image))) ≡ None },
}

// Reads all words of a table.
fn read_words(rows: &Rows<(), Global>, image: &mut Image)
    requires full { IsFull rows.now.words }
    requires room { table_words (images.config_of image.old) ≡ slots_len rows.now.words }
    ensures config { images.config_of image.new ≡ images.config_of image.old }
    ensures words { images.words_of image.new ≡ slots_items rows.now.words }
{
    for at in 0..image.config().table_words() {
        image.set_word(at, rows.word(at));
    }
}

// The image of the control, which is the last of a heap's machines.
fn control_image(config: Config, mut machines: Vec<Option<Machine>>) -> Image
    requires { HasTheControl config machines.items }
    ensures { images.config_of result ≡ config }
{
    let number = config.seats() - 1;
    let Some(control) = machines[number].take() else {
        unreachable!()
    };
    control.into_image()
}

// How many hints a machine took, if there is one.
fn hints_at(place: &Option<Machine>) -> u64
    ensures { result ≡ place_hints place.now }
{
    match place {
        Some(machine) => machine.hints(),
        None => 0,
    }
}

// How many hints the machines took, up to `u64::MAX`.
fn hints_taken(machines: &[Option<Machine>]) -> u64
    ensures { (actors : List Actor) → kept_in_view shown machines.now ≡ kept_in_view machine_in (whole actors) → result ≡ hints_in actors }
{
    let mut taken: u64 = 0;
    for place in machines.iter() {
        taken = taken.saturating_add(hints_at(place));
    }
    taken
}

impl Heap {
    ghost use Rattle.shared_table.specs.Views.{whole};
    ghost use Rattle.table_heap.specs.State as state;
    ghost use Rattle.table_heap.specs.Closed.{HasAll, IsControlIdle, config_of, machines_of as actors_of, stage_of};

    /// Ends the sharing, by a bundle that has all machines. The control is idle. No memory is taken: the words are read into the
    /// control's image, which serves no more.
    pub fn close(self, bundle: Bundle) -> Closed
        requires heap { state.IsBundleOf bundle self }
        requires all { HasAll bundle }
        requires control { IsControlIdle bundle }
        ensures config { config_of result ≡ state.config_of self }
        ensures machines { state.view_of bundle ≡ whole (actors_of result) }

        // Some events lead from where the heap began to just these words and machines.
        ensures reached { IsReached (heap_kind (state.config_of self)) (state.start_of_heap self) (stage_of result) }
    {
        let Heap { config, key, table } = self;
        let Bundle {
            config: _,
            key: _,
            seat,
            machines,
            greyed: _,
            hints: _,
            thieves: _,
        } = bundle;
        let hinted = hints_taken(&machines);
        let last = Snapshot::of(&seat);
        let rows = close_table::<Acting, Order, HeapKey, OfHeaps>(table, seat);
        let mut image = control_image(config, machines);
        read_words(&rows, &mut image);
        rows.free();
        Closed {
            image,
            key,
            seat: last,
            hinted,
        }
    }
}

impl Closed {
    ghost use Rattle.std.specs.Prelude.{◌<◌, ◌≤◌, slice_index};
    ghost use Rattle.heap_machines.specs.Pause.{pause_image};
    ghost use Rattle.step_core.specs.Begins.{Run, ending, graph_after};
    ghost use Rattle.heap_world.specs.Shows.{ShowsGraph};
    ghost use Rattle.table_heap.specs.Closed.{config_of, words_of, machines_of as actors_of, stage_of, AllRest, IsUnchanged};

    /// The word at an index of the table.
    pub fn word(&self, at: usize) -> u64
        requires { at < table_words (config_of self.now) }
        ensures { result ≡ slice_index (words_of self.now) at }
    {
        self.image.word(at)
    }

    /// How many hints the machines took, or `u64::MAX` where there were more.
    pub fn hinted(&self) -> u64
        ensures { result ≡ hints_in (actors_of self.now) }
    {
        self.hinted
    }

    /// Writes the graph that words and machines stand for: the objects that the mutators' roots lead to, in the order of
    /// their names, and the roots of each mutator. No mutator has a call in progress, and the text was opened for at least
    /// as many words as the heap has, and for the heap's mutators. No memory is taken. The time is linear in the words, but
    /// for the sort of the objects.
    pub fn graph(&mut self, text: &mut GraphText)
        requires rest { AllRest self.old }
        requires room { heap_size (config_of self.old) ≤ text.old.room }
        requires threads { length text.old.roots ≡ (config_of self.old).mutators }
        ensures shows { (run : Run (config_of self.old)) → ending pause_image (config_of self.old) run ≡ stage_of self.old → ShowsGraph text.new (config_of self.old).mutators (graph_after pause_image (config_of self.old) run) }

        // Nothing else changes.
        ensures unchanged { IsUnchanged self.old self.new }
        ensures same_room { text.new.room ≡ text.old.room }
        ensures same_threads { length text.new.roots ≡ length text.old.roots }
    {
        self.image.answer_graph(text);
    }
    /// Its words, as an image that serves for another heap.
    pub fn into_image(self) -> Image
        ensures config { images.config_of result ≡ config_of self }
        ensures words { images.words_of result ≡ words_of self }
    {
        let Closed {
            image,
            key: _,
            seat: _,
            hinted: _,
        } = self;
        image
    }
}
