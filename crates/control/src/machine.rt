ghost use Rattle.std.specs.Prelude.{◌≡◌, ◌+◌, true};
ghost use Rattle.heap_world.specs.Change.{image_words};
ghost use Rattle.image_graph.specs.State.{config_of};
ghost use Rattle.collector_rows.specs.ControlReady.{is_ready, IsHintFor};
ghost use Rattle.control.specs.Clear.{IsClear};
ghost use Rattle.control.specs.Image.{SeesOwn};
ghost use Rattle.control.specs.Starts.{AreHeapIndices};

use crate::pause::{clear, load, put_word, take_found};
use crate::starts::{next_stored, no_starts};
use collector_rows::{ControlSpot, Extent, LastPause, image_words};
use heap_words::phase::IDLE;
use heap_words::{Access, Config, Place, Took, make_access};
use image_graph::Image;
use regions::size;
use shen_graph::GraphText;

/// The machine that collects a heap. Its steps are one access each; between two of them it does constant work, but for the
/// step that loads the last word of the image: there it does the work of the pause, in time linear in the words of the heap. Only
/// `new` is given memory, with the image.
#[derive(Drop)]
pub struct Control {
    spot: ControlSpot,
    last: LastPause,
    // In a pause the words loaded so far, and once all are, the words to be stored. What it is else does not matter.
    image: Image,
    // While it stores words of a new image of which a part was loaded: where the free words of buffers began.
    starts: [usize; 12],
    // The last word of the image, counted from 0 in the order of places.
    last_word: usize,
    // The address of the heap that it was given as a hint, for its next step.
    hint: Option<u64>,
    // How many hints it has taken.
    hints: u64,
    ghost ready: { is_ready (config_of image) spot ≡ true },
    ghost own: { SeesOwn (config_of image) spot starts },
    ghost heap: { AreHeapIndices (config_of image) starts },
    ghost clear: { IsClear image },
    ghost given: { IsHintFor (config_of image) spot hint },
    ghost last_is: { last_word + 1 ≡ image_words (config_of image) },
}

impl Control {
    ghost use Rattle.std.specs.Prelude.{ℕ, ◌<◌, ◌≤◌, ◌↔◌, [], length, vec_len, slice_index, false, Some, None, IfSome};
    ghost use Rattle.heap_words.specs.Access.{table_index};
    ghost use Rattle.heap_words.specs.Steps.{accessed};
    ghost use Rattle.heap_words.specs.Words.{Free, Phase, Cset, Heap, IsWord, table_words, heap_size};
    ghost use Rattle.heap_world.specs.Change.{image_view};
    ghost use Rattle.image_graph.specs.State.{memory_of};
    ghost use Rattle.image_graph.specs.Holds.{HoldsSome};
    ghost use Rattle.image_graph.specs.Left.{StandsForSome, ShowsTheGraph};
    ghost use Rattle.collector_rows.specs.ControlRows.{is_gone, control_place, control_access, control_next, control_says, takes_hint, hinted_by, control_hinted, greys_at, stored_next};
    ghost use Rattle.collector_rows.specs.ControlWaits.{WaitsAt};
    ghost use Rattle.cycle_pauses.specs.Collect.{collect_image};
    ghost use Rattle.control.specs.Fit.{IsFit};
    ghost use Rattle.control.specs.Image.{image_from, is_storing, is_inside_image, loads_left, stores_left, IsLoadedFrom};
    ghost use Rattle.control.specs.Seen.{config_in, seen_control, hint_of, past_hint, access_of, word_found};

    /// The control of the image's heap. It has seen the image's phase, collection set and free word. Nothing else of the image
    /// matters.
    pub fn new(image: Image) -> Control
        ensures config { config_in result ≡ config_of image }
        ensures seen { seen_control result ≡ record { spot = ControlSpot.LookLeft; seen = memory_of image Free; phase = memory_of image Phase; cset = memory_of image Cset; image = []; hints = 0 } }
        ensures hint { hint_of result ≡ None }
    {
        let mut image = image;
        let config = image.config();
        let last = LastPause {
            phase: image.word(config.phase_at()),
            cset: image.word(config.cset_at()),
            seen: image.word(config.free_at()),
        };
        clear(&mut image);
        Control {
            spot: ControlSpot::LookLeft,
            last,
            image,
            starts: no_starts(config),
            last_word: image_words(config) - 1,
            hint: None,
            hints: 0,
        }
    }

    /// Whether it has ended. A hint stands only where it is taken.
    pub fn is_idle(&self) -> bool
        ensures gone { result ≡ is_gone (seen_control self.now).spot }
        ensures given { IsHintFor (config_in self.now) (seen_control self.now).spot (hint_of self.now) }
    {
        self.spot.is_gone()
    }

    /// Whether it stores words of a new image.
    pub fn is_storing(&self) -> bool
        ensures { result ≡ is_storing (seen_control self.now).spot }
    {
        matches!(self.spot, ControlSpot::StoreWord { .. })
    }

    /// Whether its next step goes from a word of the image to the next one, in a pause of all of the image: nearly all of its steps do.
    pub fn is_inside_image(&self) -> bool
        ensures { result ≡ is_inside_image (config_in self.now) (seen_control self.now).spot }
    {
        match self.spot {
            ControlSpot::LoadWord {
                index,
                extent: Extent::Whole,
            }
            | ControlSpot::StoreWord {
                index,
                extent: Extent::Whole,
            } => index < self.last_word,
            _ => false,
        }
    }

    /// Whether it takes hints: it is about to claim a unit of marking.
    pub fn takes_hint(&self) -> bool
        ensures { result ≡ takes_hint (seen_control self.now).spot }
    {
        self.spot.takes_hint()
    }

    /// Gives it the hint of an address of the heap, which its next step takes: it scans the word that has the address's mark, and
    /// claims no unit. It is about to claim one.
    pub fn give_hint(&mut self, address: u64)
        requires takes { takes_hint (seen_control self.old).spot ≡ true }
        requires heap { IsWord (config_in self.old) (Heap address) }
        ensures hint { hint_of self.new ≡ Some address }
        ensures same { seen_control self.new ≡ seen_control self.old }
        ensures config { config_in self.new ≡ config_in self.old }
    {
        self.hint = Some(address);
    }

    /// The hint that it was given for its next step, if it was given one.
    pub fn hint(&self) -> Option<u64>
        ensures { result ≡ hint_of self.now }
    {
        self.hint
    }

    /// How many hints it has taken, up to `u64::MAX`.
    pub fn hints(&self) -> u64
        ensures { result ≡ (seen_control self.now).hints }
    {
        self.hints
    }

    /// The phase in which its last pause has left the heap: 0 no cycle, 1 marking, 2 evacuation, 3 updating. Before the first one,
    /// that of the image that it was made with. A pause has chosen it once its last word is loaded, and stores it after that.
    pub fn phase(&self) -> u64
        ensures { result ≡ (seen_control self.now).phase }
    {
        self.last.phase
    }

    /// The address that its next access makes grey, if it does so: one of the heap.
    pub fn greys(&self) -> Option<u64>
        ensures row { result ≡ greys_at (seen_control self.now).spot }
        ensures heap { IfSome result (λ address. IsWord (config_in self.now) (Heap address)) }
    {
        self.spot.greys()
    }

    // Where it goes on: with a hint, at the word of that.
    fn goes_on_at(&self) -> ControlSpot
        ensures row { result ≡ hinted_by (config_in self.now) (hint_of self.now) (seen_control self.now).spot }
        ensures ready { is_ready (config_in self.now) result ≡ true }
        ensures gone { is_gone result ≡ is_gone (seen_control self.now).spot }
        ensures own { SeesOwn (config_in self.now) result self.now.starts }
    {
        match self.hint {
            Some(address) => self.spot.hinted(self.image.config(), address),
            None => self.spot,
        }
    }

    /// The place of its next access.
    pub fn place(&self) -> Place
        requires { is_gone (seen_control self.now).spot ≡ false }
        ensures { result ≡ control_place (seen_control self.now).spot }
    {
        self.spot.place()
    }

    /// The access of its next step.
    #[inline(always)]
    pub fn plan(&self) -> Access
        requires { is_gone (seen_control self.now).spot ≡ false }
        ensures row { result ≡ control_access (config_in self.now) (control_hinted (config_in self.now) (hint_of self.now) (seen_control self.now)) }
        ensures inside { table_index result < table_words (config_in self.now) }
    {
        match self.looks_at() {
            Some(at) => Access::load(at),
            None => self.plan_apart(),
        }
    }

    // The index of the word that it looks at, if its next step is one of the three looks: nearly all of its steps outside pauses are.
    #[inline(always)]
    fn looks_at(&self) -> Option<usize>
        ensures { IfSome result (λ at. (hint_of self.now ≡ None) × (control_access (config_in self.now) (seen_control self.now) ≡ Access.Load at) × (at < table_words (config_in self.now))) }
    {
        match self.spot {
            ControlSpot::LookLeft => Some(self.image.config().left_at()),
            ControlSpot::LookAsked => Some(self.image.config().ask_at()),
            ControlSpot::LookFree => Some(self.image.config().free_at()),
            _ => None,
        }
    }

    // The same wherever it stands. The three looks do not pay for the copy of its spot.
    #[inline(never)]
    fn plan_apart(&self) -> Access
        requires { is_gone (seen_control self.now).spot ≡ false }
        ensures row { result ≡ control_access (config_in self.now) (control_hinted (config_in self.now) (hint_of self.now) (seen_control self.now)) }
        ensures inside { table_index result < table_words (config_in self.now) }
    {
        let config = self.image.config();
        match self.goes_on_at() {
            ControlSpot::LoadWord { index, .. } => Access::load(config.image_start() + index),
            ControlSpot::StoreWord { index, .. } => {
                let at = config.image_start() + index;
                Access::store(at, self.image.word(at))
            }
            spot => spot.access(config, 0),
        }
    }

    // Whether it goes from a word of the image to the next one, in a pause of all of the image; it has done so then. This is nearly
    // all that such a pause does.
    fn goes_on_in_image(&mut self, got: u64) -> bool
        requires busy { is_gone (seen_control self.old).spot ≡ false }
        requires fit { IsFit (config_in self.old) (seen_control self.old) got }
        ensures config { config_in self.new ≡ config_in self.old }
        ensures hint { hint_of self.new ≡ hint_of self.old }
        ensures none { result ≡ true → hint_of self.old ≡ None }
        ensures same { result ≡ false → seen_control self.new ≡ seen_control self.old }
        ensures row { result ≡ true → seen_control self.new ≡ control_next collect_image (config_in self.old) (seen_control self.old) got }
        ensures says { result ≡ true → control_says (config_in self.old) (seen_control self.old) got ≡ Took.More }
        ensures calm { result ≡ true → WaitsAt (config_in self.old) (seen_control self.old) got → ⊥ }
    {
        match self.spot {
            ControlSpot::LoadWord {
                index,
                extent: Extent::Whole,
            } if index < self.last_word => {
                put_word(&mut self.image, index, got);
                self.spot = ControlSpot::LoadWord {
                    index: index + 1,
                    extent: Extent::Whole,
                };
                true
            }
            ControlSpot::StoreWord {
                index,
                extent: Extent::Whole,
            } if index < self.last_word => {
                self.spot = ControlSpot::StoreWord {
                    index: index + 1,
                    extent: Extent::Whole,
                };
                true
            }
            _ => false,
        }
    }

    /// Makes its next step, which goes from a word of the image to the next one, on the words of the heap's table. This is the
    /// shortest way through a pause: what `plan` and `took` do, with nothing looked up.
    pub fn step_inside_image(&mut self, words: &mut Vec<u64>)
        requires inside { is_inside_image (config_in self.old) (seen_control self.old).spot ≡ true }
        requires words { vec_len words.old ≡ table_words (config_in self.old) }
        ensures config { config_in self.new ≡ config_in self.old }
        ensures none { hint_of self.old ≡ None }
        ensures hint { hint_of self.new ≡ None }
        ensures words { words.new.items ≡ accessed (control_access (config_in self.old) (seen_control self.old)) words.old.items }
        ensures row { seen_control self.new ≡ control_next collect_image (config_in self.old) (seen_control self.old) (slice_index words.old.items (table_index (control_access (config_in self.old) (seen_control self.old)))) }
    {
        match &mut self.spot {
            ControlSpot::LoadWord {
                index,
                extent: Extent::Whole,
            } => {
                let at = self.image.config().image_start() + *index;
                put_word(&mut self.image, *index, words[at]);
                *index += 1;
            }
            ControlSpot::StoreWord {
                index,
                extent: Extent::Whole,
            } => {
                let at = self.image.config().image_start() + *index;
                words[at] = self.image.word(at);
                *index += 1;
            }
            _ => unreachable!(),
        }
    }

    /// How many words of the image it loads before the last one, one after the other, in a pause of all of the image.
    #[inline(always)]
    pub fn words_to_load(&self) -> usize
        ensures { result ≡ loads_left (config_in self.now) (seen_control self.now).spot }
    {
        match self.spot {
            ControlSpot::LoadWord {
                index,
                extent: Extent::Whole,
            } => self.last_word - index,
            _ => 0,
        }
    }

    /// How many words of the image it stores before the last one, one after the other, in a pause of all of the image.
    #[inline(always)]
    pub fn words_to_store(&self) -> usize
        ensures { result ≡ stores_left (config_in self.now) (seen_control self.now).spot }
    {
        match self.spot {
            ControlSpot::StoreWord {
                index,
                extent: Extent::Whole,
            } => self.last_word - index,
            _ => 0,
        }
    }

    /// The index in the heap's table of the word that it loads next, where it loads one more before the last: what `plan` gives, with
    /// nothing looked up.
    #[inline(always)]
    pub fn next_to_load(&self) -> usize
        requires { 0 < loads_left (config_in self.now) (seen_control self.now).spot }
        ensures none { hint_of self.now ≡ None }
        ensures row { Access.Load result ≡ control_access (config_in self.now) (seen_control self.now) }
        ensures inside { result < table_words (config_in self.now) }
    {
        match self.spot {
            ControlSpot::LoadWord {
                index,
                extent: Extent::Whole,
            } => self.image.config().image_start() + index,
            _ => unreachable!(),
        }
    }

    /// Goes on with the word that it has loaded there, to the next one: what `took` does, with nothing looked up.
    #[inline(always)]
    pub fn loaded(&mut self, got: u64)
        requires { 0 < loads_left (config_in self.old) (seen_control self.old).spot }
        ensures config { config_in self.new ≡ config_in self.old }
        ensures none { hint_of self.old ≡ None }
        ensures hint { hint_of self.new ≡ None }
        ensures row { seen_control self.new ≡ control_next collect_image (config_in self.old) (seen_control self.old) got }
        ensures left { loads_left (config_in self.new) (seen_control self.new).spot + 1 ≡ loads_left (config_in self.old) (seen_control self.old).spot }
    {
        match &mut self.spot {
            ControlSpot::LoadWord {
                index,
                extent: Extent::Whole,
            } => {
                put_word(&mut self.image, *index, got);
                *index += 1;
            }
            _ => unreachable!(),
        }
    }

    /// The index in the heap's table of the word that it stores next, and its value, where it stores one more before the last: what
    /// `plan` gives, with nothing looked up.
    #[inline(always)]
    pub fn next_to_store(&self) -> (usize, u64)
        requires { 0 < stores_left (config_in self.now) (seen_control self.now).spot }
        ensures none { hint_of self.now ≡ None }
        ensures row { Access.Store result.0 result.1 ≡ control_access (config_in self.now) (seen_control self.now) }
        ensures inside { result.0 < table_words (config_in self.now) }
    {
        match self.spot {
            ControlSpot::StoreWord {
                index,
                extent: Extent::Whole,
            } => {
                let at = self.image.config().image_start() + index;
                (at, self.image.word(at))
            }
            _ => unreachable!(),
        }
    }

    /// Goes on from the word that it has stored there to the next one: what `took` does, with nothing looked up.
    #[inline(always)]
    pub fn stored(&mut self)
        requires { 0 < stores_left (config_in self.old) (seen_control self.old).spot }
        ensures config { config_in self.new ≡ config_in self.old }
        ensures none { hint_of self.old ≡ None }
        ensures hint { hint_of self.new ≡ None }
        ensures row { (got : ℕ) → seen_control self.new ≡ control_next collect_image (config_in self.old) (seen_control self.old) got }
        ensures left { stores_left (config_in self.new) (seen_control self.new).spot + 1 ≡ stores_left (config_in self.old) (seen_control self.old).spot }
    {
        match &mut self.spot {
            ControlSpot::StoreWord {
                index,
                extent: Extent::Whole,
            } => *index += 1,
            _ => unreachable!(),
        }
    }

    /// Goes on with the word that its access has found. A pause goes on to the next phase of the cycle, or makes room.
    #[inline(always)]
    pub fn took(&mut self, got: u64) -> Took
        requires busy { is_gone (seen_control self.old).spot ≡ false }
        requires fit { IsFit (config_in self.old) (control_hinted (config_in self.old) (hint_of self.old) (seen_control self.old)) got }
        ensures config { config_in self.new ≡ config_in self.old }
        ensures hint { hint_of self.new ≡ None }
        ensures row { seen_control self.new ≡ control_next collect_image (config_in self.old) (control_hinted (config_in self.old) (hint_of self.old) (seen_control self.old)) got }
        ensures says { result ≡ control_says (config_in self.old) (control_hinted (config_in self.old) (hint_of self.old) (seen_control self.old)) got }
        ensures again { (result ≡ Took.Again) ↔ WaitsAt (config_in self.old) (control_hinted (config_in self.old) (hint_of self.old) (seen_control self.old)) got }
    {
        self.take_hint();
        self.took_word(got)
    }

    /// Makes its next step on the words of the heap's table: the access of `plan`, and what `took` makes of the word that it finds.
    #[inline(always)]
    pub fn step(&mut self, words: &mut Vec<u64>) -> Took
        requires busy { is_gone (seen_control self.old).spot ≡ false }
        requires words { vec_len words.old ≡ table_words (config_in self.old) }
        requires fit { IsFit (config_in self.old) (past_hint self.old) (word_found self.old words.old.items) }
        ensures words { words.new.items ≡ accessed (access_of self.old) words.old.items }
        ensures config { config_in self.new ≡ config_in self.old }
        ensures hint { hint_of self.new ≡ None }
        ensures row { seen_control self.new ≡ control_next collect_image (config_in self.old) (past_hint self.old) (word_found self.old words.old.items) }
        ensures says { result ≡ control_says (config_in self.old) (past_hint self.old) (word_found self.old words.old.items) }
        ensures again { (result ≡ Took.Again) ↔ WaitsAt (config_in self.old) (past_hint self.old) (word_found self.old words.old.items) }
    {
        match self.looks_at() {
            Some(at) => self.took_word(words[at]),
            None => {
                let got = make_access(words, self.plan_apart());
                self.took(got)
            }
        }
    }

    // Goes on from where its hint leads, which it has taken then, if it has one.
    fn take_hint(&mut self)
        ensures config { config_in self.new ≡ config_in self.old }
        ensures hint { hint_of self.new ≡ None }
        ensures row { seen_control self.new ≡ control_hinted (config_in self.old) (hint_of self.old) (seen_control self.old) }
    {
        if self.hint.is_some() {
            self.spot = self.goes_on_at();
            self.hints = self.hints.saturating_add(1);
            self.hint = None;
        }
    }

    // The index of the word of the new image that it stores next, where it stores one.
    fn stored_next(&self) -> usize
        ensures { result ≡ stored_next (config_in self.now) (seen_control self.now).spot (seen_control self.now).image }
    {
        match self.spot {
            ControlSpot::StoreWord { index, extent } => {
                next_stored(&self.image, &self.starts, index, extent)
            }
            _ => 0,
        }
    }

    // Goes on with the word, where it has no hint. Outside pauses it looks at three words in turn: while there are mutators left, nothing
    // is asked for in phase 0, and half of the regions are free, it pays for nothing that the others put aside.
    #[inline(always)]
    fn took_word(&mut self, got: u64) -> Took
        requires none { hint_of self.old ≡ None }
        requires busy { is_gone (seen_control self.old).spot ≡ false }
        requires fit { IsFit (config_in self.old) (seen_control self.old) got }
        ensures config { config_in self.new ≡ config_in self.old }
        ensures hint { hint_of self.new ≡ None }
        ensures row { seen_control self.new ≡ control_next collect_image (config_in self.old) (seen_control self.old) got }
        ensures says { result ≡ control_says (config_in self.old) (seen_control self.old) got }
        ensures again { (result ≡ Took.Again) ↔ WaitsAt (config_in self.old) (seen_control self.old) got }
    {
        match self.spot {
            ControlSpot::LookLeft if got != 0 => self.spot = ControlSpot::LookAsked,
            ControlSpot::LookAsked if got == 0 && self.last.phase == IDLE => {
                self.spot = ControlSpot::LookFree;
            }
            ControlSpot::LookFree if 2 * size(got) as usize >= self.image.config().regions() => {
                self.spot = ControlSpot::LookLeft;
                return Took::Again;
            }
            _ => return self.took_apart(got),
        }
        Took::More
    }

    // The same wherever it stands.
    #[inline(never)]
    fn took_apart(&mut self, got: u64) -> Took
        requires none { hint_of self.old ≡ None }
        requires busy { is_gone (seen_control self.old).spot ≡ false }
        requires fit { IsFit (config_in self.old) (seen_control self.old) got }
        ensures config { config_in self.new ≡ config_in self.old }
        ensures hint { hint_of self.new ≡ None }
        ensures row { seen_control self.new ≡ control_next collect_image (config_in self.old) (seen_control self.old) got }
        ensures says { result ≡ control_says (config_in self.old) (seen_control self.old) got }
        ensures again { (result ≡ Took.Again) ↔ WaitsAt (config_in self.old) (seen_control self.old) got }
    {
        if self.goes_on_in_image(got) {
            return Took::More;
        }
        let before = self.spot;
        let last = self.last;
        let next = self.stored_next();
        self.last = take_found(&mut self.image, &mut self.starts, before, last, got);
        let (spot, said) = before.after(self.image.config(), last, next, got);
        self.spot = spot;
        said
    }

    /// Writes the graph that the words of the heap's table stand for, as `Image::answer_graph` does: it is the only place in a
    /// heap that has the memory for that. The control is not storing a new image, and what it has loaded in a pause so far
    /// are words of this table. As events see it, it stays as it is.
    pub fn answer_graph(&mut self, words: &[u64], text: &mut GraphText)
        requires words { length words.now ≡ table_words (config_in self.old) }
        requires loaded { IsLoadedFrom (config_in self.old) (image_from (config_in self.old) words.now) (seen_control self.old).spot (seen_control self.old).image }
        requires room { heap_size (config_in self.old) ≤ text.old.room }
        requires threads { length text.old.roots ≡ (config_in self.old).mutators }
        requires stand { StandsForSome (config_in self.old) words.now }
        ensures config { config_in self.new ≡ config_in self.old }
        ensures hint { hint_of self.new ≡ hint_of self.old }
        ensures same { seen_control self.new ≡ seen_control self.old }
        ensures shows { ShowsTheGraph (config_in self.old) words.now text.new }
        ensures same_room { text.new.room ≡ text.old.room }
        ensures same_threads { length text.new.roots ≡ length text.old.roots }
    {
        load(&mut self.image, words);
        self.image.answer_graph(text);
    }

    /// Its image, where a heap that has come to its end is read: of its words nothing is told.
    pub fn into_image(self) -> Image
        ensures { config_of result ≡ config_in self }
    {
        let Control {
            spot: _,
            last: _,
            starts: _,
            last_word: _,
            hint: _,
            hints: _,
            image,
        } = self;
        image
    }
}
