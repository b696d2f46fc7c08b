//! Packs the objects of an image that were found.

ghost use Rattle.std.specs.Prelude.{ℕ, ◌≡◌, ◌+◌, ◌<◌, ◌≤◌, ◌⊎◌, length, slice_index};
ghost use Rattle.heap_words.specs.Words.{Top, word_at, table_words, heap_size, heap_start, heap_in};
ghost use Rattle.regions.specs.Tops.{top_before};
ghost use Rattle.regions.specs.Slide.{IsSlidTo, renewed};
ghost use Rattle.regions.specs.Table.{word_of, kept_of, now_of, LeadsToKept, CanCompact, IsRenewedBy, IsInTable, from_table};
ghost use Rattle.image_graph.specs.Pinned.{pinned_set, is_row_pinned};
ghost use Rattle.regions.specs.Places.{is_shut};
ghost use Rattle.image_graph.specs.State.{config_of, words_of, memory_of, marks_of, found_of, places_of};
ghost use Rattle.image_graph.specs.PackedTable.{IsPacked};

use crate::image::Image;
use crate::sets::with_if;
use heap_words::Config;
use regions::{compact_marked, renew};

// Packs the marked objects of a table around the regions that are shut. `marks` and `places` have an entry for each word of the heap.
fn pack_words(config: Config, shut: u64, marks: &[bool], words: &mut [u64], places: &mut [u64])
    requires table { length words.old ≡ table_words config }
    requires places { length places.old ≡ heap_size config }
    requires compact { CanCompact config.region_words (heap_in config words.old) marks.now }
    ensures { IsPacked config (is_shut shut) marks.now words.old words.new places.new }
{
    let top = config.top_at(0);
    let (low, behind) = words.split_at_mut(config.heap_start());
    let (heap, _) = behind.split_at_mut(config.heap_size());
    let tops = &mut low[top..top + config.regions()];
    compact_marked(
        config.region_words() as u64,
        shut,
        marks,
        heap,
        places,
        tops,
    );
}

impl Image {
    // The set of the regions that are pinned.
    fn pinned_set(&self) -> u64
        ensures { result ≡ pinned_set (config_of self.now) (memory_of self.now) }
    {
        let mut set = 0u64;
        for region in 0..self.config.regions() {
            set = with_if(set, region, self.is_pinned(region));
        }
        set
    }

    /// Packs the objects that were found: each goes to its new place, in the order of addresses, with its references
    /// renewed, and the tops follow. In pinned regions objects stay where they are, and so do the tops. No other word changes.
    pub fn pack_found(&mut self)
        requires { CanCompact (config_of self.old).region_words (heap_in (config_of self.old) (words_of self.old)) (marks_of self.old) }
        ensures config { config_of self.new ≡ config_of self.old }
        ensures found { found_of self.new ≡ found_of self.old }
        ensures marks { marks_of self.new ≡ marks_of self.old }
        ensures packed { IsPacked (config_of self.old) (is_row_pinned (config_of self.old) (memory_of self.old)) (marks_of self.old) (words_of self.old) (words_of self.new) (places_of self.new) }
    {
        let shut = self.pinned_set();
        pack_words(
            self.config,
            shut,
            &self.marks,
            &mut self.words,
            &mut self.places,
        );
    }

    /// What a word becomes that led to an object that was packed: the address of the object's new place, and null, 0, for
    /// null.
    pub fn renewed(&self, word: u64) -> u64
        requires { IsInTable (config_of self.now).region_words (places_of self.now) word }
        ensures { result ≡ from_table (config_of self.now).region_words (places_of self.now) word }
    {
        renew(self.config.region_words() as u64, &self.places, word)
    }
}
