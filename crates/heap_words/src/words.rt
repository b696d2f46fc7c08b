ghost use Rattle.std.specs.Prelude.{◌≡◌, ◌≤◌, length};
ghost use Rattle.heap_words.specs.Words.{Pause, Left, End, State, Phase, Cset, Free, Evac, Claim, Ask, Top, Tams, Limit, Current, Root, Count, Buffer, Wait, Answer, Grey, Black, Heap, Share, Pin, IsWord, word_at, table_words, heap_size, bit_words, image_start, roots_start, marks_start, heap_start, pins_start, heap_in, roots_in, pins_in, AreApart, IsStoreOfOne};

use super::config::Config;

// Where the rows of words begin.
impl Config {
    /// The words of the heap: those of all regions.
    pub fn heap_size(&self) -> usize
        ensures value { result ≡ heap_size self.now }
        ensures bound { result ≤ 2147483648 }
    {
        self.regions * self.region_words
    }

    pub(crate) fn bit_words(&self) -> usize
        ensures value { result ≡ bit_words self.now }
        ensures bound { result ≤ 33554432 }
    {
        (self.heap_size() + 63) / 64
    }

    /// Where the words of the image begin in the table: those that a pause reads and may change. They end it.
    pub fn image_start(&self) -> usize
        ensures value { result ≡ image_start self.now }
        ensures bound { result ≤ 14 }
    {
        3 + self.mutators + self.helpers
    }

    /// Where the words of the mutators begin in the table, their roots first.
    pub fn roots_start(&self) -> usize
        ensures value { result ≡ roots_start self.now }
        ensures bound { result ≤ 224 }
    {
        self.image_start() + 7 + 3 * self.regions + self.mutators + self.helpers
    }

    pub(crate) fn marks_start(&self) -> usize
        ensures value { result ≡ marks_start self.now }
        ensures bound { result ≤ 440 }
    {
        self.roots_start() + 27 * self.mutators
    }

    /// Where the words of the heap begin in the table. Behind them stand the word of the shared region and the pin slots.
    pub fn heap_start(&self) -> usize
        ensures value { result ≡ heap_start self.now }
        ensures bound { result ≤ 67109304 }
    {
        self.marks_start() + 2 * self.bit_words()
    }

    /// Where the pin slots begin in the table. They end it.
    pub fn pins_start(&self) -> usize
        ensures value { result ≡ pins_start self.now }
        ensures bound { result ≤ 2214592953 }
    {
        self.heap_start() + self.heap_size() + 1
    }
}

// The words, in the order in which they stand.
impl Config {
    /// The word that is 1 while a pause is wanted or runs, else 0.
    pub fn pause_at(&self) -> usize
        ensures { result ≡ word_at self.now Pause }
    {
        0
    }

    /// The word that counts the mutators that have not ended.
    pub fn left_at(&self) -> usize
        ensures { result ≡ word_at self.now Left }
    {
        1
    }

    /// The word that is 1 once the control has ended.
    pub fn end_at(&self) -> usize
        ensures { result ≡ word_at self.now End }
    {
        2
    }

    /// The word that is 1 while the mutator or helper of this seat is inside the heap, else 0.
    pub fn state_at(&self, seat: usize) -> usize
        requires { IsWord self.now (State seat) }
        ensures { result ≡ word_at self.now (State seat) }
    {
        3 + seat
    }

    /// The word of the phase: 0 idle, 1 marking, 2 evacuating, 3 updating references. The image begins here.
    pub fn phase_at(&self) -> usize
        ensures { result ≡ word_at self.now Phase }
    {
        self.image_start()
    }

    /// The word whose bits are the regions of the collection set.
    pub fn cset_at(&self) -> usize
        ensures { result ≡ word_at self.now Cset }
    {
        self.image_start() + 1
    }

    /// The word whose bits are the free regions.
    pub fn free_at(&self) -> usize
        ensures { result ≡ word_at self.now Free }
    {
        self.image_start() + 2
    }

    /// The word that counts the copiers, with bit 63 once there was no room for a copy.
    pub fn evac_at(&self) -> usize
        ensures { result ≡ word_at self.now Evac }
    {
        self.image_start() + 3
    }

    /// The word that counts the units of work that were claimed.
    pub fn claim_at(&self) -> usize
        ensures { result ≡ word_at self.now Claim }
    {
        self.image_start() + 4
    }

    /// The word of what is asked for: bit 0 a cycle, bit 1 room for an object.
    pub fn ask_at(&self) -> usize
        ensures { result ≡ word_at self.now Ask }
    {
        self.image_start() + 5
    }

    /// The word that counts the used words of this region.
    pub fn top_at(&self, region: usize) -> usize
        requires { IsWord self.now (Top region) }
        ensures { result ≡ word_at self.now (Top region) }
    {
        self.image_start() + 6 + region
    }

    /// The word of this region's top when marking began.
    pub fn tams_at(&self, region: usize) -> usize
        requires { IsWord self.now (Tams region) }
        ensures { result ≡ word_at self.now (Tams region) }
    {
        self.image_start() + 6 + self.regions + region
    }

    /// The word of this region's top when updating began.
    pub fn limit_at(&self, region: usize) -> usize
        requires { IsWord self.now (Limit region) }
        ensures { result ≡ word_at self.now (Limit region) }
    {
        self.image_start() + 6 + 2 * self.regions + region
    }

    /// The word of this seat's buffer, whose free words the seat alone takes: 0 for none, else as `buffer` writes it.
    pub fn cur_at(&self, seat: usize) -> usize
        requires { IsWord self.now (Current seat) }
        ensures { result ≡ word_at self.now (Current seat) }
    {
        self.image_start() + 6 + 3 * self.regions + seat
    }

    /// The word of this root of a mutator: 0, or the address of an object.
    pub fn root_at(&self, mutator: usize, index: usize) -> usize
        requires { IsWord self.now (Root mutator index) }
        ensures { result ≡ word_at self.now (Root mutator index) }
    {
        self.roots_start() + 16 * mutator + index
    }

    /// The word that counts the entries of a mutator's SATB buffer (snapshot at the beginning).
    pub fn count_at(&self, mutator: usize) -> usize
        requires { IsWord self.now (Count mutator) }
        ensures { result ≡ word_at self.now (Count mutator) }
    {
        self.roots_start() + 16 * self.mutators + mutator
    }

    /// The word of this entry of a mutator's SATB buffer: the address of an object.
    pub fn buffer_at(&self, mutator: usize, entry: usize) -> usize
        requires { IsWord self.now (Buffer mutator entry) }
        ensures { result ≡ word_at self.now (Buffer mutator entry) }
    {
        self.roots_start() + 17 * self.mutators + 8 * mutator + entry
    }

    /// The word of a mutator's waiting request, or 0.
    pub fn wait_at(&self, mutator: usize) -> usize
        requires { IsWord self.now (Wait mutator) }
        ensures { result ≡ word_at self.now (Wait mutator) }
    {
        self.roots_start() + 25 * self.mutators + mutator
    }

    /// The word of the answer to a mutator's request: 0 for none, 1 for full, else an address.
    pub fn answer_at(&self, mutator: usize) -> usize
        requires { IsWord self.now (Answer mutator) }
        ensures { result ≡ word_at self.now (Answer mutator) }
    {
        self.roots_start() + 26 * self.mutators + mutator
    }

    /// The `word`th word of grey bits: bit j is set where the object at `64 * word + j`, counted from the heap's first word, is grey.
    pub fn grey_at(&self, word: usize) -> usize
        requires { IsWord self.now (Grey word) }
        ensures { result ≡ word_at self.now (Grey word) }
    {
        self.marks_start() + word
    }

    /// The `word`th word of black bits, laid out as the grey ones.
    pub fn black_at(&self, word: usize) -> usize
        requires { IsWord self.now (Black word) }
        ensures { result ≡ word_at self.now (Black word) }
    {
        self.marks_start() + self.bit_words() + word
    }

    /// The heap's word of this address. The first address is the number of words of a region.
    pub fn heap_at(&self, address: u64) -> usize
        requires { IsWord self.now (Heap address) }
        ensures { result ≡ word_at self.now (Heap address) }
    {
        self.heap_start() + (address as usize - self.region_words)
    }

    /// The word of the region that all seats carve buffers out of: 0 for none, else one more than its number. It stands behind the heap.
    pub fn share_at(&self) -> usize
        ensures { result ≡ word_at self.now Share }
    {
        self.heap_start() + self.heap_size()
    }

    /// The word of this pin slot of a mutator: 0, or the address of the object that it holds.
    pub fn pin_at(&self, mutator: usize, slot: usize) -> usize
        requires { IsWord self.now (Pin mutator slot) }
        ensures { result ≡ word_at self.now (Pin mutator slot) }
    {
        self.pins_start() + 4 * mutator + slot
    }

    /// The words of the table.
    pub fn table_words(&self) -> usize
        ensures { result ≡ table_words self.now }
    {
        self.pins_start() + 4 * self.mutators
    }
}

/// The words of the heap in a table of this configuration, from the first address on.
pub fn heap_in(config: Config, words: &[u64]) -> &[u64]
    requires { length words.now ≡ table_words config }
    ensures { result.now ≡ heap_in config words.now }
{
    &words[config.heap_start()..config.heap_start() + config.heap_size()]
}

/// The words of the roots in a table of this configuration, 16 for each mutator.
pub fn roots_in(config: Config, words: &[u64]) -> &[u64]
    requires { length words.now ≡ table_words config }
    ensures { result.now ≡ roots_in config words.now }
{
    let start = config.roots_start();
    &words[start..start + 16 * config.mutators()]
}

/// The words of the pin slots in a table of this configuration, 4 for each mutator.
pub fn pins_in(config: Config, words: &[u64]) -> &[u64]
    requires { length words.now ≡ table_words config }
    ensures { result.now ≡ pins_in config words.now }
{
    &words[config.pins_start()..config.table_words()]
}

/// A law: each word stands inside the table and apart from every other, and a store changes one.
pub fn words_apart()
    ensures apart { AreApart }
    ensures stores { IsStoreOfOne }
{}
