ghost use Rattle.std.specs.Prelude.{◌≡◌, ◌≤◌, IfOk};
ghost use Rattle.std.specs.Result.{result_err};
ghost use Rattle.heap_words.specs.Ranges.{IsInRange, seat_count};
ghost use Rattle.heap_words.specs.Faults.{fault_of, fault_within, wide_fault_of};

/// The number of a configuration that is outside its range.
#[derive(Clone, Copy, Debug, PartialEq, Eq)]
pub enum BadConfig {
    /// The regions are not 4 to 64.
    Regions,
    /// The words of a region are not 64 to 1,024, or for `Config::wide` not 64 to 2^25.
    RegionWords,
    /// The mutators are not 1 to 8.
    Mutators,
    /// The helpers are not 0 to 3.
    Helpers,
    /// The reserved regions are not fewer than the regions.
    Reserve,
}

/// The sizes of a heap and of the set of machines that work on it. Every value is in range.
#[derive(Clone, Copy)]
pub struct Config {
    /// Regions of the heap.
    pub regions: usize,
    /// Words of each region.
    pub region_words: usize,
    /// Mutator threads.
    pub mutators: usize,
    /// Threads that help the control with a cycle.
    pub helpers: usize,
    /// Free regions that a new object leaves to evacuation.
    pub reserve: usize,
    // Whoever has a configuration can rely on its ranges, and nobody can make another.
    ghost in_range: { IsInRange regions region_words mutators helpers reserve },
}

impl Config {
    /// The configuration of these numbers, or the first of them that is outside its range. A region has 64 to 1,024 words, as in a trace.
    pub fn new(
        regions: usize,
        region_words: usize,
        mutators: usize,
        helpers: usize,
        reserve: usize,
    ) -> Result<Config, BadConfig>
        ensures regions { IfOk result (λ config. config.regions ≡ regions) }
        ensures region_words { IfOk result (λ config. config.region_words ≡ region_words) }
        ensures mutators { IfOk result (λ config. config.mutators ≡ mutators) }
        ensures helpers { IfOk result (λ config. config.helpers ≡ helpers) }
        ensures reserve { IfOk result (λ config. config.reserve ≡ reserve) }
        ensures narrow { IfOk result (λ config. config.region_words ≤ 1024) }
        ensures fault { result_err result ≡ fault_of regions region_words mutators helpers reserve }
    {
        Config::within(1024, regions, region_words, mutators, helpers, reserve)
    }

    /// The configuration of these numbers, or the first of them that is outside its range. A region has 64 to 2^25 words: up to
    /// 16 GiB in 64 regions. A trace has none of more than 1,024.
    pub fn wide(
        regions: usize,
        region_words: usize,
        mutators: usize,
        helpers: usize,
        reserve: usize,
    ) -> Result<Config, BadConfig>
        ensures regions { IfOk result (λ config. config.regions ≡ regions) }
        ensures region_words { IfOk result (λ config. config.region_words ≡ region_words) }
        ensures mutators { IfOk result (λ config. config.mutators ≡ mutators) }
        ensures helpers { IfOk result (λ config. config.helpers ≡ helpers) }
        ensures reserve { IfOk result (λ config. config.reserve ≡ reserve) }
        ensures fault { result_err result ≡ wide_fault_of regions region_words mutators helpers reserve }
    {
        Config::within(
            33_554_432,
            regions,
            region_words,
            mutators,
            helpers,
            reserve,
        )
    }

    // The same, where a region has at most so many words.
    fn within(
        most_words: usize,
        regions: usize,
        region_words: usize,
        mutators: usize,
        helpers: usize,
        reserve: usize,
    ) -> Result<Config, BadConfig>
        requires { most_words ≤ 33554432 }
        ensures regions { IfOk result (λ config. config.regions ≡ regions) }
        ensures region_words { IfOk result (λ config. config.region_words ≡ region_words) }
        ensures mutators { IfOk result (λ config. config.mutators ≡ mutators) }
        ensures helpers { IfOk result (λ config. config.helpers ≡ helpers) }
        ensures reserve { IfOk result (λ config. config.reserve ≡ reserve) }
        ensures most { IfOk result (λ config. config.region_words ≤ most_words) }
        ensures fault { result_err result ≡ fault_within most_words regions region_words mutators helpers reserve }
    {
        if regions < 4 || regions > 64 {
            return Err(BadConfig::Regions);
        }
        if region_words < 64 || region_words > most_words {
            return Err(BadConfig::RegionWords);
        }
        if mutators < 1 || mutators > 8 {
            return Err(BadConfig::Mutators);
        }
        if helpers > 3 {
            return Err(BadConfig::Helpers);
        }
        if reserve >= regions {
            return Err(BadConfig::Reserve);
        }
        Ok(Config {
            regions,
            region_words,
            mutators,
            helpers,
            reserve,
        })
    }

    /// Regions of the heap, 4 to 64.
    pub fn regions(&self) -> usize
        ensures { result ≡ self.now.regions }
    {
        self.regions
    }

    /// Words of each region, 64 to 2^25.
    pub fn region_words(&self) -> usize
        ensures { result ≡ self.now.region_words }
    {
        self.region_words
    }

    /// Mutator threads, 1 to 8.
    pub fn mutators(&self) -> usize
        ensures { result ≡ self.now.mutators }
    {
        self.mutators
    }

    /// Helper threads, at most 3.
    pub fn helpers(&self) -> usize
        ensures { result ≡ self.now.helpers }
    {
        self.helpers
    }

    /// Free regions that a new object leaves to evacuation, fewer than the regions.
    pub fn reserve(&self) -> usize
        ensures { result ≡ self.now.reserve }
    {
        self.reserve
    }

    /// Seats of machines: the mutators, then the helpers, then the control.
    pub fn seats(&self) -> usize
        ensures { result ≡ seat_count self.now.mutators self.now.helpers }
    {
        self.mutators + self.helpers + 1
    }
}
