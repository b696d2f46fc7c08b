use heap_words::{
    Access, BadConfig, Config, Place, WordName, buffer, count_of, end_of, filler, filler_words,
    forwarded, forwardee, header_to, name_word, next_of, nums_of, refs_of, request_count,
    request_shape, request_word, shape_of, thread_of, words_of,
};
use std::process::Abort;
use std::test::Fail;

// The numbers of configurations, with the first that is outside its range.
const CONFIGS: [([usize; 5], Option<BadConfig>); 7] = [
    ([3, 63, 0, 4, 3], Some(BadConfig::Regions)),
    ([4, 63, 0, 0, 0], Some(BadConfig::RegionWords)),
    ([64, 1025, 8, 3, 63], Some(BadConfig::RegionWords)),
    ([64, 1024, 9, 4, 64], Some(BadConfig::Mutators)),
    ([64, 1024, 8, 4, 64], Some(BadConfig::Helpers)),
    ([4, 64, 1, 0, 4], Some(BadConfig::Reserve)),
    ([64, 1024, 8, 3, 63], None),
];

// The same for a wide heap.
const WIDE: [([usize; 5], Option<BadConfig>); 5] = [
    ([65, 33_554_433, 0, 4, 65], Some(BadConfig::Regions)),
    ([4, 63, 1, 0, 0], Some(BadConfig::RegionWords)),
    ([64, 33_554_433, 8, 3, 63], Some(BadConfig::RegionWords)),
    ([64, 33_554_432, 9, 3, 63], Some(BadConfig::Mutators)),
    ([64, 33_554_432, 8, 3, 63], None),
];

#[test]
fn ranges(rt: HostRuntime) {
    for ([regions, region_words, mutators, helpers, reserve], fault) in &CONFIGS {
        let config = Config::new(*regions, *region_words, *mutators, *helpers, *reserve);
        assert!(rt; config.err() == *fault);
    }
    for ([regions, region_words, mutators, helpers, reserve], fault) in &WIDE {
        let config = Config::wide(*regions, *region_words, *mutators, *helpers, *reserve);
        assert!(rt; config.err() == *fault);
    }
}

// The words of four regions of 64 words and one mutator, by where they stand: every row of words by hand.
const SMALLEST: [(usize, WordName); 31] = [
    (0, WordName::Pause),
    (1, WordName::Left),
    (2, WordName::End),
    (3, WordName::State { seat: 0 }),
    (4, WordName::Phase),
    (5, WordName::Cset),
    (6, WordName::Free),
    (7, WordName::Evac),
    (8, WordName::Claim),
    (9, WordName::Ask),
    (10, WordName::Top { region: 0 }),
    (14, WordName::Tams { region: 0 }),
    (21, WordName::Limit { region: 3 }),
    (23, WordName::Current { seat: 1 }),
    (
        24,
        WordName::Root {
            mutator: 0,
            index: 0,
        },
    ),
    (
        27,
        WordName::Root {
            mutator: 0,
            index: 3,
        },
    ),
    (
        39,
        WordName::Root {
            mutator: 0,
            index: 15,
        },
    ),
    (40, WordName::Count { mutator: 0 }),
    (
        48,
        WordName::Buffer {
            mutator: 0,
            entry: 7,
        },
    ),
    (49, WordName::Wait { mutator: 0 }),
    (50, WordName::Answer { mutator: 0 }),
    (51, WordName::Grey { word: 0 }),
    (54, WordName::Grey { word: 3 }),
    (55, WordName::Black { word: 0 }),
    (58, WordName::Black { word: 3 }),
    (59, WordName::Heap { address: 64 }),
    (60, WordName::Heap { address: 65 }),
    (314, WordName::Heap { address: 319 }),
    (315, WordName::Share),
    (
        316,
        WordName::Pin {
            mutator: 0,
            slot: 0,
        },
    ),
    (
        319,
        WordName::Pin {
            mutator: 0,
            slot: 3,
        },
    ),
];

// Five regions of 65 words, two mutators and a helper: the words that stand by more than one number.
const WITH_A_HELPER: [(usize, WordName); 15] = [
    (11, WordName::Ask),
    (30, WordName::Current { seat: 3 }),
    (
        50,
        WordName::Root {
            mutator: 1,
            index: 3,
        },
    ),
    (64, WordName::Count { mutator: 1 }),
    (
        75,
        WordName::Buffer {
            mutator: 1,
            entry: 2,
        },
    ),
    (82, WordName::Wait { mutator: 1 }),
    (84, WordName::Answer { mutator: 1 }),
    (85, WordName::Grey { word: 0 }),
    (90, WordName::Grey { word: 5 }),
    (96, WordName::Black { word: 5 }),
    (97, WordName::Heap { address: 65 }),
    (421, WordName::Heap { address: 389 }),
    (422, WordName::Share),
    (
        425,
        WordName::Pin {
            mutator: 0,
            slot: 2,
        },
    ),
    (
        428,
        WordName::Pin {
            mutator: 1,
            slot: 1,
        },
    ),
];

// The words stand in the table of a configuration where the rows say, and it has so many.
fn stand(rt: &impl Abort, config: Config, rows: &[(usize, WordName)], words: usize) {
    assert!(rt; config.table_words() == words);
    for (at, name) in rows {
        assert!(rt; *at < config.table_words() && config.name_of(*at) == *name);
    }
}

#[test]
fn places_of_words(rt: HostRuntime) -> Result<(), Fail> {
    stand(&rt, Config::new(4, 64, 1, 0, 0)?, &SMALLEST, 320);
    stand(&rt, Config::new(5, 65, 2, 1, 1)?, &WITH_A_HELPER, 431);
    Ok(())
}

#[test]
fn encodings(rt: HostRuntime) {
    let rows = [
        (header_to(256), 1027),
        (u64::from(forwarded(1027)), 1),
        (u64::from(forwarded(1)), 0),
        (u64::from(forwarded(18)), 0),
        (forwardee(1027), 256),
        (shape_of(16, 0), 69632),
        (refs_of(69632), 16),
        (nums_of(69632), 0),
        (words_of(69632), 19),
        (filler(29), 118),
        (buffer(227, 256), 1099511628003),
        (next_of(1099511628003), 227),
        (end_of(1099511628003), 256),
        (words_of(u64::MAX), 513),
        (name_word(1, 2), 4294967298),
        (u64::from(thread_of(4294967298)), 1),
        (u64::from(count_of(4294967298)), 2),
        (request_word(3, 65793), 12884967681),
        (u64::from(request_count(12884967681)), 3),
        (request_shape(12884967681), 65793),
    ];
    agree(&rt, &rows);
    assert!(rt; filler_words(118) == Some(29));
    for header in &[1, 1027] {
        assert!(rt; filler_words(*header).is_none());
    }
}

// The first number of each row is the second.
pub fn agree(rt: &impl Abort, rows: &[(u64, u64)]) {
    for (got, wanted) in rows {
        assert!(rt; got == wanted);
    }
}

// Accesses, with what each one finds and makes of it.
const ACCESSES: [(Access, u64, u64); 9] = [
    (Access::Load { at: 3 }, 7, 7),
    (Access::Store { at: 3, value: 5 }, 7, 5),
    (Access::Swap { at: 3, value: 5 }, 7, 5),
    (Access::Add { at: 3, value: 5 }, u64::MAX, 4),
    (Access::Sub { at: 3, value: 5 }, 4, u64::MAX),
    (Access::And { at: 3, value: 6 }, 3, 2),
    (Access::Or { at: 3, value: 6 }, 3, 7),
    (
        Access::Exchange {
            at: 3,
            expect: 1,
            value: 5,
        },
        1,
        5,
    ),
    (
        Access::Exchange {
            at: 3,
            expect: 1,
            value: 5,
        },
        2,
        2,
    ),
];

#[test]
fn accesses(rt: HostRuntime) {
    for (access, found, made) in &ACCESSES {
        assert!(rt; access.at() == 3 && access.made(*found) == *made);
    }
}

// All codes, each once.
const CODES: [[u8; 2]; 87] = [
    *b"E1", *b"E2", *b"E3", *b"E4", *b"PH", *b"CS", *b"LV", *b"ML", *b"H0", *b"RL", *b"SH", *b"FL",
    *b"FS", *b"FX", *b"CX", *b"NL", *b"NS", *b"NM", *b"RS", *b"AK", *b"BC", *b"BL", *b"GO", *b"BZ",
    *b"BE", *b"BN", *b"TC", *b"TR", *b"TT", *b"TX", *b"TF", *b"TG", *b"TV", *b"TQ", *b"TZ", *b"TS",
    *b"IW", *b"WS", *b"WK", *b"WO", *b"WP", *b"WL", *b"WC", *b"HL", *b"XL", *b"XC", *b"SL", *b"CL",
    *b"CP", *b"HI", *b"HX", *b"GB", *b"XS", *b"OL", *b"OX", *b"XW", *b"HR", *b"MC", *b"EC", *b"UC",
    *b"KX", *b"MG", *b"MB", *b"MO", *b"MS", *b"MF", *b"ET", *b"EF", *b"ES", *b"EB", *b"UL", *b"UT",
    *b"UG", *b"US", *b"UB", *b"UF", *b"UH", *b"UX", *b"I0", *b"IE", *b"I1", *b"I2", *b"P1", *b"P2",
    *b"PL", *b"PS", *b"P3",
];

// The codes are known, and with another case or in another order they are none.
#[test]
fn codes_of_places(rt: HostRuntime) {
    for code in &CODES {
        assert!(rt; Place::of(*code).is_some());
    }
    for (code, place) in &[(*b"E1", Some(Place::E1)), (*b"e1", None), (*b"1E", None)] {
        assert!(rt; Place::of(*code) == *place);
    }
}
