//! Collections of hand-made heaps, in which each word of a table has its name.

ghost use Rattle.std.specs.Prelude.{◌≡◌, ◌<◌};
ghost use Rattle.heap_words.specs.Words.{table_words};
ghost use Rattle.image_graph.specs.State.{config_of};

use cset_choice::{begin_evac, choose};
use full_cycle::full;
use heap_words::{Config, WordName};
use image_graph::{Image, stands};
use mark_core::{final_mark, init_mark};
use std::process::Abort;
use std::test::Fail;
use update_refs::final_update;

// A word by its name, and what it holds.
pub(crate) type Row = (WordName, u64);

// An object by its address: its shape, its name, and the word behind it.
type Laid = (u32, u64, u64, u64);

// Where a word stands.
pub(crate) fn place(rt: &impl Abort, config: Config, name: WordName) -> usize
    ensures { result < table_words config }
{
    for at in 0..config.table_words() {
        if config.name_of(at) == name {
            return at;
        }
    }
    panic!(rt; "the table has no such word")
}

fn put(rt: &impl Abort, image: &mut Image, words: &[Row])
    ensures { config_of image.new ≡ config_of image.old }
{
    let config = image.config();
    for (name, value) in words {
        image.set_word(place(rt, config, *name), *value);
    }
}

fn compare(rt: &impl Abort, image: &Image, words: &[Row]) {
    let config = image.config();
    for (name, value) in words {
        let found = image.word(place(rt, config, *name));
        assert_eq!(rt; found, *value, "{name:?}");
    }
}

// Lays objects out. What their words do not say is 0.
fn lay(rt: &impl Abort, image: &mut Image, objects: &[Laid])
    ensures { config_of image.new ≡ config_of image.old }
{
    for (base, shape, name, first) in objects {
        let address = u64::from(*base);
        put(
            rt,
            image,
            &[
                (WordName::Heap { address }, 1),
                (
                    WordName::Heap {
                        address: address + 1,
                    },
                    *shape,
                ),
                (
                    WordName::Heap {
                        address: address + 2,
                    },
                    *name,
                ),
                (
                    WordName::Heap {
                        address: address + 3,
                    },
                    *first,
                ),
            ],
        );
    }
}

// What a name word has more for each thread.
const THREAD: u64 = 4294967296;

// Each of five regions has an object that lives, and one that does not. In region 4 none lives, and in region 3 the first one names
// the second. In regions 0 to 2 live 19, 12 and 5 words, and 19 do not. Once region 4 is freed 29 words may be copied: those of
// regions 2 and 1, and of region 0 not besides. Their two objects go to region 0, which has 26 words of room.
const LIVING: [Laid; 9] = [
    (64, 65552, THREAD + 1, 0),
    (83, 65552, THREAD + 2, 0),
    (128, 65545, THREAD + 3, 0),
    (140, 65552, THREAD + 4, 0),
    (192, 65538, THREAD + 5, 0),
    (197, 65552, THREAD + 6, 0),
    (256, 65792, THREAD + 7, 260),
    (260, 65800, THREAD + 8, 64),
    (320, 65792, THREAD + 9, 64),
];

const LIVING_AT: [u64; 9] = [64, 83, 128, 140, 192, 197, 256, 260, 320];

const NAMED: [Row; 13] = [
    (WordName::Heap { address: 139 }, 77),
    (WordName::Top { region: 0 }, 38),
    (WordName::Top { region: 1 }, 31),
    (WordName::Top { region: 2 }, 24),
    (WordName::Top { region: 3 }, 16),
    (WordName::Top { region: 4 }, 4),
    (
        WordName::Root {
            mutator: 0,
            index: 0,
        },
        64,
    ),
    (
        WordName::Root {
            mutator: 0,
            index: 1,
        },
        128,
    ),
    (
        WordName::Root {
            mutator: 0,
            index: 15,
        },
        192,
    ),
    (
        WordName::Root {
            mutator: 0,
            index: 3,
        },
        256,
    ),
    (WordName::Black { word: 3 }, 1),
    (WordName::Count { mutator: 0 }, 2),
    (WordName::Ask, 1),
];

const MARKING: [Row; 14] = [
    (WordName::Phase, 1),
    (WordName::Ask, 0),
    (WordName::Count { mutator: 0 }, 0),
    (WordName::Grey { word: 0 }, 1),
    (WordName::Grey { word: 1 }, 1),
    (WordName::Grey { word: 2 }, 1),
    (WordName::Grey { word: 3 }, 1),
    (WordName::Grey { word: 4 }, 0),
    (WordName::Black { word: 2 }, 0),
    (WordName::Black { word: 3 }, 0),
    (WordName::Tams { region: 0 }, 38),
    (WordName::Tams { region: 3 }, 16),
    (WordName::Tams { region: 4 }, 4),
    (WordName::Free, 0),
];

const MARKED: [Row; 11] = [
    (WordName::Grey { word: 3 }, 17),
    (WordName::Black { word: 0 }, 1),
    (WordName::Black { word: 1 }, 1),
    (WordName::Black { word: 2 }, 1),
    (WordName::Black { word: 3 }, 17),
    (WordName::Black { word: 4 }, 0),
    (WordName::Free, 16),
    (WordName::Top { region: 3 }, 16),
    (WordName::Top { region: 4 }, 0),
    (WordName::Tams { region: 3 }, 16),
    (WordName::Tams { region: 4 }, 0),
];

const EVACUATING: [Row; 14] = [
    (WordName::Phase, 2),
    (WordName::Cset, 6),
    (WordName::Free, 16),
    (WordName::Top { region: 0 }, 55),
    (
        WordName::Root {
            mutator: 0,
            index: 0,
        },
        64,
    ),
    (
        WordName::Root {
            mutator: 0,
            index: 1,
        },
        102,
    ),
    (
        WordName::Root {
            mutator: 0,
            index: 15,
        },
        114,
    ),
    (
        WordName::Root {
            mutator: 0,
            index: 3,
        },
        256,
    ),
    (WordName::Heap { address: 128 }, 411),
    (WordName::Heap { address: 192 }, 459),
    (WordName::Heap { address: 102 }, 1),
    (WordName::Heap { address: 104 }, THREAD + 3),
    (WordName::Heap { address: 113 }, 77),
    (WordName::Heap { address: 114 }, 1),
];

#[test]
fn marks_what_lives_and_evacuates_what_costs_least(rt: HostRuntime) -> Result<(), Fail> {
    let mut image = Image::open(rt.alloc(), Config::new(5, 64, 1, 0, 0)?)?;
    lay(&rt, &mut image, &LIVING);
    put(&rt, &mut image, &NAMED);
    assert!(rt; stands(&image, &LIVING_AT));
    assert_eq!(rt; image.word(image.config().cset_at()), 0);
    init_mark(&mut image);
    compare(&rt, &image, &MARKING);
    final_mark(&mut image);
    compare(&rt, &image, &MARKED);
    let set = choose(&image);
    begin_evac(&mut image, set);
    compare(&rt, &image, &EVACUATING);
    Ok(())
}

// Of four regions the second is evacuated and the last is free. Where updating ends the second is free, and nothing of it is in use.
const UPDATING: [Row; 11] = [
    (WordName::Top { region: 0 }, 20),
    (WordName::Top { region: 1 }, 30),
    (WordName::Top { region: 2 }, 40),
    (WordName::Tams { region: 1 }, 30),
    (WordName::Limit { region: 0 }, 20),
    (WordName::Limit { region: 2 }, 40),
    (WordName::Free, 8),
    (WordName::Cset, 2),
    (WordName::Claim, 4),
    (WordName::Phase, 3),
    (WordName::Heap { address: 128 }, 1),
];

const UPDATED: [Row; 10] = [
    (WordName::Phase, 0),
    (WordName::Cset, 0),
    (WordName::Claim, 0),
    (WordName::Free, 10),
    (WordName::Top { region: 0 }, 20),
    (WordName::Top { region: 1 }, 0),
    (WordName::Top { region: 2 }, 40),
    (WordName::Tams { region: 1 }, 0),
    (WordName::Limit { region: 0 }, 20),
    (WordName::Heap { address: 128 }, 1),
];

#[test]
fn frees_the_set(rt: HostRuntime) -> Result<(), Fail> {
    let mut image = Image::open(rt.alloc(), Config::new(4, 64, 1, 0, 0)?)?;
    put(&rt, &mut image, &UPDATING);
    final_update(&mut image);
    compare(&rt, &image, &UPDATED);
    Ok(())
}

// Each of four regions has an object of 29 words that nothing names, and behind it one of 35, up to its last word. None of those
// fits behind another: each goes to the base of its region, and leaves a gap behind it. The gaps serve a request for 29 words, and
// none for 30. Its thread takes what was made; a second collection keeps that, and nothing moves.
const GAPPED: [Laid; 8] = [
    (64, 68877, THREAD + 1, 0),
    (93, 69648, THREAD + 2, 0),
    (128, 68877, 3 * THREAD + 3, 93),
    (157, 69648, 3 * THREAD + 4, 93),
    (192, 68877, 3 * THREAD + 5, 157),
    (221, 69648, 3 * THREAD + 6, 157),
    (256, 68877, 3 * THREAD + 7, 221),
    (285, 69648, 3 * THREAD + 8, 221),
];

const GAPPED_AT: [u64; 8] = [64, 93, 128, 157, 192, 221, 256, 285];

const ASKED: [Row; 9] = [
    (WordName::Top { region: 0 }, 64),
    (WordName::Top { region: 1 }, 64),
    (WordName::Top { region: 2 }, 64),
    (WordName::Top { region: 3 }, 64),
    (WordName::Heap { address: 319 }, 7),
    (
        WordName::Root {
            mutator: 1,
            index: 15,
        },
        285,
    ),
    (WordName::Wait { mutator: 0 }, 9 * THREAD + 68878),
    (WordName::Wait { mutator: 1 }, THREAD + 68877),
    (WordName::Grey { word: 0 }, 7),
];

const PACKED: [Row; 13] = [
    (
        WordName::Root {
            mutator: 1,
            index: 15,
        },
        256,
    ),
    (WordName::Heap { address: 67 }, 0),
    (WordName::Heap { address: 258 }, 3 * THREAD + 8),
    (WordName::Heap { address: 259 }, 192),
    (WordName::Heap { address: 290 }, 7),
    (WordName::Answer { mutator: 0 }, 1),
    (WordName::Heap { address: 101 }, 2 * THREAD + 1),
    (WordName::Wait { mutator: 0 }, 0),
    (WordName::Wait { mutator: 1 }, 0),
    (WordName::Grey { word: 0 }, 0),
    (WordName::Top { region: 0 }, 64),
    (WordName::Top { region: 3 }, 35),
    (WordName::Free, 0),
];

const GIVEN: [Row; 1] = [(WordName::Answer { mutator: 1 }, 99)];

const TAKEN: [Row; 2] = [
    (WordName::Answer { mutator: 1 }, 0),
    (
        WordName::Root {
            mutator: 1,
            index: 14,
        },
        99,
    ),
];

const PACKED_AT: [u64; 5] = [64, 99, 128, 192, 256];

#[test]
fn leaves_gaps_behind_objects_of_35_words(rt: HostRuntime) -> Result<(), Fail> {
    let mut image = Image::open(rt.alloc(), Config::new(4, 64, 3, 0, 0)?)?;
    lay(&rt, &mut image, &GAPPED);
    put(&rt, &mut image, &ASKED);
    assert!(rt; stands(&image, &GAPPED_AT));
    full(&mut image);
    compare(&rt, &image, &PACKED);
    compare(&rt, &image, &GIVEN);
    put(&rt, &mut image, &TAKEN);
    assert!(rt; stands(&image, &PACKED_AT));
    full(&mut image);
    compare(&rt, &image, &PACKED);
    compare(&rt, &image, &TAKEN);
    Ok(())
}
