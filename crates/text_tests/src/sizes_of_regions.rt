use super::words_of_tables::agree;
use heap_words::{Config, shape_of};
use regions::{all_but, base, first_with_room, is_in, lowest, next_object, region_of, room, size};
use std::test::Fail;

// Four regions of 64 words: their addresses are 64 to 319.
#[test]
fn smallest_heap(rt: HostRuntime) -> Result<(), Fail> {
    let config = Config::new(4, 64, 1, 0, 0)?;
    let rows = [
        (region_of(config, 64) as u64, 0),
        (region_of(config, 127) as u64, 0),
        (region_of(config, 128) as u64, 1),
        (region_of(config, 319) as u64, 3),
        (base(config, 0), 64),
        (base(config, 3), 256),
        (room(config, 0), 64),
        (room(config, 19), 45),
        (next_object(64, 1, shape_of(16, 0)), 83),
        (next_object(83, 1, shape_of(0, 0)), 86),
        (next_object(83, 18, shape_of(0, 0)), 87),
        (u64::from(size(0)), 0),
        (u64::from(size(13)), 3),
        (u64::from(size(u64::MAX)), 64),
        (u64::from(is_in(12, 2)), 1),
        (u64::from(is_in(12, 0)), 0),
        (all_but(0), u64::MAX - 1),
        (all_but(63), u64::MAX >> 1),
    ];
    agree(&rt, &rows);
    Ok(())
}

#[test]
fn first_of_a_set(rt: HostRuntime) {
    for (set, first) in &[(0, None), (12, Some(2)), (1 << 63, Some(63))] {
        assert!(rt; lowest(*set) == *first);
    }
}

#[test]
fn first_with_room_outside_a_set(rt: HostRuntime) -> Result<(), Fail> {
    let config = Config::new(4, 64, 1, 0, 0)?;
    let tops = [19, 64, 60, 0];
    let rows = &[
        (0, 45, Some(0)),
        (0, 46, Some(3)),
        (1, 4, Some(2)),
        (9, 4, Some(2)),
        (9, 5, None),
        (0, 65, None),
    ];
    for (not_in, words, first) in rows {
        assert!(rt; first_with_room(config, &tops, *not_in, *words) == *first);
    }
    Ok(())
}
