// Each part of a call that is a machine of its own, once. In the smallest heap, of 4 regions of 64 words, the free regions are
// word 6, the counter of copiers is word 7, the claim word is word 8, and the words of buffers are those from 22 on. The count of what a
// thread has recorded is word 40, and the recorded addresses are the words from 41 on. The heap begins at word 59, with address 64.
use alloc_buffers::{Kind, Take, Taken};
use heap_words::{Access, Config, Place, Took, Unit};
use load_barrier::{EvacUnit, Resolve};
use satb_barrier::Remember;
use std::test::Fail;

// Room of 19 words out of the buffer of the thread, whose free words are those from address 83 up to 128. Its word is 2^32 * 128 + 83, and
// 19 more once they are taken.
#[test]
fn takes_room_in_its_buffer(rt: HostRuntime) -> Result<(), Fail> {
    let config = Config::new(4, 64, 1, 0, 0)?;
    let mut take = Take::new(config, 0, 19, Kind::Fresh);
    let stands = (take.took(549755813971), take.place(), take.plan());
    let stores = Access::Store {
        at: 22,
        value: 549755813990,
    };
    assert!(rt; stands == (Took::More, Place::TS, stores));
    let ends = (take.took(549755813971), take.answer());
    assert!(rt; ends == (Took::Done, Taken::At(83)));
    Ok(())
}

// A buffer with three entries gets a fourth.
#[test]
fn records_behind_three_entries(rt: HostRuntime) -> Result<(), Fail> {
    let config = Config::new(4, 64, 1, 0, 0)?;
    let mut remember = Remember::new(config, 0, 100);
    let counts = remember.took(3);
    let stands = (counts, remember.place(), remember.plan());
    assert!(rt; stands == (Took::More, Place::BE, Access::Store { at: 44, value: 100 }));
    let ends = ([remember.took(0), remember.took(3)], remember.is_done());
    assert!(rt; ends == ([Took::More, Took::Done], true));
    Ok(())
}

// A thread resolves address 96 in region 0, the collection set. Another thread has found no room: this one waits until nobody
// copies, and uses the copy that there is, at address 133. The header names it by 4 * 133 + 3. Bit 63 of the counter of copiers
// says that there was no room.
#[test]
fn waits_until_nobody_copies(rt: HostRuntime) -> Result<(), Fail> {
    let config = Config::new(4, 64, 1, 0, 0)?;
    let mut copier = Resolve::new(config, 0, 96, 2, 1);
    let says = [
        copier.took(1),
        copier.took(9223372036854775809),
        copier.took(9223372036854775808),
    ];
    let stands = (says, copier.place(), copier.plan());
    let loads = Access::Load { at: 91 };
    assert!(rt; stands == ([Took::More, Took::Again, Took::More], Place::HR, loads));
    let ends = (copier.took(535), copier.is_done(), copier.answer());
    assert!(rt; ends == (Took::Done, true, 133));
    Ok(())
}

// Another machine claims region 0 first; region 1 is not of the collection set.
#[test]
fn claims_the_next_unit(rt: HostRuntime) -> Result<(), Fail> {
    let config = Config::new(4, 64, 1, 0, 0)?;
    let mut unit = EvacUnit::new(config, 1, 1);
    let says = [unit.took(0), unit.took(1), unit.took(1)];
    let stands = (says, unit.place(), unit.plan());
    let claims = Access::Exchange {
        at: 8,
        expect: 1,
        value: 2,
    };
    assert!(rt; stands == ([Took::More, Took::Again, Took::More], Place::KX, claims));
    let ends = (unit.took(1), unit.is_done(), unit.answer());
    assert!(rt; ends == (Took::Done, true, Unit::Worked));
    Ok(())
}
