use handshake::{Enter, Go, Leave, Stop};
use heap_words::{Access, Config, Place, Took};
use std::process::Abort;
use std::test::Fail;

// The words of the smallest heap below its image: the pause word, two others, and the state word of its one mutator.
type Words = [u64; 4];

// Whose turn it is: that of the mutator, which enters or leaves, or of the control, which stops it for a pause or ends that.
enum Turn {
    Enter,
    Stop,
    Leave,
    Go,
}

// A step: whose, at which place, and what it says.
type Step = (Turn, Place, Took);

// The mutator is in before the pause is wanted: the control waits until it has left.
const MUTATOR_FIRST: [Step; 7] = [
    (Turn::Enter, Place::E1, Took::More),
    (Turn::Enter, Place::E2, Took::Done),
    (Turn::Stop, Place::P1, Took::More),
    (Turn::Stop, Place::P2, Took::Again),
    (Turn::Leave, Place::LV, Took::Done),
    (Turn::Stop, Place::P2, Took::Done),
    (Turn::Go, Place::P3, Took::Done),
];

// Both have stored their word before either looks: the mutator steps back, and waits for the end of the pause.
const BOTH_AT_ONCE: [Step; 13] = [
    (Turn::Enter, Place::E1, Took::More),
    (Turn::Stop, Place::P1, Took::More),
    (Turn::Stop, Place::P2, Took::Again),
    (Turn::Enter, Place::E2, Took::More),
    (Turn::Stop, Place::P2, Took::Again),
    (Turn::Enter, Place::E3, Took::More),
    (Turn::Enter, Place::E4, Took::Again),
    (Turn::Stop, Place::P2, Took::Done),
    (Turn::Enter, Place::E4, Took::Again),
    (Turn::Go, Place::P3, Took::Done),
    (Turn::Enter, Place::E4, Took::More),
    (Turn::Enter, Place::E1, Took::More),
    (Turn::Enter, Place::E2, Took::Done),
];

// Makes an access, and returns the word that it has found.
fn made(rt: &impl Abort, words: &mut Words, access: Access) -> u64 {
    let at = access.at();
    assert!(rt; at < 4);
    let found = words[at];
    words[at] = access.made(found);
    found
}

// The mutator makes its next step of entering: where it stood, and what it says.
fn enters(rt: &impl Abort, words: &mut Words, enter: &mut Enter) -> (Place, Took) {
    assert!(rt; !enter.is_done());
    let place = enter.place();
    let got = made(rt, words, enter.plan());
    (place, enter.took(got))
}

// The control makes its next step of stopping.
fn stops(rt: &impl Abort, words: &mut Words, stop: &mut Stop) -> (Place, Took) {
    assert!(rt; !stop.is_done());
    let place = stop.place();
    let got = made(rt, words, stop.plan());
    (place, stop.took(got))
}

// The mutator leaves.
fn leaves(rt: &impl Abort, words: &mut Words, leave: &mut Leave) -> (Place, Took) {
    assert!(rt; !leave.is_done());
    let place = leave.place();
    let got = made(rt, words, leave.plan());
    (place, leave.took(got))
}

// The control ends the pause.
fn goes(rt: &impl Abort, words: &mut Words, go: &mut Go) -> (Place, Took) {
    assert!(rt; !go.is_done());
    let place = go.place();
    let got = made(rt, words, go.plan());
    (place, go.took(got))
}

// The words after the steps of one mutator and the control.
fn play(rt: &impl Abort, config: Config, steps: &[Step]) -> Words {
    assert!(rt; config.mutators() == 1);
    let mut words = [0, 1, 0, 0];
    let mut enter = Enter::new(config, 0);
    let mut stop = Stop::new(config);
    let mut leave = Leave::new(config, 0);
    let mut go = Go::new(config);
    for (turn, place, says) in steps {
        let (at, said) = match turn {
            Turn::Enter => enters(rt, &mut words, &mut enter),
            Turn::Stop => stops(rt, &mut words, &mut stop),
            Turn::Leave => leaves(rt, &mut words, &mut leave),
            Turn::Go => goes(rt, &mut words, &mut go),
        };
        assert!(rt; at == *place, "{place:?}");
        assert!(rt; said == *says, "{place:?}");
    }
    words
}

#[test]
fn one_mutator(rt: HostRuntime) -> Result<(), Fail> {
    let config = Config::new(4, 64, 1, 0, 0)?;
    assert!(rt; play(&rt, config, &MUTATOR_FIRST) == [0, 1, 0, 0]);
    assert!(rt; play(&rt, config, &BOTH_AT_ONCE) == [0, 1, 0, 1]);
    Ok(())
}

// All seats are checked: two mutators, then a helper.
const EVERY_SEAT: [(Access, u64, Took); 5] = [
    (Access::Store { at: 0, value: 1 }, 0, Took::More),
    (Access::Load { at: 3 }, 0, Took::More),
    (Access::Load { at: 4 }, 0, Took::More),
    (Access::Load { at: 5 }, 1, Took::Again),
    (Access::Load { at: 5 }, 0, Took::Done),
];

#[test]
fn every_seat_is_checked(rt: HostRuntime) -> Result<(), Fail> {
    let mut stop = Stop::new(Config::new(4, 64, 2, 1, 0)?);
    for (access, got, says) in &EVERY_SEAT {
        assert!(rt; !stop.is_done());
        assert!(rt; stop.plan() == *access, "{access:?}");
        assert!(rt; stop.took(*got) == *says, "{access:?}");
    }
    Ok(())
}
