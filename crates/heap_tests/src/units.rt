use heap_words::{Access, Config, Place, Took, Unit};
use std::test::Fail;
use unit_part::{ScanUnit, UpdateUnit};

// In the smallest heap, of 4 regions of 64 words, there are 4 units of marking and 4 of updating. The claim word is word 8.

#[test]
fn no_unit_is_left(rt: HostRuntime) -> Result<(), Fail> {
    let config = Config::new(4, 64, 1, 0, 0)?;
    let mut scan = ScanUnit::new(config);
    assert!(rt; scan.took(4) == Took::Done);
    assert!(rt; scan.answer() == Unit::NoneLeft);
    let mut update = UpdateUnit::new(config, 2);
    assert!(rt; update.took(4) == Took::Done);
    assert!(rt; update.answer() == Unit::NoneLeft);
    Ok(())
}

// In unit 2 nothing is grey.
#[test]
fn a_unit_is_scanned(rt: HostRuntime) -> Result<(), Fail> {
    let config = Config::new(4, 64, 1, 0, 0)?;
    let mut scan = ScanUnit::new(config);
    let _ = scan.took(2);
    let _ = scan.took(2);
    assert!(rt;
        !scan.is_done() && scan.place() == Place::MG && scan.plan() == Access::Load { at: 53 }
    );
    let _ = scan.took(0);
    assert!(rt; scan.took(0) == Took::Done);
    assert!(rt; scan.is_done() && scan.answer() == Unit::Worked);
    Ok(())
}

// Another machine claims region 0 first. Region 2 is empty.
#[test]
fn a_region_is_updated(rt: HostRuntime) -> Result<(), Fail> {
    let config = Config::new(4, 64, 1, 0, 0)?;
    let mut update = UpdateUnit::new(config, 2);
    let _ = update.took(0);
    assert!(rt; update.took(1) == Took::Again);
    let _ = update.took(2);
    let _ = update.took(2);
    assert!(rt;
        !update.is_done() && update.place() == Place::UL && update.plan() == Access::Load { at: 20 }
    );
    assert!(rt; update.took(0) == Took::Done);
    assert!(rt; update.is_done() && update.answer() == Unit::Worked);
    Ok(())
}
