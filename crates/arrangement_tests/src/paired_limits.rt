//! As many pairings as are held, and one beyond.

use arrangement::{Arrangement, Refusal};
use paired::store::Paired;
use std::test::Fail;

/// Names 0 and 1 paired once, and name 2 with itself until 256 pairings are held.
fn full() -> Result<Paired, Refusal> {
    let mut p = Paired::new();
    p.set_count(4)?;
    p.pair(0, 1)?;
    for _ in 0..255u8 {
        p.pair(2, 2)?;
    }
    Ok(p)
}

#[test]
fn no_pairing_is_held_beyond_the_most(rt: HostRuntime) -> Result<(), Fail> {
    let mut p = full()?;
    assert_eq!(rt; p.pair(1, 3), Err(Refusal::TooManyPairings));
    assert_eq!(rt; p.pair(2, 2), Err(Refusal::TooManyPairings));
    assert_eq!(rt; Refusal::TooManyPairings.number(), 24);
    assert!(rt; p.same(0, 1));
    assert!(rt; !p.same(1, 3));
    assert_eq!(rt; p.why(1, 3), Ok(None));
    assert_eq!(rt; p.why(0, 1), Ok(Some(1)));
    Ok(())
}

#[test]
fn what_is_no_name_is_refused_before_the_most_is_met(rt: HostRuntime) -> Result<(), Fail> {
    let mut p = full()?;
    assert_eq!(rt; p.pair(4, 0), Err(Refusal::NameNotBelowCount));
    assert_eq!(rt; p.pair(0, 4), Err(Refusal::NameNotBelowCount));
    assert_eq!(rt; p.pair(0, 3), Err(Refusal::TooManyPairings));
    Ok(())
}

#[test]
fn a_refused_count_leaves_all_that_are_held(rt: HostRuntime) -> Result<(), Fail> {
    let mut p = full()?;
    assert_eq!(rt; p.set_count(65), Err(Refusal::TooManyNames));
    assert_eq!(rt; p.count(), 4);
    assert!(rt; p.same(0, 1));
    assert_eq!(rt; p.pair(0, 3), Err(Refusal::TooManyPairings));
    Ok(())
}

#[test]
fn a_count_makes_room_again(rt: HostRuntime) -> Result<(), Fail> {
    let mut p = full()?;
    p.set_count(4)?;
    assert_eq!(rt; p.pair(1, 3), Ok(()));
    assert!(rt; p.same(3, 1));
    assert!(rt; !p.same(0, 1));
    Ok(())
}
