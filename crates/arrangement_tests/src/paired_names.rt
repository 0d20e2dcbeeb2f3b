//! The count of a paired arrangement, and which names its pairings make the same.

use arrangement::{Arrangement, Refusal};
use paired::store::Paired;
use std::test::Fail;

#[test]
fn a_new_one_has_no_names(rt: HostRuntime) {
    let mut p = Paired::new();
    assert_eq!(rt; p.count(), 0);
    assert!(rt; !p.same(0, 0));
    assert_eq!(rt; p.pair(0, 0), Err(Refusal::NameNotBelowCount));
}

#[test]
fn a_chain_makes_its_names_the_same(rt: HostRuntime) -> Result<(), Fail> {
    let mut p = Paired::new();
    p.set_count(6)?;
    p.pair(0, 3)?;
    p.pair(5, 1)?;
    p.pair(1, 3)?;
    assert!(rt;
        p.same(0, 5),
        "by 3 and 1, whichever way round each was paired"
    );
    assert!(rt; p.same(5, 0));
    assert!(rt; p.same(2, 2));
    assert!(rt; !p.same(0, 2));
    assert!(rt; !p.same(4, 5));
    assert!(rt; !p.same(6, 6), "not a name");
    assert!(rt; !p.same(0, 255));
    Ok(())
}

#[test]
fn too_high_a_count_is_refused_and_changes_nothing(rt: HostRuntime) -> Result<(), Fail> {
    let mut p = Paired::new();
    p.set_count(3)?;
    p.pair(0, 2)?;
    assert_eq!(rt; p.set_count(65), Err(Refusal::TooManyNames));
    assert_eq!(rt; Refusal::TooManyNames.number(), 21);
    assert_eq!(rt; p.count(), 3);
    assert!(rt; p.same(0, 2));
    assert_eq!(rt; p.why(0, 2), Ok(Some(1)));
    assert_eq!(rt; p.set_count(64), Ok(()));
    assert_eq!(rt; p.count(), 64);
    Ok(())
}

#[test]
fn the_same_count_again_drops_the_pairings(rt: HostRuntime) -> Result<(), Fail> {
    let mut p = Paired::new();
    p.set_count(3)?;
    p.pair(0, 2)?;
    assert_eq!(rt; p.set_count(3), Ok(()));
    assert_eq!(rt; p.count(), 3);
    assert!(rt; !p.same(0, 2));
    assert_eq!(rt; p.why(0, 2), Ok(None));
    p.pair(0, 1)?;
    assert!(rt; p.same(0, 1));
    assert!(rt; !p.same(0, 2));
    Ok(())
}

#[test]
fn what_is_no_name_is_not_paired(rt: HostRuntime) -> Result<(), Fail> {
    let mut p = Paired::new();
    p.set_count(3)?;
    assert_eq!(rt; p.pair(0, 3), Err(Refusal::NameNotBelowCount));
    assert_eq!(rt; p.pair(3, 0), Err(Refusal::NameNotBelowCount));
    assert_eq!(rt; p.pair(255, 255), Err(Refusal::NameNotBelowCount));
    assert_eq!(rt; Refusal::NameNotBelowCount.number(), 22);
    assert_eq!(rt; p.count(), 3);
    assert!(rt; !p.same(0, 3));
    assert!(rt; !p.same(0, 1));
    Ok(())
}
