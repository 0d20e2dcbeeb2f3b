//! A pair laid over pairings, and pairs laid over pairs.

use arrangement::{Arrangement, Joined, Refusal};
use paired::store::Paired;
use std::test::Fail;

/// Seven names, of which 0 and 1, 2 and 3, and 4 and 5 are paired.
fn couples() -> Result<Joined<Paired>, Refusal> {
    let mut p = Paired::new();
    p.set_count(7)?;
    p.pair(0, 1)?;
    p.pair(2, 3)?;
    p.pair(4, 5)?;
    Ok(Joined::over(p))
}

#[test]
fn with_no_pair_nothing_is_changed(rt: HostRuntime) -> Result<(), Fail> {
    let a = couples()?;
    assert_eq!(rt; a.count(), 7);
    assert!(rt; a.same(0, 1));
    assert!(rt; !a.same(1, 2));
    assert!(rt; a.same(6, 6));
    assert!(rt; !a.same(7, 7));
    Ok(())
}

#[test]
fn a_pair_joins_both_ways_round(rt: HostRuntime) -> Result<(), Fail> {
    let mut a = couples()?;
    assert_eq!(rt; a.set_pair(1, 2), Ok(()));
    assert_eq!(rt; a.count(), 7);
    assert!(rt; a.same(1, 2));
    assert!(rt; a.same(2, 1));
    assert!(rt; a.same(0, 3), "with all that are the same below");
    assert!(rt; a.same(3, 0));
    assert!(rt; a.same(0, 1), "what was the same stays so");
    assert!(rt; !a.same(0, 4));
    assert!(rt; !a.same(6, 1));
    assert!(rt; !a.same(7, 7));
    Ok(())
}

#[test]
fn a_pair_is_set_once(rt: HostRuntime) -> Result<(), Fail> {
    let mut a = couples()?;
    assert_eq!(rt; a.set_pair(1, 2), Ok(()));
    assert_eq!(rt; a.set_pair(4, 6), Err(Refusal::PairAlreadySet));
    assert_eq!(rt; a.set_pair(1, 2), Err(Refusal::PairAlreadySet));
    assert_eq!(rt; Refusal::PairAlreadySet.number(), 23);
    assert!(rt; a.same(0, 3));
    assert!(rt; !a.same(4, 6));
    assert_eq!(rt;
        a.set_pair(7, 1),
        Err(Refusal::NameNotBelowCount),
        "what is no name is refused first"
    );
    assert_eq!(rt; a.set_pair(1, 7), Err(Refusal::NameNotBelowCount));
    Ok(())
}

#[test]
fn a_name_with_itself_uses_up_the_pair(rt: HostRuntime) -> Result<(), Fail> {
    let mut a = couples()?;
    assert_eq!(rt;
        a.set_pair(7, 7),
        Err(Refusal::NameNotBelowCount),
        "and no pair is set"
    );
    assert_eq!(rt; a.set_pair(6, 6), Ok(()));
    assert_eq!(rt; a.set_pair(1, 2), Err(Refusal::PairAlreadySet));
    assert!(rt; a.same(6, 6));
    assert!(rt; !a.same(1, 2));
    assert!(rt; !a.same(6, 0));
    Ok(())
}

#[test]
fn the_pairs_of_a_pile_chain_classes_together(rt: HostRuntime) -> Result<(), Fail> {
    let mut middle = couples()?;
    middle.set_pair(1, 2)?;
    let mut top = Joined::over(middle);
    assert_eq!(rt; top.set_pair(5, 3), Ok(()));
    assert_eq!(rt; top.count(), 7);
    assert!(rt; top.same(0, 4), "by 1, 2, 3 and 5");
    for i in 0..8u8 {
        for j in 0..8u8 {
            assert_eq!(rt; top.same(i, j), i < 6 && j < 6 || i == 6 && j == 6);
        }
    }
    Ok(())
}
