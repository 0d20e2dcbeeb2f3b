//! Classes that are made of a pile of arrangements.

use arrangement::{Arrangement, Classed, Joined, Refusal};
use paired::store::Paired;
use std::test::Fail;

/// Every name is paired with the fifth after it, and two pairs are laid over that: so 0, 2 and 3 name the same, and 1 and 4
/// name two things more.
fn pile() -> Result<Joined<Joined<Paired>>, Refusal> {
    let mut p = Paired::new();
    p.set_count(64)?;
    for k in 0..59u8 {
        p.pair(k + 5, k)?;
    }
    let mut middle = Joined::over(p);
    middle.set_pair(63, 10)?;
    let mut top = Joined::over(middle);
    top.set_pair(62, 3)?;
    Ok(top)
}

#[test]
fn it_agrees_with_the_pile_at_all_names(rt: HostRuntime) -> Result<(), Fail> {
    let made = pile()?;
    let classed = Classed::of(pile()?);
    assert_eq!(rt; classed.count(), made.count());
    for i in 0..66u8 {
        for j in 0..66u8 {
            assert_eq!(rt; classed.same(i, j), made.same(i, j));
        }
    }
    Ok(())
}

#[test]
fn the_lowest_name_of_each_class_is_found(rt: HostRuntime) -> Result<(), Fail> {
    let classed = Classed::of(pile()?);
    for i in 0..64u8 {
        let lowest = if i % 5 == 2 || i % 5 == 3 { 0 } else { i % 5 };
        assert_eq!(rt; classed.lowest(i), Some(lowest));
    }
    assert_eq!(rt; classed.lowest(64), None);
    assert_eq!(rt; classed.lowest(255), None);
    Ok(())
}

#[test]
fn with_no_names_there_is_no_lowest(rt: HostRuntime) {
    let classed = Classed::of(Paired::new());
    assert_eq!(rt; classed.count(), 0);
    assert_eq!(rt; classed.lowest(0), None);
    assert!(rt; !classed.same(0, 0));
    assert_eq!(rt; classed.into_inner().count(), 0);
}
