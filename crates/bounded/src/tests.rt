//! A list is filled up to its most items, and not beyond.

use crate::{Bounded, Full};

#[test]
fn items_stay_in_order(rt: HostRuntime) {
    let mut list: Bounded<u16, 3> = Bounded::new(9);
    assert_eq!(rt; list.as_slice().len(), 0);
    assert_eq!(rt; list.push(5), Ok(()));
    assert_eq!(rt; list.push(4), Ok(()));
    assert_eq!(rt; list.len(), 2);
    assert_eq!(rt; list.get(0), Some(5));
    assert_eq!(rt; list.get(1), Some(4));
    assert_eq!(rt; list.get(2), None);
    list.clear();
    assert_eq!(rt; list.len(), 0);
    assert_eq!(rt; list.get(0), None);
}

#[test]
fn what_has_no_room_changes_nothing(rt: HostRuntime) {
    let mut list: Bounded<u16, 2> = Bounded::new(0);
    assert_eq!(rt; list.fill(&[7, 8, 9]), Err(Full));
    assert_eq!(rt; list.as_slice().len(), 0);
    assert_eq!(rt; list.fill(&[7, 8]), Ok(()));
    assert_eq!(rt; list.push(9), Err(Full));
    assert_eq!(rt; list.as_slice().last(), Some(&8));
    assert_eq!(rt; list.fill(&[6]), Ok(()));
    assert_eq!(rt; list.as_slice().last(), Some(&6));
}
