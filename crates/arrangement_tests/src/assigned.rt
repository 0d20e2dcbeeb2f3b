//! Arrangements by numbers, up to the most names and one beyond.

use arrangement::{Arrangement, Assigned, Refusal};
use std::alloc::{AllocError, Global};
use std::test::Fail;

/// So many numbers, which come again after every seventh.
fn numbers(heap: Global, many: u8) -> Result<Vec<u32>, AllocError> {
    (0..many).map(|k| u32::from(k % 7)).collect(heap)
}

#[test]
fn a_new_one_has_no_names(rt: HostRuntime) {
    let a = Assigned::new();
    assert_eq!(rt; a.count(), 0);
    assert!(rt; !a.same(0, 0));
}

#[test]
fn equal_numbers_make_names_the_same(rt: HostRuntime) {
    let mut a = Assigned::new();
    assert_eq!(rt; a.fill(&[4_000_000_000, 0, 4_000_000_000, 256]), Ok(()));
    assert_eq!(rt; a.count(), 4);
    assert!(rt; a.same(0, 2));
    assert!(rt; a.same(2, 0));
    assert!(rt; a.same(3, 3));
    assert!(rt; !a.same(0, 1));
    assert!(rt; !a.same(1, 3), "only their low bytes are equal");
}

#[test]
fn the_most_names_are_taken(rt: HostRuntime) -> Result<(), Fail> {
    let mut a = Assigned::new();
    assert_eq!(rt; a.fill(numbers(rt.alloc(), 64)?.as_slice()), Ok(()));
    assert_eq!(rt; a.count(), 64);
    for i in 0..64u8 {
        for j in 0..64u8 {
            assert_eq!(rt; a.same(i, j), i % 7 == j % 7);
        }
    }
    Ok(())
}

#[test]
fn one_name_more_is_refused_and_changes_nothing(rt: HostRuntime) -> Result<(), Fail> {
    let mut a = Assigned::new();
    assert_eq!(rt; a.fill(&[5, 6, 5]), Ok(()));
    let list = numbers(rt.alloc(), 65)?;
    assert_eq!(rt; a.fill(list.as_slice()), Err(Refusal::TooManyNames));
    assert_eq!(rt; Refusal::TooManyNames.number(), 21);
    assert_eq!(rt; a.count(), 3);
    assert!(rt; a.same(0, 2));
    assert!(rt; !a.same(0, 1));
    Ok(())
}

#[test]
fn what_is_no_name_is_the_same_as_nothing(rt: HostRuntime) {
    let mut a = Assigned::new();
    assert_eq!(rt; a.fill(&[5, 5, 5, 5]), Ok(()));
    assert_eq!(rt; a.fill(&[5, 5]), Ok(()), "what was held beyond is gone");
    assert_eq!(rt; a.count(), 2);
    assert!(rt; a.same(0, 1));
    assert!(rt; !a.same(2, 2), "not even as itself");
    assert!(rt; !a.same(0, 2));
    assert!(rt; !a.same(2, 0));
    assert!(rt; !a.same(64, 64));
    assert!(rt; !a.same(255, 255));
}
