//! Groups of names, up to the highest name and one beyond.

use links::groups::Groups;

#[test]
fn each_name_begins_alone(rt: HostRuntime) {
    let groups = Groups::new();
    for name in 0..=255u8 {
        assert_eq!(rt; groups.root(name), name);
    }
    assert!(rt; groups.are_joined(255, 255));
    assert!(rt; !groups.are_joined(0, 1));
}

#[test]
fn a_group_is_known_by_its_lowest_name(rt: HostRuntime) {
    let mut groups = Groups::new();
    groups.join(127, 9);
    groups.join(40, 41);
    assert_eq!(rt; groups.root(127), 9);
    groups.join(41, 127);
    assert_eq!(rt; groups.root(40), 9);
    groups.join(127, 3);
    assert_eq!(rt; groups.root(40), 3);
    assert!(rt; groups.are_joined(41, 9));
    assert!(rt; !groups.are_joined(41, 10));
}

#[test]
fn a_name_that_is_too_high_is_joined_to_none(rt: HostRuntime) {
    let mut groups = Groups::new();
    groups.join(0, 128);
    groups.join(255, 254);
    assert_eq!(rt; groups.root(128), 128);
    assert!(rt; !groups.are_joined(0, 128));
    assert!(rt; !groups.are_joined(255, 254));
}
