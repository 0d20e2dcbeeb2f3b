//! As many tables, classes, statements and links as there can be.

use arrangement::Classed;
use column::Naming;
use decision::cited;
use meaning::Apart;
use paired::store::Paired;
use questions::{apart, told};
use standing::{Room, Standing};
use statement::{Reading, Slot, Statement, Table};
use std::alloc::Global;
use std::process::Abort;
use std::test::Fail;

/// 64 slots and 64 readings, none the same as another, and 128 tables.
fn widest(rt: &impl Abort, heap: Global) -> Result<Standing, Fail> {
    let mut names = Paired::new();
    names.set_count(64)?;
    let classes = Classed::of(names).classes;
    let naming = Naming {
        slots: classes,
        readings: classes,
    };
    let mut standing = Standing::new(Room::new(heap)?, naming);
    assert!(rt; !standing.open(129));
    assert!(rt; standing.open(128));
    assert!(rt; !standing.open(127));
    Ok(standing)
}

/// Table t + 1 is table t with a reading written at the slot.
fn write(t: u8, slot: u8) -> Statement {
    Statement::W {
        b: Table(if t < 127 { t + 1 } else { t }),
        a: Table(t),
        i: Slot(slot),
        v: Reading(slot),
    }
}

/// All tables in a row, each written from the one before, at slots 0 to 62 in turn, so that no write is at slot 63.
fn row(rt: &impl Abort, heap: Global) -> Result<Standing, Fail> {
    let mut standing = widest(rt, heap)?;
    for t in 0..127u8 {
        assert!(rt; standing.add(write(t, t % 63)));
    }
    Ok(standing)
}

#[test]
fn a_chain_of_127_links_tells(rt: HostRuntime) -> Result<(), Fail> {
    let mut standing = row(&rt, rt.alloc())?;
    assert_eq!(rt; told(&standing, Table(0), Slot(63)), None);
    let read = Statement::R {
        a: Table(127),
        i: Slot(63),
        v: Reading(7),
    };
    assert!(rt; standing.add(read));
    assert_eq!(rt;
        told(&standing, Table(0), Slot(63)),
        Some((Reading(7), 127))
    );
    let other = Statement::R {
        a: Table(0),
        i: Slot(63),
        v: Reading(8),
    };
    assert!(rt; !standing.fits(other));
    let found = cited(standing.naming(), other, standing.statements());
    assert_eq!(rt; found.count, 128);
    assert_eq!(rt; found.positions[0], 1);
    assert_eq!(rt; found.positions[127], 128);
    assert_eq!(rt; found.positions[128], 0);
    Ok(())
}

#[test]
fn tables_at_both_ends_differ_at_every_class_written(rt: HostRuntime) -> Result<(), Fail> {
    let standing = row(&rt, rt.alloc())?;
    let most = Apart::Limit {
        set: 0x7FFF_FFFF_FFFF_FFFF,
        count: 63,
    };
    assert_eq!(rt; apart(&standing, Table(0), Table(127)), Some(most));
    assert_eq!(rt;
        apart(&standing, Table(5), Table(5)),
        Some(Apart::Limit { set: 0, count: 0 })
    );
    assert_eq!(rt; apart(&standing, Table(128), Table(0)), None);
    assert_eq!(rt; told(&standing, Table(0), Slot(64)), None);
    Ok(())
}

#[test]
fn the_512th_stands_and_no_other(rt: HostRuntime) -> Result<(), Fail> {
    let mut standing = row(&rt, rt.alloc())?;
    let same = Statement::E {
        a: Table(3),
        b: Table(3),
    };
    for _ in 127..512u16 {
        assert!(rt; standing.add(same));
    }
    assert_eq!(rt; standing.statements().len(), 512);
    assert!(rt; standing.fits(same));
    assert!(rt; !standing.add(same));
    assert!(rt; standing.remove(511).is_some());
    assert!(rt; standing.remove(511).is_none());
    assert!(rt; standing.add(same));
    Ok(())
}

#[test]
fn names_at_the_counts_do_not_stand(rt: HostRuntime) -> Result<(), Fail> {
    let mut standing = widest(&rt, rt.alloc())?;
    assert!(rt;
        !standing.add(Statement::E {
            a: Table(0),
            b: Table(128),
        })
    );
    assert!(rt;
        !standing.add(Statement::R {
            a: Table(0),
            i: Slot(64),
            v: Reading(0),
        })
    );
    assert!(rt;
        !standing.add(Statement::R {
            a: Table(0),
            i: Slot(0),
            v: Reading(64),
        })
    );
    assert!(rt;
        standing.add(Statement::R {
            a: Table(127),
            i: Slot(63),
            v: Reading(63),
        })
    );
    Ok(())
}
