//! Why two names are the same: the fewest pairings between them.

use arrangement::Refusal;
use paired::store::Paired;
use search::entry::Reached;
use std::test::Fail;

/// All names in a row, each paired with the next.
fn row() -> Result<Paired, Refusal> {
    let mut p = Paired::new();
    p.set_count(64)?;
    for k in 0..63u8 {
        p.pair(k, k + 1)?;
    }
    Ok(p)
}

#[test]
fn the_longest_row_is_walked_to_its_end(rt: HostRuntime) -> Result<(), Fail> {
    let p = row()?;
    assert_eq!(rt; p.why(0, 63), Ok(Some(63)));
    assert_eq!(rt; p.why(63, 0), Ok(Some(63)));
    for i in 0..64u8 {
        for j in 0..64u8 {
            assert_eq!(rt; p.why(i, j), Ok(Some(i.max(j) - i.min(j))));
        }
    }
    Ok(())
}

#[test]
fn the_shorter_of_two_ways_is_answered(rt: HostRuntime) -> Result<(), Fail> {
    let mut p = row()?;
    p.pair(60, 2)?;
    assert_eq!(rt;
        p.why(0, 63),
        Ok(Some(6)),
        "though the long way was paired first"
    );
    assert_eq!(rt; p.why(63, 0), Ok(Some(6)));
    assert_eq!(rt; p.why(0, 31), Ok(Some(31)), "as far either way");
    assert_eq!(rt; p.why(0, 32), Ok(Some(31)));
    p.pair(0, 63)?;
    assert_eq!(rt; p.why(0, 63), Ok(Some(1)));
    Ok(())
}

#[test]
fn names_that_no_chain_joins_have_no_answer(rt: HostRuntime) -> Result<(), Fail> {
    let mut p = Paired::new();
    p.set_count(5)?;
    assert_eq!(rt; p.why(0, 1), Ok(None));
    p.pair(0, 1)?;
    p.pair(2, 3)?;
    p.pair(4, 4)?;
    assert_eq!(rt; p.why(0, 3), Ok(None));
    assert_eq!(rt; p.why(4, 0), Ok(None));
    assert_eq!(rt; p.why(2, 2), Ok(Some(0)));
    assert_eq!(rt;
        p.why(4, 4),
        Ok(Some(0)),
        "it takes no pairing, though there is one"
    );
    Ok(())
}

#[test]
fn what_is_no_name_is_refused(rt: HostRuntime) -> Result<(), Fail> {
    let mut p = row()?;
    assert_eq!(rt; p.why(0, 64), Err(Refusal::NameNotBelowCount));
    assert_eq!(rt; p.why(64, 64), Err(Refusal::NameNotBelowCount));
    assert_eq!(rt;
        p.why_by::<Reached>(255, 0),
        Err(Refusal::NameNotBelowCount)
    );
    assert_eq!(rt; p.pair(0, 64), Err(Refusal::NameNotBelowCount));
    assert_eq!(rt;
        p.why(0, 63),
        Ok(Some(63)),
        "a refused pairing joins nothing"
    );
    Ok(())
}

#[test]
fn both_searches_answer_the_same(rt: HostRuntime) -> Result<(), Fail> {
    let mut p = row()?;
    p.pair(7, 50)?;
    p.pair(12, 3)?;
    for i in 0..66u8 {
        for j in 0..66u8 {
            assert_eq!(rt; p.why_by::<Reached>(i, j), p.why(i, j));
        }
    }
    Ok(())
}
