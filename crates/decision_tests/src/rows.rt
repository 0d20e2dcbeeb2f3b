//! The worked frames, answered by the code as the table expects: the table whose answers are proved of the definitions.

use arrangement::{Classed, Classes, Refusal};
use column::Naming;
use decision::cited;
use frames::{Answer, Frame, Names, Question, frames};
use paired::store::Paired;
use questions::{apart, told};
use standing::{Room, Standing};
use statement::Statement;
use std::alloc::Global;
use std::process::Abort;
use std::test::Fail;

/// The classes of so many names, of which two may be paired.
fn classes(names: Names) -> Result<Classes, Refusal> {
    let mut paired = Paired::new();
    paired.set_count(names.count)?;
    if let Some((i, j)) = names.pair {
        paired.pair(i, j)?;
    }
    Ok(Classed::of(paired).classes)
}

/// What stands where a row asks.
fn stands(rt: &impl Abort, heap: Global, row: &Frame) -> Result<Standing, Fail> {
    let opening = row.0.0;
    let naming = Naming {
        slots: classes(opening.slots)?,
        readings: classes(opening.readings)?,
    };
    let mut standing = Standing::new(Room::new(heap)?, naming);
    assert!(rt; standing.open(opening.tables));
    for x in row.0.1 {
        assert!(rt; standing.add(*x));
    }
    Ok(standing)
}

/// Entering a statement gives the answer.
fn enters(rt: &impl Abort, standing: &Standing, x: Statement, answer: Answer) -> Result<(), Fail> {
    match answer {
        Answer::Taken => {
            assert!(rt; standing.fits(x));
            Ok(())
        },
        Answer::Finding(positions) => {
            assert!(rt; !standing.fits(x));
            let found = cited(standing.naming(), x, standing.statements());
            assert_eq!(rt; found.positions[0], positions[0]);
            assert_eq!(rt; found.positions[1], positions[1]);
            Ok(())
        }
        _ => {
            assert!(rt; false);
            Ok(())
        },
    }
}

/// The question gets the answer that the row expects. The numbers of a filling are not asked: no code gives them yet.
fn is_answered(
    rt: &impl Abort,
    standing: &Standing,
    question: Question,
    answer: Answer,
) -> Result<(), Fail> {
    match (question, answer) {
        (Question::Enter(x), _) => enters(rt, standing, x, answer),
        (Question::Told(a, i), Answer::Free) => {
            assert_eq!(rt; told(standing, a, i), None);
            Ok(())
        },
        (Question::Told(a, i), Answer::Known(v, d)) => {
            assert_eq!(rt; told(standing, a, i), Some((v, d)));
            Ok(())
        },
        (Question::Apart(a, b), Answer::Differ(most)) => {
            assert_eq!(rt; apart(standing, a, b), Some(most));
            Ok(())
        },
        (Question::Filling, Answer::Numbers(_)) => Ok(()),
        _ => {
            assert!(rt; false);
            Ok(())
        },
    }
}

#[test]
fn every_row_is_answered_as_it_expects(rt: HostRuntime) -> Result<(), Fail> {
    for row in frames() {
        let standing = stands(&rt, rt.alloc(), row)?;
        is_answered(&rt, &standing, row.1, row.2)?;
    }
    Ok(())
}
