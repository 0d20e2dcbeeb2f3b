//! The worked frames as a table. A frame of several questions has several rows.

ghost use Rattle.std.specs.Prelude.{◌≡◌, map};
ghost use Rattle.frames.specs.Frames.{expected, given};

use crate::frame::Answer::{Differ, Finding, Free, Known, Numbers, Taken};
use crate::frame::Question::{Apart, Enter, Filling, Told};
use crate::frame::{Answer, Frame, Names, Opening, Standing};
use meaning::Apart::{Limit, NoLimit};
use statement::Statement::{D, R, W};
use statement::{Reading, Slot, Statement, Table};

const W_0_0_0_0: Statement = W {
    b: Table(0),
    a: Table(0),
    i: Slot(0),
    v: Reading(0),
};

const W_1_0_0_0: Statement = W {
    b: Table(1),
    a: Table(0),
    i: Slot(0),
    v: Reading(0),
};

const W_2_1_1_1: Statement = W {
    b: Table(2),
    a: Table(1),
    i: Slot(1),
    v: Reading(1),
};

const R_0_0_0: Statement = R {
    a: Table(0),
    i: Slot(0),
    v: Reading(0),
};

const R_0_0_1: Statement = R {
    a: Table(0),
    i: Slot(0),
    v: Reading(1),
};

const R_1_1_1: Statement = R {
    a: Table(1),
    i: Slot(1),
    v: Reading(1),
};

const R_2_0_1: Statement = R {
    a: Table(2),
    i: Slot(0),
    v: Reading(1),
};

const D_0_1: Statement = D {
    a: Table(0),
    b: Table(1),
};

const D_0_2: Statement = D {
    a: Table(0),
    b: Table(2),
};

const D_2_2: Statement = D {
    a: Table(2),
    b: Table(2),
};

const ONE: Names = Names {
    count: 1,
    pair: None,
};

const TWO: Names = Names {
    count: 2,
    pair: None,
};

const TWO_PAIRED: Names = Names {
    count: 2,
    pair: Some((0, 1)),
};

/// What a case is opened with, unless a frame says otherwise.
const PLAIN: Opening = Opening {
    tables: 3,
    slots: TWO,
    readings: TWO,
};

const SLOTS_PAIRED: Opening = Opening {
    tables: 3,
    slots: TWO_PAIRED,
    readings: TWO,
};

const READINGS_PAIRED: Opening = Opening {
    tables: 3,
    slots: TWO,
    readings: TWO_PAIRED,
};

const SMALL: Opening = Opening {
    tables: 2,
    slots: ONE,
    readings: ONE,
};

// What stands where a row asks, by the frame in which it comes to stand.
const NEW: Standing = Standing(PLAIN, &[]);

const FRAME_2: Standing = Standing(PLAIN, &[W_1_0_0_0]);

const FRAME_3: Standing = Standing(PLAIN, &[W_1_0_0_0, W_2_1_1_1]);

const FRAME_5_NEW: Standing = Standing(SLOTS_PAIRED, &[]);

const FRAME_5_ONE: Standing = Standing(SLOTS_PAIRED, &[W_1_0_0_0]);

const FRAME_5: Standing = Standing(SLOTS_PAIRED, &[W_1_0_0_0, W_2_1_1_1]);

const FRAME_7: Standing = Standing(PLAIN, &[W_1_0_0_0, R_0_0_0]);

const FRAME_8: Standing = Standing(PLAIN, &[W_1_0_0_0, R_0_0_1]);

const FRAME_9_ONE: Standing = Standing(PLAIN, &[R_0_0_0]);

const FRAME_9: Standing = Standing(PLAIN, &[R_0_0_0, R_0_0_0]);

const PAIRED_9_NEW: Standing = Standing(READINGS_PAIRED, &[]);

const PAIRED_9_ONE: Standing = Standing(READINGS_PAIRED, &[R_0_0_0]);

const PAIRED_9: Standing = Standing(READINGS_PAIRED, &[R_0_0_0, R_0_0_0]);

const FRAME_10: Standing = Standing(PLAIN, &[W_0_0_0_0]);

const FRAME_11: Standing = Standing(PLAIN, &[W_1_0_0_0, R_1_1_1]);

const FRAME_12_NEW: Standing = Standing(SMALL, &[]);

const FRAME_12: Standing = Standing(SMALL, &[W_1_0_0_0]);

const AT_SLOT_0: Answer = Differ(Limit { set: 1, count: 1 });

const AT_BOTH_SLOTS: Answer = Differ(Limit { set: 3, count: 2 });

/// How many rows there are.
pub const ROWS: usize = 32;

// Frames 7, 8 and 11 begin with the first row of frame 2, which is not repeated.
static FRAMES: [Frame; ROWS] = [
    // 1: nothing entered
    Frame(NEW, Told(Table(0), Slot(0)), Free),
    Frame(NEW, Apart(Table(0), Table(2)), Differ(NoLimit)),
    Frame(NEW, Enter(D_0_2), Taken),
    // 2: one write
    Frame(NEW, Enter(W_1_0_0_0), Taken),
    Frame(FRAME_2, Told(Table(1), Slot(0)), Known(Reading(0), 0)),
    Frame(FRAME_2, Told(Table(0), Slot(0)), Free),
    Frame(FRAME_2, Apart(Table(0), Table(1)), AT_SLOT_0),
    // 3: a second write
    Frame(FRAME_2, Enter(W_2_1_1_1), Taken),
    Frame(FRAME_3, Told(Table(2), Slot(0)), Known(Reading(0), 1)),
    Frame(FRAME_3, Apart(Table(0), Table(2)), AT_BOTH_SLOTS),
    // 4: a late reading that does not fit
    Frame(FRAME_3, Enter(R_2_0_1), Finding([1, 2])),
    // 5: the same with two tags of one slot
    Frame(FRAME_5_NEW, Enter(W_1_0_0_0), Taken),
    Frame(FRAME_5_ONE, Enter(W_2_1_1_1), Taken),
    Frame(FRAME_5, Enter(R_2_0_1), Taken),
    // 6: a table that differs from itself, whatever stands
    Frame(NEW, Enter(D_2_2), Finding([0, 0])),
    Frame(FRAME_3, Enter(D_2_2), Finding([0, 0])),
    // 7: a write that changed nothing
    Frame(FRAME_2, Enter(R_0_0_0), Taken),
    Frame(FRAME_7, Enter(D_0_1), Finding([1, 2])),
    // 8: a write that changed something
    Frame(FRAME_2, Enter(R_0_0_1), Taken),
    Frame(FRAME_8, Enter(D_0_1), Taken),
    // 9: the last of equals is cited
    Frame(NEW, Enter(R_0_0_0), Taken),
    Frame(FRAME_9_ONE, Enter(R_0_0_0), Taken),
    Frame(FRAME_9, Enter(R_0_0_1), Finding([2, 0])),
    Frame(PAIRED_9_NEW, Enter(R_0_0_0), Taken),
    Frame(PAIRED_9_ONE, Enter(R_0_0_0), Taken),
    Frame(PAIRED_9, Enter(R_0_0_1), Taken),
    // 10: a table written into itself
    Frame(NEW, Enter(W_0_0_0_0), Taken),
    Frame(FRAME_10, Told(Table(0), Slot(0)), Known(Reading(0), 0)),
    // 11: what is read after a write also held before it
    Frame(FRAME_2, Enter(R_1_1_1), Taken),
    Frame(FRAME_11, Told(Table(0), Slot(1)), Known(Reading(1), 1)),
    // 12: a filling written out
    Frame(FRAME_12_NEW, Enter(W_1_0_0_0), Taken),
    Frame(FRAME_12, Filling, Numbers([1, 3, 0, 3])),
];

/// The table. The definitions answer each of its rows as it expects.
pub fn frames() -> &'static [Frame; ROWS]
    ensures { map given result.now ≡ map expected result.now }
{
    &FRAMES
}
