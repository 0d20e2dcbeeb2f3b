//! What is written, what lies beyond, and a buffer that is too short.

use record::entry::Record;
use record::writing::WriteRefusal;
use statement::{Reading, Slot, Statement, Table};

#[test]
fn seven_bytes_are_written_and_no_more(rt: HostRuntime) {
    let w = Record::State(Statement::W {
        b: Table(1),
        a: Table(2),
        i: Slot(3),
        v: Reading(4),
    });
    let mut buffer = [9; 9];
    assert_eq!(rt; w.write(&mut buffer), Ok(7));
    assert_eq!(rt; buffer, *b"MTW\x01\x02\x03\x04\x09\x09");
    let d = Record::State(Statement::D {
        a: Table(5),
        b: Table(6),
    });
    assert_eq!(rt; d.write(&mut buffer), Ok(7));
    assert_eq!(rt;
        buffer,
        *b"MTD\x05\x06\0\0\x09\x09",
        "unused fields are cleared"
    );
}

#[test]
fn a_short_buffer_keeps_every_byte(rt: HostRuntime) {
    let opening = Record::Open {
        tables: 1,
        slots: 2,
        readings: 3,
    };
    let mut buffer = [9; 6];
    assert_eq!(rt;
        opening.write(&mut buffer),
        Err(WriteRefusal::BufferTooShort)
    );
    assert_eq!(rt; buffer, [9; 6]);
    assert_eq!(rt; WriteRefusal::BufferTooShort.number(), 20);
}
