//! Fields are read in their order, every refusal is met in its order, and a refused reader stays.

use record::entry::Record;
use record::reader::Reader;
use record::reading::ReadRefusal;
use statement::{Reading, Slot, Statement, Table};

#[test]
fn the_fields_of_a_statement_are_read_in_their_order(rt: HostRuntime) {
    let mut reader = Reader::new(b"MTW\x01\x02\x03\x04MTR\x05\x06\x07\0");
    let (b, a, i, v) = (Table(1), Table(2), Slot(3), Reading(4));
    assert_eq!(rt;
        reader.next(),
        Ok(Some(Record::State(Statement::W { b, a, i, v })))
    );
    let (a, i, v) = (Table(5), Slot(6), Reading(7));
    assert_eq!(rt;
        reader.next(),
        Ok(Some(Record::State(Statement::R { a, i, v })))
    );
}

fn refusal(log: &[u8]) -> Option<u8> {
    Reader::new(log).next().err().map(ReadRefusal::number)
}

#[test]
fn every_refusal_comes_in_its_order(rt: HostRuntime) {
    assert_eq!(rt; refusal(b""), None);
    assert_eq!(rt; refusal(b"MTO\x03\x02\x02"), Some(31));
    assert_eq!(rt; refusal(b"XX"), Some(31), "too short comes before the mark");
    assert_eq!(rt;
        refusal(b"MXZ\x01\x01\x01\x01"),
        Some(32),
        "the mark comes before the kind"
    );
    assert_eq!(rt; refusal(b"TMO\0\0\0\0"), Some(32));
    assert_eq!(rt;
        refusal(b"MTZ\x01\x01\x01\x01"),
        Some(33),
        "the kind comes before the fields"
    );
    assert_eq!(rt; refusal(b"MTo\0\0\0\0"), Some(33));
    assert_eq!(rt; refusal(b"MTE\x01\x02\x01\0"), Some(34));
    assert_eq!(rt; refusal(b"MTR\x01\x02\x03\x01"), Some(34));
}

#[test]
fn a_refused_reader_stays(rt: HostRuntime) {
    let mut reader = Reader::new(b"MTE\x01\x02\0\0MTE\x01\x02\0\x01");
    let equal = Record::State(Statement::E {
        a: Table(1),
        b: Table(2),
    });
    assert_eq!(rt; reader.number(), 1);
    assert_eq!(rt; reader.next(), Ok(Some(equal)));
    assert_eq!(rt; reader.next(), Err(ReadRefusal::UnusedFieldSet));
    assert_eq!(rt; reader.next(), Err(ReadRefusal::UnusedFieldSet));
    assert_eq!(rt; reader.offset(), 7);
    assert_eq!(rt; reader.number(), 2);
}

#[test]
fn a_reader_at_the_end_stays(rt: HostRuntime) {
    let mut reader = Reader::new(b"MTE\x01\x02\0\0");
    let _ = reader.next();
    assert_eq!(rt; reader.next(), Ok(None));
    assert_eq!(rt; reader.next(), Ok(None));
    assert_eq!(rt; reader.offset(), 7);
}
