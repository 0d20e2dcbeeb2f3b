//! Listings of a few logs, and of the longest.

use listing::input::read_log;
use listing::list::{Room, list};
use std::alloc::Global;
use std::test::Fail;

/// The lines of a log, each with a line end.
fn text(heap: Global, log: &[u8]) -> Result<String, Fail> {
    let mut text = String::new(heap);
    for line in list(Room::new(heap)?, log) {
        text.push_str(line.to_string(heap)?.as_str())?;
        text.push('\n')?;
    }
    Ok(text)
}

/// A log of so many bytes: E 1 2 again and again, the last perhaps cut short.
fn equalities(heap: Global, bytes: usize) -> Result<Vec<u8>, Fail> {
    let record = b"MTE\x01\x02\0\0";
    Ok(record.iter().copied().cycle().take(bytes).collect(heap)?)
}

#[test]
fn every_kind_is_listed(rt: HostRuntime) -> Result<(), Fail> {
    let heap = rt.alloc();
    assert_eq!(rt;
        text(heap, b"MTO\x03\x02\x01\0")?.as_str(),
        "1 0 O 3 2 1\nrecords 1\n"
    );
    assert_eq!(rt;
        text(heap, b"MTW\x01\x02\x03\x04")?.as_str(),
        "1 0 W 1 2 3 4\nrecords 1\n"
    );
    assert_eq!(rt;
        text(heap, b"MTR\x01\x02\x03\0")?.as_str(),
        "1 0 R 1 2 3\nrecords 1\n"
    );
    assert_eq!(rt;
        text(heap, b"MTE\xFF\0\0\0")?.as_str(),
        "1 0 E 255 0\nrecords 1\n"
    );
    assert_eq!(rt;
        text(heap, b"MTD\0\xFF\0\0")?.as_str(),
        "1 0 D 0 255\nrecords 1\n"
    );
    Ok(())
}

#[test]
fn refusals_are_listed(rt: HostRuntime) -> Result<(), Fail> {
    let heap = rt.alloc();
    assert_eq!(rt; text(heap, b"")?.as_str(), "records 0\n");
    assert_eq!(rt;
        text(heap, b"M")?.as_str(),
        "1 refused 31 reader 0\nrecords 0\n"
    );
    assert_eq!(rt;
        text(heap, b"MTE\x01\x02\0\0MT")?.as_str(),
        "1 0 E 1 2\n2 refused 31 reader 7\nrecords 1\n"
    );
    assert_eq!(rt;
        text(heap, b"TME\x01\x02\0\0")?.as_str(),
        "1 refused 32 reader 0\nrecords 0\n"
    );
    assert_eq!(rt;
        text(heap, b"MTX\x01\x02\0\0")?.as_str(),
        "1 refused 33 reader 0\nrecords 0\n"
    );
    assert_eq!(rt;
        text(heap, b"MTV\x01\x02\x01\0")?.as_str(),
        "1 refused 34 reader 0\nrecords 0\n"
    );
    Ok(())
}

#[test]
fn classes_are_listed_after_the_records(rt: HostRuntime) -> Result<(), Fail> {
    let heap = rt.alloc();
    let log =
        b"MTO\x01\x05\x03\0MTI\x04\x01\0\0MTI\x03\0\0\0MTI\x04\x02\0\0MTV\x01\x01\0\0MTV\x02\x01\0\0";
    let records =
        "1 0 O 1 5 3\n2 7 I 4 1\n3 14 I 3 0\n4 21 I 4 2\n5 28 V 1 1\n6 35 V 2 1\nrecords 6\n";
    let listed = text(heap, log)?;
    let expected = format!(in heap; "{records}slots 0 3\nslots 1 2 4\nreadings 1 2\n")?;
    assert_eq!(rt; listed.as_str(), expected.as_str());
    Ok(())
}

#[test]
fn a_refused_opening_or_pairing_is_listed_in_its_place(rt: HostRuntime) -> Result<(), Fail> {
    let heap = rt.alloc();
    assert_eq!(rt;
        text(heap, b"MTI\0\0\0\0")?.as_str(),
        "1 refused 22 pairing 0\nrecords 1\n"
    );
    assert_eq!(rt;
        text(heap, b"MTO\x01\x41\x02\0MTV\0\x01\0\0")?.as_str(),
        "1 refused 21 pairing 0\n2 refused 22 pairing 7\nrecords 2\n"
    );
    assert_eq!(rt;
        text(heap, b"MTO\x01\x02\x41\0MTI\0\x01\0\0")?.as_str(),
        "1 refused 21 pairing 0\n2 refused 22 pairing 7\nrecords 2\n"
    );
    assert_eq!(rt;
        text(heap, b"MTO\x01\x02\x02\0MTI\0\x01\0\0MTO\x01\x02\x02\0")?.as_str(),
        "1 0 O 1 2 2\n2 7 I 0 1\n3 14 O 1 2 2\nrecords 3\n",
        "an opening drops the pairings"
    );
    Ok(())
}

#[test]
fn the_longest_log_is_listed(rt: HostRuntime) -> Result<(), Fail> {
    let heap = rt.alloc();
    let log = equalities(heap, 8190)?;
    let lines = list(Room::new(heap)?, log.as_slice());
    assert!(rt; lines.len() == 1171);
    assert_eq!(rt; lines[1169].to_string(heap)?.as_str(), "1170 8183 E 1 2");
    assert_eq!(rt; lines[1170].to_string(heap)?.as_str(), "records 1170");
    Ok(())
}

#[test]
fn a_longer_log_is_refused_whole(rt: HostRuntime) -> Result<(), Fail> {
    let heap = rt.alloc();
    let log = equalities(heap, 8191)?;
    assert_eq!(rt;
        text(heap, log.as_slice())?.as_str(),
        "0 refused 37 reader 0\nrecords 0\n"
    );
    Ok(())
}

#[test]
fn no_more_is_read_than_tells_a_log_that_is_too_long(rt: HostRuntime) -> Result<(), Fail> {
    let heap = rt.alloc();
    let long = equalities(heap, 9000)?;
    assert_eq!(rt; read_log(heap, &long.as_slice()[0..0])?.len(), 0);
    assert!(rt; long.len() == 9000);
    assert_eq!(rt; read_log(heap, &long.as_slice()[0..8190])?.len(), 8190);
    assert_eq!(rt; read_log(heap, &long.as_slice()[0..8191])?.len(), 8191);
    assert_eq!(rt; read_log(heap, long.as_slice())?.len(), 8191);
    Ok(())
}
