//! Captures of version 2: the chunks of both sides in one list, and no record of a connection is checked before its side word 0.

use crate::asserts::{assert_holds, assert_same, ok};
use crate::captures::readers::{
    NAMES, kept_is_read, message_is_told, name, name_of, read_names, reader,
};
use crate::faults::{file_fault, record_fault};
use crate::samples::{CLIENT_FIRST, NULL, SERVER_FIRST};
use capture3::{Error, LentEntry, MemSource, Side, Silent, parse};
use std::alloc::{AllocError, Global};
use std::process::Abort;
use xdr3::{Reason, Writer};

const CLIENT: [u8; 4] = [0, 0, 0, 1];

const SERVER: [u8; 4] = [0, 0, 0, 2];

/// Where the connection's word 1 is whole, and its side word 0.
const BEGUN: usize = 12;

const ENDED: usize = 104;

/// The entries that so many bytes of the worked capture reach, without its end.
fn due_within(size: usize) -> &'static [&'static str] {
    if size < BEGUN {
        &NAMES[..0]
    } else if size < ENDED {
        &NAMES[..1]
    } else {
        &NAMES[..5]
    }
}

/// Just these entries come before the refusal, in blocks of several sizes.
fn expect_refusal(
    rt: &impl Abort,
    alloc: Global,
    file: &[u8],
    due: &[&'static str],
    wanted: Error,
) {
    for block in [1, 5, 65_536] {
        let (names, error) = read_names(rt, alloc, &mut MemSource::new(file, block, 0));
        assert_same!(rt; (wanted, names.as_slice()), (wanted, due));
        assert_same!(rt; error, Some(wanted));
    }
    match parse(alloc, file) {
        Ok(_) => panic!(rt; "no {wanted:?}"),
        Err(error) => assert_same!(rt; error, wanted),
    }
}

#[test]
fn chunks_in_either_order(rt: HostRuntime) {
    for file in [&CLIENT_FIRST, &SERVER_FIRST] {
        for block in [1, 2, 3, 7, 60, 104, 108, 65_536] {
            let (names, error) = read_names(&rt, rt.alloc(), &mut MemSource::new(file, block, 0));
            assert_same!(rt; (block, names.as_slice()), (block, NAMES.as_slice()));
            assert_same!(rt; error, None);
        }
        let entries = ok(&rt, parse(rt.alloc(), file));
        assert_same!(rt; entries.len(), NAMES.len());
        for (entry, wanted) in entries.iter().zip(NAMES.iter()) {
            assert_same!(rt; name(entry), *wanted);
            kept_is_read(&rt, rt.alloc(), entry);
        }
    }
}

#[test]
fn a_shorter_prefix_is_cut(rt: HostRuntime) {
    for file in [&CLIENT_FIRST, &SERVER_FIRST] {
        for size in 0..108 {
            let cut = file_fault(size, Reason::CaptureCut);
            expect_refusal(&rt, rt.alloc(), &file[..size], due_within(size), cut);
        }
    }
}

#[test]
fn a_read_fails_at_each_call(rt: HostRuntime) {
    for fail in 1..15usize {
        let mut source = MemSource::new(&SERVER_FIRST, 8, fail as u64);
        let (names, error) = read_names(&rt, rt.alloc(), &mut source);
        let given = 8 * (fail - 1);
        assert_same!(rt; (given, names.as_slice()), (given, due_within(given)));
        assert_same!(rt; error, Some(Error::Read));
    }
}

/// The messages are those of the worked capture, its bytes 20 to 59 and 72 to 95, told and lent after the streams are whole.
#[test]
fn messages_are_told_and_lent(rt: HostRuntime) {
    let mut source = MemSource::new(&SERVER_FIRST, 5, 0);
    let mut entries = reader(&rt, rt.alloc(), &mut source);
    for wanted in NAMES {
        let mut told = Writer::new(rt.alloc());
        let Some(lent) = ok(&rt, entries.visit(&mut told)) else {
            panic!(rt; "too few entries")
        };
        assert_same!(rt; name_of(lent), wanted);
        match lent {
            LentEntry::Call(_) => assert_holds!(rt; told.bytes() == &NULL[20..60]),
            LentEntry::Reply(_) => assert_holds!(rt; told.bytes() == &NULL[72..96]),
            _ => assert_holds!(rt; told.bytes().is_empty()),
        }
        assert_same!(rt; name(&ok(&rt, lent.keep(rt.alloc()))), wanted);
        message_is_told(&rt, rt.alloc(), lent);
    }
    assert_holds!(rt; matches!(entries.visit(&mut Silent), Ok(None)));
}

/// A bad mtype is told at the side word 0, and what the container shows before that is told first.
#[test]
fn a_record_is_judged_at_the_side_word(rt: HostRuntime) {
    let mut file = CLIENT_FIRST;
    file[31] = 2;
    let bad = record_fault(Side::Client, 1, 4, Reason::BadEnum);
    for size in 0..=108 {
        let due = if size < BEGUN {
            &NAMES[..0]
        } else {
            &NAMES[..1]
        };
        let cut = file_fault(size, Reason::CaptureCut);
        expect_refusal(
            &rt,
            rt.alloc(),
            &file[..size],
            due,
            if size < ENDED { cut } else { bad },
        );
    }
    file[103] = 3;
    expect_refusal(
        &rt,
        rt.alloc(),
        &file,
        &NAMES[..1],
        file_fault(100, Reason::BadMark),
    )
}

/// The client's stream is judged first, wherever its chunk stands, and what is whole before a fault is handed out.
#[test]
fn faults_of_both_streams(rt: HostRuntime) {
    let mut file = SERVER_FIRST;
    // the last bytes of the mtypes: the reply's stands in the chunk that comes first
    file[31] = 3;
    expect_refusal(
        &rt,
        rt.alloc(),
        &file,
        &NAMES[..3],
        record_fault(Side::Server, 1, 4, Reason::BadEnum),
    );
    file[67] = 2;
    expect_refusal(
        &rt,
        rt.alloc(),
        &file,
        &NAMES[..1],
        record_fault(Side::Client, 1, 4, Reason::BadEnum),
    )
}

/// A connection of one chunk of a side, which begins with its length word.
fn of_one_side(alloc: Global, side: &[u8; 4], chunk: &[u8]) -> Result<Vec<u8>, AllocError> {
    let mut file = Vec::from_slice(alloc, b"NFS3CAP2\0\0\0\x01")?;
    file.extend_from_slice(side)?;
    file.extend_from_slice(chunk)?;
    file.extend_from_slice(&[0; 8])?;
    Ok(file)
}

/// A stream that ends in a record or in its header, and one that ends in a record whose header is too long.
fn ends_too_early(
    rt: &impl Abort,
    alloc: Global,
    side: Side,
    word: &[u8; 4],
    due: &[&'static str],
) {
    let in_body = ok(
        rt,
        of_one_side(alloc, word, b"\0\0\0\x08\0\0\0\x04\0\0\0\x01"),
    );
    let cut = record_fault(side, 1, 4, Reason::RecordCut);
    expect_refusal(rt, alloc, &in_body, due, cut);
    let in_header = ok(rt, of_one_side(alloc, word, b"\0\0\0\x02\x80\0"));
    let cut = record_fault(side, 1, 0, Reason::RecordCut);
    expect_refusal(rt, alloc, &in_header, due, cut);
    let long = ok(rt, of_one_side(alloc, word, b"\0\0\0\x05\x81\0\0\x01\0"));
    let too_long = record_fault(side, 1, 0, Reason::RecordTooLong);
    expect_refusal(rt, alloc, &long, due, too_long)
}

#[test]
fn streams_that_end_too_early(rt: HostRuntime) {
    ends_too_early(&rt, rt.alloc(), Side::Client, &CLIENT, &["begin"]);
    ends_too_early(&rt, rt.alloc(), Side::Server, &SERVER, &["begin", "turn"])
}

/// After a call and its reply the server's stream goes on with less than a header.
#[test]
fn messages_come_before_a_stream_that_ends_too_early(rt: HostRuntime) {
    let mut file = ok(
        &rt,
        Vec::from_slice(rt.alloc(), b"NFS3CAP2\0\0\0\x01\0\0\0\x02\0\0\0\x1d"),
    );
    ok(&rt, file.extend_from_slice(&NULL[68..96]));
    ok(&rt, file.push(0x80));
    ok(&rt, file.extend_from_slice(&CLIENT));
    ok(&rt, file.extend_from_slice(&NULL[12..60]));
    ok(&rt, file.extend_from_slice(&[0; 8]));
    expect_refusal(
        &rt,
        rt.alloc(),
        &file,
        &NAMES[..4],
        record_fault(Side::Server, 2, 0, Reason::RecordCut),
    )
}

#[test]
fn words_of_the_container(rt: HostRuntime) {
    let side = b"NFS3CAP2\0\0\0\x01\0\0\0\x03";
    expect_refusal(
        &rt,
        rt.alloc(),
        side,
        &NAMES[..1],
        file_fault(12, Reason::BadMark),
    );
    let length = b"NFS3CAP2\0\0\0\x01\0\0\0\x01\0\0\0\0";
    expect_refusal(
        &rt,
        rt.alloc(),
        length,
        &NAMES[..1],
        file_fault(16, Reason::BadMark),
    );
    let many = b"NFS3CAP2\0\0\0\x01\0\0\0\x02\x40\0\0\x01";
    expect_refusal(
        &rt,
        rt.alloc(),
        many,
        &NAMES[..1],
        file_fault(16, Reason::TooManyBytes),
    );
    let after = b"NFS3CAP2\0\0\0\0\0";
    expect_refusal(
        &rt,
        rt.alloc(),
        after,
        &[],
        file_fault(12, Reason::AfterEnd),
    );
    expect_refusal(
        &rt,
        rt.alloc(),
        b"NFS3CAP2",
        &[],
        file_fault(8, Reason::CaptureCut),
    );
    expect_refusal(
        &rt,
        rt.alloc(),
        b"NFS3CAP3",
        &[],
        file_fault(7, Reason::BadMagic),
    );
    assert_same!(rt; ok(&rt, parse(rt.alloc(), b"NFS3CAP2\0\0\0\0")).len(), 1);
}

/// Two connections with the streams of the worked capture, one in each order.
#[test]
fn two_connections(rt: HostRuntime) {
    let mut file = ok(&rt, Vec::from_slice(rt.alloc(), &CLIENT_FIRST[..ENDED]));
    ok(&rt, file.extend_from_slice(&SERVER_FIRST[8..]));
    let entries = ok(&rt, parse(rt.alloc(), &file));
    assert_same!(rt; entries.len(), 11);
    for (entry, wanted) in entries.iter().skip(5).zip(NAMES.iter()) {
        assert_same!(rt; name(entry), *wanted);
    }
}
