//! One altered capture for each reason for which `parse` refuses a file.

use crate::asserts::{assert_same, ok};
use crate::faults::{file_fault, record_fault};
use crate::samples::push_words;
use capture3::{Error, Side, pack_header, parse};
use std::alloc::{AllocError, Global};
use std::process::Abort;
use xdr3::Reason;

/// A call of the NULL procedure of NFS version 3, in words.
const NULL_CALL: [u32; 10] = [5, 0, 2, 100_003, 3, 0, 0, 0, 0, 0];

/// Its reply.
const NULL_REPLY: [u32; 6] = [5, 1, 0, 0, 0, 0];

/// The magic, and these words.
fn file(alloc: Global, words: &[u32]) -> Result<Vec<u8>, AllocError> {
    let mut bytes = Vec::from_slice(alloc, &pack_header())?;
    push_words(&mut bytes, words)?;
    Ok(bytes)
}

/// A stream of records of one fragment, each of these words, in a chunk each.
fn add_stream(bytes: &mut Vec<u8>, records: &[&[u32]]) -> Result<(), AllocError> {
    for record in records {
        let size = (4 * (record.len() & 0xff)) as u32;
        push_words(bytes, &[size + 4, 0x8000_0000 | size])?;
        push_words(bytes, record)?;
    }
    push_words(bytes, &[0])
}

/// A capture of one connection with these records.
fn capture(alloc: Global, calls: &[&[u32]], replies: &[&[u32]]) -> Result<Vec<u8>, AllocError> {
    let mut bytes = file(alloc, &[1])?;
    add_stream(&mut bytes, calls)?;
    add_stream(&mut bytes, replies)?;
    push_words(&mut bytes, &[0])?;
    Ok(bytes)
}

fn assert_refused(rt: &impl Abort, alloc: Global, bytes: &[u8], wanted: Error) {
    match parse(alloc, bytes) {
        Ok(_) => rt.panic("it is not refused"),
        Err(error) => assert_same!(rt; error, wanted),
    }
}

/// The words of a file after its magic, and the byte and the reason of its first fault.
#[test]
fn faults_of_the_container(rt: HostRuntime) {
    let rows: [(&[u32], usize, Reason); 4] = [
        (&[1, 0x2c], 16, Reason::CaptureCut),
        (&[2], 8, Reason::BadMark),
        (&[0, 7], 12, Reason::AfterEnd),
        (&[1, 0x4000_0001], 12, Reason::TooManyBytes),
    ];
    for (words, at, reason) in rows {
        assert_refused(
            &rt,
            rt.alloc(),
            &ok(&rt, file(rt.alloc(), words)),
            file_fault(at, reason),
        );
    }
    assert_refused(
        &rt,
        rt.alloc(),
        b"NFS3CAP3",
        file_fault(7, Reason::BadMagic),
    );
}

#[test]
fn a_connection_too_many(rt: HostRuntime) {
    let mut bytes = ok(&rt, file(rt.alloc(), &[]));
    for _ in 0..65_535_u32 {
        ok(&rt, push_words(&mut bytes, &[1, 0, 0]));
    }
    ok(&rt, push_words(&mut bytes, &[1]));
    assert_refused(
        &rt,
        rt.alloc(),
        &bytes,
        file_fault(786_428, Reason::TooManyConnections),
    );
}

/// The words of a file in whose first record of a client the fault is, at its first byte.
#[test]
fn faults_of_record_marks(rt: HostRuntime) {
    let cut = ok(&rt, file(rt.alloc(), &[1, 4, 0x8100_0000, 0]));
    let wanted = record_fault(Side::Client, 1, 0, Reason::RecordCut);
    assert_refused(&rt, rt.alloc(), &cut, wanted);
    let long = ok(&rt, file(rt.alloc(), &[1, 4, 0x8100_0001]));
    let wanted = record_fault(Side::Client, 1, 0, Reason::RecordTooLong);
    assert_refused(&rt, rt.alloc(), &long, wanted);
}

/// A call of SETATTR whose first optional setting has the word 2 in place of a bool.
const BAD_SETATTR: [u32; 19] = [
    1, 0, 2, 100_003, 3, 2, 0, 0, 0, 0, 1, 0xaa000000, 2, 0, 0, 0, 0, 0, 0,
];

/// A call whose AUTH_SYS credential has a word behind its fields.
const LONG_CREDENTIAL: [u32; 18] = [
    1, 0, 2, 100_003, 3, 0, 1, 0x20, 1, 6, 0x636c6965, 0x6e740000, 0, 0, 0, 0, 0, 0,
];

/// The words of a record of the client's stream, and the byte and the reason of its fault.
const OF_A_CALL: [(&[u32], u32, Reason); 9] = [
    (&[], 0, Reason::Short),
    (
        &[5, 0, 2, 100_003, 3, 0, 0, 0, 0, 0, 0],
        40,
        Reason::Trailing,
    ),
    (&BAD_SETATTR, 48, Reason::BadBool),
    (&[5, 2, 2, 100_003, 3, 0, 0, 0, 0, 0], 4, Reason::BadEnum),
    (
        &[1, 0, 2, 100_003, 3, 0, 1, 0x191, 1, 6],
        28,
        Reason::TooLong,
    ),
    (&[1, 0, 3, 100_003, 3, 0, 0, 0, 0, 0], 8, Reason::RpcVersion),
    (&[1, 0, 2, 100_003, 3, 0, 6, 0, 0, 0], 24, Reason::Flavor),
    (&LONG_CREDENTIAL, 60, Reason::AuthLength),
    (&NULL_REPLY, 4, Reason::WrongSide),
];

#[test]
fn faults_of_a_call(rt: HostRuntime) {
    for (words, byte, reason) in OF_A_CALL {
        let bytes = ok(&rt, capture(rt.alloc(), &[words], &[]));
        let wanted = record_fault(Side::Client, 1, byte, reason);
        assert_refused(&rt, rt.alloc(), &bytes, wanted);
    }
}

#[test]
fn faults_of_a_pair(rt: HostRuntime) {
    let alone = ok(&rt, capture(rt.alloc(), &[], &[&NULL_REPLY]));
    let wanted = record_fault(Side::Server, 1, 0, Reason::NoCall);
    assert_refused(&rt, rt.alloc(), &alone, wanted);
    let mount = [5, 0, 2, 100_005, 3, 0, 0, 0, 0, 0];
    let two = ok(&rt, capture(rt.alloc(), &[&NULL_CALL, &mount], &[]));
    let wanted = record_fault(Side::Client, 2, 0, Reason::XidConflict);
    assert_refused(&rt, rt.alloc(), &two, wanted);
}
