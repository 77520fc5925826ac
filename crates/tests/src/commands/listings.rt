//! Listings of captures in memory.

use crate::asserts::{assert_same, ok};
use crate::faults::file_fault;
use crate::samples::hashers;
use canon3::{MemSink, MessageCounts, Summary};
use capture3::{Error, MemSource};
use listing3::{list, show};
use std::alloc::{AllocError, Global};
use std::process::Abort;
use xdr3::Reason;

/// MNT of `/x` and its reply, and in another connection GETATTR of the handle. In hexadecimal.
static CAPTURE: [&str; 9] = [
    "4e46533343415031",
    "00000001",
    "0000003480000030000000030000000000000002000186a50000000300000001000000000000000000000000",
    "00000000000000022f780000",
    "0000000000000034800000300000000300000001000000000000000000000000000000000000000000000008",
    "01020304050607080000000100000001",
    "0000000000000001",
    "0000003880000034000000040000000000000002000186a30000000300000001000000000000000000000000",
    "00000000000000080102030405060708000000000000000000000000",
];

static LINES: [&str; 6] = [
    "1 client 1 xid=3 MOUNTPROC3_MNT mtype=0 rpcvers=2 prog=100005 vers=3 proc=1 cred_flavor=0",
    " cred_body= verf_flavor=0 verf_body= dirpath=\"/x\"\n",
    "1 server 1 xid=3 MOUNTPROC3_MNT mtype=1 reply_stat=0 verf_flavor=0 verf_body= accept_stat=0",
    " status=0 fh=0102030405060708 flavors=1 flavor=1\n",
    "2 client 1 xid=4 NFSPROC3_GETATTR mtype=0 rpcvers=2 prog=100003 vers=3 proc=1 cred_flavor=0",
    " cred_body= verf_flavor=0 verf_body= fh=0102030405060708\n",
];

fn capture(rt: &impl Abort, alloc: Global) -> Vec<u8> {
    let mut bytes = Vec::new(alloc);
    for digits in CAPTURE {
        let part = ok(rt, hex::decode(alloc, digits));
        ok(rt, bytes.extend_from_slice(&part));
    }
    bytes
}

fn lines(alloc: Global) -> Result<Vec<u8>, AllocError> {
    let mut text = Vec::new(alloc);
    for part in LINES {
        text.extend_from_slice(part.as_bytes())?;
    }
    Ok(text)
}

// In blocks of 7 bytes, where the read with this number fails.
fn list_capture(
    rt: &HostRuntime,
    file: &[u8],
    fail: u64,
    sink: &mut MemSink,
) -> Result<Summary, Error> {
    show(
        rt.alloc(),
        hashers(),
        &mut MemSource::new(file, 7, fail),
        sink,
    )
}

#[test]
fn lines_of_two_connections(rt: HostRuntime) {
    let bytes = capture(&rt, rt.alloc());
    let mut sink = ok(&rt, MemSink::new(rt.alloc(), 999, 999, 0));
    let summary = Summary {
        connections: 2,
        calls: 2,
        replies: 1,
        handles: 1,
    };
    assert_same!(rt; list_capture(&rt, &bytes, 0, &mut sink), Ok(summary));
    assert_same!(rt; sink.bytes(), ok(&rt, lines(rt.alloc())).as_slice());
}

#[test]
fn lines_without_a_count_of_handles(rt: HostRuntime) {
    let bytes = capture(&rt, rt.alloc());
    let mut sink = ok(&rt, MemSink::new(rt.alloc(), 999, 999, 0));
    let mut source = MemSource::new(&bytes, 7, 0);
    let counts = MessageCounts {
        connections: 2,
        calls: 2,
        replies: 1,
    };
    let listed = list(rt.alloc(), hashers().calls, &mut source, &mut sink);
    assert_same!(rt; listed, Ok(counts));
    assert_same!(rt; sink.bytes(), ok(&rt, lines(rt.alloc())).as_slice());
}

#[test]
fn one_byte_a_read_and_one_a_write(rt: HostRuntime) {
    let bytes = capture(&rt, rt.alloc());
    let mut sink = ok(&rt, MemSink::new(rt.alloc(), 999, 1, 0));
    let mut source = MemSource::new(&bytes, 1, 0);
    let summary = ok(&rt, show(rt.alloc(), hashers(), &mut source, &mut sink));
    assert_same!(rt; summary.calls, 2);
    assert_same!(rt; sink.bytes(), ok(&rt, lines(rt.alloc())).as_slice());
}

// The second line is written before the capture is found to be cut.
#[test]
fn the_lines_before_a_fault(rt: HostRuntime) {
    let mut bytes = capture(&rt, rt.alloc());
    bytes.truncate(150);
    let mut sink = ok(&rt, MemSink::new(rt.alloc(), 999, 9, 0));
    assert_same!(rt;
        list_capture(&rt, &bytes, 0, &mut sink),
        Err(file_fault(150, Reason::CaptureCut))
    );
    let mut text = ok(&rt, lines(rt.alloc()));
    text.truncate(LINES[0].len() + LINES[1].len() + LINES[2].len() + LINES[3].len());
    assert_same!(rt; sink.bytes(), text.as_slice());
}

// Ten reads of 7 bytes have the first call, which ends at byte 68.
#[test]
fn the_lines_before_a_failed_read(rt: HostRuntime) {
    let bytes = capture(&rt, rt.alloc());
    let mut sink = ok(&rt, MemSink::new(rt.alloc(), 999, 9, 0));
    assert_same!(rt; list_capture(&rt, &bytes, 11, &mut sink), Err(Error::Read));
    let mut text = ok(&rt, lines(rt.alloc()));
    text.truncate(LINES[0].len() + LINES[1].len());
    assert_same!(rt; sink.bytes(), text.as_slice());
}

#[test]
fn a_front_where_room_is_wanting(rt: HostRuntime) {
    let bytes = capture(&rt, rt.alloc());
    let mut sink = ok(&rt, MemSink::new(rt.alloc(), 200, 9, 0));
    assert_same!(rt; list_capture(&rt, &bytes, 0, &mut sink), Err(Error::Write));
    let mut text = ok(&rt, lines(rt.alloc()));
    text.truncate(200);
    assert_same!(rt; sink.bytes(), text.as_slice());
}

// Two writes for each line come before it.
#[test]
fn a_failed_flush(rt: HostRuntime) {
    let bytes = capture(&rt, rt.alloc());
    let mut sink = ok(&rt, MemSink::new(rt.alloc(), 999, 999, 7));
    assert_same!(rt; list_capture(&rt, &bytes, 0, &mut sink), Err(Error::Write));
    assert_same!(rt; sink.bytes(), ok(&rt, lines(rt.alloc())).as_slice());
}
