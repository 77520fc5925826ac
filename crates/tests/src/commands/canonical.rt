//! Numbers, sinks and canonical forms.

use crate::asserts::{assert_same, ok};
use crate::faults::file_fault;
use crate::samples::{NULL, NUMBERED_NULL, commits, hasher, hashers};
use canon3::{MemSink, Numbers, Sink, Summary, ToWrite, canon, write_all, write_both};
use capture3::{DeviceFailed, Error, MemSource};
use std::alloc::{AllocError, Global};
use std::hash::Hash;
use std::process::Abort;
use xdr3::Reason;

fn numbers_of<K: Copy + Eq + Hash>(rt: &HostRuntime, keys: [K; 4]) -> Result<[u32; 5], AllocError> {
    let mut numbers = Numbers::new(rt.alloc(), hasher());
    let [a, b, c, d] = keys;
    Ok([
        numbers.number_of(a)?,
        numbers.number_of(b)?,
        numbers.number_of(c)?,
        numbers.number_of(d)?,
        numbers.len(),
    ])
}

#[test]
fn numbers_of_words(rt: HostRuntime) {
    assert_same!(rt; ok(&rt, numbers_of(&rt, [5u32, 6, 5, 7])), [1, 2, 1, 3, 3]);
}

#[test]
fn numbers_of_verifiers(rt: HostRuntime) {
    let (u, v) = ([1u8, 2, 3, 4, 5, 6, 7, 8], [0u8; 8]);
    assert_same!(rt; ok(&rt, numbers_of(&rt, [u, v, u, v])), [1, 2, 1, 2, 2]);
}

#[test]
fn numbers_begin_anew(rt: HostRuntime) {
    let mut numbers = Numbers::new(rt.alloc(), hasher());
    assert_same!(rt; numbers.number_of(9u32), Ok(1));
    assert_same!(rt; numbers.number_of(4), Ok(2));
    numbers.clear();
    assert_same!(rt; numbers.len(), 0);
    assert_same!(rt; numbers.number_of(4), Ok(1));
}

#[test]
fn a_sink_in_memory_fails_without_room(rt: HostRuntime) {
    let mut sink = ok(&rt, MemSink::new(rt.alloc(), 3, 2, 0));
    assert_same!(rt; sink.write_some(b"abc"), Ok(2));
    assert_same!(rt; sink.write_some(b"cde"), Ok(1));
    assert_same!(rt; sink.write_some(b"de"), Err(DeviceFailed));
    assert_same!(rt; sink.bytes(), b"abc".as_slice());
    assert_same!(rt; sink.flush_all(), Ok(()));
    assert_same!(rt; sink.flushed(), b"abc".as_slice());
}

#[test]
fn a_sink_in_memory_fails_once(rt: HostRuntime) {
    let mut sink = ok(&rt, MemSink::new(rt.alloc(), 9, 9, 2));
    assert_same!(rt; sink.write_some(b"abc"), Ok(3));
    assert_same!(rt; sink.flush_all(), Err(DeviceFailed));
    assert_same!(rt; sink.write_some(b"de"), Ok(2));
    assert_same!(rt; sink.bytes(), b"abcde".as_slice());
    assert_same!(rt; sink.flushed(), b"".as_slice());
}

#[test]
fn a_sink_over_a_writer(rt: HostRuntime) {
    let mut sink = ToWrite::new(Vec::new(rt.alloc()));
    assert_same!(rt; sink.write_some(b"abc"), Ok(3));
    assert_same!(rt; sink.flush_all(), Ok(()));
    assert_same!(rt; sink.inner().as_slice(), b"abc".as_slice());
}

#[test]
fn all_bytes_in_pieces(rt: HostRuntime) {
    let mut sink = ok(&rt, MemSink::new(rt.alloc(), 7, 3, 0));
    assert_same!(rt; write_all(&mut sink, b"abcde"), Ok(()));
    assert_same!(rt; write_all(&mut sink, b"fgh"), Err(Error::Write));
    assert_same!(rt; sink.bytes(), b"abcdefg".as_slice());
    let mut both = ok(&rt, MemSink::new(rt.alloc(), 8, 3, 0));
    assert_same!(rt; write_both(&mut both, b"abcd", b"efg"), Ok(()));
    assert_same!(rt; write_both(&mut both, b"", b"hi"), Err(Error::Write));
    assert_same!(rt; both.bytes(), b"abcdefgh".as_slice());
}

// In blocks of 7 bytes, where the read with this number fails.
fn canon_of(
    rt: &HostRuntime,
    file: &[u8],
    fail: u64,
    sink: &mut MemSink,
) -> Result<Summary, Error> {
    canon(
        rt.alloc(),
        hashers(),
        &mut MemSource::new(file, 7, fail),
        sink,
    )
}

#[test]
fn a_capture_in_its_canonical_form(rt: HostRuntime) {
    let (bytes, numbered) = ok(&rt, commits(rt.alloc()));
    let mut sink = ok(&rt, MemSink::new(rt.alloc(), 999, 9, 0));
    let summary = Summary {
        connections: 1,
        calls: 1,
        replies: 1,
        handles: 1,
    };
    assert_same!(rt; canon_of(&rt, &bytes, 0, &mut sink), Ok(summary));
    assert_same!(rt; sink.bytes(), numbered.as_slice());
    assert_same!(rt; sink.flushed(), numbered.as_slice());
}

#[test]
fn a_capture_that_is_cut_up_to_there(rt: HostRuntime) {
    let (mut bytes, mut numbered) = ok(&rt, commits(rt.alloc()));
    let mut sink = ok(&rt, MemSink::new(rt.alloc(), 999, 9, 0));
    bytes.truncate(140);
    numbered.truncate(140);
    assert_same!(rt;
        canon_of(&rt, &bytes, 0, &mut sink),
        Err(file_fault(140, Reason::CaptureCut))
    );
    assert_same!(rt; sink.bytes(), numbered.as_slice());
}

#[test]
fn entries_before_a_failed_read(rt: HostRuntime) {
    let (bytes, mut numbered) = ok(&rt, commits(rt.alloc()));
    numbered.truncate(12);
    let mut sink = ok(&rt, MemSink::new(rt.alloc(), 999, 9, 0));
    assert_same!(rt; canon_of(&rt, &bytes, 12, &mut sink), Err(Error::Read));
    assert_same!(rt; sink.bytes(), numbered.as_slice());
}

#[test]
fn a_front_where_room_is_wanting(rt: HostRuntime) {
    let (bytes, mut numbered) = ok(&rt, commits(rt.alloc()));
    numbered.truncate(50);
    let mut sink = ok(&rt, MemSink::new(rt.alloc(), 50, 9, 0));
    assert_same!(rt; canon_of(&rt, &bytes, 0, &mut sink), Err(Error::Write));
    assert_same!(rt; sink.bytes(), numbered.as_slice());
}

// Seven writes come before it.
#[test]
fn a_failed_flush(rt: HostRuntime) {
    let (bytes, numbered) = ok(&rt, commits(rt.alloc()));
    let mut sink = ok(&rt, MemSink::new(rt.alloc(), 999, 999, 8));
    assert_same!(rt; canon_of(&rt, &bytes, 0, &mut sink), Err(Error::Write));
    assert_same!(rt; sink.bytes(), numbered.as_slice());
}

// What a command does with the NULL capture, read and written a byte a call.

/// How many bytes of the form the entries have that this many bytes of the capture reach: the begin
/// of the connection, the call, the turn to the server's stream, the reply, and the close.
fn due_within(read: usize) -> usize {
    let mut due = 0;
    for end in [12, 60, 64, 96, 100] {
        if end <= read {
            due = end;
        }
    }
    due
}

/// Has a command work in blocks of this size, where a read or a write with this number fails, and
/// checks its answer and how many bytes of the form were written.
fn assert_written(
    rt: &impl Abort,
    alloc: Global,
    block: usize,
    failing: (u64, u64),
    wanted: (Error, usize),
) {
    let (read, write) = failing;
    let mut sink = ok(rt, MemSink::new(alloc, 999, 1, write));
    let mut source = MemSource::new(&NULL, block, read);
    let answer = canon(alloc, hashers(), &mut source, &mut sink);
    assert_same!(rt; (failing, answer), (failing, Err(wanted.0)));
    assert_same!(rt; (failing, sink.bytes()), (failing, &NUMBERED_NULL[..wanted.1.min(104)]));
}

#[test]
fn each_read_of_a_byte_fails(rt: HostRuntime) {
    for fail in 1..106usize {
        let due = due_within(fail - 1);
        assert_written(&rt, rt.alloc(), 1, (fail as u64, 0), (Error::Read, due));
    }
    assert_written(&rt, rt.alloc(), 64, (2, 0), (Error::Read, 64));
}

/// The 105th call is the flush.
#[test]
fn each_write_of_a_byte_fails(rt: HostRuntime) {
    for fail in 1..106usize {
        assert_written(
            &rt,
            rt.alloc(),
            1,
            (0, fail as u64),
            (Error::Write, fail - 1),
        );
    }
}
