//! Streams packed to captures in memory.

ghost use Rattle.std.specs.Prelude.{◌<◌, false, None};

use crate::asserts::{assert_holds, assert_same, ok, some};
use crate::faults::file_fault;
use crate::samples::{NULL, client_stream, server_stream};
use canon3::{MemSink, Sink};
use capture3::{DeviceFailed, Error, MemSource, Source};
use packing3::Packing;
use std::alloc::{AllocError, Global};
use std::process::Abort;
use xdr3::Reason;

// Into so much room, where the write or flush with this number fails.
fn packing(rt: &impl Abort, alloc: Global, room: usize, fail: u64) -> Packing<MemSink> {
    let sink = ok(rt, MemSink::new(alloc, room, 1_000_000, fail));
    some(rt, Packing::start(alloc, sink).ok())
}

// Adds the streams from sources that give at most so many bytes a read.
fn add(
    packing: &mut Packing<MemSink>,
    client: &[u8],
    server: &[u8],
    block: usize,
) -> Result<(), Error>
    requires { 0 < block }
{
    packing.add(
        &mut MemSource::new(client, block, 0),
        &mut MemSource::new(server, block, 0),
    )
}

#[test]
fn two_empty_streams(rt: HostRuntime) {
    let mut packing = packing(&rt, rt.alloc(), 99, 0);
    assert_same!(rt; packing.sink().bytes(), b"NFS3CAP1".as_slice());
    ok(&rt, add(&mut packing, &[], &[], 1));
    let wanted = b"NFS3CAP1\0\0\0\x01\0\0\0\0\0\0\0\0\0\0\0\0";
    assert_same!(rt; packing.sink().bytes(), &wanted[..20]);
    ok(&rt, packing.finish());
    assert_same!(rt; packing.sink().bytes(), wanted.as_slice());
}

#[test]
fn a_call_and_its_reply(rt: HostRuntime) {
    for block in [1, 3, 99] {
        let mut packing = packing(&rt, rt.alloc(), 999, 0);
        ok(
            &rt,
            add(&mut packing, client_stream(), server_stream(), block),
        );
        ok(&rt, packing.finish());
        assert_same!(rt; packing.sink().bytes(), NULL.as_slice());
    }
}

fn sevens(alloc: Global, count: usize) -> Result<Vec<u8>, AllocError> {
    vec![in alloc; 7; count]
}

// A stream of 65,537 bytes has a full chunk and one of one byte, also where a read gives one byte.
#[test]
fn a_stream_of_two_chunks(rt: HostRuntime) {
    let stream = ok(&rt, sevens(rt.alloc(), 65_537));
    for block in [1, 65_535, 65_536, 65_537] {
        let mut packing = packing(&rt, rt.alloc(), 70_000, 0);
        ok(&rt, add(&mut packing, &stream, &[], block));
        ok(&rt, packing.finish());
        let bytes = packing.sink().bytes();
        assert_holds!(rt; bytes.len() == 65_569);
        assert_same!(rt; &bytes[8..18], [0, 0, 0, 1, 0, 1, 0, 0, 7, 7].as_slice());
        let wanted = [7, 7, 0, 0, 0, 1, 7, 0, 0, 0, 0, 0, 0, 0, 0, 0, 0, 0, 0];
        assert_same!(rt; &bytes[65_550..], wanted.as_slice());
    }
}

// A stream that fills its chunks has no empty one.
#[test]
fn a_full_chunk(rt: HostRuntime) {
    let stream = ok(&rt, sevens(rt.alloc(), 65_536));
    let mut packing = packing(&rt, rt.alloc(), 70_000, 0);
    ok(&rt, add(&mut packing, &[], &stream, 65_536));
    let bytes = packing.sink().bytes();
    assert_holds!(rt; bytes.len() == 65_560);
    let wanted = [0, 0, 0, 0, 0, 1, 0, 0, 7];
    assert_same!(rt; &bytes[12..21], wanted.as_slice());
    assert_same!(rt; &bytes[65_555..], [7, 0, 0, 0, 0].as_slice());
}

// The same is answered again, and nothing is read or written any more.
fn is_over(
    rt: &impl Abort,
    alloc: Global,
    packing: &mut Packing<MemSink>,
    answer: Result<(), Error>,
) {
    let written = ok(rt, packing.sink().bytes().to_vec(alloc));
    let mut client = MemSource::new(client_stream(), 9, 0);
    let mut server = MemSource::new(server_stream(), 9, 0);
    assert_same!(*rt; packing.add(&mut client, &mut server), answer);
    assert_same!(*rt; packing.finish(), answer);
    assert_same!(*rt; packing.sink().bytes(), written.as_slice());
    let mut front = [0; 4];
    assert_same!(*rt; client.read_some(&mut front), Ok(4));
    assert_same!(*rt; front, [0x80, 0, 0, 0x28]);
}

#[test]
fn a_finished_packing_is_over(rt: HostRuntime) {
    let mut packing = packing(&rt, rt.alloc(), 999, 0);
    ok(&rt, add(&mut packing, client_stream(), server_stream(), 9));
    ok(&rt, packing.finish());
    assert_same!(rt; packing.sink().bytes(), NULL.as_slice());
    is_over(&rt, rt.alloc(), &mut packing, Ok(()));
}

// The client stream of 44 bytes takes four reads of at most 15 bytes, and the server stream of 28
// bytes takes three: of the last of each nothing is given.
#[test]
fn a_read_fails_at_each_call(rt: HostRuntime) {
    for fail in 1..8u64 {
        let mut packing = packing(&rt, rt.alloc(), 999, 0);
        let mut client = MemSource::new(client_stream(), 15, fail);
        let mut server = MemSource::new(server_stream(), 15, fail.saturating_sub(4));
        assert_same!(rt; packing.add(&mut client, &mut server), Err(Error::Read));
        let wanted = if fail < 5 { 12 } else { 64 };
        assert_same!(rt; packing.sink().bytes(), &NULL[..wanted]);
        is_over(&rt, rt.alloc(), &mut packing, Err(Error::Read));
    }
}

// One pair, and the end.
fn pack_pair(packing: &mut Packing<MemSink>) -> Result<(), Error> {
    add(packing, client_stream(), server_stream(), 99)?;
    packing.finish()
}

// The calls of the sink: the magic, the word 1, for each stream a length word, its bytes and the
// word 0, the last word 0, and the flush.
#[test]
fn a_write_fails_at_each_call(rt: HostRuntime) {
    let written = [8, 12, 16, 60, 64, 68, 96, 100, 104];
    for (fail, wanted) in written.iter().enumerate() {
        let mut packing = packing(&rt, rt.alloc(), 999, fail as u64 + 2);
        assert_same!(rt; pack_pair(&mut packing), Err(Error::Write));
        assert_same!(rt; packing.sink().bytes().len(), *wanted);
        is_over(&rt, rt.alloc(), &mut packing, Err(Error::Write));
    }
}

#[test]
fn a_magic_that_is_not_written(rt: HostRuntime) {
    let sink = ok(&rt, MemSink::new(rt.alloc(), 5, 9, 0));
    let (error, sink) = some(&rt, Packing::start(rt.alloc(), sink).err());
    assert_same!(rt; error, Error::Write);
    assert_same!(rt; sink.bytes(), b"NFS3C".as_slice());
}

/// A source without end.
#[derive(Drop)]
struct Endless;

impl Source for Endless {
    ghost observed = { λ s. record { left = None; given = None; is_spent = false } };

    ghost failures = { λ s. 0 };

    fn read_some(&mut self, buf: &mut [u8]) -> Result<usize, DeviceFailed> {
        Ok(buf.len())
    }
}

/// A sink that counts its bytes.
#[derive(Drop)]
struct Counter {
    bytes: u64,
}

impl Sink for Counter {
    ghost written = { λ s. None };

    ghost flushed = { λ s. None };

    ghost failures = { λ s. 0 };

    fn write_some(&mut self, piece: &[u8]) -> Result<usize, DeviceFailed> {
        self.bytes = self.bytes.saturating_add(piece.len() as u64);
        Ok(piece.len())
    }

    fn flush_all(&mut self) -> Result<(), DeviceFailed> {
        Ok(())
    }
}

// After 16,384 full chunks.
#[test]
fn a_stream_without_end(rt: HostRuntime) {
    let start = Packing::start(rt.alloc(), Counter { bytes: 0 });
    let mut packing = some(&rt, start.ok());
    let result = Err(file_fault(1_073_807_372, Reason::TooManyBytes));
    assert_same!(rt; packing.add(&mut Endless, &mut Endless), result);
    assert_same!(rt; packing.sink().bytes, 1_073_807_372);
    assert_same!(rt; packing.finish(), result);
}

#[test]
fn one_connection_too_many(rt: HostRuntime) {
    let mut packing = packing(&rt, rt.alloc(), 800_000, 0);
    for _ in 0..65_535 {
        ok(&rt, add(&mut packing, &[], &[], 1));
    }
    let result = Err(file_fault(786_428, Reason::TooManyConnections));
    assert_same!(rt; add(&mut packing, client_stream(), server_stream(), 9), result);
    assert_same!(rt; packing.sink().bytes().len(), 786_428);
    is_over(&rt, rt.alloc(), &mut packing, result);
}
