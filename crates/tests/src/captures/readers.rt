//! Readers of captures, and what they hand out, lend and keep.

use crate::asserts::{assert_holds, assert_same, ok};
use crate::faults::file_fault;
use crate::samples::{NULL, hasher, nfs};
use capture3::{
    DeviceFailed, Entries, Entry, EntryRef, Error, FromRead, LentEntry, MemSource, Silent, Source,
    pack_chunk, pack_header, parse,
};
use std::alloc::Global;
use std::hash::{BuildHasherDefault, FoldHasher};
use std::io::{self, ErrorKind, Read};
use std::process::Abort;
use xdr3::{Reason, Writer};

pub(crate) fn name(entry: &Entry) -> &'static str {
    match entry {
        Entry::Begin => "begin",
        Entry::Call(_) => "call",
        Entry::Turn => "turn",
        Entry::Reply(_) => "reply",
        Entry::Close => "close",
        Entry::End => "end",
    }
}

pub(crate) fn name_of(entry: LentEntry<'_>) -> &'static str {
    match entry {
        LentEntry::Begin => "begin",
        LentEntry::Call(_) => "call",
        LentEntry::Turn => "turn",
        LentEntry::Reply(_) => "reply",
        LentEntry::Close => "close",
        LentEntry::End => "end",
    }
}

#[test]
fn a_call_and_its_reply(rt: HostRuntime) {
    let entries = ok(&rt, parse(rt.alloc(), &NULL));
    let names = ["begin", "call", "turn", "reply", "close", "end"];
    assert_same!(rt; entries.len(), names.len());
    for (entry, wanted) in entries.iter().zip(names.iter()) {
        assert_same!(rt; name(entry), *wanted);
        match entry {
            Entry::Call(kept) => assert_holds!(rt; kept.id == nfs(0)),
            Entry::Reply(kept) => assert_holds!(rt; kept.id == nfs(0)),
            _ => {}
        }
    }
}

#[test]
fn a_shorter_prefix_is_cut(rt: HostRuntime) {
    for size in 0..NULL.len() {
        match parse(rt.alloc(), &NULL[..size]) {
            Ok(_) => panic!(rt; "{size} bytes are whole"),
            Err(error) => {
                assert_same!(rt; error, file_fault(size, Reason::CaptureCut));
            }
        }
    }
}

/// Reads up to 16 bytes at a time, each read with its answer.
fn read_all<S: Source>(rt: &impl Abort, source: &mut S, answers: &[Result<usize, DeviceFailed>]) {
    let mut buf = [0; 16];
    for answer in answers {
        assert_same!(rt; source.read_some(&mut buf), *answer);
    }
}

#[test]
fn sources(rt: HostRuntime) {
    let bytes = &NULL[..20];
    let blocks = [Ok(7), Err(DeviceFailed), Ok(7), Ok(6), Ok(0), Ok(0)];
    read_all(&rt, &mut MemSource::new(bytes, 7, 2), &blocks);
    read_all(&rt, &mut FromRead::new(bytes), &[Ok(16), Ok(4), Ok(0)]);
}

/// A stream whose reads give 3 bytes each but for the first, which fails.
#[derive(Drop)]
struct Failing {
    reads: u32,
}

impl Read for Failing {
    fn read(&mut self, buf: &mut [u8]) -> io::Result<usize> {
        let before = self.reads;
        self.reads = before.saturating_add(1);
        if before == 0 {
            Err(io::Error::from(ErrorKind::Interrupted))
        } else {
            Ok(buf.len().min(3))
        }
    }
}

/// A read that fails is not tried again by the source, and the next one is.
#[test]
fn a_stream_that_fails_once(rt: HostRuntime) {
    let mut source = FromRead::new(Failing { reads: 0 });
    read_all(&rt, &mut source, &[Err(DeviceFailed), Ok(3), Ok(3)]);
}

// The entries of the worked capture, and how many of its bytes each needs.
pub(crate) const NAMES: [&str; 6] = ["begin", "call", "turn", "reply", "close", "end"];

const NEEDED: [usize; 5] = [12, 60, 64, 96, 100];

/// A reader of the source, with a block of its own.
pub(crate) fn reader<'r, R: Source>(
    rt: &impl Abort,
    alloc: Global,
    source: &'r mut R,
) -> Entries<'r, R, BuildHasherDefault<FoldHasher>> {
    Entries::new(alloc, hasher(), source).expect(rt, "no memory")
}

/// The names of the entries up to the end or to an error. Each is answered again.
pub(crate) fn read_names<S: Source>(
    rt: &impl Abort,
    alloc: Global,
    source: &mut S,
) -> (Vec<&'static str>, Option<Error>) {
    let mut entries = reader(rt, alloc, source);
    let mut names = Vec::new(alloc);
    for _ in 0..10 {
        match entries.visit(&mut Silent) {
            Ok(Some(entry)) => ok(&rt, names.push(name_of(entry))),
            Ok(None) => {
                assert_holds!(rt; matches!(entries.visit(&mut Silent), Ok(None)));
                return (names, None);
            }
            Err(error) => {
                match entries.visit(&mut Silent) {
                    Ok(_) => panic!(rt; "goes on after {error:?}"),
                    Err(again) => assert_same!(rt; again, error),
                }
                return (names, Some(error));
            }
        }
    }
    panic!(rt; "ten entries")
}

/// The names are those of the entries that so many bytes of the capture reach, without its end.
fn assert_names_within(rt: &impl Abort, names: &[&'static str], size: usize) {
    let count = NEEDED.iter().filter(|needed| **needed <= size).count();
    assert_same!(rt; (size, names.len()), (size, count));
    for (got, wanted) in names.iter().zip(NAMES.iter()) {
        assert_same!(rt; (size, *got), (size, *wanted));
    }
}

#[test]
fn entries_in_blocks(rt: HostRuntime) {
    for block in [1, 2, 3, 7, 60, 104, 65_536] {
        let (names, error) = read_names(&rt, rt.alloc(), &mut MemSource::new(&NULL, block, 0));
        assert_same!(rt; (block, names.as_slice()), (block, NAMES.as_slice()));
        assert_same!(rt; error, None);
    }
    let (names, error) = read_names(&rt, rt.alloc(), &mut FromRead::new(NULL.as_slice()));
    assert_same!(rt; names.as_slice(), NAMES.as_slice());
    assert_same!(rt; error, None);
}

/// A message that is told to a visitor that writes is its body again.
pub(crate) fn message_is_told(rt: &impl Abort, alloc: Global, lent: LentEntry<'_>) {
    let mut told = Writer::new(alloc);
    match lent {
        LentEntry::Call(call) => {
            assert_same!(rt; call.xid(), 0xdead_beef);
            ok(rt, call.scan(&mut told));
            assert_holds!(rt; told.bytes() == call.body);
        }
        LentEntry::Reply(reply) => {
            assert_same!(rt; reply.xid(), 0xdead_beef);
            ok(rt, reply.scan(&mut told));
            assert_holds!(rt; told.bytes() == reply.body);
        }
        LentEntry::Begin | LentEntry::Turn | LentEntry::Close | LentEntry::End => {}
    }
}

/// A kept message is read as a value with its xid.
pub(crate) fn kept_is_read(rt: &impl Abort, alloc: Global, entry: &Entry) {
    match entry {
        Entry::Call(kept) => assert_same!(rt; kept.read(alloc).xid, 0xdead_beef),
        Entry::Reply(kept) => assert_same!(rt; ok(rt, kept.read(alloc)).xid, 0xdead_beef),
        Entry::Begin | Entry::Turn | Entry::Close | Entry::End => {}
    }
}

/// The entries before a failed read, here of byte 70, are lent and kept.
#[test]
fn lent_messages_are_told(rt: HostRuntime) {
    let mut source = MemSource::new(&NULL, 10, 8);
    let mut entries = reader(&rt, rt.alloc(), &mut source);
    for wanted in ["begin", "call", "turn"] {
        let Some(lent) = ok(&rt, entries.visit(&mut Silent)) else {
            panic!(rt; "none is lent")
        };
        assert_same!(rt; name(&ok(&rt, lent.keep(rt.alloc()))), wanted);
        message_is_told(&rt, rt.alloc(), lent);
    }
    assert_holds!(rt; entries.visit(&mut Silent).is_err());
}

/// Each entry is lent with its message: a call as its value, a reply by its body.
#[test]
fn entries_as_values(rt: HostRuntime) {
    let mut source = MemSource::new(&NULL, 10, 0);
    let mut entries = reader(&rt, rt.alloc(), &mut source);
    let mut messages = 0_u32;
    while let Some(entry) = ok(&rt, entries.next()) {
        let (xid, id) = match entry {
            EntryRef::Call(call) => (call.xid, call.head.id),
            EntryRef::Reply(reply) => (ok(&rt, reply.read(rt.alloc())).xid, reply.id),
            EntryRef::Begin | EntryRef::Turn | EntryRef::Close | EntryRef::End => continue,
        };
        assert_same!(rt; xid, 0xdead_beef);
        assert_holds!(rt; id == nfs(0));
        messages = messages.saturating_add(1);
    }
    assert_same!(rt; messages, 2);
    assert_holds!(rt; matches!(entries.next(), Ok(None)));
}

/// A visitor that writes what it is told writes the call's body, bytes 20 to 59, and the reply's, bytes 72
/// to 95, and between them nothing.
#[test]
fn messages_are_told_one_by_one(rt: HostRuntime) {
    let mut source = MemSource::new(&NULL, 5, 0);
    let mut entries = reader(&rt, rt.alloc(), &mut source);
    for wanted in NAMES {
        let mut told = Writer::new(rt.alloc());
        let Some(entry) = ok(&rt, entries.visit(&mut told)) else {
            panic!(rt; "too few entries")
        };
        assert_same!(rt; name_of(entry), wanted);
        match entry {
            LentEntry::Call(call) => {
                assert_holds!(rt; call.id == nfs(0));
                assert_holds!(rt; told.bytes() == &NULL[20..60]);
            }
            LentEntry::Reply(reply) => {
                assert_holds!(rt; reply.id == nfs(0));
                assert_holds!(rt; told.bytes() == &NULL[72..96]);
            }
            _ => assert_holds!(rt; told.bytes().is_empty()),
        }
    }
}

#[test]
fn a_read_fails_at_each_call(rt: HostRuntime) {
    for fail in 1..15usize {
        let mut source = MemSource::new(&NULL, 8, fail as u64);
        let (names, error) = read_names(&rt, rt.alloc(), &mut source);
        let given = 8 * (fail - 1);
        assert_names_within(&rt, &names, given);
        assert_same!(rt; error, Some(Error::Read));
    }
}

#[test]
fn entries_of_a_shorter_prefix(rt: HostRuntime) {
    for size in 0..NULL.len() {
        let (names, error) = read_names(&rt, rt.alloc(), &mut MemSource::new(&NULL[..size], 5, 0));
        assert_names_within(&rt, &names, size);
        assert_same!(rt; error, Some(file_fault(size, Reason::CaptureCut)));
    }
}

#[test]
fn a_byte_after_the_end(rt: HostRuntime) {
    let mut bytes = ok(&rt, Vec::from_slice(rt.alloc(), &NULL));
    ok(&rt, bytes.push(0));
    for block in [1, 104, 105] {
        let (names, error) = read_names(&rt, rt.alloc(), &mut MemSource::new(&bytes, block, 0));
        assert_same!(rt; names.as_slice(), &NAMES[..5]);
        assert_same!(rt; error, Some(file_fault(104, Reason::AfterEnd)));
    }
}

/// A connection of 20,000 calls of NULL, each with an xid of its own.
#[test]
fn calls_with_many_xids(rt: HostRuntime) {
    let mut file = ok(&rt, Vec::from_slice(rt.alloc(), &NULL[..12]));
    for xid in 0..20_000_u32 {
        // the lengths of the chunk and of the fragment, the xid, and the rest of the call
        ok(&rt, file.extend_from_slice(&NULL[12..20]));
        ok(&rt, file.extend_from_slice(&xid.to_be_bytes()));
        ok(&rt, file.extend_from_slice(&NULL[24..60]));
    }
    // no replies, and no more connections
    ok(&rt, file.extend_from_slice(&[0; 12]));
    let mut source = MemSource::new(&file, 65_536, 0);
    let mut entries = reader(&rt, rt.alloc(), &mut source);
    let mut calls = 0_u32;
    for _ in 0..20_004 {
        if let Some(LentEntry::Call(_)) = ok(&rt, entries.visit(&mut Silent)) {
            calls = calls.saturating_add(1);
        }
    }
    assert_same!(rt; calls, 20_000);
    assert_holds!(rt; matches!(entries.visit(&mut Silent), Ok(None)));
}

#[test]
fn magic_and_words(rt: HostRuntime) {
    assert_same!(rt;
        pack_header(),
        [0x4e, 0x46, 0x53, 0x33, 0x43, 0x41, 0x50, 0x31]
    );
    assert_same!(rt; pack_chunk(0), [0, 0, 0, 0]);
    assert_same!(rt; pack_chunk(1), [0, 0, 0, 1]);
    assert_same!(rt; pack_chunk(0x0102_0304), [1, 2, 3, 4]);
    assert_same!(rt; pack_chunk(0xffff_ffff), [0xff, 0xff, 0xff, 0xff]);
}
