//! Readers of a capture, and of messages as values.

use crate::samples::{COMMIT, MIXED, hashers};
use capture3::{Entries, Entry, Error, MemSource, Silent, parse};
use std::alloc::Global;
use std::process::Abort;

#[test]
fn a_capture_is_parsed(rt: HostRuntime) {
    is_parsed(&rt, rt.alloc(), &COMMIT);
}

#[test]
fn a_capture_of_version_2_is_parsed(rt: HostRuntime) {
    is_parsed(&rt, rt.alloc(), &MIXED);
}

fn is_parsed(rt: &impl Abort, alloc: Global, capture: &[u8]) {
    match parse(alloc, capture) {
        Ok(entries) => {
            assert_eq!(rt; entries.len(), 6);
            for entry in entries.iter() {
                message_is_read(rt, alloc, entry);
            }
        }
        Err(error) => assert_eq!(rt; error, Error::Memory),
    }
}

/// A call is read without memory. A reply whose reading memory was refused is read by a second call.
fn message_is_read(rt: &impl Abort, alloc: Global, entry: &Entry) {
    match entry {
        Entry::Call(kept) => assert_eq!(rt; kept.read(alloc).head.id, kept.id),
        Entry::Reply(kept) => {
            if kept.read(alloc).is_err() {
                assert!(rt; kept.read(alloc).is_ok());
            }
        }
        Entry::Begin | Entry::Turn | Entry::Close | Entry::End => {}
    }
}

#[test]
fn entries_are_read_one_by_one(rt: HostRuntime) {
    are_read(&rt, rt.alloc(), &COMMIT);
}

#[test]
fn entries_of_version_2_are_read_one_by_one(rt: HostRuntime) {
    are_read(&rt, rt.alloc(), &MIXED);
}

/// A reader whose allocation failed returns that for good.
fn are_read(rt: &impl Abort, alloc: Global, capture: &[u8]) {
    let mut source = MemSource::new(capture, 7, 0);
    let Ok(mut entries) = Entries::new(alloc, hashers().calls, &mut source) else {
        return;
    };
    for _ in 0..6 {
        if let Err(error) = entries.visit(&mut Silent) {
            assert_eq!(rt; error, Error::Memory);
            assert!(rt; entries.visit(&mut Silent).err() == Some(Error::Memory));
            return;
        }
    }
    assert!(rt; matches!(entries.visit(&mut Silent), Ok(None)));
}
