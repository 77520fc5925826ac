//! The commands' calls. At most one growth is refused in a test, so of two runs one has its whole answer.

use crate::samples::{COMMIT, MIXED, hashers};
use canon3::{MemSink, Sink, Summary, Verdict, canon, check, same};
use capture3::{Error, MemSource};
use line3::{Job, LineFault, job};
use listing3::show;
use packing3::Packing;
use std::alloc::Global;
use std::process::Abort;
use std::test::Fail;

const COUNTS: Summary = Summary {
    connections: 1,
    calls: 1,
    replies: 1,
    handles: 1,
};

/// The answer of a command that may write, and what it wrote.
pub(crate) type Run = (Result<Summary, Error>, MemSink);

/// The same answer and bytes in both runs, or memory ran out in one after a front of what the other wrote.
pub(crate) fn agree(rt: &impl Abort, first: &Run, second: &Run) {
    let (refused, whole) = if first.0.is_ok() {
        (second, first)
    } else {
        (first, second)
    };
    assert_eq!(rt; whole.0, Ok(COUNTS));
    let (front, bytes) = (refused.1.bytes(), whole.1.bytes());
    if refused.0.is_ok() {
        assert_eq!(rt; front, bytes);
    } else {
        assert_eq!(rt; refused.0, Err(Error::Memory));
        assert!(rt; bytes.starts_with(front));
    }
}

#[test]
fn a_capture_is_checked(rt: HostRuntime) {
    is_checked(&rt, rt.alloc(), &COMMIT);
}

#[test]
fn a_capture_of_version_2_is_checked(rt: HostRuntime) {
    is_checked(&rt, rt.alloc(), &MIXED);
}

fn is_checked(rt: &impl Abort, alloc: Global, capture: &[u8]) {
    let mut source = MemSource::new(capture, 50, 0);
    let answer = check(alloc, hashers(), &mut source);
    assert!(rt; answer == Ok(COUNTS) || answer == Err(Error::Memory));
}

fn canonical(rt: &HostRuntime, capture: &[u8], mut sink: MemSink) -> Run {
    let mut source = MemSource::new(capture, 50, 0);
    (canon(rt.alloc(), hashers(), &mut source, &mut sink), sink)
}

#[test]
fn a_canonical_form_is_written(rt: HostRuntime) {
    let (Ok(first), Ok(second)) = (
        MemSink::new(rt.alloc(), 999, 999, 0),
        MemSink::new(rt.alloc(), 999, 999, 0),
    ) else {
        return;
    };
    agree(
        &rt,
        &canonical(&rt, &COMMIT, first),
        &canonical(&rt, &COMMIT, second),
    );
}

/// It has one form with the capture of version 1.
#[test]
fn a_canonical_form_of_version_2_is_written(rt: HostRuntime) {
    let (Ok(first), Ok(second)) = (
        MemSink::new(rt.alloc(), 999, 999, 0),
        MemSink::new(rt.alloc(), 999, 999, 0),
    ) else {
        return;
    };
    agree(
        &rt,
        &canonical(&rt, &MIXED, first),
        &canonical(&rt, &COMMIT, second),
    );
}

fn list_capture(rt: &HostRuntime, capture: &[u8], mut sink: MemSink) -> Run {
    let mut source = MemSource::new(capture, 50, 0);
    (show(rt.alloc(), hashers(), &mut source, &mut sink), sink)
}

#[test]
fn a_listing_is_written(rt: HostRuntime) {
    let (Ok(first), Ok(second)) = (
        MemSink::new(rt.alloc(), 999, 999, 0),
        MemSink::new(rt.alloc(), 999, 999, 0),
    ) else {
        return;
    };
    agree(
        &rt,
        &list_capture(&rt, &COMMIT, first),
        &list_capture(&rt, &COMMIT, second),
    );
}

#[test]
fn a_listing_of_version_2_is_written(rt: HostRuntime) {
    let (Ok(first), Ok(second)) = (
        MemSink::new(rt.alloc(), 999, 999, 0),
        MemSink::new(rt.alloc(), 999, 999, 0),
    ) else {
        return;
    };
    agree(
        &rt,
        &list_capture(&rt, &MIXED, first),
        &list_capture(&rt, &COMMIT, second),
    );
}

#[test]
fn a_capture_is_compared_with_itself(rt: HostRuntime) {
    are_the_same(&rt, rt.alloc(), &COMMIT, &COMMIT);
}

#[test]
fn captures_of_both_versions_are_compared(rt: HostRuntime) {
    are_the_same(&rt, rt.alloc(), &MIXED, &COMMIT);
}

#[test]
fn a_capture_of_version_2_is_the_second(rt: HostRuntime) {
    are_the_same(&rt, rt.alloc(), &COMMIT, &MIXED);
}

fn are_the_same(rt: &impl Abort, alloc: Global, one: &[u8], other: &[u8]) {
    let mut first = MemSource::new(one, 50, 0);
    let mut second = MemSource::new(other, 7, 0);
    match same(alloc, hashers(), hashers(), &mut first, &mut second) {
        Ok(verdict) => assert_eq!(rt; verdict, Verdict::Same),
        Err(refused) => assert_eq!(rt; refused.error, Error::Memory),
    }
}

/// Memory is taken at the start alone, and where it is refused the sink comes back as it was.
#[test]
fn streams_are_packed(rt: HostRuntime) -> Result<(), Fail> {
    let Ok(sink) = MemSink::new(rt.alloc(), 999, 999, 0) else {
        return Ok(());
    };
    match Packing::start(rt.alloc(), sink) {
        Ok(mut packing) => {
            let mut client = MemSource::new(&COMMIT[16..80], 9, 0);
            let mut server = MemSource::new(&COMMIT[88..136], 9, 0);
            packing.add(&mut client, &mut server)?;
            packing.finish()?;
            assert!(rt; packing.sink().bytes() == COMMIT.as_slice());
        }
        Err((error, sink)) => {
            assert_eq!(rt; error, Error::Memory);
            assert!(rt; sink.bytes().is_empty());
        }
    }
    Ok(())
}

#[test]
fn a_line_is_read(rt: HostRuntime) -> Result<(), Fail> {
    let mut words = Vec::new(rt.alloc());
    for word in ["nfs3canon", "check", "a"] {
        let Ok(word) = String::from_str(rt.alloc(), word) else {
            return Ok(());
        };
        if words.push(word).is_err() {
            return Ok(());
        }
    }
    match job(rt.alloc(), &mut words) {
        Ok(asked) => assert_eq!(rt; asked, Job::Check("a")),
        Err(fault) => assert!(rt; matches!(fault, LineFault::Memory)),
    }
    Ok(())
}
