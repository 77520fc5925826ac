//! Bytes of streams out of files in memory.

use crate::asserts::assert_same;
use capture3::{DeviceFailed, Source};
use payload3::{Payload, Recorded};
use std::io;
use std::os::unix::fs::FileExt;
use streams3::{Pair, Run};

/// A file in memory.
#[derive(Drop)]
pub(crate) struct InMemory<'a> {
    pub bytes: &'a [u8],
}

impl FileExt for InMemory<'_> {
    fn read_at(&self, buf: &mut [u8], offset: u64) -> io::Result<usize> {
        if offset >= self.bytes.len() as u64 {
            return Ok(0);
        }
        let rest = &self.bytes[offset as usize..];
        let count = rest.len().min(buf.len());
        buf[..count].copy_from_slice(&rest[..count]);
        Ok(count)
    }

    fn write_at(&self, _buf: &[u8], _offset: u64) -> io::Result<usize> {
        Ok(0)
    }
}

// So many bytes, which lie there.
fn run(at: u64, size: u32) -> Run {
    Run {
        position: 0,
        at,
        size,
        frame: 1,
    }
}

#[test]
fn runs_come_in_their_order(rt: HostRuntime) {
    let file = InMemory {
        bytes: b"..GETATTR..NFS..",
    };
    let runs = [run(11, 3), run(2, 7)];
    let mut payload = Payload::new(&file, &runs);
    let mut buf = [0; 5];
    assert_same!(rt; payload.read_some(&mut buf), Ok(3));
    assert_same!(rt; &buf[..3], &b"NFS"[..]);
    assert_same!(rt; payload.read_some(&mut buf), Ok(5));
    assert_same!(rt; &buf[..], &b"GETAT"[..]);
    assert_same!(rt; payload.read_some(&mut buf), Ok(2));
    assert_same!(rt; &buf[..2], &b"TR"[..]);
    assert_same!(rt; payload.read_some(&mut buf), Ok(0));
}

#[test]
fn a_file_that_became_shorter_fails(rt: HostRuntime) {
    let file = InMemory { bytes: b"..NFS" };
    let runs = [run(2, 4)];
    let mut payload = Payload::new(&file, &runs);
    let mut buf = [0; 5];
    assert_same!(rt; payload.read_some(&mut buf), Ok(3));
    assert_same!(rt; payload.read_some(&mut buf), Err(DeviceFailed));
}

#[test]
fn bytes_that_came_again_are_compared(rt: HostRuntime) {
    let file = InMemory {
        bytes: b"READ READ RE4D",
    };
    let mut recorded = Recorded::new(&file);
    let same = Pair {
        first: run(0, 4),
        again: run(5, 4),
    };
    let other = Pair {
        first: run(0, 4),
        again: run(10, 4),
    };
    let beyond = Pair {
        first: run(0, 5),
        again: run(10, 5),
    };
    assert_same!(rt; recorded.is_same(&same), Ok(true));
    assert_same!(rt; recorded.is_same(&other), Ok(false));
    assert_same!(rt; recorded.is_same(&beyond), Ok(false));
}
