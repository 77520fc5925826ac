//! Sinks over writers of which a call fails.

use crate::asserts::{assert_same, ok};
use crate::samples::{NULL, NUMBERED_NULL, commits, hashers};
use canon3::{Sink, Summary, ToWrite, canon};
use capture3::{DeviceFailed, Error, MemSource};
use std::io::{self, ErrorKind, Write};
use std::process::Abort;

/// How a call goes wrong.
#[derive(Clone, Copy)]
enum Failing {
    WithAnError,
    TakingNothing,
}

/// A writer that takes all bytes, but for one call. Writes and flushes are counted together.
#[derive(Drop)]
struct Faulty {
    calls: u64,
    fails_at: u64,
    failing: Failing,
}

impl Faulty {
    fn at(fails_at: u64, failing: Failing) -> Faulty {
        Faulty {
            calls: 0,
            fails_at,
            failing,
        }
    }

    fn is_failing_now(&mut self) -> bool {
        self.calls = self.calls.saturating_add(1);
        self.calls == self.fails_at
    }
}

impl Write for Faulty {
    fn write(&mut self, buf: &[u8]) -> io::Result<usize> {
        if !self.is_failing_now() {
            return Ok(buf.len());
        }
        match self.failing {
            Failing::WithAnError => Err(ErrorKind::BrokenPipe.into()),
            Failing::TakingNothing => Ok(0),
        }
    }

    fn flush(&mut self) -> io::Result<()> {
        if self.is_failing_now() {
            return Err(ErrorKind::BrokenPipe.into());
        }
        Ok(())
    }
}

#[test]
fn failed_calls_of_a_writer(rt: HostRuntime) {
    for failing in [Failing::WithAnError, Failing::TakingNothing] {
        let mut sink = ToWrite::new(Faulty::at(2, failing));
        assert_same!(rt; sink.write_some(b"abc"), Ok(3));
        assert_same!(rt; sink.write_some(b"de"), Err(DeviceFailed));
        assert_same!(rt; sink.write_some(b"de"), Ok(2));
        assert_same!(rt; sink.flush_all(), Ok(()));
    }
    let mut sink = ToWrite::new(Faulty::at(1, Failing::WithAnError));
    assert_same!(rt; sink.flush_all(), Err(DeviceFailed));
    assert_same!(rt; sink.flush_all(), Ok(()));
    assert_same!(rt; sink.inner().calls, 2);
}

fn canon_into(rt: &HostRuntime, file: &[u8], writer: Faulty) -> Result<Summary, Error> {
    let mut sink = ToWrite::new(writer);
    canon(
        rt.alloc(),
        hashers(),
        &mut MemSource::new(file, 999, 0),
        &mut sink,
    )
}

// Seven writes and the flush, each of which fails once.
#[test]
fn each_call_of_a_writer_fails(rt: HostRuntime) {
    let (bytes, _) = ok(&rt, commits(rt.alloc()));
    for fails_at in 1..9u64 {
        let writer = Faulty::at(fails_at, Failing::WithAnError);
        let answer = canon_into(&rt, &bytes, writer);
        assert_same!(rt; (fails_at, answer), (fails_at, Err(Error::Write)));
    }
    let summary = Summary {
        connections: 1,
        calls: 1,
        replies: 1,
        handles: 1,
    };
    let writer = Faulty::at(11, Failing::WithAnError);
    assert_same!(rt; canon_into(&rt, &bytes, writer), Ok(summary));
}

/// A writer that takes a byte a call, and then nothing.
#[derive(Drop)]
struct Bytewise {
    bytes: Vec<u8>,
    left: usize,
}

impl Write for Bytewise {
    fn write(&mut self, buf: &[u8]) -> io::Result<usize> {
        if self.left == 0 || buf.is_empty() {
            return Ok(0);
        }
        self.left -= 1;
        match self.bytes.push(buf[0]) {
            Ok(()) => Ok(1),
            Err(_) => Err(ErrorKind::OutOfMemory.into()),
        }
    }

    fn flush(&mut self) -> io::Result<()> {
        Ok(())
    }
}

/// A write that takes no byte fails as one with an error does: what was written before stays.
#[test]
fn each_write_takes_nothing(rt: HostRuntime) {
    for left in 0..104usize {
        let bytes = Vec::new(rt.alloc());
        let mut sink = ToWrite::new(Bytewise { bytes, left });
        let mut source = MemSource::new(&NULL, 1, 0);
        let answer = canon(rt.alloc(), hashers(), &mut source, &mut sink);
        assert_same!(rt; (left, answer), (left, Err(Error::Write)));
        let written = sink.inner().bytes.as_slice();
        assert_same!(rt; (left, written), (left, &NUMBERED_NULL[..left]));
    }
}
