//! A reader whose reads are tried again if a signal interrupts them.

ghost use Rattle.std.specs.Prelude.{◌≢◌, IfErr};
ghost use Rattle.std.specs.Io.{ReadsAtMost, WritesAtMost};
ghost use Rattle.std.specs.Io.KnownBytes.{ReadConsumes};
ghost use Rattle.std.specs.IoError.{error_kind};

use std::io;
use std::io::{ErrorKind, Read};
use std::os::unix::fs::FileExt;

/// A reader over any other. A read that a signal has interrupted gave nothing, so it is tried again and is no
/// failed read.
#[derive(Drop)]
pub struct Retried<R> {
    pub reader: R,
}

impl<R: Read> Read for Retried<R> {
    ghost remaining = { λ s. R.remaining s.reader };

    fn read(&mut self, buf: &mut [u8]) -> io::Result<usize>
        ensures bound { ReadsAtMost result buf.new }
        ensures bytes { ReadConsumes (R.remaining self.old.reader) (R.remaining self.new.reader)
            result buf.new }
        ensures retried { IfErr result (λ error. error_kind error ≢ ErrorKind.Interrupted) }
    {
        for _ in 0..u64::MAX {
            match self.reader.read(buf) {
                Err(error) if error.kind() == ErrorKind::Interrupted => {}
                done => return done,
            }
        }
        Err(io::Error::from(ErrorKind::Other))
    }
}

impl<R: FileExt> FileExt for Retried<R> {
    fn read_at(&self, buf: &mut [u8], offset: u64) -> io::Result<usize>
        ensures bound { ReadsAtMost result buf.new }
        ensures retried { IfErr result (λ error. error_kind error ≢ ErrorKind.Interrupted) }
    {
        for _ in 0..u64::MAX {
            match self.reader.read_at(buf, offset) {
                Err(error) if error.kind() == ErrorKind::Interrupted => {}
                done => return done,
            }
        }
        Err(io::Error::from(ErrorKind::Other))
    }

    fn write_at(&self, buf: &[u8], offset: u64) -> io::Result<usize>
        ensures bound { WritesAtMost result buf.now }
    {
        self.reader.write_at(buf, offset)
    }
}
