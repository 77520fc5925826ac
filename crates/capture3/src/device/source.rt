//! Sources of bytes whose calls may fail.

ghost use Rattle.std.specs.Prelude.{◌≡◌, ◌≤◌, ◌<◌, ℕ, [], false, length, Some, IfOk};
ghost use Rattle.capture3.specs.Device.{Counts};
ghost use Rattle.capture3.specs.Observed.{Observed, ReadGives, UpdatesSpent};

use crate::device::DeviceFailed;
use crate::device::trail::Trail;
use std::io::Read;
use std::marker::Model;

/// A reader whose calls may fail.
pub trait Source {
    // What the source tells of the bytes that are left and of those that its reads gave.
    ghost observed: { Self → Observed };

    // How many reads have failed, up to 2^64 - 1.
    ghost failures: { Self → ℕ };

    /// Reads bytes into a prefix of `buf`, and returns how many. It returns 0 only if no bytes are
    /// left.
    fn read_some(&mut self, buf: &mut [u8]) -> Result<usize, DeviceFailed>
        requires room { 0 < length buf.old }
        ensures within { IfOk result (λ n. n ≤ length buf.new) }
        ensures bytes { ReadGives (observed self.old) (observed self.new) result buf.new }
        ensures spent { UpdatesSpent (observed self.old) (observed self.new) result }
        ensures count { Counts (failures self.old) (failures self.new) result };
}

/// A source over any reader. It exposes to clauses the bytes that its reads gave, and the bytes that are
/// left if the reader does.
#[derive(Drop)]
pub struct FromRead<R> {
    reader: R,
    failures: u64,
    given: Trail,
    // The last read that did not fail gave none.
    is_spent: bool,
}

impl<R> Model for FromRead<R> {
    ghost use Rattle.capture3.specs.Device.{TracedReader};

    ghost Value = { TracedReader R };

    ghost view = { λ s. record {
      device = s.reader;
      failures = s.failures;
      given = s.given.bytes;
      is_spent = s.is_spent;
    } };
}

impl<R: Read> FromRead<R> {
    /// Returns a source over the reader, which gave nothing yet, and of which no read has failed.
    pub fn new(reader: R) -> FromRead<R>
        ensures { result ≡ record {
          device = reader;
          failures = 0;
          given = [];
          is_spent = false;
        } }
    {
        FromRead {
            reader,
            failures: 0,
            given: Trail::new(),
            is_spent: false,
        }
    }
}

impl<R: Drop> FromRead<R> {
    /// Drops the reader, and keeps what its reads gave.
    pub fn into_given(self) -> Given
        ensures { result ≡ record {
          given = self.given;
          failures = self.failures;
          is_spent = self.is_spent;
        } }
    {
        let FromRead {
            reader: _reader,
            failures,
            given,
            is_spent,
        } = self;
        Given {
            trail: given,
            failures,
            is_spent,
        }
    }
}

/// What the reads of a source gave, without its reader. Only clauses see the bytes.
#[derive(Drop)]
pub struct Given {
    trail: Trail,
    failures: u64,
    is_spent: bool,
}

impl Model for Given {
    ghost use Rattle.capture3.specs.Device.{GivenBytes};

    ghost Value = { GivenBytes };

    ghost view = { λ g. record {
      given = g.trail.bytes;
      failures = g.failures;
      is_spent = g.is_spent;
    } };
}

impl<R: Read> Source for FromRead<R> {
    ghost observed = { λ s. record {
      left = R.remaining s.device;
      given = Some s.given;
      is_spent = s.is_spent;
    } };

    ghost failures = { λ s. s.failures };

    fn read_some(&mut self, buf: &mut [u8]) -> Result<usize, DeviceFailed> {
        match self.reader.read(buf) {
            Ok(count) => {
                self.given.note(&buf[..count]);
                self.is_spent = count == 0;
                Ok(count)
            }
            Err(_) => {
                self.failures = self.failures.saturating_add(1);
                Err(DeviceFailed)
            }
        }
    }
}
