//! Sinks of bytes whose calls may fail.

pub(crate) mod container;
pub(crate) mod mem_sink;
pub(crate) mod nowhere;
pub(crate) mod traced;
pub(crate) mod whole_writes;

ghost use Rattle.std.specs.Prelude.{◌≡◌, ◌≤◌, ◌<◌, ℕ, List, length, Option, None, IfOk, OnOk};
ghost use Rattle.std.specs.Io.KnownBytes.{WriteAppends, Keeps};
ghost use Rattle.capture3.specs.Device.{Counts};
ghost use Rattle.canon3.specs.SinkWrites.{IsFlushed};

use capture3::DeviceFailed;
use std::io::Write;
use std::marker::Model;

/// A writer whose calls may fail.
pub trait Sink {
    // The bytes that were written, where the sink tells them.
    ghost written: { Self → Option (List ℕ) };

    // Those of them that were flushed, where the sink tells them.
    ghost flushed: { Self → Option (List ℕ) };

    // How many writes and flushes have failed, up to 2^64 - 1.
    ghost failures: { Self → ℕ };

    /// Writes a prefix of `piece`, and returns how many bytes it has.
    fn write_some(&mut self, piece: &[u8]) -> Result<usize, DeviceFailed>
        requires content { 0 < length piece.now }

        // What is taken.
        ensures some { IfOk result (λ n. 0 < n) }
        ensures within { IfOk result (λ n. n ≤ length piece.now) }
        ensures bytes { WriteAppends (written self.old) (written self.new) result piece.now }
        ensures flushes { Keeps (flushed self.old) (flushed self.new) }

        // The device.
        ensures count { Counts (failures self.old) (failures self.new) result };

    /// Flushes all that was written.
    fn flush_all(&mut self) -> Result<(), DeviceFailed>
        ensures bytes { Keeps (written self.old) (written self.new) }
        ensures flushes { OnOk result (IsFlushed (written self.new) (flushed self.new)) }
        ensures count { Counts (failures self.old) (failures self.new) result };
}

/// A sink over any writer, which exposes to clauses the bytes that the writer does. No contract of the
/// standard library says what a flush of a writer does, so it does not expose what was flushed.
#[derive(Drop)]
pub struct ToWrite<W> {
    writer: W,
    failures: u64,
}

impl<W> Model for ToWrite<W> {
    ghost use Rattle.capture3.specs.Device.{CountedDevice};

    ghost Value = { CountedDevice W };

    ghost view = { λ s. record { device = s.writer; failures = s.failures } };
}

impl<W: Write> ToWrite<W> {
    /// Returns a sink over the writer, of which no write or flush has failed.
    pub fn new(writer: W) -> ToWrite<W>
        ensures { result ≡ record { device = writer; failures = 0 } }
    {
        ToWrite {
            writer,
            failures: 0,
        }
    }

    /// Returns the writer.
    pub fn inner(&self) -> &W
        ensures { result.now ≡ self.now.device }
    {
        &self.writer
    }

    /// Gives the writer back.
    pub fn into_inner(self) -> W
        ensures { result ≡ self.device }
    {
        self.writer
    }
}

impl<W: Write> Sink for ToWrite<W> {
    ghost written = { λ s. W.contents s.device };

    ghost flushed = { λ s. None };

    ghost failures = { λ s. s.failures };

    fn write_some(&mut self, piece: &[u8]) -> Result<usize, DeviceFailed> {
        match self.writer.write(piece) {
            Ok(count) if count > 0 => Ok(count),
            _ => {
                self.failures = self.failures.saturating_add(1);
                Err(DeviceFailed)
            }
        }
    }

    fn flush_all(&mut self) -> Result<(), DeviceFailed> {
        match self.writer.flush() {
            Ok(()) => Ok(()),
            Err(_) => {
                self.failures = self.failures.saturating_add(1);
                Err(DeviceFailed)
            }
        }
    }
}
