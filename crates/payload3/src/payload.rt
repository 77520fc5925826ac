//! The bytes of a stream.

ghost use Rattle.std.specs.Prelude.{◌≡◌, ◌≤◌, ◌<◌, ◌+◌, ◌∷◌, ◌++◌, ℕ, [], List, None, Some, Ok, false, true, drop, length, take, IfOk, OnErr};
ghost use Rattle.capture3.specs.Device.{Counts};
ghost use Rattle.capture3.specs.Observed.{ReadGives, UpdatesSpent};
ghost use Rattle.payload3.specs.Readings.{Allow, GivesPayload, trail_of};

use crate::notes::Notes;
use crate::parts::{RunPart, next_part};
use capture3::{DeviceFailed, Source, Trail};
use std::marker::Model;
use std::os::unix::fs::FileExt;
use streams3::Run;

/// The bytes of a stream, read from the recording's file by where they lie: a source that gives the
/// bytes of each run in order, and then none.
///
/// A read fails if the file's read fails, or if the file ends before the run does: then it has
/// become shorter since the runs were found.
#[derive(Drop)]
pub struct Payload<'a, F> {
    file: &'a F,
    runs: &'a [Run],
    part: RunPart,
    failures: u64,
    given: Trail,
    notes: Notes,
    // The last read that did not fail gave none.
    is_spent: bool,
}

impl<'a, F> Model for Payload<'a, F> {
    ghost use Rattle.payload3.specs.Readings.{PayloadReads};
    ghost use Rattle.payload3.specs.Standing.{StandsInRuns};

    ghost Value = { PayloadReads };

    ghost view = { λ s. record {
      runs = s.runs.now;
      readings = s.notes.readings;
      given = s.given.bytes;
      failures = s.failures;
      is_spent = s.is_spent;
    } };

    ghost invariant = { λ s. StandsInRuns (record {
      runs = s.runs.now;
      readings = s.notes.readings;
      given = s.given.bytes;
      failures = s.failures;
      is_spent = s.is_spent;
    }) s.part };
}

impl<'a, F: FileExt> Payload<'a, F> {
    /// Returns a source over the bytes of these runs, of which none was given yet.
    pub fn new(file: &'a F, runs: &'a [Run]) -> Payload<'a, F>
        ensures { result ≡ record {
          runs = runs.now;
          readings = [];
          given = [];
          failures = 0;
          is_spent = false;
        } }
    {
        Payload {
            file,
            runs,
            part: RunPart {
                begun: 0,
                at: 0,
                left: 0,
            },
            failures: 0,
            given: Trail::new(),
            notes: Notes::new(),
            is_spent: false,
        }
    }

    /// Says what was given: in any file that the reads allow the first bytes of the runs. If the
    /// last read gave none, it was all of them, and the runs lie in the file. Nothing is done when
    /// it runs.
    pub fn gives(&self)
        ensures { (file : List ℕ) → Allow self.now.readings file → GivesPayload self.now file }
    {
        // The prover knows the invariant where a field is used.
        let _ = &self.file;
    }
}

impl<'a, F> Payload<'a, F> {
    /// Returns what the reads of the file gave.
    pub(crate) fn notes(&self) -> &Notes
        ensures { result.now.readings ≡ self.now.readings }
    {
        &self.notes
    }

    /// Returns how many reads failed.
    pub(crate) fn failures(&self) -> u64
        ensures { result ≡ self.now.failures }
    {
        self.failures
    }
}

impl<F: FileExt> Source for Payload<'_, F> {
    ghost observed = { λ s. record {
      left = None;
      given = Some (trail_of s);
      is_spent = s.is_spent;
    } };

    ghost failures = { λ s. s.failures };

    fn read_some(&mut self, buf: &mut [u8]) -> Result<usize, DeviceFailed> {
        let part = next_part(self.runs, self.part);
        self.part = part;
        if part.left == 0 {
            self.is_spent = true;
            return Ok(0);
        }
        let room = buf.len().min(part.left as usize);
        match self.file.read_at(&mut buf[..room], part.at) {
            Ok(count) if count > 0 && part.at <= u64::MAX - count as u64 => {
                self.notes.note(part.at, &buf[..count]);
                self.given.note(&buf[..count]);
                self.part.at = part.at + count as u64;
                self.part.left = part.left - count as u32;
                self.is_spent = false;
                Ok(count)
            }
            _ => {
                self.failures = self.failures.saturating_add(1);
                Err(DeviceFailed)
            }
        }
    }
}
