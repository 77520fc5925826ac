//! The file of a recording, with what its reads gave.

ghost use Rattle.std.specs.Prelude.{◌≡◌, ◌≢◌, ◌≤◌, ◌<◌, ◌+◌, ◌-◌, ◌^◌, ◌∷◌, ◌++◌, ◌↔◌, ℕ, [], List, Ok, None, false, IfOk, IfSome, IsTrue, OnErr, length, min, take};
ghost use Rattle.capture3.specs.Device.{Counts};
ghost use Rattle.payload3.specs.Readings.{Allow, bytes_at};

use crate::notes::Notes;
use crate::payload::Payload;
use capture3::DeviceFailed;
use std::marker::Model;
use std::os::unix::fs::FileExt;
use streams3::{Pair, Run};

/// How many bytes are compared at once.
const PIECE: usize = 4096;

/// The file of a recording, with what its reads gave, which only clauses see.
#[derive(Drop)]
pub struct Recorded<'a, F> {
    file: &'a F,
    failures: u64,
    notes: Notes,
}

impl<'a, F> Model for Recorded<'a, F> {
    ghost use Rattle.payload3.specs.Readings.{RecordedReads};

    ghost Value = { RecordedReads };

    ghost view = { λ s. record {
      readings = s.notes.readings;
      failures = s.failures;
    } };
}

impl<'a, F: FileExt> Recorded<'a, F> {
    /// Returns the file, of which nothing was read yet.
    pub fn new(file: &'a F) -> Recorded<'a, F>
        ensures { result ≡ record { readings = []; failures = 0 } }
    {
        Recorded {
            file,
            failures: 0,
            notes: Notes::new(),
        }
    }

    /// Returns the bytes of these runs in the file, of which none was given yet.
    pub fn payload<'r>(&self, runs: &'r [Run]) -> Payload<'r, F>
    where
        'a: 'r,
        ensures { result ≡ record {
          runs = runs.now;
          readings = [];
          given = [];
          failures = 0;
          is_spent = false;
        } }
    {
        Payload::new(self.file, runs)
    }

    /// Adds what the reads of a payload of the same file gave, and how many failed.
    pub fn note_payload(&mut self, payload: &Payload<'_, F>)
        ensures noted { self.new.readings ≡ self.old.readings ++ payload.now.readings }
        ensures count { self.new.failures
            ≡ min (self.old.failures + payload.now.failures) (2 ^ 64 - 1) }
        ensures none { payload.now.failures ≡ 0 → self.new.failures ≡ self.old.failures }
    {
        self.notes.note_all(payload.notes());
        self.failures = self.failures.saturating_add(payload.failures());
    }

    /// Returns whether bytes that were recorded twice are the same: those of `again`, and as many
    /// where `first` lies.
    ///
    /// # Errors
    ///
    /// `DeviceFailed` if a read of the file fails, if the file ends before the bytes do, or if they
    /// lie beyond 2^64. It counts as a failure.
    pub fn is_same(&mut self, pair: &Pair) -> Result<bool, DeviceFailed>
        ensures more { (file : List ℕ) → Allow self.new.readings file
            → Allow self.old.readings file }
        ensures same { IfOk result (λ same. (file : List ℕ) → Allow self.new.readings file
            → (IsTrue same ↔ (bytes_at file pair.now.first.at pair.now.again.size
            ≡ bytes_at file pair.now.again.at pair.now.again.size))) }
        ensures count { Counts self.old.failures self.new.failures result }
    {
        let size = pair.again.size;
        let mut done = 0;
        'parts: while done < size {
            match self.same_part(pair, done, size - done)? {
                Some(count) => done += count,
                None => return Ok(false),
            }
        }
        Ok(true)
    }

    /// Returns how many bytes of a pair, at most so many after the first ones, were compared and are
    /// the same, or none if they are not.
    fn same_part(&mut self, pair: &Pair, done: u32, most: u32) -> Result<Option<u32>, DeviceFailed>
        requires { 0 < most }
        ensures more { (file : List ℕ) → Allow self.new.readings file
            → Allow self.old.readings file }
        ensures some { IfOk result (λ part. IfSome part (λ n. (0 < n) × (n ≤ most)
            × ((file : List ℕ) → Allow self.new.readings file
            → bytes_at file (pair.now.first.at + done) n
            ≡ bytes_at file (pair.now.again.at + done) n))) }
        ensures none { result ≡ Ok None → (n : ℕ) × (n ≤ most)
            × ((file : List ℕ) → Allow self.new.readings file
            → bytes_at file (pair.now.first.at + done) n
            ≢ bytes_at file (pair.now.again.at + done) n) }
        ensures count { Counts self.old.failures self.new.failures result }
    {
        let mut one_bytes = [0; PIECE];
        let mut other_bytes = [0; PIECE];
        let room = PIECE.min(most as usize);
        let one_part = &mut one_bytes[..room];
        let count = self.read(pair.first.at, done, one_part)?;
        let other_part = &mut other_bytes[..count];
        let again = self.read(pair.again.at, done, other_part)?;
        if same_front(one_part, other_part, again) {
            Ok(Some(again as u32))
        } else {
            Ok(None)
        }
    }

    /// Reads so many bytes after an offset. Returns how many it put at the front, which are some.
    fn read(&mut self, from: u64, done: u32, buf: &mut [u8]) -> Result<usize, DeviceFailed>
        ensures within { IfOk result (λ n. (0 < n) × (n ≤ length buf.new)) }
        ensures noted { IfOk result (λ n. self.new.readings
            ≡ self.old.readings ++ record { at = from + done; bytes = take n buf.new } ∷ []) }
        ensures failed { OnErr result (self.new.readings ≡ self.old.readings) }
        ensures count { Counts self.old.failures self.new.failures result }
    {
        if let Some(at) = from.checked_add(done as u64) {
            match self.file.read_at(buf, at) {
                Ok(count) if count > 0 => {
                    self.notes.note(at, &buf[..count]);
                    return Ok(count);
                }
                _ => {}
            }
        }
        self.failures = self.failures.saturating_add(1);
        Err(DeviceFailed)
    }
}

impl<'a, F> Recorded<'a, F> {
    /// Keeps what the reads of the file gave, without the file.
    pub fn into_reads(self) -> Reads
        ensures { result ≡ self.entry }
    {
        Reads {
            failures: self.failures,
            notes: self.notes,
        }
    }
}

/// What the reads of a recording's file gave, without the file. Only clauses see it.
#[derive(Drop)]
pub struct Reads {
    failures: u64,
    notes: Notes,
}

impl Model for Reads {
    ghost use Rattle.payload3.specs.Readings.{RecordedReads};

    ghost Value = { RecordedReads };

    ghost view = { λ s. record {
      readings = s.notes.readings;
      failures = s.failures;
    } };
}

/// Returns whether the first bytes of two slices are the same.
fn same_front(one: &[u8], other: &[u8], count: usize) -> bool
    requires one { count ≤ length one.now }
    requires other { count ≤ length other.now }
    ensures { IsTrue result ↔ (take count one.now ≡ take count other.now) }
{
    one[..count] == other[..count]
}
