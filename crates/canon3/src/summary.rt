//! Whether a capture is well formed, and what it has.

ghost use Rattle.std.specs.Prelude.{◌≢◌, ℕ, List, IfErr};
ghost use Rattle.capture3.specs.Observed.{GavePrefix};
ghost use Rattle.capture3.specs.Entries.{CountsReading};
ghost use Rattle.capture3.specs.Entry as spec;
ghost use Rattle.capture3.specs.Progress.{HasPassed};
ghost use Rattle.capture3.specs.Typed.{Typed};
ghost use Rattle.canon3.specs.Summary.{AreCountedHandles, AreMessageCounts, ConcludesAll, ConcludesGiven, IsSummary};

use crate::entries::entry_writer::write_entries;
use crate::numbers::handles::HandleTable;
use crate::sink::nowhere::Nowhere;
use capture3::{Error, Hashers, Progress, Source};
use std::alloc::Global;
use std::hash::BuildHasher;

/// How many connections, calls and replies a capture has.
#[derive(Clone, Copy, Debug, PartialEq, Eq)]
pub struct MessageCounts {
    pub connections: u32,
    pub calls: u32,
    pub replies: u32,
}

impl MessageCounts {
    /// Returns the counts of a capture whose entries came so far.
    pub fn of(progress: Progress) -> MessageCounts
        ensures { (bytes : List ℕ) (entries : List spec.Entry) → Typed bytes entries
            → HasPassed progress entries → AreMessageCounts bytes result }
    {
        MessageCounts {
            connections: progress.connections,
            calls: progress.calls,
            replies: progress.replies,
        }
    }
}

/// What a capture has of each kind.
#[derive(Clone, Copy, Debug, PartialEq, Eq)]
pub struct Summary {
    pub connections: u32,
    pub calls: u32,
    pub replies: u32,
    /// Distinct file handles that are not empty (`nfs_fh3`, RFC 1813).
    pub handles: u32,
}

impl Summary {
    /// Returns the summary of a capture whose entries came so far, with so many distinct handles.
    pub fn of(progress: Progress, handles: u32) -> Summary
        ensures { (bytes : List ℕ) (entries : List spec.Entry) → Typed bytes entries
            → HasPassed progress entries → AreCountedHandles handles entries
            → IsSummary bytes result }
    {
        Summary {
            connections: progress.connections,
            calls: progress.calls,
            replies: progress.replies,
            handles,
        }
    }
}

/// Reads a capture to its end, and returns how many connections, calls, replies and distinct file
/// handles it has.
///
/// # Errors
///
/// - `Refused` with the first fault if the capture is not well formed.
/// - `Read` if a read failed.
/// - `Memory` if an allocation failed.
///
/// It never returns `Write`.
pub fn check<R: Source, S: BuildHasher + Drop>(
    alloc: Global,
    hashers: Hashers<S>,
    source: &mut R,
) -> Result<Summary, Error>
    // What is concluded.
    ensures concludes { ConcludesGiven (R.observed source.old) (R.observed source.new) result }
    ensures whole { (bytes : List ℕ)
        → GavePrefix (R.observed source.old) (R.observed source.new) bytes
        → ConcludesAll bytes result }

    // The device.
    ensures read { CountsReading (R.failures source.old) (R.failures source.new) result }
    ensures write { IfErr result (λ error. error ≢ Error.Write) }
{
    let mut handles = HandleTable::new(alloc, hashers.handles);
    write_entries(alloc, hashers.calls, source, &mut Nowhere, &mut handles)
}
