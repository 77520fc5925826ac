//! How many calls of one procedure a capture has.

ghost use Rattle.std.specs.Prelude.{◌≡◌, ℕ, List, Some, IfOk};
ghost use Rattle.capture3.specs.Entries.{OnRefused};
ghost use Rattle.capture3.specs.Entry as spec;
ghost use Rattle.capture3.specs.FirstFault.{FirstFault};
ghost use Rattle.capture3.specs.ReadAs.{IsReadAs};
ghost use Rattle.uses.specs.Counting.{CountsCalls, is_call_of};

use capture3::{Entries, EntryRef, Error, Source};
use rpc_head::ProcId;
use std::alloc::Global;
use std::hash::BuildHasher;

/// GETATTR of NFS version 3 (RFC 1813, section 3.3.1).
pub const GETATTR: ProcId = ProcId {
    prog: 100_003,
    vers: 3,
    proc_no: 1,
};

/// Reads a capture to its end, and returns the number of its calls of this procedure.
///
/// # Errors
///
/// - `Refused` with the first fault if the capture is not well formed.
/// - `Read` if a read failed.
/// - `Memory` if an allocation failed.
pub fn count_calls<R: Source, S: BuildHasher + Drop>(
    alloc: Global,
    hasher: S,
    source: &mut R,
    procedure: ProcId,
) -> Result<u64, Error>
    ensures counted { (bytes : List ℕ) → (R.observed source.old).left ≡ Some bytes
        → IfOk result (CountsCalls bytes procedure) }
    ensures refused { (bytes : List ℕ) → (R.observed source.old).left ≡ Some bytes
        → OnRefused result (FirstFault bytes) }
{
    let mut entries = Entries::new(alloc, hasher, source)?;
    let mut count: u64 = 0;
    while let Some(entry) = entries.next()? {
        if is_call(entry, procedure) {
            count += 1;
        }
    }
    Ok(count)
}

/// Returns whether an entry is a call of the procedure.
fn is_call(entry: EntryRef<'_>, procedure: ProcId) -> bool
    ensures { (one : spec.Entry) → IsReadAs entry.entry one → result ≡ is_call_of procedure one }
{
    match entry {
        EntryRef::Call(call) => call.head.id == procedure,
        EntryRef::Begin | EntryRef::Turn | EntryRef::Reply(_) | EntryRef::Close | EntryRef::End =>
            false,
    }
}
