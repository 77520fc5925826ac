//! A whole capture in memory.

ghost use Rattle.std.specs.Prelude.{◌≢◌, ◌≤◌, List, IfErr, IfOk, vec_len};
ghost use Rattle.capture3.specs.Capture.{max_connections};
ghost use Rattle.capture3.specs.Entries.{OnRefused};
ghost use Rattle.capture3.specs.Entry as spec;
ghost use Rattle.capture3.specs.FirstFault.{FirstFault};
ghost use Rattle.capture3.specs.Kept.{AreKept, begun};
ghost use Rattle.capture3.specs.Laws.{most_entries};
ghost use Rattle.capture3.specs.Typed.{Typed};

use crate::fault::{Error, Noted};
use crate::message::calls::CallList;
use crate::message::silent::Silent;
use crate::reader::entry::Entry;
use crate::reader::pairing::Pairing;
use std::alloc::Global;

/// Returns the entries of a capture.
///
/// # Errors
///
/// - `Refused` with the first fault if the capture is not well formed.
/// - `Memory` if an allocation failed.
///
/// It never returns `Read` or `Write`.
pub fn parse(alloc: Global, bytes: &[u8]) -> Result<Vec<Entry>, Error>
    ensures entries { IfOk result
        (λ kept. (entries : List spec.Entry) × Typed bytes.now entries
        × AreKept kept.items entries) }
    ensures fault { OnRefused result (FirstFault bytes.now) }
    ensures read { IfErr result (λ error. error ≢ Error.Read) }
    ensures write { IfErr result (λ error. error ≢ Error.Write) }
    ensures connections { IfOk result (λ kept. begun kept.items ≤ max_connections) }
    ensures few { IfOk result (λ kept. vec_len kept ≤ most_entries) }
{
    let mut pairing = Pairing::new(alloc, CallList::new(alloc));
    let mut entries = Vec::new(alloc);
    let mut taken = 0;
    while taken < bytes.len() || pairing.is_recalling() {
        match pairing.next(&bytes[taken..], &mut Silent) {
            Ok(count) => {
                let piece = &bytes[taken..taken + count];
                taken += count;
                if let Some(kind) = pairing.last {
                    let entry = pairing.lend(kind, piece).keep(alloc)?;
                    entries.push(entry)?;
                }
            }
            Err(Noted) => return Err(pairing.error),
        }
    }
    pairing.end(bytes.len() as u64)?;
    entries.push(Entry::End)?;
    Ok(entries)
}
