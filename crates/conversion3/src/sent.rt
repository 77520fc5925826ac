//! What an end sent.

ghost use Rattle.std.specs.Prelude.{◌-◌, ◌^◌, ℕ, List, IfOk};
ghost use Rattle.streams3.specs.Content.{AreIn, content_of};
ghost use Rattle.streams3.specs.Order.{AreBetween, IsOrderOf, begin_of};
ghost use Rattle.streams3.specs.Streams.{Shown};
ghost use Rattle.conversion3.specs.Sent.{AreSentBytes};
ghost use Rattle.conversion3.specs.Whole.{IsWholeStreamIn};

use std::alloc::{AllocError, Global};
use streams3::{OrderedStream, Run};

/// Returns where the bytes of a stream lie, from where it begins. If it is whole, these are exactly
/// the bytes that the end sent.
///
/// # Errors
///
/// `AllocError` if an allocation failed.
pub fn sent_runs(stream: &OrderedStream, alloc: Global) -> Result<Vec<Run>, AllocError>
    ensures between { IfOk result (λ runs. AreBetween stream.now.runs
        (begin_of stream.now.marks.begin) (2 ^ 64 - 1) runs.items) }
    ensures sent { IfOk result (λ runs. (file : List ℕ) (shown : Shown)
        → IsOrderOf shown stream.now → IsWholeStreamIn file shown → AreIn file runs.items
        → AreSentBytes file shown (content_of file runs.items)) }
{
    stream.between(stream.begin(), u64::MAX, alloc)
}
