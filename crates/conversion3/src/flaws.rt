//! What is wrong with the stream of one end.

ghost use Rattle.std.specs.Prelude.{◌≡◌, ℕ, MatchOption, None, Some};
ghost use Rattle.streams3.specs.Order.{AreFirstMissing, IsWholeStream};
ghost use Rattle.streams3.specs.Runs.{spot_of};
ghost use Rattle.conversion3.specs.Flaws.{ShowsSent};
ghost use Rattle.conversion3.specs.machinery.Ordered.{HasOrderFlaw};

use streams3::{Mark, MissingBytes, OrderedStream, Run};

/// Why the stream of an end is not whole.
#[derive(Clone, Copy, Debug, PartialEq, Eq, Drop)]
pub enum StreamFlaw {
    /// Its SYN was not recorded, or nothing that it sent.
    NoSyn,
    /// The first bytes that are missing, and the frame that shows that they were sent: that of the
    /// byte behind them, of FIN, or of an acknowledgment.
    Missing(MissingBytes, u32),
    /// The first byte behind FIN, and its frame.
    Beyond(Mark),
    /// A number is none of the stream. The frame of the first such segment or acknowledgment.
    Stray(Option<u32>),
    /// These bytes came again, and some of them were others the first time.
    Changed(Run),
}

/// Returns what is wrong first with a stream in order, beside the content of its bytes.
pub(crate) fn order_flaw(stream: &OrderedStream) -> Option<StreamFlaw>
    ensures { MatchOption result (IsWholeStream stream.now) (HasOrderFlaw stream.now) }
{
    let marks = stream.marks();
    if marks.begin.is_none() {
        return Some(StreamFlaw::NoSyn);
    }
    if let Some(bytes) = stream.missing() {
        let frame = frame_behind(stream, bytes)?;
        return Some(StreamFlaw::Missing(bytes, frame));
    }
    if let Some(mark) = stream.beyond() {
        return Some(StreamFlaw::Beyond(mark));
    }
    if marks.strays > 0 {
        return Some(StreamFlaw::Stray(marks.stray));
    }
    None
}

/// Returns the frame that shows that missing bytes were sent.
fn frame_behind(stream: &OrderedStream, bytes: MissingBytes) -> Option<u32>
    ensures { MatchOption result (AreFirstMissing stream.now bytes → ⊥)
        (ShowsSent stream.now bytes.end) }
{
    if let Some(frame) = frame_at(stream.runs(), bytes.end) {
        return Some(frame);
    }
    let marks = stream.marks();
    let mark = marks.end.or(marks.acknowledged)?;
    if mark.position == bytes.end {
        Some(mark.frame)
    } else {
        None
    }
}

/// Returns the frame that has the byte at a position.
fn frame_at(runs: &[Run], position: u64) -> Option<u32>
    ensures { MatchOption result (spot_of runs.now position ≡ None)
        (λ frame. (at : ℕ) × (spot_of runs.now position ≡ Some (at, frame))) }
{
    for run in runs {
        if run.position <= position && position - run.position < run.size as u64 {
            return Some(run.frame);
        }
    }
    None
}
