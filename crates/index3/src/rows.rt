//! Rows of an index: frames, decisions, runs and pairs.

ghost use Rattle.std.specs.Prelude.{◌≡◌, ◌++◌, ℕ, List, OnOk};
ghost use Rattle.index3.specs.Indexes.{decision_code, lack_code};

use crate::frames::FrameRow;
use crate::numbers::{push_long, push_short};
use conversion3::Decision;
use recording3::NoSegment;
use std::alloc::AllocError;
use streams3::{Pair, Run};

/// What an index has as a row of its own.
pub(crate) trait Row {
    // The octets of the row.
    ghost octets: { Self → List ℕ };

    /// Appends the octets of the row.
    fn push(&self, out: &mut Vec<u8>) -> Result<(), AllocError>
        ensures { OnOk result (out.new.items ≡ out.old.items ++ octets self.now) };
}

impl Row for FrameRow {
    ghost use Rattle.index3.specs.Indexes.{frame_bytes};

    ghost octets = { frame_bytes };

    fn push(&self, out: &mut Vec<u8>) -> Result<(), AllocError> {
        push_long(out, self.time)?;
        push_long(out, self.at)?;
        push_short(out, self.size)?;
        push_short(out, self.wire)?;
        push_short(out, self.link)?;
        push_short(out, lack_code(self.lacks))
    }
}

/// Returns the number for why there is no segment.
fn lack_code(lacks: Option<NoSegment>) -> u32
    ensures { result ≡ lack_code lacks }
{
    match lacks {
        None => 0,
        Some(NoSegment::UnknownLink) => 1,
        Some(NoSegment::Cut) => 2,
        Some(NoSegment::NotIp) => 3,
        Some(NoSegment::BadIp) => 4,
        Some(NoSegment::Fragment) => 5,
        Some(NoSegment::NotTcp) => 6,
        Some(NoSegment::BadTcp) => 7,
    }
}

impl Row for Decision {
    ghost use Rattle.index3.specs.Indexes.{decision_bytes};

    ghost octets = { decision_bytes };

    fn push(&self, out: &mut Vec<u8>) -> Result<(), AllocError> {
        push_long(out, decision_code(self))
    }
}

/// Returns the number for what is said of a connection.
fn decision_code(decision: &Decision) -> u64
    ensures { result ≡ decision_code decision.now }
{
    match decision {
        Decision::NotChosen => 0,
        Decision::Empty => 1,
        Decision::Whole => 2,
        Decision::Flawed(_) => 3,
    }
}

impl Row for Run {
    ghost use Rattle.index3.specs.Indexes.{run_bytes};

    ghost octets = { run_bytes };

    fn push(&self, out: &mut Vec<u8>) -> Result<(), AllocError> {
        push_long(out, self.position)?;
        push_long(out, self.at)?;
        push_short(out, self.size)?;
        push_short(out, self.frame)
    }
}

impl Row for Pair {
    ghost use Rattle.index3.specs.Indexes.{pair_bytes};

    ghost octets = { pair_bytes };

    fn push(&self, out: &mut Vec<u8>) -> Result<(), AllocError> {
        push_long(out, self.again.position)?;
        push_long(out, self.first.at)?;
        push_long(out, self.again.at)?;
        push_short(out, self.again.size)?;
        push_short(out, self.again.frame)
    }
}
