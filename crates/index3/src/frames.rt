//! The frames of a recording, a row each.

ghost use Rattle.std.specs.Prelude.{◌≡◌, ◌≤◌, ◌^◌, ◌∷◌, ◌++◌, [], IfErr, MatchOption, OnOk, length};
ghost use Rattle.index3.specs.Frames.{HasNotKept, IsRow, KeepsFrames, Lacks};

use connections3::{NotTaken, PacketTaker};
use recording3::{FrameHead, FrameTaker, NoSegment, read_segment};
use std::alloc::Global;

/// A frame of a recording.
#[derive(Clone, Copy, Debug, PartialEq, Eq, Drop)]
pub struct FrameRow {
    /// When it was recorded, in nanoseconds since 1970; 0 if that is not known.
    pub time: u64,
    /// Where in the file its octets begin.
    pub at: u64,
    /// How many octets were recorded.
    pub size: u32,
    /// How many octets it had on the wire.
    pub wire: u32,
    /// Its link type.
    pub link: u32,
    /// Why no segment of TCP is read from it; nothing if one is.
    pub lacks: Option<NoSegment>,
}

/// Takes the frames of a recording, as a `PacketTaker` does, and keeps a row of each.
#[derive(Drop)]
pub struct FrameTable {
    /// The connections of all packets, and how many frames had one.
    pub taker: PacketTaker,
    /// The frames, in order.
    pub rows: Vec<FrameRow>,
}

impl FrameTable {
    /// Returns a table of no frames. It allocates nothing yet.
    pub fn new(alloc: Global) -> FrameTable
        ensures { KeepsFrames result [] }
    {
        FrameTable {
            taker: PacketTaker::new(alloc),
            rows: Vec::new(alloc),
        }
    }
}

impl FrameTaker for FrameTable {
    type Error = NotTaken;

    ghost took = { KeepsFrames };

    ghost failed = { HasNotKept };

    fn take(&mut self, head: &FrameHead, octets: &[u8]) -> Result<(), NotTaken> {
        let row = match row_of(head, octets) {
            Some(row) => row,
            None => return Err(NotTaken::TooMany),
        };
        match self.taker.take(head, octets) {
            Ok(()) => keep(&mut self.rows, row),
            Err(error) => Err(error),
        }
    }
}

/// Keeps a row behind the others.
fn keep(rows: &mut Vec<FrameRow>, row: FrameRow) -> Result<(), NotTaken>
    ensures ok { OnOk result (rows.new.items ≡ rows.old.items ++ row ∷ []) }
    ensures err { IfErr result (λ error. error ≡ NotTaken.Memory) }
{
    match rows.push(row) {
        Ok(()) => Ok(()),
        Err(_) => Err(NotTaken::Memory),
    }
}

/// Returns the row of a frame, if it has fewer than 2^32 octets.
fn row_of(head: &FrameHead, octets: &[u8]) -> Option<FrameRow>
    ensures { MatchOption result (2 ^ 32 ≤ length octets.now)
        (IsRow (record { head = head.now; octets = octets.now })) }
{
    let size = u32::try_from(octets.len()).ok()?;
    Some(FrameRow {
        time: head.time,
        at: head.at,
        size,
        wire: head.wire,
        link: head.link,
        lacks: lack_of(head, octets),
    })
}

/// Returns why there is no segment in a frame, if there is none.
fn lack_of(head: &FrameHead, octets: &[u8]) -> Option<NoSegment>
    ensures { Lacks (record { head = head.now; octets = octets.now }) result }
{
    match read_segment(head.link, octets, head.wire) {
        Ok(_) => None,
        Err(why) => Some(why),
    }
}
