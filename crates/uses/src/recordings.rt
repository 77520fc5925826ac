//! A segment of TCP out of a recording.

ghost use Rattle.std.specs.Prelude.{IfSome, IsNone};
ghost use Rattle.recording3.specs.declared.parts.Segment.{Segment};
ghost use Rattle.uses.specs.Recordings.{CarriesFirst};

use recording3::pcap::{read_frame, read_header};
use recording3::{Segment, read_segment};

/// Returns the segment of TCP in the first frame of a recording in the format pcap, and `None` if
/// the bytes are no recording, or that frame has none.
pub fn first_segment(file: &[u8]) -> Option<Segment>
    ensures some { IfSome result (CarriesFirst file.now) }
    ensures none { IsNone result → (s : Segment) → CarriesFirst file.now s → ⊥ }
{
    let Ok(header) = read_header(file) else {
        return None;
    };
    let Ok(frame) = read_frame(&header, file, 24) else {
        return None;
    };
    match read_segment(header.link, &file[frame.begin..frame.end], frame.wire) {
        Ok(segment) => Some(segment),
        Err(_) => None,
    }
}
