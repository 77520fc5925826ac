//! Recordings of packets: frames out of the bytes of a file, and segments of TCP out of frames.
#![tactic(auto)]

mod contents;
mod frames;
mod ip;
mod link;
mod octets;
mod outcomes;
mod parts;
pub mod pcap;
pub mod pcapng;
mod places;
mod segments;
mod tcp;
mod tunnels;

pub use contents::{Content, Ending, Frame, RecordingPart};
pub use frames::{Failed, FrameHead, FrameTaker, RecordingEnd, read_frames};
pub use outcomes::{Full, Tally};
pub use parts::{Address, End, NoSegment, Segment};
pub use segments::read_segment;
