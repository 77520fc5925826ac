//! What each end of a TCP connection sent, as a recording shows it: from segments, in the order in
//! which they were recorded, to where each byte of the stream lies in the recording.
#![tactic(auto)]

pub mod laws;
mod merging;
mod order;
mod positions;
mod repeats;
mod runs;
mod search;
mod segments;
mod streams;

pub use order::OrderedStream;
pub use positions::BEGIN;
pub use runs::{MissingBytes, Pair, Run};
pub use segments::{Acknowledgment, Mark, Marks, StreamSegment};
pub use streams::{Refused, Stream};
