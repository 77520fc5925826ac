//! The bytes of a stream, read from the recording's file by where they lie.
#![tactic(auto)]

mod notes;
mod parts;
mod payload;
mod recorded;

pub use payload::Payload;
pub use recorded::{Reads, Recorded};
