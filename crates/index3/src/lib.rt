//! The index of a recording: its frames, and of each connection where its bytes lie.
#![tactic(auto)]

mod frames;
mod heads;
mod index;
mod numbers;
mod rows;

pub use frames::{FrameRow, FrameTable};
pub use index::{Indexed, write_index};
