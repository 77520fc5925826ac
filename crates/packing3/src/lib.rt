//! Recorded streams packed into a capture.
#![tactic(auto)]

mod block;
mod extent;
pub mod laws;
mod packing;
mod stream;

pub use block::fill;
pub use packing::Packing;
