//! Small callers of the libraries, to copy from. Each is proved with the contracts that the libraries publish,
//! and nothing else of them.
#![tactic(auto)]

mod counting;
mod naming;
mod packing;
mod recordings;
mod summing;

pub use counting::{GETATTR, count_calls};
pub use naming::looked_up_name;
pub use packing::pack_two;
pub use recordings::first_segment;
pub use summing::{DataBytes, bytes_to_write};
