//! Captures of NFS version 3 traffic: their container, their messages, and their first fault.
#![tactic(auto)]

mod container;
mod device;
mod fault;
pub mod laws;
mod message;
mod reader;

pub use container::packing::{pack_chunk, pack_header};
pub use container::position::{MAX_BYTES, MAX_CONNECTIONS};
pub use device::DeviceFailed;
pub use device::mem_source::MemSource;
pub use device::plan::FaultPlan;
pub use device::source::{FromRead, Given, Source};
pub use device::trail::Trail;
pub use fault::{Error, Fault, Place, Side};
pub use message::silent::Silent;
pub use message::values::{CallMsg, ReplyMsg};
pub use message::visiting::MessageVisit;
pub use reader::entries::{Entries, new_block};
pub use reader::entry::{CallRef, Entry, KeptCall, KeptReply, Kind, LentEntry, ReplyRef};
pub use reader::entry_ref::EntryRef;
pub use reader::hashers::Hashers;
pub use reader::progress::Progress;
pub use reader::whole::parse;
