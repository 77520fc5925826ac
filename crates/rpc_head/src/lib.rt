//! The heads of RPC calls and replies (RFC 5531, sections 8 to 10 and appendix A).
#![tactic(auto)]

pub mod examples;
mod scans;
mod values;

pub use scans::call::scan_call_head;
pub use scans::reply::scan_reply_head;
pub use values::call::{CallHead, ProcId};
pub use values::credential::{AuthSys, Cred, Gids, Verf};
pub use values::message_start::{MessageStart as Start, after_xid, start};
pub use values::reply::{Accept, Deny, ReplyHead};
