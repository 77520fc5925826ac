//! Which connections of a recording are chosen, which of these are whole, why others are not, and
//! what their ends sent.
#![tactic(auto)]

mod choice;
mod decisions;
mod flaws;
mod judgment;
mod ordered_connections;
mod packing;
mod repeated;
mod sent;

pub use decisions::{Decision, decide_all};
pub use flaws::StreamFlaw;
pub use judgment::{Flaw, judge};
pub use ordered_connections::{OrderedConnection, OrderedFlow, order_all};
pub use packing::pack_whole;
pub use sent::sent_runs;
