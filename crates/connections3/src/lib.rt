//! Which packets of a recording are of one connection of TCP, and what each end of it sent.
#![tactic(auto)]

mod connection;
mod connections;
mod ends;
pub mod laws;
mod numbers;
mod packets;
mod taker;

pub use connection::{Connection, Flow};
pub use connections::Connections;
pub use ends::{EndPair, OneEnd};
pub use numbers::UsedNumbers;
pub use packets::Packet;
pub use taker::{NotTaken, PacketTaker};
