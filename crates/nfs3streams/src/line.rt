//! The command line: its words, read by clap, and what they ask for.

pub mod asked;
pub mod command;
mod grammar;
mod ports;
