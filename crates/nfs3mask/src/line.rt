//! The command line: its words, read by clap, and what they ask for. The words that tell a mask.

pub mod asked;
pub mod change;
pub mod command;
mod grammar;
mod names;
