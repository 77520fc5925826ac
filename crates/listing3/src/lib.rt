//! The listing of a capture: one line for each message.
#![tactic(auto)]

pub mod examples;
pub mod laws;
mod line_text;
mod line_writer;
mod listing;

pub use listing::{list, show};
