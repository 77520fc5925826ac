//! The command line of nfs3canon: its words, read by clap, and the job that they ask for. What the command lines of
//! other programs have in common with it.
#![tactic(auto)]

mod asked;
mod command;
mod grammar;

pub use asked::{Job, LineFault};
pub use command::{job, take_end, try_matches, try_words, usage};
pub use grammar::file;
