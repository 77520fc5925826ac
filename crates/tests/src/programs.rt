//! The part that both programs share: command lines, files, what is printed, and how hashes spread.

mod files;
pub(crate) mod lines;
mod reports;
mod spread;
