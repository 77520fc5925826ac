//! Entries that are written while they are read.

pub(crate) mod entry_writer;
pub(crate) mod silent;
