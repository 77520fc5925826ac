//! The file that a program writes.

pub(crate) mod destination;
pub(crate) mod identity;
pub(crate) mod part;
pub(crate) mod place;
pub(crate) mod rights;
pub(crate) mod writing;
