//! Readers of captures: their entries one by one, or all at once.

pub(crate) mod entries;
pub(crate) mod entry;
pub(crate) mod entry_ref;
pub(crate) mod hashers;
pub(crate) mod pairing;
pub(crate) mod progress;
pub(crate) mod whole;
