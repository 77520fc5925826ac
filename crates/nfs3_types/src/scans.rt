//! Parts of messages, passed to a visitor as they are read.

pub(crate) mod attributes;
pub(crate) mod directory;
pub(crate) mod handle;
pub(crate) mod mount3;
pub(crate) mod settable;
pub(crate) mod status;
pub(crate) mod time;
pub(crate) mod void;
