//! Parts of messages as values.

pub(crate) mod attributes;
pub(crate) mod directory;
pub(crate) mod handle;
pub(crate) mod kind;
pub mod mount3;
pub(crate) mod settable;
pub(crate) mod stable;
pub(crate) mod status;
pub(crate) mod time;
pub(crate) mod void;
