//! Parts of messages, passed to a visitor as they are read.

pub(crate) mod call;
pub(crate) mod credential;
pub(crate) mod reply;
pub(crate) mod word;
