//! Parts of messages as values.

pub(crate) mod call;
pub(crate) mod credential;
pub(crate) mod message_start;
pub(crate) mod reply;
pub(crate) mod word;
