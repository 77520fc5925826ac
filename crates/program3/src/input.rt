//! What a program is given: the words of its line, and files that it reads.

pub(crate) mod arguments;
pub(crate) mod from_start;
pub(crate) mod opening;
pub(crate) mod retried;
