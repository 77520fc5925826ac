//! Arguments and results by procedure, as values.

pub(crate) mod args;
pub(crate) mod creation;
pub(crate) mod directories;
pub(crate) mod file_system;
pub(crate) mod files;
pub(crate) mod mounts;
pub(crate) mod results;
pub(crate) mod tagged;
pub(crate) mod walks;
