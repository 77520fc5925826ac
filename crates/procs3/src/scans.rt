//! Parts of messages, passed to a visitor as they are read.

pub(crate) mod both;
pub(crate) mod creation;
pub(crate) mod directories;
pub(crate) mod file_system;
pub(crate) mod files;
pub(crate) mod items;
pub(crate) mod mounts;
pub(crate) mod table;
