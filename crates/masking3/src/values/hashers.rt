//! The hashers of a masked form's tables.

use std::hash::BuildHasher;

/// A hasher for each kind of table: the calls of the open connection, the file handles, and the values of
/// each class.
#[derive(Drop)]
pub struct MaskHashers<S: BuildHasher + Drop> {
    pub calls: S,
    pub handles: S,
    pub values: S,
}
