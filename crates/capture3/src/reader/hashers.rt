//! How the tables of a run hash their keys.

use std::hash::BuildHasher;

/// One hasher for each kind of table. They affect no result.
#[derive(Drop)]
pub struct Hashers<S: BuildHasher + Drop> {
    /// For the calls of a connection by their xids.
    pub calls: S,
    /// For the numbers of xids. No table is made for them: the table of the calls numbers the xids
    /// as well, which takes 7 to 8 % off the instructions of `canon` and `same`.
    pub xids: S,
    /// For the numbers of file handles.
    pub handles: S,
    /// For the numbers of write verifiers.
    pub verfs: S,
}
