//! How far a reader has come.

/// How many connections began, how many records the open stream has so far, and how many calls and
/// replies came. No capture has more of any than a `u32` holds.
#[derive(Clone, Copy, Debug, PartialEq, Eq)]
pub struct Progress {
    pub connections: u32,
    pub records: u32,
    pub calls: u32,
    pub replies: u32,
}
