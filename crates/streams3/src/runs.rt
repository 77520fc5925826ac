//! Bytes of a stream that lie together in a recording.

/// Bytes one after another, and where they lie: 24 bytes of memory for each.
#[derive(Clone, Copy, Debug, PartialEq, Eq, Drop)]
pub struct Run {
    /// The position of the first byte in the stream.
    pub position: u64,
    /// The offset of the first byte in the recording's file.
    pub at: u64,
    /// How many bytes.
    pub size: u32,
    /// The number of the frame that has them.
    pub frame: u32,
}

/// Missing bytes: from which position on, and the position after them.
#[derive(Clone, Copy, Debug, PartialEq, Eq, Drop)]
pub struct MissingBytes {
    pub begin: u64,
    pub end: u64,
}

/// Bytes that were recorded twice: as many at the same positions.
#[derive(Clone, Copy, Debug, PartialEq, Eq, Drop)]
pub struct Pair {
    /// Those that count.
    pub first: Run,
    /// The others.
    pub again: Run,
}
