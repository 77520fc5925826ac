//! What a command line asks for.

/// What is written of a recording.
#[derive(Clone, Copy, Debug, PartialEq, Eq)]
pub enum Wanted {
    /// A capture of the chosen connections that are whole.
    Capture,
    /// An index of all frames and connections.
    Index,
}

/// What a command line asks for: what is written of the recording `recording` in the file `output`.
#[derive(Debug, Drop)]
pub struct StreamsJob<'a> {
    pub recording: &'a str,
    pub output: &'a str,
    pub wanted: Wanted,
    /// A connection is chosen if an end has one of these ports. If there is none, those of NFS are chosen.
    pub ports: Vec<u16>,
}
