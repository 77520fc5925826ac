//! The parts of a capture, and what becomes whole in it.

ghost use Rattle.capture3.specs.machinery.Position.{IsBeforeWord};

use crate::fault::Side;
use record_mark::WordPart;

/// What has become whole in a capture.
#[derive(Clone, Copy, Debug, PartialEq, Eq)]
pub(crate) enum Event {
    /// A connection's word 1.
    Begin,
    /// A record of this side.
    Record(Side),
    /// The client's stream of a connection is complete; the server's comes next.
    Turn,
    /// The server's stream of a connection is complete, and so is the connection.
    Close,
    /// Version 2: both streams of a connection are complete, and none of their records was checked
    /// yet.
    Streams,
}

/// How the streams of a connection are laid out.
#[derive(Clone, Copy)]
pub(crate) enum Version {
    /// The chunks of the client's stream and a word 0, and then those of the server's stream and a
    /// word 0.
    One,
    /// Chunks of both streams in any order, each after a side word, and the side word 0.
    Two,
}

/// Which word of a capture is open.
#[derive(Clone, Copy)]
pub(crate) enum WordOf {
    /// A connection word: 1 before a connection, 0 after the last. The version decides what comes
    /// after a word 1.
    Mark(Version),
    /// Version 1: the length word of a chunk, or the word 0 after a stream.
    Length(Side),
    /// Version 2: a side word: 1 or 2 before a chunk, 0 after the connection's streams.
    Side,
    /// Version 2: the length word of a chunk, after its side word.
    SideLength(Side),
}

/// Which part of a capture is open: the one to which the next byte belongs.
#[derive(Clone, Copy)]
pub(crate) enum Spot {
    /// The magic before its last byte.
    Magic,
    /// The magic's last byte, which is the version.
    Digit,
    /// A word, and its bytes so far.
    Word(WordOf, WordPart),
    /// Version 1: a chunk of which this many bytes are to come, at least one.
    Chunk(Side, u32),
    /// Version 2: a chunk of which this many bytes are to come, at least one.
    SideChunk(Side, u32),
    /// Nothing: the last word 0 has come.
    Ended(Version),
}

impl Spot {
    /// Returns the part that a word is, before its first byte.
    #[inline(always)]
    pub(crate) fn before(word: WordOf) -> Spot
        ensures { IsBeforeWord word result }
    {
        Spot::Word(word, WordPart::new())
    }
}
