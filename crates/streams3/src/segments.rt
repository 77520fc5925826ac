//! Segments of TCP (RFC 9293, section 3.1), and what they say of a stream beside its bytes.

ghost use Rattle.std.specs.Prelude.{◌≡◌};
ghost use Rattle.streams3.specs.Events.{first_number};

/// What one end sent.
#[derive(Clone, Copy, Debug, PartialEq, Eq, Drop)]
pub struct StreamSegment {
    /// Its sequence number.
    pub sequence: u32,
    /// How many bytes its payload has.
    pub size: u32,
    /// The offset of the payload in the recording's file.
    pub at: u64,
    /// The number of the frame.
    pub frame: u32,
    /// Whether SYN is set.
    pub syn: bool,
    /// Whether FIN is set.
    pub fin: bool,
    /// Whether RST is set.
    pub rst: bool,
}

impl StreamSegment {
    /// Returns the number of the first byte. SYN takes a number.
    #[inline(always)]
    pub fn first_number(&self) -> u32
        ensures { result ≡ first_number self.now }
    {
        let StreamSegment { sequence, syn, .. } = *self;
        if syn {
            sequence.wrapping_add(1)
        } else {
            sequence
        }
    }
}

/// What the other end acknowledged.
#[derive(Clone, Copy, Debug, PartialEq, Eq, Drop)]
pub struct Acknowledgment {
    /// The number of the next byte that it expects.
    pub number: u32,
    /// The number of the frame.
    pub frame: u32,
}

/// A position of a stream, and the frame that names it.
#[derive(Clone, Copy, Debug, PartialEq, Eq, Drop)]
pub struct Mark {
    pub position: u64,
    pub frame: u32,
}

/// What segments say of a stream beside its bytes.
#[derive(Clone, Copy, Debug, PartialEq, Eq, Drop)]
pub struct Marks {
    /// The position of the byte after the first SYN: there the stream begins.
    pub begin: Option<Mark>,
    /// The lowest position at which a FIN stands: there the stream ends.
    pub end: Option<Mark>,
    /// The highest position up to which the other end acknowledged, which may count the FIN.
    pub acknowledged: Option<Mark>,
    /// Where the first RST stands.
    pub reset: Option<Mark>,
    /// How many segments and acknowledgments are strays: no part of the stream.
    pub strays: u64,
    /// The frame of the first of these.
    pub stray: Option<u32>,
}

/// The marks of a stream of which nothing is known.
pub(crate) const NO_MARKS: Marks = Marks {
    begin: None,
    end: None,
    acknowledged: None,
    reset: None,
    strays: 0,
    stray: None,
};
