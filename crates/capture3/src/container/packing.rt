//! The container's own bytes: its magic and its words.

ghost use Rattle.std.specs.Prelude.{◌≡◌};
ghost use Rattle.xdr3.specs.Item.{word_bytes};
ghost use Rattle.capture3.specs.Capture.{One, magic};

use byteorder::{BigEndian, ByteOrder};

/// The magic of version 1, the one that is written.
const HEADER: [u8; 8] = *b"NFS3CAP1";

/// Returns the eight bytes with which a capture begins, `NFS3CAP1`.
pub fn pack_header() -> [u8; 8]
    ensures { result ≡ magic One }
{
    HEADER
}

/// Returns a word of the container, four bytes with the highest first (RFC 4506, section 4.2). It
/// is the length of a chunk, the word 1 before a connection, or the word 0 after a stream and after
/// the last connection.
pub fn pack_chunk(n: u32) -> [u8; 4]
    ensures { result ≡ word_bytes n }
{
    let mut word = [0; 4];
    BigEndian::write_u32(&mut word, n);
    word
}
