//! Words that may be cut between two pieces.

ghost use Rattle.std.specs.Prelude.{◌≡◌, ◌≤◌, ◌<◌, ◌+◌, ◌++◌, [], length, take};

use byteorder::{BigEndian, ByteOrder};

/// The bytes of a word so far, fewer than four. A word has four bytes, the highest first (RFC 4506,
/// section 4.2).
#[derive(Clone, Copy)]
pub struct WordPart {
    // Its first bytes, as the highest of a number: a number is copied at once, in an enum too.
    word: u32,
    count: u8,
    ghost short: { count < 4 },
}

/// A word, or what has come of it.
pub enum Word {
    /// Its first bytes: all that there were.
    Part(WordPart),
    /// Its number.
    Whole(u32),
}

impl WordPart {
    ghost use Rattle.record_mark.specs.WordPart.{bytes_so_far, TakesWord};

    /// Returns a word without its first byte.
    pub fn new() -> WordPart
        ensures { bytes_so_far result ≡ [] }
    {
        WordPart { word: 0, count: 0 }
    }

    /// Takes bytes of `rest`, which has some, up to the word's end. Returns how many, and the part
    /// or the whole word that they make.
    #[inline(always)]
    pub fn take(self, rest: &[u8]) -> (usize, Word)
        requires { 0 < length rest.now }
        ensures some { 0 < result.0 }
        ensures within { result.0 ≤ length rest.now }
        ensures word { TakesWord self rest.now result.0 result.1 }
    {
        // Most words lie whole in one piece.
        if self.count == 0 && rest.len() >= 4 {
            return (4, Word::Whole(BigEndian::read_u32(&rest[..4])));
        }
        self.take_more(rest)
    }

    /// Does the same for a word that may be cut.
    fn take_more(self, rest: &[u8]) -> (usize, Word)
        requires { 0 < length rest.now }
        ensures some { 0 < result.0 }
        ensures within { result.0 ≤ length rest.now }
        ensures word { TakesWord self rest.now result.0 result.1 }
    {
        let count = self.count as usize;
        let more = (4 - count).min(rest.len());
        let bytes = with_more(self.word.to_be_bytes(), count, &rest[..more]);
        if count + more < 4 {
            let part = WordPart {
                word: u32::from_be_bytes(bytes),
                count: (count + more) as u8,
            };
            return (more, Word::Part(part));
        }
        (more, Word::Whole(BigEndian::read_u32(&bytes)))
    }
}

/// Returns the first `count` bytes of the word, followed by `more`.
fn with_more(mut word: [u8; 4], count: usize, more: &[u8]) -> [u8; 4]
    requires { count + length more.now ≤ 4 }
    ensures { take (count + length more.now) result ≡ take count word ++ more.now }
{
    word[count..count + more.len()].copy_from_slice(more);
    word
}
