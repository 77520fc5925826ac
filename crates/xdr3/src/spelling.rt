//! How words, hypers and the bytes after opaque data are spelled (RFC 4506).

ghost use Rattle.std.specs.Prelude.{◌≡◌};
ghost use Rattle.byteorder.specs.Endian.{big_bytes};
ghost use Rattle.xdr3.specs.Item.{residue, word_bytes};

use byteorder::{BigEndian, ByteOrder};

/// Returns the four bytes of a word, the highest first (RFC 4506, section 4.2).
#[inline(always)]
pub fn spelled_word(n: u32) -> [u8; 4]
    ensures { result ≡ word_bytes n }
{
    let mut word = [0; 4];
    BigEndian::write_u32(&mut word, n);
    word
}

/// Returns the eight bytes of a hyper, the highest first (RFC 4506, section 4.5).
#[inline(always)]
pub fn spelled_hyper(n: u64) -> [u8; 8]
    ensures { result ≡ big_bytes 8 n }
{
    let mut hyper = [0; 8];
    BigEndian::write_u64(&mut hyper, n);
    hyper
}

/// Returns the number of residual bytes after `len` bytes (RFC 4506, section 3).
#[inline(always)]
pub fn residue(len: usize) -> usize
    ensures { result ≡ residue len }
{
    (4 - len % 4) % 4
}
