//! Bytes in hexadecimal, written into a buffer that is long enough.

ghost use Rattle.std.specs.Prelude.{◌≡◌, ◌<◌, ◌≤◌, ◌+◌, ◌*◌, length, map, slice_index};
ghost use Rattle.hex.specs.Hex.{encode_lower, encode_with, lower_digits};
ghost use Rattle.listing3.specs.machinery.Digits.{halves_in_order, AreHalves};
ghost use Rattle.listing3.specs.machinery.PutsBytes.{PutsBytes};

use crate::line_text::names::block;
use xdr3::room::put_bytes;

/// How many bytes are spelled at once. The compiler keeps the halves of so many in registers.
const BLOCK: usize = 64;

/// How many bytes most file handles have.
const HANDLE: usize = 32;

/// Writes two lower-case hexadecimal digits for each byte. A file handle of the usual length is spelled
/// without loops.
pub(crate) fn put_hex(room: &mut [u8], at: usize, bytes: &[u8]) -> usize
    requires { at + 2 * length bytes.now ≤ length room.old }
    ensures end { result ≡ at + 2 * length bytes.now }
    ensures puts { PutsBytes room.old room.new at result (encode_lower bytes.now) }
{
    if bytes.len() == HANDLE {
        return put_spelled(room, at, &block::<HANDLE>(bytes));
    }
    let mut end = at;
    for piece in bytes.chunks(BLOCK) {
        end = put_piece(room, end, piece);
    }
    end
}

/// Writes two lower-case hexadecimal digits for each byte of a piece. Most pieces are blocks.
#[inline(always)]
fn put_piece(room: &mut [u8], at: usize, bytes: &[u8]) -> usize
    requires { at + 2 * length bytes.now ≤ length room.old }
    ensures end { result ≡ at + 2 * length bytes.now }
    ensures puts { PutsBytes room.old room.new at result (encode_lower bytes.now) }
{
    if bytes.len() == BLOCK {
        return put_block(room, at, &block::<BLOCK>(bytes));
    }
    put_spelled(room, at, bytes)
}

/// Writes two lower-case hexadecimal digits for each byte of a block. The digits are made apart from the
/// buffer, so that the two loops become one.
#[inline(always)]
fn put_block(room: &mut [u8], at: usize, bytes: &[u8; BLOCK]) -> usize
    requires { at + 2 * BLOCK ≤ length room.old }
    ensures end { result ≡ at + 2 * BLOCK }
    ensures puts { PutsBytes room.old room.new at result (encode_lower bytes.now) }
{
    let mut digits = [0; 2 * BLOCK];
    encode(bytes, &mut digits);
    put_bytes(room, at, &digits)
}

/// Writes two lower-case hexadecimal digits for each byte.
#[inline(always)]
fn put_spelled(room: &mut [u8], at: usize, bytes: &[u8]) -> usize
    requires { at + 2 * length bytes.now ≤ length room.old }
    ensures end { result ≡ at + 2 * length bytes.now }
    ensures puts { PutsBytes room.old room.new at result (encode_lower bytes.now) }
{
    let end = at + 2 * bytes.len();
    encode(bytes, &mut room[at..end]);
    end
}

/// Writes two lower-case hexadecimal digits for each byte. The compiler makes each of two short loops
/// take 16 bytes at once.
#[inline(always)]
fn encode(bytes: &[u8], digits: &mut [u8])
    requires { length digits.old ≡ 2 * length bytes.now }
    ensures { digits.new ≡ encode_lower bytes.now }
{
    split(bytes, digits);
    spell(digits);
}

/// Writes the high four bits and then the low four bits of each byte.
#[inline(always)]
fn split(bytes: &[u8], halves: &mut [u8])
    requires { length halves.old ≡ 2 * length bytes.now }
    ensures { halves.new ≡ encode_with halves_in_order bytes.now }
{
    'bytes: for i in 0..bytes.len() {
        let byte = bytes[i];
        halves[2 * i] = byte >> 4;
        halves[2 * i + 1] = byte & 0x0f;
    }
}

/// Puts its digit in the place of each number.
#[inline(always)]
fn spell(digits: &mut [u8])
    requires { AreHalves digits.old }
    ensures { digits.new ≡ map (slice_index lower_digits) digits.old }
{
    for i in 0..digits.len() {
        digits[i] = hex_digit(digits[i]);
    }
}

/// Returns the lower-case hexadecimal digit of a number below 16. Signed numbers are compared by fewer
/// instructions.
#[inline(always)]
#[tactic(auto, using(crate::proofs::HalvesLemmas::low_digit, crate::proofs::HalvesLemmas::high_digit))]
fn hex_digit(n: u8) -> u8
    requires { n < 16 }
    ensures { result ≡ slice_index lower_digits n }
{
    b'0' + n + if n as i8 > 9 { b'a' - 10 - b'0' } else { 0 }
}
