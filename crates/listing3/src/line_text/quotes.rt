//! Strings between quotation marks, written into a buffer.

ghost use Rattle.std.specs.Prelude.{◌≡◌, ◌≤◌, ◌+◌, ◌*◌, ◌++◌, length, take, vec_len, true, IfOk};
ghost use Rattle.std.specs.List.{flat_map};
ghost use Rattle.listing3.specs.Listing.{is_plain, quoted, quoted_byte};
ghost use Rattle.listing3.specs.machinery.PutsBytes.{PutsBytes};

use crate::line_text::hexadecimal::put_hex;
use crate::line_text::names::{block, put_short};
use std::alloc::AllocError;
use xdr3::room::{make_room, put_bytes};

/// How many bytes of a string are tested at once.
const PIECE: usize = 8;

/// Writes text between quotation marks, with each byte that is not plain as `\x` and two digits,
/// and makes the buffer longer as it goes. What was before the position is kept.
pub(crate) fn put_quoted(room: &mut Vec<u8>, at: usize, bytes: &[u8]) -> Result<usize, AllocError>
    requires { at ≤ vec_len room.old }
    ensures within { IfOk result (λ end. end ≤ vec_len room.new) }
    ensures ok { IfOk result (λ end. take end room.new.items
        ≡ take at room.old.items ++ quoted bytes.now) }
    ensures kept { take at room.new.items ≡ take at room.old.items }
    ensures len { vec_len room.old ≤ vec_len room.new }
{
    if (PIECE..=2 * PIECE).contains(&bytes.len()) && are_ends_plain(bytes, PIECE) {
        make_room(room, at, 2 * PIECE + 2)?;
        return Ok(put_plain(room, at, bytes));
    }
    put_pieces(room, at, bytes)
}

/// Writes the text of the bytes between quotation marks, a piece after another.
fn put_pieces(room: &mut Vec<u8>, at: usize, bytes: &[u8]) -> Result<usize, AllocError>
    requires { at ≤ vec_len room.old }
    ensures within { IfOk result (λ end. end ≤ vec_len room.new) }
    ensures ok { IfOk result (λ end. take end room.new.items
        ≡ take at room.old.items ++ quoted bytes.now) }
    ensures kept { take at room.new.items ≡ take at room.old.items }
    ensures len { vec_len room.old ≤ vec_len room.new }
{
    make_room(room, at, 1)?;
    let mut end = put_bytes(room, at, b"\"");
    for piece in bytes.chunks(PIECE) {
        make_room(room, end, 4 * piece.len())?;
        end = put_piece(room, end, piece);
    }
    make_room(room, end, 1)?;
    Ok(put_bytes(room, end, b"\""))
}

/// Writes quotation marks around bytes that stand for themselves. Most names are such, and are copied by
/// two moves.
#[inline(always)]
fn put_plain(room: &mut [u8], at: usize, bytes: &[u8]) -> usize
    requires plain { flat_map quoted_byte bytes.now ≡ bytes.now }
    requires room { at + (length bytes.now + 2) ≤ length room.old }
    ensures end { result ≡ at + (length bytes.now + 2) }
    ensures puts { PutsBytes room.old room.new at result (quoted bytes.now) }
{
    let start = put_bytes(room, at, b"\"");
    let end = put_short(room, start, bytes);
    put_bytes(room, end, b"\"")
}

/// Returns `true` only if the first and the last `size` bytes stand for themselves, which may
/// overlap, and are all that there are.
#[inline(always)]
fn are_ends_plain(bytes: &[u8], size: usize) -> bool
    requires least { size ≤ length bytes.now }
    requires most { length bytes.now ≤ 2 * size }
    ensures { result ≡ true → flat_map quoted_byte bytes.now ≡ bytes.now }
{
    are_plain(&bytes[..size]) && are_plain(&bytes[bytes.len() - size..])
}

/// Writes the text of the bytes between quotation marks. Most pieces stand for themselves.
#[inline(always)]
fn put_piece(room: &mut [u8], at: usize, bytes: &[u8]) -> usize
    requires { at + 4 * length bytes.now ≤ length room.old }
    ensures within { (at ≤ result) × (result ≤ at + 4 * length bytes.now) }
    ensures puts { PutsBytes room.old room.new at result (flat_map quoted_byte bytes.now) }
{
    if bytes.len() == PIECE && are_plain(bytes) {
        return put_bytes(room, at, &block::<PIECE>(bytes));
    }
    if (4..PIECE).contains(&bytes.len()) && are_ends_plain(bytes, 4) {
        return put_short(room, at, bytes);
    }
    put_inside(room, at, bytes)
}

/// Returns `true` only if all bytes stand for themselves. Because it goes through all of them, the
/// compiler tests a constant number of them at once.
#[inline(always)]
fn are_plain(bytes: &[u8]) -> bool
    ensures { result ≡ true → flat_map quoted_byte bytes.now ≡ bytes.now }
{
    let mut plain = true;
    for i in 0..bytes.len() {
        plain &= is_plain(bytes[i]);
    }
    plain
}

/// Returns whether a byte stands for itself. There are no branches, so that several can be tested
/// at once.
#[inline(always)]
fn is_plain(byte: u8) -> bool
    ensures { result ≡ is_plain byte }
{
    (byte >= 32) & (byte <= 126) & (byte != 34) & (byte != 92)
}

/// Writes the text of the bytes between quotation marks, byte by byte.
fn put_inside(room: &mut [u8], at: usize, bytes: &[u8]) -> usize
    requires { at + 4 * length bytes.now ≤ length room.old }
    ensures within { (at ≤ result) × (result ≤ at + 4 * length bytes.now) }
    ensures puts { PutsBytes room.old room.new at result (flat_map quoted_byte bytes.now) }
{
    let mut end = at;
    for &byte in bytes {
        end = put_quoted_byte(room, end, byte);
    }
    end
}

fn put_quoted_byte(room: &mut [u8], at: usize, byte: u8) -> usize
    requires { at + 4 ≤ length room.old }
    ensures within { (at ≤ result) × (result ≤ at + 4) }
    ensures puts { PutsBytes room.old room.new at result (quoted_byte byte) }
{
    if is_plain(byte) {
        room[at] = byte;
        at + 1
    } else {
        let start = put_bytes(room, at, b"\\x");
        put_hex(room, start, &[byte])
    }
}
