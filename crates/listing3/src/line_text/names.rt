//! Names of items, written into a buffer that is long enough.

ghost use Rattle.std.specs.Prelude.{◌≡◌, ◌≤◌, ◌+◌, ◌*◌, length, take};
ghost use Rattle.listing3.specs.Listing.{opening};
ghost use Rattle.listing3.specs.machinery.PutsBytes.{PutsBytes};

use xdr3::room::put_bytes;

/// Writes a space, the name and `=`.
#[inline(always)]
pub(crate) fn put_name(room: &mut [u8], at: usize, name: &'static str) -> usize
    requires { at + (length name.now + 2) ≤ length room.old }
    ensures end { result ≡ at + (length name.now + 2) }
    ensures puts { PutsBytes room.old room.new at result (opening name.now) }
{
    room[at] = b' ';
    let end = put_short(room, at + 1, name.as_bytes());
    room[end] = b'=';
    end + 1
}

/// Writes the bytes at `at`, and returns the position after them. Most names have 2 to 16 bytes, and
/// are copied by two moves, without a call.
#[inline(always)]
pub(crate) fn put_short(room: &mut [u8], at: usize, bytes: &[u8]) -> usize
    requires { at + length bytes.now ≤ length room.old }
    ensures end { result ≡ at + length bytes.now }
    ensures puts { PutsBytes room.old room.new at result bytes.now }
{
    let count = bytes.len();
    if (8..=16).contains(&count) {
        return put_ends::<8>(room, at, bytes);
    }
    if (4..=8).contains(&count) {
        return put_ends::<4>(room, at, bytes);
    }
    if (2..=4).contains(&count) {
        return put_ends::<2>(room, at, bytes);
    }
    put_bytes(room, at, bytes)
}

/// Writes the first `N` of the bytes and the last `N`, which may overlap.
#[inline(always)]
fn put_ends<const N: usize>(room: &mut [u8], at: usize, bytes: &[u8]) -> usize
    requires room { at + length bytes.now ≤ length room.old }
    requires least { N ≤ length bytes.now }
    requires most { length bytes.now ≤ 2 * N }
    ensures end { result ≡ at + length bytes.now }
    ensures puts { PutsBytes room.old room.new at result bytes.now }
{
    let last = bytes.len() - N;
    put_bytes(room, at, &block::<N>(bytes));
    put_bytes(room, at + last, &block::<N>(&bytes[last..]))
}

/// Returns the first `N` bytes. A copy cannot overlap what is written, so it stays in a register.
#[inline(always)]
pub(crate) fn block<const N: usize>(bytes: &[u8]) -> [u8; N]
    requires { N ≤ length bytes.now }
    ensures { result ≡ take N bytes.now }
{
    match bytes.first_chunk::<N>() {
        Some(block) => *block,
        None => unreachable!(),
    }
}
