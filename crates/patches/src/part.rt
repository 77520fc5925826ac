//! A replacement, and what stays before it.

ghost use Rattle.std.specs.Prelude.{◌≡◌, ◌≤◌, ◌+◌, ◌++◌, IsTrue, drop, length, take};
ghost use Rattle.patches.specs.Patches.{kept_of, replacement, with_zeros};

use xdr3::room::put_bytes;

/// How many bytes a replacement has at most.
pub(crate) const MOST: usize = 8;

/// Of the next bytes `keeps` stay, but `zeros` of these become zeros, from `zeros_at` on. Then
/// `skips` are replaced by the first `len` of `bytes`. `zeros` and `len` are at most eight, and a
/// body may have very many parts: as `u32` they make a part 40 bytes long, without padding.
#[derive(Clone, Copy)]
pub(crate) struct Part {
    pub(crate) keeps: usize,
    pub(crate) zeros_at: usize,
    pub(crate) zeros: u32,
    pub(crate) len: u32,
    pub(crate) skips: usize,
    pub(crate) bytes: [u8; MOST],
}

impl Part {
    /// Makes what stays no bytes. What replaces others is as it was.
    #[inline(always)]
    pub(crate) fn reset(&mut self)
        ensures { self.new ≡ record self.old { keeps = 0; zeros_at = 0; zeros = 0 } }
    {
        self.keeps = 0;
        self.zeros_at = 0;
        self.zeros = 0;
    }
}

/// Returns the first `count` bytes, or all if there are fewer.
#[inline(always)]
pub(crate) fn front(bytes: &[u8], count: usize) -> &[u8]
    ensures { result.now ≡ take count bytes.now }
{
    &bytes[..count.min(bytes.len())]
}

/// Returns what follows the first `at` bytes and `count` others.
#[inline(always)]
fn behind(bytes: &[u8], at: usize, count: usize) -> &[u8]
    ensures { result.now ≡ drop count (drop at bytes.now) }
{
    let rest = &bytes[at.min(bytes.len())..];
    &rest[count.min(rest.len())..]
}

/// Returns the bytes of a body that follow a part.
#[inline(always)]
pub(crate) fn after<'a>(body: &'a [u8], part: &Part) -> &'a [u8]
    ensures { result.now ≡ drop part.now.skips (drop part.now.keeps body.now) }
{
    behind(body, part.keeps, part.skips)
}

/// Overwrites `count` bytes from `at` on with zeros, as far as there are so many. A loop would be a
/// call; the residual bytes of XDR are at most three (RFC 4506, section 3).
#[inline(always)]
fn put_zeros(bytes: &mut [u8], at: usize, count: usize)
    ensures { bytes.new ≡ with_zeros at count bytes.old }
{
    if at.saturating_add(count) > bytes.len() {
        return fill_with_zeros(bytes, at, count);
    }
    match count {
        1 => bytes[at..at + 1].copy_from_slice(&[0]),
        2 => bytes[at..at + 2].copy_from_slice(&[0; 2]),
        3 => bytes[at..at + 3].copy_from_slice(&[0; 3]),
        _ => fill_with_zeros(bytes, at, count),
    }
}

/// Does the same for any number.
#[inline(never)]
fn fill_with_zeros(bytes: &mut [u8], at: usize, count: usize)
    ensures { bytes.new ≡ with_zeros at count bytes.old }
{
    let start = at.min(bytes.len());
    let end = at.saturating_add(count).min(bytes.len());
    bytes[start..end].fill(0);
}

/// Writes what stays of the front of a body before a replacement, and returns the position after
/// it.
#[inline(always)]
pub(crate) fn put_kept(room: &mut [u8], at: usize, body: &[u8], part: &Part) -> usize
    requires { at + length (take part.now.keeps body.now) ≤ length room.old }
    ensures end { result ≡ at + length (take part.now.keeps body.now) }
    ensures written { take result room.new ≡ take at room.old ++ kept_of part.now body.now }
    ensures kept { take at room.new ≡ take at room.old }
    ensures len { length room.new ≡ length room.old }
{
    let kept = front(body, part.keeps);
    let end = at + kept.len();
    let room = &mut room[at..end];
    room.copy_from_slice(kept);
    if part.zeros > 0 {
        put_zeros(room, part.zeros_at, part.zeros as usize);
    }
    end
}

/// Writes what a part makes of the front of a body, and returns the position after it.
#[inline(always)]
pub(crate) fn put_part(room: &mut [u8], at: usize, body: &[u8], part: &Part) -> usize
    requires { at + (length (take part.now.keeps body.now) + 8) ≤ length room.old }
    ensures from { at ≤ result }
    ensures within { result ≤ at + (length (take part.now.keeps body.now) + 8) }
    ensures written { take result room.new
        ≡ take at room.old ++ (kept_of part.now body.now ++ replacement part.now) }
    ensures kept { take at room.new ≡ take at room.old }
    ensures len { length room.new ≡ length room.old }
{
    let end = put_kept(room, at, body, part);
    // All eight, since their number is constant, from a place that cannot overlap the room.
    let bytes = part.bytes;
    put_bytes(room, end, &bytes);
    end + (part.len as usize).min(MOST)
}

/// Returns `true` only if the same bytes stay of the fronts of two bodies. The bytes that become
/// zeros are mostly the same as well, so they are compared with those around them first.
#[inline(always)]
pub(crate) fn is_kept_alike(body: &[u8], part: &Part, other: &[u8], other_part: &Part) -> bool
    ensures { IsTrue result → kept_of part.now body.now ≡ kept_of other_part.now other.now }
{
    let kept = front(body, part.keeps);
    let other_kept = front(other, other_part.keeps);
    part.zeros_at == other_part.zeros_at
        && part.zeros == other_part.zeros
        && (kept == other_kept
            || is_alike_beside(kept, other_kept, part.zeros_at, part.zeros as usize))
}

/// Returns whether two slices have as many bytes, and the same but for `count` from `at` on.
#[inline(never)]
fn is_alike_beside(bytes: &[u8], other: &[u8], at: usize, count: usize) -> bool
    ensures { IsTrue result → with_zeros at count bytes.now ≡ with_zeros at count other.now }
{
    if bytes.len() != other.len() {
        return false;
    }
    front(bytes, at) == front(other, at) && behind(bytes, at, count) == behind(other, at, count)
}

/// Returns `true` only if two parts make the same bytes of the fronts of two bodies.
#[inline(always)]
pub(crate) fn is_alike(body: &[u8], part: &Part, other: &[u8], other_part: &Part) -> bool
    ensures kept { IsTrue result
        → kept_of part.now body.now ≡ kept_of other_part.now other.now }
    ensures replaced { IsTrue result → replacement part.now ≡ replacement other_part.now }
{
    part.len == other_part.len
        && part.bytes == other_part.bytes
        && is_kept_alike(body, part, other, other_part)
}
