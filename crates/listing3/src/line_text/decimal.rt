//! Numbers in decimal, written into a buffer that is long enough.

ghost use Rattle.std.specs.Prelude.{◌≡◌, ◌<◌, ◌≤◌, ◌+◌, ◌*◌, ◌/◌, ◌++◌, length, decimal};
ghost use Rattle.listing3.specs.Listing.{opening};
ghost use Rattle.listing3.specs.machinery.Digits.{eight_digits, four_digits, two_digits};
ghost use Rattle.listing3.specs.machinery.PutsBytes.{PutsBytes};

use crate::line_text::names::put_name;

/// How many digits a number has at most.
pub(crate) const DIGITS: usize = 20;

/// The two digits of each number below 100.
static PAIRS: [u8; 200] =
    *b"00010203040506070809101112131415161718192021222324252627282930313233343536373839404142434445464748495051525354555657585960616263646566676869707172737475767778798081828384858687888990919293949596979899";

/// Writes ` name=` and a number in decimal.
#[inline(always)]
pub(crate) fn put_number(room: &mut [u8], at: usize, name: &'static str, n: u64) -> usize
    requires { at + (length name.now + 2 + DIGITS) ≤ length room.old }
    ensures within { (at ≤ result) × (result ≤ at + (length name.now + 2 + DIGITS)) }
    ensures puts { PutsBytes room.old room.new at result (opening name.now ++ decimal n) }
{
    let start = put_name(room, at, name);
    put_decimal(room, start, n)
}

/// Writes a number in decimal. Many numbers of a capture have one digit, which needs no call, and
/// numbers of four bytes are divided faster.
#[inline(always)]
pub(crate) fn put_decimal(room: &mut [u8], at: usize, n: u64) -> usize
    requires { at + DIGITS ≤ length room.old }
    ensures within { (at ≤ result) × (result ≤ at + DIGITS) }
    ensures puts { PutsBytes room.old room.new at result (decimal n) }
{
    if n < 10 {
        room[at] = b'0' + n as u8;
        return at + 1;
    }
    if n >= 1 << 32 {
        return put_long(room, at, n);
    }
    put_word(room, at, n as u32)
}

/// Writes a number of more than eight digits in decimal.
#[inline(never)]
fn put_long(room: &mut [u8], at: usize, n: u64) -> usize
    requires long { 100000000 ≤ n }
    requires room { at + DIGITS ≤ length room.old }
    ensures within { (at ≤ result) × (result ≤ at + DIGITS) }
    ensures puts { PutsBytes room.old room.new at result (decimal n) }
{
    let end = put_front(room, at, n / 100_000_000);
    put_eight(room, end, (n % 100_000_000) as u32)
}

/// Writes what is in front of the last eight digits of a number.
fn put_front(room: &mut [u8], at: usize, n: u64) -> usize
    requires few { n < 184467440738 }
    requires room { at + 12 ≤ length room.old }
    ensures within { (at ≤ result) × (result ≤ at + 12) }
    ensures puts { PutsBytes room.old room.new at result (decimal n) }
{
    if let Ok(word) = u32::try_from(n) {
        return put_word(room, at, word);
    }
    let end = put_few(room, at, (n / 100_000_000) as u32);
    put_eight(room, end, (n % 100_000_000) as u32)
}

/// Writes a number of four bytes in decimal.
#[inline(never)]
fn put_word(room: &mut [u8], at: usize, n: u32) -> usize
    requires { at + 10 ≤ length room.old }
    ensures within { (at ≤ result) × (result ≤ at + 10) }
    ensures puts { PutsBytes room.old room.new at result (decimal n) }
{
    if n < 10_000 {
        return put_few(room, at, n);
    }
    if n < 100_000_000 {
        let end = put_few(room, at, n / 10_000);
        return put_four(room, end, n % 10_000);
    }
    let end = put_two(room, at, n / 100_000_000);
    put_eight(room, end, n % 100_000_000)
}

/// Writes a number below 10,000 in decimal.
#[inline(always)]
fn put_few(room: &mut [u8], at: usize, n: u32) -> usize
    requires few { n < 10000 }
    requires room { at + 4 ≤ length room.old }
    ensures within { (at ≤ result) × (result ≤ at + 4) }
    ensures puts { PutsBytes room.old room.new at result (decimal n) }
{
    if n < 100 {
        return put_two(room, at, n);
    }
    let first = hundreds(n);
    let end = put_two(room, at, first);
    put_pair(room, end, n - 100 * first)
}

/// Writes a number below 100 in decimal.
#[inline(always)]
#[tactic(auto, using(crate::proofs::Digits::decimal_two))]
fn put_two(room: &mut [u8], at: usize, n: u32) -> usize
    requires few { n < 100 }
    requires room { at + 2 ≤ length room.old }
    ensures within { (at ≤ result) × (result ≤ at + 2) }
    ensures puts { PutsBytes room.old room.new at result (decimal n) }
{
    if n < 10 {
        room[at] = b'0' + n as u8;
        return at + 1;
    }
    put_pair(room, at, n)
}

/// Writes the last eight digits of a number.
#[inline(always)]
fn put_eight(room: &mut [u8], at: usize, n: u32) -> usize
    requires few { n < 100000000 }
    requires room { at + 8 ≤ length room.old }
    ensures end { result ≡ at + 8 }
    ensures puts { PutsBytes room.old room.new at result (eight_digits n) }
{
    let end = put_four(room, at, n / 10_000);
    put_four(room, end, n % 10_000)
}

/// Writes the last four digits of a number.
#[inline(always)]
fn put_four(room: &mut [u8], at: usize, n: u32) -> usize
    requires few { n < 10000 }
    requires room { at + 4 ≤ length room.old }
    ensures end { result ≡ at + 4 }
    ensures puts { PutsBytes room.old room.new at result (four_digits n) }
{
    let first = hundreds(n);
    let end = put_pair(room, at, first);
    put_pair(room, end, n - 100 * first)
}

/// Returns `n / 100`. The compiler does not know that so few bits are enough, and divides by more
/// instructions.
#[inline(always)]
fn hundreds(n: u32) -> u32
    requires { n < 10000 }
    ensures { result ≡ n / 100 }
{
    (5243 * n) >> 19
}

/// Writes the last two digits of a number.
#[inline(always)]
fn put_pair(room: &mut [u8], at: usize, n: u32) -> usize
    requires few { n < 100 }
    requires room { at + 2 ≤ length room.old }
    ensures end { result ≡ at + 2 }
    ensures puts { PutsBytes room.old room.new at result (two_digits n) }
{
    let from = 2 * n as usize;
    room[at] = PAIRS[from];
    room[at + 1] = PAIRS[from + 1];
    at + 2
}
