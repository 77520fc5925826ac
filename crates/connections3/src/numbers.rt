//! The numbers that an end of a connection has used.

ghost use Rattle.std.specs.Prelude.{◌≡◌};
ghost use Rattle.connections3.specs.Numbers.{begins_another, distance, is_nearer, number_behind, with_numbers};

use crate::packets::Packet;

/// The largest window (RFC 7323, section 2.3).
const WINDOW: u32 = 0x4000_0000;

/// The numbers that an end used in a connection.
#[derive(Clone, Copy, Debug, PartialEq, Eq, Drop)]
pub struct UsedNumbers {
    /// That of the first byte of its first segment.
    pub first: u32,
    /// That behind its furthest segment.
    pub next: u32,
}

/// Returns the number behind a packet's payload.
#[inline(always)]
fn number_behind(packet: &Packet) -> u32
    ensures { result ≡ number_behind packet.now }
{
    match packet.cut {
        Some(mark) => mark.number,
        None => packet
            .segment
            .first_number()
            .wrapping_add(packet.segment.size),
    }
}

/// Returns the numbers of an end with one more packet of it.
#[inline(always)]
pub fn with_packet(numbers: Option<UsedNumbers>, packet: &Packet) -> UsedNumbers
    ensures { result ≡ with_numbers numbers packet.now }
{
    let behind = number_behind(packet);
    match numbers {
        None => UsedNumbers {
            first: packet.segment.first_number(),
            next: behind,
        },
        Some(UsedNumbers { first, next }) => UsedNumbers {
            first,
            next: if behind.wrapping_sub(next) <= WINDOW {
                behind
            } else {
                next
            },
        },
    }
}

/// Returns whether a packet begins another connection than that of these numbers.
#[inline(always)]
pub fn begins_another(newest: Option<UsedNumbers>, packet: &Packet) -> bool
    ensures { result ≡ begins_another newest packet.now }
{
    match newest {
        Some(numbers) => packet.segment.syn && packet.segment.first_number() != numbers.first,
        None => false,
    }
}

/// Returns whether a number is nearer to those of an older connection.
#[inline(always)]
pub fn is_nearer(older: Option<UsedNumbers>, newer: Option<UsedNumbers>, number: u32) -> bool
    ensures { result ≡ is_nearer older newer number }
{
    match (older, newer) {
        (None, _) => false,
        (Some(older), None) => distance(older.next, number) < WINDOW,
        (Some(older), Some(newer)) => {
            distance(older.next, number) < distance(newer.next, number)
        }
    }
}

/// Returns how far two numbers are from each other.
#[inline(always)]
fn distance(one: u32, other: u32) -> u32
    ensures { result ≡ distance one other }
{
    other.wrapping_sub(one).min(one.wrapping_sub(other))
}
