//! Numbers and addresses in a frame.

ghost use Rattle.std.specs.Prelude.{◌≡◌, ◌+◌, ◌≤◌, length, take, drop};
ghost use Rattle.recording3.specs.Octets.{octets};

use byteorder::{BigEndian, ByteOrder};

/// Returns the number in the two octets from a place on, the highest first.
#[inline(always)]
#[tactic(auto, unfolding(crate::specs::Octets::octets))]
pub fn two(frame: &[u8], at: usize) -> u16
    requires { at + 2 ≤ length frame.now }
    ensures { result ≡ octets frame.now at 2 }
{
    BigEndian::read_u16(&frame[at..at + 2])
}

/// Returns the number in the four octets from a place on, the highest first.
#[inline(always)]
#[tactic(auto, unfolding(crate::specs::Octets::octets))]
pub fn four(frame: &[u8], at: usize) -> u32
    requires { at + 4 ≤ length frame.now }
    ensures { result ≡ octets frame.now at 4 }
{
    BigEndian::read_u32(&frame[at..at + 4])
}

/// Returns the four octets from a place on.
#[inline(always)]
pub fn copied4(frame: &[u8], at: usize) -> [u8; 4]
    requires { at + 4 ≤ length frame.now }
    ensures { result ≡ take 4 (drop at frame.now) }
{
    let mut octets = [0; 4];
    octets.copy_from_slice(&frame[at..at + 4]);
    octets
}

/// Returns the sixteen octets from a place on.
#[inline(always)]
pub fn copied16(frame: &[u8], at: usize) -> [u8; 16]
    requires { at + 16 ≤ length frame.now }
    ensures { result ≡ take 16 (drop at frame.now) }
{
    let mut octets = [0; 16];
    octets.copy_from_slice(&frame[at..at + 16]);
    octets
}
