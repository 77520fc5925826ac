//! Positions of numbers (RFC 9293, section 3.4).

ghost use Rattle.std.specs.Prelude.{◌≡◌, ◌≤◌, ◌^◌, MatchOption};
ghost use Rattle.streams3.specs.Events.{IsFar, IsNear};

/// The position of the byte from which a stream counts.
pub const BEGIN: u64 = 0x4000_0000;

/// The largest window (RFC 7323, section 2.3).
const WINDOW: u32 = 0x4000_0000;

/// Returns the position of a number that is at most a window before or after `top`, unless none is.
#[inline(always)]
pub(crate) fn position_of(first: u32, top: u64, number: u32) -> Option<u64>
    requires least { 2 ^ 30 ≤ top }
    requires most { top ≤ 2 ^ 63 }
    ensures { MatchOption result (IsFar first top number) (IsNear first top number) }
{
    let low = top - BEGIN;
    let number_of_low = first
        .wrapping_add((low % 0x1_0000_0000) as u32)
        .wrapping_sub(WINDOW);
    let ahead = number.wrapping_sub(number_of_low);
    if ahead > 2 * WINDOW {
        return None;
    }
    Some(low + ahead as u64)
}
