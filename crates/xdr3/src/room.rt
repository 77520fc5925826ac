//! Bytes that are written into a buffer, which keeps its length from one text or message to the next. A
//! position is a count of bytes from the start of the buffer. What follows the last position means nothing.

ghost use Rattle.std.specs.Prelude.{◌≡◌, ◌<◌, ◌≤◌, ◌+◌, ◌++◌, length, take, vec_capacity, vec_len, OnOk, OnErr};

use std::alloc::AllocError;

/// Makes `room` longer if fewer than `count` bytes follow the position `at`.
///
/// # Errors
///
/// `AllocError` if the capacity is too small for these and cannot grow.
#[inline(always)]
pub fn make_room(room: &mut Vec<u8>, at: usize, count: usize) -> Result<(), AllocError>
    requires { at ≤ vec_len room.old }
    ensures ok { OnOk result (at + count ≤ vec_len room.new) }
    ensures kept { take at room.new.items ≡ take at room.old.items }
    ensures len { vec_len room.old ≤ vec_len room.new }
    ensures short { OnErr result (vec_capacity room.old < at + count) }
{
    let left = room.len() - at;
    if count <= left {
        return Ok(());
    }
    lengthen(room, count - left)
}

/// Makes `room` longer by `count` bytes. It fails only if the capacity is too small for these.
#[cold]
fn lengthen(room: &mut Vec<u8>, count: usize) -> Result<(), AllocError>
    ensures ok { OnOk result (vec_len room.new ≡ vec_len room.old + count) }
    ensures kept { take (vec_len room.old) room.new.items ≡ room.old.items }
    ensures len { vec_len room.old ≤ vec_len room.new }
    ensures short { OnErr result (vec_capacity room.old < vec_len room.old + count) }
{
    room.reserve(count)?;
    room.resize(room.len() + count, 0)
}

/// Writes the bytes at `at`, and returns the position after them.
#[inline(always)]
pub fn put_bytes(room: &mut [u8], at: usize, bytes: &[u8]) -> usize
    requires { at + length bytes.now ≤ length room.old }
    ensures end { result ≡ at + length bytes.now }
    ensures written { take result room.new ≡ take at room.old ++ bytes.now }
    ensures kept { take at room.new ≡ take at room.old }
    ensures len { length room.new ≡ length room.old }
{
    let end = at + bytes.len();
    room[at..end].copy_from_slice(bytes);
    end
}
