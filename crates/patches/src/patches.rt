//! Replacements in a body of bytes, noted before the body is at hand.

ghost use Rattle.std.specs.Prelude.{◌≡◌, ◌≢◌, ◌≤◌, ◌<◌, ◌+◌, ◌-◌, ◌*◌, ◌^◌, ◌++◌, ℕ, List, [], IfOk, IsOk, IsTrue, OnErr, OnOk, length, min, replicate, take, vec_capacity, vec_len};
ghost use Rattle.patches.specs.Patches.{patched, Makes};
ghost use Rattle.patches.specs.machinery.Room.{kept_by};

use crate::part::{MOST, Part, after, front, is_alike, is_kept_alike, put_kept, put_part};
use std::alloc::{AllocError, Global};
use std::marker::Model;
use xdr3::room::{make_room, put_bytes};

/// A body of at least so many bytes has no room of its own length, since most of it may stay after
/// the last replacement.
const LONG: usize = 16_384;

/// What stays of no bytes.
const NOTHING: Part = Part {
    keeps: 0,
    zeros_at: 0,
    zeros: 0,
    len: 0,
    skips: 0,
    bytes: [0; MOST],
};

/// Which bytes of a body stay and which are replaced. They are noted from the body's front to its
/// end, before the body is at hand.
#[derive(Drop)]
pub struct Patches {
    parts: Vec<Part>,
    // What stays after the last replacement. None follows yet.
    last: Part,
}

impl Model for Patches {
    ghost use Rattle.patches.specs.Patches.{Noted, noted_of};

    ghost Value = { Noted };

    ghost view = { noted_of };
}

impl Patches {
    /// Returns the patches of a body of no bytes. It allocates nothing yet.
    pub fn new(alloc: Global) -> Patches
        ensures { Makes result [] [] }
    {
        Patches {
            parts: Vec::new(alloc),
            last: NOTHING,
        }
    }

    /// Begins another body, and keeps the memory.
    pub fn clear(&mut self)
        ensures { Makes self.new [] [] }
    {
        self.parts.clear();
        self.last.reset();
    }

    /// Notes that the next `count` bytes stay. What is noted of a body of 2^64 bytes or more means
    /// nothing.
    #[inline(always)]
    pub fn keep(&mut self, count: usize)
        ensures makes { (body more form : List ℕ) → Makes self.old body form → length more ≡ count
            → length (body ++ more) < 2 ^ 64 → Makes self.new (body ++ more) (form ++ more) }
        ensures zeros { self.new.last.zeros ≡ self.old.last.zeros }
    {
        self.last.keeps = self.last.keeps.wrapping_add(count);
    }

    /// Notes that the next `count` bytes become zeros. What is noted of a body of 2^64 bytes or
    /// more means nothing.
    ///
    /// # Errors
    ///
    /// As those of `replace`, but none for the first zeros of a body or after a replacement, which
    /// need no memory.
    #[inline(always)]
    pub fn zero(&mut self, count: usize) -> Result<(), AllocError>
        requires { count ≤ 8 }
        ensures ok { OnOk result ((body gone form : List ℕ) → Makes self.old body form
            → length gone ≡ count → length (body ++ gone) < 2 ^ 64
            → Makes self.new (body ++ gone) (form ++ replicate count 0)) }
        ensures first { self.old.last.zeros ≡ 0 → IsOk result }
        ensures err { OnErr result
            ((self.new.parts ≡ self.old.parts) × (self.new.last ≡ self.old.last)) }
        ensures short { OnErr result (self.old.capacity ≤ length self.old.parts) }
    {
        if self.last.zeros > 0 {
            return self.replace_by_zeros(count);
        }
        let at = self.last.keeps;
        self.last.zeros_at = at;
        self.last.zeros = count as u32;
        self.last.keeps = at.wrapping_add(count);
        Ok(())
    }

    /// Does the same by a replacement.
    #[inline(never)]
    fn replace_by_zeros(&mut self, count: usize) -> Result<(), AllocError>
        requires { count ≤ 8 }
        ensures ok { OnOk result ((body gone form : List ℕ) → Makes self.old body form
            → length gone ≡ count → length (body ++ gone) < 2 ^ 64
            → Makes self.new (body ++ gone) (form ++ replicate count 0)) }
        ensures err { OnErr result
            ((self.new.parts ≡ self.old.parts) × (self.new.last ≡ self.old.last)) }
        ensures short { OnErr result (self.old.capacity ≤ length self.old.parts) }
    {
        self.add(count, &[0; MOST], count as u32)
    }

    /// Notes that the next `skipped` bytes are replaced by the first `len` of these.
    ///
    /// # Errors
    ///
    /// `AllocError` if the memory has no room for one more part, and cannot grow. Nothing is noted
    /// then.
    #[inline(always)]
    pub fn replace(&mut self, skipped: usize, bytes: &[u8; 8], len: usize) -> Result<(), AllocError>
        ensures ok { OnOk result ((body gone form : List ℕ) → Makes self.old body form
            → length gone ≡ skipped
            → Makes self.new (body ++ gone) (form ++ take len bytes.now)) }
        ensures zeros { OnOk result (self.new.last.zeros ≡ 0) }
        ensures err { OnErr result
            ((self.new.parts ≡ self.old.parts) × (self.new.last ≡ self.old.last)) }
        ensures short { OnErr result (self.old.capacity ≤ length self.old.parts) }
    {
        self.add(skipped, bytes, len.min(MOST) as u32)
    }

    /// Does the same. The length is narrow already: `replace_by_zeros` knows that it is small, and
    /// needs no test.
    #[inline(always)]
    fn add(&mut self, skipped: usize, bytes: &[u8; 8], len: u32) -> Result<(), AllocError>
        ensures ok { OnOk result ((body gone form : List ℕ) → Makes self.old body form
            → length gone ≡ skipped
            → Makes self.new (body ++ gone) (form ++ take len bytes.now)) }
        ensures zeros { OnOk result (self.new.last.zeros ≡ 0) }
        ensures err { OnErr result
            ((self.new.parts ≡ self.old.parts) × (self.new.last ≡ self.old.last)) }
        ensures short { OnErr result (self.old.capacity ≤ length self.old.parts) }
    {
        self.parts.push(Part {
            skips: skipped,
            len,
            bytes: *bytes,
            ..self.last
        })?;
        self.last.reset();
        Ok(())
    }

    /// Writes the patched body into a buffer at `at`, and returns the position after it. The buffer
    /// is made longer if it is too short; what follows that position means nothing.
    ///
    /// # Errors
    ///
    /// `AllocError` if the buffer's capacity is too small for the longest form that so many parts
    /// may have, and cannot grow.
    pub fn write(&self, body: &[u8], room: &mut Vec<u8>, at: usize) -> Result<usize, AllocError>
        requires { at ≤ vec_len room.old }
        ensures within { IfOk result (λ end. end ≤ vec_len room.new) }
        ensures written { IfOk result (λ end. take end room.new.items
            ≡ take at room.old.items ++ patched self.now body.now) }
        ensures kept { take at room.new.items ≡ take at room.old.items }
        ensures short { OnErr result
            (vec_capacity room.old < at + (length body.now + 8 * length self.now.parts)) }
    {
        make_room(room, at, most_bytes(body.len(), self.parts.len()))?;
        Ok(self.put_whole(body, room, at))
    }

    /// Writes the patched body at `at`, and returns the position after it.
    fn put_whole(&self, body: &[u8], room: &mut [u8], at: usize) -> usize
        requires { at + (length body.now + 8 * length self.now.parts) ≤ length room.old }
        ensures within { result ≤ length room.new }
        ensures written { take result room.new ≡ take at room.old ++ patched self.now body.now }
        ensures kept { take at room.new ≡ take at room.old }
        ensures len { length room.new ≡ length room.old }
    {
        let (end, rest) = self.put(body, room, at);
        put_bytes(room, end, rest)
    }

    /// Writes the patched body into a buffer at `at`, but for bytes at the end that stay as they
    /// are. Returns the position after what was written, and those bytes. The buffer is made longer
    /// if it is too short for what is written; what follows the position means nothing.
    ///
    /// # Errors
    ///
    /// `AllocError` if the buffer's capacity is too small for the longest form that so many parts
    /// may have, and cannot grow.
    pub fn write_front<'b>(
        &self,
        body: &'b [u8],
        room: &mut Vec<u8>,
        at: usize,
    ) -> Result<(usize, &'b [u8]), AllocError>
        requires { at ≤ vec_len room.old }
        ensures within { IfOk result (λ r. r.0 ≤ vec_len room.new) }
        ensures written { IfOk result (λ r. take r.0 room.new.items ++ r.1.now
            ≡ take at room.old.items ++ patched self.now body.now) }
        ensures from { IfOk result (λ r. at ≤ r.0) }
        ensures kept { take at room.new.items ≡ take at room.old.items }
        ensures short { OnErr result
            (vec_capacity room.old < at + (length body.now + 8 * length self.now.parts)) }
    {
        let front = self.most_before_last(body.len());
        make_room(room, at, most_bytes(front, self.parts.len()))?;
        Ok(self.put(body, room, at))
    }

    /// Returns how many bytes of a body `put` writes beside the replacements, or more if the body
    /// is short.
    fn most_before_last(&self, body: usize) -> usize
        ensures most { result ≤ body }
        ensures enough { min (kept_by self.now.parts) body ≤ result }
        ensures last { self.now.last.zeros ≢ 0 → result ≡ body }
    {
        if body < LONG || self.last.zeros > 0 {
            return body;
        }
        let mut front = 0usize;
        for part in &self.parts {
            front = front.saturating_add(part.keeps);
        }
        front.min(body)
    }

    /// Writes the patched body at `at`, but for the bytes that stay after the last replacement if
    /// none of them becomes a zero. Returns the position after what was written, and those bytes.
    #[inline(always)]
    fn put<'b>(&self, body: &'b [u8], room: &mut [u8], at: usize) -> (usize, &'b [u8])
        requires parts { at
            + (min (kept_by self.now.parts) (length body.now) + 8 * length self.now.parts)
            ≤ length room.old }
        requires last { self.now.last.zeros ≢ 0
            → at + (length body.now + 8 * length self.now.parts) ≤ length room.old }
        ensures within { result.0 ≤ length room.new }
        ensures most { result.0 + length result.1.now
            ≤ at + (length body.now + 8 * length self.now.parts) }
        ensures written { take result.0 room.new ++ result.1.now
            ≡ take at room.old ++ patched self.now body.now }
        ensures from { at ≤ result.0 }
        ensures kept { take at room.new ≡ take at room.old }
        ensures len { length room.new ≡ length room.old }
    {
        let mut end = at;
        let mut rest = body;
        for part in &self.parts {
            end = put_part(room, end, rest, part);
            rest = after(rest, part);
        }
        if self.last.zeros > 0 {
            return (put_kept(room, end, rest, &self.last), &[]);
        }
        (end, front(rest, self.last.keeps))
    }

    /// Returns `true` only if both patched bodies have the same bytes. It compares what lies in the
    /// bodies, and builds nothing. It returns `false` for equal ones too if they are not noted in
    /// the same parts, or not the same of their bytes become zeros.
    pub fn are_alike(&self, body: &[u8], other: &Patches, other_body: &[u8]) -> bool
        ensures { IsTrue result → patched self.now body.now ≡ patched other.now other_body.now }
    {
        if self.parts.len() != other.parts.len() {
            return false;
        }
        let mut rest = body;
        let mut other_rest = other_body;
        for i in 0..self.parts.len() {
            let part = self.parts[i];
            let other_part = other.parts[i];
            if !is_alike(rest, &part, other_rest, &other_part) {
                return false;
            }
            rest = after(rest, &part);
            other_rest = after(other_rest, &other_part);
        }
        is_kept_alike(rest, &self.last, other_rest, &other.last)
    }
}

/// Returns how many bytes a patched body has at most.
fn most_bytes(body: usize, parts: usize) -> usize
    ensures { result ≡ min (body + 8 * parts) (2 ^ 64 - 1) }
{
    body.saturating_add(parts.saturating_mul(MOST))
}
