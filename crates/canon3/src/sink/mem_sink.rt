//! A sink in memory.

ghost use Rattle.std.specs.Prelude.{◌≡◌, ◌≤◌, ◌<◌, ◌+◌, ◌-◌, ◌↔◌, ◌⊎◌, [], length, take, min, Some, IfOk, IsErr, OnOk, OnErr, vec_len, vec_capacity};
ghost use Rattle.std.specs.Io.KnownBytes.{WriteAppends, Keeps};
ghost use Rattle.capture3.specs.Device.{Counts};
ghost use Rattle.canon3.specs.MemSink.{MemoryWritten};
ghost use Rattle.canon3.specs.SinkWrites.{IsFlushed};

use crate::sink::Sink;
use capture3::{DeviceFailed, FaultPlan};
use std::alloc::{AllocError, Global};
use std::marker::Model;

/// A sink in memory, which exposes its bytes to clauses, and which of them were flushed. It takes
/// at most `room` bytes in all, and at most `block` of a piece. One planned call fails, and so does
/// each call without room.
#[derive(Drop)]
pub struct MemSink {
    bytes: Vec<u8>,
    // How many of them were flushed.
    flushed: usize,
    room: usize,
    block: usize,
    plan: FaultPlan,
}

impl Model for MemSink {
    ghost use Rattle.std.specs.Prelude.{◌<◌, ◌≤◌, ◌+◌, take, vec_len, vec_capacity};
    ghost use Rattle.canon3.specs.MemSink.{MemoryWritten};

    ghost Value = { MemoryWritten };

    ghost view = { λ s. record {
      bytes = s.bytes.items;
      flushed = take s.flushed s.bytes.items;
      room = s.room;
      block = s.block;
      fails_in = s.plan.fails_in;
      failures = s.plan.failures;
    } };

    ghost invariant = { λ s. (0 < s.block) × (s.flushed ≤ vec_len s.bytes)
        × (vec_len s.bytes + s.room ≤ vec_capacity s.bytes) };
}

impl MemSink {
    /// Returns a sink whose call number `fail` fails, counting writes and flushes together. If
    /// `fail` is 0, none does.
    pub fn new(alloc: Global, room: usize, block: usize, fail: u64) -> Result<MemSink, AllocError>
        requires { 0 < block }
        ensures { IfOk result (λ sink. sink
            ≡ record {
              bytes = [];
              flushed = [];
              room = room;
              block = block;
              fails_in = fail;
              failures = 0;
            }) }
    {
        let mut bytes = Vec::new(alloc);
        bytes.reserve(room)?;
        Ok(MemSink {
            bytes,
            flushed: 0,
            room,
            block,
            plan: FaultPlan::new(fail),
        })
    }

    /// Returns the bytes written so far.
    pub fn bytes(&self) -> &[u8]
        ensures { result.now ≡ self.now.bytes }
    {
        &self.bytes
    }

    /// Returns those of the bytes that were flushed.
    pub fn flushed(&self) -> &[u8]
        ensures { result.now ≡ self.now.flushed }
    {
        &self.bytes[..self.flushed]
    }
}

impl Sink for MemSink {
    ghost written = { λ s. Some s.bytes };

    ghost flushed = { λ s. Some s.flushed };

    ghost failures = { λ s. s.failures };

    fn write_some(&mut self, piece: &[u8]) -> Result<usize, DeviceFailed>
        requires content { 0 < length piece.now }
        ensures some { IfOk result (λ n. 0 < n) }
        ensures within { IfOk result (λ n. n ≤ length piece.now) }
        ensures bytes { WriteAppends (Some self.old.bytes) (Some self.new.bytes) result piece.now }
        ensures flushes { Keeps (Some self.old.flushed) (Some self.new.flushed) }
        ensures count { Counts self.old.failures self.new.failures result }

        // How many bytes a call takes, and which call fails.
        ensures given { IfOk result (λ n. n ≡ min (min self.old.block self.old.room)
            (length piece.now)) }
        ensures fails { IsErr result ↔ ((self.old.fails_in ≡ 1) ⊎ (self.old.room ≡ 0)) }
        ensures next { (self.new.fails_in ≡ self.old.fails_in - 1)
            × (self.new.block ≡ self.old.block)
            × (self.new.room + length self.new.bytes ≡ self.old.room + length self.old.bytes) }
    {
        self.plan.next_call()?;
        if self.room == 0 {
            return Err(self.plan.fail());
        }
        let count = self.block.min(self.room).min(piece.len());
        match self.bytes.extend_from_slice(&piece[..count]) {
            Ok(()) => {
                self.room -= count;
                Ok(count)
            }
            // Memory for the whole room was reserved by `new`.
            Err(_) => unreachable!(),
        }
    }

    fn flush_all(&mut self) -> Result<(), DeviceFailed>
        ensures bytes { Keeps (Some self.old.bytes) (Some self.new.bytes) }
        ensures flushes { OnOk result (IsFlushed (Some self.new.bytes) (Some self.new.flushed)) }
        ensures count { Counts self.old.failures self.new.failures result }

        // A failed flush flushes nothing.
        ensures unflushed { OnErr result (self.new.flushed ≡ self.old.flushed) }
        ensures fails { IsErr result ↔ (self.old.fails_in ≡ 1) }
        ensures next { (self.new.fails_in ≡ self.old.fails_in - 1)
            × (self.new.block ≡ self.old.block) × (self.new.room ≡ self.old.room) }
    {
        self.plan.next_call()?;
        self.flushed = self.bytes.len();
        Ok(())
    }
}
