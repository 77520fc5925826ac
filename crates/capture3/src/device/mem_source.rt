//! A source over bytes in memory.

ghost use Rattle.std.specs.Prelude.{◌≡◌, ◌≤◌, ◌<◌, ◌-◌, ◌↔◌, false, length, min, IfOk, IsErr};
ghost use Rattle.capture3.specs.Device.{Counts};
ghost use Rattle.capture3.specs.MemSource.{observed_in_memory};
ghost use Rattle.capture3.specs.Observed.{ReadGives, UpdatesSpent};

use crate::device::DeviceFailed;
use crate::device::plan::FaultPlan;
use crate::device::source::Source;
use std::marker::Model;

/// A source over bytes in memory, which exposes them to clauses. A call returns at most `block`
/// bytes, and only one call fails.
#[derive(Drop)]
pub struct MemSource<'a> {
    bytes: &'a [u8],
    block: usize,
    plan: FaultPlan,
    // The last read that did not fail gave none.
    is_spent: bool,
}

impl<'a> Model for MemSource<'a> {
    ghost use Rattle.std.specs.Prelude.{◌<◌};
    ghost use Rattle.capture3.specs.MemSource.{MemoryRead};

    ghost Value = { MemoryRead };

    ghost view = { λ s. record {
      left = s.bytes.now;
      block = s.block;
      fails_in = s.plan.fails_in;
      failures = s.plan.failures;
      is_spent = s.is_spent;
    } };

    ghost invariant = { λ s. 0 < s.block };
}

impl<'a> MemSource<'a> {
    /// Returns a source over these bytes whose call number `fail` fails. If `fail` is 0, none does.
    pub fn new(bytes: &'a [u8], block: usize, fail: u64) -> MemSource<'a>
        requires { 0 < block }
        ensures { result ≡ record {
          left = bytes.entry.now;
          block = block;
          fails_in = fail;
          failures = 0;
          is_spent = false;
        } }
    {
        MemSource {
            bytes,
            block,
            plan: FaultPlan::new(fail),
            is_spent: false,
        }
    }
}

impl Source for MemSource<'_> {
    ghost observed = { observed_in_memory };

    ghost failures = { λ s. s.failures };

    fn read_some(&mut self, buf: &mut [u8]) -> Result<usize, DeviceFailed>
        requires room { 0 < length buf.old }
        ensures within { IfOk result (λ n. n ≤ length buf.new) }
        ensures bytes { ReadGives (observed_in_memory self.old) (observed_in_memory self.new) result
            buf.new }
        ensures spent { UpdatesSpent (observed_in_memory self.old) (observed_in_memory self.new)
            result }
        ensures count { Counts self.old.failures self.new.failures result }

        // How many bytes a call gives, and which call fails.
        ensures given { IfOk result (λ n. n ≡ min (min self.old.block (length buf.old))
            (length self.old.left)) }
        ensures fails { IsErr result ↔ (self.old.fails_in ≡ 1) }
        ensures next { (self.new.fails_in ≡ self.old.fails_in - 1)
            × (self.new.block ≡ self.old.block) }
    {
        self.plan.next_call()?;
        let count = self.block.min(buf.len()).min(self.bytes.len());
        let (front, rest) = self.bytes.split_at(count);
        buf[..count].copy_from_slice(front);
        self.bytes = rest;
        self.is_spent = count == 0;
        Ok(count)
    }
}
