//! Which call of a device in memory fails.

ghost use Rattle.std.specs.Prelude.{◌≡◌, ◌+◌, ◌-◌, ◌↔◌, ◌^◌, min, IsErr};
ghost use Rattle.capture3.specs.Device.{Counts};

use crate::device::DeviceFailed;

/// Which call of a device in memory fails, and how many have failed.
#[derive(Clone, Copy)]
pub struct FaultPlan {
    /// The call with this number fails, counted from the next as 1. If it is 0, none does.
    pub fails_in: u64,
    /// Up to 2^64 - 1.
    pub failures: u64,
}

impl FaultPlan {
    /// Returns a plan by which the call with this number fails. None has failed yet.
    pub fn new(fails_in: u64) -> FaultPlan
        ensures { result ≡ record { fails_in = fails_in; failures = 0 } }
    {
        FaultPlan {
            fails_in,
            failures: 0,
        }
    }

    /// Counts a call, and fails if it is the one that fails.
    pub fn next_call(&mut self) -> Result<(), DeviceFailed>
        ensures fails { IsErr result ↔ (self.old.fails_in ≡ 1) }
        ensures next { self.new.fails_in ≡ self.old.fails_in - 1 }
        ensures count { Counts self.old.failures self.new.failures result }
    {
        if self.fails_in == 0 {
            return Ok(());
        }
        self.fails_in -= 1;
        if self.fails_in == 0 {
            return Err(self.fail());
        }
        Ok(())
    }

    /// Counts a failure that is not of the plan.
    pub fn fail(&mut self) -> DeviceFailed
        ensures count { self.new.failures ≡ min (self.old.failures + 1) (2 ^ 64 - 1) }
        ensures plan { self.new.fails_in ≡ self.old.fails_in }
    {
        self.failures = self.failures.saturating_add(1);
        DeviceFailed
    }
}
