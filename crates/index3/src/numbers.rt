//! Numbers as an index spells them, the lowest octet first.

ghost use Rattle.std.specs.Prelude.{◌≡◌, ◌++◌, OnOk};
ghost use Rattle.index3.specs.Numbers.{long, short};

use std::alloc::AllocError;

/// Appends a number of eight octets.
#[tactic(auto, unfolding(crate::specs::Numbers::long))]
pub(crate) fn push_long(out: &mut Vec<u8>, number: u64) -> Result<(), AllocError>
    ensures { OnOk result (out.new.items ≡ out.old.items ++ long number) }
{
    out.extend_from_slice(&number.to_le_bytes())
}

/// Appends a number of four octets.
#[tactic(auto, unfolding(crate::specs::Numbers::short))]
pub(crate) fn push_short(out: &mut Vec<u8>, number: u32) -> Result<(), AllocError>
    ensures { OnOk result (out.new.items ≡ out.old.items ++ short number) }
{
    out.extend_from_slice(&number.to_le_bytes())
}
