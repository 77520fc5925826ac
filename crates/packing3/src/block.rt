//! A block of a source's bytes.

ghost use Rattle.std.specs.Prelude.{◌≡◌, ◌≤◌, ◌<◌, length, take, vec_len, IfOk, OnErr};
ghost use Rattle.capture3.specs.Observed.{Gave, IsSpent};
ghost use Rattle.capture3.specs.Device.{Counts};
ghost use Rattle.packing3.specs.Devices.{GaveFewer};

use capture3::{DeviceFailed, Source};
use std::alloc::{AllocError, Global};

/// Returns the given number of zeros.
pub(crate) fn zeros(alloc: Global, count: usize) -> Result<Vec<u8>, AllocError>
    ensures { IfOk result (λ block. vec_len block ≡ count) }
{
    vec![in alloc; 0; count]
}

/// Fills the block by as many reads as it takes, and returns how many bytes were read: fewer than
/// the block has only if none are left.
///
/// # Errors
///
/// `DeviceFailed` if a read failed. The bytes that were read before it are in the block.
pub fn fill<R: Source>(source: &mut R, block: &mut [u8]) -> Result<usize, DeviceFailed>
    ensures size { length block.new ≡ length block.old }
    ensures within { IfOk result (λ n. n ≤ length block.new) }
    ensures bytes { IfOk result
        (λ n. Gave (R.observed source.old) (R.observed source.new) (take n block.new)) }
    ensures end { IfOk result (λ n. n < length block.new → IsSpent (R.observed source.new)) }
    ensures err { OnErr result
        (GaveFewer (R.observed source.old) (R.observed source.new) (length block.old)) }
    ensures count { Counts (R.failures source.old) (R.failures source.new) result }
{
    let mut filled = 0;
    while filled < block.len() {
        let count = source.read_some(&mut block[filled..])?;
        if count == 0 {
            return Ok(filled);
        }
        filled += count;
    }
    Ok(filled)
}
