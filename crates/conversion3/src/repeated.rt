//! Bytes that were recorded again, with the same content or another.

ghost use Rattle.std.specs.Prelude.{◌≡◌, ℕ, List, IfOk, MatchOption};
ghost use Rattle.std.specs.List.{All};
ghost use Rattle.capture3.specs.Device.{Counts};
ghost use Rattle.payload3.specs.Readings.{Allow};
ghost use Rattle.conversion3.specs.machinery.Ordered.{HasSameBytes, IsAgainOf};

use capture3::DeviceFailed;
use payload3::Recorded;
use std::os::unix::fs::FileExt;
use streams3::{Pair, Run};

/// Returns the first bytes of pairs that came again with other content.
///
/// # Errors
///
/// `DeviceFailed` if a read of the file fails. It counts as a failure.
pub(crate) fn first_changed<F: FileExt>(
    recorded: &mut Recorded<'_, F>,
    pairs: &[Pair],
) -> Result<Option<Run>, DeviceFailed>
    ensures more { (file : List ℕ) → Allow recorded.new.readings file
        → Allow recorded.old.readings file }
    ensures found { IfOk result (λ found. (file : List ℕ) → Allow recorded.new.readings file
        → MatchOption found (All (HasSameBytes file) pairs.now) (IsAgainOf file pairs.now)) }
    ensures count { Counts recorded.old.failures recorded.new.failures result }
{
    for pair in pairs {
        if !recorded.is_same(pair)? {
            return Ok(Some(pair.again));
        }
    }
    Ok(None)
}
