//! Refusals of messages.

pub(crate) mod calls;
pub(crate) mod counted_calls;
pub(crate) mod counting;
pub(crate) mod reading;
pub(crate) mod scan;
pub(crate) mod silent;
pub(crate) mod values;
pub(crate) mod visiting;

ghost use Rattle.std.specs.Prelude.{◌≡◌};

use xdr3::{GetError, Reason, Stop};

pub(crate) fn stop(at: u32, reason: Reason) -> GetError
    ensures { result ≡ GetError.Stop (record { at = at; reason = reason }) }
{
    GetError::Stop(Stop { at, reason })
}
