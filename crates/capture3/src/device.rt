//! What a failed call of a device returns.

pub(crate) mod mem_source;
pub(crate) mod plan;
pub(crate) mod source;
pub(crate) mod trail;

/// A read, a write or a flush failed.
#[derive(Clone, Copy, Debug, PartialEq, Eq, thiserror::Error)]
#[error("the device failed")]
pub struct DeviceFailed;
