//! A sink for what is not written.

use crate::sink::Sink;
use capture3::DeviceFailed;

/// A sink that takes all bytes and keeps none. Its calls never fail.
#[derive(Drop)]
pub(crate) struct Nowhere;

impl Sink for Nowhere {
    ghost use Rattle.std.specs.Prelude.{None};

    ghost written = { λ sink. None };

    ghost flushed = { λ sink. None };

    ghost failures = { λ sink. 0 };

    fn write_some(&mut self, piece: &[u8]) -> Result<usize, DeviceFailed> {
        Ok(piece.len())
    }

    fn flush_all(&mut self) -> Result<(), DeviceFailed> {
        Ok(())
    }
}
