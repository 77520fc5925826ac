//! Zeros in place of the bytes of a body.

ghost use Rattle.std.specs.Prelude.{◌≡◌, ◌++◌, replicate, OnOk};

use std::alloc::AllocError;
use xdr3::{Visit, Writer};

/// What is written at once.
const ZEROS: [u8; 256] = [0; 256];

/// Writes so many zeros. After an error some of them may be written.
pub(crate) fn write_zeros(writer: &mut Writer, count: usize) -> Result<(), AllocError>
    ensures { OnOk result (writer.new ≡ writer.old ++ replicate count 0) }
{
    let mut left = count;
    while left > ZEROS.len() {
        writer.rest("", &ZEROS)?;
        left -= ZEROS.len();
    }
    writer.rest("", &ZEROS[..left])
}
