//! The end of what is written through a buffer.

ghost use Rattle.std.specs.Prelude.{◌≡◌, ◌≢◌, Err};
ghost use Rattle.std.specs.Io.Buffered.{writer_contents, writer_inner};
ghost use Rattle.program3.specs.Files.{WritesOut};

use capture3::Error;
use std::io::{BufWriter, Write};

/// How many bytes are gathered before they are written.
pub const WRITTEN_AT_ONCE: usize = 65_536;

/// Writes what `buffer` has gathered, unless `came` is a failed write: after that nothing more is written.
/// Returns `came` and the writer.
///
/// # Errors
///
/// The error of `came`, or `Write` if the rest cannot be written.
pub fn write_out<C: Drop, W: Write + Drop>(
    came: Result<C, Error>,
    mut buffer: BufWriter<W>,
) -> (Result<C, Error>, W)
    ensures failed { came ≡ Err Error.Write → result.1 ≡ writer_inner buffer }
    ensures came { came ≡ Err Error.Write → result.0 ≡ came }
    ensures written { came ≢ Err Error.Write
        → WritesOut came (writer_contents W.contents buffer) result.0 (W.contents result.1) }
{
    let has_failed = match &came {
        Err(Error::Write) => true,
        _ => buffer.flush().is_err(),
    };
    let (writer, _unwritten) = buffer.into_parts();
    if has_failed {
        (Err(Error::Write), writer)
    } else {
        (came, writer)
    }
}
