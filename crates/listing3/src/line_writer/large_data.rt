//! Writes text in which digits were left out.

ghost use Rattle.std.specs.Prelude.{◌≡◌, ◌++◌, take, drop, Some, IfErr};
ghost use Rattle.hex.specs.Hex.{encode_lower};
ghost use Rattle.canon3.specs.WriteErrors.{CountsWriting, IsOfWriting};
ghost use Rattle.listing3.specs.machinery.ItemsText.{filled};
ghost use Rattle.listing3.specs.machinery.WritesText.{WritesText};

use crate::line_text::LineText;
use crate::line_writer::items_text::Gap;
use canon3::{Sink, write_all, write_both};
use capture3::Error;

/// How many bytes are spelled before their digits are written. These stay in the near caches, and
/// they are as many as a program's output buffers, so they are not copied there.
const PART: usize = 32_768;

/// Writes a head, and then a text with the digits that were left out of it. It uses the head's
/// memory for them.
///
/// # Errors
///
/// - `Write` if a write failed.
/// - `Memory` if an allocation failed.
#[inline(never)]
pub(crate) fn write_filled<W: Sink>(
    sink: &mut W,
    head: &mut LineText,
    text: &[u8],
    gap: Gap,
    body: &[u8],
) -> Result<(), Error>
    ensures writes { WritesText (W.written sink.old) (W.written sink.new)
        (head.old ++ filled (Some gap) text.now body.now) result }
    ensures count { CountsWriting (W.failures sink.old) (W.failures sink.new) result }
    ensures error { IfErr result IsOfWriting }
{
    let at = gap.at.min(text.len());
    write_both(sink, head.bytes(), &text[..at])?;
    write_digits(sink, head, part_of(body, gap.skipped, gap.len))?;
    write_all(sink, &text[at..])
}

/// Returns `len` bytes after the first `skipped`, or as many as there are.
fn part_of(body: &[u8], skipped: usize, len: usize) -> &[u8]
    ensures { result.now ≡ take len (drop skipped body.now) }
{
    let rest = &body[skipped.min(body.len())..];
    &rest[..len.min(rest.len())]
}

/// Writes the digits of the bytes, part by part.
fn write_digits<W: Sink>(sink: &mut W, room: &mut LineText, bytes: &[u8]) -> Result<(), Error>
    ensures writes { WritesText (W.written sink.old) (W.written sink.new)
        (encode_lower bytes.now) result }
    ensures count { CountsWriting (W.failures sink.old) (W.failures sink.new) result }
    ensures error { IfErr result IsOfWriting }
{
    for part in bytes.chunks(PART) {
        write_part(sink, room, part)?;
    }
    Ok(())
}

/// Writes the digits of the bytes at once.
fn write_part<W: Sink>(sink: &mut W, room: &mut LineText, bytes: &[u8]) -> Result<(), Error>
    ensures writes { WritesText (W.written sink.old) (W.written sink.new)
        (encode_lower bytes.now) result }
    ensures count { CountsWriting (W.failures sink.old) (W.failures sink.new) result }
    ensures error { IfErr result IsOfWriting }
{
    room.forget();
    match room.append_bytes(bytes) {
        Ok(()) => write_all(sink, room.bytes()),
        Err(_) => Err(Error::Memory),
    }
}
