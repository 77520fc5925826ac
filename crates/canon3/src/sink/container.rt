//! The words and the messages of a container, to a sink.

ghost use Rattle.std.specs.Prelude.{◌≡◌, ◌<◌, ◌++◌, ◌⊎◌, length, IfErr, OnErr, OnOk};
ghost use Rattle.std.specs.Io.KnownBytes.{Appends};
ghost use Rattle.record_mark.specs.RecordMark.{max_body};
ghost use Rattle.xdr3.specs.Item.{word_bytes};
ghost use Rattle.canon3.specs.Bytes.{chunk_bytes, magic_before, record_bytes};
ghost use Rattle.canon3.specs.WriteErrors.{CountsWriting};
ghost use Rattle.canon3.specs.SinkWrites.{AppendsFront};

use crate::sink::Sink;
use crate::sink::whole_writes::{chunk_head, write_all, write_both};
use capture3::{Error, Progress, pack_chunk, pack_header};
use record_mark::BODY_LIMIT;

/// Writes the magic (the first eight bytes of a capture), if no connection began. After an error a
/// prefix of it was written.
///
/// # Errors
///
/// `Write` if a write failed.
pub fn write_magic<W: Sink>(progress: Progress, sink: &mut W) -> Result<(), Error>
    ensures ok { OnOk result
        (Appends (W.written sink.old) (W.written sink.new)
        (magic_before progress.connections)) }
    ensures err { OnErr result
        (AppendsFront (W.written sink.old) (W.written sink.new)
        (magic_before progress.connections)) }
    ensures count { CountsWriting (W.failures sink.old) (W.failures sink.new) result }
    ensures error { IfErr result (λ error. error ≡ Error.Write) }
{
    if progress.connections > 0 {
        return Ok(());
    }
    write_all(sink, &pack_header())
}

/// Writes a word of the container. After an error a prefix of it was written.
///
/// # Errors
///
/// `Write` if a write failed.
pub fn write_word<W: Sink>(sink: &mut W, n: u32) -> Result<(), Error>
    ensures ok { OnOk result (Appends (W.written sink.old) (W.written sink.new) (word_bytes n)) }
    ensures err { OnErr result
        (AppendsFront (W.written sink.old) (W.written sink.new) (word_bytes n)) }
    ensures count { CountsWriting (W.failures sink.old) (W.failures sink.new) result }
    ensures error { IfErr result (λ error. error ≡ Error.Write) }
{
    write_all(sink, &pack_chunk(n))
}

/// Writes a message as one chunk, which is one record of one fragment. The message is given in two
/// parts. After an error a prefix of it was written.
///
/// # Errors
///
/// - `Write` if a write failed.
/// - `Memory` if the message has more than 16,777,216 bytes.
// No message of a capture has more bytes than a record may have, and with numbers it has no more.
pub fn write_message<W: Sink>(sink: &mut W, front: &[u8], back: &[u8]) -> Result<(), Error>
    ensures ok { OnOk result
        (Appends (W.written sink.old) (W.written sink.new)
        (chunk_bytes (record_bytes (front.now ++ back.now)))) }
    ensures err { OnErr result
        (AppendsFront (W.written sink.old) (W.written sink.new)
        (chunk_bytes (record_bytes (front.now ++ back.now)))) }
    ensures count { CountsWriting (W.failures sink.old) (W.failures sink.new) result }
    ensures error { IfErr result (λ error. (error ≡ Error.Write)
        ⊎ ((error ≡ Error.Memory) × (max_body < length (front.now ++ back.now)))) }
{
    let len = front.len().saturating_add(back.len());
    if len > BODY_LIMIT as usize {
        return Err(Error::Memory);
    }
    write_both(sink, &chunk_head(len as u32), front)?;
    write_all(sink, back)
}
