//! Bytes that a sink takes whole.

ghost use Rattle.std.specs.Prelude.{◌≡◌, ◌≤◌, ◌+◌, ◌^◌, ◌++◌, IfErr, OnErr, OnOk};
ghost use Rattle.std.specs.Io.KnownBytes.{Appends};
ghost use Rattle.xdr3.specs.Item.{word_bytes};
ghost use Rattle.canon3.specs.SinkWrites.{AppendsFront};
ghost use Rattle.canon3.specs.WriteErrors.{CountsWriting};

use crate::sink::Sink;
use capture3::{Error, pack_chunk};
use record_mark::{BODY_LIMIT, header};

/// How many bytes are before the body in the chunk of a record of one fragment.
pub(crate) const HEAD: usize = 8;

/// Writes all of the bytes, in as many pieces as the sink takes them. After an error a prefix of
/// them was written.
///
/// # Errors
///
/// `Write` if a write failed.
pub fn write_all<W: Sink>(sink: &mut W, bytes: &[u8]) -> Result<(), Error>
    ensures ok { OnOk result (Appends (W.written sink.old) (W.written sink.new) bytes.now) }
    ensures err { OnErr result (AppendsFront (W.written sink.old) (W.written sink.new) bytes.now) }
    ensures count { CountsWriting (W.failures sink.old) (W.failures sink.new) result }
    ensures error { IfErr result (λ error. error ≡ Error.Write) }
{
    let mut rest = bytes;
    while !rest.is_empty() {
        match sink.write_some(rest) {
            Ok(count) => rest = &rest[count..],
            Err(_) => return Err(Error::Write),
        }
    }
    Ok(())
}

/// Writes both, one after the other. After an error a prefix of both was written.
///
/// # Errors
///
/// `Write` if a write failed.
#[inline(always)]
pub fn write_both<W: Sink>(sink: &mut W, first: &[u8], second: &[u8]) -> Result<(), Error>
    ensures ok { OnOk result (Appends (W.written sink.old) (W.written sink.new)
        (first.now ++ second.now)) }
    ensures err { OnErr result (AppendsFront (W.written sink.old) (W.written sink.new)
        (first.now ++ second.now)) }
    ensures count { CountsWriting (W.failures sink.old) (W.failures sink.new) result }
    ensures error { IfErr result (λ error. error ≡ Error.Write) }
{
    write_all(sink, first)?;
    write_all(sink, second)
}

/// Returns the length of the chunk of a body of `len` bytes, and the body's header.
pub(crate) fn chunk_head(len: u32) -> [u8; HEAD]
    requires { len ≤ BODY_LIMIT }
    ensures { result ≡ word_bytes (4 + len) ++ word_bytes (2 ^ 31 + len) }
{
    let mut front = [0u8; HEAD];
    front[..4].copy_from_slice(&pack_chunk(4 + len));
    front[4..].copy_from_slice(&header(len));
    front
}
