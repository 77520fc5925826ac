//! The body of a call without the name of its machine.

ghost use Rattle.std.specs.Prelude.{◌≡◌, ◌≤◌, ◌+◌, ◌++◌, drop, length, take, MatchOption, IfErr, OnErr, OnOk, false, true};
ghost use Rattle.std.specs.Io.KnownBytes.{Appends};
ghost use Rattle.xdr3.specs.Item.{word_bytes};
ghost use Rattle.canon3.specs.Bytes.{chunk_bytes, record_bytes};
ghost use Rattle.canon3.specs.SinkWrites.{AppendsFront};
ghost use Rattle.canon3.specs.WriteErrors.{CountsWriting, IsOfWriting};
ghost use Rattle.masking3.specs.machinery.UnnamedBody.{has_name, head_less_by, name_room, unnamed_body};

use byteorder::{BigEndian, ByteOrder};
use canon3::{Sink, write_message};
use capture3::Error;
use xdr3::room::put_bytes;
use xdr3::spelled_word;

/// How many bytes a call has up to the name, if the flavor is AUTH_SYS (RFC 5531, section 9 and
/// appendix A).
const HEAD: usize = 40;

/// Returns how many bytes the name has in the body of a call, with its residual bytes, if the flavor is
/// AUTH_SYS.
fn name_room(body: &[u8]) -> Option<usize>
    ensures room { MatchOption result (has_name body.now ≡ false)
        (λ room. (has_name body.now ≡ true) × (room ≡ name_room body.now)) }
    ensures within { MatchOption result Unit (λ room. HEAD + room ≤ length body.now) }
{
    if body.len() < HEAD || BigEndian::read_u32(&body[24..]) != 1 {
        return None;
    }
    let len = BigEndian::read_u32(&body[36..]) as usize;
    let room = len + (4 - len % 4) % 4;
    if room > body.len() - HEAD {
        return None;
    }
    Some(room)
}

/// Puts the first bytes of the body, up to the name, with this length of the credential and an empty name.
fn put_head(head: &mut [u8], body: &[u8], size: u32)
    requires head { length head.old ≡ HEAD }
    requires body { HEAD ≤ length body.now }
    ensures { head.new ≡ ((take 28 body.now ++ word_bytes size) ++ take 4 (drop 32 body.now))
        ++ word_bytes 0 }
{
    put_bytes(head, 0, &body[..28]);
    put_bytes(head, 28, &spelled_word(size));
    put_bytes(head, 32, &body[32..36]);
    put_bytes(head, 36, &spelled_word(0));
}

/// Returns the first bytes of the body, up to the name, with an empty one in place of one of so many
/// bytes: the length of the credential is less by them.
fn unnamed_head(body: &[u8], room: usize) -> [u8; HEAD]
    requires { HEAD + room ≤ length body.now }
    ensures { result ≡ head_less_by room body.now }
{
    let size = BigEndian::read_u32(&body[28..]) as usize;
    let mut head = [0u8; HEAD];
    put_head(&mut head, body, size.saturating_sub(room) as u32);
    head
}

/// Writes a call, without the name of its machine if it has one. After an error a prefix of it was
/// written.
///
/// # Errors
///
/// - `Write` if a write failed.
/// - `Memory` if the call has more than 16,777,216 bytes.
pub(crate) fn write_unnamed<W: Sink>(sink: &mut W, body: &[u8]) -> Result<(), Error>
    ensures ok { OnOk result (Appends (W.written sink.old) (W.written sink.new)
        (chunk_bytes (record_bytes (unnamed_body body.now)))) }
    ensures err { OnErr result (AppendsFront (W.written sink.old) (W.written sink.new)
        (chunk_bytes (record_bytes (unnamed_body body.now)))) }
    ensures count { CountsWriting (W.failures sink.old) (W.failures sink.new) result }
    ensures error { IfErr result IsOfWriting }
{
    match name_room(body) {
        Some(room) => write_message(sink, &unnamed_head(body, room), &body[HEAD + room..]),
        None => write_message(sink, body, &[]),
    }
}
