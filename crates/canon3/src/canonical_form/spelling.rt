//! What an entry is written as in the canonical form, and its writing.

ghost use Rattle.std.specs.Prelude.{◌≡◌, ◌≢◌, ◌<◌, ◌++◌, ◌∷◌, List, [], IfErr, IfOk, MatchBool, OnErr, OnOk};
ghost use Rattle.std.specs.Io.KnownBytes.{Appends};
ghost use Rattle.capture3.specs.Entry as spec;
ghost use Rattle.canon3.specs.Laws.{AreFirst};
ghost use Rattle.canon3.specs.machinery.MessageWriter.{Before, HoldsBefore, WriterRests, WriterStands, message_of, values_before};
ghost use Rattle.canon3.specs.machinery.Spelling.{HasSpelled, spelling_of};
ghost use Rattle.capture3.specs.MessageVisit.{HasHeard};
ghost use Rattle.capture3.specs.Numbering.{IsLentAfter};
ghost use Rattle.canon3.specs.WriteErrors.{CountsWriting, IsOfWriting};
ghost use Rattle.canon3.specs.SinkWrites.{AppendsFront};

use crate::canonical_form::message_writer::MessageWriter;
use crate::comparison::verdict::{SameError, Which, out_of_memory_in};
use crate::sink::Sink;
use crate::sink::container::write_word;
use crate::sink::whole_writes::write_both;
use capture3::{Error, LentEntry};
use std::alloc::AllocError;
use std::hash::BuildHasher;

/// What an entry is written as.
#[derive(Clone, Copy)]
pub(crate) enum Spelling<'a> {
    /// The word 0.
    Zero,
    /// The word 1.
    One,
    /// The message with this body, in which the writer has replacements.
    Message(&'a [u8]),
}

/// Returns what an entry is written as, whose items the writer visited. After an error nothing can
/// follow.
#[inline(always)]
pub(crate) fn spelling_of_entry<'a, S: BuildHasher + Drop>(
    message_writer: &mut MessageWriter<S>,
    entry: LentEntry<'a>,
) -> Result<Spelling<'a>, AllocError>
    ensures { (entries : List spec.Entry) (one : spec.Entry)
        → IsLentAfter entries entry.entry one
        → AreFirst (entries ++ one ∷ [])
        → HasHeard WriterRests WriterStands message_writer.old (values_before entries) one
        → IfOk result (λ form. HasSpelled message_writer.new form entries one) }
{
    message_writer.unless_failed()?;
    match entry {
        LentEntry::Begin => Ok(Spelling::One),
        LentEntry::Call(call) => {
            message_writer.set_number(call.number);
            Ok(Spelling::Message(call.body))
        }
        LentEntry::Reply(reply) => {
            message_writer.set_number(reply.number);
            Ok(Spelling::Message(reply.body))
        }
        LentEntry::Turn | LentEntry::Close | LentEntry::End => Ok(Spelling::Zero),
    }
}

/// Returns whether two entries are written as the same bytes.
///
/// # Errors
///
/// `Memory` if an allocation fails.
pub(crate) fn are_alike<S: BuildHasher + Drop>(
    form: Spelling<'_>,
    writer: &mut MessageWriter<S>,
    other_form: Spelling<'_>,
    other: &mut MessageWriter<S>,
) -> Result<bool, SameError>
    ensures alike { IfOk result (λ alike. MatchBool alike
        (spelling_of form.entry writer.old ≡ spelling_of other_form.entry other.old)
        (spelling_of form.entry writer.old ≢ spelling_of other_form.entry other.old)) }
    ensures holds { (before : Before) → HoldsBefore writer.old before
        → HoldsBefore writer.new before }
    ensures other_holds { (before : Before) → HoldsBefore other.old before
        → HoldsBefore other.new before }
    ensures memory { IfErr result (λ error. error.error ≡ Error.Memory) }
{
    match form {
        Spelling::Zero => Ok(matches!(other_form, Spelling::Zero)),
        Spelling::One => Ok(matches!(other_form, Spelling::One)),
        Spelling::Message(body) => match other_form {
            Spelling::Message(other_body) => have_same_bytes(writer, body, other, other_body),
            Spelling::Zero | Spelling::One => Ok(false),
        },
    }
}

/// Returns whether two messages have the same bytes with the writers' replacements. It composes
/// them only if the replacements and what stays between them are not the same one by one.
fn have_same_bytes<S: BuildHasher + Drop>(
    writer: &mut MessageWriter<S>,
    body: &[u8],
    other: &mut MessageWriter<S>,
    other_body: &[u8],
) -> Result<bool, SameError>
    ensures same { IfOk result (λ same. MatchBool same
        (message_of writer.old body.now ≡ message_of other.old other_body.now)
        (message_of writer.old body.now ≢ message_of other.old other_body.now)) }
    ensures holds { (before : Before) → HoldsBefore writer.old before
        → HoldsBefore writer.new before }
    ensures other_holds { (before : Before) → HoldsBefore other.old before
        → HoldsBefore other.new before }
    ensures memory { IfErr result (λ error. error.error ≡ Error.Memory) }
{
    if writer.is_alike(body, other, other_body) {
        return Ok(true);
    }
    let Ok(len) = writer.compose(body) else {
        return Err(out_of_memory_in(Which::First));
    };
    let Ok(other_len) = other.compose(other_body) else {
        return Err(out_of_memory_in(Which::Second));
    };
    Ok(writer.first_bytes(len) == other.first_bytes(other_len))
}

/// Writes what an entry is written as. After an error a prefix of it was written.
///
/// # Errors
///
/// - `Write` if a write failed.
/// - `Memory` if an allocation failed, or the message has more than 16,777,216 bytes.
pub(crate) fn write_spelling<W: Sink, S: BuildHasher + Drop>(
    sink: &mut W,
    form: Spelling<'_>,
    message_writer: &mut MessageWriter<S>,
) -> Result<(), Error>
    ensures ok { OnOk result
        (Appends (W.written sink.old) (W.written sink.new)
        (spelling_of form.entry message_writer.old)) }
    ensures err { OnErr result
        (AppendsFront (W.written sink.old) (W.written sink.new)
        (spelling_of form.entry message_writer.old)) }
    ensures holds { (before : Before) → HoldsBefore message_writer.old before
        → HoldsBefore message_writer.new before }
    ensures count { CountsWriting (W.failures sink.old) (W.failures sink.new) result }
    ensures error { IfErr result IsOfWriting }
{
    match form {
        Spelling::Zero => write_word(sink, 0),
        Spelling::One => write_word(sink, 1),
        Spelling::Message(body) => {
            let Ok((len, rest)) = message_writer.compose_chunk(body) else {
                return Err(Error::Memory);
            };
            write_both(sink, message_writer.first_bytes(len), rest)
        }
    }
}
