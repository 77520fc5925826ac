//! The writer of the canonical form, one message at a time.

ghost use Rattle.std.specs.Prelude.{◌≡◌, ◌≢◌, ◌≤◌, ◌++◌, ◌∷◌, ℕ, List, [], bytes_eq, drop, length, min, take, true, vec_len, IfOk, IsTrue, OnErr, OnOk};
ghost use Rattle.xdr3.specs.Item.{Handle as HandleKind, Kind, Opaque, WriteVerf, residue, word_bytes};
ghost use Rattle.xdr3.specs.Visit.{Adds, body_limit};
ghost use Rattle.canon3.specs.Bytes.{chunk_bytes, record_bytes};
ghost use Rattle.canon3.specs.HandleTable.{HoldsHandles};
ghost use Rattle.canon3.specs.machinery.MessageWriter.{Before, HoldsBefore, IsGoing, WriterRests, WriterStands, message_of, items_of_writer, values_of};
ghost use Rattle.capture3.specs.Rank.{number_limit, rank};
ghost use Rattle.canon3.specs.Renaming.{IsPlain};

use crate::numbers::Numbers;
use crate::sink::whole_writes::{HEAD, chunk_head};
use capture3::MessageVisit;
use nfs3_types::Handle;
use patches::Patches;
use record_mark::BODY_LIMIT;
use rpc_head::{Start, after_xid};
use std::alloc::{AllocError, Global};
use std::hash::BuildHasher;
use xdr3::room::{make_room, put_bytes};
use xdr3::{PlainField, Visit, residue, spelled_hyper, spelled_word};

/// So many bytes take longer to copy than to write by themselves.
const MANY: usize = 4_096;

/// The numbers of a capture's values so far, and what they replace in the body of the message whose
/// items are visited. The reader has the number of the message's xid.
#[derive(Drop)]
pub(crate) struct MessageWriter<S: BuildHasher + Drop> {
    pub(crate) handles: Numbers<Handle, S>,
    pub(crate) verfs: Numbers<[u8; 8], S>,
    /// The number of the message's xid, once its items were visited.
    pub(crate) xid: u32,
    /// What is replaced in the body after the xid.
    pub(crate) patches: Patches,
    /// A buffer for a message with its numbers. What it contains means nothing.
    pub(crate) room: Vec<u8>,
    /// An allocation failed, and the tables may have more than was noted.
    pub(crate) failed: bool,
}

/// Returns the handle's number. The handle has at most 64 bytes.
fn number_of_handle<S: BuildHasher + Drop>(
    handles: &mut Numbers<Handle, S>,
    bytes: &[u8],
) -> Result<u32, AllocError>
    requires { length bytes.now ≤ 64 }
    ensures number { (hs : List (List ℕ)) → HoldsHandles handles.old hs
        → IfOk result (λ n. n ≡ min (rank bytes_eq bytes.now (hs ++ bytes.now ∷ [])) number_limit) }
    ensures given { (hs : List (List ℕ)) → HoldsHandles handles.old hs
        → OnOk result (HoldsHandles handles.new (hs ++ bytes.now ∷ [])) }
{
    handles.number_of(Handle::from_short(bytes))
}

/// Returns the encoding of a handle of four bytes, which are the number.
fn spelled_number(number: u32) -> [u8; 8]
    ensures { result ≡ word_bytes 4 ++ word_bytes number }
{
    let mut run = [0u8; 8];
    run[..4].copy_from_slice(&spelled_word(4));
    run[4..].copy_from_slice(&spelled_word(number));
    run
}

/// Overwrites the first bytes of a buffer.
fn set_head(room: &mut [u8], head: [u8; HEAD])
    requires { HEAD ≤ length room.old }
    ensures { room.new ≡ head ++ drop HEAD room.old }
{
    room[..HEAD].copy_from_slice(&head);
}

impl<S: BuildHasher + Drop> MessageWriter<S> {
    /// Returns a writer before a capture.
    pub(crate) fn new(alloc: Global, handles: S, verfs: S) -> MessageWriter<S>
        ensures rests { WriterRests result (items_of_writer (values_of []) []) }
        ensures going { IsGoing result }
    {
        MessageWriter {
            handles: Numbers::new(alloc, handles),
            verfs: Numbers::new(alloc, verfs),
            xid: 0,
            patches: Patches::new(alloc),
            room: Vec::new(alloc),
            failed: false,
        }
    }

    /// Lets the message go, and keeps its values.
    pub(crate) fn end_message(&mut self)
        ensures rests { (before : Before) → HoldsBefore self.old before
            → WriterRests self.new (items_of_writer before []) }
        ensures going { IsGoing self.new }
    {
        self.patches.clear();
        self.failed = false;
    }

    /// Takes the number of the message's xid.
    #[inline(always)]
    pub(crate) fn set_number(&mut self, number: u32)
        ensures { self.new ≡ record self.old { xid = number } }
    {
        self.xid = number;
    }

    /// Returns an error if an earlier allocation failed; the writer can then not be used further.
    pub(crate) fn unless_failed(&self) -> Result<(), AllocError>
        ensures { OnOk result (IsGoing self.now) }
    {
        if self.failed {
            return Err(AllocError);
        }
        Ok(())
    }

    /// Returns whether two messages with these bodies have the same number, and the same
    /// replacements and bytes between them, one by one.
    pub(crate) fn is_alike(&self, body: &[u8], other: &MessageWriter<S>, other_body: &[u8]) -> bool
        ensures { IsTrue result
            → message_of self.now body.now ≡ message_of other.now other_body.now }
    {
        self.xid == other.xid
            && self
                .patches
                .are_alike(after_xid(body), &other.patches, after_xid(other_body))
    }

    /// Returns the first bytes of what was put into `room`.
    #[inline(always)]
    pub(crate) fn first_bytes(&self, len: usize) -> &[u8]
        requires { len ≤ vec_len self.now.room }
        ensures { result.now ≡ take len self.now.room.items }
    {
        &self.room[..len]
    }

    /// Puts the message with this body into `room`, with numbers, and returns its length. The items
    /// that were visited are those of the body.
    pub(crate) fn compose(&mut self, body: &[u8]) -> Result<usize, AllocError>
        ensures within { IfOk result (λ len. len ≤ vec_len self.new.room) }
        ensures message { IfOk result
            (λ len. take len self.new.room.items ≡ message_of self.old body.now) }
        ensures holds { (before : Before) → HoldsBefore self.old before
            → HoldsBefore self.new before }
    {
        make_room(&mut self.room, 0, 4)?;
        let end = put_bytes(&mut self.room, 0, &spelled_word(self.xid));
        self.patches.write(after_xid(body), &mut self.room, end)
    }

    /// Puts the chunk of the message with this body into `room`, with numbers: a record of one
    /// fragment. If many bytes stay after the last replacement, they are not put there. Returns the
    /// length of what is in `room`, and the bytes that follow it.
    ///
    /// # Errors
    ///
    /// `AllocError` if an allocation fails, or if the message has more than 16,777,216 bytes.
    pub(crate) fn compose_chunk<'b>(
        &mut self,
        body: &'b [u8],
    ) -> Result<(usize, &'b [u8]), AllocError>
        ensures within { IfOk result (λ r. r.0 ≤ vec_len self.new.room) }
        ensures chunk { IfOk result (λ r. take r.0 self.new.room.items ++ r.1.now
            ≡ chunk_bytes (record_bytes (message_of self.old body.now))) }
        ensures holds { (before : Before) → HoldsBefore self.old before
            → HoldsBefore self.new before }
    {
        let (end, rest) = self.compose_behind_head(body)?;
        let len = (end - HEAD).saturating_add(rest.len());
        if len > BODY_LIMIT as usize {
            return Err(AllocError);
        }
        set_head(&mut self.room, chunk_head(len as u32));
        Ok((end, rest))
    }

    /// Puts the message with this body into `room` after the bytes of a head, as `compose_chunk`
    /// does.
    fn compose_behind_head<'b>(&mut self, body: &'b [u8]) -> Result<(usize, &'b [u8]), AllocError>
        ensures within { IfOk result (λ r. r.0 ≤ vec_len self.new.room) }
        ensures from { IfOk result (λ r. HEAD ≤ r.0) }
        ensures message { IfOk result
            (λ r. drop HEAD (take r.0 self.new.room.items ++ r.1.now)
            ≡ message_of self.old body.now) }
        ensures holds { (before : Before) → HoldsBefore self.old before
            → HoldsBefore self.new before }
    {
        make_room(&mut self.room, 0, HEAD + 4)?;
        let start = put_bytes(&mut self.room, HEAD, &spelled_word(self.xid));
        let (end, rest) = self
            .patches
            .write_front(after_xid(body), &mut self.room, start)?;
        if rest.len() >= MANY {
            return Ok((end, rest));
        }
        Ok((append(&mut self.room, end, rest)?, &[]))
    }

    /// Notes that a file handle is replaced by a handle of its number.
    fn note_handle(&mut self, bytes: &[u8]) -> Result<(), AllocError>
        requires short { length bytes.now ≤ 64 }
        requires some { bytes.now ≢ [] }
        ensures ok { (name : List ℕ) → OnOk result (Adds WriterStands self.old self.new
            (Opaque HandleKind name bytes.now ∷ [])) }
    {
        let number = number_of_handle(&mut self.handles, bytes)?;
        let size = 4 + (bytes.len() + residue(bytes.len()));
        self.patches.replace(size, &spelled_number(number), 8)
    }

    /// Notes that a write verifier is replaced by its number.
    fn note_verifier(&mut self, bytes: &[u8; 8]) -> Result<(), AllocError>
        ensures ok { (name : List ℕ) → OnOk result (Adds WriterStands self.old self.new
            (WriteVerf name bytes.now ∷ [])) }
    {
        let number = self.verfs.number_of(*bytes)?;
        self.patches
            .replace(8, &spelled_hyper(u64::from(number)), 8)
    }

    /// Notes that opaque data of `len` bytes stays, and that its residual bytes become zeros. A
    /// visitor does not see what they are.
    #[inline(always)]
    fn note_run(&mut self, len: usize) -> Result<(), AllocError>
        requires { len ≤ body_limit }
        ensures { (kind : Kind) (name bytes : List ℕ) → IsPlain (Opaque kind name bytes)
            → length bytes ≡ len → OnOk result
            (Adds WriterStands self.old self.new (Opaque kind name bytes ∷ [])) }
    {
        self.patches.keep(4 + len);
        match residue(len) {
            0 => Ok(()),
            count => self.patches.zero(count),
        }
    }

    /// Says nothing more of the tables after an error.
    #[inline(always)]
    fn fail_for_good(&mut self, noted: Result<(), AllocError>) -> Result<(), AllocError>
        ensures result { result ≡ noted }
        ensures ok { OnOk noted (self.new ≡ self.old) }
        ensures err { OnErr noted (self.new.failed ≡ true) }
    {
        if noted.is_err() {
            self.failed = true;
        }
        noted
    }
}

/// Writes the bytes at `at` into a buffer, which is made longer if it is too short, and returns the
/// position after them.
#[inline(always)]
fn append(room: &mut Vec<u8>, at: usize, bytes: &[u8]) -> Result<usize, AllocError>
    requires { at ≤ vec_len room.old }
    ensures within { IfOk result (λ end. end ≤ vec_len room.new) }
    ensures from { IfOk result (λ end. at ≤ end) }
    ensures written { IfOk result (λ end. take end room.new.items
        ≡ take at room.old.items ++ bytes.now) }
{
    if bytes.is_empty() {
        return Ok(at);
    }
    make_room(room, at, bytes.len())?;
    Ok(put_bytes(room, at, bytes))
}

#[tactic(auto, unfolding(xdr3::specs::Visit::Adds, xdr3::specs::Visit::Keeps))]
impl<S: BuildHasher + Drop> Visit for MessageWriter<S> {
    ghost use Rattle.canon3.specs.machinery.MessageWriter.{WriterStands};

    ghost stands = { WriterStands };

    fn word(&mut self, _name: &'static str, _n: u32) -> Result<(), AllocError> {
        self.patches.keep(4);
        Ok(())
    }

    fn hyper(&mut self, _name: &'static str, _n: u64) -> Result<(), AllocError> {
        self.patches.keep(8);
        Ok(())
    }

    fn fixed(&mut self, _name: &'static str, bytes: &[u8; 8]) -> Result<(), AllocError> {
        self.patches.keep(bytes.len());
        Ok(())
    }

    fn write_verf(&mut self, _name: &'static str, bytes: &[u8; 8]) -> Result<(), AllocError> {
        let noted = self.note_verifier(bytes);
        self.fail_for_good(noted)
    }

    // Inlined, since most data has no residual bytes: an empty verifier is one addition and a test.
    #[inline(always)]
    fn var(&mut self, _name: &'static str, bytes: &[u8]) -> Result<(), AllocError> {
        let noted = self.note_run(bytes.len());
        self.fail_for_good(noted)
    }

    #[inline(always)]
    fn text(&mut self, _name: &'static str, bytes: &[u8]) -> Result<(), AllocError> {
        let noted = self.note_run(bytes.len());
        self.fail_for_good(noted)
    }

    fn handle(&mut self, _name: &'static str, bytes: &[u8]) -> Result<(), AllocError> {
        if bytes.is_empty() {
            self.patches.keep(4);
            return Ok(());
        }
        let noted = self.note_handle(bytes);
        self.fail_for_good(noted)
    }

    fn rest(&mut self, _name: &'static str, bytes: &[u8]) -> Result<(), AllocError> {
        self.patches.keep(bytes.len());
        Ok(())
    }

    // Inlined, so that a run of a constant size is one addition.
    #[inline(always)]
    fn plain(&mut self, _fields: &[PlainField], bytes: &[u8]) -> Result<(), AllocError> {
        self.patches.keep(bytes.len());
        Ok(())
    }
}

impl<S: BuildHasher + Drop> MessageVisit for MessageWriter<S> {
    ghost use Rattle.canon3.specs.machinery.MessageWriter.{WriterRests};

    ghost rests = { WriterRests };

    // The mtype stays; the xid is not among the replacements.
    fn begin(&mut self, _start: Start) -> Result<(), AllocError> {
        self.patches.keep(4);
        Ok(())
    }
}
