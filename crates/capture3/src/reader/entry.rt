//! The entries of a capture.

ghost use Rattle.std.specs.Prelude.{◌≡◌, ◌≤◌, ℕ, List, length, is_some, IfOk, IfSome, OnOk};
ghost use Rattle.record_mark.specs.RecordMark.{max_body};
ghost use Rattle.xdr3.specs.Item.{Item};
ghost use Rattle.capture3.specs.Bodies.{IsCall, IsReply, Starts, xid_in};
ghost use Rattle.capture3.specs.MessageScan.{PassesMessage};
ghost use Rattle.capture3.specs.machinery.Spelled.{SpellsCall, SpellsReply};

use crate::message::calls::{NumberedCall, OneCall};
use crate::message::reading::{read_call, read_reply};
use crate::message::scan::{scan_call, scan_reply};
use crate::message::values::{CallMsg, ReplyMsg};
use crate::message::visiting::MessageVisit;
use rpc_head::{ProcId, start};
use std::alloc::{AllocError, Global};
use xdr3::{GetError, Input};

/// What an entry is. A message has its procedure with it; that of a reply is its call's.
#[derive(Clone, Copy, Debug, PartialEq, Eq)]
pub enum Kind {
    Begin,
    Call(ProcId),
    Turn,
    Reply(ProcId),
    Close,
    End,
}

/// A borrowed call: its procedure, its number, and the body that encodes it.
#[derive(Clone, Copy)]
pub struct CallRef<'a> {
    pub id: ProcId,
    /// Says in which order the xids of the connection's calls first came: 1 for the first, 2 for
    /// the next other one, and so on. A call that is sent again has the number of the first.
    pub number: u32,
    pub body: &'a [u8],
    pub ghost short: { length body.now ≤ max_body },
    pub ghost spells: { ∥ SpellsCall id body.now ∥₁ },
}

/// A borrowed reply: the procedure and the number of its call, and the body that encodes it.
#[derive(Clone, Copy)]
pub struct ReplyRef<'a> {
    pub id: ProcId,
    pub number: u32,
    pub body: &'a [u8],
    pub ghost short: { length body.now ≤ max_body },
    pub ghost spells: { ∥ SpellsReply id body.now ∥₁ },
}

/// An entry that borrows from the current record.
#[derive(Clone, Copy)]
pub enum LentEntry<'a> {
    Begin,
    Call(CallRef<'a>),
    Turn,
    Reply(ReplyRef<'a>),
    Close,
    End,
}

/// An owned call: its procedure, and the body that encodes it.
#[derive(Drop)]
pub struct KeptCall {
    pub id: ProcId,
    pub body: Vec<u8>,
    pub ghost short: { length body.items ≤ max_body },
    pub ghost spells: { ∥ SpellsCall id body.items ∥₁ },
}

/// An owned reply: the procedure of its call, and the body that encodes it.
#[derive(Drop)]
pub struct KeptReply {
    pub id: ProcId,
    pub body: Vec<u8>,
    pub ghost short: { length body.items ≤ max_body },
    pub ghost spells: { ∥ SpellsReply id body.items ∥₁ },
}

/// What a capture consists of: for each connection `Begin`, its calls, `Turn`, its replies and
/// `Close`, and then `End`.
#[derive(Drop)]
pub enum Entry {
    Begin,
    Call(KeptCall),
    Turn,
    Reply(KeptReply),
    Close,
    End,
}

/// Returns the xid of a body that was read as a message before (RFC 5531, section 9).
fn xid_of(body: &[u8]) -> u32
    requires short { length body.now ≤ max_body }
    requires started { ∥ ((xid : ℕ) × (mtype : ℕ) × Starts body.now xid mtype) ∥₁ }
    ensures { (xid : ℕ) (mtype : ℕ) → Starts body.now xid mtype → result ≡ xid }
{
    let Ok(start) = start(&mut Input::new(body)) else {
        unreachable!()
    };
    start.xid
}

impl<'a> CallRef<'a> {
    ghost use Rattle.procs3.specs.Table.{name_of_procedure};
    ghost use Rattle.procs3.specs.Variants.{args_name};
    ghost use Rattle.capture3.specs.MessageValues.{call_items};

    /// Returns the call that the body encodes, with the arguments of its procedure (RFC 5531, section
    /// 9). It borrows from the body, and allocates nothing.
    pub fn read(&self, alloc: Global) -> CallMsg<'a>
        ensures call { IsCall self.now.body.now (call_items result) }
        ensures procedure { result.head.id ≡ self.now.id }
        ensures variant { args_name result.args ≡ name_of_procedure result.head.id }
    {
        read_call(alloc, self.id, self.body)
    }

    /// Returns the xid (RFC 5531, section 9).
    pub fn xid(&self) -> u32
        ensures { (items : List Item) → IsCall self.now.body.now items → result ≡ xid_in items }
    {
        xid_of(self.body)
    }

    /// Returns the call with a body of its own.
    pub fn keep(&self, alloc: Global) -> Result<KeptCall, AllocError>
        ensures id { IfOk result (λ kept. kept.id ≡ self.now.id) }
        ensures body { IfOk result (λ kept. kept.body.items ≡ self.now.body.now) }
    {
        let body = Vec::from_slice(alloc, self.body)?;
        Ok(KeptCall { id: self.id, body })
    }

    /// Passes the items of the call to a visitor, in one pass over its body. It fails only if
    /// memory runs out in the visitor, whose contents are unspecified then.
    pub fn scan<V: MessageVisit>(&self, visitor: &mut V) -> Result<(), AllocError>
        ensures { OnOk result
            (PassesMessage V.rests V.stands (IsCall self.now.body.now) visitor.old visitor.new) }
    {
        match scan_call(self.body, visitor) {
            Ok(_) => Ok(()),
            Err(GetError::Memory) => Err(AllocError),
            // The body was read as a message before.
            Err(GetError::Stop(_)) => unreachable!(),
        }
    }
}

impl<'a> ReplyRef<'a> {
    ghost use Rattle.procs3.specs.Table.{name_of_procedure};
    ghost use Rattle.procs3.specs.Variants.{results_name};
    ghost use Rattle.capture3.specs.MessageValues.{answered_items, is_success};

    /// Returns the reply that the body encodes, with the results of its procedure if and only if it
    /// is an accepted success (RFC 5531, section 9). It borrows from the body.
    ///
    /// # Errors
    ///
    /// `AllocError` only if an allocation failed.
    pub fn read(&self, alloc: Global) -> Result<ReplyMsg<'a>, AllocError>
        ensures reply { IfOk result
            (λ message. IsReply self.now.body.now (answered_items message)) }
        ensures procedure { IfOk result (λ message. message.id ≡ self.now.id) }
        ensures success { IfOk result
            (λ message. is_some message.results ≡ is_success message.head) }
        ensures variant { IfOk result (λ message. IfSome message.results
            (λ results. results_name results ≡ name_of_procedure message.id)) }
    {
        read_reply(alloc, self.id, self.body)
    }

    /// Returns the xid (RFC 5531, section 9).
    pub fn xid(&self) -> u32
        ensures { (items : List Item) → IsReply self.now.body.now
            (record { id = self.now.id; items = items }) → result ≡ xid_in items }
    {
        xid_of(self.body)
    }

    /// Returns the reply with a body of its own.
    pub fn keep(&self, alloc: Global) -> Result<KeptReply, AllocError>
        ensures id { IfOk result (λ kept. kept.id ≡ self.now.id) }
        ensures body { IfOk result (λ kept. kept.body.items ≡ self.now.body.now) }
    {
        let body = Vec::from_slice(alloc, self.body)?;
        Ok(KeptReply { id: self.id, body })
    }

    /// Passes the items of the reply to a visitor, in one pass over its body. It fails only if
    /// memory runs out in the visitor, whose contents are unspecified then.
    pub fn scan<V: MessageVisit>(&self, visitor: &mut V) -> Result<(), AllocError>
        ensures { OnOk result
            (PassesMessage V.rests V.stands
            (λ items. IsReply self.now.body.now (record { id = self.now.id; items = items }))
            visitor.old visitor.new) }
    {
        match scan_reply(&self.its_call(), self.body, visitor) {
            Ok(_) => Ok(()),
            Err(GetError::Memory) => Err(AllocError),
            // The body was read as a message before.
            Err(GetError::Stop(_)) => unreachable!(),
        }
    }

    /// Returns the call that it answers.
    fn its_call(&self) -> OneCall
        ensures id { result.call.id ≡ self.now.id }
        ensures xid { (items : List Item) → IsReply self.now.body.now
            (record { id = self.now.id; items = items }) → result.xid ≡ xid_in items }
    {
        OneCall {
            xid: self.xid(),
            call: NumberedCall {
                number: self.number,
                id: self.id,
            },
        }
    }
}

impl KeptCall {
    ghost use Rattle.procs3.specs.Table.{name_of_procedure};
    ghost use Rattle.procs3.specs.Variants.{args_name};
    ghost use Rattle.capture3.specs.MessageValues.{call_items};

    /// Returns the call that the body encodes, with the arguments of its procedure (RFC 5531, section
    /// 9). It borrows from the body, and allocates nothing.
    pub fn read(&self, alloc: Global) -> CallMsg<'_>
        ensures call { IsCall self.now.body.items (call_items result) }
        ensures procedure { result.head.id ≡ self.now.id }
        ensures variant { args_name result.args ≡ name_of_procedure result.head.id }
    {
        read_call(alloc, self.id, &self.body)
    }
}

impl KeptReply {
    ghost use Rattle.procs3.specs.Table.{name_of_procedure};
    ghost use Rattle.procs3.specs.Variants.{results_name};
    ghost use Rattle.capture3.specs.MessageValues.{answered_items, is_success};

    /// Returns the reply that the body encodes, with the results of its procedure if and only if it
    /// is an accepted success (RFC 5531, section 9). It borrows from the body.
    ///
    /// # Errors
    ///
    /// `AllocError` only if an allocation failed.
    pub fn read(&self, alloc: Global) -> Result<ReplyMsg<'_>, AllocError>
        ensures reply { IfOk result
            (λ message. IsReply self.now.body.items (answered_items message)) }
        ensures procedure { IfOk result (λ message. message.id ≡ self.now.id) }
        ensures success { IfOk result
            (λ message. is_some message.results ≡ is_success message.head) }
        ensures variant { IfOk result (λ message. IfSome message.results
            (λ results. results_name results ≡ name_of_procedure message.id)) }
    {
        read_reply(alloc, self.id, &self.body)
    }
}

impl<'a> LentEntry<'a> {
    ghost use Rattle.capture3.specs.Entry as spec;
    ghost use Rattle.capture3.specs.Kept.{IsCopy, IsKept, IsLent, kind_of};

    /// Returns what the entry is, with the procedure if it is a message.
    pub fn kind(self) -> Kind
        ensures { result ≡ kind_of self.entry }
    {
        match self {
            LentEntry::Begin => Kind::Begin,
            LentEntry::Call(call) => Kind::Call(call.id),
            LentEntry::Turn => Kind::Turn,
            LentEntry::Reply(reply) => Kind::Reply(reply.id),
            LentEntry::Close => Kind::Close,
            LentEntry::End => Kind::End,
        }
    }

    /// Returns the entry with a body of its own.
    pub fn keep(&self, alloc: Global) -> Result<Entry, AllocError>
        ensures copy { IfOk result (IsCopy self.now) }
        ensures kept { (entry : spec.Entry) → IsLent self.now entry
            → IfOk result (λ kept. IsKept kept entry) }
    {
        match self {
            LentEntry::Begin => Ok(Entry::Begin),
            LentEntry::Call(call) => {
                let kept = call.keep(alloc)?;
                Ok(Entry::Call(kept))
            }
            LentEntry::Turn => Ok(Entry::Turn),
            LentEntry::Reply(reply) => {
                let kept = reply.keep(alloc)?;
                Ok(Entry::Reply(kept))
            }
            LentEntry::Close => Ok(Entry::Close),
            LentEntry::End => Ok(Entry::End),
        }
    }
}
