//! Entries whose calls are values.

ghost use Rattle.std.specs.Prelude.{◌≡◌};
ghost use Rattle.capture3.specs.Entry as spec;
ghost use Rattle.capture3.specs.Kept.{IsLent, kind_of};
ghost use Rattle.capture3.specs.ReadAs.{IsReadAs, kind_of_read};

use crate::message::values::CallMsg;
use crate::reader::entry::{LentEntry, ReplyRef};
use std::alloc::Global;

/// An entry that borrows from the current record, of which a call is a value.
#[derive(Clone, Copy)]
pub enum EntryRef<'a> {
    Begin,
    Call(CallMsg<'a>),
    Turn,
    Reply(ReplyRef<'a>),
    Close,
    End,
}

impl<'a> LentEntry<'a> {
    /// Returns the entry with its call as a value. It allocates nothing.
    pub fn read(&self, alloc: Global) -> EntryRef<'a>
        ensures kind { kind_of_read result ≡ kind_of self.now }
        ensures value { (entry : spec.Entry) → IsLent self.now entry → IsReadAs result entry }
    {
        match self {
            LentEntry::Begin => EntryRef::Begin,
            LentEntry::Call(call) => EntryRef::Call(call.read(alloc)),
            LentEntry::Turn => EntryRef::Turn,
            LentEntry::Reply(reply) => EntryRef::Reply(*reply),
            LentEntry::Close => EntryRef::Close,
            LentEntry::End => EntryRef::End,
        }
    }
}
