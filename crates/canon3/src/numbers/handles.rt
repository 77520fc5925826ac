//! The file handles of a capture.

ghost use Rattle.std.specs.Prelude.{◌≡◌, ◌++◌, ◌∷◌, List, [], bytes_eq, length, min, OnErr, OnOk};
ghost use Rattle.xdr3.specs.Item.{Item};
ghost use Rattle.nfs3_types.specs.declared.values.handle.Handle as handles;
ghost use Rattle.canon3.specs.HandleTable.{Gathers, same_handle};
ghost use Rattle.capture3.specs.Rank.{distinct, number_limit, HoldsDistinct};
ghost use Rattle.canon3.specs.Values.{handles_in};

use crate::entries::entry_writer::EntryWriter;
use crate::numbers::Numbers;
use crate::sink::Sink;
use crate::summary::Summary;
use capture3::{Error, LentEntry, MessageVisit, Progress};
use nfs3_types::Handle;
use rpc_head::Start;
use std::alloc::{AllocError, Global};
use std::hash::BuildHasher;
use std::marker::Model;
use xdr3::{PlainField, Visit};

/// A visitor that collects the distinct file handles that are not empty (`nfs_fh3`, RFC 1813).
#[derive(Drop)]
pub struct HandleTable<S: BuildHasher + Drop> {
    numbers: Numbers<Handle, S>,
}

impl<S: BuildHasher + Drop> Model for HandleTable<S> {
    ghost use Rattle.std.specs.Prelude.{List};
    ghost use Rattle.nfs3_types.specs.declared.values.handle.Handle.{Handle};

    ghost Value = { List Handle };

    ghost view = { λ t. t.numbers };
}

impl<S: BuildHasher + Drop> HandleTable<S> {
    /// Returns a table without handles.
    pub fn new(alloc: Global, hasher: S) -> HandleTable<S>
        ensures { Gathers result [] }
    {
        HandleTable {
            numbers: Numbers::new(alloc, hasher),
        }
    }

    fn add(&mut self, handle: Handle) -> Result<(), AllocError>
        ensures ok { (given : List handles.Handle)
            → HoldsDistinct same_handle self.old given
            → OnOk result (HoldsDistinct same_handle self.new (given ++ handle ∷ [])) }
        ensures err { OnErr result (self.new ≡ self.old) }
    {
        self.numbers.number_of(handle)?;
        Ok(())
    }

    /// Returns how many there are, at most 4,294,967,295.
    pub fn len(&self) -> u32
        ensures { (items : List Item) → Gathers self.now items
            → result ≡ min (length (distinct bytes_eq (handles_in items))) number_limit }
    {
        self.numbers.len()
    }
}

#[tactic(auto, using(crate::proofs::Lemmas::Numbers::HandleTableLemmas::gathers_none), unfolding(xdr3::specs::Visit::Adds, xdr3::specs::Visit::Keeps))]
impl<S: BuildHasher + Drop> Visit for HandleTable<S> {
    ghost use Rattle.canon3.specs.HandleTable.{Gathers};

    ghost stands = { Gathers };

    fn word(&mut self, _name: &'static str, _n: u32) -> Result<(), AllocError> {
        Ok(())
    }

    fn hyper(&mut self, _name: &'static str, _n: u64) -> Result<(), AllocError> {
        Ok(())
    }

    fn fixed(&mut self, _name: &'static str, _bytes: &[u8; 8]) -> Result<(), AllocError> {
        Ok(())
    }

    fn write_verf(&mut self, _name: &'static str, _bytes: &[u8; 8]) -> Result<(), AllocError> {
        Ok(())
    }

    fn var(&mut self, _name: &'static str, _bytes: &[u8]) -> Result<(), AllocError> {
        Ok(())
    }

    fn text(&mut self, _name: &'static str, _bytes: &[u8]) -> Result<(), AllocError> {
        Ok(())
    }

    fn handle(&mut self, _name: &'static str, bytes: &[u8]) -> Result<(), AllocError> {
        if bytes.is_empty() {
            return Ok(());
        }
        self.add(Handle::from_short(bytes))
    }

    fn rest(&mut self, _name: &'static str, _bytes: &[u8]) -> Result<(), AllocError> {
        Ok(())
    }

    fn plain(&mut self, _fields: &[PlainField], _bytes: &[u8]) -> Result<(), AllocError> {
        Ok(())
    }
}

#[tactic(auto, using(crate::proofs::Lemmas::Numbers::HandleTableLemmas::gathers_none), unfolding(capture3::specs::MessageVisit::OpensMessage))]
impl<S: BuildHasher + Drop> MessageVisit for HandleTable<S> {
    ghost use Rattle.canon3.specs.HandleTable.{Gathers};

    ghost rests = { Gathers };

    fn begin(&mut self, _start: Start) -> Result<(), AllocError> {
        Ok(())
    }
}

/// A writer of nothing, for callers that only want to know what a capture has.
impl<S: BuildHasher + Drop> EntryWriter for HandleTable<S> {
    ghost use Rattle.canon3.specs.HandleTable.{all_items, always_going, nothing};
    ghost use Rattle.canon3.specs.Summary.{IsSummary};

    type Counts = Summary;

    ghost are_counts = { IsSummary };

    ghost form = { nothing };

    ghost before = { all_items };

    ghost going = { always_going };

    #[inline(always)]
    fn write<W: Sink>(
        &mut self,
        _progress: Progress,
        _sink: &mut W,
        _entry: LentEntry<'_>,
    ) -> Result<(), Error> {
        Ok(())
    }

    fn counts(&self, progress: Progress) -> Summary {
        Summary::of(progress, self.len())
    }
}
