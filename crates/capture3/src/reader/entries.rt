//! The entries of a capture, read one by one.

ghost use Rattle.std.specs.Prelude.{◌≡◌, ◌≢◌, ◌≤◌, ◌<◌, ◌+◌, ◌++◌, ◌∷◌, ℕ, List, [], length, slice_range, vec_len, IsTrue, IsFalse, IsSome, IfErr, IfOk, IfSome, OnErr, OnOk, Err, Ok, None, Some};
ghost use Rattle.capture3.specs.Observed.{IsSpent, ReadGives};
ghost use Rattle.record_mark.specs.Taking.{released};
ghost use Rattle.capture3.specs.declared.reader.entries.ReaderStage.TheVariants as stages;
ghost use Rattle.capture3.specs.declared.fault.Error.TheVariants as errors;
ghost use Rattle.xdr3.specs.Item.{AreBytes};
ghost use Rattle.capture3.specs.Device.{Counts};
ghost use Rattle.capture3.specs.Entry as spec;
ghost use Rattle.capture3.specs.Capture.{Two};
ghost use Rattle.capture3.specs.machinery.Container.{CanGoOn};
ghost use Rattle.capture3.specs.machinery.Pairing.{LiesLast};
ghost use Rattle.capture3.specs.Laws.{most_bytes};

use crate::device::DeviceFailed;
use crate::device::source::Source;
use crate::fault::{Error, Fault, Noted, Place};
use crate::message::counted_calls::CountedCalls;
use crate::message::silent::Silent;
use crate::message::visiting::MessageVisit;
use crate::reader::entry::{Kind, LentEntry};
use crate::reader::entry_ref::EntryRef;
use crate::reader::pairing::Pairing;
use crate::reader::progress::Progress;
use std::alloc::{AllocError, Global};
use std::hash::BuildHasher;
use xdr3::Reason;

/// How many bytes a read asks for.
const BLOCK: usize = 65_536;

/// The most bytes that are checked: one more than the longest capture has, because the byte that
/// shows a fault is checked too. That capture has version 2: its magic, 65,535 connections of a
/// word 1 and a side word 0, the last word 0, and 1,073,741,824 stream bytes in chunks of one byte,
/// each after eight bytes of side and length.
const MOST_JUDGED: u64 = 9_664_200_709;

/// What a reader returns from now on.
#[derive(Clone, Copy)]
enum ReaderStage {
    /// The entries that are left.
    Reading,
    /// None, after the end.
    Over,
    /// The error of `pairing`, for good.
    Failed,
}

/// Reads the entries of a capture one by one. It keeps one block of the source's bytes, one record,
/// and the calls of the open connection; for a capture of version 2 also the streams of that
/// connection, up to its end.
#[derive(Drop)]
pub struct Entries<'r, R, S: BuildHasher + Drop> {
    // For the values of calls.
    alloc: Global,
    source: &'r mut R,
    // The bytes from `start` to `end` are not judged yet. Those from `before` to `start` were judged
    // last, and a record may lie there that is lent.
    block: Vec<u8>,
    before: usize,
    start: usize,
    end: usize,
    // How many bytes were judged.
    judged: u64,
    pairing: Pairing<CountedCalls<S>>,
    stage: ReaderStage,
    ghost behind: { before ≤ start },
    ghost ordered: { start ≤ end },
    ghost within: { end ≤ vec_len block },
    ghost roomy: { 0 < vec_len block },
    ghost ready: { stage ≡ stages.Reading
        → ∥ CanGoOn pairing.container.cursor (released pairing.container.joiner.taking)
        pairing.container ∥₁ },
    ghost never_writes: { stage ≡ stages.Failed → pairing.error ≢ errors.Write },
    ghost unlent: { stage ≡ stages.Failed → pairing.last ≡ None },
    ghost lies: { ∥ LiesLast pairing.last pairing.container.joiner
        (slice_range block.items before start) ∥₁ },
}

impl<'r, R: Source, S: BuildHasher + Drop> Entries<'r, R, S> {
    ghost use Rattle.std.specs.Borrow.{sem};
    ghost use Rattle.std.specs.Io.BufRead.{Rests};
    ghost use Rattle.capture3.specs.Kept.{IsLent};
    ghost use Rattle.capture3.specs.Lending.{entries_row, IsNextLent, LendsNext};
    ghost use Rattle.capture3.specs.ReadAs.{IsReadAs};
    ghost use Rattle.capture3.specs.ReadEntries.{ReadsNext};
    ghost use Rattle.capture3.specs.Entries.{block_size, failure_of, last_of, loan_of, source_of};
    ghost use Rattle.capture3.specs.Handing.{HandsOutGiven};
    ghost use Rattle.capture3.specs.machinery.Stepping.{IsNextOfKind, kind_lent, kind_read};
    ghost use Rattle.capture3.specs.MessageVisit.{Hears};
    ghost use Rattle.capture3.specs.Numbering.{number_after, number_lent};
    ghost use Rattle.capture3.specs.Progress.{HasPassed};
    ghost use Rattle.capture3.specs.machinery.Pairing.{IsOfBytes};
    ghost use Rattle.capture3.specs.machinery.EntriesHistory.{entries_left, FillsOrEnds, HasRead, IsUsedUp, LeavesKind, next_kind, NotesFailure, ReadsOnce, StandsFor, with_error};

    /// Returns a reader through a block that is not empty. It reads nothing yet. The hasher is for
    /// the calls of a connection by their xids, and affects no result.
    pub fn through(alloc: Global, hasher: S, source: &'r mut R, block: Vec<u8>) -> Entries<'r, R, S>
        requires { 0 < vec_len block }
        ensures stands { StandsFor R.observed result [] [] }
        ensures unread { source_of result ≡ source.old }
        ensures going { failure_of result ≡ None }
        ensures unlent { last_of result ≡ None }
        ensures block { block_size result ≡ vec_len block }
        ensures same_reference { loan_of result ≡ source.entry.ghost_name }
    {
        Entries {
            alloc,
            source,
            block,
            before: 0,
            start: 0,
            end: 0,
            judged: 0,
            pairing: Pairing::new(alloc, CountedCalls::new(alloc, hasher)),
            stage: ReaderStage::Reading,
        }
    }

    /// Returns a reader with a block of its own. It reads nothing yet. The hasher is for the calls
    /// of a connection by their xids, and affects no result.
    ///
    /// # Errors
    ///
    /// `AllocError` if the block could not be allocated. Then nothing was read.
    pub fn new(alloc: Global, hasher: S, source: &'r mut R) -> Result<Entries<'r, R, S>, AllocError>
        ensures stands { IfOk result (λ entries. StandsFor R.observed entries [] []) }
        ensures unread { IfOk result (λ entries. source_of entries ≡ source.old) }
        ensures going { IfOk result (λ entries. failure_of entries ≡ None) }
        ensures unlent { IfOk result (λ entries. last_of entries ≡ None) }
        ensures block { IfOk result (λ entries. block_size entries ≡ BLOCK) }
        ensures same_reference { IfOk result
            (λ entries. loan_of entries ≡ source.entry.ghost_name) }
    {
        let block = new_block(alloc)?;
        Ok(Entries::through(alloc, hasher, source, block))
    }

    /// Returns the source, as the reads left it.
    pub fn into_source(self) -> &'r mut R
        ensures value { result.now ≡ source_of self.entry }
        ensures same_reference { result.ghost_name ≡ loan_of self.entry }
    {
        let Entries { source, .. } = self;
        source
    }

    /// Reads the next entry and lends it until the next call; `None` after the last one. A call is
    /// lent as its value. A reply is lent by its body, because its lists own memory; its `read`
    /// returns the value. Once it has returned `None` it always does, and reads nothing more.
    ///
    /// # Errors
    ///
    /// - `Refused` with the first fault if the capture is not well formed.
    /// - `Read` if a read failed.
    /// - `Memory` if an allocation failed.
    ///
    /// It never returns `Write`. The same error is returned from then on, and nothing is read.
    pub fn next(&mut self) -> Result<Option<EntryRef<'_>>, Error>
        // What the reader ends as, and what is lent.
        ensures* ends { sem 𝓛 (Rests
            (entries_row R.row S.row S.Hasher.row S.BuildHasher S.Hasher.Hasher) self.entry
            (ReadsNext R.observed R.failures self.entry.now result)) }

        // What is known while the entry is used.
        ensures left { IfOk result (λ next. IsSome next → 0 < entries_left self.old) }
        ensures write { IfErr result (λ error. error ≢ Error.Write) }
    {
        match self.step(&mut Silent) {
            Ok(true) => Ok(self.read_last()),
            Ok(false) => Ok(None),
            Err(Noted) => Err(self.pairing.error),
        }
    }

    /// Reads the next entry, passes its items to a visitor in the same pass, and lends the entry
    /// until the next call; `None` after the last one. An entry that is no message has no items. Once
    /// it has returned `None` it always does, and reads nothing more.
    ///
    /// # Errors
    ///
    /// - `Refused` with the first fault if the capture is not well formed.
    /// - `Read` if a read failed.
    /// - `Memory` if an allocation failed, also in the visitor.
    ///
    /// It never returns `Write`. After an error the contents of the visitor are unspecified, the
    /// same error is returned from then on, and nothing is read.
    #[inline(always)]
    pub fn visit<V: MessageVisit>(
        &mut self,
        visitor: &mut V,
    ) -> Result<Option<LentEntry<'_>>, Error>
        // What the reader ends as, and what is lent.
        ensures* ends { sem 𝓛 (Rests
            (entries_row R.row S.row S.Hasher.row S.BuildHasher S.Hasher.Hasher) self.entry
            (LendsNext R.observed R.failures
            (IsNextLent V.rests V.stands visitor.old visitor.new) self.entry.now result)) }

        // What is known while the entry is used.
        ensures unmoved { IfOk result (λ next. next ≡ None → visitor.new ≡ visitor.old) }
        ensures left { IfOk result (λ next. IsSome next → 0 < entries_left self.old) }
        ensures write { IfErr result (λ error. error ≢ Error.Write) }
    {
        match self.step(visitor) {
            Ok(true) => Ok(self.entry()),
            Ok(false) => Ok(None),
            Err(Noted) => Err(self.pairing.error),
        }
    }

    /// Reads up to the next entry and returns whether there is one; `false` after the last one. The
    /// entry and the error are left in `pairing`.
    #[inline(always)]
    fn step<V: MessageVisit>(&mut self, visitor: &mut V) -> Result<bool, Noted>
        ensures answers { (given : List ℕ) (handed : List spec.Entry)
            → StandsFor R.observed self.old given handed
            → HandsOutGiven R.observed
            (IsNextOfKind (Hears V.rests V.stands visitor.old visitor.new)) self.old self.new given
            handed (next_kind self.new result) }
        ensures leaves { LeavesKind R.failures self.old self.new visitor.old visitor.new
            (next_kind self.new result) }
    {
        match self.stage {
            ReaderStage::Reading => {}
            ReaderStage::Over => return Ok(false),
            ReaderStage::Failed => return Err(Noted),
        }
        while self.judged <= MOST_JUDGED {
            // Written out, since `?` takes more instructions for each message.
            match self.refill() {
                Ok(true) => {}
                Ok(false) => match self.finish() {
                    Ok(()) => return Ok(true),
                    Err(Noted) => return Err(Noted),
                },
                Err(Noted) => return Err(Noted),
            }
            let piece = &self.block[self.start..self.end];
            match self.pairing.next(piece, visitor) {
                Ok(count) => {
                    self.before = self.start;
                    self.start += count;
                    self.judged += count as u64;
                }
                Err(Noted) => {
                    self.pairing.last = None;
                    self.stage = ReaderStage::Failed;
                    return Err(Noted);
                }
            }
            if self.pairing.last.is_some() {
                return Ok(true);
            }
        }
        self.pairing.error = Error::Refused(Fault {
            place: Place::File { at: self.judged },
            reason: Reason::AfterEnd,
        });
        self.pairing.last = None;
        self.stage = ReaderStage::Failed;
        Err(Noted)
    }

    /// Returns how far the entries have come that were lent. After an error it says nothing.
    pub fn progress(&self) -> Progress
        ensures { (given : List ℕ) (handed : List spec.Entry)
            → StandsFor R.observed self.now given handed → failure_of self.now ≡ None
            → HasPassed result handed }
    {
        self.pairing.progress()
    }

    /// Lends the last entry, with its call as a value.
    fn read_last(&self) -> Option<EntryRef<'_>>
        ensures kind { kind_read result ≡ last_of self.now }
        ensures value { (given : List ℕ) (handed : List spec.Entry) (entry : spec.Entry)
            → StandsFor R.observed self.now given (handed ++ entry ∷ [])
            → IfSome result (λ read. IsReadAs read entry) }
    {
        match self.entry() {
            Some(lent) => Some(lent.read(self.alloc)),
            None => None,
        }
    }

    /// Lends the last entry. Returns `None` before the first entry and after an error.
    fn entry(&self) -> Option<LentEntry<'_>>
        ensures kind { kind_lent result ≡ last_of self.now }
        ensures lent { (given : List ℕ) (handed : List spec.Entry) (entry : spec.Entry)
            → StandsFor R.observed self.now given (handed ++ entry ∷ [])
            → IfSome result (λ lent. IsLent lent entry) }
        ensures numbered { (given : List ℕ) (handed : List spec.Entry) (entry : spec.Entry)
            → StandsFor R.observed self.now given (handed ++ entry ∷ [])
            → IfSome result (λ lent. number_lent lent ≡ number_after handed entry) }
    {
        match self.pairing.last {
            Some(kind) => Some(
                self.pairing
                    .lend(kind, &self.block[self.before..self.start]),
            ),
            None => None,
        }
    }

    /// Returns whether all bytes at hand are checked, and no kept streams are left.
    fn is_used_up(&self) -> bool
        ensures used_up { IsTrue result → IsUsedUp self.now }
        ensures left { IsFalse result → self.now.pairing.container.cursor ≡ None
            → self.now.start < self.now.end }
    {
        self.start == self.end && !self.pairing.is_recalling()
    }

    /// Reads the next block if nothing is left at hand. Returns `false` at the end of the bytes.
    #[inline(always)]
    fn refill(&mut self) -> Result<bool, Noted>
        requires reading { self.old.stage ≡ ReaderStage.Reading }
        requires bounded { self.old.judged ≤ most_bytes Two + 1 }

        // What was read.
        ensures has_read { (given : List ℕ) (handed : List spec.Entry)
            → StandsFor R.observed self.old given handed
            → HasRead R.observed self.old self.new given handed }
        ensures more { IfOk result (FillsOrEnds R.observed self.new) }

        // What stays.
        ensures stays { OnOk result
            ((self.new.pairing.container ≡ self.old.pairing.container)
            × (self.new.judged ≡ self.old.judged) × (self.new.stage ≡ ReaderStage.Reading)) }

        // Errors.
        ensures failure { NotesFailure self.new result }

        // The device.
        ensures device { ReadsOnce R.failures self.old self.new (with_error self.new result) }
    {
        if !self.is_used_up() {
            return Ok(true);
        }
        // The record of the last entry may lie in the block.
        self.pairing.last = None;
        self.before = 0;
        self.start = 0;
        self.end = 0;
        match read_block(self.source, &mut self.block) {
            Ok(count) => {
                self.end = count;
                Ok(count > 0)
            }
            Err(_) => {
                self.pairing.error = Error::Read;
                self.stage = ReaderStage::Failed;
                Err(Noted)
            }
        }
    }

    /// Ends the capture, of which no byte is left.
    fn finish(&mut self) -> Result<(), Noted>
        requires reading { self.old.stage ≡ ReaderStage.Reading }
        requires used_up { IsUsedUp self.old }
        requires end { IsSpent (R.observed (source_of self.old)) }

        // The last entry, or the fault.
        ensures ok { (given : List ℕ) (handed : List spec.Entry)
            → StandsFor R.observed self.old given handed
            → OnOk result (StandsFor R.observed self.new given (handed ++ spec.End ∷ [])) }
        ensures err { (given : List ℕ) (handed : List spec.Entry)
            → StandsFor R.observed self.old given handed
            → OnErr result (StandsFor R.observed self.new given handed) }
        ensures last { OnOk result (last_of self.new ≡ Some Kind.End) }
        ensures over { OnOk result (self.new.stage ≡ ReaderStage.Over) }

        // Errors.
        ensures failure { NotesFailure self.new result }
        ensures refused { OnErr result (IsOfBytes self.new.pairing.error) }

        // The device is not read.
        ensures device { (self.new.source ≡ self.old.source) × (self.new.block ≡ self.old.block) }
    {
        match self.pairing.end(self.judged) {
            Ok(()) => {
                self.pairing.last = Some(Kind::End);
                self.stage = ReaderStage::Over;
                Ok(())
            }
            Err(error) => {
                self.pairing.error = error;
                self.pairing.last = None;
                self.stage = ReaderStage::Failed;
                Err(Noted)
            }
        }
    }
}

/// Returns a block of 65,536 bytes to read through.
pub fn new_block(alloc: Global) -> Result<Vec<u8>, AllocError>
    ensures size { IfOk result (λ block. vec_len block ≡ BLOCK) }
    ensures room { IfOk result (λ block. 0 < vec_len block) }
{
    vec![in alloc; 0; BLOCK]
}

/// Reads into a prefix of a block.
fn read_block<R: Source>(source: &mut R, block: &mut [u8]) -> Result<usize, DeviceFailed>
    requires room { 0 < length block.old }
    ensures within { IfOk result (λ n. n ≤ length block.new) }
    ensures bytes { ReadGives (R.observed source.old) (R.observed source.new) result block.new }
    ensures count { Counts (R.failures source.old) (R.failures source.new) result }
    ensures fit { AreBytes block.new }
{
    source.read_some(block)
}
