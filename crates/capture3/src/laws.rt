//! Laws over the definitions of captures alone. They do nothing: each is what a function without a result ensures.

ghost use Rattle.std.specs.Prelude.{◌≡◌, ◌↔◌, ◌≤◌, ℕ, List, ◌++◌, length, Ok, Err};
ghost use Rattle.xdr3.specs.Item.{AreBytes, Item};
ghost use Rattle.record_mark.specs.Machine.{after};
ghost use Rattle.capture3.specs.declared.fault.Fault.{Fault};
ghost use Rattle.capture3.specs.Bodies.{ReplyItems};
ghost use Rattle.capture3.specs.Capture.{IsCapture, Version};
ghost use Rattle.capture3.specs.SidedChunks.{Streams};
ghost use Rattle.capture3.specs.Connections.{calls_in_turn, replies_to};
ghost use Rattle.capture3.specs.Entries.{AreAllBeforeEnd, KeepsLimits};
ghost use Rattle.capture3.specs.machinery.EntriesHistory.{StandsFor};
ghost use Rattle.capture3.specs.Entry.{Entry};
ghost use Rattle.capture3.specs.FirstFault.{FirstFault, IsClean};
ghost use Rattle.capture3.specs.Laws.{AreWithinLimits, HasItsPlace, HasOneVerdict, HaveSameEntries, IsCutShort, IsJudgedInTurn, IsJudgedOnce, IsWithinVersion, most_bytes};
ghost use Rattle.capture3.specs.FileMachine.{file_next, parsed, reached, verdict};
ghost use Rattle.capture3.specs.Reached.{AreFirstReached, Reached};
ghost use Rattle.capture3.specs.Typed.{Typed};
ghost use Rattle.xdr3.specs.declared.reason.Reason.TheVariants.{CaptureCut};
ghost use Rattle.capture3.specs.Examples.{null_capture, null_entries};

use crate::device::source::Source;
use crate::reader::entries::Entries;
use std::hash::BuildHasher;

/// Each file is well formed with exactly one list of entries, or has exactly one first fault, and
/// never both.
pub fn one_verdict()
    ensures { (file : List ℕ) → AreBytes file → HasOneVerdict file }
{}

/// The first fault of a file is at a position of the kind that its reason has: at a byte of the
/// file, at its length, or in a record.
pub fn in_its_place()
    ensures { (file : List ℕ) (fault : Fault) → FirstFault file fault
        → HasItsPlace file fault.reason fault.place }
{}

/// Every proper prefix of a well-formed file has the first fault `CaptureCut`, at its own length.
pub fn cut_short()
    ensures { (file : List ℕ) → AreBytes file → IsCutShort file }
{}

/// Files with the same streams have the same entries, whatever their versions, and however they cut
/// the streams into chunks.
pub fn across_versions()
    ensures { (version other : Version) (file again : List ℕ) (connections : List Streams)
        → IsCapture version file connections → IsCapture other again connections
        → HaveSameEntries file again }
{}

/// A record of the client's stream is one call, or has one first fault, after any calls before it.
/// A record of the server's stream is one reply, or has one first fault.
pub fn judged_once()
    ensures calls { (before : List (List Item)) (body : List ℕ) → AreBytes body
        → IsJudgedOnce calls_in_turn before body }
    ensures replies { (calls : List (List Item)) (before : List ReplyItems) (body : List ℕ)
        → AreBytes body → IsJudgedOnce (replies_to calls) before body }
{}

/// Checking records one after another gives the same as the definition of a whole connection: its
/// records are calls and replies, calls with one xid have one procedure, and each reply has the xid
/// and the procedure of a call.
pub fn judged_in_turn()
    ensures { (streams : Streams) (calls : List (List Item)) (replies : List ReplyItems)
        → IsJudgedInTurn streams calls replies }
{}

/// The entries of a well-formed file, and those that any bytes reach, begin at most 65,535
/// connections. The encodings of their messages have at most 1,073,741,824 bytes together.
pub fn within_limits()
    ensures typed { (file : List ℕ) (entries : List Entry) → Typed file entries
        → AreWithinLimits entries }
    ensures reached { (bytes : List ℕ) (entries : List Entry) → Reached bytes entries
        → AreWithinLimits entries }
{}

/// A capture has at most 5,369,495,552 bytes in version 1 and 9,664,200,708 in version 2. Bytes
/// that show no fault are no longer than a capture of their version may be.
pub fn longest()
    ensures captures { (version : Version) (file : List ℕ) (connections : List Streams)
        → IsCapture version file connections → length file ≤ most_bytes version }
    ensures clean { (bytes : List ℕ) → AreBytes bytes → IsClean bytes → IsWithinVersion bytes }
{}

/// Whatever a source does, a reader keeps the limits: on the entries that it returns, on the
/// connections that they begin, and on the bytes that it reads, of version 1 beside those of both.
pub fn reader_keeps_limits<R: Source, S: BuildHasher + Drop>(_entries: &Entries<'_, R, S>)
    ensures { (given : List ℕ) (handed : List Entry)
        → StandsFor R.observed _entries.now given handed
        → KeepsLimits _entries.now given handed }
{}

/// The state machine returns the entries or the first fault, each if and only if it holds; and what
/// it emits is what the bytes reach.
pub fn machine()
    ensures entries { (file : List ℕ) (entries : List Entry) → AreBytes file
        → Typed file entries ↔ (verdict file ≡ Ok entries) }
    ensures fault { (file : List ℕ) (fault : Fault) → AreBytes file
        → FirstFault file fault ↔ (verdict file ≡ Err fault) }
    ensures reached { (bytes : List ℕ) (entries : List Entry) → AreBytes bytes
        → Reached bytes entries ↔ (entries ≡ reached bytes) }
{}

/// The pieces in which the bytes come do not matter.
pub fn pieces()
    ensures { (front back : List ℕ) → parsed (front ++ back) ≡ after file_next (parsed front) back }
{}

/// The entries that a prefix reaches, without a capture's end, are the first of those that all
/// bytes reach. So what a reader returns of the bytes that it has read stays right, whatever bytes
/// follow.
pub fn reached_in_turn()
    ensures { (front back : List ℕ) (entries : List Entry) → AreBytes (front ++ back)
        → AreAllBeforeEnd front entries → AreFirstReached (front ++ back) entries }
{}

/// What a small capture is: one NULL call and its reply.
pub fn examples()
    ensures { Typed null_capture null_entries }
{}
