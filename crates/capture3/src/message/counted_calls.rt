//! The calls of a connection, whose xids mostly count up.

ghost use Rattle.std.specs.Prelude.{◌≡◌, ◌≢◌, ◌<◌, None, IfOk, IsFalse, IsTrue};
ghost use Rattle.capture3.specs.machinery.Calls.{lined, next_number, Admits, AreAbove, AreSame, KnowsNone, Puts};

use crate::message::calls::{CallTable, KnownCalls, NumberedCall, number_if};
use crate::message::counting::XidCounting;
use indexmap::IndexMap;
use rpc_head::ProcId;
use std::alloc::{AllocError, Global};
use std::hash::BuildHasher;

/// How many homes of a line may be empty, besides a quarter of its length.
const FEW: usize = 16;

/// Calls, most of them in a line, and the others hashed by their xids. The hasher affects no
/// result.
#[derive(Drop)]
pub(crate) struct CountedCalls<S: BuildHasher + Drop> {
    counting: XidCounting,
    // Each call is at the home of its xid, which no other xid has. An empty home has number 0.
    line: Vec<NumberedCall>,
    empty_homes: usize,
    others: IndexMap<u32, NumberedCall, S>,
    // No other call has its home below.
    nearest: usize,
    // The last number.
    count: u32,
    ghost above: { AreAbove counting nearest others.entries },
}

impl<S: BuildHasher + Drop> CountedCalls<S> {
    ghost use Rattle.capture3.specs.machinery.CountedCalls.{known_of};

    pub(crate) fn new(alloc: Global, hasher: S) -> CountedCalls<S>
        ensures { KnowsNone (known_of result) }
    {
        CountedCalls {
            counting: XidCounting::from(0, false),
            line: Vec::new(alloc),
            empty_homes: 0,
            others: IndexMap::with_hasher(alloc, hasher),
            nearest: usize::MAX,
            count: 0,
        }
    }

    /// Returns the call in the line that has this xid.
    #[inline(always)]
    fn in_line(&self, xid: u32) -> Option<NumberedCall>
        ensures { result ≡ lined self.now.counting self.now.line.items xid }
    {
        match self.line.get(self.counting.home(xid)) {
            Some(call) => { if call.number == 0 { None } else { Some(*call) } }
            None => None,
        }
    }

    /// Adds a call that is not in the line to the others, with its number if it is new. It takes
    /// the place of one with its xid, which is then put back, so a new one needs one look-up.
    fn admit_other(&mut self, xid: u32, call: NumberedCall) -> Result<Option<u32>, AllocError>
        requires new { lined self.old.counting self.old.line.items xid ≡ None }
        requires next { call.number ≡ next_number self.old.count }
        ensures { Admits (known_of self.old) xid call.id (known_of self.new) result }
    {
        self.nearest = self.nearest.min(self.counting.home(xid));
        match self.others.insert(xid, call)? {
            None => {
                self.count = call.number;
                Ok(Some(call.number))
            }
            Some(known) => {
                self.others.insert(xid, known)?;
                Ok(number_if(known, call.id))
            }
        }
    }

    /// Counts from the first call on, which is this one if there is none. The second tells the
    /// order of bytes.
    fn start_with(&mut self, xid: u32)
        ensures same { AreSame (lined self.old.counting self.old.line.items)
            (lined self.new.counting self.new.line.items) }
        ensures others { self.new.others.entries ≡ self.old.others.entries }
        ensures count { self.new.count ≡ self.old.count }
    {
        if !self.others.is_empty() {
            return;
        }
        match self.line.len() {
            0 => self.counting = XidCounting::from(xid, false),
            1 => {
                let first = self.counting.first_xid();
                let swapped = xid.swap_bytes() == first.swap_bytes().wrapping_add(1);
                self.counting = XidCounting::from(first, swapped);
            }
            _ => {}
        }
    }

    /// Returns whether too many homes would be empty if the line began to reach this one.
    fn is_far(&self, home: usize) -> bool {
        let empty = self
            .empty_homes
            .saturating_add(home.saturating_sub(self.line.len()));
        empty > FEW + self.line.len() / 4
    }

    /// Puts a call at the home of its xid, which is empty, or returns `false` if that is far.
    fn place(&mut self, xid: u32, call: NumberedCall) -> Result<bool, AllocError>
        requires numbered { call.number ≢ 0 }
        ensures puts { IfOk result (λ is. IsTrue is
            → Puts (lined self.old.counting self.old.line.items) xid call
            (lined self.new.counting self.new.line.items)) }
        ensures same { IfOk result (λ is. IsFalse is
            → self.new.line.items ≡ self.old.line.items) }
        ensures counting { self.new.counting ≡ self.old.counting }
        ensures others { self.new.others.entries ≡ self.old.others.entries }
        ensures count { self.new.count ≡ self.old.count }
    {
        let home = self.counting.home(xid);
        if home < self.line.len() {
            self.line[home] = call;
            self.empty_homes = self.empty_homes.saturating_sub(1);
            return Ok(true);
        }
        if self.is_far(home) {
            return Ok(false);
        }
        self.empty_homes = self.empty_homes.saturating_add(home - self.line.len());
        let NumberedCall { id, .. } = call;
        self.line.resize(home, NumberedCall { number: 0, id })?;
        self.line.push(call)?;
        Ok(true)
    }

    /// Adds a call that does not go to the end of the line.
    fn admit_aside(&mut self, xid: u32, id: ProcId) -> Result<Option<u32>, AllocError>
        ensures { Admits (known_of self.old) xid id (known_of self.new) result }
    {
        if let Some(call) = self.in_line(xid) {
            return Ok(number_if(call, id));
        }
        self.start_with(xid);
        let call = NumberedCall {
            number: self.count.saturating_add(1),
            id,
        };
        if self.counting.home(xid) >= self.nearest {
            return self.admit_other(xid, call);
        }
        if self.place(xid, call)? {
            self.count = call.number;
            Ok(Some(call.number))
        } else {
            self.admit_other(xid, call)
        }
    }
}

impl<S: BuildHasher + Drop> KnownCalls for CountedCalls<S> {
    ghost use Rattle.capture3.specs.machinery.CountedCalls.{known_of};

    ghost known = { known_of };

    #[inline(always)]
    fn call_of(&self, xid: u32) -> Option<NumberedCall> {
        match self.in_line(xid) {
            Some(call) => Some(call),
            None => self.others.get(&xid).copied(),
        }
    }
}

impl<S: BuildHasher + Drop> CallTable for CountedCalls<S> {
    // `IndexMap::clear` costs what the table has room for, `truncate` what it holds. A connection
    // of few calls may follow one of a million.
    fn clear(&mut self) {
        self.line.clear();
        self.empty_homes = 0;
        self.others.truncate(0);
        self.nearest = usize::MAX;
        self.count = 0;
    }

    // Most calls go to the end of the line.
    #[inline(always)]
    fn admit(&mut self, xid: u32, id: ProcId) -> Result<Option<u32>, AllocError> {
        let home = self.counting.home(xid);
        if home == self.line.len() && home < self.nearest {
            let number = self.count.saturating_add(1);
            self.line.push(NumberedCall { number, id })?;
            self.count = number;
            return Ok(Some(number));
        }
        self.admit_aside(xid, id)
    }
}
