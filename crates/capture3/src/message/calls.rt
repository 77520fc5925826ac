//! The calls of a connection.

ghost use Rattle.std.specs.Prelude.{◌≡◌, if◌then◌else◌, None, Some};
ghost use Rattle.capture3.specs.machinery.Calls.{known_in_list, in_list, next_number, Admits, KnowsNone};
ghost use Rattle.capture3.specs.BodyProgram.{is_same};

use rpc_head::ProcId;
use std::alloc::{AllocError, Global};

/// A call of a connection. Its number says in which order the xids of the calls first came: 1 for
/// the first, 2 for the next other one, and so on. A call that is sent again keeps its number.
#[derive(Clone, Copy)]
pub(crate) struct NumberedCall {
    pub(crate) number: u32,
    pub(crate) id: ProcId,
}

/// Calls that are looked up by their xids.
pub(crate) trait KnownCalls {
    ghost use Rattle.capture3.specs.machinery.Calls.{Known};

    ghost known: { Self → Known };

    /// Returns the call with this xid.
    fn call_of(&self, xid: u32) -> Option<NumberedCall>
        ensures { result ≡ (known self.now).call_of xid };
}

/// The calls of a connection, in the order in which they come.
pub(crate) trait CallTable: KnownCalls {
    fn clear(&mut self)
        ensures { KnowsNone (Self.known self.new) };

    /// Adds a call if its xid is new, and returns its number. Returns `None` if an earlier call has
    /// the same xid but another procedure; the calls are unspecified after that. Never fails for a
    /// known xid.
    fn admit(&mut self, xid: u32, id: ProcId) -> Result<Option<u32>, AllocError>
        ensures { Admits (Self.known self.old) xid id (Self.known self.new) result };
}

/// Returns the number of a call if it has this procedure.
pub(crate) fn number_if(call: NumberedCall, id: ProcId) -> Option<u32>
    ensures { result ≡ (if is_same call.id id then Some call.number else None) }
{
    if call.id == id {
        Some(call.number)
    } else {
        None
    }
}

/// Returns the number of a call that comes after so many others.
fn number_after(count: usize) -> u32
    ensures { result ≡ next_number count }
{
    u32::try_from(count).unwrap_or(u32::MAX).saturating_add(1)
}

/// A plain list of calls with their xids, which is searched from its front.
#[derive(Drop)]
pub(crate) struct CallList {
    calls: Vec<(u32, NumberedCall)>,
}

impl CallList {
    pub(crate) fn new(alloc: Global) -> CallList
        ensures { KnowsNone (known_in_list result.calls.items) }
    {
        CallList {
            calls: Vec::new(alloc),
        }
    }

    fn find(&self, xid: u32) -> Option<NumberedCall>
        ensures { result ≡ in_list self.now.calls.items xid }
    {
        for pair in &self.calls {
            if xid == pair.0 {
                return Some(pair.1);
            }
        }
        None
    }
}

impl KnownCalls for CallList {
    ghost known = { λ list. known_in_list list.calls.items };

    fn call_of(&self, xid: u32) -> Option<NumberedCall> {
        self.find(xid)
    }
}

impl CallTable for CallList {
    fn clear(&mut self) {
        self.calls.clear();
    }

    fn admit(&mut self, xid: u32, id: ProcId) -> Result<Option<u32>, AllocError> {
        if let Some(call) = self.find(xid) {
            return Ok(number_if(call, id));
        }
        let number = number_after(self.calls.len());
        self.calls.push((xid, NumberedCall { number, id }))?;
        Ok(Some(number))
    }
}

/// One call, and its xid.
#[derive(Clone, Copy)]
pub(crate) struct OneCall {
    pub(crate) xid: u32,
    pub(crate) call: NumberedCall,
}

impl KnownCalls for OneCall {
    ghost use Rattle.capture3.specs.machinery.Calls.{known_one};

    ghost known = { λ one. known_one one.xid one.call };

    fn call_of(&self, xid: u32) -> Option<NumberedCall> {
        if self.xid == xid {
            Some(self.call)
        } else {
            None
        }
    }
}
