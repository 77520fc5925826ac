//! The head of a call (RFC 5531, section 9).

use crate::values::credential::{Cred, Verf};
use crate::values::word::listed_or;
use std::alloc::{AllocError, Global};
use xdr3::{Field, GetError, Input, Reason, Visit, Walk, Xdr, walk_fields};

/// A procedure: its program's number and version, and its own number.
#[derive(Clone, Copy, Debug, PartialEq, Eq, Hash)]
pub struct ProcId {
    pub prog: u32,
    pub vers: u32,
    pub proc_no: u32,
}

/// The head of a call, from the RPC version to the verifier. A version other than 2 is refused as
/// `RpcVersion`, at its word.
#[derive(Clone, Copy)]
pub struct CallHead<'a> {
    pub id: ProcId,
    pub cred: Cred<'a>,
    pub verf: Verf<'a>,
}

impl<'a> Xdr<'a> for CallHead<'a> {
    ghost use Rattle.rpc_head.specs.Shapes.{call_head};

    ghost shape = { call_head };

    #[tactic(auto, unfolding(xdr3::specs::Reading::reading, crate::specs::Shapes::call_head, xdr3::specs::Item::followed_by))]
    fn get(alloc: Global, input: &mut Input<'a>) -> Result<CallHead<'a>, GetError> {
        listed_or(input, &[2], Reason::RpcVersion)?;
        let id = ProcId {
            prog: input.word()?,
            vers: input.word()?,
            proc_no: input.word()?,
        };
        let cred = Cred::get(alloc, input)?;
        let verf = Verf::get(alloc, input)?;
        Ok(CallHead { id, cred, verf })
    }
}

impl<'a> Walk for CallHead<'a> {
    ghost use Rattle.rpc_head.specs.Calls.{call_head_items};

    ghost items = { call_head_items };

    #[tactic(auto, using(xdr3::proofs::Lemmas::Shapes::Walks::steps), unfolding(xdr3::specs::Item::called))]
    fn walk<V: Visit>(&self, visitor: &mut V) -> Result<(), AllocError> {
        let all = [
            Field::Word("rpcvers", 2),
            Field::Word("prog", self.id.prog),
            Field::Word("vers", self.id.vers),
            Field::Word("proc", self.id.proc_no),
        ];
        walk_fields(&all, visitor)?;
        self.cred.walk(visitor)?;
        self.verf.walk(visitor)?;
        Ok(())
    }
}
