//! Whole messages, item by item (RFC 5531, section 9).

use procs3::{Args, Results};
use rpc_head::{CallHead, ProcId, ReplyHead};
use std::alloc::AllocError;
use xdr3::{Field, Visit, Walk, walk_fields};

/// A call: its xid, its head and its arguments, which borrow from its body (RFC 5531, section 9).
#[derive(Clone, Copy)]
pub struct CallMsg<'a> {
    pub xid: u32,
    pub head: CallHead<'a>,
    pub args: Args<'a>,
}

/// Visits the xid first, then the mtype CALL, the head and the arguments (RFC 5531, section 9).
impl Walk for CallMsg<'_> {
    ghost use Rattle.capture3.specs.MessageValues.{call_items};

    ghost items = { call_items };

    #[tactic(auto, using(xdr3::proofs::Lemmas::Shapes::Walks::steps), unfolding(xdr3::specs::Item::called))]
    fn walk<V: Visit>(&self, visitor: &mut V) -> Result<(), AllocError> {
        walk_fields(
            &[Field::Word("xid", self.xid), Field::Word("mtype", 0)],
            visitor,
        )?;
        self.head.walk(visitor)?;
        self.args.walk(visitor)?;
        Ok(())
    }
}

/// A reply: its xid, its procedure, which is that of its call, its head, and its results if it is
/// an accepted success (RFC 5531, section 9). Head and results borrow from its body.
#[derive(Drop)]
pub struct ReplyMsg<'a> {
    pub xid: u32,
    pub id: ProcId,
    pub head: ReplyHead<'a>,
    pub results: Option<Results<'a>>,
}

/// Visits the xid first, then the mtype REPLY, the head, and the results if there are any (RFC
/// 5531, section 9).
impl Walk for ReplyMsg<'_> {
    ghost use Rattle.capture3.specs.MessageValues.{reply_items};

    ghost items = { reply_items };

    #[tactic(auto, using(xdr3::proofs::Lemmas::Shapes::Walks::steps), unfolding(xdr3::specs::Item::called))]
    fn walk<V: Visit>(&self, visitor: &mut V) -> Result<(), AllocError> {
        walk_fields(
            &[Field::Word("xid", self.xid), Field::Word("mtype", 1)],
            visitor,
        )?;
        self.head.walk(visitor)?;
        if let Some(results) = &self.results {
            results.walk(visitor)?;
        }
        Ok(())
    }
}
