//! The head of a reply (RFC 5531, section 9).
#![tactic(auto, using(xdr3::proofs::Lemmas::Shapes::Walks::steps), unfolding(xdr3::specs::Reading::reading, crate::specs::Shapes::accept, crate::specs::Shapes::deny, xdr3::specs::Item::called))]

use crate::values::credential::Verf;
use std::alloc::{AllocError, Global};
use xdr3::{Field, GetError, Input, Visit, Walk, Xdr, walk_fields};

/// What became of a call that was accepted (accept_stat 0 to 5). Results follow `Success` alone.
#[derive(Clone, Copy, Debug, PartialEq, Eq)]
pub enum Accept {
    Success,
    ProgUnavail,
    /// The lowest and the highest version of the program that the server has.
    ProgMismatch { low: u32, high: u32 },
    ProcUnavail,
    GarbageArgs,
    SystemErr,
}

impl<'a> Xdr<'a> for Accept {
    ghost use Rattle.rpc_head.specs.Shapes.{accept};

    ghost shape = { accept };

    fn get(_alloc: Global, input: &mut Input<'a>) -> Result<Accept, GetError> {
        match input.listed(&[0, 1, 2, 3, 4, 5])? {
            0 => Ok(Accept::Success),
            1 => Ok(Accept::ProgUnavail),
            2 => {
                let low = input.word()?;
                let high = input.word()?;
                Ok(Accept::ProgMismatch { low, high })
            }
            3 => Ok(Accept::ProcUnavail),
            4 => Ok(Accept::GarbageArgs),
            _ => Ok(Accept::SystemErr),
        }
    }
}

impl Walk for Accept {
    ghost use Rattle.rpc_head.specs.Replies.{accept_items};

    ghost items = { accept_items };

    fn walk<V: Visit>(&self, visitor: &mut V) -> Result<(), AllocError> {
        match *self {
            Accept::Success => walk_fields(&[Field::Word("accept_stat", 0)], visitor),
            Accept::ProgUnavail => walk_fields(&[Field::Word("accept_stat", 1)], visitor),
            Accept::ProgMismatch { low, high } => {
                let all = [
                    Field::Word("accept_stat", 2),
                    Field::Word("low", low),
                    Field::Word("high", high),
                ];
                walk_fields(&all, visitor)
            }
            Accept::ProcUnavail => walk_fields(&[Field::Word("accept_stat", 3)], visitor),
            Accept::GarbageArgs => walk_fields(&[Field::Word("accept_stat", 4)], visitor),
            Accept::SystemErr => walk_fields(&[Field::Word("accept_stat", 5)], visitor),
        }
    }
}

/// Why a call was denied: the RPC versions that the server has (reject_stat 0), or what is wrong
/// with the caller's credential (reject_stat 1), an auth_stat of 0 to 14.
#[derive(Clone, Copy, Debug, PartialEq, Eq)]
pub enum Deny {
    RpcMismatch { low: u32, high: u32 },
    AuthError(u32),
}

impl<'a> Xdr<'a> for Deny {
    ghost use Rattle.rpc_head.specs.Shapes.{deny};

    ghost shape = { deny };

    fn get(_alloc: Global, input: &mut Input<'a>) -> Result<Deny, GetError> {
        let reject_stat = input.listed(&[0, 1])?;
        if reject_stat == 0 {
            let low = input.word()?;
            let high = input.word()?;
            Ok(Deny::RpcMismatch { low, high })
        } else {
            let auth_stat = input.listed(&[0, 1, 2, 3, 4, 5, 6, 7, 8, 9, 10, 11, 12, 13, 14])?;
            Ok(Deny::AuthError(auth_stat))
        }
    }
}

impl Walk for Deny {
    ghost use Rattle.rpc_head.specs.Replies.{deny_items};

    ghost items = { deny_items };

    fn walk<V: Visit>(&self, visitor: &mut V) -> Result<(), AllocError> {
        match *self {
            Deny::RpcMismatch { low, high } => {
                let all = [
                    Field::Word("reject_stat", 0),
                    Field::Word("low", low),
                    Field::Word("high", high),
                ];
                walk_fields(&all, visitor)
            }
            Deny::AuthError(auth_stat) => {
                let all = [
                    Field::Word("reject_stat", 1),
                    Field::Word("auth_stat", auth_stat),
                ];
                walk_fields(&all, visitor)
            }
        }
    }
}

/// The head of a reply, from its reply_stat up to the results: accepted (0) with the server's
/// verifier, or denied (1).
#[derive(Clone, Copy)]
pub enum ReplyHead<'a> {
    Accepted(Verf<'a>, Accept),
    Denied(Deny),
}

impl<'a> Xdr<'a> for ReplyHead<'a> {
    ghost use Rattle.rpc_head.specs.Shapes.{reply_head};

    ghost shape = { reply_head };

    #[tactic(auto, unfolding(xdr3::specs::Reading::reading, crate::specs::Shapes::reply_head, xdr3::specs::Item::followed_by))]
    fn get(alloc: Global, input: &mut Input<'a>) -> Result<ReplyHead<'a>, GetError> {
        let reply_stat = input.listed(&[0, 1])?;
        if reply_stat == 0 {
            let verf = Verf::get(alloc, input)?;
            let accept = Accept::get(alloc, input)?;
            Ok(ReplyHead::Accepted(verf, accept))
        } else {
            let deny = Deny::get(alloc, input)?;
            Ok(ReplyHead::Denied(deny))
        }
    }
}

impl<'a> Walk for ReplyHead<'a> {
    ghost use Rattle.rpc_head.specs.Replies.{reply_head_items};

    ghost items = { reply_head_items };

    fn walk<V: Visit>(&self, visitor: &mut V) -> Result<(), AllocError> {
        match self {
            ReplyHead::Accepted(verf, accept) => {
                visitor.word("reply_stat", 0)?;
                verf.walk(visitor)?;
                accept.walk(visitor)?;
                Ok(())
            }
            ReplyHead::Denied(deny) => {
                visitor.word("reply_stat", 1)?;
                deny.walk(visitor)?;
                Ok(())
            }
        }
    }
}
