//! Bodies of messages, read as values.

ghost use Rattle.std.specs.Prelude.{◌≡◌, ◌≢◌, ◌≤◌, length, is_some, IfErr, IfOk, IfSome};
ghost use Rattle.xdr3.specs.Visit.{body_limit};
ghost use Rattle.procs3.specs.Table.{name_of_procedure};
ghost use Rattle.xdr3.specs.Gives.{Gives};
ghost use Rattle.xdr3.specs.declared.reason.GetError.TheVariants.{Memory};
ghost use Rattle.xdr3.specs.Layout.{reading_layout};
ghost use Rattle.xdr3.specs.View.{MovesOn};
ghost use Rattle.capture3.specs.Bodies.{IsCall, IsReply};
ghost use Rattle.capture3.specs.machinery.Messages.{results_after};
ghost use Rattle.capture3.specs.MessageValues.{answered_items, call_items, is_success, items_after_head};
ghost use Rattle.capture3.specs.machinery.Spelled.{SpellsCall, SpellsNoCall, SpellsNoReply, SpellsReply};
ghost use Rattle.procs3.specs.Variants.{args_name, results_name};

use crate::message::values::{CallMsg, ReplyMsg};
use procs3::{Args, Results};
use rpc_head::{Accept, CallHead, ProcId, ReplyHead, start};
use std::alloc::{AllocError, Global};
use xdr3::{GetError, Input, Reason, Stop, Xdr};

/// Reads a body that spells a call of this procedure.
pub(crate) fn read_call<'a>(alloc: Global, id: ProcId, body: &'a [u8]) -> CallMsg<'a>
    requires short { length body.now ≤ body_limit }
    requires spells { ∥ SpellsCall id body.now ∥₁ }
    ensures call { IsCall body.now (call_items result) }
    ensures procedure { result.head.id ≡ id }
    ensures variant { args_name result.args ≡ name_of_procedure result.head.id }
{
    match call_in(alloc, body) {
        Ok(message) => message,
        // No part of a call owns memory.
        Err(GetError::Memory) => unreachable!(),
        // The body was read as a message before.
        Err(GetError::Stop(_)) => unreachable!(),
    }
}

/// Reads a body that spells a reply to a call of this procedure.
pub(crate) fn read_reply<'a>(
    alloc: Global,
    id: ProcId,
    body: &'a [u8],
) -> Result<ReplyMsg<'a>, AllocError>
    requires short { length body.now ≤ body_limit }
    requires spells { ∥ SpellsReply id body.now ∥₁ }
    ensures reply { IfOk result (λ message. IsReply body.now (answered_items message)) }
    ensures procedure { IfOk result (λ message. message.id ≡ id) }
    ensures success { IfOk result
        (λ message. is_some message.results ≡ is_success message.head) }
    ensures variant { IfOk result (λ message. IfSome message.results
        (λ results. results_name results ≡ name_of_procedure message.id)) }
{
    match reply_in(alloc, id, body) {
        Ok(message) => Ok(message),
        Err(GetError::Memory) => Err(AllocError),
        // The body was read as a message before.
        Err(GetError::Stop(_)) => unreachable!(),
    }
}

/// Reads a body as a call.
fn call_in<'a>(alloc: Global, body: &'a [u8]) -> Result<CallMsg<'a>, GetError>
    requires { length body.now ≤ body_limit }
    ensures call { IfOk result (λ call. IsCall body.now (call_items call)) }
    ensures variant { IfOk result (λ call. args_name call.args ≡ name_of_procedure call.head.id) }
    ensures err { IfErr result (λ error. SpellsNoCall error body.now) }
    ensures memory { IfErr result (λ error. error ≢ Memory) }
{
    let mut input = Input::new(body);
    let start = start(&mut input)?;
    if start.is_reply {
        return Err(wrong_side());
    }
    let head = CallHead::get(alloc, &mut input)?;
    let args = Args::get(alloc, head.id, &mut input)?;
    input.end()?;
    Ok(CallMsg {
        xid: start.xid,
        head,
        args,
    })
}

/// Reads a body as a reply to a call of this procedure.
fn reply_in<'a>(alloc: Global, id: ProcId, body: &'a [u8]) -> Result<ReplyMsg<'a>, GetError>
    requires { length body.now ≤ body_limit }
    ensures reply { IfOk result (λ reply. IsReply body.now (answered_items reply)) }
    ensures procedure { IfOk result (λ reply. reply.id ≡ id) }
    ensures success { IfOk result (λ reply. is_some reply.results ≡ is_success reply.head) }
    ensures variant { IfOk result (λ reply. IfSome reply.results
        (λ results. results_name results ≡ name_of_procedure id)) }
    ensures err { IfErr result (λ error. SpellsNoReply error id body.now) }
{
    let mut input = Input::new(body);
    let start = start(&mut input)?;
    if !start.is_reply {
        return Err(wrong_side());
    }
    let head = ReplyHead::get(alloc, &mut input)?;
    let results = results_in(alloc, id, &head, &mut input)?;
    input.end()?;
    Ok(ReplyMsg {
        xid: start.xid,
        id,
        head,
        results,
    })
}

/// Reads the results after a reply's head: none after any but an accepted success.
#[tactic(auto, unfolding(xdr3::specs::Layout::reading_layout, xdr3::specs::Reading::reading))]
fn results_in<'a>(
    alloc: Global,
    id: ProcId,
    head: &ReplyHead<'a>,
    input: &mut Input<'a>,
) -> Result<Option<Results<'a>>, GetError>
    ensures read { Gives items_after_head result input.new.at
        (reading_layout (results_after (is_success head.now) id) input.old.body input.old.at) }
    ensures success { IfOk result (λ results. is_some results ≡ is_success head.now) }
    ensures variant { IfOk result
        (λ results. IfSome results (λ results. results_name results ≡ name_of_procedure id)) }
    ensures moves { MovesOn input.old input.new }
{
    // The prover concludes from this that the position is within the body.
    input.at();
    match head {
        ReplyHead::Accepted(_, Accept::Success) => {
            let results = Results::get(alloc, id, input)?;
            Ok(Some(results))
        }
        _ => Ok(None),
    }
}

/// Returns the refusal of a reply among calls, or of a call among replies.
fn wrong_side() -> GetError
    ensures { result ≡ GetError.Stop (record { at = 4; reason = Reason.WrongSide }) }
{
    GetError::Stop(Stop {
        at: 4,
        reason: Reason::WrongSide,
    })
}
