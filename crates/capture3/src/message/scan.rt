//! Whole messages that are passed to a visitor as they are read.

ghost use Rattle.std.specs.Prelude.{◌≤◌, List, length, IfErr, IfOk, OnOk};
ghost use Rattle.xdr3.specs.Item.{Item};
ghost use Rattle.xdr3.specs.Scan.{ScansLayout, StopsLayout};
ghost use Rattle.xdr3.specs.Visit.{body_limit};
ghost use Rattle.capture3.specs.BodyProgram as spec;
ghost use Rattle.capture3.specs.machinery.ScannedMessages.{ScansCall, ScansReply, StopsMessage};
ghost use Rattle.capture3.specs.machinery.Messages.{HasProcedures, results_after};

use crate::message::calls::{KnownCalls, NumberedCall};
use crate::message::stop;
use crate::message::visiting::MessageVisit;
use procs3::{scan_arguments, scan_results};
use rpc_head::{ProcId, scan_call_head, scan_reply_head, start};
use xdr3::{GetError, Input, Reason, Visit};

/// What a call says of itself: its xid, and the procedure that it calls.
#[derive(Clone, Copy)]
pub(crate) struct ScannedCall {
    pub(crate) xid: u32,
    pub(crate) id: ProcId,
}

/// Parses a record of the client's stream, and passes its items to the visitor. Returns the call's
/// xid and procedure, without comparing them with earlier calls of the connection. After an error
/// the contents of the visitor are unspecified.
pub(crate) fn scan_call<V: MessageVisit>(
    body: &[u8],
    visitor: &mut V,
) -> Result<ScannedCall, GetError>
    requires { length body.now ≤ body_limit }
    ensures ok { IfOk result
        (λ call. ScansCall V.rests V.stands body.now call visitor.old visitor.new) }
    ensures err { (before : List (List Item))
        → IfErr result (λ error. StopsMessage error (spec.judge_call before body.now)) }
{
    let mut input = Input::new(body);
    let start = start(&mut input)?;
    if start.is_reply {
        return Err(stop(4, Reason::WrongSide));
    }
    visitor.begin(start)?;
    let id = scan_call_head(&mut input, visitor)?;
    scan_arguments(id, &mut input, visitor)?;
    input.end()?;
    // Written out, so that the words are not moved in two parts, of eight bytes and of four.
    let ProcId {
        prog,
        vers,
        proc_no,
    } = id;
    Ok(ScannedCall {
        xid: start.xid,
        id: ProcId {
            prog,
            vers,
            proc_no,
        },
    })
}

/// Parses a record of the server's stream, after all calls of its connection, and passes its items
/// to the visitor. Returns its call. After an error the contents of the visitor
/// are unspecified.
pub(crate) fn scan_reply<C: KnownCalls, V: MessageVisit>(
    calls: &C,
    body: &[u8],
    visitor: &mut V,
) -> Result<NumberedCall, GetError>
    requires { length body.now ≤ body_limit }
    ensures ok { IfOk result
        (λ call. ScansReply V.rests V.stands (C.known calls.now) body.now call visitor.old
        visitor.new) }
    ensures err { (before : List (List Item)) → HasProcedures (C.known calls.now) before
        → IfErr result (λ error. StopsMessage error (spec.judge_reply before body.now)) }
{
    let mut input = Input::new(body);
    let start = start(&mut input)?;
    if !start.is_reply {
        return Err(stop(4, Reason::WrongSide));
    }
    let Some(call) = calls.call_of(start.xid) else {
        return Err(stop(0, Reason::NoCall));
    };
    visitor.begin(start)?;
    let success = scan_reply_head(&mut input, visitor)?;
    scan_results_after(success, call.id, &mut input, visitor)?;
    input.end()?;
    Ok(call)
}

/// Parses the results after a reply's head: none after any but an accepted success.
#[inline(always)]
#[tactic(auto, using(xdr3::proofs::Lemmas::Scans::ScanLemmas::layouts, xdr3::proofs::Lemmas::Scans::ScanLemmas::nothing_scans))]
fn scan_results_after<V: Visit>(
    success: bool,
    id: ProcId,
    input: &mut Input,
    visitor: &mut V,
) -> Result<(), GetError>
    ensures ok { OnOk result
        (ScansLayout V.stands (results_after success id)
        (input.old, visitor.old) (input.new, visitor.new)) }
    ensures err { IfErr result (λ error. StopsLayout (results_after success id) input.old error) }
{
    // The prover takes from this that the place is within the body.
    input.at();
    if success {
        scan_results(id, input, visitor)?;
    }
    Ok(())
}
