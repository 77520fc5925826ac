//! How a message starts (RFC 5531, section 9).

ghost use Rattle.std.specs.Prelude.{◌≡◌, drop};
ghost use Rattle.rpc_head.specs.Shapes.{message_start};
ghost use Rattle.rpc_head.specs.MessageStart.{IsStart, start_items};
ghost use Rattle.xdr3.specs.Reading.{reading};
ghost use Rattle.xdr3.specs.View.{Answers, MovesOn};

use xdr3::{Input, Stop};

/// The first two words of a message: its xid, and whether it is a reply (mtype 1) or a call (mtype
/// 0).
#[derive(Clone, Copy, Debug, PartialEq, Eq)]
pub struct MessageStart {
    pub xid: u32,
    pub is_reply: bool,
}

/// Returns what follows the xid in a message's body (RFC 5531, section 9).
pub fn after_xid(body: &[u8]) -> &[u8]
    ensures { result.now ≡ drop 4 body.now }
{
    &body[body.len().min(4)..]
}

/// Reads the xid and the mtype. A word that is not whole is `Short`, another mtype `BadEnum`, each
/// at its own first byte.
#[tactic(auto, using(crate::proofs::MessageStartLemmas::is_start), unfolding(xdr3::specs::Reading::reading, crate::specs::Shapes::message_start))]
pub fn start(input: &mut Input) -> Result<MessageStart, Stop>
    ensures read { Answers start_items result input.new.at
        (reading message_start input.old.body input.old.at) }
    ensures is_start { IsStart input.old result input.new }
    ensures moves { MovesOn input.old input.new }
{
    // The prover concludes from this that the position is within the body.
    input.at();
    let xid = input.word()?;
    let mtype = input.listed(&[0, 1])?;
    Ok(MessageStart {
        xid,
        is_reply: mtype == 1,
    })
}
