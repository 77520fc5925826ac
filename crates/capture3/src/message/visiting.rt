//! Visitors of messages.

ghost use Rattle.std.specs.Prelude.{List, OnOk};
ghost use Rattle.rpc_head.specs.MessageStart.{start_items};
ghost use Rattle.xdr3.specs.Item.{Item};
ghost use Rattle.xdr3.specs.Visit.{Adds};
ghost use Rattle.capture3.specs.MessageVisit.{OpensMessage};

use rpc_head::Start;
use std::alloc::AllocError;
use xdr3::{Visit, Writer};

/// A visitor of messages, one after another. Between two of them it rests: no message is open. A
/// visitor to which each item is the same rests for what it represents.
pub trait MessageVisit: Visit {
    /// Which lists of items it represents while no message is open.
    ghost rests: { Self → List Item → Type 0 };

    /// Begins a message with its xid and its mtype (RFC 5531, section 9).
    ///
    /// # Errors
    ///
    /// `AllocError` if an allocation failed. The contents of the visitor are unspecified then, as
    /// they are after an error of the call that reads the message.
    fn begin(&mut self, start: Start) -> Result<(), AllocError>
        ensures { OnOk result
            (OpensMessage rests Self.stands self.old self.new (start_items start)) };
}

/// Visits the xid and the mtype as two words (RFC 5531, section 9), for a visitor to which they are
/// items as others are.
#[tactic(auto, using(xdr3::proofs::Lemmas::Shapes::Walks::adds_joined), unfolding(xdr3::specs::Item::called))]
fn visit_start<V: Visit>(start: Start, visitor: &mut V) -> Result<(), AllocError>
    ensures { OnOk result (Adds V.stands visitor.old visitor.new (start_items start)) }
{
    visitor.word("xid", start.xid)?;
    visitor.word("mtype", start.is_reply as u32)
}

/// Writes messages one behind another.
#[tactic(auto, unfolding(xdr3::specs::Visit::Adds, crate::specs::MessageVisit::OpensMessage))]
impl MessageVisit for Writer {
    ghost use Rattle.std.specs.Prelude.{◌≡◌};
    ghost use Rattle.xdr3.specs.Item.{zero_spelling};

    ghost rests = { λ writer items. writer ≡ zero_spelling items };

    fn begin(&mut self, start: Start) -> Result<(), AllocError> {
        visit_start(start, self)
    }
}
