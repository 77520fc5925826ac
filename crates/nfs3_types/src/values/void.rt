//! No data.

use std::alloc::{AllocError, Global};
use xdr3::{GetError, Input, Visit, Walk, Xdr, walk_fields};

/// No data (RFC 4506, section 4.16).
#[derive(Clone, Copy, Debug, PartialEq, Eq)]
pub struct Void;

impl<'a> Xdr<'a> for Void {
    ghost use Rattle.xdr3.specs.Shape.{nothing};

    ghost shape = { nothing };

    #[tactic(auto, unfolding(xdr3::specs::Reading::reading))]
    fn get(_alloc: Global, input: &mut Input<'a>) -> Result<Void, GetError> {
        // The prover concludes from this that the position is within the body.
        input.at();
        Ok(Void)
    }
}

impl Walk for Void {
    ghost use Rattle.std.specs.Prelude.{[]};

    ghost items = { λ v. [] };

    fn walk<V: Visit>(&self, visitor: &mut V) -> Result<(), AllocError> {
        walk_fields(&[], visitor)
    }
}
