//! File handles, passed to a visitor as they are read (RFC 1813).

use crate::values::handle::Handle;
use xdr3::{GetError, Input, Scan, Visit, scan_handle};

impl Scan for Handle {
    ghost use Rattle.nfs3_types.specs.Shapes.{handle};

    ghost shape = { handle };

    #[inline(always)]
    #[tactic(auto, unfolding(crate::specs::Shapes::handle, xdr3::specs::Item::called))]
    fn scan<V: Visit>(input: &mut Input, visitor: &mut V) -> Result<(), GetError> {
        scan_handle("fh", input, visitor)
    }
}
