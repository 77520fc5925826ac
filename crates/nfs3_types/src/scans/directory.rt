//! Names in directories, and optional handles, passed to a visitor as they are read (RFC 1813).
#![tactic(auto, using(xdr3::proofs::Lemmas::Scans::ScanLemmas::scans), unfolding(crate::specs::Shapes::dir_op, crate::specs::Shapes::post_op_fh, xdr3::specs::Item::called))]

ghost use Rattle.std.specs.Prelude.{IfErr, OnOk};
ghost use Rattle.xdr3.specs.Scan.{Scans, Stops};

use crate::values::directory::{DirOp, PostOpFh};
use crate::values::handle::Handle;
use xdr3::{GetError, Input, Scan, Visit, scan_optional, scan_text};

impl<'a> Scan for DirOp<'a> {
    ghost use Rattle.nfs3_types.specs.Shapes.{dir_op};

    ghost shape = { dir_op };

    fn scan<V: Visit>(input: &mut Input, visitor: &mut V) -> Result<(), GetError>
        ensures ok { OnOk result
            (Scans V.stands dir_op (input.old, visitor.old) (input.new, visitor.new)) }
        ensures err { IfErr result (λ error. Stops dir_op input.old error) }
    {
        Handle::scan(input, visitor)?;
        scan_text("name", u32::MAX, input, visitor)
    }
}

impl Scan for PostOpFh {
    ghost use Rattle.nfs3_types.specs.Shapes.{post_op_fh};

    ghost shape = { post_op_fh };

    fn scan<V: Visit>(input: &mut Input, visitor: &mut V) -> Result<(), GetError> {
        scan_optional::<Handle, V>("handle", input, visitor)
    }
}
