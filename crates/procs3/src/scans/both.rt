//! Structs of parts, passed to a visitor as they are read.

ghost use Rattle.xdr3.specs.Scan.{Scans};

use std::marker::PhantomData;
use xdr3::{GetError, Input, Scan, Visit};

/// One part and then another: a struct of two components (RFC 4506, section 4.14). A struct of more
/// is its first component and then the others. No part has a value here, so the lifetime of one
/// whose values borrow is `'static`.
pub(crate) struct Both<A, B>(PhantomData<(A, B)>);

impl<A: Scan, B: Scan> Scan for Both<A, B> {
    ghost use Rattle.xdr3.specs.Shape.{◌then◌};

    ghost shape = { A.shape then B.shape };

    #[inline(always)]
    #[tactic(auto, using(xdr3::proofs::Lemmas::Scans::ScanLemmas::scans))]
    fn scan<V: Visit>(input: &mut Input, visitor: &mut V) -> Result<(), GetError> {
        A::scan(input, visitor)?;
        B::scan(input, visitor)
    }
}
