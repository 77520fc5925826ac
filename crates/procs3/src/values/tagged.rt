//! A word and the value that it chooses.

ghost use Rattle.std.specs.Prelude.{OnErr, OnOk};
ghost use Rattle.xdr3.specs.Visit.{Adds, AddsSome, AreWithinLimit};
ghost use Rattle.procs3.specs.Tagged.{tagged_items};

use std::alloc::AllocError;
use xdr3::{Visit, Walk};

/// Visits the word and then the value.
#[tactic(auto, using(xdr3::proofs::Lemmas::Shapes::Walks::steps))]
pub(crate) fn walk_tagged<T: Walk, V: Visit>(
    name: &'static str,
    tag: u32,
    value: &T,
    visitor: &mut V,
) -> Result<(), AllocError>
    requires { AreWithinLimit (tagged_items name.now tag T.items value.now) }
    ensures ok { OnOk result (Adds V.stands visitor.old visitor.new
        (tagged_items name.now tag T.items value.now)) }
    ensures err { OnErr result (AddsSome V.stands visitor.old visitor.new
        (tagged_items name.now tag T.items value.now)) }
{
    visitor.word(name, tag)?;
    value.walk(visitor)?;
    Ok(())
}
