//! A value and what comes after it, visited one after the other.
#![tactic(auto, using(xdr3::proofs::Lemmas::Shapes::Walks::steps))]

ghost use Rattle.std.specs.Prelude.{OnErr, OnOk};
ghost use Rattle.xdr3.specs.Field.{HandlesAreShort, field_items};
ghost use Rattle.xdr3.specs.Item.{followed_by};
ghost use Rattle.procs3.specs.Directories.{listing_items};
ghost use Rattle.nfs3_types.specs.Items.{post_op_attr_items};
ghost use Rattle.xdr3.specs.Visit.{Adds, AddsSome, AreWithinLimit};

use nfs3_types::PostOpAttr;
use std::alloc::AllocError;
use xdr3::{Field, Visit, Walk, walk_fields, walk_linked};

/// Visits one value and then another.
pub(crate) fn walk_two<A: Walk, B: Walk, V: Visit>(
    first: &A,
    second: &B,
    visitor: &mut V,
) -> Result<(), AllocError>
    requires { AreWithinLimit (followed_by (A.items first.now) (B.items second.now)) }
    ensures ok { OnOk result (Adds V.stands visitor.old visitor.new
        (followed_by (A.items first.now) (B.items second.now))) }
    ensures err { OnErr result (AddsSome V.stands visitor.old visitor.new
        (followed_by (A.items first.now) (B.items second.now))) }
{
    first.walk(visitor)?;
    second.walk(visitor)?;
    Ok(())
}

/// Visits three values in turn.
pub(crate) fn walk_three<A: Walk, B: Walk, C: Walk, V: Visit>(
    first: &A,
    second: &B,
    third: &C,
    visitor: &mut V,
) -> Result<(), AllocError>
    requires { AreWithinLimit (followed_by (A.items first.now)
        (followed_by (B.items second.now) (C.items third.now))) }
    ensures ok { OnOk result (Adds V.stands visitor.old visitor.new
        (followed_by (A.items first.now) (followed_by (B.items second.now) (C.items third.now)))) }
    ensures err { OnErr result (AddsSome V.stands visitor.old visitor.new
        (followed_by (A.items first.now) (followed_by (B.items second.now) (C.items third.now)))) }
{
    first.walk(visitor)?;
    walk_two(second, third, visitor)?;
    Ok(())
}

/// Visits a value and then fields.
pub(crate) fn walk_with_fields<T: Walk, V: Visit>(
    value: &T,
    fields: &[Field],
    visitor: &mut V,
) -> Result<(), AllocError>
    requires limit { AreWithinLimit (followed_by (T.items value.now) (field_items fields.now)) }
    requires handles { HandlesAreShort fields.now }
    ensures ok { OnOk result (Adds V.stands visitor.old visitor.new
        (followed_by (T.items value.now) (field_items fields.now))) }
    ensures err { OnErr result (AddsSome V.stands visitor.old visitor.new
        (followed_by (T.items value.now) (field_items fields.now))) }
{
    value.walk(visitor)?;
    walk_fields(fields, visitor)?;
    Ok(())
}

/// Visits what a directory's listing has: attributes, a verifier, entries, and whether they are the last.
#[tactic(auto, using(xdr3::proofs::Lemmas::Shapes::Walks::steps), unfolding(xdr3::specs::Item::called))]
pub(crate) fn walk_listing<E: Walk, V: Visit>(
    attr: &PostOpAttr,
    cookieverf: [u8; 8],
    entries: &[E],
    eof: bool,
    visitor: &mut V,
) -> Result<(), AllocError>
    requires { AreWithinLimit (listing_items (post_op_attr_items attr.now)
        cookieverf E.items entries.now eof) }
    ensures ok { OnOk result (Adds V.stands visitor.old visitor.new
        (listing_items (post_op_attr_items attr.now)
        cookieverf E.items entries.now eof)) }
    ensures err { OnErr result (AddsSome V.stands visitor.old visitor.new
        (listing_items (post_op_attr_items attr.now)
        cookieverf E.items entries.now eof)) }
{
    attr.walk(visitor)?;
    walk_fields(&[Field::Fixed("cookieverf", cookieverf)], visitor)?;
    walk_linked("entry", entries, visitor)?;
    walk_fields(&[Field::Word("eof", u32::from(eof))], visitor)?;
    Ok(())
}
