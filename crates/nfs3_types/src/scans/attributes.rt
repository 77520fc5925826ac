//! Attributes, passed to a visitor as they are read (RFC 1813).

ghost use Rattle.std.specs.Prelude.{IfErr, OnOk};
ghost use Rattle.nfs3_types.specs.machinery.AttributeTails.{after_type};
ghost use Rattle.xdr3.specs.Scan.{Scans, Stops};

use crate::values::attributes::{Fattr, PostOpAttr, Wcc, WccAttr};
use xdr3::{GetError, Input, PlainField, Scan, Visit, scan_listed, scan_optional, scan_plain};

/// A file's attributes after its type (RFC 1813).
const ATTRIBUTES: [PlainField; 16] = [
    PlainField::Word("mode"),
    PlainField::Word("nlink"),
    PlainField::Word("uid"),
    PlainField::Word("gid"),
    PlainField::Hyper("size"),
    PlainField::Hyper("used"),
    PlainField::Word("rdev1"),
    PlainField::Word("rdev2"),
    PlainField::Hyper("fsid"),
    PlainField::Hyper("fileid"),
    PlainField::Word("atime_sec"),
    PlainField::Word("atime_nsec"),
    PlainField::Word("mtime_sec"),
    PlainField::Word("mtime_nsec"),
    PlainField::Word("ctime_sec"),
    PlainField::Word("ctime_nsec"),
];

impl Scan for Fattr {
    ghost use Rattle.nfs3_types.specs.Shapes.{attributes};

    ghost shape = { attributes };

    #[tactic(auto, using(xdr3::proofs::Lemmas::Scans::ScanLemmas::scans, crate::proofs::AttributeTailLemmas::whole_attributes), unfolding(xdr3::specs::Item::called))]
    fn scan<V: Visit>(input: &mut Input, visitor: &mut V) -> Result<(), GetError> {
        scan_listed("type", &[1, 2, 3, 4, 5, 6, 7], input, visitor)?;
        scan_after_type(input, visitor)
    }
}

#[inline]
#[tactic(auto, using(xdr3::proofs::Lemmas::Shapes::FlatLemmas::flats), unfolding(crate::specs::machinery::AttributeTails::after_type, crate::specs::machinery::AttributeTails::times, crate::specs::Shapes::time_named, xdr3::specs::Item::called))]
fn scan_after_type<V: Visit>(input: &mut Input, visitor: &mut V) -> Result<(), GetError>
    ensures ok { OnOk result
        (Scans V.stands after_type (input.old, visitor.old) (input.new, visitor.new)) }
    ensures err { IfErr result (λ error. Stops after_type input.old error) }
{
    scan_plain(&ATTRIBUTES, 80, input, visitor)?;
    Ok(())
}

impl Scan for PostOpAttr {
    ghost use Rattle.nfs3_types.specs.Shapes.{post_op_attr};

    ghost shape = { post_op_attr };

    #[tactic(auto, unfolding(crate::specs::Shapes::post_op_attr, xdr3::specs::Item::called))]
    fn scan<V: Visit>(input: &mut Input, visitor: &mut V) -> Result<(), GetError> {
        scan_optional::<Fattr, V>("attr", input, visitor)
    }
}

/// A file's attributes before a change (RFC 1813).
const ATTRIBUTES_BEFORE: [PlainField; 5] = [
    PlainField::Hyper("size"),
    PlainField::Word("mtime_sec"),
    PlainField::Word("mtime_nsec"),
    PlainField::Word("ctime_sec"),
    PlainField::Word("ctime_nsec"),
];

impl Scan for WccAttr {
    ghost use Rattle.nfs3_types.specs.Shapes.{wcc_attr};

    ghost shape = { wcc_attr };

    fn scan<V: Visit>(input: &mut Input, visitor: &mut V) -> Result<(), GetError> {
        scan_plain(&ATTRIBUTES_BEFORE, 24, input, visitor)?;
        Ok(())
    }
}

impl Scan for Wcc {
    ghost use Rattle.nfs3_types.specs.Shapes.{wcc};

    ghost shape = { wcc };

    #[tactic(auto, using(xdr3::proofs::Lemmas::Scans::ScanLemmas::scans), unfolding(crate::specs::Shapes::wcc, xdr3::specs::Item::called))]
    fn scan<V: Visit>(input: &mut Input, visitor: &mut V) -> Result<(), GetError> {
        scan_optional::<WccAttr, V>("before", input, visitor)?;
        PostOpAttr::scan(input, visitor)
    }
}
