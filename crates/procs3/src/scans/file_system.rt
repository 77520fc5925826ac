//! What `values::file_system` has, passed to a visitor as it is read: file systems (RFC 1813,
//! sections 3.3.18 to 3.3.20).
#![tactic(auto, using(xdr3::proofs::Lemmas::Shapes::FlatLemmas::flats), unfolding(nfs3_types::specs::Shapes::time_named, xdr3::specs::Item::called))]

ghost use Rattle.nfs3_types.specs.Shapes.{time};
ghost use Rattle.xdr3.specs.Named.{hyper, word};
ghost use Rattle.xdr3.specs.Shape.{◌then◌};

use crate::scans::both::Both;
use crate::scans::items::{
    CaseInsensitive, CasePreserving, ChownRestricted, LinkMax, NameMax, NoTrunc,
};
use nfs3_types::PostOpAttr;
use xdr3::{GetError, Input, PlainField, Scan, Visit, scan_plain};

/// FSSTAT3resok (RFC 1813, section 3.3.18).
pub(crate) type FsStatOk = Both<PostOpAttr, FsStatNumbers>;

/// The numbers of an FSSTAT3resok (RFC 1813, section 3.3.18).
pub(crate) struct FsStatNumbers;

/// Their names.
const FSSTAT: [PlainField; 7] = [
    PlainField::Hyper("tbytes"),
    PlainField::Hyper("fbytes"),
    PlainField::Hyper("abytes"),
    PlainField::Hyper("tfiles"),
    PlainField::Hyper("ffiles"),
    PlainField::Hyper("afiles"),
    PlainField::Word("invarsec"),
];

impl Scan for FsStatNumbers {
    ghost shape = { hyper "tbytes" then hyper "fbytes"
        then hyper "abytes" then hyper "tfiles" then hyper "ffiles"
        then hyper "afiles" then word "invarsec" };

    #[inline]
    fn scan<V: Visit>(input: &mut Input, visitor: &mut V) -> Result<(), GetError> {
        scan_plain(&FSSTAT, 52, input, visitor)?;
        Ok(())
    }
}

/// FSINFO3resok (RFC 1813, section 3.3.19).
pub(crate) type FsInfoOk = Both<PostOpAttr, FsInfoNumbers>;

/// The numbers of an FSINFO3resok (RFC 1813, section 3.3.19).
pub(crate) struct FsInfoNumbers;

/// Their names.
const FSINFO: [PlainField; 11] = [
    PlainField::Word("rtmax"),
    PlainField::Word("rtpref"),
    PlainField::Word("rtmult"),
    PlainField::Word("wtmax"),
    PlainField::Word("wtpref"),
    PlainField::Word("wtmult"),
    PlainField::Word("dtpref"),
    PlainField::Hyper("maxfilesize"),
    PlainField::Word("delta_sec"),
    PlainField::Word("delta_nsec"),
    PlainField::Word("properties"),
];

impl Scan for FsInfoNumbers {
    ghost shape = { word "rtmax" then word "rtpref" then word "rtmult"
        then word "wtmax" then word "wtpref" then word "wtmult"
        then word "dtpref" then hyper "maxfilesize"
        then time "delta_sec" "delta_nsec" then word "properties" };

    #[inline]
    fn scan<V: Visit>(input: &mut Input, visitor: &mut V) -> Result<(), GetError> {
        scan_plain(&FSINFO, 48, input, visitor)?;
        Ok(())
    }
}

/// PATHCONF3resok (RFC 1813, section 3.3.20).
pub(crate) type PathConfOk = Both<
    PostOpAttr,
    Both<LinkMax, Both<NameMax, Both<NoTrunc, PathConfNames>>>,
>;

/// How a file system treats names (RFC 1813, section 3.3.20).
type PathConfNames = Both<ChownRestricted, Both<CaseInsensitive, CasePreserving>>;
