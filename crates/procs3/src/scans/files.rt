//! What `values::files` has, passed to a visitor as it is read: files (RFC 1813,
//! sections 3.3.2 to 3.3.7 and 3.3.21).

ghost use Rattle.xdr3.specs.Named.{hyper, word};
ghost use Rattle.xdr3.specs.Shape.{◌then◌};

use crate::scans::both::Both;
use crate::scans::items::{
    Access, Committed, Count, Data, Eof, Offset, Path, StableHow, WriteVerf,
};
use nfs3_types::{Guard, Handle, PostOpAttr, Sattr, Wcc};
use xdr3::{GetError, Input, PlainField, Scan, Visit, scan_plain};

/// SETATTR3args (RFC 1813, section 3.3.2).
pub(crate) type SetAttrArgs = Both<Handle, Both<Sattr, Guard>>;

/// ACCESS3args (RFC 1813, section 3.3.4).
pub(crate) type AccessArgs = Both<Handle, Access>;

/// ACCESS3resok (RFC 1813, section 3.3.4).
pub(crate) type AccessOk = Both<PostOpAttr, Access>;

/// READLINK3resok (RFC 1813, section 3.3.5).
pub(crate) type ReadLinkOk = Both<PostOpAttr, Path>;

/// READ3args and COMMIT3args (RFC 1813, sections 3.3.6 and 3.3.21).
pub(crate) type FileRange = Both<Handle, Range>;

/// The range of a file, in READ3args and COMMIT3args (RFC 1813, sections 3.3.6 and 3.3.21).
pub(crate) struct Range;

/// The fields of a range.
const RANGE: [PlainField; 2] = [PlainField::Hyper("offset"), PlainField::Word("count")];

impl Scan for Range {
    ghost shape = { hyper "offset" then word "count" };

    #[inline]
    #[tactic(auto, using(xdr3::proofs::Lemmas::Shapes::FlatLemmas::flats), unfolding(xdr3::specs::Item::called))]
    fn scan<V: Visit>(input: &mut Input, visitor: &mut V) -> Result<(), GetError> {
        scan_plain(&RANGE, 12, input, visitor)?;
        Ok(())
    }
}

/// READ3resok (RFC 1813, section 3.3.6).
pub(crate) type ReadOk = Both<PostOpAttr, Both<Count, Both<Eof, Data>>>;

/// WRITE3args (RFC 1813, section 3.3.7).
pub(crate) type WriteArgs = Both<Handle, Both<Offset, Both<Count, Both<StableHow, Data>>>>;

/// WRITE3resok (RFC 1813, section 3.3.7).
pub(crate) type WriteOk = Both<Wcc, Both<Count, Both<Committed, WriteVerf>>>;

/// COMMIT3resok (RFC 1813, section 3.3.21).
pub(crate) type CommitOk = Both<Wcc, WriteVerf>;
