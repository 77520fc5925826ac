//! What `values::creation` has, passed to a visitor as it is read: creation of files and
//! directories (RFC 1813, sections 3.3.8 to 3.3.11).
#![tactic(auto, using(xdr3::proofs::Lemmas::Scans::ScanLemmas::scans), unfolding(crate::specs::Shapes::create_how, crate::specs::Shapes::device, crate::specs::Shapes::mknod_what, xdr3::specs::Item::called))]

ghost use Rattle.procs3.specs.Shapes.{create_how, mknod_what};
ghost use Rattle.xdr3.specs.Scan.{Scans};

use crate::scans::both::Both;
use crate::scans::items::{CreateVerf, Path, Spec1, Spec2};
use nfs3_types::{DirOp, PostOpAttr, PostOpFh, Sattr, Wcc};
use xdr3::{GetError, Input, Scan, Visit, scan_listed};

/// createhow3 (RFC 1813, section 3.3.8).
pub(crate) struct CreateHow;

impl Scan for CreateHow {
    ghost shape = { create_how };

    fn scan<V: Visit>(input: &mut Input, visitor: &mut V) -> Result<(), GetError> {
        if scan_listed("how", &[0, 1, 2], input, visitor)? == 2 {
            CreateVerf::scan(input, visitor)
        } else {
            Sattr::scan(input, visitor)
        }
    }
}

/// CREATE3args (RFC 1813, section 3.3.8).
pub(crate) type CreateArgs = Both<DirOp<'static>, CreateHow>;

/// MKDIR3args (RFC 1813, section 3.3.9).
pub(crate) type MkDirArgs = Both<DirOp<'static>, Sattr>;

/// SYMLINK3args (RFC 1813, section 3.3.10).
pub(crate) type SymLinkArgs = Both<DirOp<'static>, Both<Sattr, Path>>;

/// specdata3, in a devicedata3 (RFC 1813, section 3.3.11).
type SpecData = Both<Spec1, Spec2>;

/// devicedata3 (RFC 1813, section 3.3.11).
type Device = Both<Sattr, SpecData>;

/// mknoddata3 (RFC 1813, section 3.3.11).
pub(crate) struct MkNodWhat;

impl Scan for MkNodWhat {
    ghost shape = { mknod_what };

    fn scan<V: Visit>(input: &mut Input, visitor: &mut V) -> Result<(), GetError> {
        match scan_listed("type", &[1, 2, 3, 4, 5, 6, 7], input, visitor)? {
            3 | 4 => Device::scan(input, visitor),
            6 | 7 => Sattr::scan(input, visitor),
            _ => Ok(()),
        }
    }
}

/// MKNOD3args (RFC 1813, section 3.3.11).
pub(crate) type MkNodArgs = Both<DirOp<'static>, MkNodWhat>;

/// CREATE3resok, MKDIR3resok, SYMLINK3resok and MKNOD3resok (RFC 1813, sections 3.3.8 to 3.3.11).
pub(crate) type CreateOk = Both<PostOpFh, Both<PostOpAttr, Wcc>>;
