//! What `values::mounts` has, passed to a visitor as it is read: MOUNT version 3 (RFC 1813,
//! section 5.2).
#![tactic(auto, using(xdr3::proofs::Lemmas::Scans::ScanLemmas::scans), unfolding(crate::specs::Shapes::dirpath, crate::specs::Shapes::mount_results, xdr3::specs::Item::called))]

ghost use Rattle.xdr3.specs.Scan.{Scans};

use nfs3_types::mount3::MountOk;
use nfs3_types::scan_path;
use xdr3::{GetError, Input, Scan, Visit, scan_listed};

/// A dirpath, the arguments of MNT and of UMNT (RFC 1813, sections 5.2.1 and 5.2.3).
pub(crate) struct DirPath;

impl Scan for DirPath {
    ghost use Rattle.procs3.specs.Shapes.{dirpath};

    ghost shape = { dirpath };

    fn scan<V: Visit>(input: &mut Input, visitor: &mut V) -> Result<(), GetError> {
        scan_path("dirpath", input, visitor)
    }
}

/// mountres3 (RFC 1813, section 5.2.1).
pub(crate) struct MountRes;

impl Scan for MountRes {
    ghost use Rattle.procs3.specs.Shapes.{mount_results};

    ghost shape = { mount_results };

    fn scan<V: Visit>(input: &mut Input, visitor: &mut V) -> Result<(), GetError> {
        let words = [0, 1, 2, 5, 13, 20, 22, 63, 10_004, 10_006];
        if scan_listed("status", &words, input, visitor)? == 0 {
            MountOk::scan(input, visitor)
        } else {
            Ok(())
        }
    }
}
