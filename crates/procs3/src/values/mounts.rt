//! Arguments and results of MOUNT's procedures (RFC 1813, section 5.2).
#![tactic(auto, unfolding(xdr3::specs::Reading::reading, crate::specs::Shapes::dirpath, xdr3::specs::Item::called))]

use crate::values::tagged::walk_tagged;
use nfs3_types::mount3::{MountOk, MountStatus};
use std::alloc::{AllocError, Global};
use xdr3::{Field, GetError, Input, Visit, Walk, Xdr, walk_fields};

/// The arguments of MNT and of UMNT: a path of at most 1,024 bytes, which borrows from the record
/// (RFC 1813, sections 5.2.1 and 5.2.3).
#[derive(Clone, Copy)]
pub struct DirPath<'a> {
    pub dirpath: &'a [u8],
}

impl<'a> Xdr<'a> for DirPath<'a> {
    ghost use Rattle.procs3.specs.Shapes.{dirpath};

    ghost shape = { dirpath };

    fn get(_alloc: Global, input: &mut Input<'a>) -> Result<DirPath<'a>, GetError> {
        let dirpath = input.var(1024)?;
        Ok(DirPath { dirpath })
    }
}

impl<'a> Walk for DirPath<'a> {
    ghost use Rattle.procs3.specs.Mounts.{dirpath_items};

    ghost items = { dirpath_items };

    fn walk<V: Visit>(&self, visitor: &mut V) -> Result<(), AllocError> {
        let all = [Field::Text("dirpath", self.dirpath)];
        walk_fields(&all, visitor)
    }
}

/// The results of MNT: `mountres3` (RFC 1813, section 5.2.1). What was mounted follows a status 0,
/// and nothing follows any other.
#[derive(Drop)]
pub enum MountRes {
    Done(MountOk),
    Failed(MountStatus),
}

impl<'a> Xdr<'a> for MountRes {
    ghost use Rattle.std.specs.Prelude.{true};
    ghost use Rattle.procs3.specs.Shapes.{mount_results};

    ghost shape = { mount_results };

    ghost owns_memory = { true };

    #[tactic(auto, unfolding(xdr3::specs::Reading::reading, crate::specs::Shapes::mount_results, xdr3::specs::Item::followed_by))]
    fn get(alloc: Global, input: &mut Input<'a>) -> Result<MountRes, GetError> {
        let status = MountStatus::take(input)?;
        if status.number() == 0 {
            let done = MountOk::get(alloc, input)?;
            Ok(MountRes::Done(done))
        } else {
            Ok(MountRes::Failed(status))
        }
    }
}

impl Walk for MountRes {
    ghost use Rattle.procs3.specs.Mounts.{mount_results_items};

    ghost items = { mount_results_items };

    fn walk<V: Visit>(&self, visitor: &mut V) -> Result<(), AllocError> {
        match self {
            MountRes::Done(done) => walk_tagged("status", 0, done, visitor),
            MountRes::Failed(status) => status.walk(visitor),
        }
    }
}
