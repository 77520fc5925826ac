//! The results of accepted calls.
#![tactic(auto, unfolding(xdr3::specs::Reading::reading, xdr3::specs::Layout::reading_layout, crate::specs::Table::results_of, crate::specs::Table::nfs_procedures, crate::specs::Table::mount_procedures, xdr3::specs::Item::called))]

ghost use Rattle.std.specs.Prelude.{◌≡◌, ◌≢◌, ◌≤◌, [], ◌∷◌, IfErr, IfOk, IsFalse};
ghost use Rattle.procs3.specs.Items.{results_items};
ghost use Rattle.procs3.specs.Table.{has_list, layout_in, mount_procedures, name_in, name_of_procedure, nfs_procedures, results_of};
ghost use Rattle.procs3.specs.Variants.{results_name};
ghost use Rattle.xdr3.specs.declared.reason.GetError.TheVariants.{Memory};
ghost use Rattle.xdr3.specs.Gives.{Gives, IsRead};
ghost use Rattle.xdr3.specs.Layout.{ReadsLayout, RefusesLayout, reading_layout};
ghost use Rattle.xdr3.specs.Shape.{is_listed};
ghost use Rattle.xdr3.specs.View.{MovesOn};
ghost use Rattle.xdr3.specs.Visit.{AreWithinLimit};

use crate::values::creation::CreateOk;
use crate::values::directories::{LinkWcc, LookupOk, ReadDirOk, ReadDirPlusOk, RenameWcc};
use crate::values::file_system::{FsInfoOk, FsStatOk, PathConfOk};
use crate::values::files::{AccessOk, CommitOk, ReadLinkOk, ReadOk, WriteOk};
use crate::values::mounts::MountRes;
use nfs3_types::mount3::{Exports, MountList};
use nfs3_types::{Fattr, PostOpAttr, Res, Void, Wcc};
use rpc_head::ProcId;
use std::alloc::{AllocError, Global};
use xdr3::{Field, GetError, Input, Visit, Walk, Xdr, walk_fields};

/// The results of a successful call, which borrow from its reply's record.
#[derive(Drop)]
pub enum Results<'a> {
    /// NFSPROC3_NULL (RFC 1813, section 3.3.0).
    Null,
    /// NFSPROC3_GETATTR (RFC 1813, section 3.3.1).
    GetAttr(Res<Fattr, Void>),
    /// NFSPROC3_SETATTR (RFC 1813, section 3.3.2).
    SetAttr(Res<Wcc, Wcc>),
    /// NFSPROC3_LOOKUP (RFC 1813, section 3.3.3).
    Lookup(Res<LookupOk, PostOpAttr>),
    /// NFSPROC3_ACCESS (RFC 1813, section 3.3.4).
    Access(Res<AccessOk, PostOpAttr>),
    /// NFSPROC3_READLINK (RFC 1813, section 3.3.5).
    ReadLink(Res<ReadLinkOk<'a>, PostOpAttr>),
    /// NFSPROC3_READ (RFC 1813, section 3.3.6).
    Read(Res<ReadOk<'a>, PostOpAttr>),
    /// NFSPROC3_WRITE (RFC 1813, section 3.3.7).
    Write(Res<WriteOk, Wcc>),
    /// NFSPROC3_CREATE (RFC 1813, section 3.3.8).
    Create(Res<CreateOk, Wcc>),
    /// NFSPROC3_MKDIR (RFC 1813, section 3.3.9).
    MkDir(Res<CreateOk, Wcc>),
    /// NFSPROC3_SYMLINK (RFC 1813, section 3.3.10).
    SymLink(Res<CreateOk, Wcc>),
    /// NFSPROC3_MKNOD (RFC 1813, section 3.3.11).
    MkNod(Res<CreateOk, Wcc>),
    /// NFSPROC3_REMOVE (RFC 1813, section 3.3.12).
    Remove(Res<Wcc, Wcc>),
    /// NFSPROC3_RMDIR (RFC 1813, section 3.3.13).
    RmDir(Res<Wcc, Wcc>),
    /// NFSPROC3_RENAME (RFC 1813, section 3.3.14).
    Rename(Res<RenameWcc, RenameWcc>),
    /// NFSPROC3_LINK (RFC 1813, section 3.3.15).
    Link(Res<LinkWcc, LinkWcc>),
    /// NFSPROC3_READDIR (RFC 1813, section 3.3.16).
    ReadDir(Res<ReadDirOk<'a>, PostOpAttr>),
    /// NFSPROC3_READDIRPLUS (RFC 1813, section 3.3.17).
    ReadDirPlus(Res<ReadDirPlusOk<'a>, PostOpAttr>),
    /// NFSPROC3_FSSTAT (RFC 1813, section 3.3.18).
    FsStat(Res<FsStatOk, PostOpAttr>),
    /// NFSPROC3_FSINFO (RFC 1813, section 3.3.19).
    FsInfo(Res<FsInfoOk, PostOpAttr>),
    /// NFSPROC3_PATHCONF (RFC 1813, section 3.3.20).
    PathConf(Res<PathConfOk, PostOpAttr>),
    /// NFSPROC3_COMMIT (RFC 1813, section 3.3.21).
    Commit(Res<CommitOk, Wcc>),
    /// MOUNTPROC3_NULL (RFC 1813, section 5.2.0).
    MountNull,
    /// MOUNTPROC3_MNT (RFC 1813, section 5.2.1).
    Mnt(MountRes),
    /// MOUNTPROC3_DUMP (RFC 1813, section 5.2.2).
    Dump(MountList<'a>),
    /// MOUNTPROC3_UMNT (RFC 1813, section 5.2.3).
    Umnt,
    /// MOUNTPROC3_UMNTALL (RFC 1813, section 5.2.4).
    UmntAll,
    /// MOUNTPROC3_EXPORT (RFC 1813, section 5.2.5).
    Export(Exports<'a>),
    /// Any other procedure: all bytes that are left.
    Raw(&'a [u8]),
}

impl<'a> Results<'a> {
    /// Reads the results of a successful call of this procedure, as its layout says. Their items
    /// are between the old position and the new one; otherwise the error says where and why the
    /// bytes are refused. The result is of this procedure's variant, and can be visited. Memory is
    /// allocated for lists alone.
    pub fn get(alloc: Global, id: ProcId, input: &mut Input<'a>) -> Result<Results<'a>, GetError>
        ensures read { Gives results_items result input.new.at
            (reading_layout (results_of id) input.old.body input.old.at) }
        ensures variant { IfOk result (λ results. results_name results ≡ name_of_procedure id) }
        ensures relations { IsRead (ReadsLayout (results_of id), RefusesLayout (results_of id))
            results_items input.old result input.new }
        ensures limit { IfOk result (λ results. AreWithinLimit (results_items results)) }
        ensures memory { IsFalse (has_list id) → IfErr result (λ error. error ≢ Memory) }
        ensures moves { MovesOn input.old input.new }
    {
        // The prover concludes from this that the position is within the body.
        input.at();
        Results::of_procedure(alloc, id, input)
    }

    fn of_procedure(
        alloc: Global,
        id: ProcId,
        input: &mut Input<'a>,
    ) -> Result<Results<'a>, GetError>
        ensures read { Gives results_items result input.new.at
            (reading_layout (results_of id) input.old.body input.old.at) }
        ensures variant { IfOk result (λ results. results_name results ≡ name_of_procedure id) }
        ensures memory { IsFalse (has_list id) → IfErr result (λ error. error ≢ Memory) }
        ensures moves { MovesOn input.old input.new }
    {
        // The prover concludes from this that the position is within the body.
        input.at();
        match (id.prog, id.vers) {
            (100_003, 3) => Results::get_nfs(alloc, id.proc_no, input),
            (100_005, 3) => Results::get_mount(alloc, id.proc_no, input),
            _ => Ok(Results::Raw(input.rest())),
        }
    }

    /// Those of a procedure of NFS version 3.
    fn get_nfs(alloc: Global, proc_no: u32, input: &mut Input<'a>) -> Result<Results<'a>, GetError>
        ensures read { Gives results_items result input.new.at
            (reading_layout (layout_in (λ row. row.2) nfs_procedures proc_no)
            input.old.body input.old.at) }
        ensures variant { IfOk result
            (λ results. results_name results ≡ name_in nfs_procedures proc_no) }
        ensures memory { IsFalse (is_listed (16 ∷ 17 ∷ []) proc_no)
            → IfErr result (λ error. error ≢ Memory) }
        ensures moves { MovesOn input.old input.new }
    {
        // The prover concludes from this that the position is within the body.
        input.at();
        match proc_no {
            0 => Ok(Results::Null),
            1 => Ok(Results::GetAttr(Res::get(alloc, input)?)),
            2 => Ok(Results::SetAttr(Res::get(alloc, input)?)),
            3 => Ok(Results::Lookup(Res::get(alloc, input)?)),
            4 => Ok(Results::Access(Res::get(alloc, input)?)),
            5 => Ok(Results::ReadLink(Res::get(alloc, input)?)),
            6 => Ok(Results::Read(Res::get(alloc, input)?)),
            7 => Ok(Results::Write(Res::get(alloc, input)?)),
            _ => Results::get_nfs_from_create(alloc, proc_no, input),
        }
    }

    /// Those of CREATE, or a procedure after it.
    fn get_nfs_from_create(
        alloc: Global,
        proc_no: u32,
        input: &mut Input<'a>,
    ) -> Result<Results<'a>, GetError>
        requires { 8 ≤ proc_no }
        ensures read { Gives results_items result input.new.at
            (reading_layout (layout_in (λ row. row.2) nfs_procedures proc_no)
            input.old.body input.old.at) }
        ensures variant { IfOk result
            (λ results. results_name results ≡ name_in nfs_procedures proc_no) }
        ensures memory { IsFalse (is_listed (16 ∷ 17 ∷ []) proc_no)
            → IfErr result (λ error. error ≢ Memory) }
        ensures moves { MovesOn input.old input.new }
    {
        // The prover concludes from this that the position is within the body.
        input.at();
        match proc_no {
            8 => Ok(Results::Create(Res::get(alloc, input)?)),
            9 => Ok(Results::MkDir(Res::get(alloc, input)?)),
            10 => Ok(Results::SymLink(Res::get(alloc, input)?)),
            11 => Ok(Results::MkNod(Res::get(alloc, input)?)),
            12 => Ok(Results::Remove(Res::get(alloc, input)?)),
            13 => Ok(Results::RmDir(Res::get(alloc, input)?)),
            14 => Ok(Results::Rename(Res::get(alloc, input)?)),
            _ => Results::get_nfs_from_link(alloc, proc_no, input),
        }
    }

    /// Those of LINK, or a procedure after it.
    fn get_nfs_from_link(
        alloc: Global,
        proc_no: u32,
        input: &mut Input<'a>,
    ) -> Result<Results<'a>, GetError>
        requires { 15 ≤ proc_no }
        ensures read { Gives results_items result input.new.at
            (reading_layout (layout_in (λ row. row.2) nfs_procedures proc_no)
            input.old.body input.old.at) }
        ensures variant { IfOk result
            (λ results. results_name results ≡ name_in nfs_procedures proc_no) }
        ensures memory { IsFalse (is_listed (16 ∷ 17 ∷ []) proc_no)
            → IfErr result (λ error. error ≢ Memory) }
        ensures moves { MovesOn input.old input.new }
    {
        // The prover concludes from this that the position is within the body.
        input.at();
        match proc_no {
            15 => Ok(Results::Link(Res::get(alloc, input)?)),
            16 => Ok(Results::ReadDir(Res::get(alloc, input)?)),
            17 => Ok(Results::ReadDirPlus(Res::get(alloc, input)?)),
            18 => Ok(Results::FsStat(Res::get(alloc, input)?)),
            19 => Ok(Results::FsInfo(Res::get(alloc, input)?)),
            20 => Ok(Results::PathConf(Res::get(alloc, input)?)),
            21 => Ok(Results::Commit(Res::get(alloc, input)?)),
            _ => Ok(Results::Raw(input.rest())),
        }
    }

    /// Those of a procedure of MOUNT version 3.
    fn get_mount(
        alloc: Global,
        proc_no: u32,
        input: &mut Input<'a>,
    ) -> Result<Results<'a>, GetError>
        ensures read { Gives results_items result input.new.at
            (reading_layout (layout_in (λ row. row.2) mount_procedures proc_no)
            input.old.body input.old.at) }
        ensures variant { IfOk result
            (λ results. results_name results ≡ name_in mount_procedures proc_no) }
        ensures memory { IsFalse (is_listed (1 ∷ 2 ∷ 5 ∷ []) proc_no)
            → IfErr result (λ error. error ≢ Memory) }
        ensures moves { MovesOn input.old input.new }
    {
        // The prover concludes from this that the position is within the body.
        input.at();
        match proc_no {
            0 => Ok(Results::MountNull),
            1 => Ok(Results::Mnt(MountRes::get(alloc, input)?)),
            2 => Ok(Results::Dump(MountList::get(alloc, input)?)),
            3 => Ok(Results::Umnt),
            4 => Ok(Results::UmntAll),
            5 => Ok(Results::Export(Exports::get(alloc, input)?)),
            _ => Ok(Results::Raw(input.rest())),
        }
    }
}

impl Walk for Results<'_> {
    ghost use Rattle.procs3.specs.Items.{results_items};

    ghost items = { results_items };

    fn walk<V: Visit>(&self, visitor: &mut V) -> Result<(), AllocError> {
        match self {
            Results::Null | Results::MountNull | Results::Umnt | Results::UmntAll => walk_fields(
                &[],
                visitor,
            ),
            Results::GetAttr(results) => results.walk(visitor),
            Results::SetAttr(results) => results.walk(visitor),
            Results::Lookup(results) => results.walk(visitor),
            Results::Access(results) => results.walk(visitor),
            Results::ReadLink(results) => results.walk(visitor),
            Results::Read(results) => results.walk(visitor),
            Results::Write(results) => results.walk(visitor),
            Results::Create(results) => results.walk(visitor),
            Results::MkDir(results) => results.walk(visitor),
            Results::SymLink(results) => results.walk(visitor),
            Results::MkNod(results) => results.walk(visitor),
            Results::Remove(results) => results.walk(visitor),
            Results::RmDir(results) => results.walk(visitor),
            Results::Rename(results) => results.walk(visitor),
            Results::Link(results) => results.walk(visitor),
            Results::ReadDir(results) => results.walk(visitor),
            Results::ReadDirPlus(results) => results.walk(visitor),
            Results::FsStat(results) => results.walk(visitor),
            Results::FsInfo(results) => results.walk(visitor),
            Results::PathConf(results) => results.walk(visitor),
            Results::Commit(results) => results.walk(visitor),
            Results::Mnt(results) => results.walk(visitor),
            Results::Dump(results) => results.walk(visitor),
            Results::Export(results) => results.walk(visitor),
            Results::Raw(bytes) => walk_fields(&[Field::Rest("rest", bytes)], visitor),
        }
    }
}
