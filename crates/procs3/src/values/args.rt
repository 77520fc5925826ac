//! The arguments of calls.
#![tactic(auto, unfolding(xdr3::specs::Reading::reading, xdr3::specs::Layout::reading_layout, crate::specs::Table::arguments_of, crate::specs::Table::nfs_procedures, crate::specs::Table::mount_procedures, xdr3::specs::Item::called))]

ghost use Rattle.std.specs.Prelude.{◌≡◌, ◌≢◌, ◌≤◌, IfErr, IfOk};
ghost use Rattle.procs3.specs.Items.{args_items};
ghost use Rattle.procs3.specs.Table.{arguments_of, layout_in, mount_procedures, name_in, name_of_procedure, nfs_procedures};
ghost use Rattle.procs3.specs.Variants.{args_name};
ghost use Rattle.xdr3.specs.declared.reason.GetError.TheVariants.{Memory};
ghost use Rattle.xdr3.specs.Gives.{Gives, IsRead};
ghost use Rattle.xdr3.specs.Layout.{ReadsLayout, RefusesLayout, reading_layout};
ghost use Rattle.xdr3.specs.View.{MovesOn};
ghost use Rattle.xdr3.specs.Visit.{AreWithinLimit};

use crate::values::creation::{CreateArgs, MkDirArgs, MkNodArgs, SymLinkArgs};
use crate::values::directories::{LinkArgs, ReadDirArgs, ReadDirPlusArgs, RenameArgs};
use crate::values::files::{AccessArgs, FileRange, SetAttrArgs, WriteArgs};
use crate::values::mounts::DirPath;
use nfs3_types::{DirOp, Handle};
use rpc_head::ProcId;
use std::alloc::{AllocError, Global};
use xdr3::{Field, GetError, Input, Visit, Walk, Xdr, walk_fields};

/// The arguments of a call, which borrow from its record.
#[derive(Clone, Copy)]
pub enum Args<'a> {
    /// NFSPROC3_NULL (RFC 1813, section 3.3.0).
    Null,
    /// NFSPROC3_GETATTR (RFC 1813, section 3.3.1).
    GetAttr(Handle),
    /// NFSPROC3_SETATTR (RFC 1813, section 3.3.2).
    SetAttr(SetAttrArgs),
    /// NFSPROC3_LOOKUP (RFC 1813, section 3.3.3).
    Lookup(DirOp<'a>),
    /// NFSPROC3_ACCESS (RFC 1813, section 3.3.4).
    Access(AccessArgs),
    /// NFSPROC3_READLINK (RFC 1813, section 3.3.5).
    ReadLink(Handle),
    /// NFSPROC3_READ (RFC 1813, section 3.3.6).
    Read(FileRange),
    /// NFSPROC3_WRITE (RFC 1813, section 3.3.7).
    Write(WriteArgs<'a>),
    /// NFSPROC3_CREATE (RFC 1813, section 3.3.8).
    Create(CreateArgs<'a>),
    /// NFSPROC3_MKDIR (RFC 1813, section 3.3.9).
    MkDir(MkDirArgs<'a>),
    /// NFSPROC3_SYMLINK (RFC 1813, section 3.3.10).
    SymLink(SymLinkArgs<'a>),
    /// NFSPROC3_MKNOD (RFC 1813, section 3.3.11).
    MkNod(MkNodArgs<'a>),
    /// NFSPROC3_REMOVE (RFC 1813, section 3.3.12).
    Remove(DirOp<'a>),
    /// NFSPROC3_RMDIR (RFC 1813, section 3.3.13).
    RmDir(DirOp<'a>),
    /// NFSPROC3_RENAME (RFC 1813, section 3.3.14).
    Rename(RenameArgs<'a>),
    /// NFSPROC3_LINK (RFC 1813, section 3.3.15).
    Link(LinkArgs<'a>),
    /// NFSPROC3_READDIR (RFC 1813, section 3.3.16).
    ReadDir(ReadDirArgs),
    /// NFSPROC3_READDIRPLUS (RFC 1813, section 3.3.17).
    ReadDirPlus(ReadDirPlusArgs),
    /// NFSPROC3_FSSTAT (RFC 1813, section 3.3.18).
    FsStat(Handle),
    /// NFSPROC3_FSINFO (RFC 1813, section 3.3.19).
    FsInfo(Handle),
    /// NFSPROC3_PATHCONF (RFC 1813, section 3.3.20).
    PathConf(Handle),
    /// NFSPROC3_COMMIT (RFC 1813, section 3.3.21).
    Commit(FileRange),
    /// MOUNTPROC3_NULL (RFC 1813, section 5.2.0).
    MountNull,
    /// MOUNTPROC3_MNT (RFC 1813, section 5.2.1).
    Mnt(DirPath<'a>),
    /// MOUNTPROC3_DUMP (RFC 1813, section 5.2.2).
    Dump,
    /// MOUNTPROC3_UMNT (RFC 1813, section 5.2.3).
    Umnt(DirPath<'a>),
    /// MOUNTPROC3_UMNTALL (RFC 1813, section 5.2.4).
    UmntAll,
    /// MOUNTPROC3_EXPORT (RFC 1813, section 5.2.5).
    Export,
    /// Any other procedure: all bytes that are left.
    Raw(&'a [u8]),
}

impl<'a> Args<'a> {
    /// Reads the arguments of a call of this procedure, as its layout says. Their items are between
    /// the old position and the new one; otherwise the error says where and why the bytes are
    /// refused. The result is of this procedure's variant, and can be visited. No memory is allocated.
    pub fn get(alloc: Global, id: ProcId, input: &mut Input<'a>) -> Result<Args<'a>, GetError>
        ensures read { Gives args_items result input.new.at
            (reading_layout (arguments_of id) input.old.body input.old.at) }
        ensures variant { IfOk result (λ args. args_name args ≡ name_of_procedure id) }
        ensures relations { IsRead (ReadsLayout (arguments_of id), RefusesLayout (arguments_of id))
            args_items input.old result input.new }
        ensures limit { IfOk result (λ args. AreWithinLimit (args_items args)) }
        ensures memory { IfErr result (λ error. error ≢ Memory) }
        ensures moves { MovesOn input.old input.new }
    {
        // The prover concludes from this that the position is within the body.
        input.at();
        Args::of_procedure(alloc, id, input)
    }

    fn of_procedure(alloc: Global, id: ProcId, input: &mut Input<'a>) -> Result<Args<'a>, GetError>
        ensures read { Gives args_items result input.new.at
            (reading_layout (arguments_of id) input.old.body input.old.at) }
        ensures variant { IfOk result (λ args. args_name args ≡ name_of_procedure id) }
        ensures memory { IfErr result (λ error. error ≢ Memory) }
        ensures moves { MovesOn input.old input.new }
    {
        // The prover concludes from this that the position is within the body.
        input.at();
        match (id.prog, id.vers) {
            (100_003, 3) => Args::get_nfs(alloc, id.proc_no, input),
            (100_005, 3) => Args::get_mount(alloc, id.proc_no, input),
            _ => Ok(Args::Raw(input.rest())),
        }
    }

    /// Those of a procedure of NFS version 3.
    fn get_nfs(alloc: Global, proc_no: u32, input: &mut Input<'a>) -> Result<Args<'a>, GetError>
        ensures read { Gives args_items result input.new.at
            (reading_layout (layout_in (λ row. row.1) nfs_procedures proc_no)
            input.old.body input.old.at) }
        ensures variant { IfOk result (λ args. args_name args ≡ name_in nfs_procedures proc_no) }
        ensures memory { IfErr result (λ error. error ≢ Memory) }
        ensures moves { MovesOn input.old input.new }
    {
        // The prover concludes from this that the position is within the body.
        input.at();
        match proc_no {
            0 => Ok(Args::Null),
            1 => Ok(Args::GetAttr(Handle::get(alloc, input)?)),
            2 => Ok(Args::SetAttr(SetAttrArgs::get(alloc, input)?)),
            3 => Ok(Args::Lookup(DirOp::get(alloc, input)?)),
            4 => Ok(Args::Access(AccessArgs::get(alloc, input)?)),
            5 => Ok(Args::ReadLink(Handle::get(alloc, input)?)),
            6 => Ok(Args::Read(FileRange::get(alloc, input)?)),
            7 => Ok(Args::Write(WriteArgs::get(alloc, input)?)),
            _ => Args::get_nfs_from_create(alloc, proc_no, input),
        }
    }

    /// Those of CREATE, or a procedure after it.
    fn get_nfs_from_create(
        alloc: Global,
        proc_no: u32,
        input: &mut Input<'a>,
    ) -> Result<Args<'a>, GetError>
        requires { 8 ≤ proc_no }
        ensures read { Gives args_items result input.new.at
            (reading_layout (layout_in (λ row. row.1) nfs_procedures proc_no)
            input.old.body input.old.at) }
        ensures variant { IfOk result (λ args. args_name args ≡ name_in nfs_procedures proc_no) }
        ensures memory { IfErr result (λ error. error ≢ Memory) }
        ensures moves { MovesOn input.old input.new }
    {
        // The prover concludes from this that the position is within the body.
        input.at();
        match proc_no {
            8 => Ok(Args::Create(CreateArgs::get(alloc, input)?)),
            9 => Ok(Args::MkDir(MkDirArgs::get(alloc, input)?)),
            10 => Ok(Args::SymLink(SymLinkArgs::get(alloc, input)?)),
            11 => Ok(Args::MkNod(MkNodArgs::get(alloc, input)?)),
            12 => Ok(Args::Remove(DirOp::get(alloc, input)?)),
            13 => Ok(Args::RmDir(DirOp::get(alloc, input)?)),
            14 => Ok(Args::Rename(RenameArgs::get(alloc, input)?)),
            _ => Args::get_nfs_from_link(alloc, proc_no, input),
        }
    }

    /// Those of LINK, or a procedure after it.
    fn get_nfs_from_link(
        alloc: Global,
        proc_no: u32,
        input: &mut Input<'a>,
    ) -> Result<Args<'a>, GetError>
        requires { 15 ≤ proc_no }
        ensures read { Gives args_items result input.new.at
            (reading_layout (layout_in (λ row. row.1) nfs_procedures proc_no)
            input.old.body input.old.at) }
        ensures variant { IfOk result (λ args. args_name args ≡ name_in nfs_procedures proc_no) }
        ensures memory { IfErr result (λ error. error ≢ Memory) }
        ensures moves { MovesOn input.old input.new }
    {
        // The prover concludes from this that the position is within the body.
        input.at();
        match proc_no {
            15 => Ok(Args::Link(LinkArgs::get(alloc, input)?)),
            16 => Ok(Args::ReadDir(ReadDirArgs::get(alloc, input)?)),
            17 => Ok(Args::ReadDirPlus(ReadDirPlusArgs::get(alloc, input)?)),
            18 => Ok(Args::FsStat(Handle::get(alloc, input)?)),
            19 => Ok(Args::FsInfo(Handle::get(alloc, input)?)),
            20 => Ok(Args::PathConf(Handle::get(alloc, input)?)),
            21 => Ok(Args::Commit(FileRange::get(alloc, input)?)),
            _ => Ok(Args::Raw(input.rest())),
        }
    }

    /// Those of a procedure of MOUNT version 3.
    fn get_mount(alloc: Global, proc_no: u32, input: &mut Input<'a>) -> Result<Args<'a>, GetError>
        ensures read { Gives args_items result input.new.at
            (reading_layout (layout_in (λ row. row.1) mount_procedures proc_no)
            input.old.body input.old.at) }
        ensures variant { IfOk result (λ args. args_name args ≡ name_in mount_procedures proc_no) }
        ensures memory { IfErr result (λ error. error ≢ Memory) }
        ensures moves { MovesOn input.old input.new }
    {
        // The prover concludes from this that the position is within the body.
        input.at();
        match proc_no {
            0 => Ok(Args::MountNull),
            1 => Ok(Args::Mnt(DirPath::get(alloc, input)?)),
            2 => Ok(Args::Dump),
            3 => Ok(Args::Umnt(DirPath::get(alloc, input)?)),
            4 => Ok(Args::UmntAll),
            5 => Ok(Args::Export),
            _ => Ok(Args::Raw(input.rest())),
        }
    }
}

impl Walk for Args<'_> {
    ghost use Rattle.procs3.specs.Items.{args_items};

    ghost items = { args_items };

    fn walk<V: Visit>(&self, visitor: &mut V) -> Result<(), AllocError> {
        match self {
            Args::Null | Args::MountNull | Args::Dump | Args::UmntAll | Args::Export => walk_fields(
                &[],
                visitor,
            ),
            Args::GetAttr(args) => args.walk(visitor),
            Args::SetAttr(args) => args.walk(visitor),
            Args::Lookup(args) => args.walk(visitor),
            Args::Access(args) => args.walk(visitor),
            Args::ReadLink(args) => args.walk(visitor),
            Args::Read(args) => args.walk(visitor),
            Args::Write(args) => args.walk(visitor),
            Args::Create(args) => args.walk(visitor),
            Args::MkDir(args) => args.walk(visitor),
            Args::SymLink(args) => args.walk(visitor),
            Args::MkNod(args) => args.walk(visitor),
            Args::Remove(args) => args.walk(visitor),
            Args::RmDir(args) => args.walk(visitor),
            Args::Rename(args) => args.walk(visitor),
            Args::Link(args) => args.walk(visitor),
            Args::ReadDir(args) => args.walk(visitor),
            Args::ReadDirPlus(args) => args.walk(visitor),
            Args::FsStat(args) => args.walk(visitor),
            Args::FsInfo(args) => args.walk(visitor),
            Args::PathConf(args) => args.walk(visitor),
            Args::Commit(args) => args.walk(visitor),
            Args::Mnt(args) => args.walk(visitor),
            Args::Umnt(args) => args.walk(visitor),
            Args::Raw(bytes) => walk_fields(&[Field::Rest("rest", bytes)], visitor),
        }
    }
}
