//! Arguments and results by procedure, passed to a visitor as they are read (RFC 1813, sections 3.3
//! and 5.2).
#![tactic(auto, using(xdr3::proofs::Lemmas::Scans::ScanLemmas::layouts), unfolding(crate::specs::Table::arguments_of, crate::specs::Table::nfs_procedures, crate::specs::Table::mount_procedures, crate::specs::Shapes::file_range, crate::specs::Table::results_of, crate::specs::Shapes::create_ok, crate::specs::Shapes::entry, crate::specs::Shapes::entry_plus, xdr3::specs::Item::called))]

ghost use Rattle.std.specs.Prelude.{◌≤◌, IfErr, OnOk};
ghost use Rattle.procs3.specs.Table.{arguments_of, layout_in, mount_procedures, nfs_procedures, results_of};
ghost use Rattle.xdr3.specs.Scan.{ScansLayout, StopsLayout};

use crate::scans::creation::{CreateArgs, CreateOk, MkDirArgs, MkNodArgs, SymLinkArgs};
use crate::scans::directories::{
    LinkArgs, LinkWcc, LookupOk, ReadDirArgs, ReadDirOk, ReadDirPlusArgs, ReadDirPlusOk,
    RenameArgs, RenameWcc,
};
use crate::scans::file_system::{FsInfoOk, FsStatOk, PathConfOk};
use crate::scans::files::{
    AccessArgs, AccessOk, CommitOk, FileRange, ReadLinkOk, ReadOk, SetAttrArgs, WriteArgs, WriteOk,
};
use crate::scans::mounts::{DirPath, MountRes};
use nfs3_types::mount3::{Exports, MountList};
use nfs3_types::{DirOp, Fattr, Handle, PostOpAttr, Res, Void, Wcc};
use rpc_head::ProcId;
use xdr3::{GetError, Input, Scan, Visit, scan_rest};

/// Reads the arguments of a call of this procedure, and passes each item to the visitor as it is
/// read (RFC 1813, sections 3.3 and 5.2). For a procedure of any other program, all bytes that are
/// left are one item. After an error the contents of the visitor are unspecified.
///
/// # Errors
///
/// - `Stop` with the position and the reason of the first fault.
/// - `Memory` if the visitor fails.
pub fn scan_arguments<V: Visit>(
    id: ProcId,
    input: &mut Input,
    visitor: &mut V,
) -> Result<(), GetError>
    ensures ok { OnOk result
        (ScansLayout V.stands (arguments_of id) (input.old, visitor.old) (input.new, visitor.new)) }
    ensures err { IfErr result (λ error. StopsLayout (arguments_of id) input.old error) }
{
    match (id.prog, id.vers) {
        (100_003, 3) => scan_nfs_arguments(id.proc_no, input, visitor),
        (100_005, 3) => scan_mount_arguments(id.proc_no, input, visitor),
        _ => scan_rest("rest", input, visitor),
    }
}

/// Those of a procedure of NFS version 3 (RFC 1813, section 3.3).
fn scan_nfs_arguments<V: Visit>(
    proc_no: u32,
    input: &mut Input,
    visitor: &mut V,
) -> Result<(), GetError>
    ensures ok { OnOk result
        (ScansLayout V.stands (layout_in (λ row. row.1) nfs_procedures proc_no)
        (input.old, visitor.old) (input.new, visitor.new)) }
    ensures err { IfErr result
        (λ error. StopsLayout (layout_in (λ row. row.1) nfs_procedures proc_no) input.old error) }
{
    match proc_no {
        0 => Void::scan(input, visitor),
        1 => Handle::scan(input, visitor),
        2 => SetAttrArgs::scan(input, visitor),
        3 => DirOp::scan(input, visitor),
        4 => AccessArgs::scan(input, visitor),
        5 => Handle::scan(input, visitor),
        6 => FileRange::scan(input, visitor),
        7 => WriteArgs::scan(input, visitor),
        _ => scan_nfs_arguments_from_create(proc_no, input, visitor),
    }
}

/// Those of CREATE, or a procedure after it.
fn scan_nfs_arguments_from_create<V: Visit>(
    proc_no: u32,
    input: &mut Input,
    visitor: &mut V,
) -> Result<(), GetError>
    requires { 8 ≤ proc_no }
    ensures ok { OnOk result
        (ScansLayout V.stands (layout_in (λ row. row.1) nfs_procedures proc_no)
        (input.old, visitor.old) (input.new, visitor.new)) }
    ensures err { IfErr result
        (λ error. StopsLayout (layout_in (λ row. row.1) nfs_procedures proc_no) input.old error) }
{
    match proc_no {
        8 => CreateArgs::scan(input, visitor),
        9 => MkDirArgs::scan(input, visitor),
        10 => SymLinkArgs::scan(input, visitor),
        11 => MkNodArgs::scan(input, visitor),
        12 => DirOp::scan(input, visitor),
        13 => DirOp::scan(input, visitor),
        14 => RenameArgs::scan(input, visitor),
        _ => scan_nfs_arguments_from_link(proc_no, input, visitor),
    }
}

/// Those of LINK, or a procedure after it.
fn scan_nfs_arguments_from_link<V: Visit>(
    proc_no: u32,
    input: &mut Input,
    visitor: &mut V,
) -> Result<(), GetError>
    requires { 15 ≤ proc_no }
    ensures ok { OnOk result
        (ScansLayout V.stands (layout_in (λ row. row.1) nfs_procedures proc_no)
        (input.old, visitor.old) (input.new, visitor.new)) }
    ensures err { IfErr result
        (λ error. StopsLayout (layout_in (λ row. row.1) nfs_procedures proc_no) input.old error) }
{
    match proc_no {
        15 => LinkArgs::scan(input, visitor),
        16 => ReadDirArgs::scan(input, visitor),
        17 => ReadDirPlusArgs::scan(input, visitor),
        18 => Handle::scan(input, visitor),
        19 => Handle::scan(input, visitor),
        20 => Handle::scan(input, visitor),
        21 => FileRange::scan(input, visitor),
        _ => scan_rest("rest", input, visitor),
    }
}

/// Those of a procedure of MOUNT version 3 (RFC 1813, section 5.2).
fn scan_mount_arguments<V: Visit>(
    proc_no: u32,
    input: &mut Input,
    visitor: &mut V,
) -> Result<(), GetError>
    ensures ok { OnOk result
        (ScansLayout V.stands (layout_in (λ row. row.1) mount_procedures proc_no)
        (input.old, visitor.old) (input.new, visitor.new)) }
    ensures err { IfErr result
        (λ error. StopsLayout (layout_in (λ row. row.1) mount_procedures proc_no) input.old error) }
{
    match proc_no {
        0 => Void::scan(input, visitor),
        1 => DirPath::scan(input, visitor),
        2 => Void::scan(input, visitor),
        3 => DirPath::scan(input, visitor),
        4 => Void::scan(input, visitor),
        5 => Void::scan(input, visitor),
        _ => scan_rest("rest", input, visitor),
    }
}

/// Reads the results of a successful call of this procedure, and passes each item to the visitor as
/// it is read (RFC 1813, sections 3.3 and 5.2). For a procedure of any other program, all bytes
/// that are left are one item. After an error the contents of the visitor are unspecified.
///
/// # Errors
///
/// - `Stop` with the position and the reason of the first fault.
/// - `Memory` if the visitor fails.
pub fn scan_results<V: Visit>(
    id: ProcId,
    input: &mut Input,
    visitor: &mut V,
) -> Result<(), GetError>
    ensures ok { OnOk result
        (ScansLayout V.stands (results_of id) (input.old, visitor.old) (input.new, visitor.new)) }
    ensures err { IfErr result (λ error. StopsLayout (results_of id) input.old error) }
{
    match (id.prog, id.vers) {
        (100_003, 3) => scan_nfs_results(id.proc_no, input, visitor),
        (100_005, 3) => scan_mount_results(id.proc_no, input, visitor),
        _ => scan_rest("rest", input, visitor),
    }
}

/// Those of a procedure of NFS version 3 (RFC 1813, section 3.3).
fn scan_nfs_results<V: Visit>(
    proc_no: u32,
    input: &mut Input,
    visitor: &mut V,
) -> Result<(), GetError>
    ensures ok { OnOk result
        (ScansLayout V.stands (layout_in (λ row. row.2) nfs_procedures proc_no)
        (input.old, visitor.old) (input.new, visitor.new)) }
    ensures err { IfErr result
        (λ error. StopsLayout (layout_in (λ row. row.2) nfs_procedures proc_no) input.old error) }
{
    match proc_no {
        0 => Void::scan(input, visitor),
        1 => Res::<Fattr, Void>::scan(input, visitor),
        2 => Res::<Wcc, Wcc>::scan(input, visitor),
        3 => Res::<LookupOk, PostOpAttr>::scan(input, visitor),
        4 => Res::<AccessOk, PostOpAttr>::scan(input, visitor),
        5 => Res::<ReadLinkOk, PostOpAttr>::scan(input, visitor),
        6 => Res::<ReadOk, PostOpAttr>::scan(input, visitor),
        7 => Res::<WriteOk, Wcc>::scan(input, visitor),
        _ => scan_nfs_results_from_create(proc_no, input, visitor),
    }
}

/// Those of CREATE, or a procedure after it.
fn scan_nfs_results_from_create<V: Visit>(
    proc_no: u32,
    input: &mut Input,
    visitor: &mut V,
) -> Result<(), GetError>
    requires { 8 ≤ proc_no }
    ensures ok { OnOk result
        (ScansLayout V.stands (layout_in (λ row. row.2) nfs_procedures proc_no)
        (input.old, visitor.old) (input.new, visitor.new)) }
    ensures err { IfErr result
        (λ error. StopsLayout (layout_in (λ row. row.2) nfs_procedures proc_no) input.old error) }
{
    match proc_no {
        8 => Res::<CreateOk, Wcc>::scan(input, visitor),
        9 => Res::<CreateOk, Wcc>::scan(input, visitor),
        10 => Res::<CreateOk, Wcc>::scan(input, visitor),
        11 => Res::<CreateOk, Wcc>::scan(input, visitor),
        12 => Res::<Wcc, Wcc>::scan(input, visitor),
        13 => Res::<Wcc, Wcc>::scan(input, visitor),
        14 => Res::<RenameWcc, RenameWcc>::scan(input, visitor),
        _ => scan_nfs_results_from_link(proc_no, input, visitor),
    }
}

/// Those of LINK, or a procedure after it.
fn scan_nfs_results_from_link<V: Visit>(
    proc_no: u32,
    input: &mut Input,
    visitor: &mut V,
) -> Result<(), GetError>
    requires { 15 ≤ proc_no }
    ensures ok { OnOk result
        (ScansLayout V.stands (layout_in (λ row. row.2) nfs_procedures proc_no)
        (input.old, visitor.old) (input.new, visitor.new)) }
    ensures err { IfErr result
        (λ error. StopsLayout (layout_in (λ row. row.2) nfs_procedures proc_no) input.old error) }
{
    match proc_no {
        15 => Res::<LinkWcc, LinkWcc>::scan(input, visitor),
        16 => Res::<ReadDirOk, PostOpAttr>::scan(input, visitor),
        17 => Res::<ReadDirPlusOk, PostOpAttr>::scan(input, visitor),
        18 => Res::<FsStatOk, PostOpAttr>::scan(input, visitor),
        19 => Res::<FsInfoOk, PostOpAttr>::scan(input, visitor),
        20 => Res::<PathConfOk, PostOpAttr>::scan(input, visitor),
        21 => Res::<CommitOk, Wcc>::scan(input, visitor),
        _ => scan_rest("rest", input, visitor),
    }
}

/// Those of a procedure of MOUNT version 3 (RFC 1813, section 5.2).
fn scan_mount_results<V: Visit>(
    proc_no: u32,
    input: &mut Input,
    visitor: &mut V,
) -> Result<(), GetError>
    ensures ok { OnOk result
        (ScansLayout V.stands (layout_in (λ row. row.2) mount_procedures proc_no)
        (input.old, visitor.old) (input.new, visitor.new)) }
    ensures err { IfErr result
        (λ error. StopsLayout (layout_in (λ row. row.2) mount_procedures proc_no) input.old error) }
{
    match proc_no {
        0 => Void::scan(input, visitor),
        1 => MountRes::scan(input, visitor),
        2 => MountList::scan(input, visitor),
        3 => Void::scan(input, visitor),
        4 => Void::scan(input, visitor),
        5 => Exports::scan(input, visitor),
        _ => scan_rest("rest", input, visitor),
    }
}
