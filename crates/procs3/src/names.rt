//! The names of procedures.
#![tactic(auto, unfolding(crate::specs::Table::nfs_procedures, crate::specs::Table::mount_procedures))]

ghost use Rattle.std.specs.Prelude.{◌≡◌, IfSome, IsNone, Some, None};
ghost use Rattle.procs3.specs.Table.{mount_procedures, name_in, name_of_procedure, nfs_procedures};

use rpc_head::ProcId;

/// Returns the name of a procedure of NFS version 3 or MOUNT version 3, and `None` for any other
/// (RFC 1813, sections 3.3 and 5.2).
pub fn proc_name(id: ProcId) -> Option<&'static str>
    ensures name { IfSome result (λ name. name_of_procedure id ≡ Some name.now) }
    ensures none { IsNone result → name_of_procedure id ≡ None }
{
    match (id.prog, id.vers) {
        (100_003, 3) => nfs_name(id.proc_no),
        (100_005, 3) => mount_name(id.proc_no),
        _ => None,
    }
}

/// Returns the name of a procedure of NFS version 3.
fn nfs_name(proc_no: u32) -> Option<&'static str>
    ensures name { IfSome result (λ name. name_in nfs_procedures proc_no ≡ Some name.now) }
    ensures none { IsNone result → name_in nfs_procedures proc_no ≡ None }
{
    match proc_no {
        0 => Some("NFSPROC3_NULL"),
        1 => Some("NFSPROC3_GETATTR"),
        2 => Some("NFSPROC3_SETATTR"),
        3 => Some("NFSPROC3_LOOKUP"),
        4 => Some("NFSPROC3_ACCESS"),
        5 => Some("NFSPROC3_READLINK"),
        6 => Some("NFSPROC3_READ"),
        7 => Some("NFSPROC3_WRITE"),
        8 => Some("NFSPROC3_CREATE"),
        9 => Some("NFSPROC3_MKDIR"),
        10 => Some("NFSPROC3_SYMLINK"),
        11 => Some("NFSPROC3_MKNOD"),
        12 => Some("NFSPROC3_REMOVE"),
        13 => Some("NFSPROC3_RMDIR"),
        14 => Some("NFSPROC3_RENAME"),
        15 => Some("NFSPROC3_LINK"),
        16 => Some("NFSPROC3_READDIR"),
        17 => Some("NFSPROC3_READDIRPLUS"),
        18 => Some("NFSPROC3_FSSTAT"),
        19 => Some("NFSPROC3_FSINFO"),
        20 => Some("NFSPROC3_PATHCONF"),
        21 => Some("NFSPROC3_COMMIT"),
        _ => None,
    }
}

/// Returns the name of a procedure of MOUNT version 3.
fn mount_name(proc_no: u32) -> Option<&'static str>
    ensures name { IfSome result (λ name. name_in mount_procedures proc_no ≡ Some name.now) }
    ensures none { IsNone result → name_in mount_procedures proc_no ≡ None }
{
    match proc_no {
        0 => Some("MOUNTPROC3_NULL"),
        1 => Some("MOUNTPROC3_MNT"),
        2 => Some("MOUNTPROC3_DUMP"),
        3 => Some("MOUNTPROC3_UMNT"),
        4 => Some("MOUNTPROC3_UMNTALL"),
        5 => Some("MOUNTPROC3_EXPORT"),
        _ => None,
    }
}
