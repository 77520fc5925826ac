//! Arguments and results by procedure, which are passed to a visitor as they are read (RFC 1813,
//! sections 3.3 and 5.2).
#![tactic(auto)]

pub mod laws;
mod names;
mod scans;
mod values;

pub use names::proc_name;
pub use scans::table::{scan_arguments, scan_results};
pub use values::args::Args;
pub use values::creation::{
    CreateArgs, CreateHow, CreateOk, Device, MkDirArgs, MkNodArgs, MkNodWhat, SymLinkArgs,
};
pub use values::directories::{
    Entry, EntryPlus, LinkArgs, LinkWcc, LookupOk, ReadDirArgs, ReadDirOk, ReadDirPlusArgs,
    ReadDirPlusOk, RenameArgs, RenameWcc,
};
pub use values::file_system::{FsInfoOk, FsStatOk, PathConfOk};
pub use values::files::{
    AccessArgs, AccessOk, CommitOk, FileRange, ReadLinkOk, ReadOk, SetAttrArgs, WriteArgs, WriteOk,
};
pub use values::mounts::{DirPath, MountRes};
pub use values::results::Results;
