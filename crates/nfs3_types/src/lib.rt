//! The parts of NFS version 3 and MOUNT version 3 messages (RFC 1813).
#![tactic(auto)]

mod scans;
mod values;

pub use scans::mount3::scan_path;
pub use values::attributes::{Fattr, PostOpAttr, Wcc, WccAttr};
pub use values::directory::{DirOp, PostOpFh};
pub use values::handle::Handle;
pub use values::kind::FileKind;
pub use values::mount3;
pub use values::settable::{Guard, Sattr};
pub use values::stable::Stable;
pub use values::status::{Failure, Res, Status};
pub use values::time::{Time, TimeHow};
pub use values::void::Void;
