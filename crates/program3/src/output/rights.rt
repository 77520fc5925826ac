//! Who may do what with the file that replaces another.

ghost use Rattle.std.specs.Prelude.{◌≡◌};
ghost use Rattle.program3.specs.Rights.{permissions_of};

use std::fs::{File, Permissions};
use std::io;
use std::os::unix::fs::{MetadataExt, PermissionsExt};

/// Who may read, write and execute a file. The other bits of a mode lend the rights of its owner.
pub const PERMISSIONS: u32 = 0o777;

/// Returns the permissions of a file that replaces one of mode `old`.
///
/// Nobody but its owner gets a right that he had not: the group and the others have what each class
/// had. For the file may get another owner and another group. And if the old file has an access
/// control list, the bits of its group are those of the list's mask, and nothing shows whether it
/// has one.
pub fn permissions(old: u32) -> u32
    ensures { result ≡ permissions_of old }
{
    let shared = old & old >> 3 & old >> 6 & 0o007;
    old & 0o700 | shared * 0o011
}

/// Gives a file its permissions.
///
/// # Errors
///
/// That of the system if the file has others and cannot get these.
pub fn give_permissions(file: &File, mode: u32) -> io::Result<()> {
    // A file system with one mode for all files need not be able to change it.
    if file.metadata()?.mode() & PERMISSIONS == mode {
        return Ok(());
    }
    file.set_permissions(Permissions::from_mode(mode))
}
