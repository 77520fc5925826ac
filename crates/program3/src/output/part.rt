//! A regular file that is written beside its name.

ghost use Rattle.std.specs.Prelude.{◌≡◌, ◌++◌, IfOk, codes, string_bytes};
ghost use Rattle.hex.specs.Hex.{encode_lower};

use crate::input::opening::OpenError;
use crate::output::identity::FileIdentity;
use crate::output::rights::{PERMISSIONS, give_permissions, permissions};
use std::alloc::{AllocError, Global};
use std::fs::{File, Metadata, OpenOptions};
use std::os::unix::fs::{MetadataExt, OpenOptionsExt};
use std::random::RandomSource;
use std::{fs, io};

const OWNER_ALONE: u32 = 0o600;

const EVERYBODY: u32 = 0o666;

/// A file that is not whole yet. Until its bytes are to be safe, its owner alone may open it.
#[derive(Drop)]
pub struct PartFile {
    name: String,
    whole: String,
    mode: u32,
}

impl PartFile {
    /// Makes the part of a file of this name that is not there yet.
    pub fn of_new(rt: &HostRuntime, name: &str) -> Result<(PartFile, File), OpenError> {
        let mode = mode_of_new(rt, name)?;
        PartFile::make(rt, String::from_str(rt.alloc(), name)?, mode)
    }

    /// Makes the part of the regular file that was found under this name.
    ///
    /// # Errors
    ///
    /// - `Unopened` also if the file that was found has no path, or may not be written.
    /// - `Memory` if memory ran out.
    pub fn of_replaced(
        rt: &HostRuntime,
        name: &str,
        found: &Metadata,
    ) -> Result<(PartFile, File), OpenError> {
        let whole = path_of(rt, name)?;
        check_writable(rt, whole.as_str(), found)?;
        PartFile::make(rt, whole, permissions(found.mode()))
    }

    fn make(rt: &HostRuntime, whole: String, mode: u32) -> Result<(PartFile, File), OpenError> {
        let (name, file) = make_beside(rt, whole.as_str(), OWNER_ALONE)?;
        Ok((PartFile { name, whole, mode }, file))
    }

    /// Gives the whole file its permissions, and makes its bytes safe on the disk.
    pub fn make_safe(&self, file: &File) -> io::Result<()> {
        give_permissions(file, self.mode)?;
        // A server of files may tell of a full disk only when the data is to be safe.
        file.sync_all()
    }

    /// Gives the file its name. A file that has the name is replaced.
    pub fn give_name(&self, rt: &HostRuntime) -> io::Result<()> {
        fs::rename(rt, self.name.as_str(), self.whole.as_str())
    }

    /// Removes the part. If that fails, it stays, as after a signal.
    pub fn remove(&self, rt: &HostRuntime) {
        let _ = fs::remove_file(rt, self.name.as_str());
    }
}

/// The path at the end of the links to which a name leads. A name that is no link is taken as it is
/// given, so that of its folder may be long, and need not be text.
fn path_of(rt: &HostRuntime, name: &str) -> Result<String, OpenError> {
    if fs::symlink_metadata(rt, name)?.is_symlink() {
        Ok(fs::canonicalize(rt, name)?.into_string())
    } else {
        Ok(String::from_str(rt.alloc(), name)?)
    }
}

/// Checks that the file of this path is the one that was found, and may be written. The path that a
/// link in `/proc` has for a removed file is that of another one.
fn check_writable(rt: &HostRuntime, path: &str, found: &Metadata) -> Result<(), OpenError> {
    let there = FileIdentity::of(&fs::metadata(rt, path)?);
    if there != FileIdentity::of(found) || found.permissions().readonly() {
        return Err(OpenError::Unopened);
    }
    // Nothing is written to it.
    OpenOptions::new().write(true).open(rt, path)?;
    Ok(())
}

/// The name of a part with these random bytes. It is short, since the name of an output may have as
/// many bytes as a file system takes.
fn part_name(alloc: Global, random: [u8; 8]) -> Result<String, AllocError>
    ensures { IfOk result (λ name. string_bytes name ≡ codes ".nfs3canon-" ++ encode_lower random) }
{
    let digits = hex::encode(alloc, random)?;
    format!(in alloc; ".nfs3canon-{digits}")
}

/// Makes a file of a random name in the folder of a path, and returns it with its path.
fn make_beside(rt: &HostRuntime, path: &str, mode: u32) -> Result<(String, File), OpenError> {
    let mut random = [0; 8];
    rt.fill_bytes(&mut random)?;
    let part = part_name(rt.alloc(), random)?;
    let name = match path.rsplit_once('/') {
        Some((folder, _)) => format!(in rt.alloc(); "{folder}/{part}")?,
        None => part,
    };
    let file = OpenOptions::new()
        .write(true)
        .create_new(true)
        .mode(mode)
        .open(rt, name.as_str())?;
    Ok((name, file))
}

/// The mode that a new file gets in the folder of a path. Only a file tells it, since a folder may
/// have rules of its own beside the program's umask.
fn mode_of_new(rt: &HostRuntime, path: &str) -> Result<u32, OpenError> {
    let (name, file) = make_beside(rt, path, EVERYBODY)?;
    let data = file.metadata();
    fs::remove_file(rt, name.as_str())?;
    Ok(data?.mode() & PERMISSIONS)
}
