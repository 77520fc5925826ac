//! Which file a name or an open file leads to.

ghost use Rattle.std.specs.Prelude.{◌≡◌, ◌≢◌, IfErr, IfOk, IsTrue, None, Ok, Err, Some};
ghost use Rattle.std.specs.Fs.{file_type, IsFile};
ghost use Rattle.std.specs.IoError.{error_kind};

use std::fs::Metadata;
use std::io::ErrorKind;
use std::os::unix::fs::MetadataExt;
use std::{fs, io};

/// Returns what the system found, or `None` if it says that nothing has the name.
///
/// # Errors
///
/// Any failure of the system but `NotFound`: nothing is known after it.
pub fn if_there<T: Drop>(found: io::Result<T>) -> io::Result<Option<T>>
    ensures found { IfOk found (λ it. result ≡ Ok (Some it)) }
    ensures missing { IfErr found
        (λ error. error_kind error ≡ ErrorKind.NotFound → result ≡ Ok None) }
    ensures failed { IfErr found
        (λ error. error_kind error ≢ ErrorKind.NotFound → result ≡ Err error) }
{
    match found {
        Ok(found) => Ok(Some(found)),
        Err(error) if error.kind() == ErrorKind::NotFound => Ok(None),
        Err(error) => Err(error),
    }
}

/// A file's device, and its number there. It has them under each of its names.
#[derive(Clone, Copy, Debug, PartialEq, Eq)]
pub struct FileIdentity {
    device: u64,
    inode: u64,
}

impl FileIdentity {
    /// Returns the identity of the file of which the system says `data`.
    pub fn of(data: &Metadata) -> FileIdentity {
        FileIdentity {
            device: data.dev(),
            inode: data.ino(),
        }
    }

    /// Returns that of the file to which the program prints, or `None` if its standard output is
    /// closed, or if there is no `/proc`. Call it before any file is opened, since the first one
    /// gets the number of a standard output that is closed.
    ///
    /// # Errors
    ///
    /// That of the system if it does not say which file it is.
    pub fn of_standard_output(rt: &HostRuntime) -> io::Result<Option<FileIdentity>> {
        let found = if_there(fs::metadata(rt, "/proc/self/fd/1"))?;
        Ok(found.map(|data| FileIdentity::of(&data)))
    }

    /// Whether this is the regular file of which the system says `data`.
    pub fn is_regular(self, data: &Metadata) -> bool
        ensures { IsTrue result → IsFile (file_type data.now) }
    {
        data.is_file() && self == FileIdentity::of(data)
    }
}
