//! What is told if a file cannot be opened or made.

ghost use Rattle.std.specs.Prelude.{◌≡◌, Err};
ghost use Rattle.std.specs.IoError.{error_kind, raw_os_error};
ghost use Rattle.program3.specs.Opening.{ReportsUnopened, open_error_of};
ghost use Rattle.program3.specs.declared.input.opening.OpenError.TheVariants.{Memory};
ghost use Rattle.program3.specs.declared.outcome.Outcome.TheVariants.{Counted};

use crate::outcome::Outcome;
use capture3::Error;
use std::alloc::{AllocError, Global};
use std::fs::{File, Metadata};
use std::io::ErrorKind;
use std::{fs, io};

/// Why a file cannot be read or written.
#[derive(Clone, Copy, Debug, PartialEq, Eq, thiserror::Error)]
pub enum OpenError {
    /// It cannot be opened or made, or the system does not say which file it is.
    #[error("open failed")]
    Unopened,
    /// Memory ran out.
    #[error("out of memory")]
    Memory,
}

impl From<AllocError> for OpenError {
    ghost from_gives = { λ _ error. error ≡ Memory };

    fn from(_error: AllocError) -> OpenError {
        OpenError::Memory
    }
}

/// If the system has no memory for a call, the file is not opened. The program's own memory ran out only
/// if the error has no number of the system's.
impl From<io::Error> for OpenError {
    ghost from_gives = { λ cause error. error ≡ open_error_of (error_kind cause) (raw_os_error cause) };

    fn from(error: io::Error) -> OpenError {
        match (error.kind(), error.raw_os_error()) {
            (ErrorKind::OutOfMemory, None) => OpenError::Memory,
            _ => OpenError::Unopened,
        }
    }
}

/// Returns the outcome if the file of this name cannot be opened or made: `Outcome::Unopened` with the name.
/// If memory ran out, also for a copy of the name, it is `out_of_memory`.
pub fn open_failure(alloc: Global, name: &str, error: OpenError, out_of_memory: Outcome) -> Outcome
    ensures { ReportsUnopened name.now error out_of_memory result }
{
    match error {
        OpenError::Unopened => match String::from_str(alloc, name) {
            Ok(name) => Outcome::Unopened(name),
            Err(_) => out_of_memory,
        },
        OpenError::Memory => out_of_memory,
    }
}

/// Returns the outcome for a command that counts what it reads, if a file cannot be opened or made.
pub fn counting_failure(alloc: Global, name: &str, error: OpenError) -> Outcome
    ensures { ReportsUnopened name.now error (Counted (Err Error.Memory)) result }
{
    open_failure(alloc, name, error, Outcome::Counted(Err(Error::Memory)))
}

/// Opens a file to be read, and returns it with what the system says of it.
///
/// # Errors
///
/// - `Unopened` if it cannot be opened, or the system does not say which file it is.
/// - `Memory` if memory ran out.
pub fn open_file(rt: &HostRuntime, name: &str) -> Result<(File, Metadata), OpenError> {
    let file = fs::open(rt, name)?;
    let data = file.metadata()?;
    Ok((file, data))
}
