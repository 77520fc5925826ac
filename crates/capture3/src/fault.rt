//! Where a capture is refused, and why reading one fails.

use std::alloc::{AllocError, AllocFailed};
use std::fmt;
use xdr3::Reason;

/// One of the two streams of a connection.
#[derive(Clone, Copy, Debug, PartialEq, Eq)]
pub enum Side {
    /// The client's stream, with its calls.
    Client,
    /// The server's stream, with its replies.
    Server,
}

impl fmt::Display for Side {
    fn fmt<W: fmt::Write>(&self, f: &mut fmt::Formatter<W>) -> fmt::Result {
        match self {
            Side::Client => f.write_str("client"),
            Side::Server => f.write_str("server"),
        }
    }
}

/// A position in a capture. Connections, and the records of each stream, are counted from 1; bytes
/// of the file and of a record's body from 0.
#[derive(Clone, Copy, Debug, PartialEq, Eq)]
pub enum Place {
    /// A byte of the file, or its length.
    File {
        at: u64,
    },
    /// A byte of a record's body.
    Record {
        conn: u32,
        side: Side,
        rec_no: u32,
        byte: u32,
    },
}

impl fmt::Display for Place {
    fn fmt<W: fmt::Write>(&self, f: &mut fmt::Formatter<W>) -> fmt::Result {
        match self {
            Place::File { at } => write!(f, "file {at}"),
            Place::Record {
                conn,
                side,
                rec_no,
                byte,
            } => write!(f, "connection {conn} {side} record {rec_no} byte {byte}"),
        }
    }
}

/// The first fault of a capture: its position and its reason.
#[derive(Clone, Copy, Debug, PartialEq, Eq, thiserror::Error)]
#[error("{place}: {reason}")]
pub struct Fault {
    pub place: Place,
    pub reason: Reason,
}

/// Why a capture could not be read or written.
#[derive(Clone, Copy, Debug, PartialEq, Eq, thiserror::Error)]
pub enum Error {
    /// The capture is not well formed.
    #[error("{0}")]
    Refused(Fault),
    /// A read failed.
    #[error("read failed")]
    Read,
    /// A write or a flush failed.
    #[error("write failed")]
    Write,
    /// An allocation failed.
    #[error("out of memory")]
    Memory,
}

/// It failed, and the error is noted where the reader keeps it. A result with an `Error` has 40 bytes and
/// more, which would be moved for each message.
#[derive(Clone, Copy)]
pub(crate) struct Noted;

impl From<AllocError> for Error {
    ghost use Rattle.std.specs.Prelude.{◌≡◌};
    ghost use Rattle.capture3.specs.declared.fault.Error.TheVariants as errors;

    ghost from_gives = { λ _ e. e ≡ errors.Memory };

    fn from(_e: AllocError) -> Error {
        Error::Memory
    }
}

impl<T: Drop> From<AllocFailed<T>> for Error {
    ghost use Rattle.std.specs.Prelude.{◌≡◌};
    ghost use Rattle.capture3.specs.declared.fault.Error.TheVariants as errors;

    ghost from_gives = { λ _ e. e ≡ errors.Memory };

    fn from(_e: AllocFailed<T>) -> Error {
        Error::Memory
    }
}
