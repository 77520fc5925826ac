//! Positions and refusals, as the calls return them.

use capture3::{Error, Fault, Place, Side};
use xdr3::Reason;

/// A byte of a record.
pub(crate) fn record(conn: u32, side: Side, rec_no: u32, byte: u32) -> Place {
    Place::Record {
        conn,
        side,
        rec_no,
        byte,
    }
}

pub(crate) fn refusal(place: Place, reason: Reason) -> Error {
    Error::Refused(Fault { place, reason })
}

/// A refusal at a byte of the container.
pub(crate) fn file_fault(at: usize, reason: Reason) -> Error {
    refusal(Place::File { at: at as u64 }, reason)
}

/// A refusal at a byte of a record of the first connection.
pub(crate) fn record_fault(side: Side, rec_no: u32, byte: u32, reason: Reason) -> Error {
    refusal(record(1, side, rec_no, byte), reason)
}
