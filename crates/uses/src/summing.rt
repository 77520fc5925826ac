//! How many bytes a call asks to be written, by a visitor of its items.

ghost use Rattle.std.specs.Prelude.{[], IfOk};
ghost use Rattle.uses.specs.Summing.{HasSummed, SumsData};

use capture3::{CallRef, MessageVisit};
use rpc_head::Start;
use std::alloc::AllocError;
use xdr3::Visit;

/// A visitor that sums the lengths of the items called `data`, up to 2⁶⁴ - 1.
#[derive(Drop)]
pub struct DataBytes {
    sum: u64,
}

impl DataBytes {
    /// Returns a visitor of no items.
    pub fn new() -> DataBytes
        ensures { HasSummed result [] }
    {
        DataBytes { sum: 0 }
    }
}

#[tactic(auto, using(crate::proofs::SummingLemmas::no_data), unfolding(xdr3::specs::Visit::Adds, xdr3::specs::Visit::Keeps))]
impl Visit for DataBytes {
    ghost use Rattle.uses.specs.Summing.{HasSummed};

    ghost stands = { HasSummed };

    fn word(&mut self, _name: &'static str, _n: u32) -> Result<(), AllocError> {
        Ok(())
    }

    fn hyper(&mut self, _name: &'static str, _n: u64) -> Result<(), AllocError> {
        Ok(())
    }

    fn fixed(&mut self, _name: &'static str, _bytes: &[u8; 8]) -> Result<(), AllocError> {
        Ok(())
    }

    fn write_verf(&mut self, _name: &'static str, _bytes: &[u8; 8]) -> Result<(), AllocError> {
        Ok(())
    }

    fn var(&mut self, name: &'static str, bytes: &[u8]) -> Result<(), AllocError> {
        if name == "data" {
            self.sum = self.sum.saturating_add(bytes.len() as u64);
        }
        Ok(())
    }

    fn text(&mut self, _name: &'static str, _bytes: &[u8]) -> Result<(), AllocError> {
        Ok(())
    }

    fn handle(&mut self, _name: &'static str, _bytes: &[u8]) -> Result<(), AllocError> {
        Ok(())
    }

    fn rest(&mut self, _name: &'static str, _bytes: &[u8]) -> Result<(), AllocError> {
        Ok(())
    }
}

impl MessageVisit for DataBytes {
    ghost use Rattle.uses.specs.Summing.{HasSummed};

    ghost rests = { HasSummed };

    fn begin(&mut self, _start: Start) -> Result<(), AllocError> {
        Ok(())
    }
}

/// Returns how many bytes of data a call carries, at most 2⁶⁴ - 1: those that a WRITE asks to be written.
///
/// # Errors
///
/// `AllocError` only if an allocation failed.
pub fn bytes_to_write(call: CallRef<'_>) -> Result<u64, AllocError>
    ensures { IfOk result (SumsData call.entry.body.now) }
{
    let mut data = DataBytes::new();
    call.scan(&mut data)?;
    Ok(data.sum)
}
