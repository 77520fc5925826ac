//! A visitor that ignores all items.

use crate::message::visiting::MessageVisit;
use rpc_head::Start;
use std::alloc::AllocError;
use xdr3::{PlainField, Visit};

/// A visitor that ignores all items, for callers that only want to know whether messages are valid.
#[derive(Drop)]
pub struct Silent;

#[tactic(auto, unfolding(xdr3::specs::Visit::Adds, xdr3::specs::Visit::Keeps))]
impl Visit for Silent {
    ghost stands = { λ silent items. Unit {0} };

    fn word(&mut self, _name: &'static str, _n: u32) -> Result<(), AllocError> {
        Ok(())
    }

    fn hyper(&mut self, _name: &'static str, _n: u64) -> Result<(), AllocError> {
        Ok(())
    }

    fn fixed(&mut self, _name: &'static str, _bytes: &[u8; 8]) -> Result<(), AllocError> {
        Ok(())
    }

    fn write_verf(&mut self, _name: &'static str, _bytes: &[u8; 8]) -> Result<(), AllocError> {
        Ok(())
    }

    fn var(&mut self, _name: &'static str, _bytes: &[u8]) -> Result<(), AllocError> {
        Ok(())
    }

    fn text(&mut self, _name: &'static str, _bytes: &[u8]) -> Result<(), AllocError> {
        Ok(())
    }

    fn handle(&mut self, _name: &'static str, _bytes: &[u8]) -> Result<(), AllocError> {
        Ok(())
    }

    fn rest(&mut self, _name: &'static str, _bytes: &[u8]) -> Result<(), AllocError> {
        Ok(())
    }

    fn plain(&mut self, _fields: &[PlainField], _bytes: &[u8]) -> Result<(), AllocError> {
        Ok(())
    }
}

#[tactic(auto, unfolding(crate::specs::MessageVisit::OpensMessage))]
impl MessageVisit for Silent {
    ghost rests = { λ silent items. Unit {0} };

    fn begin(&mut self, _start: Start) -> Result<(), AllocError> {
        Ok(())
    }
}
