//! The streams of a connection whose chunks come mixed.

ghost use Rattle.std.specs.Prelude.{◌≡◌, ◌<◌, ◌+◌, [], length, OnErr, OnOk};
ghost use Rattle.capture3.specs.machinery.Container.{stream_of};
ghost use Rattle.capture3.specs.machinery.StreamsInMemory.{capacity_of};
ghost use Rattle.capture3.specs.SidedChunks.{gathered, with_more};

use crate::fault::Side;
use std::alloc::{AllocError, Global};
use std::marker::Model;

/// The streams of a connection of version 2, as far as their chunks have come. They are kept
/// because no record is checked before both are whole.
#[derive(Drop)]
pub(crate) struct Streams {
    client: Vec<u8>,
    server: Vec<u8>,
}

impl Model for Streams {
    ghost use Rattle.capture3.specs.machinery.StreamsInMemory.{StreamsInMemory};

    ghost Value = { StreamsInMemory };

    ghost use Rattle.capture3.specs.machinery.StreamsInMemory.{in_memory};

    ghost view = { λ streams. in_memory streams.client streams.server };
}

impl Streams {
    pub(crate) fn new(alloc: Global) -> Streams
        ensures { result.kept ≡ gathered [] }
    {
        Streams {
            client: Vec::new(alloc),
            server: Vec::new(alloc),
        }
    }

    /// Appends bytes to a side's stream. Fails only if the capacity for that stream is too small.
    pub(crate) fn add(&mut self, side: Side, bytes: &[u8]) -> Result<(), AllocError>
        ensures added { OnOk result (self.new.kept ≡ with_more self.old.kept side bytes.now) }
        ensures short { OnErr result (capacity_of side self.old
            < length (stream_of side self.old.kept) + length bytes.now) }
    {
        match side {
            Side::Client => self.client.extend_from_slice(bytes)?,
            Side::Server => self.server.extend_from_slice(bytes)?,
        }
        Ok(())
    }

    pub(crate) fn of_side(&self, side: Side) -> &[u8]
        ensures { result.now ≡ stream_of side self.now.kept }
    {
        match side {
            Side::Client => &self.client,
            Side::Server => &self.server,
        }
    }

    /// Drops the bytes, and keeps their memory for the next connection.
    pub(crate) fn clear(&mut self)
        ensures { self.new.kept ≡ gathered [] }
    {
        self.client.clear();
        self.server.clear();
    }
}
