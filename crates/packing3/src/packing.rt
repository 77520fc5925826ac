//! A capture made of recorded streams.

ghost use Rattle.std.specs.Prelude.{◌≡◌, ◌≤◌, ◌+◌, ◌*◌, ◌++◌, ◌∷◌, ℕ, List, [], Option, None, Some, Err, vec_len, IfErr, IfOk, IsSome, MatchResult, OnErr, OnOk};
ghost use Rattle.std.specs.Io.KnownBytes.{Appends};
ghost use Rattle.xdr3.specs.Item.{word_bytes};
ghost use Rattle.capture3.specs.Capture.{max_connections};
ghost use Rattle.capture3.specs.SidedChunks.{Streams};
ghost use Rattle.capture3.specs.Observed.{GavePrefix};
ghost use Rattle.canon3.specs.SinkWrites.{AppendsFront, IsFlushed};
ghost use Rattle.packing3.specs.Packed.{full_size};
ghost use Rattle.packing3.specs.Devices.{CountsReadings};

use crate::block::zeros;
use crate::extent::Extent;
use crate::stream::{FULL_CHUNK, write_connection};
use canon3::{Sink, write_all};
use capture3::{Error, MAX_CONNECTIONS, Source, pack_chunk, pack_header};
use std::alloc::Global;
use xdr3::Reason;

/// Packs recorded streams into a capture, one connection after another. It keeps one chunk.
///
/// The records of a stream are not looked at. Each chunk has 65,536 bytes but the last of a stream,
/// which has what is left, and no chunk is empty. A capture has at most 65,535 connections, and at
/// most 1,073,741,824 stream bytes, all its streams together.
#[derive(Drop)]
pub struct Packing<W> {
    sink: W,
    block: Vec<u8>,
    // The connections that have begun.
    connections: u32,
    extent: Extent,
    // What `add` and `finish` answer from now on.
    ended: Option<Result<(), Error>>,
    ghost fits: { vec_len block ≡ full_size },
    ghost few: { connections ≤ max_connections },
    ghost small: { extent.at ≤ 8 + 12 * connections + 5 * extent.streamed },
}

impl<W: Sink> Packing<W> {
    ghost use Rattle.packing3.specs.Packing.{AddsPair, CountsStart, CountsWrites, ending_of, FailsToStart, Finishes, HasAdded, sink_of};
    ghost use Rattle.packing3.specs.machinery.StoppedAdds.{WritesPair};

    /// Allocates one chunk, and writes the magic.
    ///
    /// # Errors
    ///
    /// - `Memory` if the allocation failed; nothing is written.
    /// - `Write` if a write failed; a prefix of the magic is written.
    ///
    /// The sink is given back.
    pub fn start(alloc: Global, mut sink: W) -> Result<Packing<W>, (Error, W)>
        ensures stands { IfOk result (λ packing. HasAdded W.written packing (W.written sink) []) }
        ensures err { IfErr result (λ failed. FailsToStart W.written sink failed.0 failed.1) }
        ensures write { CountsStart W.failures sink result }
    {
        let block = match zeros(alloc, FULL_CHUNK) {
            Ok(block) => block,
            Err(_) => return Err((Error::Memory, sink)),
        };
        match write_all(&mut sink, &pack_header()) {
            Ok(()) => Ok(Packing {
                sink,
                block,
                connections: 0,
                extent: Extent { streamed: 0, at: 8 },
                ended: None,
            }),
            Err(error) => Err((error, sink)),
        }
    }

    /// Returns the sink to which the capture is written.
    pub fn sink(&self) -> &W
        ensures { result.now ≡ sink_of self.now }
    {
        &self.sink
    }

    /// Gives the sink back.
    pub fn into_sink(self) -> W
        ensures { result ≡ sink_of self }
    {
        self.sink
    }

    /// Writes one connection: the bytes of both sources, to their ends.
    ///
    /// # Errors
    ///
    /// - `Refused` with `TooManyConnections` before anything is read, if the capture has 65,535
    ///   connections.
    /// - `Refused` with `TooManyBytes` if the next chunk would pass the limit. Its bytes are read
    ///   and not written.
    /// - `Read` and `Write` if the device failed. A prefix of the capture of what was read is
    ///   written.
    ///
    /// The position of a refusal is the byte of the file after all that is written. After an error
    /// the same is returned again, and after `finish` what that returned; nothing is read or
    /// written then.
    pub fn add<C: Source, S: Source>(&mut self, client: &mut C, server: &mut S) -> Result<(), Error>
        ensures adds { AddsPair W.written self.old self.new
            (record {
              client_before = C.observed client.old;
              client_after = C.observed client.new;
              server_before = S.observed server.old;
              server_after = S.observed server.new;
            })
            result }
        ensures whole { (old : Option (List ℕ)) (pairs : List Streams) (streams : Streams)
            → HasAdded W.written self.old old pairs
            → GavePrefix (C.observed client.old) (C.observed client.new) streams.client
            → GavePrefix (S.observed server.old) (S.observed server.new) streams.server
            → OnOk result (HasAdded W.written self.new old (pairs ++ streams ∷ [])) }
        ensures ended { ending_of self.old ≡ None
            → MatchResult result
            (λ _. ending_of self.new ≡ None)
            (λ error. ending_of self.new ≡ Some (Err error)) }
        ensures again { IsSome (ending_of self.old)
            → (ending_of self.old ≡ Some result) × (self.new ≡ self.old)
            × (client.new ≡ client.old) × (server.new ≡ server.old) }
        ensures read { ending_of self.old ≡ None
            → CountsReadings
            (C.failures client.old) (C.failures client.new)
            (S.failures server.old) (S.failures server.new) result }
        ensures write { ending_of self.old ≡ None
            → CountsWrites W.failures self.old self.new result }
    {
        if let Some(result) = self.ended {
            return result;
        }
        match self.write_pair(client, server) {
            Ok(()) => Ok(()),
            Err(error) => {
                self.ended = Some(Err(error));
                Err(error)
            }
        }
    }

    /// Writes the word 0 after the last connection, and flushes the sink.
    ///
    /// # Errors
    ///
    /// `Write` if a write or the flush failed. What it returned is returned again, and after an
    /// error of `add` that error; nothing is written then.
    pub fn finish(&mut self) -> Result<(), Error>
        ensures finishes { (old : Option (List ℕ)) (pairs : List Streams)
            → HasAdded W.written self.old old pairs
            → Finishes old (W.written (sink_of self.new)) pairs result }
        ensures flushes { ending_of self.old ≡ None
            → OnOk result
            (IsFlushed (W.written (sink_of self.new)) (W.flushed (sink_of self.new))) }
        ensures ended { ending_of self.old ≡ None → ending_of self.new ≡ Some result }
        ensures again { IsSome (ending_of self.old)
            → (ending_of self.old ≡ Some result) × (self.new ≡ self.old) }
        ensures write { ending_of self.old ≡ None
            → CountsWrites W.failures self.old self.new result }
    {
        if let Some(result) = self.ended {
            return result;
        }
        let result = self.close();
        self.ended = Some(result);
        result
    }

    /// Writes one connection, if there may be one more.
    fn write_pair<C: Source, S: Source>(
        &mut self,
        client: &mut C,
        server: &mut S,
    ) -> Result<(), Error>
        ensures writes { WritesPair self.old
            (record {
              client_before = C.observed client.old;
              client_after = C.observed client.new;
              server_before = S.observed server.old;
              server_after = S.observed server.new;
            })
            (record { bytes = W.written (sink_of self.old); extent = self.old.extent })
            (record { bytes = W.written (sink_of self.new); extent = self.new.extent })
            result }
        ensures one_more { OnOk result (self.new.connections ≡ self.old.connections + 1) }
        ensures same_ending { ending_of self.new ≡ ending_of self.old }
        ensures read { CountsReadings
            (C.failures client.old) (C.failures client.new)
            (S.failures server.old) (S.failures server.new) result }
        ensures write { CountsWrites W.failures self.old self.new result }
    {
        if self.connections == MAX_CONNECTIONS {
            return Err(self.extent.refusal(Reason::TooManyConnections));
        }
        self.connections += 1;
        write_connection(
            &mut self.sink,
            &mut self.block,
            &mut self.extent,
            client,
            server,
        )
    }

    fn close(&mut self) -> Result<(), Error>
        ensures ok { OnOk result
            (Appends (W.written (sink_of self.old)) (W.written (sink_of self.new)) (word_bytes 0)) }
        ensures err { OnErr result
            (AppendsFront (W.written (sink_of self.old)) (W.written (sink_of self.new))
            (word_bytes 0)) }
        ensures flushes { OnOk result
            (IsFlushed (W.written (sink_of self.new)) (W.flushed (sink_of self.new))) }
        ensures error { IfErr result (λ error. error ≡ Error.Write) }
        ensures write { CountsWrites W.failures self.old self.new result }
    {
        write_all(&mut self.sink, &pack_chunk(0))?;
        match self.sink.flush_all() {
            Ok(()) => Ok(()),
            Err(_) => Err(Error::Write),
        }
    }
}
