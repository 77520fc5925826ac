//! A stream in chunks.

ghost use Rattle.std.specs.Prelude.{◌≡◌, ◌<◌, ◌≤◌, ◌+◌, ◌^◌, length};
ghost use Rattle.capture3.specs.Entries.{CountsReading};
ghost use Rattle.canon3.specs.WriteErrors.{CountsWriting};
ghost use Rattle.packing3.specs.Packed.{full_size};
ghost use Rattle.packing3.specs.Devices.{CountsReadings};
ghost use Rattle.packing3.specs.machinery.Streaming.{GrowsLittle, WritesChunk, WritesConnection, WritesStream};

use crate::block::fill;
use crate::extent::Extent;
use canon3::{Sink, write_all};
use capture3::{Error, MAX_BYTES, Source, pack_chunk};
use xdr3::Reason;

/// How many bytes a full chunk has.
pub(crate) const FULL_CHUNK: usize = 65_536;

/// Writes a connection: the word 1, and both sources' bytes to their ends.
///
/// # Errors
///
/// As for one stream.
pub(crate) fn write_connection<C: Source, S: Source, W: Sink>(
    sink: &mut W,
    block: &mut [u8],
    extent: &mut Extent,
    client: &mut C,
    server: &mut S,
) -> Result<(), Error>
    requires block { length block.old ≡ full_size }
    requires small { extent.old.at ≤ 2 ^ 50 }
    ensures small { GrowsLittle 12 extent.old extent.new }
    ensures writes { WritesConnection
        (record {
          client_before = C.observed client.old;
          client_after = C.observed client.new;
          server_before = S.observed server.old;
          server_after = S.observed server.new;
        })
        (record { bytes = W.written sink.old; extent = extent.old })
        (record { bytes = W.written sink.new; extent = extent.new })
        result }
    ensures read { CountsReadings
        (C.failures client.old) (C.failures client.new)
        (S.failures server.old) (S.failures server.new) result }
    ensures write { CountsWriting (W.failures sink.old) (W.failures sink.new) result }
{
    write_all(sink, &pack_chunk(1))?;
    extent.at += 4;
    write_stream(sink, block, extent, client)?;
    write_stream(sink, block, extent, server)
}

/// Writes the source's bytes to their end: chunks, and the word 0. Each chunk fills the block but
/// the last. The bytes that a source gave before an error are lost.
///
/// # Errors
///
/// - `Refused` with `TooManyBytes` if the next chunk would pass the limit. Its length word and
///   bytes are not written.
/// - `Read` and `Write` if the device failed.
fn write_stream<R: Source, W: Sink>(
    sink: &mut W,
    block: &mut [u8],
    extent: &mut Extent,
    source: &mut R,
) -> Result<(), Error>
    requires block { length block.old ≡ full_size }
    requires small { extent.old.at ≤ 2 ^ 60 }
    ensures small { GrowsLittle 4 extent.old extent.new }
    ensures writes { WritesStream (R.observed source.old) (R.observed source.new)
        (record { bytes = W.written sink.old; extent = extent.old })
        (record { bytes = W.written sink.new; extent = extent.new })
        result }
    ensures read { CountsReading (R.failures source.old) (R.failures source.new) result }
    ensures write { CountsWriting (W.failures sink.old) (W.failures sink.new) result }
{
    loop {
        let count = write_chunk(sink, block, extent, source)?;
        if count < FULL_CHUNK {
            break;
        }
    }
    write_all(sink, &pack_chunk(0))?;
    extent.at += 4;
    Ok(())
}

/// Writes the bytes that fill the block, or that are left, as one chunk, and returns how many they
/// are; no bytes make no chunk.
fn write_chunk<R: Source, W: Sink>(
    sink: &mut W,
    block: &mut [u8],
    extent: &mut Extent,
    source: &mut R,
) -> Result<usize, Error>
    requires block { length block.old ≡ full_size }
    requires small { extent.old.at < 2 ^ 62 }
    ensures small { GrowsLittle 0 extent.old extent.new }
    ensures writes { WritesChunk (R.observed source.old) (R.observed source.new)
        (record { bytes = W.written sink.old; extent = extent.old })
        (record { bytes = W.written sink.new; extent = extent.new })
        result }
    ensures read { CountsReading (R.failures source.old) (R.failures source.new) result }
    ensures write { CountsWriting (W.failures sink.old) (W.failures sink.new) result }
{
    let count = match fill(source, block) {
        Ok(count) => count,
        Err(_) => return Err(Error::Read),
    };
    if count as u32 > MAX_BYTES - extent.streamed {
        return Err(extent.refusal(Reason::TooManyBytes));
    }
    if count == 0 {
        return Ok(0);
    }
    write_all(sink, &pack_chunk(count as u32))?;
    write_all(sink, &block[..count])?;
    extent.streamed += count as u32;
    extent.at += 4 + count as u64;
    Ok(count)
}
