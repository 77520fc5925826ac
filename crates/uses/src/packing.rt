//! Two streams in memory packed into a capture.

ghost use Rattle.std.specs.Prelude.{IfOk, [], ◌∷◌};
ghost use Rattle.packing3.specs.Packing.{HasWrittenCapture, sink_of};

use canon3::Sink;
use capture3::{Error, MemSource};
use packing3::Packing;
use std::alloc::Global;

/// How many bytes one read gives.
const BLOCK: usize = 65_536;

/// Writes a capture of one connection with these streams, and flushes the sink. It is returned in the
/// packing.
///
/// # Errors
///
/// - `Refused` with `TooManyBytes` if the streams are longer than a capture may be.
/// - `Write` if a write or the flush failed.
/// - `Memory` if an allocation failed.
pub fn pack_two<W: Sink + Drop>(
    alloc: Global,
    client: &[u8],
    server: &[u8],
    sink: W,
) -> Result<Packing<W>, Error>
    ensures { IfOk result (λ packing. HasWrittenCapture (W.written sink)
        (W.written (sink_of packing))
        (record { client = client.now; server = server.now } ∷ [])) }
{
    let mut packing = match Packing::start(alloc, sink) {
        Ok(packing) => packing,
        Err((error, _)) => return Err(error),
    };
    let mut client = MemSource::new(client, BLOCK, 0);
    let mut server = MemSource::new(server, BLOCK, 0);
    packing.add(&mut client, &mut server)?;
    packing.finish()?;
    Ok(packing)
}
