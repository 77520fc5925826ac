//! The capture of the connections that are whole.

ghost use Rattle.std.specs.Prelude.{ℕ, [], List, Option, OnOk};
ghost use Rattle.capture3.specs.Entries.{CountsReading};
ghost use Rattle.capture3.specs.SidedChunks.{Streams};
ghost use Rattle.packing3.specs.Packing.{HasAdded, sink_of};
ghost use Rattle.payload3.specs.Readings.{Allow};
ghost use Rattle.nfs3streams.specs.machinery.Converting.{WritesWhole};

use crate::decided::Decided;
use canon3::Sink;
use capture3::Error;
use conversion3::pack_whole;
use packing3::Packing;
use payload3::Recorded;
use std::alloc::Global;
use std::os::unix::fs::FileExt;

/// Writes the capture to a sink, and returns that.
pub(crate) fn pack_into<F: FileExt, W: Sink + Drop>(
    alloc: Global,
    recorded: &mut Recorded<'_, F>,
    decided: &Decided,
    sink: W,
) -> (Result<(), Error>, W)
    ensures more { (file : List ℕ) → Allow recorded.new.readings file
        → Allow recorded.old.readings file }
    ensures written { OnOk result.0 (WritesWhole decided.now recorded.new.readings
        (W.written sink) (W.written result.1)) }
    ensures read { CountsReading recorded.old.failures recorded.new.failures result.0 }
{
    match Packing::start(alloc, sink) {
        Ok(mut packing) => {
            let came = pack_all(alloc, recorded, decided, &mut packing);
            (came, packing.into_sink())
        }
        Err((error, sink)) => (Err(error), sink),
    }
}

/// Packs the connections that are whole, and finishes the capture.
fn pack_all<F: FileExt, W: Sink>(
    alloc: Global,
    recorded: &mut Recorded<'_, F>,
    decided: &Decided,
    packing: &mut Packing<W>,
) -> Result<(), Error>
    ensures more { (file : List ℕ) → Allow recorded.new.readings file
        → Allow recorded.old.readings file }
    ensures written { (before : Option (List ℕ)) → HasAdded W.written packing.old before []
        → OnOk result (WritesWhole decided.now recorded.new.readings before
        (W.written (sink_of packing.new))) }
    ensures read { (before : Option (List ℕ)) → HasAdded W.written packing.old before []
        → CountsReading recorded.old.failures recorded.new.failures result }
{
    pack_whole(
        alloc,
        recorded,
        &decided.connections,
        &decided.decisions,
        packing,
    )?;
    packing.finish()
}
