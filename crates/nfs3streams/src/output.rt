//! What is written of a recording.

ghost use Rattle.std.specs.Prelude.{◌≡◌, ℕ, [], List, Some, IfErr, IfOk, OnOk};
ghost use Rattle.std.specs.Io.KnownBytes.{Appends};
ghost use Rattle.canon3.specs.WriteErrors.{IsOfWriting};
ghost use Rattle.capture3.specs.Entries.{CountsReading};
ghost use Rattle.index3.specs.Indexes.{bytes_of_index};
ghost use Rattle.payload3.specs.Readings.{Allow};
ghost use Rattle.nfs3streams.specs.machinery.Converting.{CountsFailure, WritesInto, WritesWanted, index_in};

use crate::capture::pack_into;
use crate::decided::Decided;
use crate::line::asked::Wanted;
use canon3::{Sink, ToWrite};
use capture3::Error;
use index3::{Indexed, write_index};
use payload3::Recorded;
use program3::{WRITTEN_AT_ONCE, write_out};
use std::alloc::Global;
use std::io::{BufWriter, Write};
use std::os::unix::fs::FileExt;

/// Writes what is wanted of a recording, and returns the writer.
///
/// # Errors
///
/// - `Memory` if memory ran out.
/// - `Read` if a read failed, or the recording ends before a payload does. `Write` if a write failed.
/// - `Refused` if the connections are beyond a limit of captures.
pub(crate) fn write_wanted<F: FileExt, W: Write + Drop>(
    alloc: Global,
    recorded: &mut Recorded<'_, F>,
    wanted: Wanted,
    decided: &Decided,
    output: W,
) -> Result<W, Error>
    ensures more { (file : List ℕ) → Allow recorded.new.readings file
        → Allow recorded.old.readings file }
    ensures written { W.contents output ≡ Some [] → IfOk result (λ written.
        WritesWanted wanted decided.now recorded.new.readings (W.contents written)) }
    ensures err { IfErr result (CountsFailure (recorded.old.failures, recorded.new.failures)) }
{
    let Ok(buffer) = BufWriter::with_capacity(alloc, WRITTEN_AT_ONCE, output) else {
        return Err(Error::Memory);
    };
    let (came, sink) = write_into(alloc, recorded, wanted, decided, ToWrite::new(buffer));
    let (came, output) = write_out(came, sink.into_inner());
    match came {
        Ok(()) => Ok(output),
        Err(error) => Err(error),
    }
}

/// Writes what is wanted to a sink, and returns that.
fn write_into<F: FileExt, W: Sink + Drop>(
    alloc: Global,
    recorded: &mut Recorded<'_, F>,
    wanted: Wanted,
    decided: &Decided,
    sink: W,
) -> (Result<(), Error>, W)
    ensures more { (file : List ℕ) → Allow recorded.new.readings file
        → Allow recorded.old.readings file }
    ensures written { OnOk result.0 (WritesInto wanted decided.now recorded.new.readings
        (W.written sink) (W.written result.1)) }
    ensures read { CountsReading recorded.old.failures recorded.new.failures result.0 }
{
    match wanted {
        Wanted::Capture => pack_into(alloc, recorded, decided, sink),
        Wanted::Index => index_into(alloc, decided, sink),
    }
}

/// Writes the index to a sink, and returns that.
fn index_into<W: Sink + Drop>(
    alloc: Global,
    decided: &Decided,
    mut sink: W,
) -> (Result<(), Error>, W)
    ensures written { OnOk result.0 (Appends (W.written sink) (W.written result.1)
        (bytes_of_index (index_in decided.now))) }
    ensures error { IfErr result.0 IsOfWriting }
{
    let indexed = Indexed {
        end: decided.end,
        frames: &decided.frames,
        connections: &decided.connections,
        decisions: &decided.decisions,
    };
    let came = write_index(alloc, &mut sink, &indexed);
    (came, sink)
}
