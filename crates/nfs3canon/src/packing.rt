//! Streams that are packed into a capture.

ghost use Rattle.std.specs.Prelude.{◌≡◌, ◌%◌, [], Some, IfErr, IfOk, length, map, string_bytes};
ghost use Rattle.program3.specs.Files.{files_run};
ghost use Rattle.program3.specs.Readings.{reading_in, readings_in};
ghost use Rattle.nfs3canon.specs.Files.{AreOfFirst, PacksFile};
ghost use Rattle.nfs3canon.specs.machinery.Packing.{StopsPacking, WritesStreams};

use canon3::ToWrite;
use capture3::Error;
use packing3::Packing;
use program3::{Closed, Ended, Files, Made, Outcome, Readings, finish_file};
use std::alloc::Global;

/// Packs the streams of these names, pair by pair, into a capture of another name. The output is made first,
/// and then each pair is opened in turn. Returns what came of it, and what was read.
#[tactic(auto, using(crate::proofs::PackingLemmas::packs_none))]
pub fn run_pack<F: Files>(
    alloc: Global,
    files: &mut F,
    output: &str,
    streams: &[String],
) -> (Ended, Readings)
    ensures packs { length streams.now % 2 ≡ 0 → PacksFile
        (files_run F.holds F.finished files.old files.new (readings_in result.1))
        output.now (map string_bytes streams.now) result.0.outcome }
{
    let mut closed = Vec::new(alloc);
    let ended = match files.make_apart(output, streams) {
        Ok(made) => Ended {
            is_aside: files.is_standard_output(&made.place),
            outcome: keep_packing(alloc, files, made, streams, &mut closed),
        },
        Err(outcome) => Ended::of(outcome),
    };
    (ended, Readings::OfMany(closed))
}

fn keep_packing<F: Files>(
    alloc: Global,
    files: &mut F,
    made: Made<F::Output, F::Place>,
    streams: &[String],
    closed: &mut Vec<Closed>,
) -> Outcome
    requires { closed.old.items ≡ [] }
    ensures packs { length streams.now % 2 ≡ 0 → F.Output.contents made.file ≡ Some []
        → PacksFile
        (files_run F.holds F.finished files.old files.new (map reading_in closed.new.items))
        (F.name_of made.place) (map string_bytes streams.now) result }
{
    let Made { file, place } = made;
    match pack_streams(alloc, files, file, &place, streams, closed) {
        Ok(file) => Outcome::Packed(finish_file(files, file, place)),
        Err(outcome) => {
            files.remove(place);
            outcome
        }
    }
}

fn pack_streams<F: Files>(
    alloc: Global,
    files: &F,
    file: F::Output,
    place: &F::Place,
    streams: &[String],
    closed: &mut Vec<Closed>,
) -> Result<F::Output, Outcome>
    requires { closed.old.items ≡ [] }
    ensures written { length streams.now % 2 ≡ 0 → F.Output.contents file ≡ Some []
        → IfOk result (λ file. WritesStreams (F.holds files.now) (map string_bytes streams.now)
        (map reading_in closed.new.items) (F.Output.contents file)) }
    ensures first { AreOfFirst (map string_bytes streams.now) (map reading_in closed.new.items) }
    ensures failed { F.Output.contents file ≡ Some []
        → IfErr result (StopsPacking (F.holds files.now) (map string_bytes streams.now)
        (map reading_in closed.new.items)) }
{
    let mut packing = match Packing::start(alloc, ToWrite::new(file)) {
        Ok(packing) => packing,
        Err((error, _)) => return Err(Outcome::Packed(Err(error))),
    };
    for index in 0..streams.len() / 2 {
        let mut client = files.open_apart(place, streams[2 * index].as_str())?;
        let mut server = files.open_apart(place, streams[2 * index + 1].as_str())?;
        let added = packing.add(&mut client.source, &mut server.source);
        if closed.push(client.close()).is_err() || closed.push(server.close()).is_err() {
            return Err(Outcome::Packed(Err(Error::Memory)));
        }
        if let Err(error) = added {
            return Err(Outcome::Packed(Err(error)));
        }
    }
    match packing.finish() {
        Ok(()) => Ok(packing.into_sink().into_inner()),
        Err(error) => Err(Outcome::Packed(Err(error))),
    }
}
