//! Files that are no files of the system: a capture in memory, and its canonical form.

use crate::payloads::InMemory;
use crate::samples::{NULL, NUMBERED_NULL, hashers};
use canon3::{Sink, Summary, canon};
use capture3::{Error, Source};
use program3::{Files, Made, Opened, Outcome, Rewriting, run_rewriting};
use std::alloc::Global;
use std::io;
use std::test::Fail;

/// Files that all have the same bytes. Those that are finished are kept.
#[derive(Drop)]
struct MemFiles<'a> {
    alloc: Global,
    bytes: &'a [u8],
    finished: Vec<Made<Vec<u8>, String>>,
}

impl<'a> Files for MemFiles<'a> {
    type Input = &'a [u8];

    type Recording = InMemory<'a>;

    type Output = Vec<u8>;

    type Safe = Vec<u8>;

    type Place = String;

    ghost use Rattle.std.specs.Prelude.{Some, map, reverse, string_bytes};

    ghost holds = { λ files _. Some files.bytes.now };

    ghost finished = { λ files. map
        (λ made. record { name = string_bytes made.place; bytes = Some made.file.items })
        (reverse files.finished.items) };

    ghost name_of = { string_bytes };

    ghost bytes_of = { λ bytes. Some bytes.items };

    fn open(&self, name: &str) -> io::Result<Opened<&'a [u8]>> {
        Ok(Opened::new(name, self.bytes))
    }

    fn open_both(
        &self,
        input: &str,
        output: &str,
    ) -> Result<(Opened<&'a [u8]>, Made<Vec<u8>, String>), Outcome> {
        match String::from_str(self.alloc, output) {
            Ok(place) => Ok((
                Opened::new(input, self.bytes),
                Made {
                    file: Vec::new(self.alloc),
                    place,
                },
            )),
            Err(_) => Err(Outcome::Counted(Err(Error::Memory))),
        }
    }

    fn open_recording(
        &self,
        _recording: &str,
        output: &str,
    ) -> Result<(InMemory<'a>, Made<Vec<u8>, String>), Outcome> {
        match self.make_apart(output, &[]) {
            Ok(made) => Ok((InMemory { bytes: self.bytes }, made)),
            Err(outcome) => Err(outcome),
        }
    }

    fn make_apart(
        &self,
        output: &str,
        _streams: &[String],
    ) -> Result<Made<Vec<u8>, String>, Outcome> {
        match String::from_str(self.alloc, output) {
            Ok(place) => Ok(Made {
                file: Vec::new(self.alloc),
                place,
            }),
            Err(_) => Err(Outcome::Packed(Err(Error::Memory))),
        }
    }

    fn open_apart(&self, _place: &String, stream: &str) -> Result<Opened<&'a [u8]>, Outcome> {
        Ok(Opened::new(stream, self.bytes))
    }

    fn is_standard_output(&self, _place: &String) -> bool {
        false
    }

    fn make_safe(&self, file: Vec<u8>, _place: &String) -> io::Result<Vec<u8>> {
        Ok(file)
    }

    fn give_name(&mut self, file: Vec<u8>, place: String) -> Result<(), Error> {
        match self.finished.push(Made { file, place }) {
            Ok(()) => Ok(()),
            Err(_) => Err(Error::Memory),
        }
    }

    fn remove(&self, _place: String) {}
}

/// The canonical form.
#[derive(Drop)]
struct Numbered;

impl Rewriting for Numbered {
    ghost use Rattle.canon3.specs.Canonical.{canonical_bytes};
    ghost use Rattle.canon3.specs.Summary.{IsSummary};

    type Counts = Summary;

    ghost form = { λ _. canonical_bytes };

    ghost counts = { IsSummary };

    fn rewrite<R: Source, W: Sink>(
        self,
        alloc: Global,
        source: &mut R,
        sink: &mut W,
    ) -> Result<Summary, Error> {
        canon(alloc, hashers(), source, sink)
    }
}

/// A form is finished under the name of the output.
#[test]
fn files_in_memory(rt: HostRuntime) -> Result<(), Fail> {
    let mut files = MemFiles {
        alloc: rt.alloc(),
        bytes: &NULL,
        finished: Vec::new(rt.alloc()),
    };
    let (ended, _readings) = run_rewriting(rt.alloc(), Numbered, &mut files, "in", "out");
    assert!(rt; matches!(&ended.outcome, Outcome::Counted(Ok(counts)) if counts.calls == 1));
    assert_eq!(rt; files.finished.len(), 1);
    assert_eq!(rt; files.finished[0].place.as_str(), "out");
    assert_eq!(rt; files.finished[0].file.as_slice(), NUMBERED_NULL.as_slice());
    Ok(())
}
