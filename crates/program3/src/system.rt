//! The files of the system.

ghost use Rattle.std.specs.Prelude.{◌≡◌, [], Err, IfOk, IfSome};
ghost use Rattle.capture3.specs.declared.fault.Error.TheVariants as errors;
ghost use Rattle.program3.specs.Opening.{ReportsUnopened};
ghost use Rattle.program3.specs.declared.outcome.Outcome.TheVariants.{Packed};
ghost use Rattle.program3.specs.Systems.{IsMade, finished_of};

use crate::files::{Files, Made};
use crate::input::opening::{OpenError, counting_failure, open_failure, open_file};
use crate::input::retried::Retried;
use crate::outcome::Outcome;
use crate::output::identity::FileIdentity;
use crate::output::place::OutputPlace;
use crate::reading::Opened;
use canon3::Traced;
use capture3::Error;
use line3::LineFault;
use std::alloc::Global;
use std::fs::{File, Metadata};
use std::{fs, io};

/// A file whose bytes are safe on the disk. Nothing is written to it from now on.
#[derive(Drop)]
pub struct SafeFile {
    file: Traced<File>,
}

/// The files of the system. No contract tells their bytes, but what is read of them is noted.
#[derive(Drop)]
pub struct System<'a> {
    rt: &'a HostRuntime,
    finished: Vec<Made<SafeFile, OutputPlace>>,
}

impl<'a> System<'a> {
    /// Returns the files of the system, of which none was finished yet.
    pub fn new(rt: &'a HostRuntime) -> System<'a>
        ensures { finished_of result ≡ [] }
    {
        System {
            rt,
            finished: Vec::new(rt.alloc()),
        }
    }

    /// Makes the output, or returns `None` if it is the input of which the system says `input`. `own` is
    /// the program's standard output, as it was before the input was opened.
    fn make_beside(
        &self,
        own: io::Result<Option<FileIdentity>>,
        input: &Metadata,
        output: &str,
    ) -> Result<Option<Made<Traced<File>, OutputPlace>>, OpenError>
        ensures { IfOk result (λ found. IfSome found (λ made. IsMade made output.now)) }
    {
        OutputPlace::make(self.rt, output, own?, &[FileIdentity::of(input)])
    }

    /// Makes the output of a packing, or returns `None` if it is one of the streams. One that is
    /// not there is told when it is opened.
    fn make_packed(
        &self,
        output: &str,
        streams: &[String],
    ) -> Result<Option<Made<Traced<File>, OutputPlace>>, OpenError>
        ensures { IfOk result (λ found. IfSome found (λ made. IsMade made output.now)) }
    {
        let own = FileIdentity::of_standard_output(self.rt)?;
        let mut inputs = Vec::new(self.rt.alloc());
        for stream in streams {
            if let Ok(data) = fs::metadata(self.rt, stream.as_str()) {
                let added = inputs.push(FileIdentity::of(&data));
                added.map_err(|_| OpenError::Memory)?;
            }
        }
        OutputPlace::make(self.rt, output, own, inputs.as_slice())
    }

    /// Gives the last file its name, and returns whether it has it.
    fn last_is_named(&self) -> bool {
        match self.finished.last() {
            Some(made) => made.place.give_name(self.rt).is_ok(),
            None => false,
        }
    }
}

impl Files for System<'_> {
    type Input = Retried<File>;

    type Recording = Retried<File>;

    type Output = Traced<File>;

    type Safe = SafeFile;

    type Place = OutputPlace;

    ghost use Rattle.std.specs.Prelude.{None, Some, string_bytes};
    ghost use Rattle.program3.specs.Systems.{finished_of};

    ghost holds = { λ _ _. None };

    ghost finished = { finished_of };

    ghost name_of = { λ place. string_bytes place.name };

    ghost bytes_of = { λ safe. Some safe.file.taken };

    fn open(&self, name: &str) -> io::Result<Opened<Retried<File>>> {
        let reader = fs::open(self.rt, name)?;
        Ok(Opened::new(name, Retried { reader }))
    }

    fn open_both(
        &self,
        input: &str,
        output: &str,
    ) -> Result<(Opened<Retried<File>>, Made<Traced<File>, OutputPlace>), Outcome> {
        let alloc = self.rt.alloc();
        let own = FileIdentity::of_standard_output(self.rt);
        let (reader, read) = match open_file(self.rt, input) {
            Ok(opened) => opened,
            Err(error) => return Err(counting_failure(alloc, input, error)),
        };
        match self.make_beside(own, &read, output) {
            Ok(Some(made)) => Ok((Opened::new(input, Retried { reader }), made)),
            Ok(None) => Err(Outcome::Line(LineFault::SameName)),
            Err(error) => Err(counting_failure(alloc, output, error)),
        }
    }

    fn open_recording(
        &self,
        recording: &str,
        output: &str,
    ) -> Result<(Retried<File>, Made<Traced<File>, OutputPlace>), Outcome> {
        let alloc = self.rt.alloc();
        let own = FileIdentity::of_standard_output(self.rt);
        let (reader, data) = match open_file(self.rt, recording) {
            Ok(opened) => opened,
            Err(error) => return Err(packing_failure(alloc, recording, error)),
        };
        if !data.is_file() {
            return Err(Outcome::Irregular);
        }
        match self.make_beside(own, &data, output) {
            Ok(Some(made)) => Ok((Retried { reader }, made)),
            Ok(None) => Err(Outcome::Line(LineFault::SameName)),
            Err(error) => Err(packing_failure(alloc, output, error)),
        }
    }

    fn make_apart(
        &self,
        output: &str,
        streams: &[String],
    ) -> Result<Made<Traced<File>, OutputPlace>, Outcome> {
        match self.make_packed(output, streams) {
            Ok(Some(made)) => Ok(made),
            Ok(None) => Err(Outcome::Line(LineFault::SameName)),
            Err(error) => Err(packing_failure(self.rt.alloc(), output, error)),
        }
    }

    // The part may have got the number of a standard input that is closed.
    fn open_apart(
        &self,
        place: &OutputPlace,
        stream: &str,
    ) -> Result<Opened<Retried<File>>, Outcome> {
        match open_file(self.rt, stream) {
            Ok((_, data)) if place.is_regular(&data) => Err(Outcome::Line(LineFault::SameName)),
            Ok((reader, _)) => Ok(Opened::new(stream, Retried { reader })),
            Err(error) => Err(packing_failure(self.rt.alloc(), stream, error)),
        }
    }

    fn is_standard_output(&self, place: &OutputPlace) -> bool {
        place.is_standard_output()
    }

    fn make_safe(&self, file: Traced<File>, place: &OutputPlace) -> io::Result<SafeFile> {
        place.make_safe(file.inner())?;
        Ok(SafeFile { file })
    }

    fn give_name(&mut self, file: SafeFile, place: OutputPlace) -> Result<(), Error> {
        if let Err(failed) = self.finished.push(Made { file, place }) {
            failed.value.place.remove(self.rt);
            return Err(Error::Memory);
        }
        if self.last_is_named() {
            return Ok(());
        }
        if let Some(made) = self.finished.pop() {
            made.place.remove(self.rt);
        }
        Err(Error::Write)
    }

    fn remove(&self, place: OutputPlace) {
        place.remove(self.rt);
    }
}

fn packing_failure(alloc: Global, name: &str, error: OpenError) -> Outcome
    ensures { ReportsUnopened name.now error (Packed (Err errors.Memory)) result }
{
    open_failure(alloc, name, error, Outcome::Packed(Err(Error::Memory)))
}
