//! Files that commands read and write, by their names.

ghost use Rattle.std.specs.Prelude.{◌≡◌, ◌∷◌, ℕ, List, Option, IfErr, IfOk, OnErr, OnOk};
ghost use Rattle.canon3.specs.WriteErrors.{IsOfWriting};
ghost use Rattle.program3.specs.Files.{FailsToOpen, FailsToOpenRecording, FailsToOpenStream, IsNew, WrittenFile};
ghost use Rattle.program3.specs.Readings.{IsOpened};

use crate::outcome::Outcome;
use crate::reading::Opened;
use capture3::Error;
use std::io;
use std::io::{Read, Write};
use std::os::unix::fs::FileExt;

/// A file that is written, and the place where it will stand once it is whole.
#[derive(Drop)]
pub struct Made<W, P> {
    pub file: W,
    pub place: P,
}

/// Files that are opened and made by their names.
///
/// A file that is made has no name until it is whole and its bytes are safe. A device, a pipe and the
/// program's own standard output have their names already, are written as they are, and count as finished
/// once they are written.
pub trait Files {
    type Input: Read + Drop;

    // A file that is read by offsets.
    type Recording: FileExt + Drop;

    type Output: Write + Drop;
    // A written file whose bytes are safe.
    type Safe: Drop;
    // Where a file will stand. It cannot be dropped, so a command that has made a file either gives it its
    // name or removes it.
    type Place;

    // The bytes of the file of this name, if they are known.
    ghost holds: { Self → List ℕ → Option (List ℕ) };

    // The files that were finished, the last first.
    ghost finished: { Self → List WrittenFile };

    ghost name_of: { Self.Place → List ℕ };

    ghost bytes_of: { Self.Safe → Option (List ℕ) };

    /// Opens a file, whose reads give its bytes from the first on.
    fn open(&self, name: &str) -> io::Result<Opened<Self::Input>>
        ensures opened { IfOk result
            (IsOpened Self.Input.remaining (holds self.now) name.now) };

    /// Opens the input, and then makes the output.
    ///
    /// # Errors
    ///
    /// Nothing is left behind.
    /// - `Outcome::Unopened` with the name of the file that cannot be opened or made.
    /// - `Outcome::Line(LineFault::SameName)` if the output is the input, also under another name.
    /// - `Outcome::Counted(Err(Error::Memory))` if memory ran out.
    fn open_both(
        &self,
        input: &str,
        output: &str,
    ) -> Result<(Opened<Self::Input>, Made<Self::Output, Self::Place>), Outcome>
        ensures opened { IfOk result
            (λ both. IsOpened Self.Input.remaining (holds self.now) input.now both.0) }
        ensures made { IfOk result (λ both. IsNew Self.Output.contents name_of both.1 output.now) }
        ensures failed { IfErr result (FailsToOpen input.now output.now) };

    /// Opens a regular file that is read by offsets, and then makes the output.
    ///
    /// # Errors
    ///
    /// Nothing is left behind.
    /// - `Outcome::Unopened` with the name of the file that cannot be opened or made.
    /// - `Outcome::Irregular` if the recording is no regular file.
    /// - `Outcome::Line(LineFault::SameName)` if the output is the recording, also under another name.
    /// - `Outcome::Packed(Err(Error::Memory))` if memory ran out.
    fn open_recording(
        &self,
        recording: &str,
        output: &str,
    ) -> Result<(Self::Recording, Made<Self::Output, Self::Place>), Outcome>
        ensures made { IfOk result (λ both. IsNew Self.Output.contents name_of both.1 output.now) }
        ensures failed { IfErr result (FailsToOpenRecording recording.now output.now) };

    /// Makes the output, which none of the streams is.
    ///
    /// # Errors
    ///
    /// Nothing is left behind.
    /// - `Outcome::Unopened` with the name of the output if it cannot be made.
    /// - `Outcome::Line(LineFault::SameName)` if the output is a stream, also under another name.
    /// - `Outcome::Packed(Err(Error::Memory))` if memory ran out.
    fn make_apart(
        &self,
        output: &str,
        streams: &[String],
    ) -> Result<Made<Self::Output, Self::Place>, Outcome>
        ensures made { IfOk result (λ made. IsNew Self.Output.contents name_of made output.now) }
        ensures failed { IfErr result (FailsToOpenStream output.now) };

    /// Opens a stream that is not what is written.
    ///
    /// # Errors
    ///
    /// - `Outcome::Unopened` with the name if it cannot be opened.
    /// - `Outcome::Line(LineFault::SameName)` if it is what is written.
    /// - `Outcome::Packed(Err(Error::Memory))` if memory ran out.
    fn open_apart(&self, place: &Self::Place, stream: &str) -> Result<Opened<Self::Input>, Outcome>
        ensures opened { IfOk result
            (IsOpened Self.Input.remaining (holds self.now) stream.now) }
        ensures failed { IfErr result (FailsToOpenStream stream.now) };

    /// Whether the program prints to this file, too.
    fn is_standard_output(&self, place: &Self::Place) -> bool;

    /// Makes the bytes of a written file safe on the disk. A device, a pipe and standard output are left as
    /// they are.
    ///
    /// # Errors
    ///
    /// That of the system. The file has no name then.
    fn make_safe(&self, file: Self::Output, place: &Self::Place) -> io::Result<Self::Safe>
        ensures safe { IfOk result (λ safe. bytes_of safe ≡ Self.Output.contents file) };

    /// Gives a file its name.
    ///
    /// # Errors
    ///
    /// It is removed, and what has the name is unchanged.
    /// - `Write` if it cannot have the name.
    /// - `Memory` if memory ran out.
    fn give_name(&mut self, file: Self::Safe, place: Self::Place) -> Result<(), Error>
        ensures ok { OnOk result
            (finished self.new
            ≡ record { name = name_of place; bytes = bytes_of file } ∷ finished self.old) }
        ensures err { OnErr result (finished self.new ≡ finished self.old) }
        ensures error { IfErr result IsOfWriting };

    /// Removes what was made. What has the name is unchanged.
    fn remove(&self, place: Self::Place);
}
