//! The place of a file that a command writes.

ghost use Rattle.std.specs.Prelude.{◌≡◌, IfOk, IfSome, None, string_bytes};
ghost use Rattle.program3.specs.Systems.{IsMade, ReplacesNone};

use crate::files::Made;
use crate::input::opening::OpenError;
use crate::output::destination::Destination;
use crate::output::identity::{FileIdentity, if_there};
use crate::output::part::PartFile;
use canon3::Traced;
use std::fs::{File, Metadata, OpenOptions};
use std::io::ErrorKind;
use std::{fs, io};

/// Where the file that a command writes will stand. A regular file is written beside its name, and
/// gets the name once it is whole: until then, and if the command fails, what has the name stays as
/// it is. A device, a pipe and the program's own standard output are written as they are.
#[derive(Drop)]
pub struct OutputPlace {
    name: String,
    id: FileIdentity,
    replaced: Option<FileIdentity>,
    part: Option<PartFile>,
    is_standard_output: bool,
}

impl OutputPlace {
    /// Opens or makes the file of this name, or returns `None` if it is one of the inputs. `own` is
    /// the file to which the program prints, if that is known.
    ///
    /// # Errors
    ///
    /// Nothing is left behind, and what has the name is unchanged.
    /// - `Unopened` if the file cannot be opened or made, or is not writable, or if what the name
    ///   leads to has no path.
    /// - `Memory` if memory ran out.
    pub fn make(
        rt: &HostRuntime,
        name: &str,
        own: Option<FileIdentity>,
        inputs: &[FileIdentity],
    ) -> Result<Option<Made<Traced<File>, OutputPlace>>, OpenError>
        ensures made { IfOk result (λ found. IfSome found (λ made. IsMade made name.now)) }
        ensures apart { IfOk result (λ found. IfSome found (λ made.
            ReplacesNone made.place inputs.now)) }
    {
        let word = String::from_str(rt.alloc(), name)?;
        let Some(found) = found_under(rt, name)? else {
            let part = PartFile::of_new(rt, name)?;
            return Ok(Some(open_part(rt, word, None, part)?));
        };
        let id = FileIdentity::of(&found);
        match Destination::of(id, found.is_file(), own, inputs) {
            Destination::Input => Ok(None),
            Destination::Replaced => {
                let part = PartFile::of_replaced(rt, name, &found)?;
                Ok(Some(open_part(rt, word, Some(id), part)?))
            }
            Destination::AsItIs { is_standard_output } => {
                Ok(Some(open_existing(rt, word, id, is_standard_output)?))
            }
        }
    }

    /// Whether the program prints to this file, too.
    pub fn is_standard_output(&self) -> bool {
        self.is_standard_output
    }

    /// Whether `data` is what the system says of the regular file that is written, or that is
    /// replaced.
    pub fn is_regular(&self, data: &Metadata) -> bool {
        self.id.is_regular(data) || self.replaced.is_some_and(|id| id.is_regular(data))
    }

    /// Gives the whole file its permissions, and makes its bytes safe on the disk. Does nothing for
    /// a file that is written as it is.
    ///
    /// # Errors
    ///
    /// That of the system.
    pub fn make_safe(&self, file: &File) -> io::Result<()> {
        match &self.part {
            Some(part) => part.make_safe(file),
            None => Ok(()),
        }
    }

    /// Gives the file its name. Does nothing for a file that is written as it is.
    ///
    /// # Errors
    ///
    /// That of the system. What has the name is unchanged.
    pub fn give_name(&self, rt: &HostRuntime) -> io::Result<()> {
        match &self.part {
            Some(part) => part.give_name(rt),
            None => Ok(()),
        }
    }

    /// Removes what was written beside the name. What has the name is unchanged.
    pub fn remove(&self, rt: &HostRuntime) {
        if let Some(part) = &self.part {
            part.remove(rt);
        }
    }
}

/// What has this name, or `None` for a new one. An empty name, and a link that leads to nothing,
/// are no new names.
fn found_under(rt: &HostRuntime, name: &str) -> io::Result<Option<Metadata>> {
    if let Some(found) = if_there(fs::metadata(rt, name))? {
        return Ok(Some(found));
    }
    match if_there(fs::symlink_metadata(rt, name))? {
        None if !name.is_empty() => Ok(None),
        _ => Err(io::Error::from(ErrorKind::NotFound)),
    }
}

fn open_part(
    rt: &HostRuntime,
    name: String,
    replaced: Option<FileIdentity>,
    made: (PartFile, File),
) -> Result<Made<Traced<File>, OutputPlace>, OpenError>
    ensures made { IfOk result (λ made. IsMade made (string_bytes name)) }
    ensures replaced { IfOk result (λ made. made.place.replaced ≡ replaced) }
{
    let (part, file) = made;
    match file.metadata() {
        Ok(data) => Ok(Made {
            file: Traced::new(file),
            place: OutputPlace {
                name,
                id: FileIdentity::of(&data),
                replaced,
                part: Some(part),
                is_standard_output: false,
            },
        }),
        Err(error) => {
            part.remove(rt);
            Err(OpenError::from(error))
        }
    }
}

/// Nothing that is there is emptied: a device and a pipe hold nothing, and standard output may have
/// been written before. A file that has got the name meanwhile is not written.
fn open_existing(
    rt: &HostRuntime,
    name: String,
    id: FileIdentity,
    is_standard_output: bool,
) -> Result<Made<Traced<File>, OutputPlace>, OpenError>
    ensures made { IfOk result (λ made. IsMade made (string_bytes name)) }
    ensures replaced { IfOk result (λ made. made.place.replaced ≡ None) }
{
    let file = OpenOptions::new().append(true).open(rt, name.as_str())?;
    if id != FileIdentity::of(&file.metadata()?) {
        return Err(OpenError::Unopened);
    }
    Ok(Made {
        file: Traced::new(file),
        place: OutputPlace {
            name,
            id,
            replaced: None,
            part: None,
            is_standard_output,
        },
    })
}
