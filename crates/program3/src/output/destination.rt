//! What is done with the file that has the name of an output.

ghost use Rattle.std.specs.Prelude.{◌≡◌};
ghost use Rattle.program3.specs.Destinations.{destination_of};

use crate::output::identity::FileIdentity;

/// What is done with the file that has the name of an output.
#[derive(Clone, Copy, Debug, PartialEq, Eq)]
pub enum Destination {
    /// It is an input, and stays as it is.
    Input,
    /// It is a regular file, and is replaced once the new one is whole.
    Replaced,
    /// It is a device, a pipe or the program's own standard output, and is written as it is.
    AsItIs { is_standard_output: bool },
}

impl Destination {
    /// Returns what is done with this file. `own` is the one to which the program prints, if that
    /// is known. If not, a device or a pipe counts as that one.
    pub fn of(
        id: FileIdentity,
        is_regular: bool,
        own: Option<FileIdentity>,
        inputs: &[FileIdentity],
    ) -> Destination
        ensures { result ≡ destination_of id is_regular own inputs.now }
    {
        if is_regular && inputs.contains(&id) {
            return Destination::Input;
        }
        if is_regular && own != Some(id) {
            return Destination::Replaced;
        }
        Destination::AsItIs {
            is_standard_output: own.unwrap_or(id) == id,
        }
    }
}
