//! How written data is committed (RFC 1813, section 3.3.7).

ghost use Rattle.std.specs.Prelude.{◌≡◌, ◌↔◌, IfSome, IsSome, IsTrue};
ghost use Rattle.xdr3.specs.Reading.{word_at};
ghost use Rattle.xdr3.specs.Shape.{is_listed};
ghost use Rattle.xdr3.specs.View.{Answers, MovesOn};

use xdr3::{Input, Reason, Stop};

/// Which of the written data must be, or are, on stable storage: `stable_how`, 0 to 2 (RFC 1813,
/// section 3.3.7).
#[derive(Clone, Copy, Debug, PartialEq, Eq)]
pub enum Stable {
    /// `UNSTABLE` (0): nothing need be.
    Unstable,
    /// `DATA_SYNC` (1): the data, and the metadata that is needed to find them.
    DataSync,
    /// `FILE_SYNC` (2): the data and all of the file's metadata.
    FileSync,
}

impl Stable {
    ghost use Rattle.nfs3_types.specs.Stable.{stable_number, stable_words};

    /// Returns its number.
    pub fn number(self) -> u32
        ensures { result ≡ stable_number self }
    {
        match self {
            Stable::Unstable => 0,
            Stable::DataSync => 1,
            Stable::FileSync => 2,
        }
    }

    /// Reads a `stable_how` from the next word. `BadEnum` if the word is none, `Short` if fewer
    /// than four bytes are left.
    pub fn take(input: &mut Input) -> Result<Stable, Stop>
        ensures read { Answers stable_number result input.new.at
            (word_at (is_listed stable_words) Reason.BadEnum input.old.body input.old.at) }
        ensures moves { MovesOn input.old input.new }
    {
        let at = input.at();
        let n = input.word()?;
        Stable::of_number(n).ok_or(Stop {
            at,
            reason: Reason::BadEnum,
        })
    }

    /// Returns the one with this number, if there is one.
    fn of_number(n: u32) -> Option<Stable>
        ensures number { IfSome result (λ stable. stable_number stable ≡ n) }
        ensures listed { IsSome result ↔ IsTrue (is_listed stable_words n) }
    {
        match n {
            0 => Some(Stable::Unstable),
            1 => Some(Stable::DataSync),
            2 => Some(Stable::FileSync),
            _ => None,
        }
    }
}
