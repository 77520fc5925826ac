//! The listing of a file.

ghost use Rattle.std.specs.Prelude.{Err};
ghost use Rattle.capture3.specs.declared.fault.Error.TheVariants as errors;
ghost use Rattle.program3.specs.Files.{files_run};
ghost use Rattle.program3.specs.Opening.{ReportsUnopened};
ghost use Rattle.program3.specs.Readings.{readings_in};
ghost use Rattle.program3.specs.declared.outcome.Outcome.TheVariants as outcomes;
ghost use Rattle.nfs3canon.specs.Files.{ListsFile};

use crate::forms::Listing;
use capture3::{Error, Hashers};
use program3::{Files, OpenError, Outcome, Readings, open_failure, write_form};
use std::alloc::Global;
use std::hash::BuildHasher;
use std::io::Write;

/// What came of a listing: the writer comes back unless memory ran out for what is gathered before it is
/// written.
#[derive(Drop)]
pub struct Listed<W: Drop> {
    pub outcome: Outcome,
    pub output: Option<W>,
    pub readings: Readings,
}

/// Lists the file of this name to a writer. The lines before a fault are written too.
pub fn run_show<F: Files, W: Write + Drop, S: BuildHasher + Drop>(
    alloc: Global,
    hashers: Hashers<S>,
    files: &F,
    name: &str,
    output: W,
) -> Listed<W>
    ensures lists { ListsFile
        (files_run F.holds F.finished files.now files.now (readings_in result.readings))
        (record { contents = W.contents; before = output; after = result.output }) name.now
        result.outcome }
{
    let mut opened = match files.open(name) {
        Ok(opened) => opened,
        Err(error) => {
            return Listed {
                outcome: listing_failure(alloc, name, OpenError::from(error)),
                output: Some(output),
                readings: Readings::Nothing,
            };
        }
    };
    match write_form(alloc, Listing { hashers }, &mut opened.source, output) {
        Ok((came, output)) => Listed {
            outcome: Outcome::Listed(came),
            output: Some(output),
            readings: Readings::OfOne(opened.close()),
        },
        Err(_) => Listed {
            outcome: Outcome::Listed(Err(Error::Memory)),
            output: None,
            readings: Readings::Nothing,
        },
    }
}

fn listing_failure(alloc: Global, name: &str, error: OpenError) -> Outcome
    ensures { ReportsUnopened name.now error (outcomes.Listed (Err errors.Memory)) result }
{
    open_failure(alloc, name, error, Outcome::Listed(Err(Error::Memory)))
}
