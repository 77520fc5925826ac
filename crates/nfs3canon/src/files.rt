//! What each job does with files, and what is said of them.

ghost use Rattle.std.specs.Prelude.{Err};
ghost use Rattle.capture3.specs.declared.fault.Error.TheVariants as errors;
ghost use Rattle.program3.specs.Files.{files_run};
ghost use Rattle.program3.specs.Opening.{ReportsUnopened};
ghost use Rattle.program3.specs.Readings.{readings_in};
ghost use Rattle.program3.specs.declared.outcome.Outcome.TheVariants.{Compared};
ghost use Rattle.nfs3canon.specs.Files.{ComparesFiles, CountsFile};

use canon3::{SameError, Which, check, same};
use capture3::{Error, Hashers};
use program3::{Files, OpenError, Outcome, Readings, counting_failure, open_failure};
use std::alloc::Global;
use std::hash::BuildHasher;

/// Checks the file of this name. Returns what came of it, and what was read.
pub fn run_check<F: Files, S: BuildHasher + Drop>(
    alloc: Global,
    hashers: Hashers<S>,
    files: &F,
    name: &str,
) -> (Outcome, Readings)
    ensures counts { CountsFile
        (files_run F.holds F.finished files.now files.now (readings_in result.1))
        name.now result.0 }
{
    match files.open(name) {
        Ok(mut opened) => {
            let came = check(alloc, hashers, &mut opened.source);
            (Outcome::Counted(came), Readings::OfOne(opened.close()))
        }
        Err(error) => {
            let outcome = counting_failure(alloc, name, OpenError::from(error));
            (outcome, Readings::Nothing)
        }
    }
}

/// Compares the files of these names in the same way. Both are open before either is read.
pub fn run_same<F: Files, S: BuildHasher + Drop>(
    alloc: Global,
    hashers: Hashers<S>,
    other_hashers: Hashers<S>,
    files: &F,
    first: &str,
    second: &str,
) -> (Outcome, Readings)
    ensures compares { ComparesFiles
        (files_run F.holds F.finished files.now files.now (readings_in result.1))
        first.now second.now result.0 }
{
    let mut opened = match files.open(first) {
        Ok(opened) => opened,
        Err(error) => {
            let outcome = comparison_failure(alloc, Which::First, first, OpenError::from(error));
            return (outcome, Readings::Nothing);
        }
    };
    let mut other = match files.open(second) {
        Ok(other) => other,
        Err(error) => {
            let outcome = comparison_failure(alloc, Which::Second, second, OpenError::from(error));
            return (outcome, Readings::Nothing);
        }
    };
    let came = same(
        alloc,
        hashers,
        other_hashers,
        &mut opened.source,
        &mut other.source,
    );
    (
        Outcome::Compared(came),
        Readings::OfTwo(opened.close(), other.close()),
    )
}

/// If memory ran out for the name of one of two captures, that one is told.
fn comparison_failure(alloc: Global, which: Which, name: &str, error: OpenError) -> Outcome
    ensures { ReportsUnopened name.now error
        (Compared (Err (record { which = which; error = errors.Memory }))) result }
{
    let out_of_memory = SameError {
        which,
        error: Error::Memory,
    };
    open_failure(alloc, name, error, Outcome::Compared(Err(out_of_memory)))
}
