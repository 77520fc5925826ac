//! The command line.

ghost use Rattle.std.specs.Prelude.{◌≡◌, ◌∷◌, ℕ, [], IfErr, IfOk, List, OnOk, map, string_bytes};
ghost use Rattle.clap.specs.Words.{fault_of};
ghost use Rattle.line3.specs.Asked.{IsUsage, without_end};
ghost use Rattle.nfs3mask.specs.Grammar.{mask_app};
ghost use Rattle.nfs3mask.specs.MaskLine.{AreMaskWordsRefused, AsksForMask, IsMaskLine};

use crate::line::asked::MaskJob;
use crate::line::change::changed_ways;
use crate::line::grammar::command;
use line3::{LineFault, take_end, try_words, usage};
use std::alloc::{AllocError, Global};

/// Returns the job that a command line asks for: the names of a capture and of an output, and words that change
/// the usual mask. `words` are its words, the program's name first; of them the `--` that ends the options is
/// taken out.
///
/// # Errors
///
/// - `Usage` if the line has not this form, or asks for help. The text says so.
/// - `SameName` if the output is the input.
/// - `Memory` if memory ran out.
pub fn mask_job<'a>(alloc: Global, words: &'a mut Vec<String>) -> Result<MaskJob<'a>, LineFault>
    ensures asked { IfOk result (AsksForMask (map string_bytes words.old.items)) }
    ensures accepted { OnOk result (fault_of mask_app (map string_bytes words.old.items) ≡ []) }
    ensures refused { IfErr result (AreMaskWordsRefused (map string_bytes words.old.items)) }
{
    let command = match command(alloc) {
        Ok(command) => command,
        Err(_) => return Err(LineFault::Memory),
    };
    match try_words(alloc, command, words.as_slice()) {
        Ok(()) => {
            take_end(words, 1);
            mask_job_of(alloc, words.as_slice())
        }
        Err(fault) => Err(fault),
    }
}

/// Returns the job that the words of a line ask for, the program's name first. A `--` is not among them.
fn mask_job_of<'a>(alloc: Global, words: &'a [String]) -> Result<MaskJob<'a>, LineFault>
    ensures asked { (line : List (List ℕ)) → map string_bytes words.now ≡ without_end 1 line
        → IfOk result (AsksForMask line) }
    ensures refused { (line : List (List ℕ)) → map string_bytes words.now ≡ without_end 1 line
        → IfErr result (AreMaskWordsRefused line) }
{
    match words {
        [_, input, output, changes @ ..] => {
            of_two_files(alloc, input.as_str(), output.as_str(), changes)
        }
        _ => Err(usage(alloc)),
    }
}

/// Returns the job for the names of two files and words that change the mask.
fn of_two_files<'a>(
    alloc: Global,
    input: &'a str,
    output: &'a str,
    changes: &[String],
) -> Result<MaskJob<'a>, LineFault>
    ensures asked { let said = map string_bytes changes.now in (line : List (List ℕ))
        → IsMaskLine line (input.now ∷ output.now ∷ said) → IfOk result (AsksForMask line) }
    ensures refused { let said = map string_bytes changes.now in (line : List (List ℕ))
        → IsMaskLine line (input.now ∷ output.now ∷ said)
        → IfErr result (AreMaskWordsRefused line) }
{
    match changed_ways(changes) {
        Ok(_) if input == output => Err(LineFault::SameName),
        Ok(ways) => Ok(MaskJob {
            input,
            output,
            ways,
        }),
        Err(word) => Err(change_fault(alloc, word)),
    }
}

/// Returns the text for a word that changes no mask.
fn change_fault(alloc: Global, word: &str) -> LineFault
    ensures { IsUsage result }
{
    let text: Result<String, AllocError> = format!(in alloc;
        "error: '{word}' is not CLASS=WAY

  classes: times, stamps, machines, space, ids, fsids, cookies, cookieverfs,
           createverfs, owners, wcc, sillynames, raw
  ways: keep, zero, number

Usage: nfs3mask <IN> <OUT> [CLASS=WAY]...

For more information, try '--help'.
"
    );
    match text {
        Ok(text) => LineFault::Usage(text),
        Err(_) => LineFault::Memory,
    }
}
