//! The command line.

ghost use Rattle.std.specs.Prelude.{◌≡◌, ◌≤◌, ◌∷◌, ℕ, List, [], IfErr, IfOk, OnOk, codes, length, map, string_bytes, true};
ghost use Rattle.clap.specs.Words.{HasMatchesOf, app_of, fault_of, is_simple_and_free, kind_of};
ghost use Rattle.line3.specs.Grammar.{app};
ghost use Rattle.line3.specs.Asked.{AreRefused, Asks, IsLine, IsRefusedBy, IsUsage, without_end};

use crate::asked::{Job, LineFault};
use crate::grammar::command;
use clap::error::ErrorKind;
use clap::{ArgMatches, Command};
use std::alloc::{AllocError, Global};

const END: &str = "--";

const NO_FORM: &str = "error: the line has none of the forms of the program\n";

/// Returns the job that a command line asks for. `words` are its words, the program's name first; of them the
/// `--` that ends the options is taken out.
///
/// # Errors
///
/// - `Usage` if the line has none of the forms, or asks for help, with the text that clap writes.
/// - `Odd` if a stream has no counterpart.
/// - `SameName` if the output is an input.
/// - `Memory` if memory ran out.
pub fn job<'a>(alloc: Global, words: &'a mut Vec<String>) -> Result<Job<'a>, LineFault>
    ensures asked { IfOk result (Asks (map string_bytes words.old.items)) }
    ensures accepted { OnOk result (fault_of app (map string_bytes words.old.items) ≡ []) }
    ensures refused { IfErr result (AreRefused (map string_bytes words.old.items)) }
{
    let command = match command(alloc) {
        Ok(command) => command,
        Err(_) => return Err(LineFault::Memory),
    };
    match try_words(alloc, command, words.as_slice()) {
        Ok(()) => {
            take_end(words, 2);
            job_of(alloc, words.as_slice())
        }
        Err(fault) => Err(fault),
    }
}

/// Returns an error if clap does not take these words as a line of `command`: the text that clap writes, or
/// that memory ran out. If the command is simple, and no argument has a rule on another, `Ok` is returned only
/// if clap finds no fault in the words.
pub fn try_words<'a>(
    alloc: Global,
    command: Command<'a>,
    words: &'a [String],
) -> Result<(), LineFault>
    ensures accepted { is_simple_and_free (app_of command.entry) ≡ true → OnOk result
        (fault_of (app_of command.entry) (map string_bytes words.entry.now) ≡ []) }
    ensures refused { IfErr result
        (IsRefusedBy (app_of command.entry) (map string_bytes words.entry.now)) }
{
    let _matches = try_matches(alloc, command, words)?;
    Ok(())
}

/// Returns what clap finds in these words as a line of `command`.
///
/// # Errors
///
/// As `try_words`.
pub fn try_matches<'a>(
    alloc: Global,
    command: Command<'a>,
    words: &'a [String],
) -> Result<ArgMatches<'a>, LineFault>
    ensures found { IfOk result
        (HasMatchesOf (app_of command.entry) (map string_bytes words.entry.now)) }
    ensures accepted { is_simple_and_free (app_of command.entry) ≡ true → OnOk result
        (fault_of (app_of command.entry) (map string_bytes words.entry.now) ≡ []) }
    ensures refused { IfErr result
        (IsRefusedBy (app_of command.entry) (map string_bytes words.entry.now)) }
{
    match command.try_get_matches_from(words) {
        Ok(matches) => Ok(matches),
        Err(error) => Err(line_fault_of(alloc, error)),
    }
}

/// Takes the first `--` out of the words, but for so many first ones. It ends the options of a line, and is
/// no name.
pub fn take_end(words: &mut Vec<String>, first: usize)
    ensures { map string_bytes words.new.items
        ≡ without_end first (map string_bytes words.old.items) }
{
    for place in first..words.len() {
        if words[place].as_str() == END {
            words.remove(place);
            return;
        }
    }
}

/// Returns the fault of a line that clap does not take: the text that clap writes, or that memory ran out.
fn line_fault_of(alloc: Global, error: clap::Error) -> LineFault
    ensures usage { IsUsage result }
    ensures memory { kind_of error ≡ ErrorKind.OutOfMemory → result ≡ LineFault.Memory }
{
    if error.kind() == ErrorKind::OutOfMemory {
        return LineFault::Memory;
    }
    let text: Result<String, AllocError> = format!(in alloc; "{error}");
    match text {
        Ok(text) => LineFault::Usage(text),
        Err(_) => LineFault::Memory,
    }
}

/// Returns the job that the words of a line ask for, the program's name first. A `--` is not among them.
fn job_of<'a>(alloc: Global, words: &'a [String]) -> Result<Job<'a>, LineFault>
    ensures asked { (line : List (List ℕ)) → map string_bytes words.now ≡ without_end 2 line
        → IfOk result (Asks line) }
    ensures refused { (line : List (List ℕ)) → map string_bytes words.now ≡ without_end 2 line
        → IfErr result (AreRefused line) }
{
    match words {
        [_, command, file] => of_one_file(alloc, command.as_str(), file.as_str()),
        [_, command, first, second] => {
            of_two_files(alloc, command.as_str(), first.as_str(), second.as_str())
        }
        [_, command, output, streams @ ..] => {
            of_streams(alloc, command.as_str(), output, streams)
        }
        _ => Err(usage(alloc)),
    }
}

/// A command and the name of a file.
fn of_one_file<'a>(alloc: Global, command: &str, file: &'a str) -> Result<Job<'a>, LineFault>
    ensures asked { (line : List (List ℕ))
        → IsLine line (command.now ∷ file.now ∷ []) → IfOk result (Asks line) }
    ensures refused { (line : List (List ℕ))
        → IsLine line (command.now ∷ file.now ∷ []) → IfErr result (AreRefused line) }
{
    match command {
        "check" => Ok(Job::Check(file)),
        "show" => Ok(Job::Show(file)),
        _ => Err(usage(alloc)),
    }
}

/// A command and the names of two files. Two names are an output and one stream, which is not enough.
fn of_two_files<'a>(
    alloc: Global,
    command: &str,
    first: &'a str,
    second: &'a str,
) -> Result<Job<'a>, LineFault>
    ensures asked { (line : List (List ℕ))
        → IsLine line (command.now ∷ first.now ∷ second.now ∷ []) → IfOk result (Asks line) }
    ensures refused { (line : List (List ℕ))
        → IsLine line (command.now ∷ first.now ∷ second.now ∷ []) → IfErr result (AreRefused line) }
{
    match command {
        "canon" => rewriting(first, second),
        "same" => Ok(Job::Same(first, second)),
        "pack" => Err(LineFault::Odd),
        _ => Err(usage(alloc)),
    }
}

/// A command, the name of an output, and at least two names of streams.
fn of_streams<'a>(
    alloc: Global,
    command: &str,
    output: &'a String,
    streams: &'a [String],
) -> Result<Job<'a>, LineFault>
    requires { 2 ≤ length streams.now }
    ensures asked { let names = map string_bytes streams.now in (line : List (List ℕ))
        → IsLine line (command.now ∷ string_bytes output.now ∷ names) → IfOk result (Asks line) }
    ensures refused { let names = map string_bytes streams.now in (line : List (List ℕ))
        → IsLine line (command.now ∷ string_bytes output.now ∷ names)
        → IfErr result (AreRefused line) }
{
    if command == "pack" {
        packing(output, streams)
    } else {
        Err(usage(alloc))
    }
}

fn rewriting<'a>(input: &'a str, output: &'a str) -> Result<Job<'a>, LineFault>
    ensures asked { (line : List (List ℕ))
        → IsLine line (codes "canon" ∷ input.now ∷ output.now ∷ []) → IfOk result (Asks line) }
    ensures refused { (line : List (List ℕ))
        → IsLine line (codes "canon" ∷ input.now ∷ output.now ∷ [])
        → IfErr result (AreRefused line) }
{
    if input == output {
        Err(LineFault::SameName)
    } else {
        Ok(Job::Canon(input, output))
    }
}

fn packing<'a>(output: &'a String, streams: &'a [String]) -> Result<Job<'a>, LineFault>
    requires { 2 ≤ length streams.now }
    ensures asked { let names = map string_bytes streams.now in (line : List (List ℕ))
        → IsLine line (codes "pack" ∷ string_bytes output.now ∷ names) → IfOk result (Asks line) }
    ensures refused { let names = map string_bytes streams.now in (line : List (List ℕ))
        → IsLine line (codes "pack" ∷ string_bytes output.now ∷ names)
        → IfErr result (AreRefused line) }
{
    if streams.len() % 2 != 0 {
        Err(LineFault::Odd)
    } else if streams.contains(output) {
        Err(LineFault::SameName)
    } else {
        Ok(Job::Pack(output.as_str(), streams))
    }
}

/// Returns the fault of a line that has none of the forms, though clap takes it.
pub fn usage(alloc: Global) -> LineFault
    ensures { IsUsage result }
{
    let text: Result<String, AllocError> = String::from_str(alloc, NO_FORM);
    match text {
        Ok(text) => LineFault::Usage(text),
        Err(_) => LineFault::Memory,
    }
}
