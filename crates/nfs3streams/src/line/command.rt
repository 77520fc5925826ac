//! The command line.

ghost use Rattle.std.specs.Prelude.{◌≡◌, [], ℕ, List, IfErr, IfOk, OnOk, codes, map, string_bytes};
ghost use Rattle.clap.specs.Words.{fault_of, found_of, rows_of};
ghost use Rattle.nfs3streams.specs.Grammar.{streams_app};
ghost use Rattle.nfs3streams.specs.Ports.{AreAllPorts};
ghost use Rattle.nfs3streams.specs.StreamsLine.{AreStreamsWordsRefused, AsksForStreams, IsJobIn, IsRefusedIn, IsUsageUnless, values_named, wanted_in};

use crate::line::asked::{StreamsJob, Wanted};
use crate::line::grammar::command;
use crate::line::ports::ports_named;
use clap::ArgMatches;
use line3::{LineFault, try_matches, usage};
use std::alloc::Global;

/// Returns the job that a command line asks for. `words` are its words, the program's name first.
///
/// # Errors
///
/// - `Usage` if clap does not take the line, if it asks for help, or if a word names no ports.
/// - `SameName` if the output is the recording.
/// - `Memory` if memory ran out.
pub fn streams_job<'a>(alloc: Global, words: &'a [String]) -> Result<StreamsJob<'a>, LineFault>
    ensures asked { IfOk result (AsksForStreams (map string_bytes words.entry.now)) }
    ensures accepted { OnOk result (fault_of streams_app (map string_bytes words.entry.now) ≡ []) }
    ensures refused { IfErr result (AreStreamsWordsRefused (map string_bytes words.entry.now)) }
{
    let command = match command(alloc) {
        Ok(command) => command,
        Err(_) => return Err(LineFault::Memory),
    };
    match try_matches(alloc, command, words) {
        Ok(matches) => job_found(alloc, &matches),
        Err(fault) => Err(fault),
    }
}

/// Returns the job of what clap found.
fn job_found<'a>(alloc: Global, matches: &ArgMatches<'a>) -> Result<StreamsJob<'a>, LineFault>
    ensures asked { IfOk result (IsJobIn (rows_of (found_of matches.now))) }
    ensures refused { IfErr result (IsRefusedIn (rows_of (found_of matches.now))) }
{
    let (recording, output) = match (matches.get_str("RECORDING"), matches.get_str("OUT")) {
        (Some(recording), Some(output)) => (recording, output),
        _ => return Err(usage(alloc)),
    };
    if recording == output {
        return Err(LineFault::SameName);
    }
    match ports_found(alloc, matches) {
        Ok(ports) => Ok(StreamsJob {
            recording,
            output,
            wanted: wanted(matches),
            ports,
        }),
        Err(fault) => Err(fault),
    }
}

/// Returns what is to be written, by what clap found.
fn wanted(matches: &ArgMatches<'_>) -> Wanted
    ensures { result ≡ wanted_in (rows_of (found_of matches.now)) }
{
    if matches.get_count("index") > 0 {
        Wanted::Index
    } else {
        Wanted::Capture
    }
}

/// Returns the ports of what clap found.
fn ports_found(alloc: Global, matches: &ArgMatches<'_>) -> Result<Vec<u16>, LineFault>
    ensures ok { IfOk result (λ ports. AreAllPorts
        (values_named (codes "PORT") (rows_of (found_of matches.now))) ports.items) }
    ensures err { IfErr result (IsUsageUnless ((ports : List ℕ) × AreAllPorts
        (values_named (codes "PORT") (rows_of (found_of matches.now))) ports)) }
{
    match matches.get_strs("PORT") {
        Some(words) => ports_named(alloc, words),
        None => Ok(Vec::new(alloc)),
    }
}
