//! The grammar of a command line, which clap reads, and the help.

ghost use Rattle.std.specs.Prelude.{◌≡◌, IfOk, false};
ghost use Rattle.clap.specs.Words.{app_of, rule_of, with_rule};
ghost use Rattle.nfs3streams.specs.Grammar.{index_rule, port_rule, streams_app};

use clap::{Arg, ArgAction, Command};
use line3::file;
use std::alloc::{AllocError, Global};

const ABOUT: &str = "Write a capture of the connections of a recording of packets, or an index";

/// What stands below the list of the arguments.
const ENDINGS: &str = "\
RECORDING is a file in the format pcap or pcapng, as tcpdump and Wireshark write
it. It is read twice, so it must be a regular file. OUT gets exactly the bytes
that both ends sent of each chosen connection that is whole; it is written beside
its name and gets the name when it is complete.

With --index OUT gets an index in place of the capture: all frames, and where the
bytes of all connections lie, whole or not. What is printed is the same.

Chosen are connections that use one of the ports of --port. Without it these are
the ports 2049, 20048 and 111, and each other connection whose client first sends
a call of RPC.

Prints one line for the recording, and one for each chosen connection that is not
whole, with what is wrong with it:
  frames=9 segments=9 unknown_link=0 .. bad_tcp=0 connections=1 packed=1
  connection 3 client: 1448 bytes are missing after 2896, frame 17

Exit status:
  0  each chosen connection is whole, and the recording was read to its end
  2  it is not so, or the file is no recording, or a limit was passed
  3  a file or device failed, or memory ran out
  4  the command line is wrong, or help was asked for

Examples:
  nfs3streams run.pcap run.nfs3cap && nfs3canon check run.nfs3cap
  nfs3streams --port 20490 run.pcap run.nfs3cap
  nfs3streams --index run.pcap run.nfs3idx";

fn index<'a>(alloc: Global) -> Arg<'a>
    ensures rule { rule_of result ≡ index_rule }
    ensures local { result.global ≡ false }
{
    Arg::new(alloc, "index")
        .long("index")
        .action(ArgAction::Count)
        .help("Writes an index of the recording, in place of a capture")
}

fn port<'a>(alloc: Global) -> Arg<'a>
    ensures rule { rule_of result ≡ port_rule }
    ensures local { result.global ≡ false }
{
    Arg::new(alloc, "PORT")
        .long("port")
        .action(ArgAction::Append)
        .value_name("PORT,..")
        .help("Chooses the connections that use one of these ports")
}

/// Adds the options.
fn with_options<'a>(alloc: Global, command: Command<'a>) -> Result<Command<'a>, AllocError>
    ensures { IfOk result (λ c. app_of c
        ≡ with_rule (with_rule (app_of command.entry) index_rule) port_rule) }
{
    command.arg(index(alloc))?.arg(port(alloc))
}

/// Returns the program.
pub(crate) fn command<'a>(alloc: Global) -> Result<Command<'a>, AllocError>
    ensures { IfOk result (λ c. app_of c ≡ streams_app) }
{
    let program = Command::new(alloc, "nfs3streams")
        .about(ABOUT)
        .after_help(ENDINGS);
    with_options(alloc, program)?
        .arg(file(alloc, "RECORDING", "A recording of packets"))?
        .arg(file(alloc, "OUT", "The file to write"))
}
