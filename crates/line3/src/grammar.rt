//! The grammar of a command line, which clap reads, and the help.

ghost use Rattle.std.specs.Prelude.{◌≡◌, IfOk, codes, false};
ghost use Rattle.clap.specs.Words.{app_of, rule_of};
ghost use Rattle.line3.specs.Grammar.{app, bare, file_rule, one_file, packing_form, streams_rule, two_files};

use clap::{Arg, Command};
use std::alloc::{AllocError, Global};

/// What stands below the list of the commands.
const ENDINGS: &str = "\
Exit status:
  0  success; for `same`: the captures are the same
  1  `same` only: the captures differ
  2  a capture is not valid; its first fault is printed with position and reason
  3  a file or device failed, or memory ran out
  4  the command line is wrong, or help was asked for

Captures are made from tcpdump or Wireshark recordings by tools/from_pcap.

Examples:
  nfs3canon check run.nfs3cap
  nfs3canon show run.nfs3cap | grep NFSPROC3_WRITE
  nfs3canon same before.nfs3cap after.nfs3cap
  nfs3canon canon run.nfs3cap reference.nfs3cap";

const CHECK: &str = "Check that every message is valid, and count them";

const CHECK_ENDINGS: &str = "\
Prints `ok connections=C calls=N replies=R handles=H`, where H is the number of
distinct file handles. If the capture is not valid, prints the position and
reason of its first fault on standard error, status 2:
  connection 2 server record 3 byte 24: BadBool
  file 12: BadMark
tools/explain shows what is at that position.";

const SHOW: &str = "Print one line for each message, with all its fields";

const SHOW_ENDINGS: &str = "\
Each line has the connection, the side, the record's number, the xid, the
procedure and then name=value for each field, as recorded. If the capture is not
valid, prints the messages before the fault, and the fault as `check` does,
status 2.";

const CANON: &str = "Write the canonical form of a capture";

const CANON_ENDINGS: &str = "\
Renumbers xids, file handles and write verifiers by first appearance. Two
captures that differ in nothing else have equal canonical forms, so a stored form
can be compared with later ones by cmp. Times, stamps and file ids are kept.
Prints the same line as `check`. OUT is written beside its name and gets the name
when it is complete; if anything fails before that, OUT is unchanged.";

const SAME: &str = "Compare two captures, ignoring xids, file handles and write verifiers";

const SAME_ENDINGS: &str = "\
Prints `same`, status 0, or the first record that differs, status 1:
  differ at connection 1 server record 7
Everything but xids, file handles and write verifiers is compared exactly,
including times, stamps and file ids. If a capture is not valid, prints its first
fault after `first: ` or `second: `, status 2.";

const PACK: &str = "Make a capture from the byte streams of TCP connections";

const PACK_ENDINGS: &str = "\
STREAMS are files, for each connection the bytes sent by the client and then
those sent by the server. Their contents are not checked. Prints nothing. If
anything fails, OUT is unchanged.";

/// Returns the argument that names a file. It is required.
pub fn file<'a>(alloc: Global, id: &'a str, help: &'a str) -> Arg<'a>
    ensures rule { rule_of result ≡ file_rule id.entry.now }
    ensures local { result.global ≡ false }
{
    Arg::new(alloc, id).required(true).help(help)
}

fn streams<'a>(alloc: Global) -> Arg<'a>
    ensures rule { rule_of result ≡ streams_rule }
    ensures local { result.global ≡ false }
{
    file(
        alloc,
        "STREAMS",
        "Client and server stream of each connection",
    )
    .num_args(1..)
}

fn of_one_file<'a>(
    alloc: Global,
    name: &'a str,
    about: &'a str,
    endings: &'a str,
) -> Result<Command<'a>, AllocError>
    ensures { IfOk result (λ c. app_of c ≡ one_file name.entry.now) }
{
    Command::new(alloc, name)
        .about(about)
        .after_help(endings)
        .arg(file(alloc, "FILE", "A capture file"))
}

fn rewriting<'a>(alloc: Global) -> Result<Command<'a>, AllocError>
    ensures { IfOk result (λ c. app_of c ≡ two_files (codes "canon") (codes "IN") (codes "OUT")) }
{
    Command::new(alloc, "canon")
        .about(CANON)
        .after_help(CANON_ENDINGS)
        .arg(file(alloc, "IN", "A capture file"))?
        .arg(file(alloc, "OUT", "The file to write"))
}

fn comparison<'a>(alloc: Global) -> Result<Command<'a>, AllocError>
    ensures { IfOk result (λ c. app_of c ≡ two_files (codes "same") (codes "A") (codes "B")) }
{
    Command::new(alloc, "same")
        .about(SAME)
        .after_help(SAME_ENDINGS)
        .arg(file(alloc, "A", "A capture file"))?
        .arg(file(alloc, "B", "A capture file"))
}

fn packing<'a>(alloc: Global) -> Result<Command<'a>, AllocError>
    ensures { IfOk result (λ c. app_of c ≡ packing_form) }
{
    Command::new(alloc, "pack")
        .about(PACK)
        .after_help(PACK_ENDINGS)
        .arg(file(alloc, "OUT", "The file to write"))?
        .arg(streams(alloc))
}

fn program<'a>(alloc: Global) -> Command<'a>
    ensures { app_of result ≡ bare }
{
    Command::new(alloc, "nfs3canon")
        .about("Check, list and compare recorded NFS version 3 and MOUNT version 3 traffic")
        .after_help(ENDINGS)
        .subcommand_required(true)
}

/// The program with its five commands.
pub fn command<'a>(alloc: Global) -> Result<Command<'a>, AllocError>
    ensures { IfOk result (λ c. app_of c ≡ app) }
{
    program(alloc)
        .subcommand(of_one_file(alloc, "check", CHECK, CHECK_ENDINGS)?)?
        .subcommand(of_one_file(alloc, "show", SHOW, SHOW_ENDINGS)?)?
        .subcommand(rewriting(alloc)?)?
        .subcommand(comparison(alloc)?)?
        .subcommand(packing(alloc)?)
}
