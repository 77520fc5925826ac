//! The grammar of a command line, which clap reads, and the help.

ghost use Rattle.std.specs.Prelude.{◌≡◌, IfOk, false};
ghost use Rattle.clap.specs.Words.{app_of, rule_of};
ghost use Rattle.nfs3mask.specs.Grammar.{changes_rule, mask_app};

use clap::{Arg, Command};
use line3::file;
use std::alloc::{AllocError, Global};

const ABOUT: &str =
    "Write a capture in which values are masked that two runs of one script never share";

/// What stands below the list of the arguments.
const ENDINGS: &str = "\
CLASS=WAY words change the usual mask, a later word for a class before an earlier
one. What happens to the values of a class:
  keep    they stay
  zero    they become 0; names of machines become empty
  number  each becomes its number by first appearance among those of its class;
          names and bodies have no numbers, and become what they are under zero

Classes, with their usual ways:
  times=zero          times of files, in attributes, guards and settings
  stamps=zero         stamps of AUTH_SYS credentials
  machines=zero       names of machines in AUTH_SYS credentials, and of hosts in
                      replies to MOUNT's DUMP
  space=zero          counts of free space, and the space that a file uses
  ids=number          file ids
  fsids=number        file system ids
  cookies=number      cookies of directories; 0 stays
  cookieverfs=number  cookie verifiers; 0 stays
  createverfs=number  verifiers of exclusive creates
  owners=keep         users and groups, in attributes, settings and credentials
  wcc=keep            sizes and counts of links, in replies, that others may change
                      meanwhile: in wcc_data, and of directories
  sillynames=zero     names that the Linux client gives to files that are removed
                      while they are open, .nfs and 24 digits: each digit becomes 0
  raw=keep            arguments and results of other programs and versions, which
                      are not checked: each byte becomes 0

Prints the line that `nfs3canon canon` prints, and then `masked` with the way of
every class. OUT is written beside its name and gets the name when it is complete;
if anything fails before that, OUT is unchanged.

Exit status:
  0  success
  2  the capture is not valid; its first fault is printed with position and reason
  3  a file or device failed, or memory ran out
  4  the command line is wrong, or help was asked for

Examples:
  nfs3mask before.nfs3cap b && nfs3mask after.nfs3cap a && nfs3canon same b a
  nfs3mask run.nfs3cap masked.nfs3cap times=keep owners=number";

fn changes<'a>(alloc: Global) -> Arg<'a>
    ensures rule { rule_of result ≡ changes_rule }
    ensures local { result.global ≡ false }
{
    Arg::new(alloc, "CLASS=WAY")
        .help("What becomes of the values of a class")
        .num_args(0..)
}

/// Returns the program.
pub(crate) fn command<'a>(alloc: Global) -> Result<Command<'a>, AllocError>
    ensures { IfOk result (λ c. app_of c ≡ mask_app) }
{
    Command::new(alloc, "nfs3mask")
        .about(ABOUT)
        .after_help(ENDINGS)
        .arg(file(alloc, "IN", "A capture file"))?
        .arg(file(alloc, "OUT", "The file to write"))?
        .arg(changes(alloc))
}
