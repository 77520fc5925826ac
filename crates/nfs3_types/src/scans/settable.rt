//! Attributes that a caller sets, passed to a visitor as they are read (RFC 1813, section 3.3.2).
#![tactic(auto, using(xdr3::proofs::Lemmas::Scans::ScanLemmas::scans), unfolding(crate::specs::machinery::AttributeTails::settable_times, xdr3::specs::Shape::optional_named, xdr3::specs::Item::called))]

ghost use Rattle.std.specs.Prelude.{IfErr, OnOk};
ghost use Rattle.nfs3_types.specs.machinery.AttributeTails.{settable_times};
ghost use Rattle.xdr3.specs.Scan.{Scans, Stops};
ghost use Rattle.xdr3.specs.Shape.{hyper, optional_named, word_named};

use crate::scans::time::{scan_time, scan_time_how};
use crate::values::settable::{Guard, Sattr};
use xdr3::{GetError, Input, Scan, Visit, scan_boolean, scan_hyper, scan_word};

/// Reads and visits an optional word (RFC 1813).
#[inline]
fn scan_set_word<V: Visit>(
    set: &'static str,
    name: &'static str,
    input: &mut Input,
    visitor: &mut V,
) -> Result<(), GetError>
    ensures ok { OnOk result
        (Scans V.stands (optional_named set.now (word_named name.now))
        (input.old, visitor.old) (input.new, visitor.new)) }
    ensures err { IfErr result
        (λ error. Stops (optional_named set.now (word_named name.now)) input.old error) }
{
    if scan_boolean(set, input, visitor)? {
        scan_word(name, input, visitor)?;
    }
    Ok(())
}

/// Reads and visits an optional hyper (RFC 1813).
#[inline]
fn scan_set_hyper<V: Visit>(
    set: &'static str,
    name: &'static str,
    input: &mut Input,
    visitor: &mut V,
) -> Result<(), GetError>
    ensures ok { OnOk result
        (Scans V.stands (optional_named set.now (hyper name.now))
        (input.old, visitor.old) (input.new, visitor.new)) }
    ensures err { IfErr result
        (λ error. Stops (optional_named set.now (hyper name.now)) input.old error) }
{
    if scan_boolean(set, input, visitor)? {
        scan_hyper(name, input, visitor)
    } else {
        Ok(())
    }
}

impl Scan for Sattr {
    ghost use Rattle.nfs3_types.specs.Shapes.{settable};

    ghost shape = { settable };

    #[tactic(auto, using(xdr3::proofs::Lemmas::Scans::ScanLemmas::scans, crate::proofs::AttributeTailLemmas::whole_settable), unfolding(crate::specs::Shapes::settable, xdr3::specs::Item::called))]
    fn scan<V: Visit>(input: &mut Input, visitor: &mut V) -> Result<(), GetError> {
        scan_set_word("set_mode", "mode", input, visitor)?;
        scan_set_word("set_uid", "uid", input, visitor)?;
        scan_set_word("set_gid", "gid", input, visitor)?;
        scan_set_hyper("set_size", "size", input, visitor)?;
        scan_settable_times(input, visitor)
    }
}

#[inline]
fn scan_settable_times<V: Visit>(input: &mut Input, visitor: &mut V) -> Result<(), GetError>
    ensures ok { OnOk result
        (Scans V.stands settable_times (input.old, visitor.old) (input.new, visitor.new)) }
    ensures err { IfErr result (λ error. Stops settable_times input.old error) }
{
    scan_time_how("set_atime", "atime_sec", "atime_nsec", input, visitor)?;
    scan_time_how("set_mtime", "mtime_sec", "mtime_nsec", input, visitor)
}

impl Scan for Guard {
    ghost use Rattle.nfs3_types.specs.Shapes.{guard};

    ghost shape = { guard };

    fn scan<V: Visit>(input: &mut Input, visitor: &mut V) -> Result<(), GetError> {
        if scan_boolean("check", input, visitor)? {
            scan_time("ctime_sec", "ctime_nsec", input, visitor)
        } else {
            Ok(())
        }
    }
}
