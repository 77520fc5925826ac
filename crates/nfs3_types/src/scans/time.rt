//! Times, passed to a visitor as they are read (RFC 1813).
#![tactic(auto, using(xdr3::proofs::Lemmas::Scans::ScanLemmas::scans), unfolding(crate::specs::Shapes::time_named, crate::specs::Shapes::time_how_named))]

ghost use Rattle.std.specs.Prelude.{IfErr, OnOk};
ghost use Rattle.nfs3_types.specs.Shapes as shapes;
ghost use Rattle.xdr3.specs.Scan.{Scans, Stops};

use xdr3::{GetError, Input, Visit, scan_listed, scan_word};

/// Reads and visits a time: `nfstime3` (RFC 1813). Its words are named after the time
/// that it is.
#[inline]
pub(crate) fn scan_time<V: Visit>(
    sec: &'static str,
    nsec: &'static str,
    input: &mut Input,
    visitor: &mut V,
) -> Result<(), GetError>
    ensures ok { OnOk result
        (Scans V.stands (shapes.time_named sec.now nsec.now)
        (input.old, visitor.old) (input.new, visitor.new)) }
    ensures err { IfErr result
        (λ error. Stops (shapes.time_named sec.now nsec.now) input.old error) }
{
    scan_word(sec, input, visitor)?;
    scan_word(nsec, input, visitor)?;
    Ok(())
}

/// Reads and visits how a time is set, and the time if the word is 2 (RFC 1813).
#[inline]
pub(crate) fn scan_time_how<V: Visit>(
    how: &'static str,
    sec: &'static str,
    nsec: &'static str,
    input: &mut Input,
    visitor: &mut V,
) -> Result<(), GetError>
    ensures ok { OnOk result
        (Scans V.stands (shapes.time_how_named how.now sec.now nsec.now)
        (input.old, visitor.old) (input.new, visitor.new)) }
    ensures err { IfErr result
        (λ error. Stops (shapes.time_how_named how.now sec.now nsec.now) input.old error) }
{
    if scan_listed(how, &[0, 1, 2], input, visitor)? == 2 {
        scan_time(sec, nsec, input, visitor)
    } else {
        Ok(())
    }
}
