//! Words that are refused for a reason of their own, passed to a visitor as they are read, and words
//! of a run.

ghost use Rattle.std.specs.Prelude.{◌≡◌, ◌≤◌, ◌+◌, ◌-◌, length, drop, IfErr, IfOk};
ghost use Rattle.byteorder.specs.Endian.{big_number};
ghost use Rattle.rpc_head.specs.machinery.HeadRuns.{short_after};
ghost use Rattle.xdr3.specs.Scan.{ScansWord, StopsWord};
ghost use Rattle.xdr3.specs.Shape.{is_listed};

use crate::values::word::listed_or;
use byteorder::{BigEndian, ByteOrder};
use xdr3::{GetError, Input, Reason, Stop, Visit};

/// Reads a word that must be one of these, and visits it. Any other is refused for the given
/// reason.
#[inline]
#[tactic(auto, unfolding(xdr3::specs::Scan::ScansWord, xdr3::specs::Scan::StopsWord))]
pub(crate) fn scan_listed_or<V: Visit>(
    name: &'static str,
    words: &[u32],
    reason: Reason,
    input: &mut Input,
    visitor: &mut V,
) -> Result<u32, GetError>
    ensures ok { IfOk result
        (λ n. ScansWord V.stands (name.now, is_listed words.now, reason) n
        (input.old, visitor.old) (input.new, visitor.new)) }
    ensures err { IfErr result (λ error. StopsWord (is_listed words.now) reason input.old error) }
{
    let n = listed_or(input, words, reason)?;
    visitor.word(name, n)?;
    Ok(n)
}

/// Returns the word at a byte of a run.
#[inline(always)]
pub(crate) fn word_in(run: &[u8], at: usize) -> u32
    requires { at + 4 ≤ length run.now }
    ensures { result ≡ big_number 4 (drop at run.now) }
{
    BigEndian::read_u32(&run[at..])
}

/// Returns the stop at the first word that is not whole, if nothing but words is left.
pub(crate) fn first_short(input: &Input) -> Stop
    ensures { result ≡ short_after input.now.at (length input.now.body - input.now.at) }
{
    Stop {
        at: input.at() + input.left() / 4 * 4,
        reason: Reason::Short,
    }
}

/// Returns the error of a stop.
pub(crate) fn stop(at: u32, reason: Reason) -> GetError
    ensures { result ≡ GetError.Stop (record { at = at; reason = reason }) }
{
    GetError::Stop(Stop { at, reason })
}
