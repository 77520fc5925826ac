//! The head of a reply, passed to a visitor as it is read (RFC 5531, section 9).
#![tactic(auto, using(xdr3::proofs::Lemmas::Scans::ScanLemmas::scans), unfolding(crate::specs::Shapes::accept, crate::specs::Shapes::deny, xdr3::specs::Item::called))]

ghost use Rattle.std.specs.Prelude.{◌≡◌, ◌+◌, ◌<◌, [], ◌∷◌, length, Err, IfErr, IfOk, OnOk};
ghost use Rattle.rpc_head.specs.HeadScan.{ScansReplyHead};
ghost use Rattle.rpc_head.specs.machinery.HeadEnds.{ScansAccept, auth_stats, denied_for};
ghost use Rattle.rpc_head.specs.machinery.HeadRuns.{ScansBeginning};
ghost use Rattle.rpc_head.specs.Shapes as shapes;
ghost use Rattle.xdr3.specs.Reading.{reading};
ghost use Rattle.xdr3.specs.Scan.{Scans, ScansWord, Stops, StopsWord};
ghost use Rattle.xdr3.specs.Item.{called};
ghost use Rattle.xdr3.specs.Shape.{is_listed};

use crate::scans::credential::scan_verf_body;
use crate::scans::word::{first_short, stop, word_in};
use crate::values::reply::Deny;
use xdr3::{GetError, Input, PlainField, Reason, Scan, Stop, Visit, scan_listed, scan_word};

/// The first words of an accepted reply's head.
const ACCEPTED: [PlainField; 2] = [
    PlainField::Word("reply_stat"),
    PlainField::Word("verf_flavor"),
];

/// The first words of a denied reply's head.
const DENIED: [PlainField; 2] = [
    PlainField::Word("reply_stat"),
    PlainField::Word("reject_stat"),
];

/// What the first words of a reply's head say.
#[derive(Clone, Copy)]
pub(crate) enum Beginning {
    Accepted,
    /// With its reject_stat.
    Denied(u32),
}

// The prover follows the name of a function, but not the letters of a long name of an item.

#[inline]
fn scan_accept_stat<V: Visit>(input: &mut Input, visitor: &mut V) -> Result<u32, GetError>
    ensures ok { IfOk result
        (λ n. ScansWord V.stands
        ((called "accept_stat"), is_listed (0 ∷ 1 ∷ 2 ∷ 3 ∷ 4 ∷ 5 ∷ []), Reason.BadEnum) n
        (input.old, visitor.old) (input.new, visitor.new)) }
    ensures err { IfErr result (λ error.
        StopsWord (is_listed (0 ∷ 1 ∷ 2 ∷ 3 ∷ 4 ∷ 5 ∷ [])) Reason.BadEnum input.old error) }
{
    scan_listed("accept_stat", &[0, 1, 2, 3, 4, 5], input, visitor)
}

#[inline]
fn scan_reject_stat<V: Visit>(input: &mut Input, visitor: &mut V) -> Result<u32, GetError>
    ensures ok { IfOk result
        (λ n. ScansWord V.stands
        ((called "reject_stat"), is_listed (0 ∷ 1 ∷ []), Reason.BadEnum) n
        (input.old, visitor.old) (input.new, visitor.new)) }
    ensures err { IfErr result
        (λ error. StopsWord (is_listed (0 ∷ 1 ∷ [])) Reason.BadEnum input.old error) }
{
    scan_listed("reject_stat", &[0, 1], input, visitor)
}

#[inline]
fn scan_auth_stat<V: Visit>(input: &mut Input, visitor: &mut V) -> Result<u32, GetError>
    ensures ok { IfOk result
        (λ n. ScansWord V.stands
        ((called "auth_stat"), is_listed auth_stats, Reason.BadEnum) n
        (input.old, visitor.old) (input.new, visitor.new)) }
    ensures err { IfErr result
        (λ error. StopsWord (is_listed auth_stats) Reason.BadEnum input.old error) }
{
    let words = [0, 1, 2, 3, 4, 5, 6, 7, 8, 9, 10, 11, 12, 13, 14];
    scan_listed("auth_stat", &words, input, visitor)
}

impl Scan for Deny {
    ghost use Rattle.rpc_head.specs.Shapes.{deny};

    ghost shape = { deny };

    fn scan<V: Visit>(input: &mut Input, visitor: &mut V) -> Result<(), GetError> {
        let reject_stat = scan_reject_stat(input, visitor)?;
        scan_denied(reject_stat, input, visitor)
    }
}

/// Reads and visits what follows a reject_stat.
fn scan_denied<V: Visit>(
    reject_stat: u32,
    input: &mut Input,
    visitor: &mut V,
) -> Result<(), GetError>
    ensures ok { OnOk result
        (Scans V.stands (denied_for reject_stat)
        (input.old, visitor.old) (input.new, visitor.new)) }
    ensures err { IfErr result (λ error. Stops (denied_for reject_stat) input.old error) }
{
    if reject_stat == 0 {
        scan_word("low", input, visitor)?;
        scan_word("high", input, visitor)?;
    } else {
        scan_auth_stat(input, visitor)?;
    }
    Ok(())
}

/// Reads the head of a reply, from its reply_stat up to the results, and passes its items to the
/// visitor. Returns whether results follow, as they do after an accepted success (RFC 5531, section
/// 9). After an error the contents of the visitor are unspecified.
///
/// # Errors
///
/// - `Stop` with the position and the reason of the first fault.
/// - `Memory` if the visitor fails.
#[tactic(auto, using(crate::proofs::HeadScanLemmas::replies))]
pub fn scan_reply_head<V: Visit>(input: &mut Input, visitor: &mut V) -> Result<bool, GetError>
    ensures ok { IfOk result
        (λ success. ScansReplyHead V.stands success
        (input.old, visitor.old) (input.new, visitor.new)) }
    ensures err { IfErr result (λ error. Stops shapes.reply_head input.old error) }
{
    match scan_beginning(input, visitor)? {
        Beginning::Accepted => {
            scan_verf_body(input, visitor)?;
            let stat = scan_accept(input, visitor)?;
            Ok(stat == 0)
        }
        Beginning::Denied(reject_stat) => {
            scan_denied(reject_stat, input, visitor)?;
            Ok(false)
        }
    }
}

/// Reads the first two words, and visits them at once.
#[inline(always)]
#[tactic(auto, using(crate::proofs::HeadRunLemmas::run_size_is), unfolding(xdr3::specs::Scan::Stops))]
fn scan_beginning<V: Visit>(input: &mut Input, visitor: &mut V) -> Result<Beginning, GetError>
    ensures ok { IfOk result
        (λ beginning. ScansBeginning V.stands beginning
        (input.old, visitor.old) (input.new, visitor.new)) }
    ensures err { IfErr result (λ error. Stops shapes.reply_head input.old error) }
{
    let at = input.at();
    let Some(run) = input.run(8) else {
        return Err(GetError::Stop(short_beginning(input)));
    };
    let reply_stat = word_in(run, 0);
    let second = word_in(run, 4);
    if reply_stat > 1 {
        return Err(stop(at, Reason::BadEnum));
    }
    if reply_stat == 1 {
        if second > 1 {
            return Err(stop(at + 4, Reason::BadEnum));
        }
        visitor.plain(&DENIED, run)?;
        return Ok(Beginning::Denied(second));
    }
    if second != 0 {
        return Err(stop(at + 4, Reason::Flavor));
    }
    visitor.plain(&ACCEPTED, run)?;
    Ok(Beginning::Accepted)
}

/// Returns the first fault of a head that ends before its second word does.
#[cold]
fn short_beginning(input: &mut Input) -> Stop
    requires { length input.old.body < input.old.at + 8 }
    ensures { reading shapes.reply_head input.old.body input.old.at ≡ Err result }
{
    match input.listed(&[0, 1]) {
        Ok(_) => first_short(input),
        Err(stop) => stop,
    }
}

/// Reads and visits what became of an accepted call, and returns its accept_stat (RFC 5531, section
/// 9).
#[inline(always)]
fn scan_accept<V: Visit>(input: &mut Input, visitor: &mut V) -> Result<u32, GetError>
    ensures ok { IfOk result
        (λ stat. ScansAccept V.stands stat (input.old, visitor.old) (input.new, visitor.new)) }
    ensures err { IfErr result (λ error. Stops shapes.accept input.old error) }
{
    let stat = scan_accept_stat(input, visitor)?;
    if stat != 2 {
        return Ok(stat);
    }
    scan_word("low", input, visitor)?;
    scan_word("high", input, visitor)?;
    Ok(stat)
}
