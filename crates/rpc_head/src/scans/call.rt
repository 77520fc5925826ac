//! The head of a call, passed to a visitor as it is read (RFC 5531, section 9).

ghost use Rattle.std.specs.Prelude.{◌≡◌, ◌+◌, ◌<◌, length, Err, IfErr, IfOk};
ghost use Rattle.rpc_head.specs.HeadScan.{ScansCallHead};
ghost use Rattle.rpc_head.specs.machinery.HeadRuns.{ScansOpening, opening_in};
ghost use Rattle.rpc_head.specs.Shapes as shapes;
ghost use Rattle.xdr3.specs.Reading.{reading};
ghost use Rattle.xdr3.specs.Scan.{Stops};

use crate::scans::credential::scan_credential;
use crate::scans::word::{first_short, stop, word_in};
use crate::values::call::ProcId;
use crate::values::credential::Verf;
use crate::values::word::listed_or;
use xdr3::{GetError, Input, PlainField, Reason, Scan, Stop, Visit};

/// The words from the RPC version to the credential's flavor.
const OPENING: [PlainField; 5] = [
    PlainField::Word("rpcvers"),
    PlainField::Word("prog"),
    PlainField::Word("vers"),
    PlainField::Word("proc"),
    PlainField::Word("cred_flavor"),
];

/// What these words say.
#[derive(Clone, Copy)]
pub(crate) struct Opening {
    pub(crate) id: ProcId,
    pub(crate) flavor: u32,
}

/// Reads the head of a call, from the RPC version to the verifier, passes its items to the visitor,
/// and returns its procedure (RFC 5531, section 9). After an error the contents of the visitor are
/// unspecified.
///
/// # Errors
///
/// - `Stop` with the position and the reason of the first fault.
/// - `Memory` if the visitor fails.
#[tactic(auto, using(crate::proofs::HeadRunLemmas::heads))]
pub fn scan_call_head<V: Visit>(input: &mut Input, visitor: &mut V) -> Result<ProcId, GetError>
    ensures ok { IfOk result
        (λ id. ScansCallHead V.stands id (input.old, visitor.old) (input.new, visitor.new)) }
    ensures err { IfErr result (λ error. Stops shapes.call_head input.old error) }
{
    let opening = scan_opening(input, visitor)?;
    scan_credential(opening.flavor, input, visitor)?;
    Verf::scan(input, visitor)?;
    Ok(opening.id)
}

/// Reads the words up to the credential's flavor, and visits them at once.
#[inline(always)]
#[tactic(auto, using(crate::proofs::HeadRunLemmas::stops_at, crate::proofs::HeadRunLemmas::run_size_is), unfolding(xdr3::specs::Scan::Stops))]
fn scan_opening<V: Visit>(input: &mut Input, visitor: &mut V) -> Result<Opening, GetError>
    ensures ok { IfOk result (λ opening. ScansOpening V.stands opening input.old input.new
        visitor.old visitor.new) }
    ensures err { IfErr result (λ error. Stops shapes.call_head input.old error) }
{
    let at = input.at();
    let Some(run) = input.run(20) else {
        return Err(GetError::Stop(short_opening(input)));
    };
    let opening = opening_in(run);
    if word_in(run, 0) != 2 {
        return Err(stop(at, Reason::RpcVersion));
    }
    if opening.flavor > 1 {
        return Err(stop(at + 16, Reason::Flavor));
    }
    visitor.plain(&OPENING, run)?;
    Ok(opening)
}

/// Returns what these words say, whatever the first of them is.
#[inline(always)]
#[tactic(auto, unfolding(crate::specs::machinery::HeadRuns::opening_in))]
fn opening_in(run: &[u8]) -> Opening
    requires { length run.now ≡ 20 }
    ensures { result ≡ opening_in run.now }
{
    Opening {
        id: ProcId {
            prog: word_in(run, 4),
            vers: word_in(run, 8),
            proc_no: word_in(run, 12),
        },
        flavor: word_in(run, 16),
    }
}

/// Returns the first fault of a head that ends before the credential's flavor does.
#[cold]
fn short_opening(input: &mut Input) -> Stop
    requires { length input.old.body < input.old.at + 20 }
    ensures { reading shapes.call_head input.old.body input.old.at ≡ Err result }
{
    match listed_or(input, &[2], Reason::RpcVersion) {
        Ok(_) => first_short(input),
        Err(stop) => stop,
    }
}
