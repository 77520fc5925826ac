//! Credentials and verifiers, passed to a visitor as they are read (RFC 5531, sections 8.2 and 9,
//! appendix A).
#![tactic(auto, using(xdr3::proofs::Lemmas::Scans::ScanLemmas::scans), unfolding(crate::specs::Shapes::auth_sys, crate::specs::Shapes::credential, crate::specs::Shapes::verifier, xdr3::specs::Item::called))]

ghost use Rattle.std.specs.Prelude.{◌≤◌, [], ◌∷◌, IfErr, IfOk, OnOk};
ghost use Rattle.rpc_head.specs.Shapes as shapes;
ghost use Rattle.xdr3.specs.Scan.{Scans, ScansWord, Stops, StopsWord};
ghost use Rattle.rpc_head.specs.machinery.HeadEnds.{credential_of, owner};
ghost use Rattle.xdr3.specs.Item.{Text, Var, called};
ghost use Rattle.xdr3.specs.Named.{opaque, word};
ghost use Rattle.xdr3.specs.Shape.{is_listed, repeated};

use crate::scans::word::{first_short, scan_listed_or, stop, word_in};
use crate::values::credential::{AuthSys, Cred, Parameters, Verf};
use xdr3::{
    GetError, Input, PlainField, Reason, Scan, Visit, scan_plain, scan_sized, scan_text, scan_var,
    scan_word,
};

// The prover follows the name of a function, but not the letters of a long name of an item.

#[inline(always)]
fn scan_cred_flavor<V: Visit>(input: &mut Input, visitor: &mut V) -> Result<u32, GetError>
    ensures ok { IfOk result
        (λ n. ScansWord V.stands
        ((called "cred_flavor"), is_listed (0 ∷ 1 ∷ []), Reason.Flavor) n
        (input.old, visitor.old) (input.new, visitor.new)) }
    ensures err { IfErr result
        (λ error. StopsWord (is_listed (0 ∷ 1 ∷ [])) Reason.Flavor input.old error) }
{
    scan_listed_or("cred_flavor", &[0, 1], Reason::Flavor, input, visitor)
}

#[inline(always)]
fn scan_cred_body<V: Visit>(input: &mut Input, visitor: &mut V) -> Result<(), GetError>
    ensures ok { OnOk result
        (Scans V.stands (opaque Var "cred_body" 400)
        (input.old, visitor.old) (input.new, visitor.new)) }
    ensures err { IfErr result
        (λ error. Stops (opaque Var "cred_body" 400) input.old error) }
{
    scan_var("cred_body", 400, input, visitor)
}

#[inline(always)]
fn scan_machinename<V: Visit>(input: &mut Input, visitor: &mut V) -> Result<(), GetError>
    ensures ok { OnOk result
        (Scans V.stands (opaque Text "machinename" 255)
        (input.old, visitor.old) (input.new, visitor.new)) }
    ensures err { IfErr result
        (λ error. Stops (opaque Text "machinename" 255) input.old error) }
{
    scan_text("machinename", 255, input, visitor)
}

#[inline(always)]
fn scan_verf_flavor<V: Visit>(input: &mut Input, visitor: &mut V) -> Result<u32, GetError>
    ensures ok { IfOk result
        (λ n. ScansWord V.stands
        ((called "verf_flavor"), is_listed (0 ∷ []), Reason.Flavor) n
        (input.old, visitor.old) (input.new, visitor.new)) }
    ensures err { IfErr result
        (λ error. StopsWord (is_listed (0 ∷ [])) Reason.Flavor input.old error) }
{
    scan_listed_or("verf_flavor", &[0], Reason::Flavor, input, visitor)
}

#[inline(always)]
pub(crate) fn scan_verf_body<V: Visit>(input: &mut Input, visitor: &mut V) -> Result<(), GetError>
    ensures ok { OnOk result
        (Scans V.stands (opaque Var "verf_body" 400)
        (input.old, visitor.old) (input.new, visitor.new)) }
    ensures err { IfErr result
        (λ error. Stops (opaque Var "verf_body" 400) input.old error) }
{
    scan_var("verf_body", 400, input, visitor)
}

/// The user, the group and the number of further groups of a caller.
const OWNER: [PlainField; 3] = [
    PlainField::Word("uid"),
    PlainField::Word("gid"),
    PlainField::Word("gids"),
];

/// As many groups as a caller may have.
const GROUPS: [PlainField; 16] = [PlainField::Word("group"); 16];

/// Reads a caller's user, group and at most 16 further groups, and visits them in two runs (RFC
/// 5531, appendix A).
#[inline(always)]
#[tactic(auto, unfolding(xdr3::specs::Scan::Stops))]
fn scan_owner<V: Visit>(input: &mut Input, visitor: &mut V) -> Result<(), GetError>
    ensures ok { OnOk result
        (Scans V.stands owner (input.old, visitor.old) (input.new, visitor.new)) }
    ensures err { IfErr result (λ error. Stops owner input.old error) }
{
    let at = input.at();
    let Some(run) = input.run(12) else {
        return Err(GetError::Stop(first_short(input)));
    };
    let count = word_in(run, 8);
    if count > 16 {
        return Err(stop(at + 8, Reason::TooLong));
    }
    visitor.plain(&OWNER, run)?;
    scan_groups(count, input, visitor)
}

/// Reads as many groups, and visits them at once.
#[inline(always)]
fn scan_groups<V: Visit>(count: u32, input: &mut Input, visitor: &mut V) -> Result<(), GetError>
    requires { count ≤ 16 }
    ensures ok { OnOk result
        (Scans V.stands (repeated count (word "group")) (input.old, visitor.old)
        (input.new, visitor.new)) }
    ensures err { IfErr result (λ error. Stops (repeated count (word "group")) input.old error) }
{
    scan_plain(&GROUPS[..count as usize], 4 * count, input, visitor)
}

impl<'a> Scan for Parameters<'a> {
    ghost use Rattle.rpc_head.specs.Shapes.{parameters};

    ghost shape = { parameters };

    #[inline(always)]
    #[tactic(auto, using(xdr3::proofs::Lemmas::Scans::ScanLemmas::scans, crate::proofs::OwnerLemmas::whole_owners), unfolding(crate::specs::Shapes::parameters, xdr3::specs::Item::called))]
    fn scan<V: Visit>(input: &mut Input, visitor: &mut V) -> Result<(), GetError>
        ensures ok { OnOk result
            (Scans V.stands parameters (input.old, visitor.old) (input.new, visitor.new)) }
        ensures err { IfErr result (λ error. Stops parameters input.old error) }
    {
        scan_word("stamp", input, visitor)?;
        scan_machinename(input, visitor)?;
        scan_owner(input, visitor)
    }
}

impl<'a> Scan for AuthSys<'a> {
    ghost use Rattle.rpc_head.specs.Shapes.{auth_sys};

    ghost shape = { auth_sys };

    #[inline(always)]
    fn scan<V: Visit>(input: &mut Input, visitor: &mut V) -> Result<(), GetError>
        ensures ok { OnOk result
            (Scans V.stands auth_sys (input.old, visitor.old) (input.new, visitor.new)) }
        ensures err { IfErr result (λ error. Stops auth_sys input.old error) }
    {
        scan_sized::<Parameters, V>("cred_length", input, visitor)
    }
}

impl<'a> Scan for Cred<'a> {
    ghost use Rattle.rpc_head.specs.Shapes.{credential};

    ghost shape = { credential };

    #[inline(always)]
    fn scan<V: Visit>(input: &mut Input, visitor: &mut V) -> Result<(), GetError>
        ensures ok { OnOk result
            (Scans V.stands credential (input.old, visitor.old) (input.new, visitor.new)) }
        ensures err { IfErr result (λ error. Stops credential input.old error) }
    {
        let flavor = scan_cred_flavor(input, visitor)?;
        scan_credential(flavor, input, visitor)
    }
}

/// Reads what follows the flavor of a credential, and visits it.
#[inline(always)]
pub(crate) fn scan_credential<V: Visit>(
    flavor: u32,
    input: &mut Input,
    visitor: &mut V,
) -> Result<(), GetError>
    ensures ok { OnOk result
        (Scans V.stands (credential_of flavor) (input.old, visitor.old) (input.new, visitor.new)) }
    ensures err { IfErr result (λ error. Stops (credential_of flavor) input.old error) }
{
    if flavor == 0 {
        scan_cred_body(input, visitor)
    } else {
        AuthSys::scan(input, visitor)
    }
}

impl<'a> Scan for Verf<'a> {
    ghost use Rattle.rpc_head.specs.Shapes.{verifier};

    ghost shape = { verifier };

    #[inline(always)]
    fn scan<V: Visit>(input: &mut Input, visitor: &mut V) -> Result<(), GetError>
        ensures ok { OnOk result
            (Scans V.stands verifier (input.old, visitor.old) (input.new, visitor.new)) }
        ensures err { IfErr result (λ error. Stops verifier input.old error) }
    {
        scan_verf_flavor(input, visitor)?;
        scan_verf_body(input, visitor)
    }
}
