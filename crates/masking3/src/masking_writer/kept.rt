//! Words that stay as they are, and after which the spot is the same.

ghost use Rattle.std.specs.Prelude.{◌≡◌};
ghost use Rattle.std.specs.List.{list_all};
ghost use Rattle.masking3.specs.machinery.KnownFields.{is_free_name, is_kept_field, is_kept_name};

use crate::values::ways::Way;
use xdr3::PlainField;

/// Returns whether the length and the first letter tell that a word of this name has no class, and is neither an
/// mtype, a `type` nor a `before`. Most words of heads are so.
#[inline(always)]
pub(crate) fn is_free_name(name: &str) -> bool
    ensures { result ≡ is_free_name name.now }
{
    let letters = name.as_bytes();
    match letters.len() {
        3 => letters[0] == b'x',
        4 => letters[0] != b't',
        6 => letters[0] != b'b',
        7 | 11 => true,
        10 => letters[0] == b'r',
        _ => false,
    }
}

/// Returns whether a word of this name stays, if this becomes of users and groups. It may miss some.
#[inline(always)]
#[tactic(auto, unfolding(xdr3::specs::Item::called))]
fn is_kept_name(owners: Way, name: &str) -> bool
    ensures { result ≡ is_kept_name owners name.now }
{
    match name {
        "uid" | "gid" | "group" => matches!(owners, Way::Keep),
        _ => is_free_name(name),
    }
}

#[inline(always)]
fn is_kept(owners: Way, field: PlainField) -> bool
    ensures { result ≡ is_kept_field owners field }
{
    match field {
        PlainField::Word(name) => is_kept_name(owners, name),
        PlainField::Hyper(_) => false,
    }
}

/// Returns whether all of these are words that stay, if this becomes of users and groups. It may miss some.
/// Heads have two, three or five of them.
#[inline(always)]
pub(crate) fn are_kept(owners: Way, fields: &[PlainField]) -> bool
    ensures { result ≡ list_all (is_kept_field owners) fields.now }
{
    match *fields {
        [a, b] => is_kept(owners, a) && is_kept(owners, b),
        [a, b, c] => is_kept(owners, a) && is_kept(owners, b) && is_kept(owners, c),
        [a, b, c, d, e] => is_kept(owners, a)
            && is_kept(owners, b)
            && is_kept(owners, c)
            && is_kept(owners, d)
            && is_kept(owners, e),
        _ => fields.iter().all(|field| is_kept(owners, *field)),
    }
}
