//! Texts that are masked: names that the Linux client makes up, and names of hosts.

ghost use Rattle.std.specs.Prelude.{◌≡◌, ◌≤◌, length};
ghost use Rattle.std.specs.List.{list_all};
ghost use Rattle.masking3.specs.Texts.{host_by, is_silly_digit, is_silly_name, silly_by, text_by, zero_name};

use crate::values::class::Class;
use crate::values::ways::{Way, Ways};

/// The name of a removed file with each digit 0.
const SILLY_ZERO: [u8; 28] = *b".nfs000000000000000000000000";

/// Returns whether all bytes are hexadecimal digits in lower case.
fn are_digits(bytes: &[u8]) -> bool
    ensures { result ≡ list_all is_silly_digit bytes.now }
{
    bytes
        .iter()
        .all(|&byte| matches!(byte, b'0'..=b'9' | b'a'..=b'f'))
}

/// Returns whether the name is that of a file which was removed while it was open.
fn is_silly_name(bytes: &[u8]) -> bool
    ensures { result ≡ is_silly_name bytes.now }
{
    bytes.len() == SILLY_ZERO.len() && bytes.starts_with(b".nfs") && are_digits(&bytes[4..])
}

/// Returns the name with each digit 0, if it is that of such a file.
fn zero_name(bytes: &[u8]) -> &[u8]
    ensures { result.now ≡ zero_name bytes.now }
{
    if is_silly_name(bytes) {
        &SILLY_ZERO
    } else {
        bytes
    }
}

/// Returns what the way makes of the name of a file.
fn file_name(way: Way, bytes: &[u8]) -> &[u8]
    ensures { result.now ≡ silly_by way bytes.now }
{
    match way {
        Way::Keep => bytes,
        Way::Zero | Way::Number => zero_name(bytes),
    }
}

/// Returns what the way makes of the name of a host.
fn host_name(way: Way, bytes: &[u8]) -> &[u8]
    ensures { result.now ≡ host_by way bytes.now }
{
    match way {
        Way::Keep => bytes,
        Way::Zero | Way::Number => &[],
    }
}

/// Returns what is written for a text of this name. It has no more bytes than the text.
#[tactic(auto, unfolding(xdr3::specs::Item::called))]
pub(crate) fn masked_text<'a>(ways: &Ways, name: &str, bytes: &'a [u8]) -> &'a [u8]
    ensures masked { result.now ≡ text_by ways.now name.now bytes.now }
    ensures within { length result.now ≤ length bytes.now }
{
    match name {
        "name" => file_name(ways.way(Class::SillyNames), bytes),
        "hostname" => host_name(ways.way(Class::Machines), bytes),
        _ => bytes,
    }
}
