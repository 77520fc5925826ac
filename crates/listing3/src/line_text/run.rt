//! Text of runs of words and hypers, written into a buffer.

ghost use Rattle.std.specs.Prelude.{◌≡◌, ◌≤◌, ◌+◌, ◌*◌, ◌++◌, length, take, decimal, vec_len, IfOk, IsTrue, OnErr};
ghost use Rattle.std.specs.List.{All};
ghost use Rattle.xdr3.specs.Plain.{plain_item, run_items, run_size, width};
ghost use Rattle.listing3.specs.Listing.{opening, shown_item, shown_items};
ghost use Rattle.listing3.specs.machinery.Fields.{field_name, HasFields, HasShortName, PutsFields};
ghost use Rattle.listing3.specs.machinery.PutsBytes.{PutsBytes};

use crate::line_text::decimal::{DIGITS, put_number};
use byteorder::{BigEndian, ByteOrder};
use std::alloc::AllocError;
use xdr3::PlainField;
use xdr3::room::make_room;

/// How many bytes a short name has at most.
const SHORT: usize = 42;

/// How many bytes the text of a field with a short name has at most.
const FIELD: usize = 64;

/// Writes ` name=value` for each field of a run, and makes the buffer longer as it goes. A caller's run
/// is a constant, and the runs of a few lengths are written without a loop, so that their names become
/// constants too.
#[inline(always)]
pub(crate) fn put_run(
    room: &mut Vec<u8>,
    at: usize,
    fields: &[PlainField],
    bytes: &[u8],
) -> Result<usize, AllocError>
    requires at { at ≤ vec_len room.old }
    requires size { length bytes.now ≡ run_size fields.now }
    ensures within { IfOk result (λ end. end ≤ vec_len room.new) }
    ensures ok { IfOk result (λ end. take end room.new.items
        ≡ take at room.old.items ++ shown_items (run_items fields.now bytes.now)) }
    ensures err { OnErr result (take at room.new.items ≡ take at room.old.items) }
    ensures len { vec_len room.old ≤ vec_len room.new }
{
    if !are_short(fields) {
        return put_each(room, at, fields, bytes);
    }
    match fields.len() {
        2 => {
            make_room(room, at, 2 * FIELD)?;
            Ok(put_two_fields(room, at, fields, bytes).0)
        }
        3 => {
            make_room(room, at, 3 * FIELD)?;
            Ok(put_three_fields(room, at, fields, bytes).0)
        }
        5 => {
            make_room(room, at, 5 * FIELD)?;
            Ok(put_five_fields(room, at, fields, bytes).0)
        }
        16 => {
            make_room(room, at, 16 * FIELD)?;
            Ok(put_sixteen_fields(room, at, fields, bytes).0)
        }
        _ => put_each(room, at, fields, bytes),
    }
}

/// Writes ` name=value` for each field of a run, one after another.
fn put_each(
    room: &mut Vec<u8>,
    at: usize,
    fields: &[PlainField],
    bytes: &[u8],
) -> Result<usize, AllocError>
    requires at { at ≤ vec_len room.old }
    requires size { length bytes.now ≡ run_size fields.now }
    ensures within { IfOk result (λ end. end ≤ vec_len room.new) }
    ensures ok { IfOk result (λ end. take end room.new.items
        ≡ take at room.old.items ++ shown_items (run_items fields.now bytes.now)) }
    ensures err { OnErr result (take at room.new.items ≡ take at room.old.items) }
    ensures len { vec_len room.old ≤ vec_len room.new }
{
    let mut end = at;
    let mut rest = bytes;
    for field in fields {
        let (name, n, width) = number_in(*field, rest);
        make_room(room, end, name.len() + 2 + DIGITS)?;
        end = put_number(room, end, name, n);
        rest = &rest[width..];
    }
    Ok(end)
}

/// Returns whether no name of a run has more than `SHORT` bytes.
#[inline(always)]
fn are_short(fields: &[PlainField]) -> bool
    ensures { IsTrue result → All HasShortName fields.now }
{
    let mut short = true;
    for field in fields {
        short &= field_name(*field).len() <= SHORT;
    }
    short
}

#[inline(always)]
fn field_name(field: PlainField) -> &'static str
    ensures { result.now ≡ field_name field }
{
    match field {
        PlainField::Word(name) | PlainField::Hyper(name) => name,
    }
}

/// Writes ` name=value` for a field with a short name. Returns the position after it, and how many of
/// the bytes it has.
#[inline]
fn put_field(room: &mut [u8], at: usize, field: PlainField, bytes: &[u8]) -> (usize, usize)
    requires short { HasShortName field }
    requires size { width field ≤ length bytes.now }
    requires room { at + FIELD ≤ length room.old }
    ensures within { result.0 ≤ at + FIELD }
    ensures size { result.1 ≡ width field }
    ensures puts { PutsBytes room.old room.new at result.0
        (shown_item (plain_item field bytes.now)) }
{
    let (name, n, size) = number_in(field, bytes);
    (put_number(room, at, name, n), size)
}

// A function for each number of fields, without a loop: in a loop no name would be a constant.

/// Writes ` name=value` for the only field of a run, as `put_field` does.
#[inline(always)]
fn put_one_field(room: &mut [u8], at: usize, fields: &[PlainField], bytes: &[u8]) -> (usize, usize)
    requires fields { HasFields 1 fields.now bytes.now }
    requires room { at + FIELD ≤ length room.old }
    ensures { PutsFields 1 fields.now bytes.now (room.old, room.new) at result }
{
    put_field(room, at, fields[0], bytes)
}

/// Writes ` name=value` for each of two fields with short names. Returns the position after them, and
/// how many of the bytes they have.
#[inline(always)]
fn put_two_fields(room: &mut [u8], at: usize, fields: &[PlainField], bytes: &[u8]) -> (usize, usize)
    requires fields { HasFields 2 fields.now bytes.now }
    requires room { at + 2 * FIELD ≤ length room.old }
    ensures { PutsFields 2 fields.now bytes.now (room.old, room.new) at result }
{
    let (end, size) = put_field(room, at, fields[0], bytes);
    let (last, more) = put_field(room, end, fields[1], &bytes[size..]);
    (last, size + more)
}

/// Writes ` name=value` for each of three fields with short names. Returns the position after them, and
/// how many of the bytes they have.
#[inline(always)]
fn put_three_fields(
    room: &mut [u8],
    at: usize,
    fields: &[PlainField],
    bytes: &[u8],
) -> (usize, usize)
    requires fields { HasFields 3 fields.now bytes.now }
    requires room { at + 3 * FIELD ≤ length room.old }
    ensures { PutsFields 3 fields.now bytes.now (room.old, room.new) at result }
{
    let (end, size) = put_two_fields(room, at, &fields[..2], bytes);
    let (last, more) = put_field(room, end, fields[2], &bytes[size..]);
    (last, size + more)
}

/// Writes ` name=value` for each of four fields with short names. Returns the position after them, and
/// how many of the bytes they have.
#[inline(always)]
fn put_four_fields(
    room: &mut [u8],
    at: usize,
    fields: &[PlainField],
    bytes: &[u8],
) -> (usize, usize)
    requires fields { HasFields 4 fields.now bytes.now }
    requires room { at + 4 * FIELD ≤ length room.old }
    ensures { PutsFields 4 fields.now bytes.now (room.old, room.new) at result }
{
    let (end, size) = put_two_fields(room, at, &fields[..2], bytes);
    let (last, more) = put_two_fields(room, end, &fields[2..], &bytes[size..]);
    (last, size + more)
}

/// Writes ` name=value` for each of five fields with short names. Returns the position after them, and
/// how many of the bytes they have.
#[inline(always)]
fn put_five_fields(
    room: &mut [u8],
    at: usize,
    fields: &[PlainField],
    bytes: &[u8],
) -> (usize, usize)
    requires fields { HasFields 5 fields.now bytes.now }
    requires room { at + 5 * FIELD ≤ length room.old }
    ensures { PutsFields 5 fields.now bytes.now (room.old, room.new) at result }
{
    let (end, size) = put_four_fields(room, at, &fields[..4], bytes);
    let (last, more) = put_one_field(room, end, &fields[4..], &bytes[size..]);
    (last, size + more)
}

/// Writes ` name=value` for each of eight fields with short names. Returns the position after them, and
/// how many of the bytes they have.
#[inline(always)]
fn put_eight_fields(
    room: &mut [u8],
    at: usize,
    fields: &[PlainField],
    bytes: &[u8],
) -> (usize, usize)
    requires fields { HasFields 8 fields.now bytes.now }
    requires room { at + 8 * FIELD ≤ length room.old }
    ensures { PutsFields 8 fields.now bytes.now (room.old, room.new) at result }
{
    let (end, size) = put_four_fields(room, at, &fields[..4], bytes);
    let (last, more) = put_four_fields(room, end, &fields[4..], &bytes[size..]);
    (last, size + more)
}

/// Writes ` name=value` for each of sixteen fields with short names. Returns the position after them, and
/// how many of the bytes they have.
#[inline(always)]
fn put_sixteen_fields(
    room: &mut [u8],
    at: usize,
    fields: &[PlainField],
    bytes: &[u8],
) -> (usize, usize)
    requires fields { HasFields 16 fields.now bytes.now }
    requires room { at + 16 * FIELD ≤ length room.old }
    ensures { PutsFields 16 fields.now bytes.now (room.old, room.new) at result }
{
    let (end, size) = put_eight_fields(room, at, &fields[..8], bytes);
    let (last, more) = put_eight_fields(room, end, &fields[8..], &bytes[size..]);
    (last, size + more)
}

/// Returns a field's name, its value, and how many of the bytes it has.
#[inline(always)]
fn number_in(field: PlainField, bytes: &[u8]) -> (&'static str, u64, usize)
    requires { width field ≤ length bytes.now }
    ensures name { result.0.now ≡ field_name field }
    ensures width { result.2 ≡ width field }
    ensures shown { opening result.0.now ++ decimal result.1
        ≡ shown_item (plain_item field bytes.now) }
{
    match field {
        PlainField::Word(name) => (name, u64::from(BigEndian::read_u32(bytes)), 4),
        PlainField::Hyper(name) => (name, BigEndian::read_u64(bytes), 8),
    }
}
