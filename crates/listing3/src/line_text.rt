//! The text of a line, as it grows.

mod decimal;
mod hexadecimal;
mod names;
mod quotes;
mod run;

ghost use Rattle.std.specs.Prelude.{◌≡◌, ◌≤◌, ◌+◌, ◌*◌, ◌++◌, ◌∷◌, [], codes, length, take, decimal, OnOk, OnErr};
ghost use Rattle.hex.specs.Hex.{encode_lower};
ghost use Rattle.xdr3.specs.Visit.{body_limit};
ghost use Rattle.listing3.specs.Listing.{opening, prefix, quoted};
ghost use Rattle.listing3.specs.machinery.PutsBytes.{PutsBytes};

use crate::line_text::decimal::{DIGITS, put_decimal, put_number};
use crate::line_text::hexadecimal::put_hex;
use crate::line_text::names::{put_name, put_short};
use crate::line_text::quotes::put_quoted;
use crate::line_text::run::put_run;
use std::alloc::{AllocError, Global};
use std::marker::Model;
use xdr3::room::{make_room, put_bytes};
use xdr3::{PlainField, Visit};

/// How many bytes of memory a text keeps at most when it is released.
const KEPT: usize = 65_536;

/// The text of a line or of a part of it: what was appended since it was new or emptied. A call that
/// fails appends nothing. As a visitor it appends ` name=value` for each item.
#[derive(Drop)]
pub(crate) struct LineText {
    // It begins with the text, and what stands after the text means nothing.
    room: Vec<u8>,
    end: usize,
}

impl Model for LineText {
    ghost use Rattle.std.specs.Prelude.{List, ℕ, ◌≤◌, take, vec_len};

    ghost Value = { List ℕ };

    ghost view = { λ t. take t.end t.room.items };

    ghost invariant = { λ t. t.end ≤ vec_len t.room };
}

impl LineText {
    pub(crate) fn new(alloc: Global) -> LineText
        ensures { result ≡ [] }
    {
        LineText {
            room: Vec::new(alloc),
            end: 0,
        }
    }

    pub(crate) fn bytes(&self) -> &[u8]
        ensures { result.now ≡ self.now }
    {
        &self.room[..self.end]
    }

    /// Drops the text and keeps its memory.
    pub(crate) fn forget(&mut self)
        ensures { self.new ≡ [] }
    {
        self.end = 0;
    }

    /// Drops the text, and the memory too if that is large.
    #[cold]
    pub(crate) fn release(&mut self)
        ensures { self.new ≡ [] }
    {
        self.end = 0;
        if self.room.len() > KEPT {
            self.room.clear();
            self.room.shrink_to_fit();
        }
    }

    /// If something else failed, drops the text after its first `before` bytes.
    pub(crate) fn truncate_on_error(
        &mut self,
        before: usize,
        written: Result<(), AllocError>,
    ) -> Result<(), AllocError>
        ensures result { result ≡ written }
        ensures ok { OnOk written (self.new ≡ self.old) }
        ensures err { OnErr written (self.new ≡ take before self.old) }
    {
        if written.is_err() {
            self.end = self.end.min(before);
        }
        written
    }

    /// Appends the connection's number, the side, and the record's number in its stream.
    pub(crate) fn append_prefix(
        &mut self,
        connection: u32,
        side: &'static str,
        number: u32,
    ) -> Result<(), AllocError>
        ensures ok { OnOk result (self.new ≡ self.old ++ prefix connection side.now number) }
        ensures err { OnErr result (self.new ≡ self.old) }
    {
        make_room(&mut self.room, self.end, side.len() + (2 * DIGITS + 2))?;
        self.end = put_prefix(&mut self.room, self.end, connection, side, number);
        Ok(())
    }

    /// Appends ` xid=` and the xid, a space and the procedure's name.
    #[inline(always)]
    pub(crate) fn append_xid_and_name(
        &mut self,
        xid: u32,
        name: &'static str,
    ) -> Result<(), AllocError>
        ensures ok { OnOk result
            (self.new ≡ self.old ++ ((opening (codes "xid") ++ decimal xid) ++ (32 ∷ name.now))) }
        ensures err { OnErr result (self.new ≡ self.old) }
    {
        make_room(&mut self.room, self.end, name.len() + (DIGITS + 6))?;
        let end = put_name(&mut self.room, self.end, "xid");
        let end = put_decimal(&mut self.room, end, u64::from(xid));
        let end = put_bytes(&mut self.room, end, b" ");
        self.end = put_short(&mut self.room, end, name.as_bytes());
        Ok(())
    }

    /// Ends the line.
    pub(crate) fn end_line(&mut self) -> Result<(), AllocError>
        ensures ok { OnOk result (self.new ≡ self.old ++ 10 ∷ []) }
        ensures err { OnErr result (self.new ≡ self.old) }
    {
        make_room(&mut self.room, self.end, 1)?;
        self.end = put_bytes(&mut self.room, self.end, b"\n");
        Ok(())
    }

    /// Appends bytes in hexadecimal, without a name.
    pub(crate) fn append_bytes(&mut self, bytes: &[u8]) -> Result<(), AllocError>
        ensures ok { OnOk result (self.new ≡ self.old ++ encode_lower bytes.now) }
        ensures err { OnErr result (self.new ≡ self.old) }
    {
        make_room(&mut self.room, self.end, 2 * bytes.len())?;
        self.end = put_hex(&mut self.room, self.end, bytes);
        Ok(())
    }

    fn append_decimal(&mut self, name: &'static str, n: u64) -> Result<(), AllocError>
        ensures ok { OnOk result (self.new ≡ self.old ++ (opening name.now ++ decimal n)) }
        ensures err { OnErr result (self.new ≡ self.old) }
    {
        make_room(&mut self.room, self.end, name.len() + 2 + DIGITS)?;
        self.end = put_number(&mut self.room, self.end, name, n);
        Ok(())
    }

    /// Appends ` name=` and bytes in hexadecimal. Most bodies of credentials and verifiers are empty.
    #[inline(always)]
    pub(crate) fn append_hex(&mut self, name: &'static str, bytes: &[u8]) -> Result<(), AllocError>
        requires { length bytes.now ≤ body_limit }
        ensures ok { OnOk result
            (self.new ≡ self.old ++ (opening name.now ++ encode_lower bytes.now)) }
        ensures err { OnErr result (self.new ≡ self.old) }
    {
        if bytes.is_empty() {
            self.append_name(name)
        } else {
            self.append_digits(name, bytes)
        }
    }

    /// Appends ` name=`.
    #[inline(always)]
    pub(crate) fn append_name(&mut self, name: &'static str) -> Result<(), AllocError>
        ensures ok { OnOk result (self.new ≡ self.old ++ opening name.now) }
        ensures err { OnErr result (self.new ≡ self.old) }
    {
        make_room(&mut self.room, self.end, name.len() + 2)?;
        self.end = put_name(&mut self.room, self.end, name);
        Ok(())
    }

    #[inline(always)]
    fn append_digits(&mut self, name: &'static str, bytes: &[u8]) -> Result<(), AllocError>
        requires { length bytes.now ≤ body_limit }
        ensures ok { OnOk result
            (self.new ≡ self.old ++ (opening name.now ++ encode_lower bytes.now)) }
        ensures err { OnErr result (self.new ≡ self.old) }
    {
        make_room(&mut self.room, self.end, name.len() + 2 + 2 * bytes.len())?;
        let start = put_name(&mut self.room, self.end, name);
        self.end = put_hex(&mut self.room, start, bytes);
        Ok(())
    }

    fn append_quoted(&mut self, name: &'static str, bytes: &[u8]) -> Result<(), AllocError>
        ensures ok { OnOk result (self.new ≡ self.old ++ (opening name.now ++ quoted bytes.now)) }
        ensures err { OnErr result (self.new ≡ self.old) }
    {
        make_room(&mut self.room, self.end, name.len() + 2)?;
        let start = put_name(&mut self.room, self.end, name);
        self.end = put_quoted(&mut self.room, start, bytes)?;
        Ok(())
    }
}

/// Writes the connection's number, the side, and the record's number in its stream.
fn put_prefix(room: &mut [u8], at: usize, connection: u32, side: &'static str, number: u32) -> usize
    requires { at + (length side.now + (2 * DIGITS + 2)) ≤ length room.old }
    ensures within { (at ≤ result) × (result ≤ at + (length side.now + (2 * DIGITS + 2))) }
    ensures puts { PutsBytes room.old room.new at result (prefix connection side.now number) }
{
    let end = put_decimal(room, at, u64::from(connection));
    let end = put_bytes(room, end, b" ");
    let end = put_short(room, end, side.as_bytes());
    let end = put_bytes(room, end, b" ");
    put_decimal(room, end, u64::from(number))
}

#[tactic(auto, using(xdr3::proofs::Lemmas::Shapes::Walks::some_none), unfolding(xdr3::specs::Visit::Adds, xdr3::specs::Visit::Keeps))]
impl Visit for LineText {
    ghost use Rattle.std.specs.Prelude.{◌≡◌};
    ghost use Rattle.xdr3.specs.Plain.{run_items, run_size};
    ghost use Rattle.xdr3.specs.Visit.{Adds, AddsSome};
    ghost use Rattle.listing3.specs.Listing.{shown_items};

    ghost stands = { λ text items. text ≡ shown_items items };

    fn word(&mut self, name: &'static str, n: u32) -> Result<(), AllocError> {
        self.append_decimal(name, u64::from(n))
    }

    fn hyper(&mut self, name: &'static str, n: u64) -> Result<(), AllocError> {
        self.append_decimal(name, n)
    }

    fn fixed(&mut self, name: &'static str, bytes: &[u8; 8]) -> Result<(), AllocError> {
        self.append_hex(name, bytes)
    }

    fn write_verf(&mut self, name: &'static str, bytes: &[u8; 8]) -> Result<(), AllocError> {
        self.append_hex(name, bytes)
    }

    #[inline(always)]
    fn var(&mut self, name: &'static str, bytes: &[u8]) -> Result<(), AllocError> {
        self.append_hex(name, bytes)
    }

    fn text(&mut self, name: &'static str, bytes: &[u8]) -> Result<(), AllocError> {
        self.append_quoted(name, bytes)
    }

    fn handle(&mut self, name: &'static str, bytes: &[u8]) -> Result<(), AllocError> {
        self.append_hex(name, bytes)
    }

    fn rest(&mut self, name: &'static str, bytes: &[u8]) -> Result<(), AllocError> {
        self.append_hex(name, bytes)
    }

    #[inline(always)]
    fn plain(&mut self, fields: &[PlainField], bytes: &[u8]) -> Result<(), AllocError>
        requires { length bytes.now ≡ run_size fields.now }
        ensures ok { OnOk result (Adds (λ text items. text ≡ shown_items items) self.old self.new
            (run_items fields.now bytes.now)) }
        ensures err { OnErr result (AddsSome (λ text items. text ≡ shown_items items)
            self.old self.new (run_items fields.now bytes.now)) }
        ensures stays { OnErr result (self.new ≡ self.old) }
    {
        self.end = put_run(&mut self.room, self.end, fields, bytes)?;
        Ok(())
    }
}
