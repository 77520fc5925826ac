//! The text of a message's items, as it grows.

ghost use Rattle.std.specs.Prelude.{◌≡◌, ◌≤◌, ◌<◌, ◌+◌, ◌∷◌, [], length, true, None, OnOk, OnErr};
ghost use Rattle.xdr3.specs.Item.{Item, residue};
ghost use Rattle.xdr3.specs.Visit.{Adds, Keeps, body_limit};
ghost use Rattle.listing3.specs.machinery.ItemsText.{HasData, TextStands};

use crate::line_text::LineText;
use std::alloc::{AllocError, Global};
use xdr3::{PlainField, Visit};

/// The digits of so many bytes leave the near caches before they are written.
const MANY: usize = 16_384;

/// A position in a text where the digits of data are left out.
#[derive(Clone, Copy)]
pub(crate) struct Gap {
    /// How many bytes of the text are before the digits.
    pub(crate) at: usize,
    /// How many bytes of the body are before the data.
    pub(crate) skipped: usize,
    /// How many bytes the data has.
    pub(crate) len: usize,
}

/// The text of the items of a body that were visited, ` name=value` for each. The digits of one
/// item of many bytes are left out: when the text is written, the body is at hand.
#[derive(Drop)]
pub(crate) struct ItemsText {
    pub(crate) text: LineText,
    /// How many bytes of the body spell the items.
    pub(crate) seen: usize,
    pub(crate) gap: Option<Gap>,
}

/// Returns how many bytes encode opaque data of `len` bytes.
#[inline(always)]
pub(crate) fn encoded_size(len: usize) -> usize
    requires { len ≤ body_limit }
    ensures { result ≡ 4 + (len + residue len) }
{
    (len + 7) / 4 * 4
}

impl ItemsText {
    /// Returns the text of no items.
    pub(crate) fn new(alloc: Global) -> ItemsText
        ensures { TextStands result [] }
    {
        ItemsText {
            text: LineText::new(alloc),
            seen: 0,
            gap: None,
        }
    }

    /// Drops all items, and keeps the memory.
    pub(crate) fn forget(&mut self)
        ensures { TextStands self.new [] }
    {
        self.text.forget();
        self.seen = 0;
        self.gap = None;
    }

    /// Appends ` name=`, and leaves the digits of the data out. The item has `size` bytes, and `before`
    /// of them are before the data.
    #[inline(never)]
    fn leave_out(
        &mut self,
        name: &'static str,
        bytes: &[u8],
        before: usize,
        size: usize,
    ) -> Result<(), AllocError>
        requires { self.old.gap ≡ None }
        ensures ok { (item : Item) → HasData item name.now bytes.now before size
            → OnOk result (Adds TextStands self.old self.new (item ∷ [])) }
        ensures err { OnErr result (Keeps TextStands self.old self.new) }
    {
        self.text.append_name(name)?;
        self.gap = Some(Gap {
            at: self.text.bytes().len(),
            skipped: self.seen.wrapping_add(before),
            len: bytes.len(),
        });
        self.seen = self.seen.wrapping_add(size);
        Ok(())
    }

    /// Returns whether the digits of data of `len` bytes are left out. Only those of one item are.
    #[inline(always)]
    fn leaves_out(&self, len: usize) -> bool
        ensures { result ≡ true → self.now.gap ≡ None }
    {
        len >= MANY && self.gap.is_none()
    }
}

#[tactic(auto, using(xdr3::proofs::Lemmas::Shapes::Walks::some_none), unfolding(xdr3::specs::Visit::Adds, xdr3::specs::Visit::Keeps))]
impl Visit for ItemsText {
    ghost use Rattle.xdr3.specs.Plain.{run_items, run_size};
    ghost use Rattle.xdr3.specs.Visit.{AddsSome};
    ghost use Rattle.listing3.specs.machinery.ItemsText.{TextStands};

    ghost stands = { TextStands };

    fn word(&mut self, name: &'static str, n: u32) -> Result<(), AllocError> {
        self.text.word(name, n)?;
        self.seen = self.seen.wrapping_add(4);
        Ok(())
    }

    fn hyper(&mut self, name: &'static str, n: u64) -> Result<(), AllocError> {
        self.text.hyper(name, n)?;
        self.seen = self.seen.wrapping_add(8);
        Ok(())
    }

    fn fixed(&mut self, name: &'static str, bytes: &[u8; 8]) -> Result<(), AllocError> {
        self.text.fixed(name, bytes)?;
        self.seen = self.seen.wrapping_add(8);
        Ok(())
    }

    fn write_verf(&mut self, name: &'static str, bytes: &[u8; 8]) -> Result<(), AllocError> {
        self.text.write_verf(name, bytes)?;
        self.seen = self.seen.wrapping_add(8);
        Ok(())
    }

    #[inline(always)]
    fn var(&mut self, name: &'static str, bytes: &[u8]) -> Result<(), AllocError> {
        if self.leaves_out(bytes.len()) {
            return self.leave_out(name, bytes, 4, encoded_size(bytes.len()));
        }
        self.text.var(name, bytes)?;
        self.seen = self.seen.wrapping_add(encoded_size(bytes.len()));
        Ok(())
    }

    fn text(&mut self, name: &'static str, bytes: &[u8]) -> Result<(), AllocError> {
        self.text.text(name, bytes)?;
        self.seen = self.seen.wrapping_add(encoded_size(bytes.len()));
        Ok(())
    }

    fn handle(&mut self, name: &'static str, bytes: &[u8]) -> Result<(), AllocError> {
        self.text.handle(name, bytes)?;
        self.seen = self.seen.wrapping_add(encoded_size(bytes.len()));
        Ok(())
    }

    fn rest(&mut self, name: &'static str, bytes: &[u8]) -> Result<(), AllocError> {
        if self.leaves_out(bytes.len()) {
            return self.leave_out(name, bytes, 0, bytes.len());
        }
        self.text.rest(name, bytes)?;
        self.seen = self.seen.wrapping_add(bytes.len());
        Ok(())
    }

    #[inline(always)]
    fn plain(&mut self, fields: &[PlainField], bytes: &[u8]) -> Result<(), AllocError>
        requires { length bytes.now ≡ run_size fields.now }
        ensures ok { OnOk result
            (Adds TextStands self.old self.new (run_items fields.now bytes.now)) }
        ensures err { OnErr result
            (AddsSome TextStands self.old self.new (run_items fields.now bytes.now)) }
        ensures stays { OnErr result (self.new ≡ self.old) }
    {
        self.text.plain(fields, bytes)?;
        self.seen = self.seen.wrapping_add(bytes.len());
        Ok(())
    }
}
