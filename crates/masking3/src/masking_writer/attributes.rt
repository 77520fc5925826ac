//! The attributes of a file (`fattr3`, RFC 1813), masked at once. Their fields are told by all their names, which
//! are constants where attributes are read, so no name is compared when the program runs.

ghost use Rattle.std.specs.Prelude.{◌≡◌, ◌≤◌, ◌+◌, ◌∷◌, [], IsTrue, OnOk, drop, length, map, take};
ghost use Rattle.byteorder.specs.Endian.{big_number};
ghost use Rattle.xdr3.specs.Item.{Hyper, Word};
ghost use Rattle.xdr3.specs.Visit.{Adds};
ghost use Rattle.masking3.specs.Classes.{class_of_hyper};
ghost use Rattle.masking3.specs.machinery.KnownFields.{IsKnown, attribute_fields, attributes_in, field_item, first_fields, last_fields, next_fields, with_run};
ghost use Rattle.masking3.specs.machinery.MaskingWriter.{MaskStands};
ghost use Rattle.masking3.specs.machinery.UnnamedBody.{body_word};

use crate::masking_writer::{MaskingWriter, Plan};
use crate::values::class::{Class, class_in_wcc};
use crate::values::spot::ItemSpot;
use byteorder::{BigEndian, ByteOrder};
use std::alloc::AllocError;
use std::hash::BuildHasher;
use xdr3::room::put_bytes;
use xdr3::{PlainField, Visit, spelled_hyper, spelled_word};

/// How many bytes attributes have after the type.
const SIZE: usize = 80;

// The names are compared in three patterns: one of 16 names takes the prover five minutes.

#[inline(always)]
#[tactic(auto, unfolding(xdr3::specs::Item::called))]
fn are_first_fields(fields: &[PlainField]) -> bool
    ensures { IsTrue result → map field_item fields.now ≡ first_fields }
{
    matches!(
        fields,
        [
            PlainField::Word("mode"),
            PlainField::Word("nlink"),
            PlainField::Word("uid"),
            PlainField::Word("gid"),
        ]
    )
}

#[inline(always)]
#[tactic(auto, unfolding(xdr3::specs::Item::called))]
fn are_next_fields(fields: &[PlainField]) -> bool
    ensures { IsTrue result → map field_item fields.now ≡ next_fields }
{
    matches!(
        fields,
        [
            PlainField::Hyper("size"),
            PlainField::Hyper("used"),
            PlainField::Word("rdev1"),
            PlainField::Word("rdev2"),
            PlainField::Hyper("fsid"),
            PlainField::Hyper("fileid"),
        ]
    )
}

#[inline(always)]
#[tactic(auto, unfolding(xdr3::specs::Item::called))]
fn are_last_fields(fields: &[PlainField]) -> bool
    ensures { IsTrue result → map field_item fields.now ≡ last_fields }
{
    matches!(
        fields,
        [
            PlainField::Word("atime_sec"),
            PlainField::Word("atime_nsec"),
            PlainField::Word("mtime_sec"),
            PlainField::Word("mtime_nsec"),
            PlainField::Word("ctime_sec"),
            PlainField::Word("ctime_nsec"),
        ]
    )
}

/// Returns whether these are the fields of attributes after the type.
#[inline(always)]
pub(crate) fn are_attributes(fields: &[PlainField]) -> bool
    ensures { IsTrue result → map field_item fields.now ≡ attribute_fields }
{
    fields.len() == 16
        && are_first_fields(&fields[..4])
        && are_next_fields(&fields[4..10])
        && are_last_fields(&fields[10..])
}

impl<P: Plan, S: BuildHasher + Copy + Drop> MaskingWriter<P, S> {
    /// Writes attributes after the type.
    #[tactic(auto, using(crate::proofs::Lemmas::Classes::KnownFieldLemmas::known), unfolding(xdr3::specs::Item::called))]
    pub(crate) fn write_attributes(&mut self, bytes: &[u8]) -> Result<(), AllocError>
        requires { length bytes.now ≡ 80 }
        ensures { OnOk result
            (Adds (MaskStands P.ways) self.old self.new (attributes_in bytes.now)) }
    {
        let mut run = [0u8; SIZE];
        let spot = self.spot;
        let (wcc, times) = (class_in_wcc(spot), Some(Class::Times));
        self.put_word(&mut run, 0, spot, "mode", None, bytes)?;
        self.put_word(&mut run, 4, spot, "nlink", wcc, bytes)?;
        self.put_word(&mut run, 8, spot, "uid", Some(Class::Owners), bytes)?;
        self.put_word(&mut run, 12, spot, "gid", Some(Class::Owners), bytes)?;
        self.put_hyper(&mut run, 16, spot, "size", wcc, bytes)?;
        self.put_hyper(&mut run, 24, spot, "used", Some(Class::Space), bytes)?;
        self.put_word(&mut run, 32, spot, "rdev1", None, bytes)?;
        self.put_word(&mut run, 36, spot, "rdev2", None, bytes)?;
        self.put_hyper(&mut run, 40, spot, "fsid", Some(Class::Fsids), bytes)?;
        self.put_hyper(&mut run, 48, spot, "fileid", Some(Class::Ids), bytes)?;
        self.put_word(&mut run, 56, spot, "atime_sec", times, bytes)?;
        self.put_word(&mut run, 60, spot, "atime_nsec", times, bytes)?;
        self.put_word(&mut run, 64, spot, "mtime_sec", times, bytes)?;
        self.put_word(&mut run, 68, spot, "mtime_nsec", times, bytes)?;
        self.put_word(&mut run, 72, spot, "ctime_sec", times, bytes)?;
        self.put_word(&mut run, 76, spot, "ctime_nsec", times, bytes)?;
        self.writer.rest("", &run)
    }

    /// Puts a word of a known class, or of none, into the run, or what replaces it.
    #[inline(always)]
    fn put_word(
        &mut self,
        run: &mut [u8; SIZE],
        at: usize,
        spot: ItemSpot,
        name: &'static str,
        class: Option<Class>,
        bytes: &[u8],
    ) -> Result<(), AllocError>
        requires size { length bytes.now ≡ 80 }
        requires within { at + 4 ≤ 80 }
        requires spot { self.old.spot ≡ spot }
        requires known { IsKnown spot class name.now }
        ensures ok { OnOk result (Adds (MaskStands P.ways) (with_run self.old (take at run.old))
            (with_run self.new (take (at + 4) run.new))
            (Word name.now (body_word at bytes.now) ∷ [])) }
        ensures spot { self.new.spot ≡ self.old.spot }
    {
        let n = BigEndian::read_u32(&bytes[at..]);
        let put = self.classes.substitute(class, u64::from(n))?.unwrap_or(n);
        put_bytes(run, at, &spelled_word(put));
        Ok(())
    }

    /// Does the same of a number of eight bytes.
    #[inline(always)]
    fn put_hyper(
        &mut self,
        run: &mut [u8; SIZE],
        at: usize,
        spot: ItemSpot,
        name: &'static str,
        class: Option<Class>,
        bytes: &[u8],
    ) -> Result<(), AllocError>
        requires size { length bytes.now ≡ 80 }
        requires within { at + 8 ≤ 80 }
        requires spot { self.old.spot ≡ spot }
        requires known { class_of_hyper spot name.now ≡ class }
        ensures ok { OnOk result (Adds (MaskStands P.ways) (with_run self.old (take at run.old))
            (with_run self.new (take (at + 8) run.new))
            (Hyper name.now (big_number 8 (drop at bytes.now)) ∷ [])) }
        ensures spot { self.new.spot ≡ self.old.spot }
    {
        let n = BigEndian::read_u64(&bytes[at..]);
        let put = self.classes.replaced_hyper(class, n)?;
        put_bytes(run, at, &spelled_hyper(put));
        Ok(())
    }
}
