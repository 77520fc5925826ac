//! Single items of arguments and results, passed to a visitor as they are read: what structs are
//! made of besides the parts in `nfs3_types` (RFC 1813, section 3.3).
#![tactic(auto, using(xdr3::proofs::Lemmas::Scans::ScanLemmas::scans), unfolding(xdr3::specs::Item::called))]

ghost use Rattle.std.specs.Prelude.{IfErr, OnOk};
ghost use Rattle.nfs3_types.specs.Shapes.{no_maximum};
ghost use Rattle.nfs3_types.specs.Stable.{stable_words};
ghost use Rattle.xdr3.specs.Item.{Text, Var};
ghost use Rattle.xdr3.specs.Scan.{Scans, Stops};
ghost use Rattle.xdr3.specs.Named.{boolean, fixed, hyper, listed, opaque, word, write_verf};
ghost use Rattle.xdr3.specs.Shape.{choose, is_bool, is_listed, nothing, word_named};
ghost use Rattle.xdr3.specs.declared.reason.Reason.TheVariants.{BadBool, BadEnum};

use xdr3::{
    GetError, Input, Scan, Visit, scan_boolean, scan_fixed, scan_hyper, scan_listed, scan_text,
    scan_var, scan_word, scan_write_verf,
};

/// Passes on any word.
#[inline(always)]
fn pass_word<V: Visit>(
    name: &'static str,
    input: &mut Input,
    visitor: &mut V,
) -> Result<(), GetError>
    ensures ok { OnOk result
        (Scans V.stands (word_named name.now) (input.old, visitor.old) (input.new, visitor.new)) }
    ensures err { IfErr result (λ error. Stops (word_named name.now) input.old error) }
{
    scan_word(name, input, visitor)?;
    Ok(())
}

/// Passes on a bool.
#[inline(always)]
fn pass_boolean<V: Visit>(
    name: &'static str,
    input: &mut Input,
    visitor: &mut V,
) -> Result<(), GetError>
    ensures ok { OnOk result
        (Scans V.stands (choose name.now is_bool BadBool (λ n. nothing))
        (input.old, visitor.old) (input.new, visitor.new)) }
    ensures err { IfErr result
        (λ error. Stops (choose name.now is_bool BadBool (λ n. nothing)) input.old error) }
{
    scan_boolean(name, input, visitor)?;
    Ok(())
}

/// Passes on a word that says how data is kept.
#[inline(always)]
fn pass_stable<V: Visit>(
    name: &'static str,
    input: &mut Input,
    visitor: &mut V,
) -> Result<(), GetError>
    ensures ok { OnOk result
        (Scans V.stands (choose name.now (is_listed stable_words) BadEnum (λ n. nothing))
        (input.old, visitor.old) (input.new, visitor.new)) }
    ensures err { IfErr result
        (λ error. Stops (choose name.now (is_listed stable_words) BadEnum (λ n. nothing))
        input.old error) }
{
    scan_listed(name, &[0, 1, 2], input, visitor)?;
    Ok(())
}

/// Which accesses are asked for, or granted (RFC 1813, section 3.3.4).
pub(crate) struct Access;

impl Scan for Access {
    ghost shape = { word "access" };

    #[inline]
    fn scan<V: Visit>(input: &mut Input, visitor: &mut V) -> Result<(), GetError> {
        pass_word("access", input, visitor)
    }
}

/// nfspath3: what a symbolic link contains (RFC 1813, section 3.3.5).
pub(crate) struct Path;

impl Scan for Path {
    ghost shape = { opaque Text "path" no_maximum };

    #[inline]
    fn scan<V: Visit>(input: &mut Input, visitor: &mut V) -> Result<(), GetError> {
        scan_text("path", u32::MAX, input, visitor)
    }
}

/// offset3: where data is written (RFC 1813, section 3.3.7).
pub(crate) struct Offset;

impl Scan for Offset {
    ghost shape = { hyper "offset" };

    #[inline]
    fn scan<V: Visit>(input: &mut Input, visitor: &mut V) -> Result<(), GetError> {
        scan_hyper("offset", input, visitor)
    }
}

/// count3: a number of bytes (RFC 1813).
pub(crate) struct Count;

impl Scan for Count {
    ghost shape = { word "count" };

    #[inline]
    fn scan<V: Visit>(input: &mut Input, visitor: &mut V) -> Result<(), GetError> {
        pass_word("count", input, visitor)
    }
}

/// Whether the end of a file or a directory was reached (RFC 1813, sections 3.3.6 and 3.3.16).
pub(crate) struct Eof;

impl Scan for Eof {
    ghost shape = { boolean "eof" };

    #[inline]
    fn scan<V: Visit>(input: &mut Input, visitor: &mut V) -> Result<(), GetError> {
        pass_boolean("eof", input, visitor)
    }
}

/// The data of a file (RFC 1813, sections 3.3.6 and 3.3.7).
pub(crate) struct Data;

impl Scan for Data {
    ghost shape = { opaque Var "data" no_maximum };

    #[inline]
    fn scan<V: Visit>(input: &mut Input, visitor: &mut V) -> Result<(), GetError> {
        scan_var("data", u32::MAX, input, visitor)
    }
}

/// stable_how: how data is to be kept (RFC 1813, section 3.3.7).
pub(crate) struct StableHow;

impl Scan for StableHow {
    ghost shape = { listed "stable" stable_words };

    #[inline]
    fn scan<V: Visit>(input: &mut Input, visitor: &mut V) -> Result<(), GetError> {
        pass_stable("stable", input, visitor)
    }
}

/// stable_how: how data was kept (RFC 1813, section 3.3.7).
pub(crate) struct Committed;

impl Scan for Committed {
    ghost shape = { listed "committed" stable_words };

    #[inline]
    fn scan<V: Visit>(input: &mut Input, visitor: &mut V) -> Result<(), GetError> {
        pass_stable("committed", input, visitor)
    }
}

/// writeverf3 (RFC 1813, section 3.3.7).
pub(crate) struct WriteVerf;

impl Scan for WriteVerf {
    ghost shape = { write_verf "verf" };

    #[inline]
    fn scan<V: Visit>(input: &mut Input, visitor: &mut V) -> Result<(), GetError> {
        scan_write_verf("verf", input, visitor)
    }
}

/// createverf3 (RFC 1813, section 3.3.8).
pub(crate) struct CreateVerf;

impl Scan for CreateVerf {
    ghost shape = { fixed "createverf" };

    #[inline]
    fn scan<V: Visit>(input: &mut Input, visitor: &mut V) -> Result<(), GetError> {
        scan_fixed("createverf", input, visitor)
    }
}

/// fileid3: the number of a file (RFC 1813, section 3.3.16).
pub(crate) struct FileId;

impl Scan for FileId {
    ghost shape = { hyper "fileid" };

    #[inline]
    fn scan<V: Visit>(input: &mut Input, visitor: &mut V) -> Result<(), GetError> {
        scan_hyper("fileid", input, visitor)
    }
}

/// filename3 (RFC 1813, section 3.3.16).
pub(crate) struct FileName;

impl Scan for FileName {
    ghost shape = { opaque Text "name" no_maximum };

    #[inline]
    fn scan<V: Visit>(input: &mut Input, visitor: &mut V) -> Result<(), GetError> {
        scan_text("name", u32::MAX, input, visitor)
    }
}

/// cookie3: a position in a directory (RFC 1813, section 3.3.16).
pub(crate) struct Cookie;

impl Scan for Cookie {
    ghost shape = { hyper "cookie" };

    #[inline]
    fn scan<V: Visit>(input: &mut Input, visitor: &mut V) -> Result<(), GetError> {
        scan_hyper("cookie", input, visitor)
    }
}

/// cookieverf3 (RFC 1813, section 3.3.16).
pub(crate) struct CookieVerf;

impl Scan for CookieVerf {
    ghost shape = { fixed "cookieverf" };

    #[inline]
    fn scan<V: Visit>(input: &mut Input, visitor: &mut V) -> Result<(), GetError> {
        scan_fixed("cookieverf", input, visitor)
    }
}

/// The most links of a file (RFC 1813, section 3.3.20).
pub(crate) struct LinkMax;

impl Scan for LinkMax {
    ghost shape = { word "linkmax" };

    #[inline]
    fn scan<V: Visit>(input: &mut Input, visitor: &mut V) -> Result<(), GetError> {
        pass_word("linkmax", input, visitor)
    }
}

/// The most bytes of a name (RFC 1813, section 3.3.20).
pub(crate) struct NameMax;

impl Scan for NameMax {
    ghost shape = { word "name_max" };

    #[inline]
    fn scan<V: Visit>(input: &mut Input, visitor: &mut V) -> Result<(), GetError> {
        pass_word("name_max", input, visitor)
    }
}

/// Whether longer names are refused (RFC 1813, section 3.3.20).
pub(crate) struct NoTrunc;

impl Scan for NoTrunc {
    ghost shape = { boolean "no_trunc" };

    #[inline]
    fn scan<V: Visit>(input: &mut Input, visitor: &mut V) -> Result<(), GetError> {
        pass_boolean("no_trunc", input, visitor)
    }
}

/// Whether only a privileged user changes owners (RFC 1813, section 3.3.20).
pub(crate) struct ChownRestricted;

impl Scan for ChownRestricted {
    ghost shape = { boolean "chown_restricted" };

    #[inline]
    fn scan<V: Visit>(input: &mut Input, visitor: &mut V) -> Result<(), GetError> {
        pass_boolean("chown_restricted", input, visitor)
    }
}

/// Whether case is ignored in names (RFC 1813, section 3.3.20).
pub(crate) struct CaseInsensitive;

impl Scan for CaseInsensitive {
    ghost shape = { boolean "case_insensitive" };

    #[inline]
    fn scan<V: Visit>(input: &mut Input, visitor: &mut V) -> Result<(), GetError> {
        pass_boolean("case_insensitive", input, visitor)
    }
}

/// Whether case is kept in names (RFC 1813, section 3.3.20).
pub(crate) struct CasePreserving;

impl Scan for CasePreserving {
    ghost shape = { boolean "case_preserving" };

    #[inline]
    fn scan<V: Visit>(input: &mut Input, visitor: &mut V) -> Result<(), GetError> {
        pass_boolean("case_preserving", input, visitor)
    }
}

/// The most bytes of names (RFC 1813, section 3.3.17).
pub(crate) struct DirCount;

impl Scan for DirCount {
    ghost shape = { word "dircount" };

    #[inline]
    fn scan<V: Visit>(input: &mut Input, visitor: &mut V) -> Result<(), GetError> {
        pass_word("dircount", input, visitor)
    }
}

/// The most bytes of the results (RFC 1813, section 3.3.17).
pub(crate) struct MaxCount;

impl Scan for MaxCount {
    ghost shape = { word "maxcount" };

    #[inline]
    fn scan<V: Visit>(input: &mut Input, visitor: &mut V) -> Result<(), GetError> {
        pass_word("maxcount", input, visitor)
    }
}

/// The major number of a device (RFC 1813, section 3.3.11).
pub(crate) struct Spec1;

impl Scan for Spec1 {
    ghost shape = { word "spec1" };

    #[inline]
    fn scan<V: Visit>(input: &mut Input, visitor: &mut V) -> Result<(), GetError> {
        pass_word("spec1", input, visitor)
    }
}

/// The minor number of a device (RFC 1813, section 3.3.11).
pub(crate) struct Spec2;

impl Scan for Spec2 {
    ghost shape = { word "spec2" };

    #[inline]
    fn scan<V: Visit>(input: &mut Input, visitor: &mut V) -> Result<(), GetError> {
        pass_word("spec2", input, visitor)
    }
}
