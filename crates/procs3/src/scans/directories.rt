//! What `values::directories` has, passed to a visitor as it is read: directories (RFC 1813,
//! sections 3.3.3 and 3.3.14 to 3.3.17).
#![tactic(auto, using(xdr3::proofs::Lemmas::Scans::ScanLemmas::scans), unfolding(xdr3::specs::Item::called))]

ghost use Rattle.xdr3.specs.Named.{linked};
ghost use Rattle.xdr3.specs.Scan.{Scans};

use crate::scans::both::Both;
use crate::scans::items::{Cookie, CookieVerf, Count, DirCount, Eof, FileId, FileName, MaxCount};
use nfs3_types::{DirOp, Handle, PostOpAttr, PostOpFh, Wcc};
use std::marker::PhantomData;
use xdr3::{GetError, Input, Scan, Visit, scan_linked};

/// LOOKUP3resok (RFC 1813, section 3.3.3).
pub(crate) type LookupOk = Both<Handle, Both<PostOpAttr, PostOpAttr>>;

/// RENAME3args (RFC 1813, section 3.3.14).
pub(crate) type RenameArgs = Both<DirOp<'static>, DirOp<'static>>;

/// RENAME3resok and RENAME3resfail (RFC 1813, section 3.3.14).
pub(crate) type RenameWcc = Both<Wcc, Wcc>;

/// LINK3args (RFC 1813, section 3.3.15).
pub(crate) type LinkArgs = Both<Handle, DirOp<'static>>;

/// LINK3resok and LINK3resfail (RFC 1813, section 3.3.15).
pub(crate) type LinkWcc = Both<PostOpAttr, Wcc>;

/// READDIR3args (RFC 1813, section 3.3.16).
pub(crate) type ReadDirArgs = Both<Handle, Both<Cookie, Both<CookieVerf, Count>>>;

/// entry3 (RFC 1813, section 3.3.16).
type Entry = Both<FileId, Both<FileName, Cookie>>;

/// The entries of a dirlist3 or a dirlistplus3 (RFC 1813, sections 3.3.16 and 3.3.17).
pub(crate) struct EntryList<E>(PhantomData<E>);

impl<E: Scan> Scan for EntryList<E> {
    ghost shape = { linked "entry" E.shape };

    #[inline(always)]
    fn scan<V: Visit>(input: &mut Input, visitor: &mut V) -> Result<(), GetError> {
        scan_linked::<E, V>("entry", input, visitor)
    }
}

/// READDIR3resok (RFC 1813, section 3.3.16).
pub(crate) type ReadDirOk = Both<PostOpAttr, Both<CookieVerf, Both<EntryList<Entry>, Eof>>>;

/// READDIRPLUS3args (RFC 1813, section 3.3.17).
pub(crate) type ReadDirPlusArgs = Both<Handle, Both<Cookie, Both<CookieVerf, DirCounts>>>;

/// How many bytes the results of READDIRPLUS may have (RFC 1813, section 3.3.17).
type DirCounts = Both<DirCount, MaxCount>;

/// entryplus3 (RFC 1813, section 3.3.17).
type EntryPlus = Both<Entry, Both<PostOpAttr, PostOpFh>>;

/// READDIRPLUS3resok (RFC 1813, section 3.3.17).
pub(crate) type ReadDirPlusOk = Both<PostOpAttr, Both<CookieVerf, Both<EntryList<EntryPlus>, Eof>>>;
