//! The results of the procedures on a file system (RFC 1813, sections 3.3.18 to 3.3.20).
#![tactic(auto, using(xdr3::proofs::Lemmas::Shapes::Walks::steps), unfolding(xdr3::specs::Reading::reading, xdr3::specs::Item::called))]

use crate::values::walks::walk_with_fields;
use nfs3_types::{PostOpAttr, Time};
use std::alloc::{AllocError, Global};
use xdr3::{Field, GetError, Input, Visit, Walk, Xdr};

/// The results of a successful FSSTAT: `FSSTAT3resok` (RFC 1813, section 3.3.18). It has sizes in
/// bytes, numbers of files, and seconds.
#[derive(Clone, Copy, PartialEq, Eq)]
pub struct FsStatOk {
    pub attr: PostOpAttr,
    pub tbytes: u64,
    pub fbytes: u64,
    pub abytes: u64,
    pub tfiles: u64,
    pub ffiles: u64,
    pub afiles: u64,
    pub invarsec: u32,
}

impl<'a> Xdr<'a> for FsStatOk {
    ghost use Rattle.procs3.specs.Table.{fsstat3resok};

    ghost shape = { fsstat3resok };

    #[tactic(auto, unfolding(xdr3::specs::Reading::reading, xdr3::specs::Item::followed_by))]
    fn get(alloc: Global, input: &mut Input<'a>) -> Result<FsStatOk, GetError> {
        let attr = PostOpAttr::get(alloc, input)?;
        let tbytes = input.hyper()?;
        let fbytes = input.hyper()?;
        let abytes = input.hyper()?;
        let tfiles = input.hyper()?;
        let ffiles = input.hyper()?;
        let afiles = input.hyper()?;
        let invarsec = input.word()?;
        Ok(FsStatOk {
            attr,
            tbytes,
            fbytes,
            abytes,
            tfiles,
            ffiles,
            afiles,
            invarsec,
        })
    }
}

impl Walk for FsStatOk {
    ghost use Rattle.procs3.specs.FileSystem.{fsstat_ok_items};

    ghost items = { fsstat_ok_items };

    fn walk<V: Visit>(&self, visitor: &mut V) -> Result<(), AllocError> {
        let all = [
            Field::Hyper("tbytes", self.tbytes),
            Field::Hyper("fbytes", self.fbytes),
            Field::Hyper("abytes", self.abytes),
            Field::Hyper("tfiles", self.tfiles),
            Field::Hyper("ffiles", self.ffiles),
            Field::Hyper("afiles", self.afiles),
            Field::Word("invarsec", self.invarsec),
        ];
        walk_with_fields(&self.attr, &all, visitor)
    }
}

/// The results of a successful FSINFO: `FSINFO3resok` (RFC 1813, section 3.3.19). Sizes are in
/// bytes.
#[derive(Clone, Copy, PartialEq, Eq)]
pub struct FsInfoOk {
    pub attr: PostOpAttr,
    pub rtmax: u32,
    pub rtpref: u32,
    pub rtmult: u32,
    pub wtmax: u32,
    pub wtpref: u32,
    pub wtmult: u32,
    pub dtpref: u32,
    pub maxfilesize: u64,
    pub delta: Time,
    pub properties: u32,
}

impl<'a> Xdr<'a> for FsInfoOk {
    ghost use Rattle.procs3.specs.Table.{fsinfo3resok};

    ghost shape = { fsinfo3resok };

    #[tactic(auto, unfolding(xdr3::specs::Reading::reading, xdr3::specs::Item::followed_by))]
    fn get(alloc: Global, input: &mut Input<'a>) -> Result<FsInfoOk, GetError> {
        let attr = PostOpAttr::get(alloc, input)?;
        let rtmax = input.word()?;
        let rtpref = input.word()?;
        let rtmult = input.word()?;
        let wtmax = input.word()?;
        let wtpref = input.word()?;
        let wtmult = input.word()?;
        let dtpref = input.word()?;
        let maxfilesize = input.hyper()?;
        let delta = Time::take(input)?;
        let properties = input.word()?;
        Ok(FsInfoOk {
            attr,
            rtmax,
            rtpref,
            rtmult,
            wtmax,
            wtpref,
            wtmult,
            dtpref,
            maxfilesize,
            delta,
            properties,
        })
    }
}

impl Walk for FsInfoOk {
    ghost use Rattle.procs3.specs.FileSystem.{fsinfo_ok_items};

    ghost items = { fsinfo_ok_items };

    fn walk<V: Visit>(&self, visitor: &mut V) -> Result<(), AllocError> {
        let all = [
            Field::Word("rtmax", self.rtmax),
            Field::Word("rtpref", self.rtpref),
            Field::Word("rtmult", self.rtmult),
            Field::Word("wtmax", self.wtmax),
            Field::Word("wtpref", self.wtpref),
            Field::Word("wtmult", self.wtmult),
            Field::Word("dtpref", self.dtpref),
            Field::Hyper("maxfilesize", self.maxfilesize),
            Field::Word("delta_sec", self.delta.sec),
            Field::Word("delta_nsec", self.delta.nsec),
            Field::Word("properties", self.properties),
        ];
        walk_with_fields(&self.attr, &all, visitor)
    }
}

/// The results of a successful PATHCONF: `PATHCONF3resok` (RFC 1813, section 3.3.20).
#[derive(Clone, Copy, PartialEq, Eq)]
pub struct PathConfOk {
    pub attr: PostOpAttr,
    pub linkmax: u32,
    pub name_max: u32,
    pub no_trunc: bool,
    pub chown_restricted: bool,
    pub case_insensitive: bool,
    pub case_preserving: bool,
}

impl<'a> Xdr<'a> for PathConfOk {
    ghost use Rattle.procs3.specs.Table.{pathconf3resok};

    ghost shape = { pathconf3resok };

    #[tactic(auto, unfolding(xdr3::specs::Reading::reading, xdr3::specs::Item::followed_by))]
    fn get(alloc: Global, input: &mut Input<'a>) -> Result<PathConfOk, GetError> {
        let attr = PostOpAttr::get(alloc, input)?;
        let linkmax = input.word()?;
        let name_max = input.word()?;
        let no_trunc = input.boolean()?;
        let chown_restricted = input.boolean()?;
        let case_insensitive = input.boolean()?;
        let case_preserving = input.boolean()?;
        Ok(PathConfOk {
            attr,
            linkmax,
            name_max,
            no_trunc,
            chown_restricted,
            case_insensitive,
            case_preserving,
        })
    }
}

impl Walk for PathConfOk {
    ghost use Rattle.procs3.specs.FileSystem.{pathconf_ok_items};

    ghost items = { pathconf_ok_items };

    fn walk<V: Visit>(&self, visitor: &mut V) -> Result<(), AllocError> {
        let all = [
            Field::Word("linkmax", self.linkmax),
            Field::Word("name_max", self.name_max),
            Field::Word("no_trunc", u32::from(self.no_trunc)),
            Field::Word("chown_restricted", u32::from(self.chown_restricted)),
            Field::Word("case_insensitive", u32::from(self.case_insensitive)),
            Field::Word("case_preserving", u32::from(self.case_preserving)),
        ];
        walk_with_fields(&self.attr, &all, visitor)
    }
}
