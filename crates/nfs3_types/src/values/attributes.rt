//! Attributes (RFC 1813).
#![tactic(auto, using(xdr3::proofs::Lemmas::Shapes::Walks::steps), unfolding(xdr3::specs::Reading::reading, crate::specs::Shapes::attributes, crate::specs::machinery::AttributeTails::times, crate::specs::Shapes::post_op_attr, crate::specs::Shapes::wcc_attr, xdr3::specs::Item::called))]

use crate::values::kind::FileKind;
use crate::values::time::{Time, Times};
use std::alloc::{AllocError, Global};
use xdr3::{Field, GetError, Input, Visit, Walk, Xdr, get_optional, walk_fields, walk_optional};

/// A file's attributes: `fattr3`, 84 bytes (RFC 1813). Sizes are in bytes.
#[derive(Clone, Copy, Debug, PartialEq, Eq)]
pub struct Fattr {
    pub kind: FileKind,
    pub mode: u32,
    pub nlink: u32,
    pub uid: u32,
    pub gid: u32,
    pub size: u64,
    pub used: u64,
    pub rdev1: u32,
    pub rdev2: u32,
    pub fsid: u64,
    pub fileid: u64,
    pub atime: Time,
    pub mtime: Time,
    pub ctime: Time,
}

impl<'a> Xdr<'a> for Fattr {
    ghost use Rattle.nfs3_types.specs.Shapes.{attributes};

    ghost shape = { attributes };

    fn get(alloc: Global, input: &mut Input<'a>) -> Result<Fattr, GetError> {
        let kind = FileKind::get(alloc, input)?;
        let mode = input.word()?;
        let nlink = input.word()?;
        let uid = input.word()?;
        let gid = input.word()?;
        let size = input.hyper()?;
        let used = input.hyper()?;
        let rdev1 = input.word()?;
        let rdev2 = input.word()?;
        let fsid = input.hyper()?;
        let fileid = input.hyper()?;
        let times = Times::take(input)?;
        Ok(Fattr {
            kind,
            mode,
            nlink,
            uid,
            gid,
            size,
            used,
            rdev1,
            rdev2,
            fsid,
            fileid,
            atime: times.atime,
            mtime: times.mtime,
            ctime: times.ctime,
        })
    }
}

impl Walk for Fattr {
    ghost use Rattle.nfs3_types.specs.Items.{attributes_items};

    ghost items = { attributes_items };

    fn walk<V: Visit>(&self, visitor: &mut V) -> Result<(), AllocError> {
        let all = [
            Field::Word("type", self.kind.number()),
            Field::Word("mode", self.mode),
            Field::Word("nlink", self.nlink),
            Field::Word("uid", self.uid),
            Field::Word("gid", self.gid),
            Field::Hyper("size", self.size),
            Field::Hyper("used", self.used),
            Field::Word("rdev1", self.rdev1),
            Field::Word("rdev2", self.rdev2),
            Field::Hyper("fsid", self.fsid),
            Field::Hyper("fileid", self.fileid),
            Field::Word("atime_sec", self.atime.sec),
            Field::Word("atime_nsec", self.atime.nsec),
            Field::Word("mtime_sec", self.mtime.sec),
            Field::Word("mtime_nsec", self.mtime.nsec),
            Field::Word("ctime_sec", self.ctime.sec),
            Field::Word("ctime_nsec", self.ctime.nsec),
        ];
        walk_fields(&all, visitor)
    }
}

/// The attributes of a file, which a reply may leave out: `post_op_attr` (RFC 1813).
#[derive(Clone, Copy, Debug, PartialEq, Eq)]
pub struct PostOpAttr {
    pub attr: Option<Fattr>,
}

impl<'a> Xdr<'a> for PostOpAttr {
    ghost use Rattle.nfs3_types.specs.Shapes.{post_op_attr};

    ghost shape = { post_op_attr };

    fn get(alloc: Global, input: &mut Input<'a>) -> Result<PostOpAttr, GetError> {
        let attr = get_optional(alloc, input)?;
        Ok(PostOpAttr { attr })
    }
}

impl Walk for PostOpAttr {
    ghost use Rattle.nfs3_types.specs.Items.{post_op_attr_items};

    ghost items = { post_op_attr_items };

    fn walk<V: Visit>(&self, visitor: &mut V) -> Result<(), AllocError> {
        walk_optional("attr", &self.attr, visitor)
    }
}

/// A file's size and times before a change, by which a client sees whether another one changed the
/// file: `wcc_attr` (RFC 1813).
#[derive(Clone, Copy, Debug, PartialEq, Eq)]
pub struct WccAttr {
    pub size: u64,
    pub mtime: Time,
    pub ctime: Time,
}

impl<'a> Xdr<'a> for WccAttr {
    ghost use Rattle.nfs3_types.specs.Shapes.{wcc_attr};

    ghost shape = { wcc_attr };

    fn get(_alloc: Global, input: &mut Input<'a>) -> Result<WccAttr, GetError> {
        let size = input.hyper()?;
        let mtime = Time::take(input)?;
        let ctime = Time::take(input)?;
        Ok(WccAttr { size, mtime, ctime })
    }
}

impl Walk for WccAttr {
    ghost use Rattle.nfs3_types.specs.Items.{wcc_attr_items};

    ghost items = { wcc_attr_items };

    fn walk<V: Visit>(&self, visitor: &mut V) -> Result<(), AllocError> {
        let all = [
            Field::Hyper("size", self.size),
            Field::Word("mtime_sec", self.mtime.sec),
            Field::Word("mtime_nsec", self.mtime.nsec),
            Field::Word("ctime_sec", self.ctime.sec),
            Field::Word("ctime_nsec", self.ctime.nsec),
        ];
        walk_fields(&all, visitor)
    }
}

/// A file's attributes before and after a change, each of which a reply may leave out: `wcc_data`
/// (RFC 1813).
#[derive(Clone, Copy, Debug, PartialEq, Eq)]
pub struct Wcc {
    pub before: Option<WccAttr>,
    pub after: PostOpAttr,
}

impl<'a> Xdr<'a> for Wcc {
    ghost use Rattle.nfs3_types.specs.Shapes.{wcc};

    ghost shape = { wcc };

    #[tactic(auto, unfolding(xdr3::specs::Reading::reading, crate::specs::Shapes::wcc, xdr3::specs::Item::followed_by))]
    fn get(alloc: Global, input: &mut Input<'a>) -> Result<Wcc, GetError> {
        let before = get_optional(alloc, input)?;
        let after = PostOpAttr::get(alloc, input)?;
        Ok(Wcc { before, after })
    }
}

impl Walk for Wcc {
    ghost use Rattle.nfs3_types.specs.Items.{wcc_items};

    ghost items = { wcc_items };

    fn walk<V: Visit>(&self, visitor: &mut V) -> Result<(), AllocError> {
        walk_optional("before", &self.before, visitor)?;
        self.after.walk(visitor)?;
        Ok(())
    }
}
