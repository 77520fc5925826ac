//! Arguments and results of the procedures on a file (RFC 1813, section 3.3).
#![tactic(auto, using(xdr3::proofs::Lemmas::Shapes::Walks::steps, crate::proofs::ItemLemmas::followed_items), unfolding(xdr3::specs::Reading::reading, crate::specs::Shapes::file_range, xdr3::specs::Item::called))]

use crate::values::walks::{walk_three, walk_with_fields};
use nfs3_types::{Guard, Handle, PostOpAttr, Sattr, Stable, Wcc};
use std::alloc::{AllocError, Global};
use xdr3::{Field, GetError, Input, Visit, Walk, Xdr, walk_fields};

/// The arguments of SETATTR: `SETATTR3args` (RFC 1813, section 3.3.2).
#[derive(Clone, Copy, PartialEq, Eq)]
pub struct SetAttrArgs {
    pub handle: Handle,
    pub attr: Sattr,
    pub guard: Guard,
}

impl<'a> Xdr<'a> for SetAttrArgs {
    ghost use Rattle.nfs3_types.specs.Shapes.{guard, handle, settable};
    ghost use Rattle.xdr3.specs.Shape.{◌then◌};

    ghost shape = { handle then settable then guard };

    #[tactic(auto, unfolding(xdr3::specs::Reading::reading, xdr3::specs::Item::followed_by))]
    fn get(alloc: Global, input: &mut Input<'a>) -> Result<SetAttrArgs, GetError> {
        let handle = Handle::get(alloc, input)?;
        let attr = Sattr::get(alloc, input)?;
        let guard = Guard::get(alloc, input)?;
        Ok(SetAttrArgs {
            handle,
            attr,
            guard,
        })
    }
}

impl Walk for SetAttrArgs {
    ghost use Rattle.procs3.specs.Files.{setattr_args_items};

    ghost items = { setattr_args_items };

    fn walk<V: Visit>(&self, visitor: &mut V) -> Result<(), AllocError> {
        walk_three(&self.handle, &self.attr, &self.guard, visitor)
    }
}

/// The arguments of ACCESS: `ACCESS3args` (RFC 1813, section 3.3.4).
#[derive(Clone, Copy, PartialEq, Eq)]
pub struct AccessArgs {
    pub handle: Handle,
    pub access: u32,
}

impl<'a> Xdr<'a> for AccessArgs {
    ghost use Rattle.nfs3_types.specs.Shapes.{handle};
    ghost use Rattle.xdr3.specs.Named.{word};
    ghost use Rattle.xdr3.specs.Shape.{◌then◌};

    ghost shape = { handle then word "access" };

    fn get(alloc: Global, input: &mut Input<'a>) -> Result<AccessArgs, GetError> {
        let handle = Handle::get(alloc, input)?;
        let access = input.word()?;
        Ok(AccessArgs { handle, access })
    }
}

impl Walk for AccessArgs {
    ghost use Rattle.procs3.specs.Files.{access_args_items};

    ghost items = { access_args_items };

    fn walk<V: Visit>(&self, visitor: &mut V) -> Result<(), AllocError> {
        let all = [
            Field::Handle("fh", self.handle.as_slice()),
            Field::Word("access", self.access),
        ];
        walk_fields(&all, visitor)
    }
}

/// The results of a successful ACCESS: `ACCESS3resok` (RFC 1813, section 3.3.4).
#[derive(Clone, Copy, PartialEq, Eq)]
pub struct AccessOk {
    pub attr: PostOpAttr,
    pub access: u32,
}

impl<'a> Xdr<'a> for AccessOk {
    ghost use Rattle.nfs3_types.specs.Shapes.{post_op_attr};
    ghost use Rattle.xdr3.specs.Named.{word};
    ghost use Rattle.xdr3.specs.Shape.{◌then◌};

    ghost shape = { post_op_attr then word "access" };

    fn get(alloc: Global, input: &mut Input<'a>) -> Result<AccessOk, GetError> {
        let attr = PostOpAttr::get(alloc, input)?;
        let access = input.word()?;
        Ok(AccessOk { attr, access })
    }
}

impl Walk for AccessOk {
    ghost use Rattle.procs3.specs.Files.{access_ok_items};

    ghost items = { access_ok_items };

    fn walk<V: Visit>(&self, visitor: &mut V) -> Result<(), AllocError> {
        walk_with_fields(&self.attr, &[Field::Word("access", self.access)], visitor)
    }
}

/// The results of a successful READLINK: `READLINK3resok` (RFC 1813, section 3.3.5). The path
/// borrows from the record.
#[derive(Clone, Copy)]
pub struct ReadLinkOk<'a> {
    pub attr: PostOpAttr,
    pub path: &'a [u8],
}

impl<'a> Xdr<'a> for ReadLinkOk<'a> {
    ghost use Rattle.nfs3_types.specs.Shapes.{no_maximum, post_op_attr};
    ghost use Rattle.xdr3.specs.Item.{Text};
    ghost use Rattle.xdr3.specs.Named.{opaque};
    ghost use Rattle.xdr3.specs.Shape.{◌then◌};

    ghost shape = { post_op_attr then opaque Text "path" no_maximum };

    fn get(alloc: Global, input: &mut Input<'a>) -> Result<ReadLinkOk<'a>, GetError> {
        let attr = PostOpAttr::get(alloc, input)?;
        let path = input.var(u32::MAX)?;
        Ok(ReadLinkOk { attr, path })
    }
}

impl<'a> Walk for ReadLinkOk<'a> {
    ghost use Rattle.procs3.specs.Files.{readlink_ok_items};

    ghost items = { readlink_ok_items };

    fn walk<V: Visit>(&self, visitor: &mut V) -> Result<(), AllocError> {
        walk_with_fields(&self.attr, &[Field::Text("path", self.path)], visitor)
    }
}

/// A range of a file, in bytes: the arguments of READ and of COMMIT (RFC 1813, sections 3.3.6 and
/// 3.3.21).
#[derive(Clone, Copy, PartialEq, Eq)]
pub struct FileRange {
    pub handle: Handle,
    pub offset: u64,
    pub count: u32,
}

impl<'a> Xdr<'a> for FileRange {
    ghost use Rattle.procs3.specs.Shapes.{file_range};

    ghost shape = { file_range };

    fn get(alloc: Global, input: &mut Input<'a>) -> Result<FileRange, GetError> {
        let handle = Handle::get(alloc, input)?;
        let offset = input.hyper()?;
        let count = input.word()?;
        Ok(FileRange {
            handle,
            offset,
            count,
        })
    }
}

impl Walk for FileRange {
    ghost use Rattle.procs3.specs.Files.{file_range_items};

    ghost items = { file_range_items };

    fn walk<V: Visit>(&self, visitor: &mut V) -> Result<(), AllocError> {
        let all = [
            Field::Handle("fh", self.handle.as_slice()),
            Field::Hyper("offset", self.offset),
            Field::Word("count", self.count),
        ];
        walk_fields(&all, visitor)
    }
}

/// The results of a successful READ: `READ3resok` (RFC 1813, section 3.3.6). The data borrow from
/// the record.
#[derive(Clone, Copy)]
pub struct ReadOk<'a> {
    pub attr: PostOpAttr,
    pub count: u32,
    pub eof: bool,
    pub content: &'a [u8],
}

impl<'a> Xdr<'a> for ReadOk<'a> {
    ghost use Rattle.procs3.specs.Table.{read3resok};

    ghost shape = { read3resok };

    fn get(alloc: Global, input: &mut Input<'a>) -> Result<ReadOk<'a>, GetError> {
        let attr = PostOpAttr::get(alloc, input)?;
        let count = input.word()?;
        let eof = input.boolean()?;
        let content = input.var(u32::MAX)?;
        Ok(ReadOk {
            attr,
            count,
            eof,
            content,
        })
    }
}

impl<'a> Walk for ReadOk<'a> {
    ghost use Rattle.procs3.specs.Files.{read_ok_items};

    ghost items = { read_ok_items };

    fn walk<V: Visit>(&self, visitor: &mut V) -> Result<(), AllocError> {
        let all = [
            Field::Word("count", self.count),
            Field::Word("eof", u32::from(self.eof)),
            Field::Var("data", self.content),
        ];
        walk_with_fields(&self.attr, &all, visitor)
    }
}

/// The arguments of WRITE: `WRITE3args` (RFC 1813, section 3.3.7). The data borrow from the record.
#[derive(Clone, Copy)]
pub struct WriteArgs<'a> {
    pub handle: Handle,
    pub offset: u64,
    pub count: u32,
    pub stable: Stable,
    pub content: &'a [u8],
}

impl<'a> Xdr<'a> for WriteArgs<'a> {
    ghost use Rattle.procs3.specs.Table.{write3args};

    ghost shape = { write3args };

    fn get(alloc: Global, input: &mut Input<'a>) -> Result<WriteArgs<'a>, GetError> {
        let handle = Handle::get(alloc, input)?;
        let offset = input.hyper()?;
        let count = input.word()?;
        let stable = Stable::take(input)?;
        let content = input.var(u32::MAX)?;
        Ok(WriteArgs {
            handle,
            offset,
            count,
            stable,
            content,
        })
    }
}

impl<'a> Walk for WriteArgs<'a> {
    ghost use Rattle.procs3.specs.Files.{write_args_items};

    ghost items = { write_args_items };

    fn walk<V: Visit>(&self, visitor: &mut V) -> Result<(), AllocError> {
        let all = [
            Field::Handle("fh", self.handle.as_slice()),
            Field::Hyper("offset", self.offset),
            Field::Word("count", self.count),
            Field::Word("stable", self.stable.number()),
            Field::Var("data", self.content),
        ];
        walk_fields(&all, visitor)
    }
}

/// The results of a successful WRITE: `WRITE3resok` (RFC 1813, section 3.3.7).
#[derive(Clone, Copy, PartialEq, Eq)]
pub struct WriteOk {
    pub wcc: Wcc,
    pub count: u32,
    pub committed: Stable,
    pub verf: [u8; 8],
}

impl<'a> Xdr<'a> for WriteOk {
    ghost use Rattle.procs3.specs.Table.{write3resok};

    ghost shape = { write3resok };

    fn get(alloc: Global, input: &mut Input<'a>) -> Result<WriteOk, GetError> {
        let wcc = Wcc::get(alloc, input)?;
        let count = input.word()?;
        let committed = Stable::take(input)?;
        let verf = input.fixed8()?;
        Ok(WriteOk {
            wcc,
            count,
            committed,
            verf,
        })
    }
}

impl Walk for WriteOk {
    ghost use Rattle.procs3.specs.Files.{write_ok_items};

    ghost items = { write_ok_items };

    fn walk<V: Visit>(&self, visitor: &mut V) -> Result<(), AllocError> {
        let all = [
            Field::Word("count", self.count),
            Field::Word("committed", self.committed.number()),
            Field::WriteVerf("verf", self.verf),
        ];
        walk_with_fields(&self.wcc, &all, visitor)
    }
}

/// The results of a successful COMMIT: `COMMIT3resok` (RFC 1813, section 3.3.21).
#[derive(Clone, Copy, PartialEq, Eq)]
pub struct CommitOk {
    pub wcc: Wcc,
    pub verf: [u8; 8],
}

impl<'a> Xdr<'a> for CommitOk {
    ghost use Rattle.nfs3_types.specs.Shapes.{wcc};
    ghost use Rattle.xdr3.specs.Named.{write_verf};
    ghost use Rattle.xdr3.specs.Shape.{◌then◌};

    ghost shape = { wcc then write_verf "verf" };

    fn get(alloc: Global, input: &mut Input<'a>) -> Result<CommitOk, GetError> {
        let wcc = Wcc::get(alloc, input)?;
        let verf = input.fixed8()?;
        Ok(CommitOk { wcc, verf })
    }
}

impl Walk for CommitOk {
    ghost use Rattle.procs3.specs.Files.{commit_ok_items};

    ghost items = { commit_ok_items };

    fn walk<V: Visit>(&self, visitor: &mut V) -> Result<(), AllocError> {
        walk_with_fields(&self.wcc, &[Field::WriteVerf("verf", self.verf)], visitor)
    }
}
