//! Arguments and results of the procedures on names in directories (RFC 1813, section 3.3).
#![tactic(auto, using(xdr3::proofs::Lemmas::Shapes::Walks::steps), unfolding(xdr3::specs::Reading::reading, xdr3::specs::Item::called))]

use crate::values::walks::{walk_listing, walk_three, walk_two};
use nfs3_types::{DirOp, Handle, PostOpAttr, PostOpFh, Wcc};
use std::alloc::{AllocError, Global};
use xdr3::{Field, GetError, Input, Visit, Walk, Xdr, get_linked, walk_fields};

/// The results of a successful LOOKUP: `LOOKUP3resok` (RFC 1813, section 3.3.3). It has the
/// attributes of what was found, and those of the directory.
#[derive(Clone, Copy, PartialEq, Eq)]
pub struct LookupOk {
    pub handle: Handle,
    pub attr: PostOpAttr,
    pub dir: PostOpAttr,
}

impl<'a> Xdr<'a> for LookupOk {
    ghost use Rattle.nfs3_types.specs.Shapes.{handle, post_op_attr};
    ghost use Rattle.xdr3.specs.Shape.{◌then◌};

    ghost shape = { handle then post_op_attr then post_op_attr };

    #[tactic(auto, unfolding(xdr3::specs::Reading::reading, xdr3::specs::Item::followed_by))]
    fn get(alloc: Global, input: &mut Input<'a>) -> Result<LookupOk, GetError> {
        let handle = Handle::get(alloc, input)?;
        let attr = PostOpAttr::get(alloc, input)?;
        let dir = PostOpAttr::get(alloc, input)?;
        Ok(LookupOk { handle, attr, dir })
    }
}

impl Walk for LookupOk {
    ghost use Rattle.procs3.specs.Directories.{lookup_ok_items};

    ghost items = { lookup_ok_items };

    fn walk<V: Visit>(&self, visitor: &mut V) -> Result<(), AllocError> {
        walk_three(&self.handle, &self.attr, &self.dir, visitor)
    }
}

/// The arguments of RENAME: `RENAME3args` (RFC 1813, section 3.3.14).
#[derive(Clone, Copy)]
pub struct RenameArgs<'a> {
    pub from: DirOp<'a>,
    pub to: DirOp<'a>,
}

impl<'a> Xdr<'a> for RenameArgs<'a> {
    ghost use Rattle.nfs3_types.specs.Shapes.{dir_op};
    ghost use Rattle.xdr3.specs.Shape.{◌then◌};

    ghost shape = { dir_op then dir_op };

    #[tactic(auto, unfolding(xdr3::specs::Reading::reading, xdr3::specs::Item::followed_by))]
    fn get(alloc: Global, input: &mut Input<'a>) -> Result<RenameArgs<'a>, GetError> {
        let from = DirOp::get(alloc, input)?;
        let to = DirOp::get(alloc, input)?;
        Ok(RenameArgs { from, to })
    }
}

impl<'a> Walk for RenameArgs<'a> {
    ghost use Rattle.procs3.specs.Directories.{rename_args_items};

    ghost items = { rename_args_items };

    fn walk<V: Visit>(&self, visitor: &mut V) -> Result<(), AllocError> {
        walk_two(&self.from, &self.to, visitor)
    }
}

/// The attributes of both directories before and after a RENAME, which a failed reply contains too
/// (RFC 1813, section 3.3.14).
#[derive(Clone, Copy, PartialEq, Eq)]
pub struct RenameWcc {
    pub from: Wcc,
    pub to: Wcc,
}

impl<'a> Xdr<'a> for RenameWcc {
    ghost use Rattle.nfs3_types.specs.Shapes.{wcc};
    ghost use Rattle.xdr3.specs.Shape.{◌then◌};

    ghost shape = { wcc then wcc };

    #[tactic(auto, unfolding(xdr3::specs::Reading::reading, xdr3::specs::Item::followed_by))]
    fn get(alloc: Global, input: &mut Input<'a>) -> Result<RenameWcc, GetError> {
        let from = Wcc::get(alloc, input)?;
        let to = Wcc::get(alloc, input)?;
        Ok(RenameWcc { from, to })
    }
}

impl Walk for RenameWcc {
    ghost use Rattle.procs3.specs.Directories.{rename_wcc_items};

    ghost items = { rename_wcc_items };

    fn walk<V: Visit>(&self, visitor: &mut V) -> Result<(), AllocError> {
        walk_two(&self.from, &self.to, visitor)
    }
}

/// The arguments of LINK: `LINK3args` (RFC 1813, section 3.3.15).
#[derive(Clone, Copy)]
pub struct LinkArgs<'a> {
    pub handle: Handle,
    pub place: DirOp<'a>,
}

impl<'a> Xdr<'a> for LinkArgs<'a> {
    ghost use Rattle.nfs3_types.specs.Shapes.{dir_op, handle};
    ghost use Rattle.xdr3.specs.Shape.{◌then◌};

    ghost shape = { handle then dir_op };

    #[tactic(auto, unfolding(xdr3::specs::Reading::reading, xdr3::specs::Item::followed_by))]
    fn get(alloc: Global, input: &mut Input<'a>) -> Result<LinkArgs<'a>, GetError> {
        let handle = Handle::get(alloc, input)?;
        let place = DirOp::get(alloc, input)?;
        Ok(LinkArgs { handle, place })
    }
}

impl<'a> Walk for LinkArgs<'a> {
    ghost use Rattle.procs3.specs.Directories.{link_args_items};

    ghost items = { link_args_items };

    fn walk<V: Visit>(&self, visitor: &mut V) -> Result<(), AllocError> {
        walk_two(&self.handle, &self.place, visitor)
    }
}

/// The attributes of the file, and those of the directory before and after a LINK, which a failed
/// reply contains too (RFC 1813, section 3.3.15).
#[derive(Clone, Copy, PartialEq, Eq)]
pub struct LinkWcc {
    pub attr: PostOpAttr,
    pub dir: Wcc,
}

impl<'a> Xdr<'a> for LinkWcc {
    ghost use Rattle.nfs3_types.specs.Shapes.{post_op_attr, wcc};
    ghost use Rattle.xdr3.specs.Shape.{◌then◌};

    ghost shape = { post_op_attr then wcc };

    #[tactic(auto, unfolding(xdr3::specs::Reading::reading, xdr3::specs::Item::followed_by))]
    fn get(alloc: Global, input: &mut Input<'a>) -> Result<LinkWcc, GetError> {
        let attr = PostOpAttr::get(alloc, input)?;
        let dir = Wcc::get(alloc, input)?;
        Ok(LinkWcc { attr, dir })
    }
}

impl Walk for LinkWcc {
    ghost use Rattle.procs3.specs.Directories.{link_wcc_items};

    ghost items = { link_wcc_items };

    fn walk<V: Visit>(&self, visitor: &mut V) -> Result<(), AllocError> {
        walk_two(&self.attr, &self.dir, visitor)
    }
}

/// The arguments of READDIR: `READDIR3args` (RFC 1813, section 3.3.16).
#[derive(Clone, Copy, PartialEq, Eq)]
pub struct ReadDirArgs {
    pub handle: Handle,
    pub cookie: u64,
    pub cookieverf: [u8; 8],
    pub count: u32,
}

impl<'a> Xdr<'a> for ReadDirArgs {
    ghost use Rattle.procs3.specs.Table.{readdir3args};

    ghost shape = { readdir3args };

    fn get(alloc: Global, input: &mut Input<'a>) -> Result<ReadDirArgs, GetError> {
        let handle = Handle::get(alloc, input)?;
        let cookie = input.hyper()?;
        let cookieverf = input.fixed8()?;
        let count = input.word()?;
        Ok(ReadDirArgs {
            handle,
            cookie,
            cookieverf,
            count,
        })
    }
}

impl Walk for ReadDirArgs {
    ghost use Rattle.procs3.specs.Directories.{readdir_args_items};

    ghost items = { readdir_args_items };

    fn walk<V: Visit>(&self, visitor: &mut V) -> Result<(), AllocError> {
        let all = [
            Field::Handle("fh", self.handle.as_slice()),
            Field::Hyper("cookie", self.cookie),
            Field::Fixed("cookieverf", self.cookieverf),
            Field::Word("count", self.count),
        ];
        walk_fields(&all, visitor)
    }
}

/// A name in a directory: `entry3` (RFC 1813, section 3.3.16). It borrows from the record.
#[derive(Clone, Copy)]
pub struct Entry<'a> {
    pub fileid: u64,
    pub name: &'a [u8],
    pub cookie: u64,
}

impl<'a> Xdr<'a> for Entry<'a> {
    ghost use Rattle.procs3.specs.Shapes.{entry};

    ghost shape = { entry };

    #[tactic(auto, unfolding(xdr3::specs::Reading::reading, crate::specs::Shapes::entry))]
    fn get(_alloc: Global, input: &mut Input<'a>) -> Result<Entry<'a>, GetError> {
        let fileid = input.hyper()?;
        let name = input.var(u32::MAX)?;
        let cookie = input.hyper()?;
        Ok(Entry {
            fileid,
            name,
            cookie,
        })
    }
}

impl<'a> Walk for Entry<'a> {
    ghost use Rattle.procs3.specs.Directories.{entry_items};

    ghost items = { entry_items };

    fn walk<V: Visit>(&self, visitor: &mut V) -> Result<(), AllocError> {
        let all = [
            Field::Hyper("fileid", self.fileid),
            Field::Text("name", self.name),
            Field::Hyper("cookie", self.cookie),
        ];
        walk_fields(&all, visitor)
    }
}

/// The results of a successful READDIR: `READDIR3resok` (RFC 1813, section 3.3.16).
#[derive(Drop)]
pub struct ReadDirOk<'a> {
    pub attr: PostOpAttr,
    pub cookieverf: [u8; 8],
    pub entries: Vec<Entry<'a>>,
    pub eof: bool,
}

impl<'a> Xdr<'a> for ReadDirOk<'a> {
    ghost use Rattle.std.specs.Prelude.{true};
    ghost use Rattle.procs3.specs.Table.{readdir3resok};

    ghost shape = { readdir3resok };

    ghost owns_memory = { true };

    #[tactic(auto, unfolding(xdr3::specs::Reading::reading, xdr3::specs::Item::followed_by))]
    fn get(alloc: Global, input: &mut Input<'a>) -> Result<ReadDirOk<'a>, GetError> {
        let attr = PostOpAttr::get(alloc, input)?;
        let cookieverf = input.fixed8()?;
        let entries = get_linked(alloc, input)?;
        let eof = input.boolean()?;
        Ok(ReadDirOk {
            attr,
            cookieverf,
            entries,
            eof,
        })
    }
}

impl<'a> Walk for ReadDirOk<'a> {
    ghost use Rattle.procs3.specs.Directories.{readdir_ok_items};

    ghost items = { readdir_ok_items };

    fn walk<V: Visit>(&self, visitor: &mut V) -> Result<(), AllocError> {
        walk_listing(
            &self.attr,
            self.cookieverf,
            self.entries.as_slice(),
            self.eof,
            visitor,
        )
    }
}

/// The arguments of READDIRPLUS: `READDIRPLUS3args` (RFC 1813, section 3.3.17).
#[derive(Clone, Copy, PartialEq, Eq)]
pub struct ReadDirPlusArgs {
    pub handle: Handle,
    pub cookie: u64,
    pub cookieverf: [u8; 8],
    pub dircount: u32,
    pub maxcount: u32,
}

impl<'a> Xdr<'a> for ReadDirPlusArgs {
    ghost use Rattle.procs3.specs.Table.{readdirplus3args};

    ghost shape = { readdirplus3args };

    fn get(alloc: Global, input: &mut Input<'a>) -> Result<ReadDirPlusArgs, GetError> {
        let handle = Handle::get(alloc, input)?;
        let cookie = input.hyper()?;
        let cookieverf = input.fixed8()?;
        let dircount = input.word()?;
        let maxcount = input.word()?;
        Ok(ReadDirPlusArgs {
            handle,
            cookie,
            cookieverf,
            dircount,
            maxcount,
        })
    }
}

impl Walk for ReadDirPlusArgs {
    ghost use Rattle.procs3.specs.Directories.{readdirplus_args_items};

    ghost items = { readdirplus_args_items };

    fn walk<V: Visit>(&self, visitor: &mut V) -> Result<(), AllocError> {
        let all = [
            Field::Handle("fh", self.handle.as_slice()),
            Field::Hyper("cookie", self.cookie),
            Field::Fixed("cookieverf", self.cookieverf),
            Field::Word("dircount", self.dircount),
            Field::Word("maxcount", self.maxcount),
        ];
        walk_fields(&all, visitor)
    }
}

/// A name in a directory with its attributes and its handle: `entryplus3` (RFC 1813, section
/// 3.3.17). It borrows from the record.
#[derive(Clone, Copy)]
pub struct EntryPlus<'a> {
    pub fileid: u64,
    pub name: &'a [u8],
    pub cookie: u64,
    pub attr: PostOpAttr,
    pub handle: PostOpFh,
}

impl<'a> Xdr<'a> for EntryPlus<'a> {
    ghost use Rattle.procs3.specs.Shapes.{entry_plus};

    ghost shape = { entry_plus };

    #[tactic(auto, unfolding(xdr3::specs::Reading::reading, crate::specs::Shapes::entry_plus, crate::specs::Shapes::entry, xdr3::specs::Item::followed_by))]
    fn get(alloc: Global, input: &mut Input<'a>) -> Result<EntryPlus<'a>, GetError> {
        let fileid = input.hyper()?;
        let name = input.var(u32::MAX)?;
        let cookie = input.hyper()?;
        let attr = PostOpAttr::get(alloc, input)?;
        let handle = PostOpFh::get(alloc, input)?;
        Ok(EntryPlus {
            fileid,
            name,
            cookie,
            attr,
            handle,
        })
    }
}

impl<'a> Walk for EntryPlus<'a> {
    ghost use Rattle.procs3.specs.Directories.{entry_plus_items};

    ghost items = { entry_plus_items };

    fn walk<V: Visit>(&self, visitor: &mut V) -> Result<(), AllocError> {
        let all = [
            Field::Hyper("fileid", self.fileid),
            Field::Text("name", self.name),
            Field::Hyper("cookie", self.cookie),
        ];
        walk_fields(&all, visitor)?;
        walk_two(&self.attr, &self.handle, visitor)?;
        Ok(())
    }
}

/// The results of a successful READDIRPLUS: `READDIRPLUS3resok` (RFC 1813, section 3.3.17).
#[derive(Drop)]
pub struct ReadDirPlusOk<'a> {
    pub attr: PostOpAttr,
    pub cookieverf: [u8; 8],
    pub entries: Vec<EntryPlus<'a>>,
    pub eof: bool,
}

impl<'a> Xdr<'a> for ReadDirPlusOk<'a> {
    ghost use Rattle.std.specs.Prelude.{true};
    ghost use Rattle.procs3.specs.Table.{readdirplus3resok};

    ghost shape = { readdirplus3resok };

    ghost owns_memory = { true };

    #[tactic(auto, unfolding(xdr3::specs::Reading::reading, xdr3::specs::Item::followed_by))]
    fn get(alloc: Global, input: &mut Input<'a>) -> Result<ReadDirPlusOk<'a>, GetError> {
        let attr = PostOpAttr::get(alloc, input)?;
        let cookieverf = input.fixed8()?;
        let entries = get_linked(alloc, input)?;
        let eof = input.boolean()?;
        Ok(ReadDirPlusOk {
            attr,
            cookieverf,
            entries,
            eof,
        })
    }
}

impl<'a> Walk for ReadDirPlusOk<'a> {
    ghost use Rattle.procs3.specs.Directories.{readdirplus_ok_items};

    ghost items = { readdirplus_ok_items };

    fn walk<V: Visit>(&self, visitor: &mut V) -> Result<(), AllocError> {
        walk_listing(
            &self.attr,
            self.cookieverf,
            self.entries.as_slice(),
            self.eof,
            visitor,
        )
    }
}
