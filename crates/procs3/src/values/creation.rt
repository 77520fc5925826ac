//! Arguments and results of the procedures that make a file (RFC 1813, sections 3.3.8 to 3.3.11).
#![tactic(auto, using(xdr3::proofs::Lemmas::Shapes::Walks::steps), unfolding(xdr3::specs::Reading::reading, xdr3::specs::Item::called))]

use crate::values::tagged::walk_tagged;
use crate::values::walks::{walk_three, walk_two, walk_with_fields};
use nfs3_types::{DirOp, PostOpAttr, PostOpFh, Sattr, Wcc};
use std::alloc::{AllocError, Global};
use xdr3::{Field, GetError, Input, Visit, Walk, Xdr, walk_fields};

/// The arguments of CREATE: `CREATE3args` (RFC 1813, section 3.3.8).
#[derive(Clone, Copy)]
pub struct CreateArgs<'a> {
    pub place: DirOp<'a>,
    pub how: CreateHow,
}

impl<'a> Xdr<'a> for CreateArgs<'a> {
    ghost use Rattle.nfs3_types.specs.Shapes.{dir_op};
    ghost use Rattle.procs3.specs.Shapes.{create_how};
    ghost use Rattle.xdr3.specs.Shape.{◌then◌};

    ghost shape = { dir_op then create_how };

    #[tactic(auto, unfolding(xdr3::specs::Reading::reading, xdr3::specs::Item::followed_by))]
    fn get(alloc: Global, input: &mut Input<'a>) -> Result<CreateArgs<'a>, GetError> {
        let place = DirOp::get(alloc, input)?;
        let how = CreateHow::get(alloc, input)?;
        Ok(CreateArgs { place, how })
    }
}

impl<'a> Walk for CreateArgs<'a> {
    ghost use Rattle.procs3.specs.Creation.{create_args_items};

    ghost items = { create_args_items };

    fn walk<V: Visit>(&self, visitor: &mut V) -> Result<(), AllocError> {
        walk_two(&self.place, &self.how, visitor)
    }
}

/// The arguments of MKDIR: `MKDIR3args` (RFC 1813, section 3.3.9).
#[derive(Clone, Copy)]
pub struct MkDirArgs<'a> {
    pub place: DirOp<'a>,
    pub attr: Sattr,
}

impl<'a> Xdr<'a> for MkDirArgs<'a> {
    ghost use Rattle.nfs3_types.specs.Shapes.{dir_op, settable};
    ghost use Rattle.xdr3.specs.Shape.{◌then◌};

    ghost shape = { dir_op then settable };

    #[tactic(auto, unfolding(xdr3::specs::Reading::reading, xdr3::specs::Item::followed_by))]
    fn get(alloc: Global, input: &mut Input<'a>) -> Result<MkDirArgs<'a>, GetError> {
        let place = DirOp::get(alloc, input)?;
        let attr = Sattr::get(alloc, input)?;
        Ok(MkDirArgs { place, attr })
    }
}

impl<'a> Walk for MkDirArgs<'a> {
    ghost use Rattle.procs3.specs.Creation.{mkdir_args_items};

    ghost items = { mkdir_args_items };

    fn walk<V: Visit>(&self, visitor: &mut V) -> Result<(), AllocError> {
        walk_two(&self.place, &self.attr, visitor)
    }
}

/// The arguments of SYMLINK: `SYMLINK3args` (RFC 1813, section 3.3.10). The path borrows from the
/// record.
#[derive(Clone, Copy)]
pub struct SymLinkArgs<'a> {
    pub place: DirOp<'a>,
    pub attr: Sattr,
    pub path: &'a [u8],
}

impl<'a> Xdr<'a> for SymLinkArgs<'a> {
    ghost use Rattle.nfs3_types.specs.Shapes.{dir_op, no_maximum, settable};
    ghost use Rattle.xdr3.specs.Item.{Text};
    ghost use Rattle.xdr3.specs.Named.{opaque};
    ghost use Rattle.xdr3.specs.Shape.{◌then◌};

    ghost shape = { dir_op then settable then opaque Text "path" no_maximum };

    #[tactic(auto, unfolding(xdr3::specs::Reading::reading, xdr3::specs::Item::followed_by))]
    fn get(alloc: Global, input: &mut Input<'a>) -> Result<SymLinkArgs<'a>, GetError> {
        let place = DirOp::get(alloc, input)?;
        let attr = Sattr::get(alloc, input)?;
        let path = input.var(u32::MAX)?;
        Ok(SymLinkArgs { place, attr, path })
    }
}

impl<'a> Walk for SymLinkArgs<'a> {
    ghost use Rattle.procs3.specs.Creation.{symlink_args_items};

    ghost items = { symlink_args_items };

    fn walk<V: Visit>(&self, visitor: &mut V) -> Result<(), AllocError> {
        self.place.walk(visitor)?;
        walk_with_fields(&self.attr, &[Field::Text("path", self.path)], visitor)?;
        Ok(())
    }
}

/// A device that MKNOD makes, by its attributes and its numbers: `devicedata3` (RFC 1813, section
/// 3.3.11).
#[derive(Clone, Copy, PartialEq, Eq)]
pub struct Device {
    pub attr: Sattr,
    pub spec1: u32,
    pub spec2: u32,
}

impl<'a> Xdr<'a> for Device {
    ghost use Rattle.procs3.specs.Shapes.{device};

    ghost shape = { device };

    #[tactic(auto, unfolding(xdr3::specs::Reading::reading, crate::specs::Shapes::device, xdr3::specs::Item::followed_by))]
    fn get(alloc: Global, input: &mut Input<'a>) -> Result<Device, GetError> {
        let attr = Sattr::get(alloc, input)?;
        let spec1 = input.word()?;
        let spec2 = input.word()?;
        Ok(Device { attr, spec1, spec2 })
    }
}

impl Walk for Device {
    ghost use Rattle.procs3.specs.Creation.{device_items};

    ghost items = { device_items };

    fn walk<V: Visit>(&self, visitor: &mut V) -> Result<(), AllocError> {
        let all = [
            Field::Word("spec1", self.spec1),
            Field::Word("spec2", self.spec2),
        ];
        walk_with_fields(&self.attr, &all, visitor)
    }
}

/// The arguments of MKNOD: `MKNOD3args` (RFC 1813, section 3.3.11).
#[derive(Clone, Copy)]
pub struct MkNodArgs<'a> {
    pub place: DirOp<'a>,
    pub what: MkNodWhat,
}

impl<'a> Xdr<'a> for MkNodArgs<'a> {
    ghost use Rattle.nfs3_types.specs.Shapes.{dir_op};
    ghost use Rattle.procs3.specs.Shapes.{mknod_what};
    ghost use Rattle.xdr3.specs.Shape.{◌then◌};

    ghost shape = { dir_op then mknod_what };

    #[tactic(auto, unfolding(xdr3::specs::Reading::reading, xdr3::specs::Item::followed_by))]
    fn get(alloc: Global, input: &mut Input<'a>) -> Result<MkNodArgs<'a>, GetError> {
        let place = DirOp::get(alloc, input)?;
        let what = MkNodWhat::get(alloc, input)?;
        Ok(MkNodArgs { place, what })
    }
}

impl<'a> Walk for MkNodArgs<'a> {
    ghost use Rattle.procs3.specs.Creation.{mknod_args_items};

    ghost items = { mknod_args_items };

    fn walk<V: Visit>(&self, visitor: &mut V) -> Result<(), AllocError> {
        walk_two(&self.place, &self.what, visitor)
    }
}

/// The results of a successful CREATE, MKDIR, SYMLINK or MKNOD (RFC 1813, sections 3.3.8 to
/// 3.3.11).
#[derive(Clone, Copy, PartialEq, Eq)]
pub struct CreateOk {
    pub handle: PostOpFh,
    pub attr: PostOpAttr,
    pub dir: Wcc,
}

impl<'a> Xdr<'a> for CreateOk {
    ghost use Rattle.procs3.specs.Shapes.{create_ok};

    ghost shape = { create_ok };

    #[tactic(auto, unfolding(xdr3::specs::Reading::reading, crate::specs::Shapes::create_ok, xdr3::specs::Item::followed_by))]
    fn get(alloc: Global, input: &mut Input<'a>) -> Result<CreateOk, GetError> {
        let handle = PostOpFh::get(alloc, input)?;
        let attr = PostOpAttr::get(alloc, input)?;
        let dir = Wcc::get(alloc, input)?;
        Ok(CreateOk { handle, attr, dir })
    }
}

impl Walk for CreateOk {
    ghost use Rattle.procs3.specs.Creation.{create_ok_items};

    ghost items = { create_ok_items };

    fn walk<V: Visit>(&self, visitor: &mut V) -> Result<(), AllocError> {
        walk_three(&self.handle, &self.attr, &self.dir, visitor)
    }
}

/// What CREATE does if the file exists: `createhow3` (RFC 1813, section 3.3.8). It keeps the file
/// (0), fails (1), or fails unless the file was made with this verifier (2).
#[derive(Clone, Copy, PartialEq, Eq)]
pub enum CreateHow {
    Unchecked(Sattr),
    Guarded(Sattr),
    Exclusive([u8; 8]),
}

impl<'a> Xdr<'a> for CreateHow {
    ghost use Rattle.procs3.specs.Shapes.{create_how};

    ghost shape = { create_how };

    #[tactic(auto, unfolding(xdr3::specs::Reading::reading, crate::specs::Shapes::create_how, xdr3::specs::Item::followed_by))]
    fn get(alloc: Global, input: &mut Input<'a>) -> Result<CreateHow, GetError> {
        match input.listed(&[0, 1, 2])? {
            0 => {
                let attr = Sattr::get(alloc, input)?;
                Ok(CreateHow::Unchecked(attr))
            }
            1 => {
                let attr = Sattr::get(alloc, input)?;
                Ok(CreateHow::Guarded(attr))
            }
            _ => {
                let verf = input.fixed8()?;
                Ok(CreateHow::Exclusive(verf))
            }
        }
    }
}

impl Walk for CreateHow {
    ghost use Rattle.procs3.specs.Creation.{create_how_items};

    ghost items = { create_how_items };

    fn walk<V: Visit>(&self, visitor: &mut V) -> Result<(), AllocError> {
        match self {
            CreateHow::Unchecked(attr) => walk_tagged("how", 0, attr, visitor),
            CreateHow::Guarded(attr) => walk_tagged("how", 1, attr, visitor),
            CreateHow::Exclusive(verf) => {
                let all = [Field::Word("how", 2), Field::Fixed("createverf", *verf)];
                walk_fields(&all, visitor)
            }
        }
    }
}

/// What MKNOD makes: `mknoddata3` (RFC 1813, section 3.3.11). A device, a socket and a named pipe
/// have attributes; a regular file, a directory and a symbolic link have none, since MKNOD makes
/// none.
#[derive(Clone, Copy, PartialEq, Eq)]
pub enum MkNodWhat {
    Reg,
    Dir,
    Blk(Device),
    Chr(Device),
    Lnk,
    Sock(Sattr),
    Fifo(Sattr),
}

impl<'a> Xdr<'a> for MkNodWhat {
    ghost use Rattle.procs3.specs.Shapes.{mknod_what};

    ghost shape = { mknod_what };

    #[tactic(auto, unfolding(xdr3::specs::Reading::reading, crate::specs::Shapes::mknod_what, xdr3::specs::Item::followed_by))]
    fn get(alloc: Global, input: &mut Input<'a>) -> Result<MkNodWhat, GetError> {
        match input.listed(&[1, 2, 3, 4, 5, 6, 7])? {
            1 => Ok(MkNodWhat::Reg),
            2 => Ok(MkNodWhat::Dir),
            3 => {
                let device = Device::get(alloc, input)?;
                Ok(MkNodWhat::Blk(device))
            }
            4 => {
                let device = Device::get(alloc, input)?;
                Ok(MkNodWhat::Chr(device))
            }
            5 => Ok(MkNodWhat::Lnk),
            6 => {
                let attr = Sattr::get(alloc, input)?;
                Ok(MkNodWhat::Sock(attr))
            }
            _ => {
                let attr = Sattr::get(alloc, input)?;
                Ok(MkNodWhat::Fifo(attr))
            }
        }
    }
}

impl Walk for MkNodWhat {
    ghost use Rattle.procs3.specs.Creation.{mknod_what_items};

    ghost items = { mknod_what_items };

    fn walk<V: Visit>(&self, visitor: &mut V) -> Result<(), AllocError> {
        match self {
            MkNodWhat::Reg => walk_fields(&[Field::Word("type", 1)], visitor),
            MkNodWhat::Dir => walk_fields(&[Field::Word("type", 2)], visitor),
            MkNodWhat::Blk(device) => walk_tagged("type", 3, device, visitor),
            MkNodWhat::Chr(device) => walk_tagged("type", 4, device, visitor),
            MkNodWhat::Lnk => walk_fields(&[Field::Word("type", 5)], visitor),
            MkNodWhat::Sock(attr) => walk_tagged("type", 6, attr, visitor),
            MkNodWhat::Fifo(attr) => walk_tagged("type", 7, attr, visitor),
        }
    }
}
