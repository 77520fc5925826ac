//! Names in directories, and optional handles (RFC 1813).
#![tactic(auto, unfolding(xdr3::specs::Reading::reading, crate::specs::Shapes::dir_op, crate::specs::Shapes::post_op_fh, xdr3::specs::Item::called))]

use crate::values::handle::Handle;
use std::alloc::{AllocError, Global};
use xdr3::{Field, GetError, Input, Visit, Walk, Xdr, get_optional, walk_fields, walk_optional};

/// A name in a directory: `diropargs3` (RFC 1813). The name borrows from the record.
#[derive(Clone, Copy)]
pub struct DirOp<'a> {
    pub dir: Handle,
    pub name: &'a [u8],
}

impl<'a> Xdr<'a> for DirOp<'a> {
    ghost use Rattle.nfs3_types.specs.Shapes.{dir_op};

    ghost shape = { dir_op };

    fn get(alloc: Global, input: &mut Input<'a>) -> Result<DirOp<'a>, GetError> {
        let dir = Handle::get(alloc, input)?;
        let name = input.var(u32::MAX)?;
        Ok(DirOp { dir, name })
    }
}

impl<'a> Walk for DirOp<'a> {
    ghost use Rattle.nfs3_types.specs.Items.{dir_op_items};

    ghost items = { dir_op_items };

    fn walk<V: Visit>(&self, visitor: &mut V) -> Result<(), AllocError> {
        let all = [
            Field::Handle("fh", self.dir.as_slice()),
            Field::Text("name", self.name),
        ];
        walk_fields(&all, visitor)
    }
}

/// A file handle, which a reply may leave out: `post_op_fh3` (RFC 1813).
#[derive(Clone, Copy, PartialEq, Eq)]
pub struct PostOpFh {
    pub handle: Option<Handle>,
}

impl<'a> Xdr<'a> for PostOpFh {
    ghost use Rattle.nfs3_types.specs.Shapes.{post_op_fh};

    ghost shape = { post_op_fh };

    fn get(alloc: Global, input: &mut Input<'a>) -> Result<PostOpFh, GetError> {
        let handle = get_optional(alloc, input)?;
        Ok(PostOpFh { handle })
    }
}

impl Walk for PostOpFh {
    ghost use Rattle.nfs3_types.specs.Items.{post_op_fh_items};

    ghost items = { post_op_fh_items };

    fn walk<V: Visit>(&self, visitor: &mut V) -> Result<(), AllocError> {
        walk_optional("handle", &self.handle, visitor)
    }
}
