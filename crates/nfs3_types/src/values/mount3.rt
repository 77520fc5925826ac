//! The parts of MOUNT version 3 (RFC 1813, section 5).
#![tactic(auto, using(xdr3::proofs::Lemmas::Shapes::Walks::steps), unfolding(xdr3::specs::Reading::reading, crate::specs::Shapes::mount_status, crate::specs::Shapes::flavor, crate::specs::Shapes::mounted, crate::specs::Shapes::group, xdr3::specs::Item::called))]

ghost use Rattle.std.specs.Prelude.{◌≡◌, ◌↔◌, IfSome, IsSome, IsTrue};
ghost use Rattle.xdr3.specs.Reading.{word_at};
ghost use Rattle.xdr3.specs.Named.{linked};
ghost use Rattle.xdr3.specs.Shape.{is_listed};
ghost use Rattle.xdr3.specs.View.{Answers, MovesOn};

use crate::values::handle::Handle;
use std::alloc::{AllocError, Global};
use xdr3::{
    Field, GetError, Input, Reason, Stop, Visit, Walk, Xdr, get_counted, get_linked, walk_counted,
    walk_fields, walk_linked,
};

/// The status of an MNT call: `mountstat3` (RFC 1813, section 5.1.5).
#[derive(Clone, Copy, Debug, PartialEq, Eq)]
pub enum MountStatus {
    /// `MNT3_OK` (0): the call succeeded.
    Ok,
    /// `MNT3ERR_PERM` (1): the caller is not the owner.
    Perm,
    /// `MNT3ERR_NOENT` (2): no such file or directory.
    NoEnt,
    /// `MNT3ERR_IO` (5): an I/O error.
    Io,
    /// `MNT3ERR_ACCES` (13): permission denied.
    Acces,
    /// `MNT3ERR_NOTDIR` (20): not a directory.
    NotDir,
    /// `MNT3ERR_INVAL` (22): an invalid argument.
    Inval,
    /// `MNT3ERR_NAMETOOLONG` (63): the name is too long.
    NameTooLong,
    /// `MNT3ERR_NOTSUPP` (10004): the operation is not supported.
    NotSupp,
    /// `MNT3ERR_SERVERFAULT` (10006): an error in the server.
    ServerFault,
}

impl MountStatus {
    ghost use Rattle.nfs3_types.specs.MountStatus.{mount_status_number, mount_status_words};

    /// Returns its number.
    pub fn number(self) -> u32
        ensures { result ≡ mount_status_number self }
    {
        match self {
            MountStatus::Ok => 0,
            MountStatus::Perm => 1,
            MountStatus::NoEnt => 2,
            MountStatus::Io => 5,
            MountStatus::Acces => 13,
            MountStatus::NotDir => 20,
            MountStatus::Inval => 22,
            MountStatus::NameTooLong => 63,
            MountStatus::NotSupp => 10_004,
            MountStatus::ServerFault => 10_006,
        }
    }

    /// Reads a status from the next word. `BadEnum` if the word is not a status, `Short` if fewer
    /// than four bytes are left.
    pub fn take(input: &mut Input) -> Result<MountStatus, Stop>
        ensures read { Answers mount_status_number result input.new.at
            (word_at (is_listed mount_status_words) Reason.BadEnum input.old.body input.old.at) }
        ensures moves { MovesOn input.old input.new }
    {
        let at = input.at();
        let n = input.word()?;
        MountStatus::of_number(n).ok_or(Stop {
            at,
            reason: Reason::BadEnum,
        })
    }

    /// Returns the status with this number, if there is one.
    fn of_number(n: u32) -> Option<MountStatus>
        ensures number { IfSome result (λ status. mount_status_number status ≡ n) }
        ensures listed { IsSome result ↔ IsTrue (is_listed mount_status_words n) }
    {
        match n {
            0 => Some(MountStatus::Ok),
            1 => Some(MountStatus::Perm),
            2 => Some(MountStatus::NoEnt),
            5 => Some(MountStatus::Io),
            13 => Some(MountStatus::Acces),
            20 => Some(MountStatus::NotDir),
            22 => Some(MountStatus::Inval),
            63 => Some(MountStatus::NameTooLong),
            10_004 => Some(MountStatus::NotSupp),
            10_006 => Some(MountStatus::ServerFault),
            _ => None,
        }
    }
}

impl<'a> Xdr<'a> for MountStatus {
    ghost use Rattle.nfs3_types.specs.Shapes.{mount_status};

    ghost shape = { mount_status };

    fn get(_alloc: Global, input: &mut Input<'a>) -> Result<MountStatus, GetError> {
        let value = MountStatus::take(input)?;
        Ok(value)
    }
}

impl Walk for MountStatus {
    ghost use Rattle.nfs3_types.specs.Mounts.{mount_status_items};

    ghost items = { mount_status_items };

    fn walk<V: Visit>(&self, visitor: &mut V) -> Result<(), AllocError> {
        walk_fields(&[Field::Word("status", self.number())], visitor)
    }
}

/// An authentication flavor that a server accepts (RFC 1813, section 5.2.1).
#[derive(Clone, Copy, Debug, PartialEq, Eq)]
pub struct Flavor {
    pub number: u32,
}

impl<'a> Xdr<'a> for Flavor {
    ghost use Rattle.nfs3_types.specs.Shapes.{flavor};

    ghost shape = { flavor };

    fn get(_alloc: Global, input: &mut Input<'a>) -> Result<Flavor, GetError> {
        let number = input.word()?;
        Ok(Flavor { number })
    }
}

impl Walk for Flavor {
    ghost use Rattle.nfs3_types.specs.Mounts.{flavor_items};

    ghost items = { flavor_items };

    fn walk<V: Visit>(&self, visitor: &mut V) -> Result<(), AllocError> {
        walk_fields(&[Field::Word("flavor", self.number)], visitor)
    }
}

/// The results of a successful MNT: `mountres3_ok` (RFC 1813, section 5.2.1).
#[derive(Drop)]
pub struct MountOk {
    pub handle: Handle,
    pub flavors: Vec<Flavor>,
}

impl<'a> Xdr<'a> for MountOk {
    ghost use Rattle.std.specs.Prelude.{true};
    ghost use Rattle.nfs3_types.specs.Shapes.{mount_ok};

    ghost shape = { mount_ok };

    ghost owns_memory = { true };

    #[tactic(auto, unfolding(xdr3::specs::Reading::reading, crate::specs::Shapes::mount_ok, xdr3::specs::Item::followed_by))]
    fn get(alloc: Global, input: &mut Input<'a>) -> Result<MountOk, GetError> {
        let handle = Handle::get(alloc, input)?;
        let flavors = get_counted(alloc, input, u32::MAX)?;
        Ok(MountOk { handle, flavors })
    }
}

impl Walk for MountOk {
    ghost use Rattle.nfs3_types.specs.Mounts.{mount_ok_items};

    ghost items = { mount_ok_items };

    #[tactic(auto, using(xdr3::proofs::Lemmas::Shapes::Walks::steps, crate::proofs::Flavors::few_flavors), unfolding(xdr3::specs::Item::called))]
    fn walk<V: Visit>(&self, visitor: &mut V) -> Result<(), AllocError> {
        self.handle.walk(visitor)?;
        walk_counted("flavors", self.flavors.as_slice(), visitor)?;
        Ok(())
    }
}

/// A mount that a server remembers: `mountbody` (RFC 1813, section 5.2.2). It has a client's host
/// name of at most 255 bytes, and the directory that it mounted, of at most 1,024 bytes. Both
/// borrow from the record.
#[derive(Clone, Copy)]
pub struct Mounted<'a> {
    pub hostname: &'a [u8],
    pub directory: &'a [u8],
}

impl<'a> Xdr<'a> for Mounted<'a> {
    ghost use Rattle.nfs3_types.specs.Shapes.{mounted};

    ghost shape = { mounted };

    fn get(_alloc: Global, input: &mut Input<'a>) -> Result<Mounted<'a>, GetError> {
        let hostname = input.var(255)?;
        let directory = input.var(1024)?;
        Ok(Mounted {
            hostname,
            directory,
        })
    }
}

impl<'a> Walk for Mounted<'a> {
    ghost use Rattle.nfs3_types.specs.Mounts.{mounted_items};

    ghost items = { mounted_items };

    fn walk<V: Visit>(&self, visitor: &mut V) -> Result<(), AllocError> {
        let all = [
            Field::Text("hostname", self.hostname),
            Field::Text("directory", self.directory),
        ];
        walk_fields(&all, visitor)
    }
}

/// The mounts that a server remembers: `mountlist` (RFC 1813, section 5.2.2).
#[derive(Drop)]
pub struct MountList<'a> {
    pub entries: Vec<Mounted<'a>>,
}

impl<'a> Xdr<'a> for MountList<'a> {
    ghost use Rattle.std.specs.Prelude.{true};
    ghost use Rattle.nfs3_types.specs.Shapes.{mounted};

    ghost shape = { linked "entry" mounted };

    ghost owns_memory = { true };

    #[tactic(auto)]
    fn get(alloc: Global, input: &mut Input<'a>) -> Result<MountList<'a>, GetError> {
        let entries = get_linked(alloc, input)?;
        Ok(MountList { entries })
    }
}

impl<'a> Walk for MountList<'a> {
    ghost use Rattle.nfs3_types.specs.Mounts.{mount_list_items};

    ghost items = { mount_list_items };

    fn walk<V: Visit>(&self, visitor: &mut V) -> Result<(), AllocError> {
        walk_linked("entry", self.entries.as_slice(), visitor)
    }
}

/// A group that may mount a directory, by a name of at most 255 bytes: `groupnode` (RFC 1813,
/// section 5.2.5). The name borrows from the record.
#[derive(Clone, Copy)]
pub struct Group<'a> {
    pub name: &'a [u8],
}

impl<'a> Xdr<'a> for Group<'a> {
    ghost use Rattle.nfs3_types.specs.Shapes.{group};

    ghost shape = { group };

    fn get(_alloc: Global, input: &mut Input<'a>) -> Result<Group<'a>, GetError> {
        let name = input.var(255)?;
        Ok(Group { name })
    }
}

impl<'a> Walk for Group<'a> {
    ghost use Rattle.nfs3_types.specs.Mounts.{export_group_items};

    ghost items = { export_group_items };

    fn walk<V: Visit>(&self, visitor: &mut V) -> Result<(), AllocError> {
        walk_fields(&[Field::Text("name", self.name)], visitor)
    }
}

/// A directory of at most 1,024 bytes that a server exports, and the groups that may mount it:
/// `exportnode` (RFC 1813, section 5.2.5).
#[derive(Drop)]
pub struct Export<'a> {
    pub directory: &'a [u8],
    pub groups: Vec<Group<'a>>,
}

impl<'a> Xdr<'a> for Export<'a> {
    ghost use Rattle.std.specs.Prelude.{true};
    ghost use Rattle.nfs3_types.specs.Shapes.{export};

    ghost shape = { export };

    ghost owns_memory = { true };

    #[tactic(auto, unfolding(xdr3::specs::Reading::reading, crate::specs::Shapes::export, xdr3::specs::Item::followed_by))]
    fn get(alloc: Global, input: &mut Input<'a>) -> Result<Export<'a>, GetError> {
        let directory = input.var(1024)?;
        let groups = get_linked(alloc, input)?;
        Ok(Export { directory, groups })
    }
}

impl<'a> Walk for Export<'a> {
    ghost use Rattle.nfs3_types.specs.Mounts.{export_items};

    ghost items = { export_items };

    fn walk<V: Visit>(&self, visitor: &mut V) -> Result<(), AllocError> {
        walk_fields(&[Field::Text("directory", self.directory)], visitor)?;
        walk_linked("group", self.groups.as_slice(), visitor)?;
        Ok(())
    }
}

/// The directories that a server exports: `exports` (RFC 1813, section 5.2.5).
#[derive(Drop)]
pub struct Exports<'a> {
    pub entries: Vec<Export<'a>>,
}

impl<'a> Xdr<'a> for Exports<'a> {
    ghost use Rattle.std.specs.Prelude.{true};
    ghost use Rattle.nfs3_types.specs.Shapes.{export};

    ghost shape = { linked "entry" export };

    ghost owns_memory = { true };

    fn get(alloc: Global, input: &mut Input<'a>) -> Result<Exports<'a>, GetError> {
        let entries = get_linked(alloc, input)?;
        Ok(Exports { entries })
    }
}

impl<'a> Walk for Exports<'a> {
    ghost use Rattle.nfs3_types.specs.Mounts.{exports_items};

    ghost items = { exports_items };

    fn walk<V: Visit>(&self, visitor: &mut V) -> Result<(), AllocError> {
        walk_linked("entry", self.entries.as_slice(), visitor)
    }
}
