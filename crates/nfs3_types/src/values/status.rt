//! Statuses, and results that depend on them (RFC 1813).
#![tactic(auto, using(xdr3::proofs::Lemmas::Shapes::Walks::steps), unfolding(xdr3::specs::Reading::reading, crate::specs::Shapes::status, xdr3::specs::Item::called))]

ghost use Rattle.std.specs.Prelude.{◌≡◌, ◌≢◌, ◌↔◌, IfSome, IsSome, IsTrue};
ghost use Rattle.xdr3.specs.Reading.{word_at};
ghost use Rattle.xdr3.specs.Shape.{is_listed};
ghost use Rattle.xdr3.specs.View.{Answers, MovesOn};

use std::alloc::{AllocError, Global};
use xdr3::{Field, GetError, Input, Reason, Stop, Visit, Walk, Xdr, walk_fields};

/// The status of a call of an NFS procedure: `nfsstat3`, one of 29 numbers (RFC 1813).
#[derive(Clone, Copy, Debug, PartialEq, Eq)]
pub enum Status {
    /// `NFS3_OK` (0): the call succeeded.
    Ok,
    /// The call failed: one of the other 28 numbers.
    Failed(Failure),
}

/// Why a call of an NFS procedure failed: an `nfsstat3` other than 0 (RFC 1813).
#[derive(Clone, Copy, Debug, PartialEq, Eq)]
pub enum Failure {
    /// `NFS3ERR_PERM` (1): the caller is not the owner.
    Perm,
    /// `NFS3ERR_NOENT` (2): no such file or directory.
    NoEnt,
    /// `NFS3ERR_IO` (5): an I/O error.
    Io,
    /// `NFS3ERR_NXIO` (6): no such device or address.
    Nxio,
    /// `NFS3ERR_ACCES` (13): permission denied.
    Acces,
    /// `NFS3ERR_EXIST` (17): the file exists.
    Exist,
    /// `NFS3ERR_XDEV` (18): a hard link across devices.
    XDev,
    /// `NFS3ERR_NODEV` (19): no such device.
    NoDev,
    /// `NFS3ERR_NOTDIR` (20): not a directory.
    NotDir,
    /// `NFS3ERR_ISDIR` (21): a directory, where none is allowed.
    IsDir,
    /// `NFS3ERR_INVAL` (22): an invalid argument.
    Inval,
    /// `NFS3ERR_FBIG` (27): the file is too large.
    FBig,
    /// `NFS3ERR_NOSPC` (28): no space is left on the device.
    NoSpc,
    /// `NFS3ERR_ROFS` (30): the file system is read-only.
    RoFs,
    /// `NFS3ERR_MLINK` (31): too many hard links.
    MLink,
    /// `NFS3ERR_NAMETOOLONG` (63): the name is too long.
    NameTooLong,
    /// `NFS3ERR_NOTEMPTY` (66): the directory is not empty.
    NotEmpty,
    /// `NFS3ERR_DQUOT` (69): the quota is exceeded.
    DQuot,
    /// `NFS3ERR_STALE` (70): the handle's file is gone.
    Stale,
    /// `NFS3ERR_REMOTE` (71): too many levels of remote in the path.
    Remote,
    /// `NFS3ERR_BADHANDLE` (10001): the file handle is not valid.
    BadHandle,
    /// `NFS3ERR_NOT_SYNC` (10002): the guard of SETATTR differs from the file's ctime.
    NotSync,
    /// `NFS3ERR_BAD_COOKIE` (10003): the cookie of READDIR or READDIRPLUS is stale.
    BadCookie,
    /// `NFS3ERR_NOTSUPP` (10004): the operation is not supported.
    NotSupp,
    /// `NFS3ERR_TOOSMALL` (10005): the buffer or the request is too small.
    TooSmall,
    /// `NFS3ERR_SERVERFAULT` (10006): an error in the server that no other status describes.
    ServerFault,
    /// `NFS3ERR_BADTYPE` (10007): a type of object that the server does not support.
    BadType,
    /// `NFS3ERR_JUKEBOX` (10008): the server has begun the work; the caller tries again later.
    Jukebox,
}

impl Status {
    ghost use Rattle.nfs3_types.specs.Status.{status_number, status_words};

    /// Returns its number.
    pub fn number(self) -> u32
        ensures { result ≡ status_number self }
    {
        match self {
            Status::Ok => 0,
            Status::Failed(failure) => failure.number(),
        }
    }

    /// Reads a status from the next word. `BadEnum` if the word is not a status, `Short` if fewer
    /// than four bytes are left.
    pub fn take(input: &mut Input) -> Result<Status, Stop>
        ensures read { Answers status_number result input.new.at
            (word_at (is_listed status_words) Reason.BadEnum input.old.body input.old.at) }
        ensures moves { MovesOn input.old input.new }
    {
        let at = input.at();
        let n = input.word()?;
        Status::of_number(n).ok_or(Stop {
            at,
            reason: Reason::BadEnum,
        })
    }

    /// Returns the status with this number, if there is one.
    fn of_number(n: u32) -> Option<Status>
        ensures number { IfSome result (λ status. status_number status ≡ n) }
        ensures listed { IsSome result ↔ IsTrue (is_listed status_words n) }
    {
        match n {
            0 => Some(Status::Ok),
            _ => Failure::of_number(n).map(Status::Failed),
        }
    }
}

impl Failure {
    ghost use Rattle.nfs3_types.specs.Status.{failure_number, status_words};

    /// Returns its number.
    pub fn number(self) -> u32
        ensures { result ≡ failure_number self }
    {
        match self {
            Failure::Perm => 1,
            Failure::NoEnt => 2,
            Failure::Io => 5,
            Failure::Nxio => 6,
            Failure::Acces => 13,
            Failure::Exist => 17,
            Failure::XDev => 18,
            Failure::NoDev => 19,
            Failure::NotDir => 20,
            Failure::IsDir => 21,
            Failure::Inval => 22,
            Failure::FBig => 27,
            Failure::NoSpc => 28,
            Failure::RoFs => 30,
            Failure::MLink => 31,
            Failure::NameTooLong => 63,
            Failure::NotEmpty => 66,
            Failure::DQuot => 69,
            Failure::Stale => 70,
            Failure::Remote => 71,
            Failure::BadHandle => 10_001,
            Failure::NotSync => 10_002,
            Failure::BadCookie => 10_003,
            Failure::NotSupp => 10_004,
            Failure::TooSmall => 10_005,
            Failure::ServerFault => 10_006,
            Failure::BadType => 10_007,
            Failure::Jukebox => 10_008,
        }
    }

    /// Returns the failure with this number, if there is one.
    fn of_number(n: u32) -> Option<Failure>
        ensures number { IfSome result (λ failure. failure_number failure ≡ n) }
        ensures listed { IsSome result ↔ (IsTrue (is_listed status_words n) × (n ≢ 0)) }
    {
        match n {
            1 => Some(Failure::Perm),
            2 => Some(Failure::NoEnt),
            5 => Some(Failure::Io),
            6 => Some(Failure::Nxio),
            13 => Some(Failure::Acces),
            17 => Some(Failure::Exist),
            18 => Some(Failure::XDev),
            19 => Some(Failure::NoDev),
            20 => Some(Failure::NotDir),
            21 => Some(Failure::IsDir),
            22 => Some(Failure::Inval),
            27 => Some(Failure::FBig),
            28 => Some(Failure::NoSpc),
            30 => Some(Failure::RoFs),
            31 => Some(Failure::MLink),
            63 => Some(Failure::NameTooLong),
            66 => Some(Failure::NotEmpty),
            69 => Some(Failure::DQuot),
            70 => Some(Failure::Stale),
            71 => Some(Failure::Remote),
            10_001 => Some(Failure::BadHandle),
            10_002 => Some(Failure::NotSync),
            10_003 => Some(Failure::BadCookie),
            10_004 => Some(Failure::NotSupp),
            10_005 => Some(Failure::TooSmall),
            10_006 => Some(Failure::ServerFault),
            10_007 => Some(Failure::BadType),
            10_008 => Some(Failure::Jukebox),
            _ => None,
        }
    }
}

impl<'a> Xdr<'a> for Status {
    ghost use Rattle.nfs3_types.specs.Shapes.{status};

    ghost shape = { status };

    fn get(_alloc: Global, input: &mut Input<'a>) -> Result<Status, GetError> {
        let value = Status::take(input)?;
        Ok(value)
    }
}

impl Walk for Status {
    ghost use Rattle.nfs3_types.specs.Items.{status_items};

    ghost items = { status_items };

    fn walk<V: Visit>(&self, visitor: &mut V) -> Result<(), AllocError> {
        walk_fields(&[Field::Word("status", self.number())], visitor)
    }
}

/// The results of a call of an NFS procedure, which depend on its status: those of a success, or
/// those of a failure (RFC 1813, section 3.3).
#[derive(Clone, Copy, Debug, PartialEq, Eq, Drop)]
pub enum Res<T, F> {
    Done(T),
    Failed(Failure, F),
}

impl<'a, T: Xdr<'a> + Drop, F: Xdr<'a> + Drop> Xdr<'a> for Res<T, F> {
    ghost use Rattle.std.specs.Prelude.{◌||◌};
    ghost use Rattle.nfs3_types.specs.Shapes.{results};

    ghost shape = { results T.shape F.shape };

    ghost owns_memory = { T.owns_memory || F.owns_memory };

    #[tactic(auto, unfolding(xdr3::specs::Reading::reading, crate::specs::Shapes::results, xdr3::specs::Item::followed_by))]
    fn get(alloc: Global, input: &mut Input<'a>) -> Result<Res<T, F>, GetError> {
        match Status::take(input)? {
            Status::Ok => {
                let done = T::get(alloc, input)?;
                Ok(Res::Done(done))
            }
            Status::Failed(failure) => {
                let failed = F::get(alloc, input)?;
                Ok(Res::Failed(failure, failed))
            }
        }
    }
}

impl<T: Walk, F: Walk> Walk for Res<T, F> {
    ghost use Rattle.nfs3_types.specs.Results.{items_by_status};

    ghost items = { λ r. items_by_status T.items F.items r };

    fn walk<V: Visit>(&self, visitor: &mut V) -> Result<(), AllocError> {
        match self {
            Res::Done(done) => {
                visitor.word("status", 0)?;
                done.walk(visitor)?;
                Ok(())
            }
            Res::Failed(failure, failed) => {
                visitor.word("status", failure.number())?;
                failed.walk(visitor)?;
                Ok(())
            }
        }
    }
}
