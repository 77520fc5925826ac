//! Types of files (RFC 1813).

ghost use Rattle.std.specs.Prelude.{◌≡◌, ◌↔◌, IfSome, IsSome, IsTrue};
ghost use Rattle.xdr3.specs.Reading.{word_at};
ghost use Rattle.xdr3.specs.Shape.{is_listed};
ghost use Rattle.xdr3.specs.View.{Answers, MovesOn};

use std::alloc::{AllocError, Global};
use xdr3::{Field, GetError, Input, Reason, Stop, Visit, Walk, Xdr, walk_fields};

/// The type of a file: `ftype3`, 1 to 7 (RFC 1813).
#[derive(Clone, Copy, Debug, PartialEq, Eq)]
pub enum FileKind {
    /// `NF3REG` (1): a regular file.
    Reg,
    /// `NF3DIR` (2): a directory.
    Dir,
    /// `NF3BLK` (3): a block special device.
    Blk,
    /// `NF3CHR` (4): a character special device.
    Chr,
    /// `NF3LNK` (5): a symbolic link.
    Lnk,
    /// `NF3SOCK` (6): a socket.
    Sock,
    /// `NF3FIFO` (7): a named pipe.
    Fifo,
}

impl FileKind {
    ghost use Rattle.nfs3_types.specs.FileKind.{file_kind_number, file_kind_words};

    /// Returns its number.
    pub fn number(self) -> u32
        ensures { result ≡ file_kind_number self }
    {
        match self {
            FileKind::Reg => 1,
            FileKind::Dir => 2,
            FileKind::Blk => 3,
            FileKind::Chr => 4,
            FileKind::Lnk => 5,
            FileKind::Sock => 6,
            FileKind::Fifo => 7,
        }
    }

    /// Reads a file type from the next word. `BadEnum` if the word is not a file type, `Short` if
    /// fewer than four bytes are left.
    pub fn take(input: &mut Input) -> Result<FileKind, Stop>
        ensures read { Answers file_kind_number result input.new.at
            (word_at (is_listed file_kind_words) Reason.BadEnum input.old.body input.old.at) }
        ensures moves { MovesOn input.old input.new }
    {
        let at = input.at();
        let n = input.word()?;
        FileKind::of_number(n).ok_or(Stop {
            at,
            reason: Reason::BadEnum,
        })
    }

    /// Returns the type with this number, if there is one.
    fn of_number(n: u32) -> Option<FileKind>
        ensures number { IfSome result (λ kind. file_kind_number kind ≡ n) }
        ensures listed { IsSome result ↔ IsTrue (is_listed file_kind_words n) }
    {
        match n {
            1 => Some(FileKind::Reg),
            2 => Some(FileKind::Dir),
            3 => Some(FileKind::Blk),
            4 => Some(FileKind::Chr),
            5 => Some(FileKind::Lnk),
            6 => Some(FileKind::Sock),
            7 => Some(FileKind::Fifo),
            _ => None,
        }
    }
}

impl<'a> Xdr<'a> for FileKind {
    ghost use Rattle.nfs3_types.specs.FileKind.{file_kind_words};
    ghost use Rattle.xdr3.specs.Named.{listed};

    ghost shape = { listed "type" file_kind_words };

    #[tactic(auto, unfolding(xdr3::specs::Reading::reading))]
    fn get(_alloc: Global, input: &mut Input<'a>) -> Result<FileKind, GetError> {
        let value = FileKind::take(input)?;
        Ok(value)
    }
}

impl Walk for FileKind {
    ghost use Rattle.nfs3_types.specs.Items.{file_kind_items};

    ghost items = { file_kind_items };

    #[tactic(auto, unfolding(xdr3::specs::Item::called))]
    fn walk<V: Visit>(&self, visitor: &mut V) -> Result<(), AllocError> {
        walk_fields(&[Field::Word("type", self.number())], visitor)
    }
}
