//! Times (RFC 1813). Their items are named after the time that they are.

ghost use Rattle.std.specs.Prelude.{ℕ, List, OnErr, OnOk};
ghost use Rattle.xdr3.specs.Reading.{reading};
ghost use Rattle.xdr3.specs.View.{Answers, MovesOn};
ghost use Rattle.xdr3.specs.Visit.{Adds, AddsSome, AreWithinLimit};

use std::alloc::AllocError;
use xdr3::{Field, Input, Stop, Visit, walk_fields};

/// A time: seconds and nanoseconds since 1970-01-01 00:00 UTC, `nfstime3` (RFC 1813).
#[derive(Clone, Copy, Debug, PartialEq, Eq)]
pub struct Time {
    pub sec: u32,
    pub nsec: u32,
}

impl Time {
    ghost use Rattle.nfs3_types.specs.Shapes.{time_named};
    ghost use Rattle.nfs3_types.specs.Times.{time_items};

    /// Reads a time from the next two words. `Short` at the one that is not whole.
    #[tactic(auto, unfolding(xdr3::specs::Reading::reading, crate::specs::Shapes::time_named))]
    pub fn take(input: &mut Input) -> Result<Time, Stop>
        ensures read { (sec nsec : List ℕ)
            → Answers (time_items sec nsec) result input.new.at
            (reading (time_named sec nsec) input.old.body input.old.at) }
        ensures moves { MovesOn input.old input.new }
    {
        let sec = input.word()?;
        let nsec = input.word()?;
        Ok(Time { sec, nsec })
    }
}

/// How a time is set (RFC 1813): not at all (0), to the server's time (1), or to the
/// time that the caller gives (2).
#[derive(Clone, Copy, Debug, PartialEq, Eq)]
pub enum TimeHow {
    Keep,
    Server,
    Client(Time),
}

impl TimeHow {
    ghost use Rattle.nfs3_types.specs.Shapes.{time_how_named};
    ghost use Rattle.nfs3_types.specs.Times.{time_how_items};

    /// Reads a word, and a time if it is 2. `BadEnum` at a word over 2, `Short` at a word that is
    /// not whole.
    #[tactic(auto, unfolding(xdr3::specs::Reading::reading, crate::specs::Shapes::time_how_named))]
    pub fn take(input: &mut Input) -> Result<TimeHow, Stop>
        ensures read { (name sec nsec : List ℕ)
            → Answers (time_how_items name sec nsec) result input.new.at
            (reading (time_how_named name sec nsec) input.old.body input.old.at) }
        ensures moves { MovesOn input.old input.new }
    {
        match input.listed(&[0, 1, 2])? {
            0 => Ok(TimeHow::Keep),
            1 => Ok(TimeHow::Server),
            _ => {
                let time = Time::take(input)?;
                Ok(TimeHow::Client(time))
            }
        }
    }

    /// Visits the word, and the time's words if it is 2.
    pub(crate) fn walk<V: Visit>(
        self,
        name: &'static str,
        sec: &'static str,
        nsec: &'static str,
        visitor: &mut V,
    ) -> Result<(), AllocError>
        requires { AreWithinLimit (time_how_items name.now sec.now nsec.now self) }
        ensures ok { OnOk result (Adds V.stands visitor.old visitor.new
            (time_how_items name.now sec.now nsec.now self)) }
        ensures err { OnErr result (AddsSome V.stands visitor.old visitor.new
            (time_how_items name.now sec.now nsec.now self)) }
    {
        match self {
            TimeHow::Keep => walk_fields(&[Field::Word(name, 0)], visitor),
            TimeHow::Server => walk_fields(&[Field::Word(name, 1)], visitor),
            TimeHow::Client(time) => {
                let all = [
                    Field::Word(name, 2),
                    Field::Word(sec, time.sec),
                    Field::Word(nsec, time.nsec),
                ];
                walk_fields(&all, visitor)
            }
        }
    }
}

/// The times of a file: of its last access, of the last change of its data, and of its attributes.
#[derive(Clone, Copy)]
pub(crate) struct Times {
    pub atime: Time,
    pub mtime: Time,
    pub ctime: Time,
}

impl Times {
    ghost use Rattle.nfs3_types.specs.machinery.AttributeTails.{times};
    ghost use Rattle.nfs3_types.specs.machinery.TimesItems.{times_items};

    /// Reads the times from the next six words. `Short` at the one that is not whole.
    #[tactic(auto, unfolding(xdr3::specs::Reading::reading, crate::specs::machinery::AttributeTails::times))]
    pub fn take(input: &mut Input) -> Result<Times, Stop>
        ensures read { Answers times_items result input.new.at
            (reading times input.old.body input.old.at) }
        ensures moves { MovesOn input.old input.new }
    {
        let atime = Time::take(input)?;
        let mtime = Time::take(input)?;
        let ctime = Time::take(input)?;
        Ok(Times {
            atime,
            mtime,
            ctime,
        })
    }
}
