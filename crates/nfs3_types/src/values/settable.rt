//! Attributes that a caller sets (RFC 1813, section 3.3.2).
#![tactic(auto, using(xdr3::proofs::Lemmas::Shapes::Walks::steps), unfolding(xdr3::specs::Reading::reading, xdr3::specs::Shape::optional_named, crate::specs::machinery::AttributeTails::set_word, xdr3::specs::Item::called))]

ghost use Rattle.std.specs.Prelude.{ℕ, List, OnErr, OnOk};
ghost use Rattle.xdr3.specs.Reading.{reading};
ghost use Rattle.xdr3.specs.Shape.{hyper, optional_named};
ghost use Rattle.xdr3.specs.View.{Answers, MovesOn};
ghost use Rattle.xdr3.specs.Visit.{Adds, AddsSome, AreWithinLimit};
ghost use Rattle.nfs3_types.specs.Items.{set_hyper_items, set_word_items, settable_items};
ghost use Rattle.nfs3_types.specs.machinery.AttributeTails.{set_word, settable_parts};
ghost use Rattle.nfs3_types.specs.machinery.SettableItems.{size_and_times_items};

use crate::values::time::{Time, TimeHow};
use std::alloc::{AllocError, Global};
use xdr3::{Field, GetError, Input, Stop, Visit, Walk, Xdr, walk_fields};

/// Attributes to be set, each of them optional: `sattr3` (RFC 1813).
#[derive(Clone, Copy, Debug, PartialEq, Eq)]
pub struct Sattr {
    pub mode: Option<u32>,
    pub uid: Option<u32>,
    pub gid: Option<u32>,
    pub size: Option<u64>,
    pub atime: TimeHow,
    pub mtime: TimeHow,
}

impl<'a> Xdr<'a> for Sattr {
    ghost use Rattle.nfs3_types.specs.Shapes.{settable};

    ghost shape = { settable };

    #[tactic(auto, unfolding(crate::specs::Shapes::settable, crate::specs::machinery::AttributeTails::set_word, crate::specs::machinery::AttributeTails::settable_parts))]
    fn get(_alloc: Global, input: &mut Input<'a>) -> Result<Sattr, GetError> {
        let value = take_parts(input)?;
        Ok(value)
    }
}

/// Reads the attributes part by part.
#[tactic(auto, unfolding(xdr3::specs::Reading::reading, crate::specs::machinery::AttributeTails::settable_parts, xdr3::specs::Item::followed_by))]
fn take_parts(input: &mut Input) -> Result<Sattr, Stop>
    ensures read { Answers settable_items result input.new.at
        (reading settable_parts input.old.body input.old.at) }
    ensures moves { MovesOn input.old input.new }
{
    let mode = optional_word(input)?;
    let uid = optional_word(input)?;
    let gid = optional_word(input)?;
    let size = optional_hyper(input)?;
    let atime = TimeHow::take(input)?;
    let mtime = TimeHow::take(input)?;
    Ok(Sattr {
        mode,
        uid,
        gid,
        size,
        atime,
        mtime,
    })
}

impl Walk for Sattr {
    ghost use Rattle.nfs3_types.specs.Items.{settable_items};

    ghost items = { settable_items };

    fn walk<V: Visit>(&self, visitor: &mut V) -> Result<(), AllocError> {
        walk_set_word("set_mode", "mode", self.mode, visitor)?;
        walk_set_word("set_uid", "uid", self.uid, visitor)?;
        walk_set_word("set_gid", "gid", self.gid, visitor)?;
        walk_size_and_times(self, visitor)?;
        Ok(())
    }
}

/// Visits the size and the times.
fn walk_size_and_times<V: Visit>(attr: &Sattr, visitor: &mut V) -> Result<(), AllocError>
    requires { AreWithinLimit (size_and_times_items attr.now) }
    ensures ok { OnOk result (Adds V.stands visitor.old visitor.new
        (size_and_times_items attr.now)) }
    ensures err { OnErr result (AddsSome V.stands visitor.old visitor.new
        (size_and_times_items attr.now)) }
{
    walk_set_hyper("set_size", "size", attr.size, visitor)?;
    attr.atime
        .walk("set_atime", "atime_sec", "atime_nsec", visitor)?;
    attr.mtime
        .walk("set_mtime", "mtime_sec", "mtime_nsec", visitor)?;
    Ok(())
}

/// Reads a bool, and a word if it is true.
fn optional_word(input: &mut Input) -> Result<Option<u32>, Stop>
    ensures read { (set name : List ℕ)
        → Answers (set_word_items set name) result input.new.at
        (reading (set_word set name) input.old.body input.old.at) }
    ensures moves { MovesOn input.old input.new }
{
    if input.boolean()? {
        let n = input.word()?;
        Ok(Some(n))
    } else {
        Ok(None)
    }
}

/// Reads a bool, and a hyper if it is true.
fn optional_hyper(input: &mut Input) -> Result<Option<u64>, Stop>
    ensures read { (set name : List ℕ)
        → Answers (set_hyper_items set name) result input.new.at
        (reading (optional_named set (hyper name)) input.old.body input.old.at) }
    ensures moves { MovesOn input.old input.new }
{
    if input.boolean()? {
        let n = input.hyper()?;
        Ok(Some(n))
    } else {
        Ok(None)
    }
}

fn walk_set_word<V: Visit>(
    set: &'static str,
    name: &'static str,
    n: Option<u32>,
    visitor: &mut V,
) -> Result<(), AllocError>
    requires { AreWithinLimit (set_word_items set.now name.now n) }
    ensures ok { OnOk result (Adds V.stands visitor.old visitor.new
        (set_word_items set.now name.now n)) }
    ensures err { OnErr result (AddsSome V.stands visitor.old visitor.new
        (set_word_items set.now name.now n)) }
{
    match n {
        None => walk_fields(&[Field::Word(set, 0)], visitor),
        Some(n) => walk_fields(&[Field::Word(set, 1), Field::Word(name, n)], visitor),
    }
}

fn walk_set_hyper<V: Visit>(
    set: &'static str,
    name: &'static str,
    n: Option<u64>,
    visitor: &mut V,
) -> Result<(), AllocError>
    requires { AreWithinLimit (set_hyper_items set.now name.now n) }
    ensures ok { OnOk result (Adds V.stands visitor.old visitor.new
        (set_hyper_items set.now name.now n)) }
    ensures err { OnErr result (AddsSome V.stands visitor.old visitor.new
        (set_hyper_items set.now name.now n)) }
{
    match n {
        None => walk_fields(&[Field::Word(set, 0)], visitor),
        Some(n) => walk_fields(&[Field::Word(set, 1), Field::Hyper(name, n)], visitor),
    }
}

/// The ctime that a file must have for its attributes to be set, if that is to be checked:
/// `sattrguard3` (RFC 1813, section 3.3.2).
#[derive(Clone, Copy, Debug, PartialEq, Eq)]
pub struct Guard {
    pub check: Option<Time>,
}

impl<'a> Xdr<'a> for Guard {
    ghost use Rattle.nfs3_types.specs.Shapes.{guard};

    ghost shape = { guard };

    fn get(_alloc: Global, input: &mut Input<'a>) -> Result<Guard, GetError> {
        if input.boolean()? {
            let time = Time::take(input)?;
            Ok(Guard { check: Some(time) })
        } else {
            Ok(Guard { check: None })
        }
    }
}

impl Walk for Guard {
    ghost use Rattle.nfs3_types.specs.Items.{guard_items};

    ghost items = { guard_items };

    fn walk<V: Visit>(&self, visitor: &mut V) -> Result<(), AllocError> {
        match self.check {
            None => walk_fields(&[Field::Word("check", 0)], visitor),
            Some(time) => {
                let all = [
                    Field::Word("check", 1),
                    Field::Word("ctime_sec", time.sec),
                    Field::Word("ctime_nsec", time.nsec),
                ];
                walk_fields(&all, visitor)
            }
        }
    }
}
