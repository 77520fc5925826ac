//! Credentials and verifiers (RFC 5531, sections 8.2, 9 and appendix A).
#![tactic(auto, using(xdr3::proofs::Lemmas::Shapes::Walks::steps), unfolding(xdr3::specs::Reading::reading, crate::specs::Shapes::verifier, xdr3::specs::Item::called))]

ghost use Rattle.std.specs.Prelude.{◌≡◌, ◌≤◌, length, OnErr, OnOk};
ghost use Rattle.xdr3.specs.Reading.{reading};
ghost use Rattle.xdr3.specs.View.{MovesOn};
ghost use Rattle.xdr3.specs.Visit.{Adds, AddsSome, AreWithinLimit};

use crate::values::word::listed_or;
use std::alloc::{AllocError, Global};
use xdr3::{Field, GetError, Input, Reason, Stop, Visit, Walk, Xdr, get_sized, walk_fields};

/// The groups of a credential: at most 16.
#[derive(Clone, Copy)]
pub struct Gids {
    len: u8,
    words: [u32; 16],
    ghost in_range: { len ≤ 16 },
}

impl Gids {
    ghost use Rattle.rpc_head.specs.Gids.{groups_of};
    ghost use Rattle.rpc_head.specs.Groups.{count_items};
    ghost use Rattle.rpc_head.specs.Shapes.{gids};
    ghost use Rattle.xdr3.specs.View.{Answers};

    /// Returns the groups in order.
    pub fn as_slice(&self) -> &[u32]
        ensures words { result.now ≡ groups_of self.now }
        ensures few { length result.now ≤ 16 }
    {
        &self.words[..self.len as usize]
    }

    fn get(input: &mut Input) -> Result<Gids, Stop>
        ensures read { Answers (λ g. count_items (groups_of g)) result input.new.at
            (reading gids input.old.body input.old.at) }
        ensures moves { MovesOn input.old input.new }
    {
        let count = input.at_most(16)?;
        let mut words = [0u32; 16];
        for i in 0..count {
            let word = input.word()?;
            words[i as usize] = word;
        }
        Ok(Gids {
            len: count as u8,
            words,
        })
    }

    #[tactic(auto, using(xdr3::proofs::Lemmas::Shapes::Walks::walks), unfolding(xdr3::specs::Visit::AreWithinLimit, xdr3::specs::Item::called))]
    fn walk<V: Visit>(&self, visitor: &mut V) -> Result<(), AllocError>
        ensures ok { OnOk result (Adds V.stands visitor.old visitor.new
            (count_items (groups_of self.now))) }
        ensures err { OnErr result (AddsSome V.stands visitor.old visitor.new
            (count_items (groups_of self.now))) }
    {
        let groups = self.as_slice();
        visitor.word("gids", groups.len() as u32)?;
        for group in groups {
            visitor.word("group", *group)?;
        }
        Ok(())
    }
}

/// The credential of flavor AUTH_SYS, from its length word on: a stamp, the caller's machine name
/// (0 to 255 bytes), its user, its group and at most 16 further groups.
///
/// The body has exactly as many bytes as the length word says, at most 400. If a part passes the
/// last of these bytes, or if a byte is left over, that is `AuthLength`.
#[derive(Clone, Copy)]
pub struct AuthSys<'a> {
    pub stamp: u32,
    pub machinename: &'a [u8],
    pub uid: u32,
    pub gid: u32,
    pub gids: Gids,
}

impl AuthSys<'_> {
    ghost use Rattle.std.specs.Prelude.{◌≡◌};
    ghost use Rattle.xdr3.specs.Item.{zero_spelling};
    ghost use Rattle.rpc_head.specs.Credentials.{parameter_items};

    /// Returns how many bytes the body has.
    fn body_len(&self) -> u32
        requires { AreWithinLimit (parameter_items self.now) }
        ensures { result ≡ length (zero_spelling (parameter_items self.now)) }
    {
        let name_len = self.machinename.len() as u32;
        let padded = name_len + (4 - name_len % 4) % 4;
        let groups = self.gids.as_slice().len() as u32;
        20 + padded + 4 * groups
    }
}

impl<'a> Xdr<'a> for AuthSys<'a> {
    ghost use Rattle.rpc_head.specs.Shapes.{auth_sys};

    ghost shape = { auth_sys };

    #[tactic(auto, unfolding(crate::specs::Shapes::auth_sys, xdr3::specs::Item::followed_by))]
    fn get(alloc: Global, input: &mut Input<'a>) -> Result<AuthSys<'a>, GetError> {
        let Parameters(all) = get_sized(alloc, input)?;
        Ok(all)
    }
}

impl<'a> Walk for AuthSys<'a> {
    ghost use Rattle.rpc_head.specs.Credentials.{auth_sys_items};

    ghost items = { auth_sys_items };

    fn walk<V: Visit>(&self, visitor: &mut V) -> Result<(), AllocError> {
        visitor.word("cred_length", self.body_len())?;
        Parameters(*self).walk(visitor)?;
        Ok(())
    }
}

/// The parameters in the body of an AUTH_SYS credential.
#[derive(Clone, Copy)]
pub(crate) struct Parameters<'a>(AuthSys<'a>);

impl<'a> Xdr<'a> for Parameters<'a> {
    ghost use Rattle.rpc_head.specs.Shapes.{parameters};

    ghost shape = { parameters };

    #[tactic(auto, unfolding(xdr3::specs::Reading::reading, crate::specs::Shapes::parameters, xdr3::specs::Item::followed_by))]
    fn get(_alloc: Global, input: &mut Input<'a>) -> Result<Parameters<'a>, GetError> {
        let stamp = input.word()?;
        let machinename = input.var(255)?;
        let uid = input.word()?;
        let gid = input.word()?;
        let gids = Gids::get(input)?;
        Ok(Parameters(AuthSys {
            stamp,
            machinename,
            uid,
            gid,
            gids,
        }))
    }
}

impl<'a> Walk for Parameters<'a> {
    ghost use Rattle.rpc_head.specs.Credentials.{parameter_items};

    ghost items = { λ p. parameter_items p.0 };

    fn walk<V: Visit>(&self, visitor: &mut V) -> Result<(), AllocError> {
        let all = [
            Field::Word("stamp", self.0.stamp),
            Field::Text("machinename", self.0.machinename),
            Field::Word("uid", self.0.uid),
            Field::Word("gid", self.0.gid),
        ];
        walk_fields(&all, visitor)?;
        self.0.gids.walk(visitor)?;
        Ok(())
    }
}

/// A credential: a body of at most 400 bytes for AUTH_NONE (0), or the parameters of AUTH_SYS (1).
/// Any other flavor is refused as `Flavor`, at its word.
#[derive(Clone, Copy)]
pub enum Cred<'a> {
    Plain(&'a [u8]),
    Sys(AuthSys<'a>),
}

impl<'a> Xdr<'a> for Cred<'a> {
    ghost use Rattle.rpc_head.specs.Shapes.{credential};

    ghost shape = { credential };

    #[tactic(auto, unfolding(xdr3::specs::Reading::reading, crate::specs::Shapes::credential, xdr3::specs::Item::followed_by))]
    fn get(alloc: Global, input: &mut Input<'a>) -> Result<Cred<'a>, GetError> {
        let flavor = listed_or(input, &[0, 1], Reason::Flavor)?;
        if flavor == 0 {
            let body = input.var(400)?;
            Ok(Cred::Plain(body))
        } else {
            let sys = AuthSys::get(alloc, input)?;
            Ok(Cred::Sys(sys))
        }
    }
}

impl<'a> Walk for Cred<'a> {
    ghost use Rattle.rpc_head.specs.Credentials.{credential_items};

    ghost items = { credential_items };

    fn walk<V: Visit>(&self, visitor: &mut V) -> Result<(), AllocError> {
        match self {
            Cred::Plain(body) => {
                visitor.word("cred_flavor", 0)?;
                walk_fields(&[Field::Var("cred_body", body)], visitor)?;
                Ok(())
            }
            Cred::Sys(sys) => {
                visitor.word("cred_flavor", 1)?;
                sys.walk(visitor)?;
                Ok(())
            }
        }
    }
}

/// A verifier of flavor AUTH_NONE (0), with a body of at most 400 bytes. Any other flavor is
/// refused as `Flavor`, at its word.
#[derive(Clone, Copy)]
pub struct Verf<'a> {
    pub body: &'a [u8],
}

impl<'a> Xdr<'a> for Verf<'a> {
    ghost use Rattle.rpc_head.specs.Shapes.{verifier};

    ghost shape = { verifier };

    fn get(_alloc: Global, input: &mut Input<'a>) -> Result<Verf<'a>, GetError> {
        listed_or(input, &[0], Reason::Flavor)?;
        let body = input.var(400)?;
        Ok(Verf { body })
    }
}

impl<'a> Walk for Verf<'a> {
    ghost use Rattle.rpc_head.specs.Credentials.{verifier_items};

    ghost items = { verifier_items };

    fn walk<V: Visit>(&self, visitor: &mut V) -> Result<(), AllocError> {
        let all = [
            Field::Word("verf_flavor", 0),
            Field::Var("verf_body", self.body),
        ];
        walk_fields(&all, visitor)
    }
}
