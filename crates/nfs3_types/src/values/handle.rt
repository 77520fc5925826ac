//! File handles (RFC 1813).

ghost use Rattle.std.specs.Prelude.{◌≡◌, ◌≤◌, ◌<◌, ◌-◌, ◌*◌, ◌↔◌, [], ◌∷◌, IfSome, IsNone, IsTrue, Some, bytes_eq, drop, length, refl, replicate, take};
ghost use Rattle.std.proofs.Common.{rules};
ghost use Rattle.std.specs.Cmp.{on_equiv, on_per, on_po, on_total, partial_equiv_from_equiv};
ghost use Rattle.std.specs.Cmp.Lexicographic.{nat_list_cmp_total, nat_list_eq_equiv, slice_cmp, texts_po, texts_ties};
ghost use Rattle.std.specs.Cmp.Rules.{hashing};
ghost use Rattle.std.specs.Ordering.{nat_cmp};

use std::alloc::{AllocError, Global};
use std::cmp::Ordering;
use std::hash::{Hash, Hasher};
use xdr3::{Field, GetError, Input, Visit, Walk, Xdr, walk_fields};

/// A file handle of 0 to 64 bytes (RFC 1813). Equality, order and hash are those of
/// its bytes.
#[derive(Clone, Copy, Debug)]
pub struct Handle {
    bytes: [u8; 64],
    len: u8,
    ghost in_range: { len ≤ 64 },
    ghost padded: { drop len bytes ≡ replicate (64 - len) 0 },
}

impl Handle {
    ghost use Rattle.nfs3_types.specs.Handle.{handle_bytes};

    /// Returns the handle of these bytes, or `None` if there are more than 64.
    pub fn new(bytes: &[u8]) -> Option<Handle>
        ensures long { IsNone result ↔ (64 < length bytes.now) }
        ensures bytes { IfSome result (λ handle. handle_bytes handle ≡ bytes.now) }
    {
        if bytes.len() <= 64 {
            Some(Handle::from_short(bytes))
        } else {
            None
        }
    }

    /// Returns the handle of these bytes, which are at most 64.
    pub fn from_short(bytes: &[u8]) -> Handle
        requires { length bytes.now ≤ 64 }
        ensures { handle_bytes result ≡ bytes.now }
    {
        Handle {
            bytes: padded_bytes(bytes),
            len: bytes.len() as u8,
        }
    }

    /// Returns its bytes, at most 64.
    pub fn as_slice(&self) -> &[u8]
        ensures bytes { result.now ≡ handle_bytes self.now }
        ensures short { length result.now ≤ 64 }
    {
        &self.bytes[..self.len as usize]
    }

    /// Returns whether it is the public file handle, which has no bytes.
    pub fn is_public(&self) -> bool
        ensures { IsTrue result ↔ (handle_bytes self.now ≡ []) }
    {
        self.len == 0
    }
}

/// Returns the bytes, which are at most 64, with zeros behind. Two copies of a known length take
/// fewer instructions than one of any.
#[inline(always)]
fn padded_bytes(bytes: &[u8]) -> [u8; 64]
    requires { length bytes.now ≤ 64 }
    ensures bytes { take (length bytes.now) result ≡ bytes.now }
    ensures padded { drop (length bytes.now) result ≡ replicate (64 - length bytes.now) 0 }
{
    let len = bytes.len();
    if len > 32 {
        both_ends(bytes, 32)
    } else if len >= 16 {
        both_ends(bytes, 16)
    } else {
        let mut few = [0; 64];
        few[..len].copy_from_slice(bytes);
        few
    }
}

/// Does so for `size` to twice `size` bytes. It copies the first and the last `size` of them.
#[inline(always)]
fn both_ends(bytes: &[u8], size: usize) -> [u8; 64]
    requires long { size ≤ length bytes.now }
    requires covered { length bytes.now ≤ 2 * size }
    requires short { length bytes.now ≤ 64 }
    ensures bytes { take (length bytes.now) result ≡ bytes.now }
    ensures padded { drop (length bytes.now) result ≡ replicate (64 - length bytes.now) 0 }
{
    let mut held = [0; 64];
    let len = bytes.len();
    held[..size].copy_from_slice(&bytes[..size]);
    held[len - size..len].copy_from_slice(&bytes[len - size..]);
    held
}

impl PartialEq for Handle {
    ghost use Rattle.nfs3_types.specs.Handle.{handle_bytes};

    ghost eq = { λ a b. bytes_eq (handle_bytes a) (handle_bytes b) };

    ghost laws = { on_per handle_bytes (partial_equiv_from_equiv nat_list_eq_equiv) };

    // All 64 bytes, since their number is constant, and those behind the handle are zeros.
    fn eq(&self, other: &Handle) -> bool {
        self.len == other.len && self.bytes == other.bytes
    }
}

impl Eq for Handle {
    ghost use Rattle.nfs3_types.specs.Handle.{handle_bytes};

    ghost laws = { on_equiv handle_bytes nat_list_eq_equiv };
}

impl PartialOrd for Handle {
    ghost use Rattle.nfs3_types.specs.Handle.{handle_bytes};

    ghost partial_cmp = { λ a b. Some (slice_cmp nat_cmp (handle_bytes a) (handle_bytes b)) };

    ghost laws = { on_po handle_bytes texts_po };

    fn partial_cmp(&self, other: &Handle) -> Option<Ordering> {
        Some(self.cmp(other))
    }
}

impl Ord for Handle {
    ghost use Rattle.nfs3_types.specs.Handle.{handle_bytes};

    ghost cmp = { λ a b. slice_cmp nat_cmp (handle_bytes a) (handle_bytes b) };

    ghost total = { on_total handle_bytes nat_list_cmp_total };

    ghost matches_partial_cmp = { λ a b. refl };

    ghost matches_eq = { λ a b. texts_ties (handle_bytes a) (handle_bytes b) };

    fn cmp(&self, other: &Handle) -> Ordering {
        self.as_slice().cmp(other.as_slice())
    }
}

impl Hash for Handle {
    ghost use Rattle.nfs3_types.specs.Handle.{handle_bytes};

    ghost hash_input = { λ handle. handle_bytes handle ∷ [] };

    ghost respects_eq = { Prim.search (hashing, rules) };

    fn hash<H: Hasher>(&self, state: &mut H) {
        state.write(self.as_slice());
    }
}

impl<'a> Xdr<'a> for Handle {
    ghost use Rattle.nfs3_types.specs.Shapes.{handle};

    ghost shape = { handle };

    #[tactic(auto, unfolding(xdr3::specs::Reading::reading, crate::specs::Shapes::handle))]
    fn get(_alloc: Global, input: &mut Input<'a>) -> Result<Handle, GetError> {
        let bytes = input.var(64)?;
        Ok(Handle::from_short(bytes))
    }
}

impl Walk for Handle {
    ghost use Rattle.nfs3_types.specs.Items.{handle_items};

    ghost items = { handle_items };

    #[tactic(auto, unfolding(xdr3::specs::Item::called))]
    fn walk<V: Visit>(&self, visitor: &mut V) -> Result<(), AllocError> {
        walk_fields(&[Field::Handle("fh", self.as_slice())], visitor)
    }
}
