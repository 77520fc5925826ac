//! Numbers of keys by their first appearance.

pub(crate) mod handles;

ghost use Rattle.std.specs.Prelude.{◌≡◌, ◌+◌, ◌-◌, ◌++◌, ◌∷◌, min, true, List, [], length, IfOk, OnOk, OnErr, IsOk};
ghost use Rattle.std.specs.List.{list_any};
ghost use Rattle.capture3.specs.Rank.{rank, distinct, HoldsDistinct, number_limit};

use indexmap::IndexSet;
use std::alloc::{AllocError, Global};
use std::hash::{BuildHasher, Hash};
use std::marker::Model;

/// The keys given so far, each with a number: 1 for the first, 2 for the next other one, and so on.
/// The hasher does not affect the numbers.
#[derive(Drop)]
pub struct Numbers<K: Copy + Eq + Hash, S: BuildHasher + Drop> {
    keys: IndexSet<K, S>,
}

impl<K: Copy + Eq + Hash, S: BuildHasher + Drop> Model for Numbers<K, S> {
    ghost use Rattle.std.specs.Prelude.{List};
    ghost use Rattle.std.specs.Coded.{coded_list};

    ghost Value = { List K };

    ghost coded = { coded_list K.code };

    ghost view = { λ n. n.keys.keys };
}

impl<K: Copy + Eq + Hash, S: BuildHasher + Drop> Numbers<K, S> {
    /// Returns a table that was given no key.
    pub fn new(alloc: Global, hasher: S) -> Numbers<K, S>
        ensures { HoldsDistinct K.eq result [] }
    {
        Numbers {
            keys: IndexSet::with_hasher(alloc, hasher),
        }
    }

    /// Returns the key's number: 1 plus the number of distinct keys given before its first time, at
    /// most 4,294,967,295.
    ///
    /// # Errors
    ///
    /// `AllocError` if an allocation fails, or if the table has 2,415,919,104 keys. It is unchanged
    /// then. A key that was given before never fails.
    #[inline(always)]
    pub fn number_of(&mut self, key: K) -> Result<u32, AllocError>
        ensures number { (given : List K) → HoldsDistinct K.eq self.old given
            → IfOk result (λ n. n ≡ min (rank K.eq key (given ++ key ∷ [])) number_limit) }
        ensures given { (given : List K) → HoldsDistinct K.eq self.old given
            → OnOk result (HoldsDistinct K.eq self.new (given ++ key ∷ [])) }
        ensures known { (given : List K) → HoldsDistinct K.eq self.old given
            → list_any (K.eq key) given ≡ true → IsOk result }
        ensures err { OnErr result (self.new ≡ self.old) }
    {
        let (index, _) = self.keys.insert_full(key)?;
        Ok(u32::try_from(index).unwrap_or(u32::MAX).saturating_add(1))
    }

    /// Returns the number of distinct keys given, at most 4,294,967,295.
    pub fn len(&self) -> u32
        ensures { (given : List K) → HoldsDistinct K.eq self.now given
            → result ≡ min (length (distinct K.eq given)) number_limit }
    {
        u32::try_from(self.keys.len()).unwrap_or(u32::MAX)
    }

    /// Drops the keys, and keeps the hasher and the memory. Its cost follows what the table holds,
    /// not its capacity.
    pub fn clear(&mut self)
        ensures { HoldsDistinct K.eq self.new [] }
    {
        self.keys.truncate(0);
    }
}
