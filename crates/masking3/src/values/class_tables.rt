//! The numbers of the values of each class.

ghost use Rattle.std.specs.Prelude.{◌≡◌, ◌≢◌, ◌<◌, ◌++◌, ◌∷◌, ℕ, List, [], Some, get_or, length, min, nat_eq, IfOk, OnOk};
ghost use Rattle.std.specs.Option.{unwrap_or};
ghost use Rattle.capture3.specs.Rank.{number_limit, rank};
ghost use Rattle.masking3.specs.Classes.{position};
ghost use Rattle.masking3.specs.Masked.{number_among, substitute, value_where};
ghost use Rattle.masking3.specs.machinery.ClassTables.{HoldsAt, HoldsValues, no_values, with_one};

use crate::values::class::Class;
use crate::values::ways::{Way, Ways};
use canon3::Numbers;
use std::alloc::{AllocError, Global};
use std::hash::BuildHasher;

/// What becomes of the values of each class, and the numbers so far.
#[derive(Drop)]
pub(crate) struct ClassTables<S: BuildHasher + Drop> {
    pub(crate) ways: Ways,
    /// By the places of the classes, as far as one had a number.
    pub(crate) numbers: Vec<Numbers<u64, S>>,
    alloc: Global,
    hasher: S,
}

impl<S: BuildHasher + Copy + Drop> ClassTables<S> {
    /// Returns tables before a capture.
    pub(crate) fn new(alloc: Global, ways: Ways, hasher: S) -> ClassTables<S>
        ensures ways { result.ways ≡ ways }
        ensures holds { HoldsValues result.ways result.numbers.items no_values }
    {
        ClassTables {
            ways,
            numbers: Vec::new(alloc),
            alloc,
            hasher,
        }
    }

    /// Returns what replaces a value of the class, if its way replaces it.
    #[inline(always)]
    pub(crate) fn substitute(
        &mut self,
        class: Option<Class>,
        n: u64,
    ) -> Result<Option<u32>, AllocError>
        ensures ways { self.new.ways ≡ self.old.ways }
        ensures stands { (seen : Class → List ℕ)
            → HoldsValues self.old.ways self.old.numbers.items seen
            → IfOk result
            (λ m. m ≡ substitute self.old.ways (with_one seen class n) class n) }
        ensures holds { (seen : Class → List ℕ)
            → HoldsValues self.old.ways self.old.numbers.items seen
            → OnOk result
            (HoldsValues self.new.ways self.new.numbers.items (with_one seen class n)) }
    {
        let Some(class) = class else {
            return Ok(None);
        };
        match self.ways.way(class) {
            Way::Keep => Ok(None),
            Way::Zero => Ok(Some(0)),
            Way::Number => Ok(Some(self.number(class, n)?)),
        }
    }

    /// Returns a number of eight bytes of the class, or of none, or what replaces it.
    #[inline(always)]
    pub(crate) fn replaced_hyper(&mut self, class: Option<Class>, n: u64) -> Result<u64, AllocError>
        ensures ways { self.new.ways ≡ self.old.ways }
        ensures put { (seen : Class → List ℕ)
            → HoldsValues self.old.ways self.old.numbers.items seen → IfOk result
            (λ m. m ≡ unwrap_or (substitute self.old.ways (with_one seen class n) class n) n) }
        ensures holds { (seen : Class → List ℕ)
            → HoldsValues self.old.ways self.old.numbers.items seen → OnOk result
            (HoldsValues self.new.ways self.new.numbers.items (with_one seen class n)) }
    {
        Ok(self.substitute(class, n)?.map_or(n, u64::from))
    }

    /// Returns the number of a value of a class that is numbered.
    #[inline(always)]
    fn number(&mut self, class: Class, n: u64) -> Result<u32, AllocError>
        ensures ways { self.new.ways ≡ self.old.ways }
        ensures number { (seen : List ℕ) → HoldsAt self.old.numbers.items (position class) seen
            → IfOk result (λ m. m ≡
            number_among (seen ++ value_where class (Some class) n) class n) }
        ensures holds { (seen : List ℕ) → HoldsAt self.old.numbers.items (position class) seen
            → OnOk result (HoldsAt self.new.numbers.items (position class)
            (seen ++ value_where class (Some class) n)) }
        ensures others { (place : ℕ) → place ≢ position class
            → get_or self.new.numbers.items place [] ≡ get_or self.old.numbers.items place [] }
    {
        if n == 0 && class.zero_stays() {
            return Ok(0);
        }
        let number = self.number_in_table(class, n)?;
        // A capture has fewer values than this.
        if number == u32::MAX {
            return Err(AllocError);
        }
        Ok(number)
    }

    /// Returns the number of a value in its class's table.
    #[inline(always)]
    fn number_in_table(&mut self, class: Class, n: u64) -> Result<u32, AllocError>
        ensures ways { self.new.ways ≡ self.old.ways }
        ensures number { (seen : List ℕ) → HoldsAt self.old.numbers.items (position class) seen
            → IfOk result (λ m. m ≡ min (rank nat_eq n (seen ++ n ∷ [])) number_limit) }
        ensures holds { (seen : List ℕ) → HoldsAt self.old.numbers.items (position class) seen
            → OnOk result (HoldsAt self.new.numbers.items (position class) (seen ++ n ∷ [])) }
        ensures others { (place : ℕ) → place ≢ position class
            → get_or self.new.numbers.items place [] ≡ get_or self.old.numbers.items place [] }
    {
        let place = class.position();
        if place >= self.numbers.len() {
            self.make_tables(place)?;
        }
        self.numbers[place].number_of(n)
    }

    /// Makes tables without values, up to this place.
    #[inline(never)]
    fn make_tables(&mut self, place: usize) -> Result<(), AllocError>
        ensures ways { self.new.ways ≡ self.old.ways }
        ensures ok { OnOk result (place < length self.new.numbers.items) }
        ensures same { (at : ℕ) → get_or self.new.numbers.items at []
            ≡ get_or self.old.numbers.items at [] }
    {
        while self.numbers.len() <= place {
            self.numbers.push(Numbers::new(self.alloc, self.hasher))?;
        }
        Ok(())
    }
}
