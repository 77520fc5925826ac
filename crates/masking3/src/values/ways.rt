//! What becomes of the values of each class.

ghost use Rattle.std.specs.Prelude.{◌≡◌};
ghost use Rattle.masking3.specs.Ways.{usual, way_of, with_way};

use crate::values::class::{CLASSES, COUNT, Class};

/// What becomes of the values of a class, of names, or of bodies.
#[derive(Clone, Copy, Debug, PartialEq, Eq)]
pub enum Way {
    /// They stay as they are.
    Keep,
    /// They become 0. The name of a machine becomes empty, and each digit of a silly name 0. Each byte of a
    /// body that is not looked into becomes 0.
    Zero,
    /// Each becomes its number by first appearance among those of its class, from 1. A 0 that has a meaning
    /// of its own stays. Names and bodies have no numbers: they become what they are under `Zero`.
    Number,
}

/// A way for each class.
#[derive(Clone, Copy, Debug, PartialEq, Eq)]
pub struct Ways {
    by_class: [Way; COUNT],
}

impl Ways {
    /// Returns the ways that keep every value, every name and every body.
    pub fn none() -> Ways
        ensures { (class : Class) → way_of result class ≡ Way.Keep }
    {
        Ways {
            by_class: [Way::Keep; COUNT],
        }
    }

    /// Returns the ways for what two ordinary runs of one script never share: of each class the usual way.
    pub fn usual() -> Ways
        ensures { result ≡ usual }
    {
        let mut by_class = [Way::Keep; COUNT];
        for i in 0..COUNT {
            by_class[i] = CLASSES[i].usual();
        }
        Ways { by_class }
    }

    /// Returns the way of a class.
    #[inline(always)]
    pub fn way(&self, class: Class) -> Way
        ensures { result ≡ way_of self.now class }
    {
        self.by_class[class.position()]
    }

    /// Returns the ways with another one for a class.
    pub fn with(mut self, class: Class, way: Way) -> Ways
        ensures { result ≡ with_way self class way }
    {
        self.by_class[class.position()] = way;
        self
    }
}
