//! Lines worked by hand. The function ensures what the definitions say of two messages, and its proof
//! computes it.

ghost use Rattle.listing3.specs.Examples.{ListsNull};

/// A NULL call and its reply.
pub fn null_lines()
    ensures { ListsNull }
{}
