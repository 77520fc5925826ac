//! Calls worked by hand. The function ensures what the definitions say of their bytes, and its proof
//! computes it.

ghost use Rattle.rpc_head.specs.Examples.{Calls};

/// Calls with and without arguments, by AUTH_NONE and AUTH_SYS.
pub fn calls()
    ensures { Calls }
{}
