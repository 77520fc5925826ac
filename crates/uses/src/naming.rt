//! A call as a value of its procedure.

ghost use Rattle.std.specs.Prelude.{◌≢◌, IfSome, IsNone};
ghost use Rattle.procs3.specs.Table.{name_of_procedure};
ghost use Rattle.uses.specs.Naming.{LooksUp, lookup};

use capture3::CallRef;
use procs3::Args;
use std::alloc::Global;

/// Returns the name that a LOOKUP call looks up (RFC 1813, section 3.3.3), and `None` if the call is one of
/// another procedure. The name borrows from the call's body.
pub fn looked_up_name<'a>(alloc: Global, call: CallRef<'a>) -> Option<&'a [u8]>
    ensures name { IfSome result (λ name. LooksUp call.entry.body.now name.now) }
    ensures other { IsNone result → name_of_procedure call.entry.id ≢ lookup }
{
    match call.read(alloc).args {
        Args::Lookup(wanted) => Some(wanted.name),
        _ => None,
    }
}
