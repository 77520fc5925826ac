//! Laws over the table of procedures. Each is what a function without a result ensures.

ghost use Rattle.std.specs.Prelude.{List, ℕ};
ghost use Rattle.procs3.specs.Table.{arguments_of, results_of};
ghost use Rattle.rpc_head.specs.declared.values.call.ProcId.{ProcId};
ghost use Rattle.xdr3.specs.Item.{AreBytes};
ghost use Rattle.xdr3.specs.Laws.{IsDecided};
ghost use Rattle.xdr3.specs.Layout.{ReadsLayout, RefusesLayout};

/// For each procedure and each list of bytes exactly one holds: the bytes begin with arguments, in
/// one way only; or they are refused at one position for one reason.
pub fn arguments_decided()
    ensures { (id : ProcId) (bytes : List ℕ) → AreBytes bytes
        → IsDecided (ReadsLayout (arguments_of id)) (RefusesLayout (arguments_of id)) bytes }
{}

/// For each procedure and each list of bytes exactly one holds: the bytes begin with results, in
/// one way only; or they are refused at one position for one reason.
pub fn results_decided()
    ensures { (id : ProcId) (bytes : List ℕ) → AreBytes bytes
        → IsDecided (ReadsLayout (results_of id)) (RefusesLayout (results_of id)) bytes }
{}
