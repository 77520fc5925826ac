//! Laws of the definitions. Each function has a law as its contract, and does nothing.

ghost use Rattle.std.specs.Prelude.{◌≡◌, ◌++◌, ◌∷◌, ℕ, List, [], Option, Result, Some, OnOk};
ghost use Rattle.capture3.specs.SidedChunks.{Streams};
ghost use Rattle.capture3.specs.declared.fault.Error.{Error};
ghost use Rattle.packing3.specs.Packing.{AddsPair, HasAdded};
ghost use Rattle.packing3.specs.Devices.{Sources};
ghost use Rattle.packing3.specs.declared.packing.Packing.{Packing};

/// If sources tell which bytes they have left, they give prefixes of them. So a pair that is added
/// has all bytes that its sources had left.
pub fn left_bytes_are_packed<W>()
    ensures { (written : W → Option (List ℕ)) (before new : Packing W) (sources : Sources)
        (old : Option (List ℕ)) (pairs : List Streams) (streams : Streams)
        (result : Result (Unit {0}) Error) → AddsPair written before new sources result
        → HasAdded written before old pairs
        → sources.client_before.left ≡ Some streams.client
        → sources.server_before.left ≡ Some streams.server
        → OnOk result (HasAdded written new old (pairs ++ streams ∷ [])) }
{}
