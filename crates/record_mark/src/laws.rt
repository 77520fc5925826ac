//! Laws over the definitions of record marking. They do nothing: each holds by its contract.

ghost use Rattle.std.specs.Prelude.{◌≡◌, ◌↔◌, ℕ, List, ◌∷◌, ◌++◌};
ghost use Rattle.record_mark.specs.Machine.{Next, Run, after, Runs, Stops};
ghost use Rattle.record_mark.specs.RecordMark.{IsRecord, IsTooLong, IsUnfinished, HasBody, Marks};
ghost use Rattle.record_mark.specs.Joining.{Joining, Joined, Between, Whole, TooLong, join_next, HasJoined, EndsRecord};

/// The state machine that joins fragments ends a record exactly when it is whole, refuses it
/// exactly when it is too long, and goes on exactly while one has begun (RFC 5531, section 11).
pub fn joining()
    ensures whole { (bytes body : List ℕ)
        → IsRecord bytes body ↔ (after join_next (Runs Between) bytes ≡ Stops (Whole body)) }
    ensures long { (bytes : List ℕ) (at : ℕ)
        → IsTooLong bytes at ↔ (after join_next (Runs Between) bytes ≡ Stops (TooLong at)) }
    ensures part { (bytes : List ℕ) (s : Joining)
        → HasJoined bytes s ↔ (after join_next (Runs Between) bytes ≡ Runs s) }
{}

/// A list of bytes is at most one of these, with one body or position: a record, too long, or
/// unfinished.
pub fn one_outcome()
    ensures body { (bytes body other : List ℕ) → HasBody bytes body → HasBody bytes other
        → body ≡ other }
    ensures place { (bytes : List ℕ) (at other : ℕ) → IsTooLong bytes at → IsTooLong bytes other
        → at ≡ other }
    ensures whole { (bytes body part : List ℕ) → IsRecord bytes body → IsUnfinished bytes part → ⊥ }
    ensures long { (bytes body : List ℕ) (at : ℕ) → IsTooLong bytes at → HasBody bytes body → ⊥ }
{}

/// Unfinished bytes are what a record begins with, or what one that is too long begins with, short
/// of its last byte.
pub fn beginnings()
    ensures goes_on { (bytes body : List ℕ) → IsUnfinished bytes body → (more : List ℕ)
        × (end : Joined) × EndsRecord (bytes ++ more) end }
    ensures shorter { (front back : List ℕ) (byte : ℕ) (end : Joined)
        → EndsRecord (front ++ byte ∷ back) end → (body : List ℕ) × IsUnfinished front body }
{}

/// The pieces in which the bytes come do not matter, for this state machine and for any other.
pub fn pieces<S, X>()
    ensures { (next : S → ℕ → Next S X) (run : Run S X) (front back : List ℕ)
        → after next run (front ++ back) ≡ after next (after next run front) back }
{}

/// A stream is a sequence of records in at most one way: it has at most one list of bodies.
pub fn one_list()
    ensures { (stream : List ℕ) (bodies others : List (List ℕ)) → Marks stream bodies
        → Marks stream others → bodies ≡ others }
{}
