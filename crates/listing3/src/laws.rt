//! Laws of the definitions. Each function has a law as its contract, and does nothing.

ghost use Rattle.std.specs.Prelude.{◌≡◌, ℕ, List};
ghost use Rattle.capture3.specs.Entry.{Entry};
ghost use Rattle.capture3.specs.Typed.{Typed};
ghost use Rattle.listing3.specs.Laws.{AreEqualUpToSilence};
ghost use Rattle.listing3.specs.Listing.{shown};

/// A listing determines all entries of a well-formed capture, but for connections without messages
/// after its last message. Two listings are equal if and only if the captures are equal up to
/// these. Chunks, fragments and residual bytes are no part of the entries.
pub fn listing_tells_the_entries()
    ensures tells { (file other : List ℕ) (a b : List Entry) → Typed file a → Typed other b
        → shown a ≡ shown b
        → AreEqualUpToSilence a b }
    ensures silence { (a b : List Entry) → AreEqualUpToSilence a b → shown a ≡ shown b }
{}
