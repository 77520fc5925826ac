//! Laws of the definitions. Each function has a law as its contract, and does nothing.

ghost use Rattle.std.specs.Prelude.{◌≡◌, ◌↔◌, ℕ, List};
ghost use Rattle.capture3.specs.Capture.{total_size};
ghost use Rattle.capture3.specs.Entry.{Entry};
ghost use Rattle.capture3.specs.Typed.{Typed};
ghost use Rattle.canon3.specs.Laws.{AreFirst, AreOfTheirBytes};
ghost use Rattle.canon3.specs.Renaming.{Same};
ghost use Rattle.masking3.specs.Laws.{HasRoomForNumbers, KeepsAll, MaskedBytesDecide, MaskedFormsDecide, MasksAsMuch, MasksFronts, StaysMasked};
ghost use Rattle.masking3.specs.Masked.{masked};
ghost use Rattle.masking3.specs.SameBut.{SameBut};
ghost use Rattle.masking3.specs.declared.values.ways.Ways.{Ways};

/// Masking again changes nothing, if the number of each value has room; in a well-formed file each has.
pub fn masking_again()
    ensures again { (ways : Ways) (entries : List Entry) → HasRoomForNumbers entries
        → StaysMasked ways entries }
    ensures room { (entries : List Entry) → AreFirst entries → HasRoomForNumbers entries }
{}

/// Nothing changes if every class stays as it is.
pub fn nothing_masked()
    ensures { (ways : Ways) (entries : List Entry) → KeepsAll ways
        → masked ways entries ≡ entries }
{}

/// The masked form of the first entries is the first entries of the masked form: a number never waits for
/// what comes later.
pub fn masked_forms_of_prefixes()
    ensures { (ways : Ways) (a b : List Entry) → MasksFronts ways a b }
{}

/// The masked form of the entries of a well-formed file is well formed: its bytes are a file with just
/// these entries, which has no more stream bytes than the file. The masked form of the first entries of
/// one is the first entries of one.
pub fn masked_form_is_a_file()
    ensures whole { (ways : Ways) (file : List ℕ) (entries : List Entry)
        (typed : Typed file entries)
        → AreOfTheirBytes (masked ways entries) (total_size typed.connections) }
    ensures first { (ways : Ways) (entries : List Entry) → AreFirst entries
        → AreFirst (masked ways entries) }
{}

/// Two masked captures, or the first entries of two, are the same exactly if the captures are the same
/// but for the values that are masked. The bytes of the canonical forms of the masked ones decide it.
/// Captures that are the same are the same but for these values too, and if no class is masked there is
/// no difference.
pub fn masked_captures_are_the_same()
    ensures masked { (ways : Ways) (a b : List Entry) → AreFirst a → AreFirst b
        → MaskedFormsDecide ways a b }
    ensures bytes { (ways : Ways) (a b : List Entry) → AreFirst a → AreFirst b
        → MaskedBytesDecide ways a b }
    ensures weaker { (ways : Ways) (a b : List Entry) → AreFirst a → AreFirst b
        → Same a b → SameBut ways a b }
    ensures unmasked { (ways : Ways) (a b : List Entry) → KeepsAll ways
        → SameBut ways a b ↔ Same a b }
{}

/// Being the same but for the values that are masked is an equivalence.
pub fn same_but_is_an_equivalence()
    ensures reflexive { (ways : Ways) (a : List Entry) → AreFirst a → SameBut ways a a }
    ensures symmetric { (ways : Ways) (a b : List Entry) → AreFirst a → AreFirst b
        → SameBut ways a b → SameBut ways b a }
    ensures transitive { (ways : Ways) (a b c : List Entry) → AreFirst a → AreFirst b → AreFirst c
        → SameBut ways a b → SameBut ways b c → SameBut ways a c }
{}

/// Ways that mask more tell no more captures apart: if captures are the same but for the values that some
/// ways mask, they are so by ways that mask each class as much or more.
pub fn masking_more()
    ensures { (ways others : Ways) (a b : List Entry) → MasksAsMuch ways others
        → SameBut ways a b → SameBut others a b }
{}
