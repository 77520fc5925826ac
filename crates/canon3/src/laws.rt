//! Laws of the definitions. Each function has a law as its contract, and does nothing.

ghost use Rattle.std.specs.Prelude.{◌≡◌, ◌+◌, ℕ, List, [], ◌∷◌, ◌++◌, map, take, bytes_eq, Option, Result, Some};
ghost use Rattle.std.specs.List.{position_or_len};
ghost use Rattle.xdr3.specs.Item.{Item};
ghost use Rattle.rpc_head.specs.declared.values.call.ProcId.{ProcId};
ghost use Rattle.capture3.specs.Capture.{total_size};
ghost use Rattle.capture3.specs.Observed.{Observed};
ghost use Rattle.capture3.specs.declared.fault.Error.{Error};
ghost use Rattle.capture3.specs.Entry.{Entry};
ghost use Rattle.capture3.specs.Reached.{Reached};
ghost use Rattle.capture3.specs.Typed.{Typed};
ghost use Rattle.capture3.specs.Rank.{rank, distinct, with_key};
ghost use Rattle.canon3.specs.OneToOne.{Member, Pairs, OneToOne, IsHandle, IsInjectiveOn, AreBeside};
ghost use Rattle.canon3.specs.Renaming.{Pairwise, Same};
ghost use Rattle.canon3.specs.Comparison.{DecidesSame, of_bytes, of_source};
ghost use Rattle.canon3.specs.EntryWriter.{WritesAll, WritesAllCounted, WritesGiven, WritesGivenCounted};
ghost use Rattle.canon3.specs.Summary.{AreMessageCounts, ConcludesAll, ConcludesGiven};
ghost use Rattle.canon3.specs.declared.comparison.verdict.SameError.{SameError};
ghost use Rattle.canon3.specs.declared.comparison.verdict.Verdict.{Verdict};
ghost use Rattle.canon3.specs.declared.summary.MessageCounts.{MessageCounts};
ghost use Rattle.canon3.specs.declared.summary.Summary.{Summary};
ghost use Rattle.canon3.specs.Canonical.{canonical};
ghost use Rattle.canon3.specs.CanonicalStream.{entries_after};
ghost use Rattle.canon3.specs.Bytes.{bytes_of};
ghost use Rattle.canon3.specs.Laws.{AreFirst, AreOfTheirBytes, CallStaysACall, EndTogether, FrontsAreDecided, HavePlaces, PartOnce, PartSomewhere, PartWhereFormsDo, ReplyStaysAReply};

/// Ranks are the same before and after a one-to-one renaming.
pub fn ranks_are_blind()
    ensures injective { (f : List ℕ → List ℕ) (x : List ℕ) (l : List (List ℕ))
        → IsInjectiveOn f (x ∷ l) → rank bytes_eq (f x) (map f l) ≡ rank bytes_eq x l }
    ensures paired { (pairs : Pairs (List ℕ)) (x y : List ℕ) (l m : List (List ℕ))
        → OneToOne IsHandle pairs → Member (x, y) pairs → Pairwise (AreBeside pairs) l m
        → rank bytes_eq x l ≡ rank bytes_eq y m }
{}

/// A table of the distinct keys so far numbers each key by its rank, and later keys do not change
/// the numbers.
pub fn tables_number_by_rank()
    ensures number { (x : List ℕ) (l : List (List ℕ))
        → rank bytes_eq x (l ++ x ∷ []) ≡ 1 + position_or_len (bytes_eq x) (distinct bytes_eq l) }
    ensures added { (x : List ℕ) (l : List (List ℕ))
        → distinct bytes_eq (l ++ x ∷ []) ≡ with_key bytes_eq (distinct bytes_eq l) x }
    ensures later { (x : List ℕ) (l m : List (List ℕ)) → Member x l
        → rank bytes_eq x (l ++ m) ≡ rank bytes_eq x l }
{}

/// If two captures are not the same up to renaming, there is exactly one position at which they
/// first differ.
pub fn captures_part_at_one_place()
    ensures some { (file other : List ℕ) (a b : List Entry) → Typed file a → Typed other b
        → PartSomewhere a b }
    ensures one { (a b : List Entry) → AreFirst a → AreFirst b → PartOnce a b }
{}

/// Messages with numbers keep their layouts and their procedures.
pub fn numbers_keep_layouts()
    ensures call { (hs vs : List (List ℕ)) (xs : List ℕ) (items : List Item)
        → CallStaysACall hs vs xs items }
    ensures reply { (hs vs : List (List ℕ)) (xs : List ℕ) (id : ProcId) (items : List Item)
        → ReplyStaysAReply hs vs xs id items }
{}

/// The canonical form of the entries of a well-formed file is well formed: its bytes are a file
/// with exactly these entries, which has no more stream bytes than the file.
pub fn canonical_form_is_a_file()
    ensures { (file : List ℕ) (entries : List Entry) (typed : Typed file entries)
        → AreOfTheirBytes (canonical entries) (total_size typed.connections) }
{}

/// The entries that any bytes reach are the first entries of a well-formed file, so the laws hold
/// for them too.
pub fn reached_entries_are_first()
    ensures { (bytes : List ℕ) (entries : List Entry) → Reached bytes entries → AreFirst entries }
{}

/// Canonicalising again changes nothing, and a canonical form is the same as what it is made of.
pub fn canonical_again()
    ensures again { (entries : List Entry) → AreFirst entries
        → canonical (canonical entries) ≡ canonical entries }
    ensures same { (entries : List Entry) → AreFirst entries → Same entries (canonical entries) }
{}

/// Two captures, or the first entries of two, are the same up to renaming if and only if the bytes
/// of their canonical forms are equal.
pub fn canonical_bytes_decide()
    ensures same { (a b : List Entry) → AreFirst a → AreFirst b
        → bytes_of (canonical a) ≡ bytes_of (canonical b) → Same a b }
    ensures bytes { (a b : List Entry) → Same a b
        → bytes_of (canonical a) ≡ bytes_of (canonical b) }
    ensures forms { (a b : List Entry) → Same a b → canonical a ≡ canonical b }
{}

/// Equality up to renaming is an equivalence.
pub fn same_is_an_equivalence()
    ensures reflexive { (a : List Entry) → AreFirst a → Same a a }
    ensures symmetric { (a b : List Entry) → Same a b → Same b a }
    ensures transitive { (a b c : List Entry) → Same a b → Same b c → Same a c }
{}

/// The canonical form of the first entries is the first entries of the canonical form, and its
/// bytes are a prefix of the whole's. It is made entry by entry, with numbers by the values so far.
pub fn canonical_forms_of_prefixes()
    ensures entries { (i : ℕ) (a : List Entry) → AreFirst a
        → canonical (take i a) ≡ take i (canonical a) }
    ensures bytes { (i : ℕ) (a : List Entry) → (rest : List ℕ)
        × (bytes_of (canonical a) ≡ bytes_of (take i (canonical a)) ++ rest) }
    ensures one_by_one { (a : List Entry) → AreFirst a → canonical a ≡ entries_after [] [] [] a }
    ensures first { (i : ℕ) (a : List Entry) → AreFirst a → AreFirst (take i a) }
{}

/// A comparison of canonical bytes entry by entry finds the first position at which they differ.
pub fn comparison_finds_the_parting()
    ensures fronts { (a b : List Entry) → AreFirst a → AreFirst b → FrontsAreDecided a b }
    ensures parts { (a b : List Entry) → AreFirst a → AreFirst b → PartWhereFormsDo a b }
    ensures places { (a b : List Entry) → AreFirst a → AreFirst b → HavePlaces a b }
    ensures ends { (file other : List ℕ) (a b : List Entry) → Typed file a → Typed other b
        → EndTogether a b }
{}

/// If a source tells which bytes it has left, it gives a prefix of them. So what a call writes by a
/// form of the bytes that were given (`canon`, `show` and `mask`) is the form of all of those.
pub fn left_bytes_are_written()
    ensures summary { (form : List Entry → List ℕ) (bytes : List ℕ)
        (source : Observed × Observed) (sink : Option (List ℕ) × Option (List ℕ))
        (result : Result Summary Error) → source.0.left ≡ Some bytes
        → WritesGiven form source sink result → WritesAll form bytes sink result }
    ensures counts { (form : List Entry → List ℕ) (bytes : List ℕ)
        (source : Observed × Observed) (sink : Option (List ℕ) × Option (List ℕ))
        (result : Result MessageCounts Error) → source.0.left ≡ Some bytes
        → WritesGivenCounted AreMessageCounts form source sink result
        → WritesAllCounted AreMessageCounts form bytes sink result }
{}

/// If a source tells which bytes it has left, it gives a prefix of them. So what `check` and `same`
/// return of the bytes that were given holds of all of those.
pub fn left_bytes_are_given()
    ensures check { (bytes : List ℕ) (old new : Observed) (result : Result Summary Error)
        → old.left ≡ Some bytes → ConcludesGiven old new result → ConcludesAll bytes result }
    ensures same { (file other : List ℕ) (first second : Observed × Observed)
        (result : Result Verdict SameError) → first.0.left ≡ Some file
        → second.0.left ≡ Some other → DecidesSame (of_source first) (of_source second) result
        → DecidesSame (of_bytes file) (of_bytes other) result }
{}
