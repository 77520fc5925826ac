//! What the definitions of a stream say of any events.

ghost use Rattle.std.specs.Prelude.{◌≡◌, ◌≢◌, ◌≤◌, ℕ, List, [], ◌∷◌, ◌++◌, None, ◌⊎◌};
ghost use Rattle.streams3.specs.declared.runs.Run.{Run};
ghost use Rattle.streams3.specs.declared.segments.StreamSegment.{StreamSegment};
ghost use Rattle.streams3.specs.Content.{AreStreamBytes, AreIn, content_of};
ghost use Rattle.streams3.specs.Events.{Event, IsNear, Sent, SentAt, first_number, payload_of};
ghost use Rattle.streams3.specs.Order.{AreBetween, HasNoGap};
ghost use Rattle.streams3.specs.Runs.{AreInOrder, spot_in, spot_of, top_of};
ghost use Rattle.streams3.specs.Streams.{Shown, ShowsEvents};

/// Events say one thing of a stream.
pub fn one_answer()
    ensures { (one other : Shown) (events : List Event) → one.first ≡ other.first
        → ShowsEvents one events → ShowsEvents other events → one ≡ other }
{}

/// A segment that comes twice changes no byte of a stream, if its number keeps its position.
pub fn doubled()
    ensures { (was one two : Shown) (events : List Event) (s : StreamSegment) (position : ℕ)
        → was.first ≡ one.first → one.first ≡ two.first → ShowsEvents was events
        → ShowsEvents one (events ++ Sent s ∷ [])
        → ShowsEvents two ((events ++ Sent s ∷ []) ++ Sent s ∷ [])
        → IsNear one.first (top_of was.log) (first_number s) position
        → IsNear one.first (top_of one.log) (first_number s) position
        → (p : ℕ) → spot_of two.log p ≡ spot_of one.log p }
{}

/// The order of two payloads that have no byte in common does not matter.
pub fn exchanged()
    ensures { (before after : List Run) (one other : Run)
        → ((p : ℕ) → (spot_in one p ≡ None) ⊎ (spot_in other p ≡ None)) → (p : ℕ)
        → spot_of (before ++ one ∷ other ∷ after) p ≡ spot_of (before ++ other ∷ one ∷ after) p }
{}

/// The bytes of runs in order, none of which is missing, are those of the stream.
pub fn stream_bytes()
    ensures { (file : List ℕ) (log runs parts : List Run) (from to : ℕ) → from ≤ to
        → AreInOrder log runs → AreBetween runs from to parts → HasNoGap runs from to
        → AreIn file parts → AreStreamBytes file log from to (content_of file parts) }
{}
