//! The two ends of a connection.

ghost use Rattle.std.specs.Prelude.{◌≡◌};
ghost use Rattle.connections3.specs.Ends.{ends_between, other_end, sender_between};

use recording3::End;

/// Both ends of a connection, the lower first, so that both directions have the same.
#[derive(Clone, Copy, Debug, PartialEq, Eq, PartialOrd, Ord)]
pub struct EndPair {
    /// The lower end: by version and octets of the address, then by port.
    pub lower: End,
    /// The other.
    pub higher: End,
}

/// One of the two ends of a connection.
#[derive(Clone, Copy, Debug, PartialEq, Eq)]
pub enum OneEnd {
    /// The lower.
    Lower,
    /// The higher.
    Higher,
}

impl OneEnd {
    /// Returns the other one.
    pub fn other(self) -> OneEnd
        ensures { result ≡ other_end self }
    {
        match self {
            OneEnd::Lower => OneEnd::Higher,
            OneEnd::Higher => OneEnd::Lower,
        }
    }
}

/// Returns both ends of a segment, and which of them sent it.
#[tactic(auto, using(crate::proofs::EndsLemmas::end_order_is))]
pub(crate) fn ends_between(source: End, target: End) -> (EndPair, OneEnd)
    ensures ends { result.0 ≡ ends_between source target }
    ensures sender { result.1 ≡ sender_between source target }
{
    if source.cmp(&target).is_gt() {
        let ends = EndPair {
            lower: target,
            higher: source,
        };
        return (ends, OneEnd::Higher);
    }
    let ends = EndPair {
        lower: source,
        higher: target,
    };
    (ends, OneEnd::Lower)
}
