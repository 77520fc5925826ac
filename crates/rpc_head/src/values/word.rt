//! Words that are refused for a reason of their own.

ghost use Rattle.xdr3.specs.Reading.{word_at};
ghost use Rattle.xdr3.specs.Shape.{is_listed};
ghost use Rattle.xdr3.specs.View.{Answers, MovesOn};

use xdr3::{Input, Reason, Stop};

/// Reads a word that must be one of these. Any other is refused for the given reason.
pub(crate) fn listed_or(input: &mut Input, words: &[u32], reason: Reason) -> Result<u32, Stop>
    ensures read { Answers (λ n. n) result input.new.at
        (word_at (is_listed words.now) reason input.old.body input.old.at) }
    ensures moves { MovesOn input.old input.new }
{
    match input.listed(words) {
        Ok(n) => Ok(n),
        Err(stop) if stop.reason == Reason::BadEnum => Err(Stop {
            at: stop.at,
            reason,
        }),
        Err(stop) => Err(stop),
    }
}
