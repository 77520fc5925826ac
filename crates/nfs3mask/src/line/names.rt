//! The names of ways.

ghost use Rattle.std.specs.Prelude.{◌≡◌, ◌≢◌, MatchOption};
ghost use Rattle.nfs3mask.specs.Changes.{way_name};

use masking3::Way;

/// Returns the way of this name.
pub(crate) fn way_named(name: &str) -> Option<Way>
    ensures { MatchOption result ((way : Way) → name.now ≢ way_name way)
        (λ way. name.now ≡ way_name way) }
{
    match name {
        "keep" => Some(Way::Keep),
        "zero" => Some(Way::Zero),
        "number" => Some(Way::Number),
        _ => None,
    }
}

/// Returns the name of a way.
pub(crate) fn way_name(way: Way) -> &'static str
    ensures { result.now ≡ way_name way }
{
    match way {
        Way::Keep => "keep",
        Way::Zero => "zero",
        Way::Number => "number",
    }
}
