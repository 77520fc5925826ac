//! Runs of words and hypers of any value, which are visited at once.

ghost use Rattle.std.specs.Prelude.{◌≡◌, ◌+◌, ◌<◌, IfErr, OnOk, length, Err};
ghost use Rattle.xdr3.specs.Plain.{run_shape, run_size, width};
ghost use Rattle.xdr3.specs.Reading.{reading};
ghost use Rattle.xdr3.specs.Scan.{Scans, Stops};

use crate::input::Input;
use crate::reason::{GetError, Reason, Stop};
use crate::visit::Visit;

/// A word of any value, or a hyper, with its name (RFC 4506, sections 4.1 and 4.5).
#[derive(Clone, Copy)]
pub enum PlainField {
    Word(&'static str),
    Hyper(&'static str),
}

impl PlainField {
    /// Returns how many bytes it has.
    fn width(self) -> u32
        ensures { result ≡ width self }
    {
        match self {
            PlainField::Word(_) => 4,
            PlainField::Hyper(_) => 8,
        }
    }
}

/// Reads fields that follow one another in `size` bytes. If all of them are there, they are passed
/// to the visitor at once; otherwise none is.
///
/// # Errors
///
/// - `Short` at the first field that is not whole.
/// - `Memory` if the visitor fails.
#[inline(always)]
#[tactic(auto, using(crate::proofs::Lemmas::Shapes::PlainLemmas::runs), unfolding(crate::specs::Scan::Stops))]
pub fn scan_plain<V: Visit>(
    fields: &[PlainField],
    size: u32,
    input: &mut Input,
    visitor: &mut V,
) -> Result<(), GetError>
    requires { size ≡ run_size fields.now }
    ensures ok { OnOk result
        (Scans V.stands (run_shape fields.now) (input.old, visitor.old) (input.new, visitor.new)) }
    ensures err { IfErr result (λ error. Stops (run_shape fields.now) input.old error) }
{
    let Some(bytes) = input.run(size) else {
        return Err(GetError::Stop(first_short(fields, input)));
    };
    visitor.plain(fields, bytes)?;
    Ok(())
}

/// Returns the stop at the first field that is not whole. There must be one.
fn first_short(fields: &[PlainField], input: &Input) -> Stop
    requires { length input.now.body < input.now.at + run_size fields.now }
    ensures { reading (run_shape fields.now) input.now.body input.now.at ≡ Err result }
{
    let mut at = input.at();
    let mut left = input.left();
    for field in fields {
        let width = field.width();
        if left < width {
            return Stop {
                at,
                reason: Reason::Short,
            };
        }
        at += width;
        left -= width;
    }
    // Some field is not whole.
    unreachable!()
}
