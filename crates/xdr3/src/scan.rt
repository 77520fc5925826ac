//! Items that are passed to a visitor as they are read.
#![tactic(auto, unfolding(crate::specs::Scan::Scans, crate::specs::Scan::Stops, crate::specs::Reading::reading, crate::specs::Scan::ScansWord, crate::specs::Scan::StopsWord))]

ghost use Rattle.std.specs.Prelude.{◌≡◌, ◌<◌, IfErr, IfOk, OnOk};
ghost use Rattle.std.specs.Int.{from_bool};
ghost use Rattle.xdr3.specs.Item.{Handle, Text, Var};
ghost use Rattle.xdr3.specs.Layout.{Layout, remaining};
ghost use Rattle.xdr3.specs.Scan.{Scans, ScansLayout, ScansWord, Stops, StopsWord};
ghost use Rattle.xdr3.specs.machinery.WindowScans.{ScansInside, StopsInside};
ghost use Rattle.xdr3.specs.Shape.{Shape, array_named, fixed, hyper, is_any, is_at_most, is_bool, is_listed, linked, opaque, optional_named, sized, write_verf};

use crate::input::Input;
use crate::pass;
use crate::reason::{GetError, Reason, Stop};
use crate::visit::Visit;

/// Items of one shape, which are read and passed to a visitor in one pass. No value is built.
pub trait Scan {
    /// Which items.
    ghost shape: { Shape };

    /// Reads the items of the shape, and passes each to the visitor as it is read. After an error
    /// the contents of the visitor are unspecified.
    ///
    /// # Errors
    ///
    /// - `Stop` with the position and the reason of the shape's first fault.
    /// - `Memory` if the visitor fails.
    fn scan<V: Visit>(input: &mut Input, visitor: &mut V) -> Result<(), GetError>
        ensures ok { OnOk result
            (Scans V.stands shape (input.old, visitor.old) (input.new, visitor.new)) }
        ensures err { IfErr result (λ error. Stops shape input.old error) };
}

/// Reads a word and visits it (RFC 4506, sections 4.1 and 4.2).
#[inline]
pub fn scan_word<V: Visit>(
    name: &'static str,
    input: &mut Input,
    visitor: &mut V,
) -> Result<u32, GetError>
    ensures ok { IfOk result
        (λ n. ScansWord V.stands (name.now, is_any, Reason.BadEnum) n
        (input.old, visitor.old) (input.new, visitor.new)) }
    ensures err { IfErr result (λ error. StopsWord is_any Reason.BadEnum input.old error) }
{
    let n = input.word()?;
    visitor.word(name, n)?;
    Ok(n)
}

/// Reads a word that must be one of these, and visits it (RFC 4506, section 4.3).
#[inline]
pub fn scan_listed<V: Visit>(
    name: &'static str,
    words: &[u32],
    input: &mut Input,
    visitor: &mut V,
) -> Result<u32, GetError>
    ensures ok { IfOk result
        (λ n. ScansWord V.stands (name.now, is_listed words.now, Reason.BadEnum) n
        (input.old, visitor.old) (input.new, visitor.new)) }
    ensures err { IfErr result
        (λ error. StopsWord (is_listed words.now) Reason.BadEnum input.old error) }
{
    let n = input.listed(words)?;
    visitor.word(name, n)?;
    Ok(n)
}

/// Reads a bool and visits it (RFC 4506, section 4.4).
#[inline]
pub fn scan_boolean<V: Visit>(
    name: &'static str,
    input: &mut Input,
    visitor: &mut V,
) -> Result<bool, GetError>
    ensures ok { IfOk result
        (λ is. ScansWord V.stands (name.now, is_bool, Reason.BadBool) (from_bool is)
        (input.old, visitor.old) (input.new, visitor.new)) }
    ensures err { IfErr result (λ error. StopsWord is_bool Reason.BadBool input.old error) }
    ensures further { OnOk result (input.old.at < input.new.at) }
{
    let is = input.boolean()?;
    visitor.word(name, is as u32)?;
    Ok(is)
}

/// Reads a length or a count of at most `max`, and visits it (RFC 4506, sections 4.10 and 4.13).
#[inline]
fn scan_at_most<V: Visit>(
    name: &'static str,
    max: u32,
    input: &mut Input,
    visitor: &mut V,
) -> Result<u32, GetError>
    ensures ok { IfOk result
        (λ n. ScansWord V.stands (name.now, is_at_most max, Reason.TooLong) n
        (input.old, visitor.old) (input.new, visitor.new)) }
    ensures err { IfErr result
        (λ error. StopsWord (is_at_most max) Reason.TooLong input.old error) }
{
    let n = input.at_most(max)?;
    visitor.word(name, n)?;
    Ok(n)
}

/// Reads a hyper and visits it (RFC 4506, section 4.5).
#[inline]
pub fn scan_hyper<V: Visit>(
    name: &'static str,
    input: &mut Input,
    visitor: &mut V,
) -> Result<(), GetError>
    ensures ok { OnOk result
        (Scans V.stands (hyper name.now) (input.old, visitor.old) (input.new, visitor.new)) }
    ensures err { IfErr result (λ error. Stops (hyper name.now) input.old error) }
{
    let n = input.hyper()?;
    visitor.hyper(name, n)?;
    Ok(())
}

/// Reads eight bytes of opaque data and visits them (RFC 4506, section 4.9).
#[inline]
pub fn scan_fixed<V: Visit>(
    name: &'static str,
    input: &mut Input,
    visitor: &mut V,
) -> Result<(), GetError>
    ensures ok { OnOk result
        (Scans V.stands (fixed name.now) (input.old, visitor.old) (input.new, visitor.new)) }
    ensures err { IfErr result (λ error. Stops (fixed name.now) input.old error) }
{
    let bytes = input.fixed8()?;
    visitor.fixed(name, &bytes)?;
    Ok(())
}

/// Reads a write verifier of eight bytes and visits it (RFC 4506, section 4.9).
#[inline]
pub fn scan_write_verf<V: Visit>(
    name: &'static str,
    input: &mut Input,
    visitor: &mut V,
) -> Result<(), GetError>
    ensures ok { OnOk result
        (Scans V.stands (write_verf name.now) (input.old, visitor.old) (input.new, visitor.new)) }
    ensures err { IfErr result (λ error. Stops (write_verf name.now) input.old error) }
{
    let bytes = input.fixed8()?;
    visitor.write_verf(name, &bytes)?;
    Ok(())
}

/// Reads opaque data of at most `max` bytes and visits it (RFC 4506, section 4.10).
#[inline(always)]
pub fn scan_var<V: Visit>(
    name: &'static str,
    max: u32,
    input: &mut Input,
    visitor: &mut V,
) -> Result<(), GetError>
    ensures ok { OnOk result
        (Scans V.stands (opaque Var name.now max)
        (input.old, visitor.old) (input.new, visitor.new)) }
    ensures err { IfErr result (λ error. Stops (opaque Var name.now max) input.old error) }
{
    let bytes = pass!(input.var(max));
    visitor.var(name, bytes)?;
    Ok(())
}

/// Reads a string of at most `max` bytes and visits it (RFC 4506, section 4.11).
#[inline(always)]
pub fn scan_text<V: Visit>(
    name: &'static str,
    max: u32,
    input: &mut Input,
    visitor: &mut V,
) -> Result<(), GetError>
    ensures ok { OnOk result
        (Scans V.stands (opaque Text name.now max)
        (input.old, visitor.old) (input.new, visitor.new)) }
    ensures err { IfErr result (λ error. Stops (opaque Text name.now max) input.old error) }
{
    let bytes = pass!(input.var(max));
    visitor.text(name, bytes)?;
    Ok(())
}

/// Reads a file handle of at most 64 bytes and visits it (RFC 1813, section 2.4).
#[inline]
pub fn scan_handle<V: Visit>(
    name: &'static str,
    input: &mut Input,
    visitor: &mut V,
) -> Result<(), GetError>
    ensures ok { OnOk result
        (Scans V.stands (opaque Handle name.now 64)
        (input.old, visitor.old) (input.new, visitor.new)) }
    ensures err { IfErr result (λ error. Stops (opaque Handle name.now 64) input.old error) }
{
    let bytes = pass!(input.var(64));
    visitor.handle(name, bytes)?;
    Ok(())
}

/// Visits all bytes that are left, also none.
#[inline]
#[tactic(auto, unfolding(crate::specs::Scan::ScansLayout, crate::specs::Layout::reading_layout))]
pub fn scan_rest<V: Visit>(
    name: &'static str,
    input: &mut Input,
    visitor: &mut V,
) -> Result<(), GetError>
    ensures ok { OnOk result
        (ScansLayout V.stands (remaining name.now)
        (input.old, visitor.old) (input.new, visitor.new)) }
    ensures memory { IfErr result (λ error. error ≡ GetError.Memory) }
{
    let bytes = input.rest();
    visitor.rest(name, bytes)?;
    Ok(())
}

/// Reads a bool, and the shape if it is true (optional data, RFC 4506, section 4.19).
#[inline(always)]
#[tactic(auto, using(crate::proofs::Lemmas::Scans::ScanLemmas::scans), unfolding(crate::specs::Shape::optional_named))]
pub fn scan_optional<T: Scan, V: Visit>(
    name: &'static str,
    input: &mut Input,
    visitor: &mut V,
) -> Result<(), GetError>
    ensures ok { OnOk result
        (Scans V.stands (optional_named name.now T.shape)
        (input.old, visitor.old) (input.new, visitor.new)) }
    ensures err { IfErr result (λ error. Stops (optional_named name.now T.shape) input.old error) }
{
    if scan_boolean(name, input, visitor)? {
        T::scan(input, visitor)
    } else {
        Ok(())
    }
}

/// Reads a list by optional data: a word 1 before each part, and a word 0 at the end (RFC 4506,
/// section 4.19).
#[tactic(auto, using(crate::proofs::Lemmas::Scans::LinkedScanLemmas::links))]
pub fn scan_linked<T: Scan, V: Visit>(
    name: &'static str,
    input: &mut Input,
    visitor: &mut V,
) -> Result<(), GetError>
    ensures ok { OnOk result
        (Scans V.stands (linked name.now T.shape)
        (input.old, visitor.old) (input.new, visitor.new)) }
    ensures err { IfErr result (λ error. Stops (linked name.now T.shape) input.old error) }
{
    // The prover concludes from this that the position is within the body.
    input.at();
    'links: while scan_boolean(name, input, visitor)? {
        T::scan(input, visitor)?;
    }
    Ok(())
}

/// Reads an array: a count of at most `max`, and the shape that many times (RFC 4506, section
/// 4.13).
#[inline(always)]
pub fn scan_counted<T: Scan, V: Visit>(
    name: &'static str,
    max: u32,
    input: &mut Input,
    visitor: &mut V,
) -> Result<(), GetError>
    ensures ok { OnOk result
        (Scans V.stands (array_named name.now max T.shape)
        (input.old, visitor.old) (input.new, visitor.new)) }
    ensures err { IfErr result
        (λ error. Stops (array_named name.now max T.shape) input.old error) }
{
    let count = scan_at_most(name, max, input, visitor)?;
    'parts: for _ in 0..count {
        T::scan(input, visitor)?;
    }
    Ok(())
}

/// Reads a length of at most 400, and the shape in exactly that many bytes: the body of a
/// credential (RFC 5531, section 8.2). `AuthLength` if an item passes the last of these bytes, or
/// if some are left over.
#[inline(always)]
#[tactic(auto, using(crate::proofs::Lemmas::Scans::SizedScanLemmas::sizes))]
pub fn scan_sized<T: Scan, V: Visit>(
    name: &'static str,
    input: &mut Input,
    visitor: &mut V,
) -> Result<(), GetError>
    ensures ok { OnOk result
        (Scans V.stands (sized name.now T.shape)
        (input.old, visitor.old) (input.new, visitor.new)) }
    ensures err { IfErr result (λ error. Stops (sized name.now T.shape) input.old error) }
{
    let len = scan_at_most(name, 400, input, visitor)?;
    let mut window = input.window(len)?;
    scan_inside::<T, V>(&mut window, visitor)
}

/// Reads the shape, which must fill the rest of a window.
#[inline(always)]
#[tactic(auto, unfolding(crate::specs::Scan::Scans, crate::specs::machinery::WindowScans::ScansInside, crate::specs::Scan::Stops, crate::specs::machinery::WindowScans::StopsInside))]
fn scan_inside<T: Scan, V: Visit>(window: &mut Input, visitor: &mut V) -> Result<(), GetError>
    ensures ok { OnOk result (ScansInside V.stands T.shape window.old visitor.old visitor.new) }
    ensures err { IfErr result (λ error. StopsInside T.shape window.old error) }
{
    match T::scan(window, visitor) {
        Ok(()) => match window.end() {
            Ok(()) => Ok(()),
            Err(stop) => Err(GetError::Stop(Stop {
                at: stop.at,
                reason: Reason::AuthLength,
            })),
        },
        Err(GetError::Stop(stop)) => Err(GetError::Stop(Stop {
            at: stop.at,
            reason: stop.reason.in_window(),
        })),
        Err(GetError::Memory) => Err(GetError::Memory),
    }
}
