//! Payloads put in order. Of bytes that come twice the first count.

ghost use Rattle.std.specs.Prelude.{◌≡◌, ◌≤◌, ◌<◌, ◌+◌, ◌^◌, ◌↔◌, ℕ, IfOk, IsTrue, length};
ghost use Rattle.streams3.specs.Runs.{AreInOrder, Lie, or_else, spot_of};
ghost use Rattle.streams3.specs.machinery.Parting.{AreParted};
ghost use Rattle.streams3.specs.Runs.{AreSound};
ghost use Rattle.streams3.specs.machinery.Log.{nth_run};

use crate::runs::Run;
use crate::search::{end_of, part_of, start_of};
use std::alloc::{AllocError, Global};

/// All positions lie before it.
const TOP: u64 = 0x8000_0000_0000_0000;

/// Returns whether the runs lie one after another. Fewer than two always do.
pub(crate) fn are_in_order(runs: &[Run]) -> bool
    requires { AreSound runs.now }
    ensures order { IsTrue result → Lie 0 (2 ^ 63) runs.now }
    ensures few { length runs.now < 2 → IsTrue result }
{
    let mut end: u64 = 0;
    for run in runs {
        if run.position < end {
            return false;
        }
        end = run.position + run.size as u64;
    }
    true
}

/// Parts payloads into those that begin behind all before them, which are in order, and the others.
///
/// # Errors
///
/// `AllocError` if memory is short.
pub(crate) fn parted(log: &[Run], alloc: Global) -> Result<(Vec<Run>, Vec<Run>), AllocError>
    requires { AreSound log.now }
    ensures { IfOk result (λ r. AreParted log.now r.0.items r.1.items) }
{
    let mut ahead = Vec::new(alloc);
    let mut late = Vec::new(alloc);
    let mut top: u64 = 0;
    for run in log {
        let end = run.position + run.size as u64;
        if run.position < top {
            late.push(*run)?;
            top = top.max(end);
        } else {
            ahead.push(*run)?;
            top = end;
        }
    }
    Ok((ahead, late))
}

/// Puts payloads in order.
///
/// # Errors
///
/// `AllocError` if memory is short.
pub(crate) fn ordered(log: &[Run], alloc: Global) -> Result<Vec<Run>, AllocError>
    requires { AreSound log.now }
    ensures { IfOk result (λ runs. AreInOrder log.now runs.items) }
{
    if are_in_order(log) {
        let mut runs = Vec::new(alloc);
        runs.extend_from_slice(log)?;
        return Ok(runs);
    }
    let (front, back) = log.split_at(log.len() / 2);
    let first = ordered(front, alloc)?;
    let second = ordered(back, alloc)?;
    merged(&first, &second, alloc)
}

/// Merges runs in order with others in order, of which only those bytes count that the first do not
/// have.
pub(crate) fn merged(first: &[Run], second: &[Run], alloc: Global) -> Result<Vec<Run>, AllocError>
    requires first { Lie 0 (2 ^ 63) first.now }
    requires second { Lie 0 (2 ^ 63) second.now }
    ensures order { IfOk result (λ runs. Lie 0 (2 ^ 63) runs.items) }
    ensures same { IfOk result (λ runs. (p : ℕ)
        → spot_of runs.items p ≡ or_else (spot_of first.now p) (spot_of second.now p)) }
{
    let mut runs = Vec::new(alloc);
    let mut end: u64 = 0;
    let mut i = 0;
    let mut j = 0;
    while i < first.len() || j < second.len() {
        let start = end.max(start_of(second, j, TOP));
        if is_next(first, i, start) {
            runs.push(first[i])?;
            end = end_of(first, i);
            i += 1;
        } else if end_of(second, j) <= end {
            j += 1;
        } else {
            let stop = start_of(first, i, end_of(second, j));
            runs.push(part_of(second[j], start, stop))?;
            end = stop;
        }
    }
    Ok(runs)
}

/// Returns whether there is a run that begins at a position or before it.
#[inline(always)]
fn is_next(runs: &[Run], index: usize, start: u64) -> bool
    ensures { IsTrue result
        ↔ ((index < length runs.now) × ((nth_run runs.now index).position ≤ start)) }
{
    index < runs.len() && runs[index].position <= start
}
