//! Runs in order: where they lie, and what is between them.

ghost use Rattle.std.specs.Prelude.{◌≡◌, ◌≢◌, ◌≤◌, ◌<◌, ◌+◌, ◌-◌, ◌^◌, ◌↔◌};
ghost use Rattle.std.specs.Prelude.{ℕ, IfOk, IsTrue, MatchOption, None, length, take};
ghost use Rattle.streams3.specs.Order.{AreBetween, HasNoGap, IsGap};
ghost use Rattle.streams3.specs.machinery.FirstByte.{IsFirstByte};
ghost use Rattle.streams3.specs.Runs.{HasBytes, Lie, spot_of};
ghost use Rattle.streams3.specs.machinery.Log.{end_at, part_of, nth_run};

use crate::runs::{MissingBytes, Run};
use crate::segments::Mark;
use std::alloc::{AllocError, Global};

/// Returns the position after a run.
#[inline(always)]
pub(crate) fn end_of(runs: &[Run], index: usize) -> u64
    requires order { Lie 0 (2 ^ 63) runs.now }
    requires index { index < length runs.now }
    ensures { result ≡ end_at runs.now index }
{
    let run = &runs[index];
    run.position + run.size as u64
}

/// Returns the bytes of a run from a position on, up to another.
#[inline(always)]
pub(crate) fn part_of(run: Run, start: u64, stop: u64) -> Run
    requires sound { HasBytes run }
    requires start { run.position ≤ start }
    requires some { start < stop }
    requires stop { stop ≤ run.position + run.size }
    ensures { result ≡ part_of run start stop }
{
    Run {
        position: start,
        at: run.at + (start - run.position),
        size: (stop - start) as u32,
        frame: run.frame,
    }
}

/// Returns how many of the runs end at a position or before it.
pub(crate) fn count_before(runs: &[Run], at: u64) -> usize
    requires { Lie 0 (2 ^ 63) runs.now }
    ensures within { result ≤ length runs.now }
    ensures before { Lie 0 at (take result runs.now) }
    ensures beyond { result < length runs.now → at < end_at runs.now result }
{
    let mut low = 0;
    let mut high = runs.len();
    while low < high {
        let middle = low + (high - low) / 2;
        if end_of(runs, middle) <= at {
            low = middle + 1;
        } else {
            high = middle;
        }
    }
    low
}

/// Returns where a run begins, but at most a position, which is that where there is no run.
#[inline(always)]
pub(crate) fn start_of(runs: &[Run], index: usize, most: u64) -> u64
    ensures within { result ≤ most }
    ensures start { index < length runs.now → result ≤ (nth_run runs.now index).position }
    ensures none { length runs.now ≤ index → result ≡ most }
    ensures found { index < length runs.now → (nth_run runs.now index).position ≤ most
        → result ≡ (nth_run runs.now index).position }
    ensures run { result < most
        → (index < length runs.now) × (result ≡ (nth_run runs.now index).position) }
{
    if index < runs.len() {
        most.min(runs[index].position)
    } else {
        most
    }
}

/// Returns whether there is a run, and it begins before a position.
#[inline(always)]
pub(crate) fn begins_before(runs: &[Run], index: usize, end: u64) -> bool
    ensures { IsTrue result
        ↔ ((index < length runs.now) × ((nth_run runs.now index).position < end)) }
{
    index < runs.len() && runs[index].position < end
}

/// Returns the position after the last byte, or 0.
pub(crate) fn end_of_last(runs: &[Run]) -> u64
    requires { Lie 0 (2 ^ 63) runs.now }
    ensures before { Lie 0 result runs.now }
    ensures last { 0 < result → spot_of runs.now (result - 1) ≢ None }
{
    let count = runs.len();
    if count == 0 {
        return 0;
    }
    end_of(runs, count - 1)
}

/// Returns the first bytes that are missing between two positions.
pub(crate) fn first_gap(runs: &[Run], from: u64, to: u64) -> Option<MissingBytes>
    requires { Lie 0 (2 ^ 63) runs.now }
    ensures { MatchOption result (HasNoGap runs.now from to)
        (λ g. IsGap runs.now from to g.begin g.end) }
{
    let mut i = count_before(runs, from);
    let mut begin = from;
    while begin < to {
        let end = start_of(runs, i, to);
        if end > begin {
            return Some(MissingBytes { begin, end });
        }
        begin = end_of(runs, i);
        i += 1;
    }
    None
}

/// Returns the first byte at a position or after it, and its frame.
pub(crate) fn first_byte(runs: &[Run], from: u64) -> Option<Mark>
    requires { Lie 0 (2 ^ 63) runs.now }
    ensures { MatchOption result ((p : ℕ) → from ≤ p → spot_of runs.now p ≡ None)
        (IsFirstByte runs.now from) }
{
    let i = count_before(runs, from);
    if i >= runs.len() {
        return None;
    }
    Some(Mark {
        position: runs[i].position.max(from),
        frame: runs[i].frame,
    })
}

/// Returns the bytes between two positions.
///
/// # Errors
///
/// `AllocError` if memory is short.
pub(crate) fn between(
    runs: &[Run],
    from: u64,
    to: u64,
    alloc: Global,
) -> Result<Vec<Run>, AllocError>
    requires { Lie 0 (2 ^ 63) runs.now }
    ensures { IfOk result (λ parts. AreBetween runs.now from to parts.items) }
{
    let mut parts = Vec::new(alloc);
    if to <= from {
        return Ok(parts);
    }
    let mut i = count_before(runs, from);
    while begins_before(runs, i, to) {
        let start = runs[i].position.max(from);
        let stop = end_of(runs, i).min(to);
        parts.push(part_of(runs[i], start, stop))?;
        i += 1;
    }
    Ok(parts)
}
