//! Bytes that were recorded again.

ghost use Rattle.std.specs.Prelude.{◌≡◌, ◌≤◌, ◌+◌, ◌^◌, IfOk, OnOk};
ghost use Rattle.streams3.specs.Runs.{HasBytes, Lie};
ghost use Rattle.streams3.specs.Runs.{AreSound};
ghost use Rattle.streams3.specs.machinery.Repeating.{AddsRepeats, AddsRepeat, AreAgain};

use crate::runs::{Pair, Run};
use crate::search::{begins_before, count_before, end_of, part_of};
use std::alloc::{AllocError, Global};

/// Returns the bytes of payloads that lie elsewhere than those of runs in order.
///
/// # Errors
///
/// `AllocError` if memory is short.
pub(crate) fn repeats(
    payloads: &[Run],
    runs: &[Run],
    alloc: Global,
) -> Result<Vec<Pair>, AllocError>
    requires sound { AreSound payloads.now }
    requires order { Lie 0 (2 ^ 63) runs.now }
    ensures { IfOk result (λ pairs. AreAgain payloads.now runs.now pairs.items) }
{
    let mut pairs = Vec::new(alloc);
    for run in payloads {
        add_repeats(&mut pairs, runs, *run)?;
    }
    Ok(pairs)
}

/// AddsRepeats the bytes of a payload that lie elsewhere than those of runs in order.
fn add_repeats(pairs: &mut Vec<Pair>, runs: &[Run], run: Run) -> Result<(), AllocError>
    requires order { Lie 0 (2 ^ 63) runs.now }
    requires sound { HasBytes run }
    requires small { run.position + run.size ≤ 2 ^ 63 }
    ensures { OnOk result (AddsRepeats runs.now run pairs.old.items pairs.new.items) }
{
    let end = run.position + run.size as u64;
    let mut i = count_before(runs, run.position);
    while begins_before(runs, i, end) {
        let start = runs[i].position.max(run.position);
        let stop = end_of(runs, i).min(end);
        add_pair(
            pairs,
            part_of(runs[i], start, stop),
            part_of(run, start, stop),
        )?;
        i += 1;
    }
    Ok(())
}

/// AddsRepeats a pair, if its bytes do not lie in one place.
#[inline(always)]
fn add_pair(pairs: &mut Vec<Pair>, first: Run, again: Run) -> Result<(), AllocError>
    ensures { OnOk result (AddsRepeat first again pairs.old.items pairs.new.items) }
{
    if first == again {
        return Ok(());
    }
    pairs.push(Pair { first, again })?;
    Ok(())
}
