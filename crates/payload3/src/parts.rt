//! Where the next bytes of a payload lie.

ghost use Rattle.std.specs.Prelude.{◌≡◌, ◌≤◌, ◌<◌, ℕ, List, length};
ghost use Rattle.payload3.specs.Standing.{AreInSoFar, payload_left};

use streams3::Run;

/// How many runs were begun, and of the last where its rest lies and how many bytes that has.
#[derive(Clone, Copy, Drop)]
pub struct RunPart {
    pub begun: usize,
    pub at: u64,
    pub left: u32,
}

/// Goes to the next run that has bytes, if nothing is left of this one.
pub(crate) fn next_part(runs: &[Run], mut part: RunPart) -> RunPart
    ensures same { (file : List ℕ)
        → payload_left file runs.now result ≡ payload_left file runs.now part }
    ensures within { (file : List ℕ) → AreInSoFar file runs.now part
        → AreInSoFar file runs.now result }
    ensures stays { part.left ≡ 0 → length runs.now ≤ part.begun → result ≡ part }
    ensures none { result.left ≡ 0 → length runs.now ≤ result.begun }
{
    while part.left == 0 && part.begun < runs.len() {
        let run = runs[part.begun];
        part = RunPart {
            begun: part.begun + 1,
            at: run.at,
            left: run.size,
        };
    }
    part
}
