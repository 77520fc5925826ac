//! How the hashes of keys that count up spread over a table.

use program3::SecretHasher;
use std::hash::{BuildHasher, Hasher};
use std::io;
use std::test::Fail;

const SECRETS: usize = 200;

const KEYS: u64 = 1_024;

const BUCKETS: usize = 2_048;
/// Of random keys, two are in one bucket once in 2,048 pairs.
const PAIRS_OF_RANDOM_KEYS: usize = 256;

/// Returns the bucket that a table looks into first: its number is the low bits of the hash.
fn bucket(hasher: &SecretHasher, key: &[u8]) -> usize {
    let mut state = hasher.build_hasher();
    state.write(key);
    state.finish() as usize % BUCKETS
}

/// Returns how many pairs of keys are in one bucket. The keys count up by a step, in 4 bytes or in 8, with the
/// lowest byte first or last.
fn pairs_in_one_bucket(hasher: &SecretHasher, width: usize, is_big: bool, step: u64) -> usize {
    let mut counts = [0usize; BUCKETS];
    let mut pairs = 0;
    for number in 1..=KEYS {
        let little = (number * step).to_le_bytes();
        let big = (number * step).to_be_bytes();
        let key = if is_big {
            &big[8 - width..]
        } else {
            &little[..width]
        };
        let at = bucket(hasher, key);
        pairs += counts[at];
        counts[at] += 1;
    }
    pairs
}

/// Returns how many pairs meet at most, under many secrets.
fn most_pairs(rt: &HostRuntime, width: usize, is_big: bool) -> Result<usize, io::Error> {
    let mut most = 0;
    for _ in 0..SECRETS {
        let hasher = SecretHasher::new(rt)?;
        let by_one = pairs_in_one_bucket(&hasher, width, is_big, 1);
        let by_pages = pairs_in_one_bucket(&hasher, width, is_big, 4_096);
        most = most.max(by_one).max(by_pages);
    }
    Ok(most)
}

#[test]
fn words_that_count_up(rt: HostRuntime) -> Result<(), Fail> {
    assert!(rt; most_pairs(&rt, 4, false)? <= 2 * PAIRS_OF_RANDOM_KEYS);
    assert!(rt; most_pairs(&rt, 4, true)? <= 2 * PAIRS_OF_RANDOM_KEYS);
    Ok(())
}

#[test]
fn hypers_that_count_up(rt: HostRuntime) -> Result<(), Fail> {
    assert!(rt; most_pairs(&rt, 8, false)? <= 2 * PAIRS_OF_RANDOM_KEYS);
    assert!(rt; most_pairs(&rt, 8, true)? <= 2 * PAIRS_OF_RANDOM_KEYS);
    Ok(())
}
