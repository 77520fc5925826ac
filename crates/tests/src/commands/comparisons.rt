//! Comparisons of captures in memory.

use crate::asserts::{assert_holds, assert_same, ok};
use crate::faults::record;
use crate::samples::{commit, hashers};
use canon3::{SameError, Verdict, Which, same};
use capture3::{Error, MemSource, Side};
use std::alloc::{AllocError, Global};

/// Each is read byte by byte, and the read of the second with this number fails.
fn compare(alloc: Global, first: &[u8], second: &[u8], fail: u64) -> Result<Verdict, SameError> {
    same(
        alloc,
        hashers(),
        hashers(),
        &mut MemSource::new(first, 1, 0),
        &mut MemSource::new(second, 1, fail),
    )
}

/// Two captures of one COMMIT each, which differ in xid, file handle and write verifier alone.
fn runs(alloc: Global) -> Result<(Vec<u8>, Vec<u8>), AllocError> {
    let first = commit(alloc, [0, 0, 0, 5], [0, 0, 0, 2, 0xaa, 0xbb, 0, 0], [1; 8])?;
    let second = commit(alloc, [0, 0, 0, 9], [0, 0, 0, 1, 0xcc, 0, 0, 0], [0; 8])?;
    Ok((first, second))
}

#[test]
fn runs_that_are_the_same(rt: HostRuntime) {
    let (first, second) = ok(&rt, runs(rt.alloc()));
    assert_same!(rt; compare(rt.alloc(), &first, &second, 0), Ok(Verdict::Same));
}

/// The count of the second's COMMIT, which ends its call at byte 80 of the file, is another.
#[test]
fn runs_that_part(rt: HostRuntime) {
    let (first, mut second) = ok(&rt, runs(rt.alloc()));
    assert_holds!(rt; second.len() == 144);
    second[79] = 1;
    assert_same!(rt;
        compare(rt.alloc(), &first, &second, 0),
        Ok(Verdict::Differ(record(1, Side::Client, 1, 0)))
    );
}

/// A failed read is answered when it is met, also where the first run would be refused later.
#[test]
fn a_failed_read_of_the_second(rt: HostRuntime) {
    let (mut first, second) = ok(&rt, runs(rt.alloc()));
    assert_holds!(rt; first.len() == 144);
    first[27] = 2;
    assert_same!(rt;
        compare(rt.alloc(), &first, &second, 1),
        Err(SameError {
            which: Which::Second,
            error: Error::Read
        })
    );
}
