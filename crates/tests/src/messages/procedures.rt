//! Arguments and results spelled by hand from RFC 1813, sections 3.3 and 5.2: the items passed to a visitor, and refusals.

ghost use Rattle.std.specs.Prelude.{◌≤◌, length};

use crate::asserts::{assert_same, ok};
use crate::samples::{WRITE, mount, nfs};
use procs3::{proc_name, scan_arguments, scan_results};
use rpc_head::ProcId;
use std::alloc::Global;
use xdr3::{GetError, Input, Reason, Stop, Writer};

/// The results of a READDIR with no attributes and one name, a, at the end of the directory.
const READDIR: [u8; 52] = [
    0, 0, 0, 0, 0, 0, 0, 0, 1, 2, 3, 4, 5, 6, 7, 8, 0, 0, 0, 1, 0, 0, 0, 0, 0, 0, 0, 7, 0, 0, 0, 1,
    0x61, 0, 0, 0, 0, 0, 0, 0, 0, 0, 0, 3, 0, 0, 0, 0, 0, 0, 0, 1,
];

/// What a visitor that writes is told of the arguments that the body is.
fn told_arguments(alloc: Global, id: ProcId, body: &[u8]) -> Result<Writer, GetError>
    requires { length body.now ≤ 64 }
{
    let mut input = Input::new(body);
    let mut writer = Writer::new(alloc);
    scan_arguments(id, &mut input, &mut writer)?;
    input.end()?;
    Ok(writer)
}

/// What a visitor that writes is told of the results that the body is.
fn told_results(alloc: Global, id: ProcId, body: &[u8]) -> Result<Writer, GetError>
    requires { length body.now ≤ 64 }
{
    let mut input = Input::new(body);
    let mut writer = Writer::new(alloc);
    scan_results(id, &mut input, &mut writer)?;
    input.end()?;
    Ok(writer)
}

/// Where and why it was refused.
fn fault(answer: &Result<Writer, GetError>) -> Option<Stop> {
    match answer {
        Err(GetError::Stop(stop)) => Some(*stop),
        _ => None,
    }
}

#[test]
fn what_is_told(rt: HostRuntime) {
    let alloc = rt.alloc();
    let write = ok(&rt, told_arguments(alloc, nfs(7), &WRITE));
    assert_same!(rt; write.bytes(), WRITE.as_slice());
    let readdir = ok(&rt, told_results(alloc, nfs(16), &READDIR));
    assert_same!(rt; readdir.bytes(), READDIR.as_slice());
    // Of any other procedure all bytes that are left are taken.
    let raw = ok(&rt, told_arguments(alloc, nfs(22), &WRITE));
    assert_same!(rt; raw.bytes(), WRITE.as_slice());
}

#[test]
fn what_is_refused(rt: HostRuntime) {
    let alloc = rt.alloc();
    let short = Stop {
        at: 28,
        reason: Reason::Short,
    };
    assert_same!(rt;
        fault(&told_arguments(alloc, nfs(7), &WRITE[..30])),
        Some(short)
    );
    let trailing = Stop {
        at: 8,
        reason: Reason::Trailing,
    };
    assert_same!(rt;
        fault(&told_arguments(alloc, nfs(1), &WRITE)),
        Some(trailing)
    );
    let status = Stop {
        at: 0,
        reason: Reason::BadEnum,
    };
    assert_same!(rt;
        fault(&told_results(alloc, mount(1), &[0, 0, 0, 70])),
        Some(status)
    );
}

#[test]
fn names_of_procedures(rt: HostRuntime) {
    assert_same!(rt; proc_name(nfs(17)), Some("NFSPROC3_READDIRPLUS"));
    assert_same!(rt; proc_name(nfs(22)), None);
    assert_same!(rt; proc_name(mount(5)), Some("MOUNTPROC3_EXPORT"));
    assert_same!(rt; proc_name(mount(6)), None);
}
