//! Parts spelled by hand from RFC 1813: what is read of them, what is written again, and what is refused.

ghost use Rattle.std.specs.Prelude.{◌≤◌, IfOk, length};
ghost use Rattle.xdr3.specs.Visit.{AreWithinLimit, body_limit};

use crate::asserts::{assert_holds, assert_same, ok, some};
use crate::samples::spell;
use nfs3_types::mount3::MountOk;
use nfs3_types::{Fattr, FileKind, Handle, PostOpAttr, PostOpFh, Sattr, Time, TimeHow, Void, Wcc};
use std::alloc::Global;
use std::process::Abort;
use xdr3::{GetError, Input, Reason, Stop, Walk, Writer, Xdr, read};

/// The attributes of a directory of 4,096 bytes.
const DIRECTORY: [u32; 21] = [
    2, 0x1ed, 2, 10, 20, 0, 4096, 1, 8192, 30, 40, 0, 50, 0, 60, 1, 70, 2, 80, 3, 90,
];

/// What is written of the one value that the body is.
fn rewritten<'a, T: Xdr<'a> + Drop>(alloc: Global, body: &'a [u8]) -> Result<Writer, GetError>
    requires { length body.now ≤ body_limit }
{
    let mut input = Input::new(body);
    let value: T = read(alloc, &mut input)?;
    input.end()?;
    let mut writer = Writer::new(alloc);
    value.walk(&mut writer)?;
    Ok(writer)
}

/// The value that the body begins with.
pub(crate) fn value_in<'a, T: Xdr<'a>>(alloc: Global, body: &'a [u8]) -> Result<T, GetError>
    requires { length body.now ≤ body_limit }
    ensures { IfOk result (λ value. AreWithinLimit (T.items value)) }
{
    let mut input = Input::new(body);
    read(alloc, &mut input)
}

/// Where and why the body is refused.
fn fault_in<'a, T: Xdr<'a> + Drop>(alloc: Global, body: &'a [u8]) -> Option<Stop>
    requires { length body.now ≤ body_limit }
{
    match rewritten::<T>(alloc, body) {
        Err(GetError::Stop(stop)) => Some(stop),
        _ => None,
    }
}

#[test]
fn attributes_are_read(rt: HostRuntime) {
    let alloc = rt.alloc();
    let body = ok(&rt, spell(alloc, &DIRECTORY));
    assert_holds!(rt; body.len() == 84);
    let attributes: Fattr = ok(&rt, value_in(alloc, &body));
    let expected = Fattr {
        kind: FileKind::Dir,
        mode: 0o755,
        nlink: 2,
        uid: 10,
        gid: 20,
        size: 4096,
        used: 0x0000_0001_0000_2000,
        rdev1: 30,
        rdev2: 40,
        fsid: 50,
        fileid: 60,
        atime: Time { sec: 1, nsec: 70 },
        mtime: Time { sec: 2, nsec: 80 },
        ctime: Time { sec: 3, nsec: 90 },
    };
    assert_same!(rt; attributes, expected);
    let writer = ok(&rt, rewritten::<Fattr>(alloc, &body));
    assert_same!(rt; writer.bytes(), body.as_slice());
    for (kind, accepted) in [(0, false), (1, true), (7, true), (8, false)] {
        let mut words = DIRECTORY;
        words[0] = kind;
        let body = ok(&rt, spell(alloc, &words));
        assert_holds!(rt; body.len() == 84);
        let is_accepted = fault_in::<Fattr>(alloc, &body).is_none();
        assert_same!(rt; (kind, is_accepted), (kind, accepted));
    }
}

/// Nothing is set.
const NOTHING_SET: Sattr = Sattr {
    mode: None,
    uid: None,
    gid: None,
    size: None,
    atime: TimeHow::Keep,
    mtime: TimeHow::Keep,
};

/// Each row's words are these attributes, and are written again as they were.
fn settable_are_read(rt: &impl Abort, alloc: Global, rows: &[(&[u32], Sattr)]) {
    for (words, expected) in rows {
        let body = ok(rt, spell(alloc, words));
        assert_holds!(rt; body.len() <= 32);
        let read: Sattr = ok(rt, value_in(alloc, &body));
        assert_same!(rt; read, *expected);
        let writer = ok(rt, rewritten::<Sattr>(alloc, &body));
        assert_same!(rt; writer.bytes(), body.as_slice());
    }
}

#[test]
fn settable_numbers_are_read(rt: HostRuntime) {
    let mode = Sattr {
        mode: Some(0o777),
        ..NOTHING_SET
    };
    let uid = Sattr {
        uid: Some(5),
        ..NOTHING_SET
    };
    let gid = Sattr {
        gid: Some(6),
        ..NOTHING_SET
    };
    let size = Sattr {
        size: Some(1 << 32),
        ..NOTHING_SET
    };
    let rows: [(&[u32], Sattr); 5] = [
        (&[0, 0, 0, 0, 0, 0], NOTHING_SET),
        (&[1, 0x1ff, 0, 0, 0, 0, 0], mode),
        (&[0, 1, 5, 0, 0, 0, 0], uid),
        (&[0, 0, 1, 6, 0, 0, 0], gid),
        (&[0, 0, 0, 1, 1, 0, 0, 0], size),
    ];
    settable_are_read(&rt, rt.alloc(), &rows);
}

#[test]
fn handles_are_written_with_zero_padding(rt: HostRuntime) {
    let alloc = rt.alloc();
    let body = ok(&rt, spell(alloc, &[1, 2, 0xabcd_ffff]));
    let zero = ok(&rt, spell(alloc, &[1, 2, 0xabcd_0000]));
    assert_holds!(rt; body.len() == 12);
    let told: PostOpFh = ok(&rt, value_in(alloc, &body));
    assert_same!(rt; told.handle, Handle::new(&[0xab, 0xcd]));
    let writer = ok(&rt, rewritten::<PostOpFh>(alloc, &body));
    assert_same!(rt; writer.bytes(), zero.as_slice());
}

#[test]
fn told_parts_are_refused(rt: HostRuntime) {
    let alloc = rt.alloc();
    let body = ok(&rt, spell(alloc, &[0, 2]));
    assert_holds!(rt; body.len() == 8);
    let stop = |at, reason| Some(Stop { at, reason });
    assert_same!(rt;
        fault_in::<PostOpAttr>(alloc, &body[4..]),
        stop(0, Reason::BadBool)
    );
    assert_same!(rt; fault_in::<Wcc>(alloc, &body), stop(4, Reason::BadBool));
    assert_same!(rt;
        fault_in::<Void>(alloc, &body[..1]),
        stop(0, Reason::Trailing)
    );
}

#[test]
fn handles_are_their_bytes(rt: HostRuntime) {
    let alloc = rt.alloc();
    let bytes = [7; 65];
    assert_holds!(rt; Handle::new(&bytes).is_none());
    let longest = some(&rt, Handle::new(&bytes[..64]));
    assert_same!(rt; longest.as_slice(), &bytes[..64]);
    let empty = some(&rt, Handle::new(&[]));
    assert_holds!(rt; empty.is_public() && !longest.is_public());
    let one = some(&rt, Handle::new(&[1]));
    let zero_after = some(&rt, Handle::new(&[1, 0]));
    assert_holds!(rt; empty < one && one < zero_after && zero_after < longest);
    assert_holds!(rt; one == one && one != zero_after);
}

#[test]
fn handles_are_read(rt: HostRuntime) {
    let alloc = rt.alloc();
    let stop = |at, reason| Some(Stop { at, reason });
    // the length word, how many bytes are there, where and why the handle is refused
    let rows = [
        (65, 69, 0, Reason::TooLong),
        (64, 67, 4, Reason::Short),
        (60, 68, 64, Reason::Trailing),
        (4, 3, 0, Reason::Short),
    ];
    for (length, len, at, reason) in rows {
        let mut body = ok(&rt, spell(alloc, &[length]));
        ok(&rt, body.extend_from_slice(&[7; 65]));
        body.truncate(len);
        assert_holds!(rt; body.len() <= 69);
        assert_same!(rt; fault_in::<Handle>(alloc, &body), stop(at, reason));
    }
    let mut body = ok(&rt, spell(alloc, &[64]));
    ok(&rt, body.extend_from_slice(&[7; 64]));
    assert_holds!(rt; body.len() == 68);
    let read: Handle = ok(&rt, value_in(alloc, &body));
    assert_same!(rt; read.as_slice(), [7; 64].as_slice());
}

#[test]
fn a_mount_is_read(rt: HostRuntime) {
    let alloc = rt.alloc();
    let body = ok(&rt, spell(alloc, &[8, 0x0102_0304, 0x0506_0708, 2, 1, 0]));
    assert_holds!(rt; body.len() == 24);
    let mount: MountOk = ok(&rt, value_in(alloc, &body));
    assert_same!(rt;
        mount.handle.as_slice(),
        [1, 2, 3, 4, 5, 6, 7, 8].as_slice()
    );
    assert_same!(rt; mount.flavors.iter().map(|f| f.number).eq([1, 0]), true);
    let writer = ok(&rt, rewritten::<MountOk>(alloc, &body));
    assert_same!(rt; writer.bytes(), body.as_slice());
}
