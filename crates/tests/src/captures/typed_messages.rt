//! Messages spelled by hand from RFC 1813, sections 3.3 and 5.2, and RFC 5531, section 9: read as values, written again, refused.

ghost use Rattle.std.specs.Prelude.{◌≤◌, length};

use crate::asserts::{assert_holds, assert_same, ok};
use crate::samples::{NULL, WRITE, nfs};
use capture3::{Entry, pack_chunk, pack_header, parse};
use nfs3_types::Res;
use procs3::{Args, Results};
use rpc_head::ProcId;
use std::alloc::{AllocError, Global};
use xdr3::{GetError, Input, Reason, Stop, Walk, Writer};

/// The results of a READDIRPLUS with no attributes and one name, a, of the handle aa, at the end of the
/// directory.
const READDIRPLUS: [u8; 68] = [
    0, 0, 0, 0, 0, 0, 0, 0, 1, 2, 3, 4, 5, 6, 7, 8, 0, 0, 0, 1, 0, 0, 0, 0, 0, 0, 0, 7, 0, 0, 0, 1,
    0x61, 0, 0, 0, 0, 0, 0, 0, 0, 0, 0, 3, 0, 0, 0, 0, 0, 0, 0, 1, 0, 0, 0, 1, 0xaa, 0, 0, 0, 0, 0,
    0, 0, 0, 0, 0, 1,
];

/// The arguments that the body is.
fn arguments(alloc: Global, id: ProcId, body: &[u8]) -> Result<Args<'_>, GetError>
    requires { length body.now ≤ 128 }
{
    let mut input = Input::new(body);
    let args = Args::get(alloc, id, &mut input)?;
    input.end()?;
    Ok(args)
}

/// The results that the body is.
fn results(alloc: Global, id: ProcId, body: &[u8]) -> Result<Results<'_>, GetError>
    requires { length body.now ≤ 128 }
{
    let mut input = Input::new(body);
    let results = Results::get(alloc, id, &mut input)?;
    input.end()?;
    Ok(results)
}

#[test]
fn arguments_are_read(rt: HostRuntime) {
    let alloc = rt.alloc();
    let Ok(Args::Write(write)) = arguments(alloc, nfs(7), &WRITE) else {
        panic!(rt; "no WRITE")
    };
    assert_same!(rt; (write.offset, write.count), (9, 2));
    assert_same!(rt; write.content, b"hi".as_slice());
    let Ok(Args::Raw(raw)) = arguments(alloc, nfs(22), &WRITE) else {
        panic!(rt; "not raw")
    };
    assert_same!(rt; raw, WRITE.as_slice());
}

#[test]
fn results_are_read(rt: HostRuntime) {
    let Ok(Results::ReadDirPlus(Res::Done(told))) = results(rt.alloc(), nfs(17), &READDIRPLUS)
    else {
        panic!(rt; "no READDIRPLUS")
    };
    assert_holds!(rt; told.eof && told.entries.len() == 1);
    let entry = &told.entries[0];
    assert_same!(rt; (entry.fileid, entry.cookie), (7, 3));
    assert_same!(rt; entry.name, b"a".as_slice());
    assert_holds!(rt;
        entry
            .handle
            .handle
            .is_some_and(|h| h.as_slice() == [0xaa].as_slice())
    );
}

#[test]
fn values_are_written_again(rt: HostRuntime) {
    let alloc = rt.alloc();
    let mut writer = Writer::new(alloc);
    let mut input = Input::new(&WRITE);
    let args = Args::get(alloc, nfs(7), &mut input).expect(&rt, "refused");
    ok(&rt, args.walk(&mut writer));
    assert_same!(rt; writer.bytes(), WRITE.as_slice());
}

#[test]
fn where_values_are_refused(rt: HostRuntime) {
    let short = Stop {
        at: 28,
        reason: Reason::Short,
    };
    assert_holds!(rt;
        matches!(arguments(rt.alloc(), nfs(7), &WRITE[..30]), Err(GetError::Stop(stop)) if stop == short)
    );
    let status = Stop {
        at: 0,
        reason: Reason::BadEnum,
    };
    assert_holds!(rt;
        matches!(results(rt.alloc(), nfs(1), &[0, 0, 0, 3]), Err(GetError::Stop(stop)) if stop == status)
    );
}

#[test]
fn kept_messages_are_read(rt: HostRuntime) {
    let alloc = rt.alloc();
    let entries = ok(&rt, parse(alloc, &NULL));
    for entry in &entries {
        match entry {
            Entry::Call(kept) => {
                let call = kept.read(alloc);
                assert_same!(rt; call.xid, 0xdead_beef);
                assert_holds!(rt; call.head.id == nfs(0));
                assert_holds!(rt; matches!(call.args, Args::Null));
            }
            Entry::Reply(kept) => {
                let reply = ok(&rt, kept.read(alloc));
                assert_same!(rt; reply.xid, 0xdead_beef);
                assert_holds!(rt; matches!(&reply.results, Some(Results::Null)));
            }
            _ => {}
        }
    }
}

/// The arguments of a READDIRPLUS of the handle aa, from its beginning.
const READDIRPLUS_ARGS: [u8; 32] = [
    0, 0, 0, 1, 0xaa, 0, 0, 0, 0, 0, 0, 0, 0, 0, 0, 0, 0, 0, 0, 0, 0, 0, 0, 0, 0, 0, 2, 0, 0, 0,
    0x10, 0,
];

/// The arguments of a LOOKUP of x in the handle aa.
const LOOKUP_ARGS: [u8; 16] = [0, 0, 0, 1, 0xaa, 0, 0, 0, 0, 0, 0, 1, 0x78, 0, 0, 0];

/// The body of a call with the xid 9 and AUTH_NONE.
fn call(alloc: Global, procedure: u8, args: &[u8]) -> Result<Vec<u8>, AllocError> {
    let mut body = Vec::from_slice(
        alloc,
        &[
            0, 0, 0, 9, 0, 0, 0, 0, 0, 0, 0, 2, 0, 1, 0x86, 0xa3, 0, 0, 0, 3,
        ],
    )?;
    body.extend_from_slice(&[0, 0, 0, procedure])?;
    body.extend_from_slice(&[0; 16])?;
    body.extend_from_slice(args)?;
    Ok(body)
}

/// The body of an accepted reply with the xid 9.
fn reply(alloc: Global, results: &[u8]) -> Result<Vec<u8>, AllocError> {
    let mut body = Vec::from_slice(alloc, &[0, 0, 0, 9, 0, 0, 0, 1])?;
    body.extend_from_slice(&[0; 16])?;
    body.extend_from_slice(results)?;
    Ok(body)
}

/// Appends a chunk of one record.
fn push_record(file: &mut Vec<u8>, body: &[u8]) -> Result<(), AllocError> {
    let length = u32::try_from(body.len()).unwrap_or(0);
    file.extend_from_slice(&pack_chunk(length.wrapping_add(4)))?;
    file.extend_from_slice(&(length | 0x8000_0000).to_be_bytes())?;
    file.extend_from_slice(body)
}

/// A capture of one connection.
fn capture(alloc: Global, calls: &[&[u8]], replies: &[&[u8]]) -> Result<Vec<u8>, AllocError> {
    let mut file = Vec::from_slice(alloc, &pack_header())?;
    file.extend_from_slice(&pack_chunk(1))?;
    for body in calls {
        push_record(&mut file, body)?;
    }
    file.extend_from_slice(&pack_chunk(0))?;
    for body in replies {
        push_record(&mut file, body)?;
    }
    file.extend_from_slice(&[0; 8])?;
    Ok(file)
}

#[test]
fn a_kept_reply_is_read_as_its_results(rt: HostRuntime) {
    let alloc = rt.alloc();
    let calls = ok(&rt, call(alloc, 17, &READDIRPLUS_ARGS));
    let replies = ok(&rt, reply(alloc, &READDIRPLUS));
    let entries = ok(
        &rt,
        parse(
            alloc,
            &ok(
                &rt,
                capture(alloc, &[calls.as_slice()], &[replies.as_slice()]),
            ),
        ),
    );
    let Some(Entry::Reply(kept)) = entries.get(3) else {
        panic!(rt; "no reply")
    };
    let read = ok(&rt, kept.read(alloc));
    let direct = ok(&rt, results(alloc, nfs(17), &READDIRPLUS));
    let (Some(Results::ReadDirPlus(Res::Done(read))), Results::ReadDirPlus(Res::Done(direct))) = (
        &read.results,
        &direct,
    ) else {
        panic!(rt; "no READDIRPLUS")
    };
    assert_same!(rt;
        (read.eof, read.cookieverf),
        (direct.eof, direct.cookieverf)
    );
    assert_holds!(rt; read.entries.len() == 1 && direct.entries.len() == 1);
    let one = &read.entries[0];
    let other = &direct.entries[0];
    assert_same!(rt; (one.fileid, one.cookie), (other.fileid, other.cookie));
    assert_same!(rt; one.name, other.name);
    assert_holds!(rt; one.handle.handle == other.handle.handle);
}

#[test]
fn two_calls_of_one_xid_are_read_alike(rt: HostRuntime) {
    let alloc = rt.alloc();
    let body = ok(&rt, call(alloc, 3, &LOOKUP_ARGS));
    let calls = [body.as_slice(), body.as_slice()];
    let entries = ok(&rt, parse(alloc, &ok(&rt, capture(alloc, &calls, &[]))));
    let (Some(Entry::Call(first)), Some(Entry::Call(second))) = (entries.get(1), entries.get(2))
    else {
        panic!(rt; "no calls")
    };
    let first = first.read(alloc);
    let second = second.read(alloc);
    assert_same!(rt; (first.xid, second.xid), (9, 9));
    let (Args::Lookup(one), Args::Lookup(other)) = (&first.args, &second.args) else {
        panic!(rt; "no LOOKUP")
    };
    assert_holds!(rt; one.dir == other.dir);
    assert_same!(rt; one.name, other.name);
}
