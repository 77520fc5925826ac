//! Starts of messages, and heads of calls and replies: what is read of them and written again.

use crate::asserts::{assert_holds, assert_same, ok};
use crate::messages::parts::value_in;
use crate::samples::{nfs, push_words, spell};
use rpc_head::{
    Accept, CallHead, Cred, Deny, ReplyHead, Start, Verf, after_xid, scan_call_head,
    scan_reply_head, start,
};
use std::alloc::{AllocError, Global};
use xdr3::{Input, Walk, Writer};

/// A call with an AUTH_SYS credential of that length, whose body begins with stamp 1, the machine name
/// `client` after the length `name`, user 0 and group 0. The credential's body starts at byte 32, the
/// machine name's length at 36, the count of groups, the first of `rest`, at 56.
fn sys_call(alloc: Global, length: u32, name: u32, rest: &[u32]) -> Result<Vec<u8>, AllocError> {
    let mut bytes = spell(alloc, &[5, 0, 2, 100_003, 3, 0, 1, length, 1, name])?;
    push_words(&mut bytes, &[0x636c_6965, 0x6e74_0000, 0, 0])?;
    push_words(&mut bytes, rest)?;
    Ok(bytes)
}

#[test]
fn starts(rt: HostRuntime) {
    let alloc = rt.alloc();
    for (mtype, is_reply) in [(0, false), (1, true)] {
        let body = ok(&rt, spell(alloc, &[0xdead_beef, mtype]));
        assert_holds!(rt; body.len() == 8);
        let mut input = Input::new(body.as_slice());
        assert_same!(rt;
            start(&mut input),
            Ok(Start {
                xid: 0xdead_beef,
                is_reply
            })
        );
        assert_same!(rt; input.left(), 0);
        assert_same!(rt; after_xid(&body), [0, 0, 0, u8::from(is_reply)].as_slice());
    }
    assert_holds!(rt; after_xid(&[1, 2, 3]).is_empty());
}

#[test]
fn credentials_that_are_read(rt: HostRuntime) {
    let alloc = rt.alloc();
    let groups: [u32; 16] = [1, 2, 3, 4, 5, 6, 7, 8, 9, 10, 11, 12, 13, 14, 15, u32::MAX];
    for count in [0, 1, 16] {
        let mut body = ok(&rt, sys_call(alloc, 28 + 4 * count, 6, &[count]));
        ok(&rt, push_words(&mut body, &groups[..count as usize]));
        ok(&rt, body.extend_from_slice(&[0; 8]));
        assert_holds!(rt; 8 <= body.len() && body.len() <= 132);
        let head: CallHead = ok(&rt, value_in(alloc, &body[8..]));
        assert_same!(rt; head.id, nfs(0));
        assert_holds!(rt; head.verf.body.is_empty());
        match head.cred {
            Cred::Sys(sys) => {
                assert_same!(rt; (sys.stamp, sys.uid, sys.gid), (1, 0, 0));
                assert_same!(rt; sys.machinename, b"client".as_slice());
                assert_same!(rt; sys.gids.as_slice(), &groups[..count as usize]);
            }
            Cred::Plain(_) => panic!(rt; "another credential"),
        }
    }
}

#[test]
fn replies_that_are_read(rt: HostRuntime) {
    let alloc = rt.alloc();
    let rows: [(&[u32], Option<Accept>, Option<Deny>); 9] = [
        (&[0, 0, 0, 0], Some(Accept::Success), None),
        (&[0, 0, 0, 1], Some(Accept::ProgUnavail), None),
        (
            &[0, 0, 0, 2, 3, 3],
            Some(Accept::ProgMismatch { low: 3, high: 3 }),
            None,
        ),
        (&[0, 0, 0, 3], Some(Accept::ProcUnavail), None),
        (&[0, 0, 0, 4], Some(Accept::GarbageArgs), None),
        (&[0, 0, 0, 5], Some(Accept::SystemErr), None),
        (
            &[1, 0, 2, 2],
            None,
            Some(Deny::RpcMismatch { low: 2, high: 2 }),
        ),
        (&[1, 1, 1], None, Some(Deny::AuthError(1))),
        (&[1, 1, 14], None, Some(Deny::AuthError(14))),
    ];
    for (words, accept, deny) in rows {
        let body = ok(&rt, spell(alloc, words));
        assert_holds!(rt; body.len() <= 24);
        let head: ReplyHead = value_in(alloc, &body).expect(&rt, "refused");
        match head {
            ReplyHead::Accepted(Verf { body }, read) => {
                assert_holds!(rt; body.is_empty());
                assert_same!(rt; Some(read), accept);
            }
            ReplyHead::Denied(read) => assert_same!(rt; Some(read), deny),
        }
        let mut writer = Writer::new(alloc);
        ok(&rt, head.walk(&mut writer));
        assert_same!(rt; writer.bytes(), body.as_slice());
    }
}

/// A head that a visitor is told is written as it stands in the body, and names its procedure.
#[test]
fn a_calls_head_is_told(rt: HostRuntime) {
    let call = ok(&rt, sys_call(rt.alloc(), 28, 6, &[0, 0, 0]));
    assert_holds!(rt; call.len() == 68);
    let mut input = Input::new(&call);
    ok(&rt, start(&mut input));
    let mut writer = Writer::new(rt.alloc());
    assert_same!(rt; scan_call_head(&mut input, &mut writer), Ok(nfs(0)));
    assert_same!(rt; input.left(), 0);
    assert_same!(rt; writer.bytes(), &call[8..]);
}

/// Results follow an accepted success alone: other words of a head are written again too.
#[test]
fn replies_heads_are_told(rt: HostRuntime) {
    // the words from the reply_stat on, and whether results follow
    let rows: [(&[u32], bool); 5] = [
        (&[0, 0, 0, 0], true),
        (&[0, 0, 0, 1], false),
        (&[0, 0, 0, 2, 3, 3], false),
        (&[1, 0, 2, 2], false),
        (&[1, 1, 14], false),
    ];
    for (words, follow) in rows {
        let body = ok(&rt, spell(rt.alloc(), words));
        assert_holds!(rt; body.len() <= 24);
        let mut input = Input::new(&body);
        let mut writer = Writer::new(rt.alloc());
        assert_same!(rt; scan_reply_head(&mut input, &mut writer), Ok(follow));
        assert_same!(rt; input.left(), 0);
        assert_same!(rt; writer.bytes(), body.as_slice());
    }
}
