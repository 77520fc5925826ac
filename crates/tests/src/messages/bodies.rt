//! Bodies with replacements.

use crate::asserts::{assert_same, ok};
use patches::Patches;
use std::alloc::Global;
use std::process::Abort;

// Bytes that are written before a body.
const FRONT: &[u8; 4] = b">>> ";

fn write_body(rt: &impl Abort, alloc: Global, patches: &Patches, body: &[u8]) -> Vec<u8> {
    let mut room = ok(rt, FRONT.to_vec(alloc));
    let at = room.len();
    let end = ok(rt, patches.write(body, &mut room, at));
    room.truncate(end);
    room
}

#[test]
fn a_body_is_written_with_its_replacements(rt: HostRuntime) {
    let mut patches = Patches::new(rt.alloc());
    assert_same!(rt; write_body(&rt, rt.alloc(), &patches, b"").as_slice(), FRONT.as_slice());
    patches.keep(6);
    ok(&rt, patches.replace(3, b"two.....", 3));
    ok(&rt, patches.replace(1, b"  and   ", 6));
    patches.keep(5);
    assert_same!(rt; write_body(&rt, rt.alloc(), &patches, b"first one three").as_slice(), b">>> first two  and three".as_slice());
    patches.clear();
    patches.keep(2);
    assert_same!(rt; write_body(&rt, rt.alloc(), &patches, b"ab").as_slice(), b">>> ab".as_slice());
}

#[test]
fn residual_bytes_become_zeros(rt: HostRuntime) {
    let mut patches = Patches::new(rt.alloc());
    patches.keep(3);
    ok(&rt, patches.zero(1));
    patches.keep(2);
    ok(&rt, patches.zero(2));
    ok(&rt, patches.replace(3, b"two.....", 3));
    patches.keep(1);
    ok(&rt, patches.zero(3));
    assert_same!(rt; write_body(&rt, rt.alloc(), &patches, b"abc-de--one3---").as_slice(), b">>> abc\0de\0\0two3\0\0\0".as_slice());
    let mut room = ok(&rt, FRONT.to_vec(rt.alloc()));
    let at = room.len();
    let (end, rest) = ok(&rt, patches.write_front(b"abc-de--one3---", &mut room, at));
    assert_same!(rt; room.get(..end), Some(b">>> abc\0de\0\0two3\0\0\0".as_slice()));
    assert_same!(rt; rest, b"".as_slice());
}

#[test]
fn the_end_of_a_body_is_returned(rt: HostRuntime) {
    let mut patches = Patches::new(rt.alloc());
    patches.keep(6);
    ok(&rt, patches.replace(3, b"two.....", 3));
    patches.keep(6);
    let mut room = ok(&rt, FRONT.to_vec(rt.alloc()));
    let at = room.len();
    let (end, rest) = ok(&rt, patches.write_front(b"first one three", &mut room, at));
    assert_same!(rt; room.get(..end), Some(b">>> first two".as_slice()));
    assert_same!(rt; rest, b" three".as_slice());
}

#[test]
fn alike_bodies_make_the_same_bytes(rt: HostRuntime) {
    let mut patches = Patches::new(rt.alloc());
    ok(&rt, patches.replace(1, b"xid     ", 3));
    patches.keep(2);
    let mut others = Patches::new(rt.alloc());
    ok(&rt, others.replace(2, b"xid     ", 3));
    others.keep(2);
    assert_same!(rt; patches.are_alike(b"1ab", &others, b"77ab"), true);
    assert_same!(rt; patches.are_alike(b"1ab", &others, b"77ac"), false);
    others.clear();
    ok(&rt, others.replace(2, b"xie     ", 3));
    others.keep(2);
    assert_same!(rt; patches.are_alike(b"1ab", &others, b"77ab"), false);
    patches.clear();
    patches.keep(3);
    ok(&rt, patches.zero(1));
    others.clear();
    others.keep(2);
    ok(&rt, others.zero(2));
    assert_same!(rt; patches.are_alike(b"abc-", &patches, b"abc-"), true);
    assert_same!(rt; patches.are_alike(b"abc-", &others, b"abc-"), false);
}
