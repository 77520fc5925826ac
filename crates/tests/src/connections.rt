//! Connections out of packets, worked out by hand.

use crate::asserts::{assert_same, ok, some};
use crate::recordings::{MIXED, PCAP, read};
use connections3::{Connections, OneEnd, Packet, PacketTaker, UsedNumbers};
use recording3::{Address, End, FrameHead, Segment};
use std::alloc::Global;
use std::process::Abort;
use streams3::{BEGIN, Mark, OrderedStream, Run};

// The higher end.
const CLIENT: End = End {
    address: Address::V4([10, 77, 0, 2]),
    port: 850,
};

// The lower end.
const SERVER: End = End {
    address: Address::V4([10, 77, 0, 1]),
    port: 2049,
};

const FIN: u8 = 1;

const SYN: u8 = 2;

const ACK: u8 = 16;

// A segment of the client with so many bytes.
fn called(sequence: u32, acknowledged: u32, flags: u8, size: u8) -> Segment {
    Segment {
        source: CLIENT,
        target: SERVER,
        sequence,
        acknowledged,
        flags,
        begin: 54,
        end: 54 + size as usize,
        missing: 0,
    }
}

// A segment of the server.
fn answered(sequence: u32, acknowledged: u32, flags: u8, size: u8) -> Segment {
    Segment {
        source: SERVER,
        target: CLIENT,
        ..called(sequence, acknowledged, flags, size)
    }
}

// The packet of a segment in a frame, whose octets begin at ten times its number.
fn packet(rt: &impl Abort, number: u8, segment: &Segment) -> Packet {
    let head = FrameHead {
        number: number as u64,
        offset: 0,
        at: 10 * number as u64,
        time: 0,
        link: 1,
        wire: 0,
    };
    some(rt, Packet::of(&head, segment))
}

// Takes segments, in frames from number 1 on.
fn take(rt: &impl Abort, connections: &mut Connections, segments: &[Segment]) {
    let mut number: u8 = 1;
    for segment in segments {
        ok(rt, connections.take(&packet(rt, number, segment)));
        number = number.wrapping_add(1);
    }
}

// Of a connection: the numbers of the client, and of the server.
fn numbers(connections: &Connections, index: usize) -> (Option<UsedNumbers>, Option<UsedNumbers>) {
    match connections.as_slice().get(index) {
        Some(one) => (
            one.higher.as_ref().map(|flow| flow.numbers),
            one.lower.as_ref().map(|flow| flow.numbers),
        ),
        None => (None, None),
    }
}

fn used(first: u32, next: u32) -> Option<UsedNumbers> {
    Some(UsedNumbers { first, next })
}

// SYN, SYN with ACK, and 40 bytes of the client.
fn handshake() -> [Segment; 3] {
    [
        called(99, 0, SYN, 0),
        answered(499, 100, SYN + ACK, 0),
        called(100, 500, ACK, 40),
    ]
}

fn mark(after: u8, frame: u32) -> Option<Mark> {
    Some(Mark {
        position: BEGIN + after as u64,
        frame,
    })
}

// What the client sent, in order.
fn order_of_client(rt: &impl Abort, alloc: Global, connections: Connections) -> OrderedStream {
    let mut all = connections.into_vec();
    let one = some(rt, all.pop());
    let flow = some(rt, one.higher);
    ok(rt, OrderedStream::new(flow.stream, alloc))
}

#[test]
fn both_ends_have_a_stream(rt: HostRuntime) {
    let mut connections = Connections::new(rt.alloc());
    take(&rt, &mut connections, &handshake());
    take(&rt, &mut connections, &[answered(500, 140, ACK, 8)]);
    assert_same!(rt; connections.as_slice().len(), 1);
    assert_same!(rt; numbers(&connections, 0), (used(100, 140), used(500, 508)));
    let one = some(&rt, connections.as_slice().first());
    assert_same!(rt; one.client, Some(OneEnd::Higher));
    assert_same!(rt; (one.ends.lower, one.ends.higher), (SERVER, CLIENT));
    let order = order_of_client(&rt, rt.alloc(), connections);
    let run = Run {
        position: BEGIN,
        at: 84,
        size: 40,
        frame: 3,
    };
    assert_same!(rt; order.runs(), &[run][..]);
    assert_same!(rt; order.marks().begin, mark(0, 1));
    assert_same!(rt; order.marks().acknowledged, mark(40, 1));
    assert_same!(rt; order.is_whole(), true);
}

#[test]
fn a_port_is_used_again(rt: HostRuntime) {
    let mut connections = Connections::new(rt.alloc());
    take(&rt, &mut connections, &handshake());
    // The SYN again, and one with another number.
    take(
        &rt,
        &mut connections,
        &[called(99, 0, SYN, 0), called(7_000_000, 0, SYN, 0)],
    );
    // Late segments of the first connection: one of an end that sent nothing in the second.
    let late = [called(140, 500, ACK, 10), answered(500, 140, ACK, 8)];
    take(&rt, &mut connections, &late);
    let second = [
        answered(9_000_000, 7_000_001, SYN + ACK, 0),
        called(7_000_001, 9_000_001, ACK, 20),
        answered(9_000_001, 7_000_021, ACK, 30),
    ];
    take(&rt, &mut connections, &second);
    assert_same!(rt; connections.as_slice().len(), 2);
    assert_same!(rt; numbers(&connections, 0), (used(100, 150), used(500, 508)));
    let newer = (used(7_000_001, 7_000_021), used(9_000_001, 9_000_031));
    assert_same!(rt; numbers(&connections, 1), newer);
}

#[test]
fn a_recording_begins_in_mid_stream(rt: HostRuntime) {
    let mut connections = Connections::new(rt.alloc());
    let middle = [called(100, 500, ACK, 40), called(99, 0, SYN, 0)];
    take(&rt, &mut connections, &middle);
    assert_same!(rt; numbers(&connections, 0), (used(100, 140), None));
    take(&rt, &mut connections, &[called(98, 0, SYN, 0)]);
    assert_same!(rt; connections.as_slice().len(), 2);
    assert_same!(rt; numbers(&connections, 1), (used(99, 99), None));
}

#[test]
fn a_payload_is_cut(rt: HostRuntime) {
    let mut connections = Connections::new(rt.alloc());
    take(&rt, &mut connections, &handshake());
    let cut = Segment {
        missing: 10,
        ..called(140, 500, ACK + FIN, 20)
    };
    take(&rt, &mut connections, &[cut]);
    assert_same!(rt; numbers(&connections, 0), (used(100, 170), used(500, 500)));
    let order = order_of_client(&rt, rt.alloc(), connections);
    assert_same!(rt; order.marks().end, None);
    assert_same!(rt; order.marks().acknowledged, mark(70, 1));
    assert_same!(rt; order.is_whole(), false);
}

#[test]
fn frames_have_packets(rt: HostRuntime) {
    let mut taker = PacketTaker::new(rt.alloc());
    ok(&rt, read(rt.alloc(), &PCAP, 114, 0, &mut taker));
    ok(&rt, read(rt.alloc(), &MIXED, 256, 0, &mut taker));
    assert_same!(rt; (taker.tally.segments, taker.tally.frames()), (1, 4));
    let all = taker.connections.as_slice();
    assert_same!(rt; all.len(), 1);
    assert_same!(rt; some(&rt, all.first()).client, Some(OneEnd::Higher));
}
