//! Connections that are whole, one for each reason why others are not, which are chosen, and the
//! capture of those that are whole.

use crate::asserts::{assert_same, ok, some};
use crate::payloads::InMemory;
use crate::samples::NULL;
use canon3::MemSink;
use capture3::{DeviceFailed, Error, Side};
use connections3::{Connection, EndPair, Flow, OneEnd, UsedNumbers};
use conversion3::{
    Decision, Flaw, OrderedConnection, StreamFlaw, decide_all, judge, order_all, pack_whole,
    sent_runs,
};
use packing3::Packing;
use payload3::Recorded;
use recording3::{Address, End};
use std::alloc::Global;
use std::process::Abort;
use streams3::{
    Acknowledgment, BEGIN, Mark, MissingBytes, OrderedStream, Run, Stream, StreamSegment,
};

// The client's bytes at 0, again at 4 and with another content at 8; the server's at 12.
const FILE: &[u8] = b"CALLCALLCAL*REPLY";

const NOTHING: StreamSegment = StreamSegment {
    sequence: 100,
    size: 0,
    at: 0,
    frame: 1,
    syn: false,
    fin: false,
    rst: false,
};

const SYN: StreamSegment = StreamSegment {
    sequence: 99,
    syn: true,
    ..NOTHING
};

const FIN: StreamSegment = StreamSegment {
    fin: true,
    frame: 2,
    ..NOTHING
};

// Four bytes at an offset.
fn call(at: u64, frame: u32) -> StreamSegment {
    StreamSegment {
        size: 4,
        at,
        frame,
        ..NOTHING
    }
}

const REPLY: StreamSegment = StreamSegment {
    size: 5,
    at: 12,
    ..NOTHING
};

// An end that sent these segments.
fn flow(rt: &impl Abort, alloc: Global, segments: &[StreamSegment]) -> Option<Flow> {
    let mut stream = Stream::new(alloc, 100);
    for segment in segments {
        ok(rt, stream.take(segment));
    }
    let numbers = UsedNumbers {
        first: 100,
        next: 100,
    };
    Some(Flow { stream, numbers })
}

fn end(port: u16) -> End {
    End {
        address: Address::V4([10, 77, 0, 1]),
        port,
    }
}

// A connection of the server's port, whose higher end is the client.
fn connection_of(port: u16, server: Option<Flow>, client: Option<Flow>) -> Connection {
    Connection {
        ends: EndPair {
            lower: end(port),
            higher: end(50_000),
        },
        client: Some(OneEnd::Higher),
        lower: server,
        higher: client,
    }
}

// Connections in order.
fn ordered<const N: usize>(
    rt: &impl Abort,
    alloc: Global,
    connections: [Connection; N],
) -> Vec<OrderedConnection> {
    let connections = ok(rt, Vec::from_array(alloc, connections));
    ok(rt, order_all(alloc, connections))
}

// A connection in order.
fn connection(
    rt: &impl Abort,
    alloc: Global,
    server: Option<Flow>,
    client: Option<Flow>,
) -> Vec<OrderedConnection> {
    ordered(rt, alloc, [connection_of(2049, server, client)])
}

// What is wrong first with a connection.
fn flaw_of(
    rt: &impl Abort,
    alloc: Global,
    server: Option<Flow>,
    client: Option<Flow>,
) -> Option<Flaw> {
    let file = InMemory { bytes: FILE };
    let mut recorded = Recorded::new(&file);
    let all = connection(rt, alloc, server, client);
    ok(rt, judge(&mut recorded, some(rt, all.first())))
}

// What is wrong with a client that sent these segments, if the server's stream is whole.
fn client_flaw(rt: &impl Abort, alloc: Global, segments: &[StreamSegment]) -> Option<StreamFlaw> {
    let server = flow(rt, alloc, &[SYN, REPLY]);
    let client = flow(rt, alloc, segments);
    flaw_of(rt, alloc, server, client).map(|flaw| flaw.kind)
}

#[test]
fn a_connection_is_whole(rt: HostRuntime) {
    let client = [
        SYN,
        call(0, 3),
        call(4, 5),
        StreamSegment {
            sequence: 104,
            ..FIN
        },
    ];
    assert_same!(rt; client_flaw(&rt, rt.alloc(), &client), None);
}

#[test]
fn an_end_has_no_syn(rt: HostRuntime) {
    let alloc = rt.alloc();
    assert_same!(rt; client_flaw(&rt, alloc, &[call(0, 3)]), Some(StreamFlaw::NoSyn));
    let client = flow(&rt, alloc, &[SYN, call(0, 3)]);
    let wanted = Flaw {
        side: Side::Server,
        kind: StreamFlaw::NoSyn,
    };
    assert_same!(rt; flaw_of(&rt, alloc, None, client), Some(wanted));
}

#[test]
fn bytes_are_missing(rt: HostRuntime) {
    let later = StreamSegment {
        sequence: 103,
        ..call(0, 3)
    };
    let missing = MissingBytes {
        begin: BEGIN,
        end: BEGIN + 3,
    };
    assert_same!(rt; client_flaw(&rt, rt.alloc(), &[SYN, later]),
        Some(StreamFlaw::Missing(missing, 3)));
}

#[test]
fn acknowledged_bytes_are_missing(rt: HostRuntime) {
    let alloc = rt.alloc();
    let mut stream = Stream::new(alloc, 100);
    ok(&rt, stream.take(&SYN));
    ok(
        &rt,
        stream.acknowledge(Acknowledgment {
            number: 108,
            frame: 7,
        }),
    );
    let numbers = UsedNumbers {
        first: 100,
        next: 100,
    };
    let server = flow(&rt, alloc, &[SYN, REPLY]);
    let missing = MissingBytes {
        begin: BEGIN,
        end: BEGIN + 8,
    };
    let wanted = Flaw {
        side: Side::Client,
        kind: StreamFlaw::Missing(missing, 7),
    };
    assert_same!(rt; flaw_of(&rt, alloc, server, Some(Flow { stream, numbers })), Some(wanted));
}

#[test]
fn a_byte_lies_behind_fin(rt: HostRuntime) {
    let mark = Mark {
        position: BEGIN,
        frame: 3,
    };
    assert_same!(rt; client_flaw(&rt, rt.alloc(), &[SYN, FIN, call(0, 3)]),
        Some(StreamFlaw::Beyond(mark)));
}

#[test]
fn a_number_is_far_away(rt: HostRuntime) {
    let far = StreamSegment {
        sequence: 100 + 0x8000_0000,
        ..call(0, 3)
    };
    assert_same!(rt; client_flaw(&rt, rt.alloc(), &[SYN, far]), Some(StreamFlaw::Stray(Some(3))));
}

#[test]
fn bytes_came_again_with_other_content(rt: HostRuntime) {
    let again = Run {
        position: BEGIN,
        at: 8,
        size: 4,
        frame: 6,
    };
    assert_same!(rt; client_flaw(&rt, rt.alloc(), &[SYN, call(0, 3), call(4, 5), call(8, 6)]),
        Some(StreamFlaw::Changed(again)));
}

#[test]
fn a_file_that_became_shorter_fails(rt: HostRuntime) {
    let alloc = rt.alloc();
    let file = InMemory { bytes: b"CALLCA" };
    let mut recorded = Recorded::new(&file);
    let server = flow(&rt, alloc, &[SYN, REPLY]);
    let client = flow(&rt, alloc, &[SYN, call(0, 3), call(4, 5)]);
    let all = connection(&rt, alloc, server, client);
    let judged = judge(&mut recorded, some(&rt, all.first()));
    assert_same!(rt; judged.err(), Some(DeviceFailed));
    let decided = decide_all(alloc, &mut recorded, &[], &all);
    assert_same!(rt; decided.err(), Some(Error::Read));
}

#[test]
fn bytes_before_syn_are_not_sent(rt: HostRuntime) {
    let alloc = rt.alloc();
    let before = StreamSegment {
        sequence: 96,
        ..call(0, 3)
    };
    let mut stream = Stream::new(alloc, 100);
    ok(&rt, stream.take(&before));
    ok(&rt, stream.take(&SYN));
    ok(&rt, stream.take(&call(4, 5)));
    let ordered = ok(&rt, OrderedStream::new(stream, alloc));
    let runs = ok(&rt, sent_runs(&ordered, alloc));
    let wanted = [Run {
        position: BEGIN,
        at: 4,
        size: 4,
        frame: 5,
    }];
    assert_same!(rt; &runs[..], &wanted[..]);
}

// The call of `NULL`, and its reply.
const NULL_CALL: StreamSegment = StreamSegment {
    size: 44,
    at: 16,
    ..NOTHING
};

const NULL_REPLY: StreamSegment = StreamSegment {
    size: 28,
    at: 68,
    ..NOTHING
};

// What is said of a connection of the server's port on which these segments were sent.
fn decision(
    rt: &impl Abort,
    alloc: Global,
    ports: &[u16],
    port: u16,
    client: &[StreamSegment],
) -> Option<Decision> {
    let server = flow(rt, alloc, &[SYN, NULL_REPLY]);
    let client = flow(rt, alloc, client);
    let all = ordered(rt, alloc, [connection_of(port, server, client)]);
    let file = InMemory { bytes: &NULL };
    let mut recorded = Recorded::new(&file);
    let decisions = ok(rt, decide_all(alloc, &mut recorded, ports, &all));
    decisions.first().copied()
}

#[test]
fn usual_ports_are_chosen(rt: HostRuntime) {
    let alloc = rt.alloc();
    for port in [2049, 20048, 111] {
        let said = decision(&rt, alloc, &[], port, &[SYN, NULL_REPLY]);
        assert_same!(rt; said, Some(Decision::Whole));
    }
    let said = decision(&rt, alloc, &[], 80, &[SYN, NULL_REPLY]);
    assert_same!(rt; said, Some(Decision::NotChosen));
}

#[test]
fn calls_are_chosen_on_any_port(rt: HostRuntime) {
    let alloc = rt.alloc();
    let said = decision(&rt, alloc, &[], 80, &[SYN, NULL_CALL]);
    assert_same!(rt; said, Some(Decision::Whole));
    let rest = StreamSegment {
        sequence: 110,
        size: 34,
        at: 26,
        ..NOTHING
    };
    let first = StreamSegment {
        size: 10,
        ..NULL_CALL
    };
    let said = decision(&rt, alloc, &[], 80, &[SYN, rest, first]);
    assert_same!(rt; said, Some(Decision::Whole));
    let cut = StreamSegment {
        size: 15,
        ..NULL_CALL
    };
    let said = decision(&rt, alloc, &[], 80, &[SYN, cut]);
    assert_same!(rt; said, Some(Decision::NotChosen));
    let said = decision(&rt, alloc, &[], 80, &[NULL_CALL]);
    assert_same!(rt; said, Some(Decision::NotChosen));
}

#[test]
fn named_ports_alone_are_chosen(rt: HostRuntime) {
    let alloc = rt.alloc();
    let said = decision(&rt, alloc, &[80, 2050], 2050, &[SYN, NULL_CALL]);
    assert_same!(rt; said, Some(Decision::Whole));
    let said = decision(&rt, alloc, &[80, 50_000], 2050, &[SYN, NULL_CALL]);
    assert_same!(rt; said, Some(Decision::Whole));
    let said = decision(&rt, alloc, &[80], 2049, &[SYN, NULL_CALL]);
    assert_same!(rt; said, Some(Decision::NotChosen));
}

#[test]
fn a_connection_without_bytes_is_empty(rt: HostRuntime) {
    let alloc = rt.alloc();
    let refused = flow(&rt, alloc, &[SYN]);
    let closed = [flow(&rt, alloc, &[SYN, FIN]), flow(&rt, alloc, &[SYN, FIN])];
    let [server, client] = closed;
    let all = ordered(
        &rt,
        alloc,
        [
            connection_of(2049, None, refused),
            connection_of(2049, server, client),
        ],
    );
    let file = InMemory { bytes: FILE };
    let mut recorded = Recorded::new(&file);
    let decisions = ok(&rt, decide_all(alloc, &mut recorded, &[], &all));
    assert_same!(rt; &decisions[..], &[Decision::Empty, Decision::Empty][..]);
}

#[test]
fn whole_connections_are_packed(rt: HostRuntime) {
    let alloc = rt.alloc();
    let broken = connection_of(
        2049,
        flow(&rt, alloc, &[NULL_REPLY]),
        flow(&rt, alloc, &[SYN, NULL_CALL]),
    );
    let whole = connection_of(
        2049,
        flow(&rt, alloc, &[SYN, NULL_REPLY]),
        flow(&rt, alloc, &[SYN, NULL_CALL]),
    );
    let all = ordered(&rt, alloc, [broken, whole]);
    let file = InMemory { bytes: &NULL };
    let mut recorded = Recorded::new(&file);
    let decisions = ok(&rt, decide_all(alloc, &mut recorded, &[], &all));
    let flaw = Flaw {
        side: Side::Server,
        kind: StreamFlaw::NoSyn,
    };
    assert_same!(rt; &decisions[..], &[Decision::Flawed(flaw), Decision::Whole][..]);
    let sink = ok(&rt, MemSink::new(alloc, 999, 1_000_000, 0));
    let mut packing = some(&rt, Packing::start(alloc, sink).ok());
    let packed = pack_whole(alloc, &mut recorded, &all, &decisions, &mut packing);
    ok(&rt, packed);
    ok(&rt, packing.finish());
    assert_same!(rt; packing.sink().bytes(), NULL.as_slice());
}
