//! Streams out of segments, worked out by hand.

use crate::asserts::{assert_same, ok};
use streams3::{
    Acknowledgment, BEGIN, Mark, MissingBytes, OrderedStream, Pair, Refused, Run, Stream,
    StreamSegment,
};

// The number of the first byte. Those of the first ten bytes wrap.
const FIRST: u32 = 0xffff_fffb;

// A segment of a payload alone.
fn payload(sequence: u32, size: u32, at: u64, frame: u32) -> StreamSegment {
    StreamSegment {
        sequence,
        size,
        at,
        frame,
        syn: false,
        fin: false,
        rst: false,
    }
}

// A run from so many bytes after the first on.
fn run(after: u8, size: u32, at: u64, frame: u32) -> Run {
    Run {
        position: BEGIN + after as u64,
        at,
        size,
        frame,
    }
}

// A mark so many bytes after the first.
fn mark(after: u8, frame: u32) -> Mark {
    Mark {
        position: BEGIN + after as u64,
        frame,
    }
}

// Takes a handshake and thirty bytes, of which ten are lost.
fn begin(stream: &mut Stream) -> Result<(), Refused> {
    let syn = StreamSegment {
        syn: true,
        ..payload(0xffff_fffa, 0, 74, 1)
    };
    stream.take(&syn)?;
    stream.acknowledge(Acknowledgment {
        number: FIRST,
        frame: 2,
    })?;
    stream.take(&payload(FIRST, 10, 200, 4))?;
    stream.take(&payload(15, 10, 400, 6))
}

#[test]
fn lost_bytes_come_again(rt: HostRuntime) {
    let mut stream = Stream::new(rt.alloc(), FIRST);
    assert_same!(rt; begin(&mut stream), Ok(()));
    let fin = StreamSegment {
        fin: true,
        ..payload(25, 0, 600, 8)
    };
    let answer = Acknowledgment {
        number: 26,
        frame: 9,
    };
    // The ten bytes, and two more that were there.
    assert_same!(rt; stream.take(&payload(5, 12, 500, 7)), Ok(()));
    assert_same!(rt; stream.take(&fin), Ok(()));
    assert_same!(rt; stream.acknowledge(answer), Ok(()));
    let order = ok(&rt, OrderedStream::new(stream, rt.alloc()));
    let runs = [run(0, 10, 200, 4), run(10, 10, 500, 7), run(20, 10, 400, 6)];
    let pair = Pair {
        first: run(20, 2, 400, 6),
        again: run(20, 2, 510, 7),
    };
    assert_same!(rt; order.runs(), &runs[..]);
    assert_same!(rt; order.pairs(), &[pair][..]);
    assert_same!(rt; order.marks().begin, Some(mark(0, 1)));
    assert_same!(rt; order.marks().end, Some(mark(30, 8)));
    assert_same!(rt; order.marks().acknowledged, Some(mark(31, 9)));
    assert_same!(rt; order.is_whole(), true);
    let parts = ok(&rt, order.between(BEGIN + 8, BEGIN + 12, rt.alloc()));
    assert_same!(rt; parts.as_slice(), &[run(8, 2, 208, 4), run(10, 2, 500, 7)][..]);
}

#[test]
fn lost_bytes_are_missing(rt: HostRuntime) {
    let mut stream = Stream::new(rt.alloc(), FIRST);
    assert_same!(rt; begin(&mut stream), Ok(()));
    // behind the end
    let fin = StreamSegment {
        fin: true,
        ..payload(15, 4, 500, 7)
    };
    // 2^30 + 1 before the last byte's end
    let far = payload(0xc000_0018, 1, 600, 8);
    assert_same!(rt; stream.take(&fin), Ok(()));
    assert_same!(rt; stream.take(&far), Ok(()));
    let order = ok(&rt, OrderedStream::new(stream, rt.alloc()));
    let gap = MissingBytes {
        begin: BEGIN + 10,
        end: BEGIN + 20,
    };
    assert_same!(rt; order.missing(), Some(gap));
    assert_same!(rt; order.gap(BEGIN + 20, BEGIN + 30), None);
    assert_same!(rt; order.beyond(), Some(mark(24, 6)));
    assert_same!(rt; order.marks().strays, 1);
    assert_same!(rt; order.marks().stray, Some(8));
    assert_same!(rt; order.is_whole(), false);
}
