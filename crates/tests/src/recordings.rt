//! Frames and blocks of recordings, and the segments of TCP in them.

ghost use Rattle.std.specs.Prelude.{◌<◌, length};

use crate::asserts::{assert_same, ok};
use capture3::MemSource;
use recording3::pcap::{Form, Header, Order, Unit, read_frame, read_header};
use recording3::pcapng::{Clock, ClockOffset, Interface, read_block};
use recording3::{
    Address, Content, End, Ending, Failed, Frame, FrameHead, FrameTaker, NoSegment, RecordingEnd,
    RecordingPart, Segment, Tally, read_frames, read_segment,
};
use std::alloc::Global;
use std::process::Abort;

// The header and the first frame of examples/knfsd_readdir.pcap: the first segment of a kernel's
// connection.
pub(crate) const PCAP: [u8; 114] = [
    0xd4, 0xc3, 0xb2, 0xa1, 2, 0, 4, 0, 0, 0, 0, 0, 0, 0, 0, 0, 0, 0, 4, 0, 1, 0, 0, 0, 0x41, 0xad,
    2, 0x6b, 0xf9, 0xbd, 0x0e, 0, 0x4a, 0, 0, 0, 0x4a, 0, 0, 0, 0x36, 0x6f, 0xa1, 0x7e, 0x5c, 0x71,
    0xa6, 0x30, 0xb5, 0x58, 0x50, 0x75, 8, 0, 0x45, 0, 0, 0x3c, 0x94, 5, 0x40, 0, 0x40, 6, 0x92,
    0x1a, 0x0a, 0x4d, 0, 2, 0x0a, 0x4d, 0, 1, 3, 0x52, 0x4e, 0x50, 0x73, 0x86, 0xa6, 0x17, 0, 0, 0,
    0, 0xa0, 2, 0xfa, 0xf0, 0x14, 0xcb, 0, 0, 2, 4, 5, 0xb4, 4, 2, 8, 0x0a, 0x7a, 0x70, 0x5f, 0x34,
    0, 0, 0, 0, 1, 3, 3, 7,
];

// The same frame as `editcap -F pcapng` writes it: a section, an interface, a packet.
const PCAPNG: [u8; 236] = [
    0x0a, 0x0d, 0x0d, 0x0a, 0x6c, 0, 0, 0, 0x4d, 0x3c, 0x2b, 0x1a, 1, 0, 0, 0, 0xff, 0xff, 0xff,
    0xff, 0xff, 0xff, 0xff, 0xff, 4, 0, 0x45, 0, 0x45, 0x64, 0x69, 0x74, 0x63, 0x61, 0x70, 0x20,
    0x28, 0x57, 0x69, 0x72, 0x65, 0x73, 0x68, 0x61, 0x72, 0x6b, 0x29, 0x20, 0x34, 0x2e, 0x30, 0x2e,
    0x31, 0x37, 0x20, 0x28, 0x47, 0x69, 0x74, 0x20, 0x76, 0x34, 0x2e, 0x30, 0x2e, 0x31, 0x37, 0x20,
    0x70, 0x61, 0x63, 0x6b, 0x61, 0x67, 0x65, 0x64, 0x20, 0x61, 0x73, 0x20, 0x34, 0x2e, 0x30, 0x2e,
    0x31, 0x37, 0x2d, 0x30, 0x2b, 0x64, 0x65, 0x62, 0x31, 0x32, 0x75, 0x33, 0x29, 0, 0, 0, 0, 0, 0,
    0, 0x6c, 0, 0, 0, 1, 0, 0, 0, 0x14, 0, 0, 0, 1, 0, 0, 0, 0, 0, 4, 0, 0x14, 0, 0, 0, 6, 0, 0, 0,
    0x6c, 0, 0, 0, 0, 0, 0, 0, 0xd9, 0x60, 6, 0, 0x39, 0xd0, 0x33, 0x98, 0x4a, 0, 0, 0, 0x4a, 0, 0,
    0, 0x36, 0x6f, 0xa1, 0x7e, 0x5c, 0x71, 0xa6, 0x30, 0xb5, 0x58, 0x50, 0x75, 8, 0, 0x45, 0, 0,
    0x3c, 0x94, 5, 0x40, 0, 0x40, 6, 0x92, 0x1a, 0x0a, 0x4d, 0, 2, 0x0a, 0x4d, 0, 1, 3, 0x52, 0x4e,
    0x50, 0x73, 0x86, 0xa6, 0x17, 0, 0, 0, 0, 0xa0, 2, 0xfa, 0xf0, 0x14, 0xcb, 0, 0, 2, 4, 5, 0xb4,
    4, 2, 8, 0x0a, 0x7a, 0x70, 0x5f, 0x34, 0, 0, 0, 0, 1, 3, 3, 7, 0, 0, 0x6c, 0, 0, 0,
];

// The segment, as tshark prints it: 10.77.0.2 port 850 to 10.77.0.1 port 20048, SYN.
const SYN: Segment = Segment {
    source: End {
        address: Address::V4([10, 77, 0, 2]),
        port: 850,
    },
    target: End {
        address: Address::V4([10, 77, 0, 1]),
        port: 20048,
    },
    sequence: 1_938_204_183,
    acknowledged: 0,
    flags: 2,
    begin: 74,
    end: 74,
    missing: 0,
};

// The interface of that recording.
const ETHERNET: Interface = Interface {
    link: 1,
    kept: 262_144,
    clock: Clock {
        per_second: 1_000_000,
        offset: ClockOffset::Later(0),
    },
};

// Two sections, the second of big numbers. The first has two interfaces, an obsolete Packet of the
// second, a Simple Packet, and a block of another type. The other has an interface that counts
// 1,024ths of a second, and a packet. The second interface keeps 4 octets of a frame, counts
// nanoseconds, and its times are moved by -3,600 seconds.
pub(crate) const MIXED: [u8; 256] = [
    0x0a, 0x0d, 0x0d, 0x0a, 0x1c, 0, 0, 0, 0x4d, 0x3c, 0x2b, 0x1a, 1, 0, 0, 0, 0xff, 0xff, 0xff,
    0xff, 0xff, 0xff, 0xff, 0xff, 0x1c, 0, 0, 0, 1, 0, 0, 0, 0x14, 0, 0, 0, 1, 0, 0, 0, 0, 0, 4, 0,
    0x14, 0, 0, 0, 1, 0, 0, 0, 0x2c, 0, 0, 0, 0x65, 0, 0, 0, 4, 0, 0, 0, 9, 0, 1, 0, 9, 0, 0, 0,
    0x0e, 0, 8, 0, 0xf0, 0xf1, 0xff, 0xff, 0xff, 0xff, 0xff, 0xff, 0, 0, 0, 0, 0x2c, 0, 0, 0, 2, 0,
    0, 0, 0x24, 0, 0, 0, 1, 0, 5, 0, 0x46, 3, 0, 0, 0, 0xa0, 0xb8, 0x30, 2, 0, 0, 0, 9, 0, 0, 0, 7,
    8, 0, 0, 0x24, 0, 0, 0, 3, 0, 0, 0, 0x14, 0, 0, 0, 6, 0, 0, 0, 1, 2, 3, 4, 0x14, 0, 0, 0, 5, 0,
    0, 0, 0x0c, 0, 0, 0, 0x0c, 0, 0, 0, 0x0a, 0x0d, 0x0d, 0x0a, 0, 0, 0, 0x1c, 0x1a, 0x2b, 0x3c,
    0x4d, 0, 1, 0, 0, 0xff, 0xff, 0xff, 0xff, 0xff, 0xff, 0xff, 0xff, 0, 0, 0, 0x1c, 0, 0, 0, 1, 0,
    0, 0, 0x20, 1, 0x14, 0, 0, 0, 0, 0, 0, 0, 9, 0, 1, 0x8a, 0, 0, 0, 0, 0, 0, 0, 0, 0, 0, 0x20, 0,
    0, 0, 6, 0, 0, 0, 0x24, 0, 0, 0, 0, 0, 0, 0, 0, 0, 0, 0x0e, 0, 0, 0, 0, 4, 0, 0, 0, 0x3c, 0xaa,
    0xbb, 0xcc, 0xdd, 0, 0, 0, 0x24,
];

// These calls say nothing of what they return, so the proofs of their callers stay short.
fn block(order: Order, interfaces: &[Interface], bytes: &[u8]) -> Result<RecordingPart, Ending> {
    read_block(order, interfaces, bytes)
}

fn segment(link: u32, frame: &[u8], wire: u32) -> Result<Segment, NoSegment> {
    read_segment(link, frame, wire)
}

// Reads a recording in pieces of so many octets. The read of a number fails, if it is not 0.
pub(crate) fn read<T: FrameTaker>(
    alloc: Global,
    file: &[u8],
    piece: usize,
    fail: u64,
    taker: &mut T,
) -> Result<RecordingEnd, Failed<T::Error>>
    requires { 0 < piece }
{
    let mut source = MemSource::new(file, piece, fail);
    read_frames(alloc, &mut source, 7, taker)
}

// A part that was read.
fn part(content: Content, size: usize) -> Result<RecordingPart, Ending> {
    Ok(RecordingPart { content, size })
}

#[test]
fn frames_of_pcap(rt: HostRuntime) {
    let header = Header {
        form: Form {
            order: Order::Little,
            unit: Unit::Microseconds,
        },
        link: 1,
    };
    assert_same!(rt; read_header(&PCAP), Ok(header));
    let frame = Frame {
        time: 1_795_337_537_966_137_000,
        link: 1,
        wire: 74,
        begin: 40,
        end: 114,
    };
    assert_same!(rt; read_frame(&header, &PCAP, 24), Ok(frame));
    assert_same!(rt; read_frame(&header, &PCAP, 114), Err(Ending::End));
    assert_same!(rt; read_frame(&header, &PCAP[..113], 24), Err(Ending::Cut));
}

#[test]
fn blocks_of_pcapng(rt: HostRuntime) {
    let section = block(Order::Big, &[], &PCAPNG);
    assert_same!(rt; section, part(Content::Section(Order::Little), 108));
    let described = block(Order::Little, &[], &PCAPNG[108..]);
    assert_same!(rt; described, part(Content::Interface(ETHERNET), 20));
    let frame = Frame {
        time: 1_795_337_537_966_137_000,
        link: 1,
        wire: 74,
        begin: 28,
        end: 102,
    };
    let recorded = block(Order::Little, &[ETHERNET], &PCAPNG[128..]);
    assert_same!(rt; recorded, part(Content::Frame(frame), 108));
    let unknown = block(Order::Little, &[], &PCAPNG[128..]);
    assert_same!(rt; unknown, Err(Ending::NoInterface));
}

#[test]
fn other_blocks_of_pcapng(rt: HostRuntime) {
    let interface = Interface {
        link: 101,
        kept: 4,
        clock: Clock {
            per_second: 1_000_000_000,
            offset: ClockOffset::Earlier(3600),
        },
    };
    let described = block(Order::Little, &[], &MIXED[48..]);
    assert_same!(rt; described, part(Content::Interface(interface), 44));
    let simple = Frame {
        time: 0,
        link: 101,
        wire: 6,
        begin: 12,
        end: 16,
    };
    let without_time = block(Order::Little, &[interface], &MIXED[128..]);
    assert_same!(rt; without_time, part(Content::Frame(simple), 20));
    let early = Frame {
        time: 0,
        link: 101,
        wire: 9,
        begin: 28,
        end: 30,
    };
    let obsolete = block(Order::Little, &[ETHERNET, interface], &MIXED[92..]);
    assert_same!(rt; obsolete, part(Content::Frame(early), 36));
    let first = Frame { link: 1, ..early };
    let of_first = block(Order::Little, &[ETHERNET, ETHERNET], &MIXED[92..]);
    let time = 3_600_000_000_000_000;
    assert_same!(rt; of_first, part(Content::Frame(Frame { time, ..first }), 36));
}

#[test]
fn segments_of_frames(rt: HostRuntime) {
    assert_same!(rt; segment(1, &PCAP[40..], 74), Ok(SYN));
    assert_same!(rt; segment(1, &PCAPNG[156..230], 74), Ok(SYN));
    assert_same!(rt; segment(1, &PCAP[40..93], 74), Err(NoSegment::Cut));
    assert_same!(rt; segment(2, &PCAP[40..], 74), Err(NoSegment::UnknownLink));
}

// The heads of the frames that were passed, and how many octets these had.
#[derive(Drop)]
struct Heads {
    heads: Vec<FrameHead>,
    octets: usize,
    most: usize,
}

// There are as many heads as it takes.
#[derive(Clone, Copy, Debug, PartialEq, Eq)]
struct Enough;

impl FrameTaker for Heads {
    type Error = Enough;

    ghost took = { λ _ _. Unit {0} };

    ghost failed = { λ _ _ _. Unit {0} };

    #[tactic(auto, unfolding(recording3::specs::Frames::Extends))]
    fn take(&mut self, head: &FrameHead, octets: &[u8]) -> Result<(), Enough> {
        if self.heads.len() >= self.most || self.heads.push(*head).is_err() {
            return Err(Enough);
        }
        self.octets = self.octets.saturating_add(octets.len());
        Ok(())
    }
}

fn heads_of(alloc: Global, most: usize) -> Heads {
    Heads {
        heads: Vec::new(alloc),
        octets: 0,
        most,
    }
}

// The head of a frame whose part and octets begin at these places.
fn head(number: u64, (offset, at): (u64, u64), time: u64, link: u32, wire: u32) -> FrameHead {
    FrameHead {
        number,
        offset,
        at,
        time,
        link,
        wire,
    }
}

fn at(frames: u64, offset: u64, why: Ending) -> Result<RecordingEnd, Failed<Enough>> {
    Ok(RecordingEnd {
        frames,
        offset,
        why,
    })
}

// The frames of a whole recording that is read in pieces of so many octets, behind 7 others.
fn are_passed(rt: &impl Abort, alloc: Global, file: &[u8], piece: usize, wanted: &[FrameHead])
    requires piece { 0 < piece }
    requires few { length wanted.now < 100 }
{
    let mut taker = heads_of(alloc, 100);
    let ended = read(alloc, file, piece, 0, &mut taker);
    let whole = at(7 + wanted.len() as u64, file.len() as u64, Ending::End);
    assert_same!(*rt; ended, whole);
    assert_same!(*rt; taker.heads.as_slice(), wanted);
}

#[test]
fn frames_of_a_pcap_are_passed(rt: HostRuntime) {
    let wanted = [head(8, (24, 40), 1_795_337_537_966_137_000, 1, 74)];
    are_passed(&rt, rt.alloc(), &PCAP, 1, &wanted);
    are_passed(&rt, rt.alloc(), &PCAP, 7, &wanted);
    are_passed(&rt, rt.alloc(), &PCAP, 114, &wanted);
}

// As the tools read them.
#[test]
fn frames_of_a_pcapng_are_passed(rt: HostRuntime) {
    let wanted = [
        head(8, (92, 120), 0, 101, 9),
        head(9, (128, 140), 0, 1, 6),
        head(10, (220, 248), 3_500_000_000, 276, 60),
    ];
    are_passed(&rt, rt.alloc(), &MIXED, 1, &wanted);
    are_passed(&rt, rt.alloc(), &MIXED, 7, &wanted);
    are_passed(&rt, rt.alloc(), &MIXED, 256, &wanted);
}

#[test]
fn a_failing_read_is_told(rt: HostRuntime) {
    let mut taker = heads_of(rt.alloc(), 100);
    let ended = read(rt.alloc(), &PCAP, 57, 3, &mut taker);
    assert_same!(rt; ended, Err(Failed::Read));
    assert_same!(rt; (taker.heads.len(), taker.octets), (1, 74));
}

#[test]
fn a_failing_taker_is_told(rt: HostRuntime) {
    let mut taker = heads_of(rt.alloc(), 2);
    let ended = read(rt.alloc(), &MIXED, 256, 0, &mut taker);
    assert_same!(rt; ended, Err(Failed::Taker(Enough)));
    assert_same!(rt; taker.heads.len(), 2);
}

fn ends(rt: &impl Abort, alloc: Global, file: &[u8], ended: Result<RecordingEnd, Failed<Enough>>) {
    let mut taker = heads_of(alloc, 100);
    assert_same!(*rt; read(alloc, file, 7, 0, &mut taker), ended);
}

#[test]
fn ends_are_told(rt: HostRuntime) {
    ends(&rt, rt.alloc(), &[], at(7, 0, Ending::Cut));
    ends(
        &rt,
        rt.alloc(),
        b"nfs3cap 1",
        at(7, 0, Ending::NotRecording),
    );
    ends(&rt, rt.alloc(), &PCAP[..113], at(7, 24, Ending::Cut));
    ends(&rt, rt.alloc(), &MIXED[..240], at(9, 220, Ending::Cut));
}

#[test]
fn outcomes_are_counted(rt: HostRuntime) {
    let mut tally = Tally::new();
    ok(&rt, read(rt.alloc(), &PCAP, 114, 0, &mut tally));
    ok(&rt, read(rt.alloc(), &MIXED, 256, 0, &mut tally));
    let counts = (tally.segments, tally.not_ip, tally.cut, tally.frames());
    assert_same!(rt; counts, (1, 1, 2, 4));
}
