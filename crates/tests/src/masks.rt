//! A capture in memory, masked in several ways.

use crate::samples::{hasher, push_words};
use canon3::{MemSink, Summary};
use capture3::{Error, MemSource};
use masking3::{Class, MaskHashers, Way, Ways, mask};
use std::alloc::{AllocError, Global};
use std::hash::{BuildHasherDefault, FoldHasher};
use std::test::Fail;

/// What differs between two runs.
#[derive(Clone, Copy)]
struct Run {
    stamp: u32,
    used: u32,
    fsid: u32,
    fileid: u32,
    time: u32,
    is_named: bool,
}

/// A GETATTR call with an AUTH_SYS credential up to its flavor, and from the user on.
const HEAD: [u32; 7] = [7, 0, 2, 100_003, 3, 1, 1];

const TAIL: [u32; 7] = [1000, 100, 0, 0, 0, 4, 0xaabb_ccdd];

/// Appends the call in its record and chunk. The machine is named `box`, or has an empty name.
fn push_call(bytes: &mut Vec<u8>, run: Run) -> Result<(), AllocError> {
    if run.is_named {
        push_words(bytes, &[76, 0x8000_0048])?;
        push_words(bytes, &HEAD)?;
        push_words(bytes, &[24, run.stamp, 3, 0x626f_7800])?;
    } else {
        push_words(bytes, &[72, 0x8000_0044])?;
        push_words(bytes, &HEAD)?;
        push_words(bytes, &[20, run.stamp, 0])?;
    }
    push_words(bytes, &TAIL)
}

/// The record and the chunk of its reply, up to the attributes.
const REPLY: [u32; 9] = [116, 0x8000_0070, 7, 1, 0, 0, 0, 0, 0];

/// A file's attributes.
fn attributes(run: Run) -> [u32; 21] {
    [
        1, 420, 1, 1000, 100, 0, 5, 0, run.used, 0, 0, 0, run.fsid, 0, run.fileid, run.time,
        run.time, run.time, run.time, run.time, run.time,
    ]
}

/// A GETATTR call with an AUTH_SYS credential, and its reply.
fn capture(alloc: Global, run: Run) -> Result<Vec<u8>, AllocError> {
    capture_of(alloc, run, attributes(run))
}

/// The same with these attributes.
fn capture_of(alloc: Global, run: Run, attributes: [u32; 21]) -> Result<Vec<u8>, AllocError> {
    let mut bytes = Vec::new(alloc);
    push_words(&mut bytes, &[0x4e46_5333, 0x4341_5031, 1])?;
    push_call(&mut bytes, run)?;
    push_words(&mut bytes, &[0])?;
    push_words(&mut bytes, &REPLY)?;
    push_words(&mut bytes, &attributes)?;
    push_words(&mut bytes, &[0, 0])?;
    Ok(bytes)
}

fn hashers() -> MaskHashers<BuildHasherDefault<FoldHasher>> {
    MaskHashers {
        calls: hasher(),
        handles: hasher(),
        values: hasher(),
    }
}

fn mask_bytes(
    rt: &HostRuntime,
    ways: Ways,
    bytes: &[u8],
    sink: &mut MemSink,
) -> Result<Summary, Error> {
    mask(
        rt.alloc(),
        hashers(),
        ways,
        &mut MemSource::new(bytes, 7, 0),
        sink,
    )
}

const FIRST: Run = Run {
    stamp: 0x0102_0304,
    used: 4096,
    fsid: 9,
    fileid: 9,
    time: 1_700_000_000,
    is_named: true,
};

#[test]
fn the_usual_ways(rt: HostRuntime) -> Result<(), Fail> {
    let form = Run {
        stamp: 0,
        used: 0,
        fsid: 1,
        fileid: 1,
        time: 0,
        is_named: false,
    };
    let mut sink = MemSink::new(rt.alloc(), 999, 9, 0)?;
    let summary = Summary {
        connections: 1,
        calls: 1,
        replies: 1,
        handles: 1,
    };
    let bytes = capture(rt.alloc(), FIRST)?;
    let form = capture(rt.alloc(), form)?;
    assert_eq!(rt;
        mask_bytes(&rt, Ways::usual(), &bytes, &mut sink),
        Ok(summary)
    );
    assert_eq!(rt; sink.bytes(), form.as_slice());
    assert_eq!(rt; sink.flushed().len(), form.len());
    Ok(())
}

#[test]
fn no_ways(rt: HostRuntime) -> Result<(), Fail> {
    let mut sink = MemSink::new(rt.alloc(), 999, 9, 0)?;
    let bytes = capture(rt.alloc(), FIRST)?;
    assert_eq!(rt;
        mask_bytes(&rt, Ways::none(), &bytes, &mut sink).is_ok(),
        true
    );
    assert_eq!(rt; sink.bytes(), bytes.as_slice());
    Ok(())
}

#[test]
fn numbered_times(rt: HostRuntime) -> Result<(), Fail> {
    let ways = Ways::none().with(Class::Times, Way::Number);
    let form = Run { time: 1, ..FIRST };
    let mut sink = MemSink::new(rt.alloc(), 999, 9, 0)?;
    let bytes = capture(rt.alloc(), FIRST)?;
    assert_eq!(rt; mask_bytes(&rt, ways, &bytes, &mut sink).is_ok(), true);
    assert_eq!(rt; sink.bytes(), capture(rt.alloc(), form)?.as_slice());
    Ok(())
}

/// A NULL call of a user, a group, and a list of two groups.
fn null_by(alloc: Global, owners: [u32; 4]) -> Result<Vec<u8>, AllocError> {
    let mut bytes = Vec::new(alloc);
    push_words(&mut bytes, &[0x4e46_5333, 0x4341_5031, 1, 72, 0x8000_0044])?;
    push_words(&mut bytes, &[7, 0, 2, 100_003, 3, 0, 1, 28, 0, 0])?;
    push_words(&mut bytes, &[owners[0], owners[1], 2, owners[2], owners[3]])?;
    push_words(&mut bytes, &[0, 0, 0, 0, 0])?;
    Ok(bytes)
}

#[test]
fn lists_of_groups(rt: HostRuntime) -> Result<(), Fail> {
    let bytes = null_by(rt.alloc(), [1000, 100, 27, 1000])?;
    for (owners, form) in [
        (Way::Keep, [1000, 100, 27, 1000]),
        (Way::Zero, [0, 0, 0, 0]),
        (Way::Number, [1, 2, 3, 1]),
    ] {
        let ways = Ways::none().with(Class::Owners, owners);
        let mut sink = MemSink::new(rt.alloc(), 999, 9, 0)?;
        assert_eq!(rt; mask_bytes(&rt, ways, &bytes, &mut sink).is_ok(), true);
        assert_eq!(rt; sink.bytes(), null_by(rt.alloc(), form)?.as_slice());
    }
    Ok(())
}

/// Attributes of this type, with so many links and this size.
fn attributes_of(kind: u32, links: u32, size: u32) -> [u32; 21] {
    let mut words = attributes(FIRST);
    words[0] = kind;
    words[2] = links;
    words[6] = size;
    words
}

#[test]
fn sizes_of_files_and_directories(rt: HostRuntime) -> Result<(), Fail> {
    for (kind, wcc, links, size) in [
        (2, Way::Keep, 3, 4096),
        (2, Way::Zero, 0, 0),
        (2, Way::Number, 1, 2),
        (1, Way::Number, 3, 4096),
    ] {
        let ways = Ways::none().with(Class::Wcc, wcc);
        let bytes = capture_of(rt.alloc(), FIRST, attributes_of(kind, 3, 4096))?;
        let form = capture_of(rt.alloc(), FIRST, attributes_of(kind, links, size))?;
        let mut sink = MemSink::new(rt.alloc(), 999, 9, 0)?;
        assert_eq!(rt; mask_bytes(&rt, ways, &bytes, &mut sink).is_ok(), true);
        assert_eq!(rt; sink.bytes(), form.as_slice());
    }
    Ok(())
}

/// A name that Linux gave to a removed file: of the file id 0xa4f2e, and the 28th one.
const SILLY: [u32; 7] = [
    0x2e6e_6673,
    0x3030_3030,
    0x3030_3030,
    0x3030_3061,
    0x3466_3265,
    0x3030_3030,
    0x3030_3163,
];

/// The name with zeros for digits.
const ZEROS: [u32; 7] = [
    0x2e6e_6673,
    0x3030_3030,
    0x3030_3030,
    0x3030_3030,
    0x3030_3030,
    0x3030_3030,
    0x3030_3030,
];

/// A REMOVE of a file of 28 bytes.
fn removal(alloc: Global, name: &[u32; 7]) -> Result<Vec<u8>, AllocError> {
    let mut bytes = Vec::new(alloc);
    push_words(&mut bytes, &[0x4e46_5333, 0x4341_5031, 1, 84, 0x8000_0050])?;
    push_words(&mut bytes, &[7, 0, 2, 100_003, 3, 12, 0, 0, 0, 0])?;
    push_words(&mut bytes, &[4, 0xaabb_ccdd, 28])?;
    push_words(&mut bytes, name)?;
    push_words(&mut bytes, &[0, 0, 0])?;
    Ok(bytes)
}

#[test]
fn names_of_removed_files(rt: HostRuntime) -> Result<(), Fail> {
    let bytes = removal(rt.alloc(), &SILLY)?;
    for (way, form) in [(Way::Keep, SILLY), (Way::Zero, ZEROS), (Way::Number, ZEROS)] {
        let ways = Ways::none().with(Class::SillyNames, way);
        let mut sink = MemSink::new(rt.alloc(), 999, 9, 0)?;
        assert_eq!(rt; mask_bytes(&rt, ways, &bytes, &mut sink).is_ok(), true);
        assert_eq!(rt; sink.bytes(), removal(rt.alloc(), &form)?.as_slice());
    }
    Ok(())
}

/// A DUMP and its reply of one directory, `/a`, which has this record and these words for the host's name.
fn dump(alloc: Global, record: [u32; 2], host: &[u32]) -> Result<Vec<u8>, AllocError> {
    let mut bytes = Vec::new(alloc);
    push_words(&mut bytes, &[0x4e46_5333, 0x4341_5031, 1, 44, 0x8000_0028])?;
    push_words(&mut bytes, &[7, 0, 2, 100_005, 3, 2, 0, 0, 0, 0, 0])?;
    push_words(&mut bytes, &record)?;
    push_words(&mut bytes, &[7, 1, 0, 0, 0, 0, 1])?;
    push_words(&mut bytes, host)?;
    push_words(&mut bytes, &[2, 0x2f61_0000, 0, 0, 0])?;
    Ok(bytes)
}

#[test]
fn names_of_hosts(rt: HostRuntime) -> Result<(), Fail> {
    let bytes = dump(rt.alloc(), [52, 0x8000_0030], &[3, 0x626f_7800])?;
    let without = dump(rt.alloc(), [48, 0x8000_002c], &[0])?;
    for (way, form) in [
        (Way::Keep, &bytes),
        (Way::Zero, &without),
        (Way::Number, &without),
    ] {
        let ways = Ways::none().with(Class::Machines, way);
        let mut sink = MemSink::new(rt.alloc(), 999, 9, 0)?;
        assert_eq!(rt; mask_bytes(&rt, ways, &bytes, &mut sink).is_ok(), true);
        assert_eq!(rt; sink.bytes(), form.as_slice());
    }
    Ok(())
}

#[test]
fn a_sink_without_room(rt: HostRuntime) -> Result<(), Fail> {
    let mut sink = MemSink::new(rt.alloc(), 50, 9, 0)?;
    let bytes = capture(rt.alloc(), FIRST)?;
    assert_eq!(rt;
        mask_bytes(&rt, Ways::usual(), &bytes, &mut sink),
        Err(Error::Write)
    );
    assert_eq!(rt; sink.bytes().len(), 50);
    Ok(())
}
