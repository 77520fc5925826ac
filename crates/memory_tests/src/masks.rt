//! The calls of a program that masks. At most one growth is refused in a test, so of two runs one has its
//! whole answer.

use crate::commands::{Run, agree};
use canon3::MemSink;
use capture3::MemSource;
use masking3::{MaskHashers, Ways, mask};
use std::hash::{BuildHasherDefault, FoldHasher};

/// A READDIR of the handle aa with xid 5, an AUTH_SYS credential, a cookie and its verifier, and the reply
/// that the handle is stale.
const READDIR: [u8; 164] = [
    0x4e, 0x46, 0x53, 0x33, 0x43, 0x41, 0x50, 0x31, 0, 0, 0, 1, 0, 0, 0, 0x60, 0x80, 0, 0, 0x5c, 0,
    0, 0, 5, 0, 0, 0, 0, 0, 0, 0, 2, 0, 1, 0x86, 0xa3, 0, 0, 0, 3, 0, 0, 0, 0x10, 0, 0, 0, 1, 0, 0,
    0, 0x18, 0, 0, 0, 9, 0, 0, 0, 3, 0x62, 0x6f, 0x78, 0, 0, 0, 0, 0, 0, 0, 0, 0, 0, 0, 0, 0, 0, 0,
    0, 0, 0, 0, 0, 0, 0, 0, 0, 4, 0xaa, 0xaa, 0xaa, 0xaa, 0, 0, 0, 0, 0, 0, 2, 0, 9, 8, 7, 6, 5, 4,
    3, 2, 0, 0, 2, 0, 0, 0, 0, 0, 0, 0, 0, 0x24, 0x80, 0, 0, 0x20, 0, 0, 0, 5, 0, 0, 0, 1, 0, 0, 0,
    0, 0, 0, 0, 0, 0, 0, 0, 0, 0, 0, 0, 0, 0, 0, 0, 0x46, 0, 0, 0, 0, 0, 0, 0, 0, 0, 0, 0, 0,
];

fn hashers() -> MaskHashers<BuildHasherDefault<FoldHasher>> {
    MaskHashers {
        calls: BuildHasherDefault::default(),
        handles: BuildHasherDefault::default(),
        values: BuildHasherDefault::default(),
    }
}

fn mask_readdir(rt: &HostRuntime, mut sink: MemSink) -> Run {
    let mut source = MemSource::new(&READDIR, 50, 0);
    let came = mask(rt.alloc(), hashers(), Ways::usual(), &mut source, &mut sink);
    (came, sink)
}

#[test]
fn a_masked_form_is_written(rt: HostRuntime) {
    let (Ok(first), Ok(second)) = (
        MemSink::new(rt.alloc(), 999, 999, 0),
        MemSink::new(rt.alloc(), 999, 999, 0),
    ) else {
        return;
    };
    agree(&rt, &mask_readdir(&rt, first), &mask_readdir(&rt, second));
}
