//! A worked capture, its canonical form, its listing and its streams.

use capture3::Hashers;
use std::hash::{BuildHasherDefault, FoldHasher};

/// A COMMIT of the handle aa with xid 5, and its reply with the write verifier 8, 8, .., in one chunk and one
/// fragment each.
pub(crate) const COMMIT: [u8; 144] = [
    0x4e, 0x46, 0x53, 0x33, 0x43, 0x41, 0x50, 0x31, 0, 0, 0, 1, 0, 0, 0, 0x40, 0x80, 0, 0, 0x3c, 0,
    0, 0, 5, 0, 0, 0, 0, 0, 0, 0, 2, 0, 1, 0x86, 0xa3, 0, 0, 0, 3, 0, 0, 0, 0x15, 0, 0, 0, 0, 0, 0,
    0, 0, 0, 0, 0, 0, 0, 0, 0, 0, 0, 0, 0, 4, 0xaa, 0xaa, 0xaa, 0xaa, 0, 0, 0, 0, 0, 0, 0, 0, 0, 0,
    0, 0, 0, 0, 0, 0, 0, 0, 0, 0x30, 0x80, 0, 0, 0x2c, 0, 0, 0, 5, 0, 0, 0, 1, 0, 0, 0, 0, 0, 0, 0,
    0, 0, 0, 0, 0, 0, 0, 0, 0, 0, 0, 0, 0, 0, 0, 0, 0, 0, 0, 0, 0, 8, 8, 8, 8, 8, 8, 8, 8, 0, 0, 0,
    0, 0, 0, 0, 0,
];

/// The same streams in version 2: the reply in two chunks, and the call between them.
pub(crate) const MIXED: [u8; 156] = [
    0x4e, 0x46, 0x53, 0x33, 0x43, 0x41, 0x50, 0x32, 0, 0, 0, 1, 0, 0, 0, 2, 0, 0, 0, 0x14, 0x80, 0,
    0, 0x2c, 0, 0, 0, 5, 0, 0, 0, 1, 0, 0, 0, 0, 0, 0, 0, 0, 0, 0, 0, 1, 0, 0, 0, 0x40, 0x80, 0, 0,
    0x3c, 0, 0, 0, 5, 0, 0, 0, 0, 0, 0, 0, 2, 0, 1, 0x86, 0xa3, 0, 0, 0, 3, 0, 0, 0, 0x15, 0, 0, 0,
    0, 0, 0, 0, 0, 0, 0, 0, 0, 0, 0, 0, 0, 0, 0, 0, 4, 0xaa, 0xaa, 0xaa, 0xaa, 0, 0, 0, 0, 0, 0, 0,
    0, 0, 0, 0, 0, 0, 0, 0, 2, 0, 0, 0, 0x1c, 0, 0, 0, 0, 0, 0, 0, 0, 0, 0, 0, 0, 0, 0, 0, 0, 0, 0,
    0, 0, 8, 8, 8, 8, 8, 8, 8, 8, 0, 0, 0, 0, 0, 0, 0, 0,
];

pub(crate) fn hashers() -> Hashers<BuildHasherDefault<FoldHasher>> {
    Hashers {
        calls: BuildHasherDefault::default(),
        xids: BuildHasherDefault::default(),
        handles: BuildHasherDefault::default(),
        verfs: BuildHasherDefault::default(),
    }
}
