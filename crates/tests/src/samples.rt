//! Worked captures, what they are made of, and hashers without a key: no result depends on it.

use capture3::Hashers;
use rpc_head::ProcId;
use std::alloc::{AllocError, Global};
use std::hash::{BuildHasherDefault, FoldHasher};

/// A call of the NULL procedure of NFS version 3 and its reply, in one chunk and one fragment each.
pub(crate) const NULL: [u8; 104] = [
    0x4e, 0x46, 0x53, 0x33, 0x43, 0x41, 0x50, 0x31, 0, 0, 0, 1, 0, 0, 0, 0x2c, 0x80, 0, 0, 0x28,
    0xde, 0xad, 0xbe, 0xef, 0, 0, 0, 0, 0, 0, 0, 2, 0, 1, 0x86, 0xa3, 0, 0, 0, 3, 0, 0, 0, 0, 0, 0,
    0, 0, 0, 0, 0, 0, 0, 0, 0, 0, 0, 0, 0, 0, 0, 0, 0, 0, 0, 0, 0, 0x1c, 0x80, 0, 0, 0x18, 0xde,
    0xad, 0xbe, 0xef, 0, 0, 0, 1, 0, 0, 0, 0, 0, 0, 0, 0, 0, 0, 0, 0, 0, 0, 0, 0, 0, 0, 0, 0, 0, 0,
    0, 0,
];

/// The client's stream of `NULL`, one record.
pub(crate) fn client_stream() -> &'static [u8] {
    &NULL[16..60]
}

/// The body of its call.
pub(crate) fn null_call() -> &'static [u8] {
    &NULL[20..60]
}

/// The server's stream of `NULL`, one record.
pub(crate) fn server_stream() -> &'static [u8] {
    &NULL[68..96]
}

/// The streams of `NULL` in version 2, each one chunk, the client's first.
pub(crate) const CLIENT_FIRST: [u8; 108] = [
    0x4e, 0x46, 0x53, 0x33, 0x43, 0x41, 0x50, 0x32, 0, 0, 0, 1, 0, 0, 0, 1, 0, 0, 0, 0x2c, 0x80, 0,
    0, 0x28, 0xde, 0xad, 0xbe, 0xef, 0, 0, 0, 0, 0, 0, 0, 2, 0, 1, 0x86, 0xa3, 0, 0, 0, 3, 0, 0, 0,
    0, 0, 0, 0, 0, 0, 0, 0, 0, 0, 0, 0, 0, 0, 0, 0, 0, 0, 0, 0, 2, 0, 0, 0, 0x1c, 0x80, 0, 0, 0x18,
    0xde, 0xad, 0xbe, 0xef, 0, 0, 0, 1, 0, 0, 0, 0, 0, 0, 0, 0, 0, 0, 0, 0, 0, 0, 0, 0, 0, 0, 0, 0,
    0, 0, 0, 0,
];

/// The same, the server's first.
pub(crate) const SERVER_FIRST: [u8; 108] = [
    0x4e, 0x46, 0x53, 0x33, 0x43, 0x41, 0x50, 0x32, 0, 0, 0, 1, 0, 0, 0, 2, 0, 0, 0, 0x1c, 0x80, 0,
    0, 0x18, 0xde, 0xad, 0xbe, 0xef, 0, 0, 0, 1, 0, 0, 0, 0, 0, 0, 0, 0, 0, 0, 0, 0, 0, 0, 0, 0, 0,
    0, 0, 1, 0, 0, 0, 0x2c, 0x80, 0, 0, 0x28, 0xde, 0xad, 0xbe, 0xef, 0, 0, 0, 0, 0, 0, 0, 2, 0, 1,
    0x86, 0xa3, 0, 0, 0, 3, 0, 0, 0, 0, 0, 0, 0, 0, 0, 0, 0, 0, 0, 0, 0, 0, 0, 0, 0, 0, 0, 0, 0, 0,
    0, 0, 0, 0,
];

/// The canonical form of `NULL`: the xid is its number.
pub(crate) const NUMBERED_NULL: [u8; 104] = [
    0x4e, 0x46, 0x53, 0x33, 0x43, 0x41, 0x50, 0x31, 0, 0, 0, 1, 0, 0, 0, 0x2c, 0x80, 0, 0, 0x28, 0,
    0, 0, 1, 0, 0, 0, 0, 0, 0, 0, 2, 0, 1, 0x86, 0xa3, 0, 0, 0, 3, 0, 0, 0, 0, 0, 0, 0, 0, 0, 0, 0,
    0, 0, 0, 0, 0, 0, 0, 0, 0, 0, 0, 0, 0, 0, 0, 0, 0x1c, 0x80, 0, 0, 0x18, 0, 0, 0, 1, 0, 0, 0, 1,
    0, 0, 0, 0, 0, 0, 0, 0, 0, 0, 0, 0, 0, 0, 0, 0, 0, 0, 0, 0, 0, 0, 0, 0,
];

/// A COMMIT call and its reply, from its xid, its file handle after its length, and its verifier.
pub(crate) fn commit(
    alloc: Global,
    xid: [u8; 4],
    handle: [u8; 8],
    verifier: [u8; 8],
) -> Result<Vec<u8>, AllocError> {
    let mut bytes = Vec::new(alloc);
    bytes.extend_from_slice(b"NFS3CAP1\0\0\0\x01\0\0\0\x40\x80\0\0\x3c")?;
    bytes.extend_from_slice(&xid)?;
    bytes.extend_from_slice(b"\0\0\0\0\0\0\0\x02\0\x01\x86\xa3\0\0\0\x03\0\0\0\x15")?;
    bytes.extend_from_slice(&[0; 16])?;
    bytes.extend_from_slice(&handle)?;
    bytes.extend_from_slice(&[0; 12])?;
    bytes.extend_from_slice(b"\0\0\0\0\0\0\0\x30\x80\0\0\x2c")?;
    bytes.extend_from_slice(&xid)?;
    bytes.extend_from_slice(b"\0\0\0\x01")?;
    bytes.extend_from_slice(&[0; 28])?;
    bytes.extend_from_slice(&verifier)?;
    bytes.extend_from_slice(&[0; 8])?;
    Ok(bytes)
}

/// A COMMIT with values that are not their numbers, and with their numbers.
pub(crate) fn commits(alloc: Global) -> Result<(Vec<u8>, Vec<u8>), AllocError> {
    let (xid, handle) = ([0xde, 0xad, 0xbe, 0xef], [0, 0, 0, 1, 0xaa, 0, 0, 0]);
    let bytes = commit(alloc, xid, handle, [8; 8])?;
    let one = [0, 0, 0, 1];
    let numbered = commit(
        alloc,
        one,
        [0, 0, 0, 4, 0, 0, 0, 1],
        [0, 0, 0, 0, 0, 0, 0, 1],
    )?;
    Ok((bytes, numbered))
}

/// The arguments of a WRITE of the bytes hi to the handle aa, from offset 9 on, FILE_SYNC (2).
pub(crate) const WRITE: [u8; 32] = [
    0, 0, 0, 1, 0xaa, 0, 0, 0, 0, 0, 0, 0, 0, 0, 0, 9, 0, 0, 0, 2, 0, 0, 0, 2, 0, 0, 0, 2, 0x68,
    0x69, 0, 0,
];

/// A procedure of NFS version 3.
pub(crate) fn nfs(proc_no: u32) -> ProcId {
    ProcId {
        prog: 100_003,
        vers: 3,
        proc_no,
    }
}

/// A procedure of MOUNT version 3.
pub(crate) fn mount(proc_no: u32) -> ProcId {
    ProcId {
        prog: 100_005,
        vers: 3,
        proc_no,
    }
}

/// The words' bytes.
pub(crate) fn spell(alloc: Global, words: &[u32]) -> Result<Vec<u8>, AllocError> {
    let mut bytes = Vec::new(alloc);
    push_words(&mut bytes, words)?;
    Ok(bytes)
}

pub(crate) fn push_words(bytes: &mut Vec<u8>, words: &[u32]) -> Result<(), AllocError> {
    for word in words {
        bytes.extend_from_slice(&word.to_be_bytes())?;
    }
    Ok(())
}

pub(crate) fn hasher() -> BuildHasherDefault<FoldHasher> {
    BuildHasherDefault::default()
}

pub(crate) fn hashers() -> Hashers<BuildHasherDefault<FoldHasher>> {
    Hashers {
        calls: hasher(),
        xids: hasher(),
        handles: hasher(),
        verfs: hasher(),
    }
}
