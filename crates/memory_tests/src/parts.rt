//! A record's body, the numbers of values, and the bytes of a message.

use canon3::{MemSink, Numbers, Sink};
use record_mark::{JoinError, Joiner, Step};
use std::hash::{BuildHasherDefault, FoldHasher};
use std::test::Fail;
use xdr3::{Field, Writer, walk_fields};

/// A body of four bytes in one fragment.
const RECORD: [u8; 8] = [0x80, 0, 0, 4, 1, 2, 3, 4];

/// After a refused growth a joiner answers it again; cleared, it takes the record from its start.
#[test]
fn a_record_is_joined(rt: HostRuntime) {
    let mut joiner = Joiner::new(rt.alloc());
    let mut joined = joiner.push(&RECORD);
    if joined == Err(JoinError::Memory) {
        assert_eq!(rt; joiner.push(&[0]), Err(JoinError::Memory));
        joiner.clear();
        joined = joiner.push(&RECORD);
    }
    assert_eq!(rt; joined, Ok((8, Step::Record)));
    assert_eq!(rt; joiner.body(), &RECORD[4..]);
}

/// A refused growth uses up no number: the key has the number that it would have had.
#[test]
fn keys_are_numbered(rt: HostRuntime) {
    let mut numbers = Numbers::new(rt.alloc(), BuildHasherDefault::<FoldHasher>::default());
    for key in 1..20u32 {
        let mut number = numbers.number_of(key);
        if number.is_err() {
            assert_eq!(rt; numbers.len(), key - 1);
            number = numbers.number_of(key);
        }
        assert_eq!(rt; number, Ok(key));
    }
    assert_eq!(rt; numbers.number_of(7), Ok(7));
}

#[test]
#[tactic(auto, unfolding(xdr3::specs::Visit::AreWithinLimit))]
fn items_are_written(rt: HostRuntime) {
    let mut writer = Writer::new(rt.alloc());
    let items = [Field::Word("xid", 7), Field::Text("name", b"abcde")];
    if walk_fields(&items, &mut writer).is_err() {
        writer.clear();
        assert_eq!(rt; walk_fields(&items, &mut writer), Ok(()));
    }
    let spelled = [0, 0, 0, 7, 0, 0, 0, 5, 97, 98, 99, 100, 101, 0, 0, 0];
    assert_eq!(rt; writer.bytes(), spelled.as_slice());
}

#[test]
fn a_sink_is_made(rt: HostRuntime) -> Result<(), Fail> {
    if let Ok(mut sink) = MemSink::new(rt.alloc(), 9, 9, 0) {
        assert_eq!(rt; sink.write_some(b"abc"), Ok(3));
        assert_eq!(rt; sink.bytes(), b"abc".as_slice());
    }
    Ok(())
}
