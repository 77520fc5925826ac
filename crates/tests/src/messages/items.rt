//! Items of XDR: what is read of bodies, told to a visitor, and written.

ghost use Rattle.std.specs.Prelude.{◌∷◌, [], codes};
ghost use Rattle.xdr3.specs.Item.{Hyper, Opaque, Text, Word};
ghost use Rattle.xdr3.specs.Shape.{both, hyper, opaque, word_named};

use crate::asserts::{assert_holds, assert_same, ok};
use std::alloc::{AllocError, Global};
use xdr3::{
    Field, GetError, Input, PlainField, Reason, Stop, Visit, Walk, Writer, Xdr, get_counted,
    get_linked, get_optional, get_sized, read, residue, scan_plain, spelled_hyper, spelled_word,
    walk_counted, walk_fields, walk_linked, walk_optional,
};

#[derive(Clone, Copy, Debug, PartialEq, Eq)]
struct Group {
    number: u32,
}

impl<'a> Xdr<'a> for Group {
    ghost shape = { word_named (codes "group") };

    #[tactic(auto, unfolding(xdr3::specs::Reading::reading))]
    fn get(_alloc: Global, input: &mut Input<'a>) -> Result<Group, GetError> {
        let number = input.word()?;
        Ok(Group { number })
    }
}

impl Walk for Group {
    ghost items = { λ g. Word (codes "group") g.number ∷ [] };

    fn walk<V: Visit>(&self, visitor: &mut V) -> Result<(), AllocError> {
        walk_fields(&[Field::Word("group", self.number)], visitor)
    }
}

#[derive(Clone, Copy)]
struct Entry<'a> {
    fileid: u64,
    name: &'a [u8],
}

impl<'a> Xdr<'a> for Entry<'a> {
    ghost shape = { both (hyper (codes "fileid")) (opaque Text (codes "name") 255) };

    #[tactic(auto, unfolding(xdr3::specs::Reading::reading))]
    fn get(_alloc: Global, input: &mut Input<'a>) -> Result<Entry<'a>, GetError> {
        let fileid = input.hyper()?;
        let name = input.var(255)?;
        Ok(Entry { fileid, name })
    }
}

impl<'a> Walk for Entry<'a> {
    ghost items = { λ e. Hyper (codes "fileid") e.fileid ∷ Opaque Text (codes "name") e.name.now ∷ [] };

    fn walk<V: Visit>(&self, visitor: &mut V) -> Result<(), AllocError> {
        let all = [
            Field::Hyper("fileid", self.fileid),
            Field::Text("name", self.name),
        ];
        walk_fields(&all, visitor)
    }
}

#[test]
fn items_of_a_body(rt: HostRuntime) {
    let body = [
        0, 0, 0, 7, 0, 0, 0, 0, 0, 0, 0, 9, 0, 0, 0, 1, 0, 0, 0, 2, 0, 0, 0, 3, 1, 2, 3, 4, 5, 6,
        7, 8, 0, 0, 0, 5, 97, 98, 99, 100, 101, 255, 255, 255, 0, 0, 0, 6, 170,
    ];
    let mut input = Input::new(&body);
    assert_same!(rt; input.left(), 49);
    assert_same!(rt; input.word(), Ok(7));
    assert_same!(rt; input.hyper(), Ok(9));
    assert_same!(rt; input.boolean(), Ok(true));
    assert_same!(rt; input.listed(&[1, 2]), Ok(2));
    assert_same!(rt; input.at_most(3), Ok(3));
    assert_same!(rt; input.fixed8(), Ok([1, 2, 3, 4, 5, 6, 7, 8]));
    assert_same!(rt; input.at(), 32);
    assert_same!(rt; ok(&rt, input.var(5)), [97, 98, 99, 100, 101].as_slice());
    let mut window = ok(&rt, input.window(4));
    assert_same!(rt; window.at(), 44);
    assert_same!(rt; window.word(), Ok(6));
    assert_same!(rt; window.end(), Ok(()));
    assert_same!(rt;
        window.word(),
        Err(Stop {
            at: 48,
            reason: Reason::Short
        })
    );
    assert_same!(rt;
        input.end(),
        Err(Stop {
            at: 48,
            reason: Reason::Trailing
        })
    );
    assert_same!(rt; input.rest(), [170].as_slice());
    assert_same!(rt; input.end(), Ok(()));
}

#[test]
fn faults_of_a_word(rt: HostRuntime) {
    for (body, reason) in [
        ([0, 0, 0, 2].as_slice(), Reason::BadBool),
        ([0, 0, 0].as_slice(), Reason::Short),
        ([].as_slice(), Reason::Short),
    ] {
        let mut input = Input::new(body);
        assert_same!(rt; input.boolean(), Err(Stop { at: 0, reason }));
        assert_same!(rt; input.at(), 0);
    }
    let mut input = Input::new(&[0, 0, 0, 5, 1, 2, 3, 4, 5, 0, 0]);
    assert_same!(rt;
        input.listed(&[3, 4]),
        Err(Stop {
            at: 0,
            reason: Reason::BadEnum
        })
    );
    assert_same!(rt;
        input.at_most(4),
        Err(Stop {
            at: 0,
            reason: Reason::TooLong
        })
    );
    assert_same!(rt;
        input.var(4).err(),
        Some(Stop {
            at: 0,
            reason: Reason::TooLong
        })
    );
    assert_same!(rt;
        input.var(5).err(),
        Some(Stop {
            at: 4,
            reason: Reason::Short
        })
    );
    assert_same!(rt; input.at(), 0);
}

#[test]
fn numbers_and_names_of_reasons(rt: HostRuntime) {
    assert_same!(rt; Reason::BadMagic.number(), 1);
    assert_same!(rt; Reason::Short.number(), 9);
    assert_same!(rt; Reason::XidConflict.number(), 19);
    assert_same!(rt; Reason::BadMagic.name(), "BadMagic");
    assert_same!(rt; Reason::RecordTooLong.name(), "RecordTooLong");
    assert_same!(rt; Reason::XidConflict.name(), "XidConflict");
}

#[test]
fn words_hypers_and_residual_bytes(rt: HostRuntime) {
    assert_same!(rt; spelled_word(0x0102_0304), [1, 2, 3, 4]);
    assert_same!(rt; spelled_hyper(0x0102_0304_0506_0708), [1, 2, 3, 4, 5, 6, 7, 8]);
    assert_same!(rt; [residue(0), residue(1), residue(2), residue(3), residue(4)], [0, 3, 2, 1, 0]);
}

#[test]
#[tactic(auto, unfolding(xdr3::specs::Visit::AreWithinLimit))]
fn spelling_of_each_item(rt: HostRuntime) {
    let mut writer = Writer::new(rt.alloc());
    let all = [
        Field::Word("prog", 100_003),
        Field::Hyper("size", 4096),
        Field::Fixed("cookieverf", [1, 2, 3, 4, 5, 6, 7, 8]),
        Field::WriteVerf("verf", [8, 7, 6, 5, 4, 3, 2, 1]),
        Field::Var("cred_body", &[1, 2, 3]),
        Field::Text("name", b"client"),
        Field::Handle("fh", &[0xaa]),
        Field::Var("verf_body", &[]),
        Field::Rest("rest", &[9]),
    ];
    ok(&rt, walk_fields(&all, &mut writer));
    let expected = [
        0, 1, 0x86, 0xa3, 0, 0, 0, 0, 0, 0, 0x10, 0, 1, 2, 3, 4, 5, 6, 7, 8, 8, 7, 6, 5, 4, 3, 2,
        1, 0, 0, 0, 3, 1, 2, 3, 0, 0, 0, 0, 6, 99, 108, 105, 101, 110, 116, 0, 0, 0, 0, 0, 1, 0xaa,
        0, 0, 0, 0, 0, 0, 0, 9,
    ];
    assert_same!(rt; writer.bytes(), expected.as_slice());
    writer.clear();
    assert_holds!(rt; writer.bytes().is_empty());
}

#[test]
fn lists_that_are_read(rt: HostRuntime) {
    let body = [
        0, 0, 0, 1, 0, 0, 0, 0, 0, 0, 0, 1, 0, 0, 0, 1, 46, 255, 255, 255, 0, 0, 0, 1, 0, 0, 0, 0,
        0, 0, 0, 2, 0, 0, 0, 2, 46, 46, 1, 2, 0, 0, 0, 0, 0, 0, 0, 2, 0, 0, 0, 8, 0, 0, 0, 9,
    ];
    let mut input = Input::new(&body);
    let entries: Vec<Entry> = ok(&rt, get_linked(rt.alloc(), &mut input));
    assert_same!(rt; input.at(), 44);
    assert_holds!(rt; entries.len() == 2);
    assert_same!(rt; entries[1].name, [46, 46].as_slice());
    let groups: Vec<Group> = ok(&rt, get_counted(rt.alloc(), &mut input, 2));
    assert_same!(rt;
        groups.as_slice(),
        [Group { number: 8 }, Group { number: 9 }].as_slice()
    );
    assert_same!(rt; input.left(), 0);
}

#[test]
#[tactic(auto, unfolding(xdr3::specs::Visit::AreWithinLimit))]
fn spelling_of_lists(rt: HostRuntime) {
    let mut writer = Writer::new(rt.alloc());
    let entries = [
        Entry {
            fileid: 1,
            name: b".",
        },
        Entry {
            fileid: 2,
            name: b"..",
        },
    ];
    ok(&rt, walk_linked("entry", &entries, &mut writer));
    ok(
        &rt,
        walk_counted("gids", &[Group { number: 8 }], &mut writer),
    );
    ok(
        &rt,
        walk_optional("gid", &Some(Group { number: 5 }), &mut writer),
    );
    let expected = [
        0, 0, 0, 1, 0, 0, 0, 0, 0, 0, 0, 1, 0, 0, 0, 1, 46, 0, 0, 0, 0, 0, 0, 1, 0, 0, 0, 0, 0, 0,
        0, 2, 0, 0, 0, 2, 46, 46, 0, 0, 0, 0, 0, 0, 0, 0, 0, 1, 0, 0, 0, 8, 0, 0, 0, 1, 0, 0, 0, 5,
    ];
    assert_same!(rt; writer.bytes(), expected.as_slice());
}

#[test]
fn values_after_a_word(rt: HostRuntime) {
    let mut input = Input::new(&[
        0, 0, 0, 0, 0, 0, 0, 1, 0, 0, 0, 5, 0, 0, 0, 4, 0, 0, 0, 6, 0, 0, 0, 7,
    ]);
    let missing: Option<Group> = ok(&rt, get_optional(rt.alloc(), &mut input));
    assert_same!(rt; missing, None);
    let found: Option<Group> = ok(&rt, get_optional(rt.alloc(), &mut input));
    assert_same!(rt; found, Some(Group { number: 5 }));
    let sized: Group = ok(&rt, get_sized(rt.alloc(), &mut input));
    assert_same!(rt; sized.number, 6);
    let last: Group = ok(&rt, read(rt.alloc(), &mut input));
    assert_same!(rt; last.number, 7);
}

#[test]
fn faults_of_a_told_length(rt: HostRuntime) {
    for (len, at, reason) in [
        (3, 4, Reason::AuthLength),
        (5, 8, Reason::AuthLength),
        (9, 4, Reason::Short),
    ] {
        let body = [0, 0, 0, len, 0, 0, 0, 5, 0, 0, 0, 6];
        let mut input = Input::new(&body);
        let refused: Result<Group, GetError> = get_sized(rt.alloc(), &mut input);
        let wanted = Err(GetError::Stop(Stop { at, reason }));
        assert_same!(rt; (len, refused), (len, wanted));
    }
}

/// A visitor that keeps the last number that it was told, and how many words and numbers of eight bytes
/// there were.
#[derive(Drop)]
struct Last {
    words: u8,
    hypers: u8,
    number: u64,
}

#[tactic(auto, unfolding(xdr3::specs::Visit::Adds, xdr3::specs::Visit::Keeps))]
impl Visit for Last {
    ghost stands = { λ last items. Unit {0} };

    fn word(&mut self, _name: &'static str, n: u32) -> Result<(), AllocError> {
        self.words = self.words.wrapping_add(1);
        self.number = u64::from(n);
        Ok(())
    }

    fn hyper(&mut self, _name: &'static str, n: u64) -> Result<(), AllocError> {
        self.hypers = self.hypers.wrapping_add(1);
        self.number = n;
        Ok(())
    }

    fn fixed(&mut self, _name: &'static str, _bytes: &[u8; 8]) -> Result<(), AllocError> {
        Ok(())
    }

    fn write_verf(&mut self, _name: &'static str, _bytes: &[u8; 8]) -> Result<(), AllocError> {
        Ok(())
    }

    fn var(&mut self, _name: &'static str, _bytes: &[u8]) -> Result<(), AllocError> {
        Ok(())
    }

    fn text(&mut self, _name: &'static str, _bytes: &[u8]) -> Result<(), AllocError> {
        Ok(())
    }

    fn handle(&mut self, _name: &'static str, _bytes: &[u8]) -> Result<(), AllocError> {
        Ok(())
    }

    fn rest(&mut self, _name: &'static str, _bytes: &[u8]) -> Result<(), AllocError> {
        Ok(())
    }
}

const PLAIN: [PlainField; 3] = [
    PlainField::Word("count"),
    PlainField::Hyper("offset"),
    PlainField::Word("access"),
];

#[test]
fn plain_fields_told_at_once(rt: HostRuntime) {
    let body = [0, 0, 0, 7, 0, 0, 0, 0, 0, 0, 1, 0, 0, 0, 0, 9, 170];
    let mut input = Input::new(&body);
    let mut writer = Writer::new(rt.alloc());
    ok(&rt, scan_plain(&PLAIN, 16, &mut input, &mut writer));
    assert_same!(rt; input.at(), 16);
    assert_same!(rt; writer.bytes(), &body[..16]);
    assert_same!(rt; input.run(1), Some([170].as_slice()));
    assert_same!(rt; input.run(1), None);
    assert_same!(rt; input.run(0), Some([].as_slice()));
}

#[test]
fn plain_fields_told_one_by_one(rt: HostRuntime) {
    let body = [0, 0, 0, 7, 0, 0, 0, 0, 0, 0, 1, 0, 0, 0, 0, 9];
    let mut last = Last {
        words: 0,
        hypers: 0,
        number: 0,
    };
    ok(&rt, last.plain(&PLAIN[..2], &body[..12]));
    assert_same!(rt; last.number, 256);
    ok(&rt, last.plain(&PLAIN, &body));
    assert_same!(rt; last.number, 9);
    assert_same!(rt; last.words, 3);
    assert_same!(rt; last.hypers, 2);
}

#[test]
fn plain_fields_cut_short(rt: HostRuntime) {
    let body = [0, 0, 0, 7, 0, 0, 0, 0, 0, 0, 1, 0, 0, 0, 0];
    let mut last = Last {
        words: 0,
        hypers: 0,
        number: 0,
    };
    for (len, at) in [(15, 12), (11, 4), (4, 4), (3, 0)] {
        let mut input = Input::new(&body[..len]);
        let refused = scan_plain(&PLAIN, 16, &mut input, &mut last);
        let reason = Reason::Short;
        let wanted = Err(GetError::Stop(Stop { at, reason }));
        assert_same!(rt; (len, refused), (len, wanted));
        assert_same!(rt; input.at(), 0);
    }
    assert_same!(rt; last.words, 0);
}
