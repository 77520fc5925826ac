//! What is kept of the file handles of the messages that are listed.

ghost use Rattle.std.specs.Prelude.{List};
ghost use Rattle.capture3.specs.Entry as spec;
ghost use Rattle.canon3.specs.HandleTable.{all_items};
ghost use Rattle.listing3.specs.machinery.LineWriter.{SkipsOthers};

use canon3::{EntryWriter, HandleTable};
use capture3::Silent;
use std::hash::BuildHasher;
use xdr3::Visit;

/// A visitor that may keep file handles (`nfs_fh3`, RFC 1813), and keeps nothing of other items. So
/// only the handles of a message have to be passed to it.
pub(crate) trait Gathering: Visit {
    /// Items without handles change nothing.
    ghost skips: { SkipsOthers Self.stands };
}

/// A writer of nothing that counts a capture, also if only its handles are passed to it.
pub(crate) trait Counting: Gathering + EntryWriter {
    /// If it represents the items of these entries, it is as a writer that they were passed to.
    ghost ends: { (counting : Self) (entries : List spec.Entry)
        → Self.stands counting (all_items entries)
        → Self.going counting × Self.rests counting (Self.before entries) };
}

impl<S: BuildHasher + Drop> Gathering for HandleTable<S> {
    ghost use Rattle.canon3.proofs.Lemmas.Numbers.HandleTableLemmas.{gathers_none};

    ghost skips = { gathers_none };
}

impl<S: BuildHasher + Drop> Counting for HandleTable<S> {
    ghost ends = { λ _ _ stands. (tt, stands) };
}

impl Gathering for Silent {
    ghost skips = { λ _ _ _ _ _. tt };
}

impl Counting for Silent {
    ghost ends = { λ _ _ _. (tt, tt) };
}
