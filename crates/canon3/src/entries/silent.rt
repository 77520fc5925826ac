//! A writer of nothing, for callers that only read a capture to its end.

use crate::entries::entry_writer::EntryWriter;
use crate::sink::Sink;
use crate::summary::MessageCounts;
use capture3::{Error, LentEntry, Progress, Silent};

impl EntryWriter for Silent {
    ghost use Rattle.std.specs.Prelude.{[]};
    ghost use Rattle.canon3.specs.HandleTable.{nothing};
    ghost use Rattle.canon3.specs.Summary.{AreMessageCounts};

    type Counts = MessageCounts;

    ghost are_counts = { AreMessageCounts };

    ghost form = { nothing };

    ghost before = { λ entries. [] };

    ghost going = { λ silent. Unit {0} };

    fn write<W: Sink>(
        &mut self,
        _progress: Progress,
        _sink: &mut W,
        _entry: LentEntry<'_>,
    ) -> Result<(), Error> {
        Ok(())
    }

    fn counts(&self, progress: Progress) -> MessageCounts {
        MessageCounts::of(progress)
    }
}
