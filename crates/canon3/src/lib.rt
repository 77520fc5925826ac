//! What a capture has, what it is up to renaming, and its canonical form.
#![tactic(auto)]

mod canonical_form;
mod comparison;
mod entries;
pub mod examples;
pub mod laws;
mod numbers;
mod sink;
mod summary;

pub use canonical_form::canon;
pub use comparison::same;
pub use comparison::verdict::{SameError, Verdict, Which};
pub use entries::entry_writer::{EntryWriter, write_entries};
pub use numbers::Numbers;
pub use numbers::handles::HandleTable;
pub use sink::container::{write_magic, write_message, write_word};
pub use sink::mem_sink::MemSink;
pub use sink::traced::Traced;
pub use sink::whole_writes::{write_all, write_both};
pub use sink::{Sink, ToWrite};
pub use summary::{MessageCounts, Summary, check};
