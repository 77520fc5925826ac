//! Captures: what readers of both versions return, and where they refuse one.

mod readers;
mod reasons;
mod typed_messages;
mod version_2;
