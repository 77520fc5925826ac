//! What is replaced in a body of bytes that is not at hand yet.
#![tactic(auto)]

mod part;
mod patches;

pub use patches::Patches;
