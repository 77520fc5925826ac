//! Captures in which the values that no two runs share are zero, or numbers by their first appearance.
#![tactic(auto)]

pub mod examples;
pub mod laws;
mod masked_form;
mod masking_writer;
mod values;

pub use masked_form::mask;
pub use values::class::{CLASSES, Class};
pub use values::hashers::MaskHashers;
pub use values::spot::ItemSpot;
pub use values::ways::{Way, Ways};
