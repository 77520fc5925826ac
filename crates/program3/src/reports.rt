//! What a program prints, and its status.

pub(crate) mod ending;
pub(crate) mod printed;
