//! The values that are masked: their classes, what becomes of each, and their numbers.

pub(crate) mod class;
pub(crate) mod class_tables;
pub(crate) mod hashers;
pub(crate) mod spot;
pub(crate) mod ways;
