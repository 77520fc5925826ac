//! The commands on captures in memory.

mod canonical;
mod comparisons;
mod listings;
mod packs;
mod writers;
