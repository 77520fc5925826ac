//! Each call that takes memory, so that a growth can be refused at each place: `tests/faults/memory.py`
//! refuses the first, the second and so on, and every test holds whichever is refused, and where none is.
#![tactic(auto)]

#[cfg(test)]
mod commands;
#[cfg(test)]
mod masks;
#[cfg(test)]
mod parts;
#[cfg(test)]
mod readers;
#[cfg(test)]
mod samples;
