//! Tests of the public calls of all libraries, on worked bodies, captures and command lines.
#![tactic(auto)]

#[cfg(test)]
mod asserts;
#[cfg(test)]
mod captures;
#[cfg(test)]
mod commands;
#[cfg(test)]
mod connections;
#[cfg(test)]
mod conversion;
#[cfg(test)]
mod faults;
#[cfg(test)]
mod masks;
#[cfg(test)]
mod messages;
#[cfg(test)]
mod payloads;
#[cfg(test)]
mod programs;
#[cfg(test)]
mod recordings;
#[cfg(test)]
mod samples;
#[cfg(test)]
mod streams;
