//! The words of the command line.

use line3::LineFault;
use std::env;
use std::io::ErrorKind;

/// Returns the words of the command line, the program's name first.
///
/// # Errors
///
/// - `LineFault::NotText` if a word is not UTF-8.
/// - `LineFault::Memory` if memory ran out.
pub fn words(rt: &HostRuntime) -> Result<Vec<String>, LineFault> {
    let args = env::args(rt).map_err(|error| match error.kind() {
        ErrorKind::InvalidData => LineFault::NotText,
        _ => LineFault::Memory,
    })?;
    args.collect(rt.alloc()).map_err(|_| LineFault::Memory)
}
