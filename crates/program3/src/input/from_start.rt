//! A reader of a file that is read at other offsets as well.

use std::io;
use std::io::Read;
use std::os::unix::fs::FileExt;

/// Reads a file from its first byte on, by offsets. The file's own position stays as it is.
#[derive(Drop)]
pub struct FromStart<'a, F> {
    file: &'a F,
    at: u64,
}

impl<'a, F: FileExt> FromStart<'a, F> {
    /// Returns a reader of this file, of which nothing was read yet.
    pub fn new(file: &'a F) -> FromStart<'a, F> {
        FromStart { file, at: 0 }
    }
}

impl<F: FileExt> Read for FromStart<'_, F> {
    ghost use Rattle.std.specs.Prelude.{None};

    ghost remaining = { λ _. None };

    fn read(&mut self, buf: &mut [u8]) -> io::Result<usize> {
        let count = self.file.read_at(buf, self.at)?;
        self.at = self.at.saturating_add(count as u64);
        Ok(count)
    }
}
