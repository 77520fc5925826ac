//! A writer that keeps a trail of what its writes took.

ghost use Rattle.std.specs.Prelude.{◌≡◌, [], Some};

use capture3::Trail;
use std::io;
use std::io::Write;
use std::marker::Model;

/// A writer over any other, such as a file, which exposes to clauses the bytes that the other's writes took.
/// They are kept nowhere, and only clauses read them.
#[derive(Drop)]
pub struct Traced<W> {
    writer: W,
    taken: Trail,
}

impl<W> Model for Traced<W> {
    ghost use Rattle.canon3.specs.Traced.{TracedWriter};

    ghost Value = { TracedWriter W };

    ghost view = { λ t. record { device = t.writer; taken = t.taken.bytes } };
}

impl<W: Write> Traced<W> {
    /// Returns a writer over one whose writes took nothing yet.
    pub fn new(writer: W) -> Traced<W>
        ensures { result ≡ record { device = writer; taken = [] } }
    {
        Traced {
            writer,
            taken: Trail::new(),
        }
    }

    /// Returns the writer.
    pub fn inner(&self) -> &W
        ensures { result.now ≡ self.now.device }
    {
        &self.writer
    }
}

impl<W: Write> Write for Traced<W> {
    ghost contents = { λ t. Some t.taken };

    fn write(&mut self, buf: &[u8]) -> io::Result<usize> {
        match self.writer.write(buf) {
            Ok(count) => {
                self.taken.note(&buf[..count]);
                Ok(count)
            }
            Err(error) => Err(error),
        }
    }

    fn flush(&mut self) -> io::Result<()> {
        self.writer.flush()
    }
}
