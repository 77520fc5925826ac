//! What came of a job, and what the program prints.

ghost use Rattle.std.specs.Prelude.{◌≡◌, false};

use canon3::{MessageCounts, SameError, Summary, Verdict};
use capture3 as captures;
use line3::LineFault;

/// What came of a job.
#[derive(Debug, Drop)]
pub enum Outcome {
    /// A capture was read to its end and counted, or its first fault or a failure met.
    Counted(Result<Summary, captures::Error>),
    /// A capture was masked and counted. The text is the words that tell the mask, each with a space before it.
    Masked(Summary, String),
    /// A capture was listed, or its first fault or a failure met.
    Listed(Result<MessageCounts, captures::Error>),
    /// Two captures were compared, or a fault or a failure met.
    Compared(Result<Verdict, SameError>),
    /// Streams were packed, or a limit or a failure met.
    Packed(Result<(), captures::Error>),
    /// A file of this name could not be opened or made.
    Unopened(String),
    /// A file that is read by offsets is no regular file, such as a pipe.
    Irregular,
    /// The program made the report itself.
    Told(Report),
    /// The command line is refused.
    Line(LineFault),
}

/// What came of a job that may write a file.
#[derive(Debug, Drop)]
pub struct Ended {
    pub outcome: Outcome,
    /// Standard output has the bytes of the file, so the line of the job goes to standard error.
    pub is_aside: bool,
}

impl Ended {
    /// The end of a job with this outcome that has written no file to standard output.
    pub fn of(outcome: Outcome) -> Ended
        ensures { result ≡ record { outcome = outcome; is_aside = false } }
    {
        Ended {
            outcome,
            is_aside: false,
        }
    }
}

/// What the program prints, and its exit status.
#[derive(Debug, Drop)]
pub struct Report {
    pub status: u8,
    pub out: Vec<u8>,
    pub err: Vec<u8>,
}
