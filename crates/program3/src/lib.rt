//! What the programs of this repository share: the files that they open and write, and what they print.
#![tactic(auto)]

mod files;
mod hashing;
mod input;
mod outcome;
mod output;
mod reading;
mod reports;
mod rewriting;
mod system;

pub use files::{Files, Made};
pub use hashing::{SecretHasher, hashers};
pub use input::arguments::words;
pub use input::from_start::FromStart;
pub use input::opening::{OpenError, counting_failure, open_failure, open_file};
pub use input::retried::Retried;
pub use outcome::{Ended, Outcome, Report};
pub use output::destination::Destination;
pub use output::identity::{FileIdentity, if_there};
pub use output::place::OutputPlace;
pub use output::rights::permissions;
pub use output::writing::{WRITTEN_AT_ONCE, write_out};
pub use reading::{Closed, Opened, Readings};
pub use reports::ending::{Exit, print_ended, report_ended};
pub use reports::printed::{on_standard_error, report, side_name};
pub use rewriting::{Rewriting, finish_file, run_rewriting, write_form};
pub use system::System;
