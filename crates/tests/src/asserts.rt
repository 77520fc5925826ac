//! Assertions that are one call each, because each branch in a test, as `?` and those of std have, makes its proof longer.

ghost use Rattle.std.specs.Prelude.{◌≡◌, true};

use std::fmt::Debug;
use std::panic::assert_failed;
use std::process::Abort;

/// Asserts that two values are equal.
macro_rules! assert_same {
    ($rt:expr; $got:expr, $wanted:expr $(,)?) => {
        $crate::asserts::same(&$rt, concat!(": ", stringify!($got)), &$got, &$wanted)
    };
}

pub(crate) use assert_same;

/// Asserts that a condition holds, and code after it may rely on that.
macro_rules! assert_holds {
    ($rt:expr; $condition:expr $(,)?) => {
        $crate::asserts::holds(&$rt, stringify!($condition), $condition)
    };
}

pub(crate) use assert_holds;

/// Asserts that the two are equal. The note follows the first words of a failure.
pub(crate) fn same<T: PartialEq + Debug>(rt: &impl Abort, note: &str, got: &T, wanted: &T) {
    if got != wanted {
        assert_failed(rt, "==", got, wanted, note)
    }
}

/// Asserts that the condition holds.
pub(crate) fn holds(rt: &impl Abort, condition: &str, is_true: bool)
    ensures { is_true ≡ true }
{
    if !is_true {
        rt.panic(condition)
    }
}

/// Returns the value of an answer that has to be Ok. The prover is told nothing of the value: if it has to know
/// more, use `expect`.
pub(crate) fn ok<T, E: Debug + Drop>(rt: &impl Abort, answer: Result<T, E>) -> T {
    match answer {
        Ok(value) => value,
        Err(error) => rt.panic(format_args!("{error:?}")),
    }
}

/// Returns the value that has to be there. The prover is told nothing of it.
pub(crate) fn some<T>(rt: &impl Abort, answer: Option<T>) -> T {
    match answer {
        Some(value) => value,
        None => rt.panic("None"),
    }
}
