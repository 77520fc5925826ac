//! Errors that are passed on.

/// Evaluates to what is in an `Ok`, and returns from the function with any error, as `?` does. Where
/// a slice is in the `Ok`, `?` moves it through memory in two parts, for which the next read waits.
#[macro_export]
macro_rules! pass {
    ($result:expr) => {
        match $result {
            Ok(value) => value,
            Err(error) => return Err(From::from(error)),
        }
    };
}
