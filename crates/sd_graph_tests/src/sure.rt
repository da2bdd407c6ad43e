//! What calls give in tests, without an error.
use std::process::Abort;

/// What a call gives; the test ends where it gives an error.
pub(crate) fn sure<T, E: Drop>(rt: &impl Abort, given: Result<T, E>) -> T {
    match given {
        Ok(value) => value,
        Err(_) => panic!(rt; "no memory"),
    }
}
