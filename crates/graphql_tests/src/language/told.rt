//! What the tests share: each text that is told is the one that is wanted.

use std::process::Abort;

/// Asserts which text is told.
pub(crate) fn check<E>(rt: &impl Abort, told: Result<String, E>, wanted: &str) -> Result<(), E> {
    let told = told?;
    assert_eq!(rt; told.as_str(), wanted);
    Ok(())
}
