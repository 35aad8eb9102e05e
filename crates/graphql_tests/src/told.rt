//! What the tests share: each text that is told is the one that is wanted.

use std::fmt::Debug;
use std::process::Abort;

/// Asserts which text is told.
///
/// No test answers a result, and none but this and `expect` has a way out, so that nothing has to
/// be let go in the midst of a test, and a test is one function to prove.
pub(crate) fn check<E: Debug>(rt: &impl Abort, told: Result<String, E>, wanted: &str) {
    let told = told.expect(rt, "memory");
    assert_eq!(rt; told.as_str(), wanted);
}
