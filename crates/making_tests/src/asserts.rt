//! What ends a test. It stands here once, since these macros make each function in which they stand slow to check.
use std::process::Abort;

/// Ends the test if this does not hold.
pub(crate) fn must_hold(rt: &impl Abort, holds: bool, what: &str) {
    assert!(rt; holds, "{what}");
}

/// Ends the test if another text was said, or none for lack of memory.
pub(crate) fn must_say(rt: &impl Abort, said: &Option<String>, expected: &str) {
    let said = match said {
        Some(said) => said.as_str(),
        None => "nothing",
    };
    assert_eq!(rt; said, expected);
}
