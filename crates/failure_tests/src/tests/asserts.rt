//! What ends a test. It stands here once, since this macro makes each function in which it stands slow to check.
use std::process::Abort;

/// Ends the test if this does not hold.
pub fn must_hold(rt: &impl Abort, holds: bool, what: &str) {
    assert!(rt; holds, "{what}");
}
