//! The comparisons of the tests.

use std::process::Abort;

/// Stops the test if a fact is false.
pub fn holds(rt: &impl Abort, fact: bool) {
    assert!(rt; fact);
}
