//! The comparisons of the tests: each is proved once, and not in each test.

use std::alloc::{AllocError, Global};
use std::fmt::Debug;
use std::process::Abort;

/// Stops the test if a value is not the expected one.
pub fn same<T: PartialEq + Debug + Drop>(rt: &impl Abort, found: T, want: T) {
    assert_eq!(rt; found, want);
}

/// Does what `same` does, and names the case.
pub fn same_in<T: PartialEq + Debug + Drop>(rt: &impl Abort, found: T, want: T, case: &str) {
    assert_eq!(rt; found, want, "{case}");
}

/// Stops the test if the text that was made is not the expected one.
pub fn says(
    rt: &impl Abort,
    found: Result<String, AllocError>,
    want: &str,
) -> Result<(), AllocError> {
    let found = found?;
    same(rt, found.as_str(), want);
    Ok(())
}

/// Stops the test if a value is not printed like this.
pub fn prints<T: Debug>(
    rt: &impl Abort,
    alloc: Global,
    value: &T,
    want: &str,
) -> Result<(), AllocError> {
    says(rt, format!(in alloc; "{value:?}"), want)
}

/// Stops the test if a fact is false.
pub fn holds(rt: &impl Abort, fact: bool) {
    assert!(rt; fact);
}

/// Does what `holds` does, and names the case.
pub fn holds_in(rt: &impl Abort, fact: bool, case: &str) {
    assert!(rt; fact, "{case}");
}
