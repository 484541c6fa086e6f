//! What every assertion on two values says, and a value's text.

use std::alloc::Global;
use std::fmt::Debug;
use std::process::Abort;
use std::test::Fail;

/// Asserts that both are equal, and else says of what, with both.
pub(crate) fn same<T: PartialEq + Debug>(rt: &impl Abort, given: &T, wanted: &T, what: &str) {
    assert!(rt; *given == *wanted, "{what}: {given:?}, not {wanted:?}");
}

/// A value as text.
pub(crate) fn text_of<T: Debug>(alloc: Global, value: &T) -> Result<String, Fail> {
    Ok(format!(in alloc; "{value:?}")?)
}
