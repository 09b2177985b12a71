//! Comparing what was found with what is wanted.
use std::fmt::Debug;
use std::process::Abort;

/// Ends the test with the name of the row if what was found is not what is wanted.
pub fn same<T: PartialEq + Debug>(rt: &impl Abort, row: &str, found: &[T], wanted: &[T]) {
    assert_eq!(rt; found, wanted, "{row}");
}
