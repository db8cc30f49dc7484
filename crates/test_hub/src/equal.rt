//! What all tests compare with: the texts of a failure are proved here once, and not at each comparison.
use std::fmt::Debug;
use std::process::Abort;

// Both values are shown where they differ.
pub fn equal<T: PartialEq + Debug + Drop>(rt: &impl Abort, got: T, want: T) {
    assert_eq!(rt; got, want);
}

// The same of a row of a table, which is shown too.
pub fn equal_at<L: Debug, T: PartialEq + Debug + Drop>(rt: &impl Abort, row: &L, got: T, want: T) {
    assert_eq!(rt; got, want, "at {row:?}");
}
