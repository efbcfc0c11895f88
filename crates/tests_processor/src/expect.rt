//! What tests compare with, a function of its own: a comparison that stands in the test itself takes several times as
//! long to prove.
use std::fmt::Debug;
use std::process::Abort;

/// Ends the test, and shows both, where they are not the same.
pub fn expect_same<T: PartialEq + Debug + Drop>(rt: &impl Abort, got: T, want: T) {
    assert_eq!(rt; got, want);
}
