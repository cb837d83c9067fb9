// What these tests expect of a value. An assertion has many locals, and each step of a function is
// proved beside all of them: so it stands here, once.
use std::fmt::Debug;
use std::process::Abort;

// Both values are the same.
pub(crate) fn same<T: PartialEq + Debug + Drop>(rt: &impl Abort, got: T, want: T) {
    assert_eq!(rt; got, want);
}
