//! What is found and what is expected, compared without a clause: what the values are is seen when a test runs, and
//! nothing of it has to be proved before.

pub(crate) fn is(found: &[u8], expected: &[u8]) -> bool {
    found == expected
}

pub(crate) fn same<T: PartialEq>(found: &T, expected: &T) -> bool {
    found == expected
}
