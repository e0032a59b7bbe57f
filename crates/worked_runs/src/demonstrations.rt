//! The demonstration of a number.

use crate::runs::{done, ends_for_both, failing_store};
use cohere_core::Status;
use std::test::Fail;

// The answers over the relation of 7, on 23 points.
const SEVEN: &[u8] = b"demo 7 points 23
tests homogeneous yes symmetric no commutative yes thin yes primitive yes
ok points 23 rank 529
ok points 23 rank 23
ok points 23 rank 23
tests homogeneous yes symmetric no commutative yes thin yes primitive yes
ok points 23 rank 529
ok points 23 rank 529
check accepted points 23 rank 529 stages 3
";

// No file is read: a store whose first call would fail is never called.
#[test]
fn the_demonstration_of_seven(rt: HostRuntime) -> Result<(), Fail> {
    let mut store = failing_store(rt.alloc(), &[], 0)?;
    assert_eq!(rt; Status::Done.code(), 0);
    ends_for_both(&rt, rt.alloc(), 0, &["demo", "7"], &mut store, done(SEVEN))
}
