//! A conflict that no run has, since the root of a replica isn't deleted.
use crate::setting::{expect, path_of};
use hm_report::{Conflict, Why, write_report};
use std::test::Fail;

#[test]
fn what_would_be_lost_at_the_root(rt: HostRuntime) -> Result<(), Fail> {
    let alloc = rt.alloc();
    let mut conflicts = Vec::new(alloc);
    conflicts.push(Conflict {
        path: path_of(alloc, &[])?,
        why: Why::Lost {
            kept: path_of(alloc, &["Bob"])?,
        },
    })?;
    expect(
        write_report(alloc, &conflicts)?.as_slice()
            == b"conflict / lost /\"Bob\"\nconflicts 1\n".as_slice(),
        "the line",
    )
}
