//! Solve on small rules.

use super::solving::solve;
use super::workspace::Workspace;
use rules::{Free, Reply};
use std::test::Fail;

#[test]
fn answers_one_touch_late(rt: HostRuntime) -> Result<(), Fail> {
    let mut workspace = Workspace::new(rt.alloc())?;
    let Ok(found) = solve(
        &Reply::new(2, 2, 1, 1),
        &[Free::new(2, 2)],
        64,
        14,
        &mut workspace,
    ) else {
        return Err(Fail::new("not found"));
    };
    assert_eq!(rt; found.count, 1);
    assert_eq!(rt; found.states, 2);
    assert_eq!(rt; workspace.states[0].command, 0);
    assert_eq!(rt; workspace.states[1].command, 1);
    assert_eq!(rt; workspace.states[1].nexts[0], 0);
    Ok(())
}
