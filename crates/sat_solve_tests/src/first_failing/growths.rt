//! One test for each call that can want memory; trials/growths runs them with each growth refused in turn.

use crate::first_failing::counting::asked_for;
use std::alloc::AllocError;

#[test]
fn of_first_failing(rt: HostRuntime) -> Result<(), AllocError> {
    let asked = asked_for(rt.alloc(), &[0, 700, 1023], 0, u32::MAX)?;
    assert!(rt; asked == Some(4));
    Ok(())
}
