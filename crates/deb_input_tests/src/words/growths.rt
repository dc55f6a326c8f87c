//! A test of the call that can want memory; trials/growths runs it with each growth refused in turn.

use crate::words::asking::expect_table;
use std::alloc::AllocError;

/// An architecture alone, no words, and four lines that are refused.
const LINES: &str = "|--arch|amd64 => amd64
 => amd64, explain
|--workers|2 => |error:
|--arch|all => |error:
|--arch|amd64|--workers|65 => |error:
|--arch|amd64|--checkonly|a,,b => |error:";

#[test]
fn of_read_line(rt: HostRuntime) -> Result<(), AllocError> {
    expect_table(&rt, LINES)
}
