//! One test for each call that can want memory; trials/growths runs them with each growth of memory refused in turn.

use crate::pieces::{TEXT, comes_to};
use crate::whole_texts::told_by;
use deb_input::{RunFault, fault_line, read_all, read_names};
use std::alloc::AllocError;
use std::process::Abort;
use test_devices::source_of;

/// Three bytes where three are allowed, one more, and a reader that fails.
#[test]
fn of_read_all(rt: HostRuntime) -> Result<(), AllocError> {
    for (text, fails, wanted, reads) in READS {
        expect_read(&rt, text, fails, wanted, reads)?;
    }
    Ok(())
}

/// A text, whether its reader fails, what reading it comes to, and in how many reads.
const READS: [(&str, bool, &str, u32); 3] = [
    ("abc", false, "abc", 4),
    ("abcd", false, "too long", 4),
    ("abc", true, "failed", 4),
];

/// What reading to the end with a limit of three bytes comes to.
fn expect_read(
    rt: &(impl Abort + AllocGlobal),
    text: &str,
    fails: bool,
    wanted: &str,
    reads: u32,
) -> Result<(), AllocError> {
    let mut reader = source_of(text.as_bytes(), 1);
    reader.fails = fails;
    let outcome = read_all(rt.alloc(), &mut reader, 3);
    let told = told_by(&outcome);
    let lacks_memory = told == b"no memory".as_slice();
    let is_wanted = told == wanted.as_bytes();
    drop(outcome);
    if lacks_memory {
        assert!(rt; !reader.failed);
        return Err(AllocError);
    }
    assert!(rt; is_wanted && reader.reads == reads, "{wanted}");
    Ok(())
}

/// A text in many pieces.
#[test]
fn of_read_text(rt: HostRuntime) -> Result<(), AllocError> {
    let told = comes_to(&rt, &mut source_of(TEXT, 11), 1);
    if told == "no memory" {
        return Err(AllocError);
    }
    assert!(rt; told == "the text");
    Ok(())
}

const UNKNOWN_LINE: &[u8] = b"debcheck: unknown package zz\n";

#[test]
fn of_fault_line(rt: HostRuntime) -> Result<(), AllocError> {
    let name = Vec::from_slice(rt.alloc(), b"zz")?;
    let fault = RunFault::UnknownAsked { name };
    let line = fault_line(rt.alloc(), &fault);
    drop(fault);
    assert!(rt; line?.as_slice() == UNKNOWN_LINE);
    Ok(())
}

/// Two names; the text and each name want memory.
#[test]
fn of_read_names(rt: HostRuntime) -> Result<(), AllocError> {
    let names = read_names(rt.alloc(), &mut source_of(b"libc6\ndpkg\n", 4));
    let count = match &names {
        Ok(names) => names.len(),
        Err(RunFault::Memory) => 0,
        Err(_) => 9,
    };
    drop(names);
    if count == 0 {
        return Err(AllocError);
    }
    assert!(rt; count == 2);
    Ok(())
}
