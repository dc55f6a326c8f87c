//! Checks the Packages index on standard input, with the background in a file where one is named: the report goes to standard output, the line of a
//! fault to standard error.
#![tactic(auto)]

use std::process::ExitCode;

fn main(rt: HostRuntime) -> ExitCode {
    debcheck::run_process(&rt, rt.stdin(), rt.stdout(), rt.stderr())
}
