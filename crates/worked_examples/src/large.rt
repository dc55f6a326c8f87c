//! A group of 10,000 alternatives, a package with 20,000 groups, and many line feeds.

use crate::example::{EMPTY_REPORT, example_of, gives, gives_on};
use devices::{DeviceFault, Source};
use std::alloc::{AllocError, Global};
use std::thread::Threads;

/// A package whose need has the alternatives `n0 | n1 | .. | n9999`, and the report on it alone.
fn alternatives_alone(alloc: Global) -> Result<(String, String), AllocError> {
    let mut text = String::from_str(alloc, "a 1 {Depends: n0")?;
    let mut report = String::from_str(alloc, "a 1: broken {missing: a 1 Depends: n0")?;
    for number in 1..10_000 {
        write!(text, " | n{number}")?;
        write!(report, " | n{number}")?;
    }
    text.push('}')?;
    report.push_str("}\nstanzas 1, skipped 0, duplicates 0, asked 1, broken 1")?;
    Ok((text, report))
}

/// The package, and each of its alternatives.
fn alternatives_met(alloc: Global) -> Result<(String, String), AllocError> {
    let (mut text, _) = alternatives_alone(alloc)?;
    for number in 0..10_000 {
        write!(text, " / n{number} 1")?;
    }
    let report = "a 1: ok {a 1 / n9999 1}
stanzas 10001, skipped 0, duplicates 0, asked 1, broken 0";
    Ok((text, String::from_str(alloc, report)?))
}

/// A package with the groups `x0 | y0, .. , x19999 | y19999`, and both alternatives of each. The last alternative of each group is in the set.
fn groups_met(alloc: Global) -> Result<(String, String), AllocError> {
    let mut text = String::from_str(alloc, "p 1 {Depends: x0 | y0")?;
    for number in 1..20_000 {
        write!(text, ", x{number} | y{number}")?;
    }
    text.push('}')?;
    let mut report = String::from_str(alloc, "p 1: ok {p 1")?;
    for number in 0..20_000 {
        write!(text, " / x{number} 1 / y{number} 1")?;
        write!(report, " / y{number} 1")?;
    }
    report.push_str("}\nstanzas 40001, skipped 0, duplicates 0, asked 1, broken 0")?;
    Ok((text, report))
}

/// Whether there are both, and the run gives this report on the asked package of the text.
fn gives_report(
    rt: &(impl Threads + Sync + AllocGlobal),
    words: &str,
    status: u8,
    made: Result<(String, String), AllocError>,
) -> bool {
    let Ok((text, report)) = made else {
        return false;
    };
    let example = example_of(words, status, text.as_str(), report.as_str());
    gives(rt, rt.alloc(), "", &example)
}

#[test]
fn one_group_of_many_alternatives(rt: HostRuntime) {
    let words = "--arch amd64 --explain --checkonly a";
    assert!(rt; gives_report(&rt, words, 1, alternatives_alone(rt.alloc())));
    assert!(rt; gives_report(&rt, words, 0, alternatives_met(rt.alloc())));
}

#[test]
fn many_groups_of_two_alternatives(rt: HostRuntime) {
    let words = "--arch amd64 --explain --checkonly p";
    assert!(rt; gives_report(&rt, words, 0, groups_met(rt.alloc())));
}

/// Gives so many line feeds, as many a call as there is room for.
#[derive(Drop)]
pub struct Feeds {
    left: usize,
    failed: bool,
}

impl Feeds {
    ghost use Rattle.std.specs.Prelude.{◌≡◌, false};

    /// Nothing read yet.
    pub fn new(count: usize) -> Feeds
        ensures { result.failed ≡ false }
    {
        Feeds {
            left: count,
            failed: false,
        }
    }
}

impl Source for Feeds {
    ghost use Rattle.std.specs.Prelude.{None};

    ghost remaining = { λ _. None };

    ghost failed = { λ s. s.failed };

    fn read_some(&mut self, buf: &mut [u8]) -> Result<usize, DeviceFault> {
        let count = self.left.min(buf.len());
        buf[..count].fill(b'\n');
        self.left -= count;
        Ok(count)
    }
}

#[test]
fn line_feeds_alone_are_an_empty_index(rt: HostRuntime) {
    let mut reader = Feeds::new(268_435_457);
    let example = example_of("--arch amd64 --explain", 0, "", EMPTY_REPORT);
    assert!(rt; gives_on(&rt, rt.alloc(), "", &mut reader, &example));
}
