//! The line of progress: when it is written, what it says, and that it is taken away.

use debcheck::Progress;
use run_settings::Config;
use std::process::Abort;
use test_devices::{Screen, clock_of};
use work_draw::Gate;

/// A check: how many packages there are, chunks that are done of them, and the milliseconds from one step of it to the next. A line, and how often it and
/// how often others are written.
type Check = (u32, &'static [u32], u64, &'static [u8], [u32; 2]);

const TEN: &[u32] = &[0, 1, 2, 3, 4, 5, 6, 7, 8, 9];

/// A number has commas. The last of two chunks is a small one, and no more are counted than there are. None is written in the first second, then one in
/// each fifth of a second.
static CHECKS: [Check; 16] = [
    (1, &[], 1_200, b"\r0 of 1 packages checked", [1, 0]),
    (999, &[], 1_200, b"\r0 of 999 packages checked", [1, 0]),
    (
        76_808,
        &[],
        1_200,
        b"\r0 of 76,808 packages checked",
        [1, 0],
    ),
    (
        1_000_000,
        TEN,
        1_200,
        b"\r640 of 1,000,000 packages checked",
        [1, 10],
    ),
    (
        u32::MAX,
        &[],
        1_200,
        b"\r0 of 4,294,967,295 packages checked",
        [1, 0],
    ),
    (100, &[0], 1_200, b"\r64 of 100 packages checked", [1, 1]),
    (
        100,
        &[0, 1],
        1_200,
        b"\r100 of 100 packages checked",
        [1, 2],
    ),
    (100, &[1], 1_200, b"\r36 of 100 packages checked", [1, 1]),
    (
        100,
        &[1, 0],
        1_200,
        b"\r100 of 100 packages checked",
        [1, 2],
    ),
    (5, &[0, 1], 1_200, b"\r5 of 5 packages checked", [2, 1]),
    (640, TEN, 0, b"", [0, 0]),
    (640, TEN, 109, b"", [0, 0]),
    (640, TEN, 110, b"", [0, 1]),
    (640, TEN, 150, b"", [0, 3]),
    (640, TEN, 200, b"", [0, 6]),
    (640, TEN, 5_000, b"", [0, 11]),
];

/// What a screen has seen of a check: the lines of its text, those of others, and whether one stands there.
fn shown(rt: &impl AllocGlobal, screen: &Screen<'_>, config: &Config, check: &Check) -> [u32; 3] {
    let (all, chunks, step, _, _) = *check;
    let clock = clock_of(rt, step);
    let progress = Progress::new(&clock, screen, config);
    progress.start(all);
    for number in chunks {
        progress.before(*number);
        progress.after(*number);
    }
    [screen.lines(), screen.others(), u32::from(screen.stands())]
}

fn usual(rt: &(impl Abort + AllocGlobal)) -> Config {
    Config::usual(rt.alloc()).expect(rt, "no memory")
}

#[test]
fn a_line_counts_what_is_checked(rt: HostRuntime) {
    let config = usual(&rt);
    for check in &CHECKS {
        let (all, _, step, line, [lines, others]) = *check;
        let screen = Screen::new(true, line);
        let stands = u32::from(lines + others > 0);
        assert!(rt;
            shown(&rt, &screen, &config, check) == [lines, others, stands],
            "{all}, {step} milliseconds"
        );
    }
}

/// Neither of a check nor of the reading, where the screen is no terminal, or quiet is asked for.
#[test]
fn nothing_is_told_where_nobody_looks(rt: HostRuntime) {
    let mut config = usual(&rt);
    for is_quiet in [false, true] {
        config.quiet = is_quiet;
        let screen = Screen::new(is_quiet, b"");
        let clock = clock_of(&rt, 0);
        Progress::new(&clock, &screen, &config).tell_reading(true);
        let check = &CHECKS[CHECKS.len() - 1];
        assert!(rt; screen.others() == 0 && shown(&rt, &screen, &config, check) == [0, 0, 0]);
    }
}

/// The count of an index begins anew behind that of an earlier one, whose line is taken away: it may be longer.
fn expect_own_count(rt: &(impl Abort + AllocGlobal), config: &Config) {
    let screen = Screen::new(true, b"\r0 of 2 packages checked");
    let clock = clock_of(rt, 1_200);
    let progress = Progress::new(&clock, &screen, config);
    progress.start(76_808);
    progress.after(0);
    progress.start(2);
    assert!(rt; [screen.lines(), screen.others(), screen.ends_left()] == [1, 2, 0]);
}

/// A line is taken away once, also the longest that there is, of one large chunk.
fn expect_wiped(rt: &(impl Abort + AllocGlobal), config: &Config) {
    let screen = Screen::new(true, b"\r4,294,967,295 of 4,294,967,295 packages checked");
    let clock = clock_of(rt, 1_200);
    let progress = Progress::new(&clock, &screen, config);
    let before = screen.stands();
    progress.start(u32::MAX);
    progress.after(0);
    let then = screen.stands();
    progress.end();
    let stood = [before, then, screen.stands()];
    assert!(rt; stood == [false, true, false] && screen.lines() == 1 && screen.ends_left() == 0);
}

/// What is told while the index is read, and where it is typed on a terminal.
static READING: [(bool, &[u8]); 2] = [
    (false, b"\rreading the index"),
    (
        true,
        b"\rreading the index from the terminal (debcheck .. < Packages)",
    ),
];

/// At once, and until the check begins; then it is gone.
fn expect_reading(rt: &(impl Abort + AllocGlobal), config: &Config, is_typed: bool, line: &[u8]) {
    let screen = Screen::new(true, line);
    let clock = clock_of(rt, 0);
    let progress = Progress::new(&clock, &screen, config);
    progress.tell_reading(is_typed);
    let then = screen.stands();
    progress.start(5);
    let counts = [screen.lines(), screen.others(), screen.ends_left()];
    assert!(rt; then && !screen.stands() && counts == [1, 0, 0]);
}

#[test]
fn a_line_is_taken_away(rt: HostRuntime) {
    let mut config = usual(&rt);
    expect_own_count(&rt, &config);
    for (is_typed, line) in &READING {
        expect_reading(&rt, &config, *is_typed, *line);
    }
    config.chunk = u32::MAX;
    expect_wiped(&rt, &config);
}
