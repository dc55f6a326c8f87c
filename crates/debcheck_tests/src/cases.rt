//! Runs as cases: what is set and read, and what is written of it.

ghost use Rattle.std.specs.Prelude.{◌≡◌, ◌<◌, ◌≤◌, IfOk, false};

use deb_input::RunFault;
use deb_report::Summary;
use debcheck::{Job, run, run_since, status};
use run_settings::{Config, Show};
use std::alloc::{AllocError, Global};
use std::process::Abort;
use std::thread::Threads;
use test_devices::{Feed, Held, sink_with_room, source_of};
use test_texts::report_of;
use work_draw::{Gate, OpenGate};

/// Which reader fails behind its text.
#[derive(Clone, Copy)]
pub enum Torn {
    None,
    Index,
    Background,
    Earlier,
}

/// The settings that are not the usual ones in each run.
#[derive(Clone, Copy)]
pub struct Settings {
    pub workers: u32,
    pub chunk: u32,
    pub show: Show,
    pub explain: bool,
    pub all_reasons: bool,
}

/// Two workers with chunks of one, else as usual.
pub const BY_TWO: Settings = Settings {
    workers: 2,
    chunk: 1,
    show: Show::All,
    explain: true,
    all_reasons: false,
};

/// A run, and what it comes to.
#[derive(Clone, Copy)]
pub struct Case<'a> {
    pub name: &'static str,
    pub settings: Settings,
    pub index: &'a [u8],
    pub background: Option<&'a [u8]>,
    /// The run is since this index, where there is one.
    pub earlier: Option<&'a [u8]>,
    /// How many bytes come at each read.
    pub step: usize,
    pub torn: Torn,
    /// How many of the three texts are read: the first ones.
    pub begun: u32,
    /// How many bytes are taken at each write, and at which the writer fails.
    pub room: usize,
    pub fails_at: u32,
    /// The report, as `report_of` makes it of lines, of which a writer that fails has the front; nothing is written where there are none.
    pub written: &'a str,
    pub status: u8,
    /// Words for a fault of a text.
    pub told: &'static str,
    /// The numbers of a report that was written to its end.
    pub summary: Option<Summary>,
}

/// Nothing is broken in no text.
pub const EMPTY: Case<'static> = Case {
    name: "no text",
    settings: BY_TWO,
    index: b"",
    background: None,
    earlier: None,
    step: 1,
    torn: Torn::None,
    begun: 1,
    room: 1,
    fails_at: 0,
    written: "stanzas 0, skipped 0, duplicates 0, asked 0, broken 0",
    status: 0,
    told: "",
    summary: Some(NOTHING),
};

/// The numbers of a report on no text.
pub const NOTHING: Summary = Summary {
    stanzas: 0,
    skipped: 0,
    duplicates: 0,
    background: 0,
    asked: 0,
    broken: 0,
    newly_broken: None,
};

/// A name for the background, where there is one.
fn background_name(alloc: Global, case: &Case<'_>) -> Result<Option<String>, AllocError> {
    match case.background {
        Some(_) => Ok(Some(String::from_str(alloc, "others")?)),
        None => Ok(None),
    }
}

pub fn config_of(alloc: Global, case: &Case<'_>) -> Result<Config, AllocError>
    ensures workers { IfOk result (λ config. (0 < config.workers) × (config.workers ≤ 64)) }
    ensures chunk { IfOk result (λ config. 0 < config.chunk) }
{
    let bg = background_name(alloc, case)?;
    let mut config = Config::usual(alloc)?;
    config.bg = bg;
    set(&mut config, case.settings);
    Ok(config)
}

fn set(config: &mut Config, settings: Settings)
    ensures workers { (0 < config.new.workers) × (config.new.workers ≤ 64) }
    ensures chunk { 0 < config.new.chunk }
{
    config.workers = settings.workers.clamp(1, 64);
    config.chunk = settings.chunk.max(1);
    config.show = settings.show;
    config.explain = settings.explain;
    config.all_reasons = settings.all_reasons;
}

/// A reader that was not read yet.
fn feed(text: &[u8], step: usize, torn: bool) -> Feed<'_>
    ensures { result.failed ≡ false }
{
    let mut source = source_of(text, step);
    source.fails = torn;
    source
}

/// What the run comes to behind a gate, and how many of its readers were read. Nothing is read in the place of a background where there is none.
pub fn outcome_of(
    rt: &(impl Threads + Sync + AllocGlobal),
    config: &Config,
    case: &Case<'_>,
    gate: &(impl Gate + Sync),
    output: &mut Held,
) -> (Result<Summary, RunFault>, u32)
    requires workers { (0 < config.now.workers) × (config.now.workers ≤ 64) }
    requires chunk { 0 < config.now.chunk }
    requires output { output.old.failed ≡ false }
{
    let alloc = rt.alloc();
    let mut index = feed(case.index, case.step, matches!(case.torn, Torn::Index));
    let behind = case.background.unwrap_or(b"");
    let fails = case.background.is_none() || matches!(case.torn, Torn::Background);
    let mut background = feed(behind, case.step, fails);
    let before = case.earlier.unwrap_or(b"");
    let mut earlier = feed(before, case.step, matches!(case.torn, Torn::Earlier));
    let outcome = if case.earlier.is_some() {
        let job = Job {
            rt,
            alloc,
            config,
            gate,
            is_last: false,
        };
        run_since(&job, &mut index, &mut background, &mut earlier, output)
    } else {
        run(rt, alloc, config, &mut index, &mut background, output, gate)
    };
    let begun = index.reads.min(1) + background.reads.min(1) + earlier.reads.min(1);
    (outcome, begun)
}

/// Words for a fault of a text; nothing of any other outcome.
fn told_by(outcome: &Result<Summary, RunFault>) -> &'static [u8] {
    match outcome {
        Err(RunFault::Earlier(_)) => b"a fault of the earlier index",
        Err(RunFault::Read) => b"index",
        Err(RunFault::BackgroundRead) => b"background",
        Err(RunFault::EarlierRead) => b"earlier",
        _ => b"",
    }
}

/// What is written of a report by the writer of the case.
fn taken<'a>(case: &Case<'_>, report: &'a str) -> &'a [u8] {
    let report = report.as_bytes();
    match case.fails_at.checked_sub(1) {
        Some(calls) => &report[..case.room.saturating_mul(calls as usize).min(report.len())],
        None => report,
    }
}

/// Whether the run came to what the case says, with this report.
fn fits(case: &Case<'_>, outcome: &Result<Summary, RunFault>, output: &Held, report: &str) -> bool {
    let numbers = match outcome {
        Ok(summary) => output.flushed && case.summary == Some(*summary),
        Err(_) => case.summary.is_none(),
    };
    numbers
        && output.bytes.as_slice() == taken(case, report)
        && status(outcome) == case.status
        && told_by(outcome) == case.told.as_bytes()
}

/// The report of a case, perhaps none.
fn report_in(alloc: Global, case: &Case<'_>) -> Result<String, AllocError> {
    if case.written.is_empty() {
        return Ok(String::new(alloc));
    }
    report_of(alloc, case.written)
}

fn expect_under(
    rt: &(impl Abort + Threads + Sync + AllocGlobal),
    config: &Config,
    case: &Case<'_>,
) -> Result<(), AllocError>
    requires workers { (0 < config.now.workers) × (config.now.workers ≤ 64) }
    requires chunk { 0 < config.now.chunk }
{
    let report = report_in(rt.alloc(), case)?;
    let mut output = sink_with_room(rt.alloc(), case.room, case.fails_at)?;
    let (outcome, begun) = outcome_of(rt, config, case, &OpenGate, &mut output);
    if matches!(outcome, Err(RunFault::Memory)) {
        assert!(rt; output.calls == 0 && output.bytes.is_empty() && status(&outcome) == 69);
        return Err(AllocError);
    }
    assert!(rt; fits(case, &outcome, &output, &report), "{}", case.name);
    assert!(rt; begun == case.begun, "the readers of {}", case.name);
    Ok(())
}

/// The run comes to what the case says, or wants memory with nothing written.
pub fn expect(
    rt: &(impl Abort + Threads + Sync + AllocGlobal),
    case: &Case<'_>,
) -> Result<(), AllocError> {
    let config = config_of(rt.alloc(), case)?;
    let outcome = expect_under(rt, &config, case);
    drop(config);
    outcome
}

/// The run comes to what the case says.
pub fn expect_answer(rt: &(impl Abort + Threads + Sync + AllocGlobal), case: &Case<'_>) {
    assert!(rt; expect(rt, case).is_ok(), "no memory for {}", case.name);
}
