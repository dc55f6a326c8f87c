//! A program, from its words to its exit status.

ghost use Rattle.std.specs.Prelude.{◌≡◌, ◌<◌, ◌≤◌, IfErr, IfOk, OnOk, map, option_map, string_bytes, false, true};
ghost use Rattle.std.specs.Process.{exit_status};
ghost use Rattle.std.specs.Result.{result_map_both};
ghost use Rattle.run_settings.specs.Settings.{settings_of};
ghost use Rattle.deb_input.specs.Inputs.{input};
ghost use Rattle.debcheck.specs.Program.{Asks, Ends, EndsSomehow, FailsToTake, Runs, RunsBehind, RunsNamed, TakesNames};
ghost use Rattle.debcheck.specs.Run.{written};

use crate::exit_status::status;
use crate::hints::{note_input, tell_hint};
use crate::job::Job;
use crate::output::{refuse, tell_outcome};
use crate::phases::run_ending;
use crate::progress::Progress;
use crate::since::run_since;
use command_line::{LineFault, read_line, words_of};
use deb_input::{Input, RunFault, read_names};
use deb_report::Summary;
use devices::{Disk, OpenFault, Opener, Recording, Sink, Source, Std};
use run_settings::Config;
use std::alloc::Global;
use std::env::Env;
use std::fs::Files;
use std::io::{IsTerminal, Stderr, Stdin, Stdout, Write};
use std::process::ExitCode;
use std::thread::Threads;
use std::time::Clock;
use work_draw::Gate;

/// What a program ends with.
#[derive(Drop)]
pub struct Ended<K> {
    pub status: u8,
    /// What it was given for its output.
    pub output: K,
}

/// The run on an opened background. The earlier index's file is opened before anything is read.
fn run_behind<O: Opener, S: Source, B: Source, K: Sink, G: Gate + Sync, R: Threads + Sync>(
    job: &Job<'_, G, R>,
    files: &O,
    reader: &mut S,
    background: &mut B,
    output: &mut K,
) -> Result<Summary, RunFault>
    requires reader { S.failed reader.old ≡ false }
    requires background { B.failed background.old ≡ false }
    requires output { K.failed output.old ≡ false }
    ensures runs { RunsBehind (settings_of job.now.config.now) (O.named files.now) (option_map string_bytes job.now.config.now.since)
        (input (S.remaining reader.old) (S.failed reader.new)) (input (B.remaining background.old) (B.failed background.new)) (S.remaining reader.new)
        (written (K.contents output.old) (K.contents output.new) (K.failed output.new) (K.flushed output.new) (K.abandoned output.new)) result }
    ensures may_fail { IfErr result (λ fault. fault ≡ RunFault.BackgroundRead → B.may_fail background.old ≡ true) }
{
    let Some(file) = &job.config.since else {
        return run_ending(job, reader, background, output);
    };
    match files.open(file.as_str()) {
        Ok(mut earlier) => {
            let outcome = run_since(job, reader, background, &mut earlier, output);
            note_input(job.alloc, reader, &outcome, Input::Earlier, &earlier);
            outcome
        }
        Err(OpenFault::Memory) => Err(RunFault::Memory),
        Err(OpenFault::Unopened) => Err(RunFault::EarlierRead),
    }
}

/// The run under a configuration. The background's file is opened before anything is read, and before that of the earlier index.
fn open_and_run<O: Opener, S: Source, K: Sink, G: Gate + Sync, R: Threads + Sync>(
    job: &Job<'_, G, R>,
    files: &O,
    reader: &mut S,
    output: &mut K,
) -> Result<Summary, RunFault>
    requires reader { S.failed reader.old ≡ false }
    requires output { K.failed output.old ≡ false }
    ensures { Runs (settings_of job.now.config.now) (O.named files.now)
        (option_map string_bytes job.now.config.now.bg) (option_map string_bytes job.now.config.now.since)
        (input (S.remaining reader.old) (S.failed reader.new)) (S.remaining reader.new)
        (written (K.contents output.old) (K.contents output.new) (K.failed output.new) (K.flushed output.new) (K.abandoned output.new)) result }
{
    let Some(name) = &job.config.bg else {
        let mut nothing = Std::new([].as_slice());
        return run_behind(job, files, reader, &mut nothing, output);
    };
    match files.open(name.as_str()) {
        Ok(mut background) => {
            let outcome = run_behind(job, files, reader, &mut background, output);
            note_input(job.alloc, reader, &outcome, Input::Background, &background);
            outcome
        }
        Err(OpenFault::Memory) => Err(RunFault::Memory),
        Err(OpenFault::Unopened) => Err(RunFault::BackgroundRead),
    }
}

/// Takes the names that are asked out of the file that has them, where the words name one.
fn take_names<O: Opener>(alloc: Global, files: &O, config: &mut Config) -> Result<(), RunFault>
    ensures taken { OnOk result (TakesNames (O.named files.now) (option_map string_bytes config.old.only_file)
        (settings_of config.old) (settings_of config.new)) }
    ensures refused { IfErr result (FailsToTake (O.named files.now) (option_map string_bytes config.old.only_file)) }
    ensures workers { config.new.workers ≡ config.old.workers }
    ensures chunk { config.new.chunk ≡ config.old.chunk }
    ensures background { config.new.bg ≡ config.old.bg }
    ensures since { config.new.since ≡ config.old.since }
{
    let Some(list) = &config.only_file else {
        return Ok(());
    };
    match files.open(list.as_str()) {
        Ok(mut file) => {
            config.only = Some(read_names(alloc, &mut file)?);
            Ok(())
        }
        Err(OpenFault::Memory) => Err(RunFault::Memory),
        Err(OpenFault::Unopened) => Err(RunFault::NamesRead),
    }
}

/// The run under a configuration. The file of names is opened and read before all else.
fn name_and_run<O: Opener, S: Source, K: Sink, G: Gate + Sync, R: Threads + Sync + AllocGlobal>(
    rt: &R,
    config: &mut Config,
    files: &O,
    reader: &mut S,
    output: &mut K,
    gate: &G,
) -> Result<Summary, RunFault>
    requires workers { (0 < config.old.workers) × (config.old.workers ≤ 64) }
    requires chunk { 0 < config.old.chunk }
    requires reader { S.failed reader.old ≡ false }
    requires output { K.failed output.old ≡ false }
    ensures { RunsNamed (option_map string_bytes config.old.only_file) (settings_of config.old) (O.named files.now)
        (option_map string_bytes config.old.bg) (option_map string_bytes config.old.since)
        (input (S.remaining reader.old) (S.failed reader.new)) (S.remaining reader.new)
        (written (K.contents output.old) (K.contents output.new) (K.failed output.new) (K.flushed output.new) (K.abandoned output.new)) result }
{
    take_names(rt.alloc(), files, config)?;
    let job = Job {
        rt,
        alloc: rt.alloc(),
        config,
        gate,
        is_last: true,
    };
    open_and_run(&job, files, reader, output)
}

/// The configuration that the words ask for.
fn config_of(alloc: Global, words: Result<Vec<String>, LineFault>) -> Result<Config, LineFault>
    ensures asked { Asks (result_map_both (λ list. map string_bytes list.items) (λ fault. fault) words) result }
    ensures workers { IfOk result (λ config. (0 < config.workers) × (config.workers ≤ 64)) }
    ensures chunk { IfOk result (λ config. 0 < config.chunk) }
{
    match words {
        Ok(words) => read_line(alloc, words),
        Err(fault) => Err(fault),
    }
}

/// The program that checks the index in the reader under the words of a command line.
///
/// The file of names that they name is opened and read before anything else. The background is opened before the index is read, and then the
/// earlier index; where one can't be opened, that is told as a failed read of it. After a report the output has got it, flushed, and the errors have
/// got nothing. Under a fault its line, or that of want of memory, goes to the errors, and the output has got nothing, but for a front of the report
/// where it failed. Help and the version go to the output, and where it fails, that is told as of a report; a refusal goes to the errors. Of an output
/// that nobody reads any more no line is told. The status is that of `status` or of `line_status`: a line that the errors don't take changes none.
///
/// The screen may be where the errors go: the line of progress is taken away before anything else is written. Where something looks like a slip, a
/// hint is written to it behind all else, if it is a terminal and quiet isn't asked for.
pub fn run_program<
    O: Opener,
    S: Source + IsTerminal,
    K: Sink,
    E: Sink,
    T: IsTerminal + Write + Copy + Sync,
    R: Clock + Threads + Sync + AllocGlobal,
>(
    rt: &R,
    words: Result<Vec<String>, LineFault>,
    files: &O,
    reader: &mut S,
    mut output: K,
    errors: &mut E,
    screen: T,
) -> Ended<K>
    requires reader { S.failed reader.old ≡ false }
    requires output { K.failed output ≡ false }
    requires errors { E.failed errors.old ≡ false }
    ensures { Ends (result_map_both (λ list. map string_bytes list.items) (λ fault. fault) words) (O.named files.now)
        (input (S.remaining reader.old) (S.failed reader.new)) (S.remaining reader.new)
        (written (K.contents output) (K.contents result.output) (K.failed result.output) (K.flushed result.output) (K.abandoned result.output))
        (written (E.contents errors.old) (E.contents errors.new) (E.failed errors.new) (E.flushed errors.new) (E.abandoned errors.new)) result.status }
{
    match config_of(rt.alloc(), words) {
        Ok(mut config) => {
            let progress = Progress::new(rt, screen, &config);
            progress.tell_reading(reader.is_terminal());
            let outcome = name_and_run(rt, &mut config, files, reader, &mut output, &progress);
            progress.end();
            tell_outcome(rt.alloc(), errors, &outcome, output.is_abandoned());
            tell_hint(rt.alloc(), screen, &config, files, reader, &outcome);
            Ended {
                status: status(&outcome),
                output,
            }
        }
        Err(fault) => {
            let status = refuse(rt.alloc(), &mut output, errors, &fault);
            Ended { status, output }
        }
    }
}

/// The program on the words, the files and the standard streams of its process, which ends with the status of `run_program`.
pub fn run_process<R: Env + Files + Clock + Threads + Sync + AllocGlobal>(
    rt: &R,
    input: Stdin,
    output: Stdout,
    errors: Stderr,
) -> ExitCode
    ensures { EndsSomehow (exit_status result) }
{
    let ended = run_program(
        rt,
        words_of(rt),
        &Disk(rt),
        &mut Recording::new(Std::new(input)),
        Std::new(output),
        &mut Std::new(errors),
        errors,
    );
    ExitCode::from(ended.status)
}
