//! A run, from bytes to bytes.

ghost use Rattle.std.specs.Prelude.{◌≡◌, ◌≢◌, ◌<◌, ◌≤◌, IfErr, IfOk, None, OnOk, false, map, option_map, true};
ghost use Rattle.std.specs.Io.KnownBytes.{IsAtEnd};
ghost use Rattle.run_settings.specs.Settings.{settings_of};
ghost use Rattle.deb_report.specs.Since.{broken_view};
ghost use Rattle.deb_input.specs.Inputs.{IsReadAs, input, is_unread};
ghost use Rattle.debcheck.specs.Run.{FailsToIndex, FailsToReadBehind, ReadsAs, RunsOn, Tells, behind, written};

use crate::hints::note_unknown;
use crate::job::Job;
use crate::verdicts::check_and_tell;
use deb_index::{Index, TEXT_LIMIT};
use deb_input::{Input, RunFault, TextRead, finish, read_all, read_text, reading_text};
use deb_report::{BrokenPackage, Summary};
use devices::{Sink, Source, write_all};
use run_settings::Config;
use std::alloc::Global;
use std::mem::forget;
use std::thread::Threads;
use work_draw::Gate;

/// Gives an index back, where somebody has use for its memory.
fn let_go(index: Index, is_last: bool) {
    if is_last {
        forget(index);
    } else {
        drop(index);
    }
}

/// Reads what stands behind the index: the background, where one is asked for, else no bytes.
fn read_behind<B: Source>(
    alloc: Global,
    config: &Config,
    background: &mut B,
) -> Result<Vec<u8>, RunFault>
    requires background { B.failed background.old ≡ false }
    ensures end { OnOk result ((settings_of config.now).background ≡ true → IsAtEnd (B.remaining background.new)) }
    ensures spared { (settings_of config.now).background ≡ false → background.new ≡ background.old }
    ensures unfailed { OnOk result (B.failed background.new ≡ false) }
    ensures bytes { IfOk result (λ bytes.
        IsReadAs (behind (settings_of config.now) (input (B.remaining background.old) (B.failed background.new))) bytes.items) }
    ensures refused { IfErr result (FailsToReadBehind (behind (settings_of config.now) (input (B.remaining background.old) (B.failed background.new)))) }
    ensures may_fail { IfErr result (λ fault. fault ≡ RunFault.BackgroundRead → B.may_fail background.old ≡ true) }
{
    if config.bg.is_none() {
        return Ok(Vec::new(alloc));
    }
    match read_all(alloc, background, TEXT_LIMIT) {
        Ok(bytes) => Ok(bytes),
        Err(RunFault::Read) => Err(RunFault::BackgroundRead),
        Err(RunFault::TooLong) => Err(RunFault::BackgroundTooLong),
        Err(fault) => Err(fault),
    }
}

/// Reads an input as an index, piece by piece, and what stands behind it. What is guessed of them is noted on the reader.
pub(crate) fn read_index<S: Source, B: Source, G: Gate + Sync, R: Threads + Sync>(
    job: &Job<'_, G, R>,
    of: Input,
    reader: &mut S,
    background: &mut B,
) -> Result<(Index, Vec<u8>), RunFault>
    requires reader { S.failed reader.old ≡ false }
    requires background { B.failed background.old ≡ false }
    ensures end { OnOk result (IsAtEnd (S.remaining reader.new)) }
    ensures background_end { OnOk result ((settings_of job.now.config.now).background ≡ true → IsAtEnd (B.remaining background.new)) }
    ensures spared { (settings_of job.now.config.now).background ≡ false → background.new ≡ background.old }
    ensures unbegun { IfErr result (λ fault. is_unread fault ≡ true → background.new ≡ background.old) }
    ensures unfailed { OnOk result ((S.failed reader.new ≡ false) × (B.failed background.new ≡ false)) }
    ensures index { IfOk result (λ r. ReadsAs (settings_of job.now.config.now)
        (input (S.remaining reader.old) (S.failed reader.new)) (input (B.remaining background.old) (B.failed background.new)) r.0) }
    ensures behind { IfOk result (λ r.
        IsReadAs (behind (settings_of job.now.config.now) (input (B.remaining background.old) (B.failed background.new))) r.1.items) }
    ensures refused { IfErr result (FailsToIndex (settings_of job.now.config.now)
        (input (S.remaining reader.old) (S.failed reader.new)) (input (B.remaining background.old) (B.failed background.new))) }
    ensures may_fail { IfErr result (λ fault. fault ≡ RunFault.BackgroundRead → B.may_fail background.old ≡ true) }
    ensures read_may_fail { IfErr result (λ fault. fault ≡ RunFault.Read → S.may_fail reader.old ≡ true) }
{
    let size = reader.piece();
    let TextRead { outcome, last } = read_text(job.rt, job.alloc, job.config, reader, size)?;
    let more = match read_behind(job.alloc, job.config, background) {
        Ok(more) => more,
        Err(fault) => {
            drop(outcome);
            return Err(fault);
        }
    };
    let read = finish(job.rt, job.alloc, job.config, outcome, more.as_slice());
    let (piece, behind) = (last.as_slice(), more.as_slice());
    reader.note(reading_text(job.alloc, job.config, of, &read, piece, behind));
    let index = read?;
    Ok((index, more))
}

/// Checks the asked places of an index, writes the report and flushes. The index is let go; what a name is that is asked in vain, is noted on the reader.
pub(crate) fn report_and_write<S: Source, K: Sink, G: Gate + Sync, R: Threads + Sync>(
    job: &Job<'_, G, R>,
    reader: &S,
    index: Index,
    before: Option<&[BrokenPackage]>,
    writer: &mut K,
) -> Result<Summary, RunFault>
    requires writer { K.failed writer.old ≡ false }
    ensures tells { Tells (option_map (λ list. map broken_view list.now) before.entry) (settings_of job.now.config.now) index
        (written (K.contents writer.old) (K.contents writer.new) (K.failed writer.new) (K.flushed writer.new) (K.abandoned writer.new)) result }
    ensures untouched { IfErr result (λ fault. fault ≢ RunFault.Write → writer.new ≡ writer.old) }
{
    let told = check_and_tell(job, &index, before);
    note_unknown(job.alloc, reader, &index, &told);
    let_go(index, job.is_last);
    let (output, summary) = told?;
    match write_all(writer, output.as_slice()) {
        Ok(()) => Ok(summary),
        Err(_) => Err(RunFault::Write),
    }
}

/// `run`, which ends as the job says.
pub(crate) fn run_ending<S: Source, B: Source, K: Sink, G: Gate + Sync, R: Threads + Sync>(
    job: &Job<'_, G, R>,
    reader: &mut S,
    background: &mut B,
    writer: &mut K,
) -> Result<Summary, RunFault>
    requires reader { S.failed reader.old ≡ false }
    requires background { B.failed background.old ≡ false }
    requires writer { K.failed writer.old ≡ false }
    ensures end { OnOk result (IsAtEnd (S.remaining reader.new)) }
    ensures background_end { OnOk result ((settings_of job.now.config.now).background ≡ true → IsAtEnd (B.remaining background.new)) }
    ensures spared { (settings_of job.now.config.now).background ≡ false → background.new ≡ background.old }
    ensures unbegun { IfErr result (λ fault. is_unread fault ≡ true → background.new ≡ background.old) }
    ensures untouched { IfErr result (λ fault. fault ≢ RunFault.Write → writer.new ≡ writer.old) }
    ensures runs { RunsOn (settings_of job.now.config.now) None
        (input (S.remaining reader.old) (S.failed reader.new)) (input (B.remaining background.old) (B.failed background.new))
        (written (K.contents writer.old) (K.contents writer.new) (K.failed writer.new) (K.flushed writer.new) (K.abandoned writer.new)) result }
    ensures may_fail { IfErr result (λ fault. fault ≡ RunFault.BackgroundRead → B.may_fail background.old ≡ true) }
{
    let (index, more) = read_index(job, Input::Index, reader, background)?;
    drop(more);
    report_and_write(job, reader, index, None, writer)
}

/// Reads the index to its end, and with `bg` the background; checks each asked package of the index, writes the report and flushes. It may wait
/// for its workers.
///
/// After `Ok` the reader has no byte left, nor has `background` where `bg` is there, and what was written is the report of all bytes that were left
/// in each, under the settings, for any number of workers (1 to 64) and any chunk from 1; the summary has its numbers. Without `bg` nothing is read
/// from `background`. No device has failed before.
///
/// The first of these faults is answered: `Read` (some read failed), `TooLong` (over `deb_index::TEXT_LIMIT` bytes), `BackgroundRead` and
/// `BackgroundTooLong` (the same of the background, which is read only then), `Index` (the first stanza with a fault, Debian Policy 5.1 and 7.1),
/// `Background` (the first one of the background), `UnknownAsked`, `Slipped` (nothing is asked, or nothing of the index can be, where that is a
/// fault), `Write` (some write or flush failed). Want of memory is `Memory`; it may come at any time before writing, and never after a failed read.
/// All but `Write` leave the writer as it was; under `Write` a front of the report was written.
pub fn run<S: Source, B: Source, K: Sink, G: Gate + Sync, R: Threads + Sync>(
    rt: &R,
    alloc: Global,
    config: &Config,
    reader: &mut S,
    background: &mut B,
    writer: &mut K,
    gate: &G,
) -> Result<Summary, RunFault>
    requires workers { (0 < config.now.workers) × (config.now.workers ≤ 64) }
    requires chunk { 0 < config.now.chunk }
    requires reader { S.failed reader.old ≡ false }
    requires background { B.failed background.old ≡ false }
    requires writer { K.failed writer.old ≡ false }
    ensures end { OnOk result (IsAtEnd (S.remaining reader.new)) }
    ensures background_end { OnOk result ((settings_of config.now).background ≡ true → IsAtEnd (B.remaining background.new)) }
    ensures spared { (settings_of config.now).background ≡ false → background.new ≡ background.old }
    ensures unbegun { IfErr result (λ fault. is_unread fault ≡ true → background.new ≡ background.old) }
    ensures untouched { IfErr result (λ fault. fault ≢ RunFault.Write → writer.new ≡ writer.old) }
    ensures runs { RunsOn (settings_of config.now) None
        (input (S.remaining reader.old) (S.failed reader.new)) (input (B.remaining background.old) (B.failed background.new))
        (written (K.contents writer.old) (K.contents writer.new) (K.failed writer.new) (K.flushed writer.new) (K.abandoned writer.new)) result }
{
    let job = Job {
        rt,
        alloc,
        config,
        gate,
        is_last: false,
    };
    run_ending(&job, reader, background, writer)
}
