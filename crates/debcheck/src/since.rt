//! A run since an earlier index: that is read and checked first, and what is kept of it is its broken packages.

ghost use Rattle.std.specs.Prelude.{◌≡◌, ◌≢◌, ◌≤◌, IfErr, IfOk, OnOk, Some, false, length, map, true};
ghost use Rattle.std.specs.Io.KnownBytes.{IsAtEnd};
ghost use Rattle.deb_index.specs.Reading.{byte_limit};
ghost use Rattle.run_settings.specs.Settings.{settings_of};
ghost use Rattle.deb_report.specs.Since.{broken_view};
ghost use Rattle.deb_input.specs.Inputs.{Input, IsReadAs, input};
ghost use Rattle.debcheck.specs.Run.{FailsEarlier, FailsToIndex, IfIndexed, IsOfEarlier, ReadsAs, RunsOn, WereBroken, behind, earlier_fault, written};

use crate::job::Job;
use crate::phases::{read_index, report_and_write};
use crate::verdicts::find_broken_packages;
use deb_index::Index;
use deb_input::{RunFault, TextRead, finish, read_text, reading_text};
use deb_report::{BrokenPackage, Summary};
use devices::{Sink, Source};
use std::thread::Threads;
use work_draw::Gate;

/// A fault of the earlier index, where that was read as an index.
fn as_earlier(fault: RunFault) -> RunFault
    ensures { result ≡ earlier_fault fault }
{
    match fault {
        RunFault::Read => RunFault::EarlierRead,
        RunFault::TooLong => RunFault::EarlierTooLong,
        RunFault::Index(fault) => RunFault::Earlier(fault),
        fault => fault,
    }
}

/// Reads the earlier index and the background behind it, and tells what is broken in it, and what the background has. The earlier index is given back.
fn read_before<E: Source, B: Source, G: Gate + Sync, R: Threads + Sync>(
    job: &Job<'_, G, R>,
    earlier: &mut E,
    background: &mut B,
) -> Result<(Vec<BrokenPackage>, Vec<u8>), RunFault>
    requires earlier { E.failed earlier.old ≡ false }
    requires background { B.failed background.old ≡ false }
    ensures end { OnOk result (IsAtEnd (E.remaining earlier.new)) }
    ensures background_end { OnOk result ((settings_of job.now.config.now).background ≡ true → IsAtEnd (B.remaining background.new)) }
    ensures spared { (settings_of job.now.config.now).background ≡ false → background.new ≡ background.old }
    ensures unfailed { OnOk result ((E.failed earlier.new ≡ false) × (B.failed background.new ≡ false)) }
    ensures broken { IfOk result (λ r. IfIndexed (settings_of job.now.config.now)
        (input (E.remaining earlier.old) (E.failed earlier.new)) (input (B.remaining background.old) (B.failed background.new))
        (WereBroken (settings_of job.now.config.now) (map broken_view r.0.items))) }
    ensures behind { IfOk result (λ r.
        IsReadAs (behind (settings_of job.now.config.now) (input (B.remaining background.old) (B.failed background.new))) r.1.items) }
    ensures refused { IfErr result (FailsEarlier (settings_of job.now.config.now)
        (input (E.remaining earlier.old) (E.failed earlier.new)) (input (B.remaining background.old) (B.failed background.new))) }
    ensures may_fail { IfErr result (λ fault. fault ≡ RunFault.BackgroundRead → B.may_fail background.old ≡ true) }
    ensures earlier_may_fail { IfErr result (λ fault. fault ≡ RunFault.EarlierRead → E.may_fail earlier.old ≡ true) }
{
    match read_index(job, deb_input::Input::Earlier, earlier, background) {
        Ok((index, more)) => {
            let broken = find_broken_packages(job, &index);
            drop(index);
            Ok((broken?, more))
        }
        Err(fault) => Err(as_earlier(fault)),
    }
}

/// Reads the index, piece by piece, in front of a background that was read before. What is guessed of it is noted on the reader.
fn read_now<S: Source, G: Gate + Sync, R: Threads + Sync>(
    job: &Job<'_, G, R>,
    reader: &mut S,
    more: &[u8],
) -> Result<Index, RunFault>
    requires reader { S.failed reader.old ≡ false }
    requires more { length more.now ≤ byte_limit }
    ensures end { OnOk result (IsAtEnd (S.remaining reader.new)) }
    ensures unfailed { OnOk result (S.failed reader.new ≡ false) }
    ensures index { IfOk result (λ index. (background : Input) → IsReadAs (behind (settings_of job.now.config.now) background) more.now
        → ReadsAs (settings_of job.now.config.now) (input (S.remaining reader.old) (S.failed reader.new)) background index) }
    ensures refused { IfErr result (λ fault. (background : Input) → IsReadAs (behind (settings_of job.now.config.now) background) more.now
        → FailsToIndex (settings_of job.now.config.now) (input (S.remaining reader.old) (S.failed reader.new)) background fault) }
{
    let size = reader.piece();
    let TextRead { outcome, last } = read_text(job.rt, job.alloc, job.config, reader, size)?;
    let index = finish(job.rt, job.alloc, job.config, outcome, more);
    let (of, piece) = (deb_input::Input::Index, last.as_slice());
    reader.note(reading_text(job.alloc, job.config, of, &index, piece, more));
    index
}

/// Reads an earlier index and the background behind it, and checks of the earlier index each package or those of the asked names; then reads the
/// index, checks its asked packages, writes the report since the earlier index, and flushes. It may wait for its workers.
///
/// The first of these faults is answered: `EarlierRead`, `EarlierTooLong`, `BackgroundRead` and `BackgroundTooLong`; `Earlier` (the first stanza
/// of the earlier index with a fault) and `Background` (the first one of the background); and then, of the index, those of `run`. Nothing of the
/// index is read where there is no earlier one. Want of memory is `Memory`, as for `run`.
pub fn run_since<S: Source, B: Source, E: Source, K: Sink, G: Gate + Sync, R: Threads + Sync>(
    job: &Job<'_, G, R>,
    reader: &mut S,
    background: &mut B,
    earlier: &mut E,
    writer: &mut K,
) -> Result<Summary, RunFault>
    requires reader { S.failed reader.old ≡ false }
    requires background { B.failed background.old ≡ false }
    requires earlier { E.failed earlier.old ≡ false }
    requires writer { K.failed writer.old ≡ false }
    ensures end { OnOk result (IsAtEnd (S.remaining reader.new)) }
    ensures background_end { OnOk result ((settings_of job.now.config.now).background ≡ true → IsAtEnd (B.remaining background.new)) }
    ensures earlier_end { OnOk result (IsAtEnd (E.remaining earlier.new)) }
    ensures spared { (settings_of job.now.config.now).background ≡ false → background.new ≡ background.old }
    ensures unbegun { IfErr result (λ fault. IsOfEarlier fault → reader.new ≡ reader.old) }
    ensures untouched { IfErr result (λ fault. fault ≢ RunFault.Write → writer.new ≡ writer.old) }
    ensures runs { RunsOn (settings_of job.now.config.now) (Some (input (E.remaining earlier.old) (E.failed earlier.new)))
        (input (S.remaining reader.old) (S.failed reader.new)) (input (B.remaining background.old) (B.failed background.new))
        (written (K.contents writer.old) (K.contents writer.new) (K.failed writer.new) (K.flushed writer.new) (K.abandoned writer.new)) result }
    ensures may_fail { IfErr result (λ fault. fault ≡ RunFault.BackgroundRead → B.may_fail background.old ≡ true) }
    ensures earlier_may_fail { IfErr result (λ fault. fault ≡ RunFault.EarlierRead → E.may_fail earlier.old ≡ true) }
{
    let (before, more) = read_before(job, earlier, background)?;
    let index = read_now(job, reader, more.as_slice())?;
    drop(more);
    let before = Some(before.as_slice());
    report_and_write(job, reader, index, before, writer)
}
