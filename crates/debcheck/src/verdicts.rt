//! What a report tells of packages. Where it tells no set, none is looked for, and where it tells no core, none either; since an earlier index cores are
//! looked for of the newly broken alone.

ghost use Rattle.std.specs.Prelude.{◌≡◌, ◌^◌, ◌<◌, ℕ, [], All, IfErr, IfOk, false, length, map, slice_index_or, true};
ghost use Rattle.std.specs.Option.{ForSome, option_map};
ghost use Rattle.deb_health.specs.Health.{IsInstallable};
ghost use Rattle.deb_report.specs.Content.{before_view};
ghost use Rattle.run_settings.specs.Settings.{settings_of};
ghost use Rattle.deb_report.specs.Since.{broken_view};
ghost use Rattle.work_draw.specs.Checks.{AnswersEach};
ghost use Rattle.debcheck.specs.Run.{FailsToReport, IsReportOn, WereBroken, IsToldAt, wanted_by};

use crate::asked::asked_places;
use crate::job::Job;
use deb_health::Told;
use deb_index::Index;
use deb_input::RunFault;
use deb_report::{Before, BrokenPackage, Summary, broken_packages, earlier_places, report_told};
use deb_verdict::{Cores, Groundwork, Wanted, Workspace, find_installable, told_in};
use run_settings::{Config, Show};
use std::alloc::{AllocError, Global};
use std::thread::Threads;
use work_draw::{Chunks, Finder, Gate, check_each};

/// Finds what is told of a package; shared between workers.
#[derive(Drop)]
struct Teller<'t> {
    groundwork: &'t Groundwork<'t>,
    /// What is told of a package, but for cores where it is not newly broken.
    wanted: Wanted,
    before: Option<&'t Before<'t>>,
    /// Marks, by place, on what is known to be installable, where no set is told.
    installable: &'t [bool],
    ghost before_is: { ForSome before (λ before. before.now.index.now ≡ groundwork.now.index.now) },
}

impl Teller<'_> {
    ghost use Rattle.std.specs.Prelude.{◌≡◌, ◌<◌, length, slice_index_or};
    ghost use Rattle.deb_report.specs.Content.{before_view};
    ghost use Rattle.debcheck.specs.Run.{wanted_at};

    /// Whether the package at a place is known to be installable.
    fn is_marked(&self, place: u32) -> bool
        ensures { result ≡ slice_index_or self.now.installable.now place false }
    {
        match self.installable.get(place as usize) {
            Some(mark) => *mark,
            None => false,
        }
    }

    /// What is told of the package at a place.
    fn wanted_at(&self, place: u32) -> Wanted
        requires { place < length self.now.groundwork.now.index.now.packages }
        ensures { result ≡ wanted_at self.now.wanted self.now.groundwork.now.index.now (before_view self.now.before) place }
    {
        let Wanted { sets, cores } = self.wanted;
        match self.before {
            Some(before) if !before.is_new(place) => Wanted {
                sets,
                cores: Cores::None,
            },
            _ => Wanted { sets, cores },
        }
    }
}

impl Finder for Teller<'_> {
    ghost use Rattle.std.specs.Prelude.{length};
    ghost use Rattle.deb_report.specs.Content.{before_view};
    ghost use Rattle.debcheck.specs.Run.{IsFoundAt};

    type Found = Told;

    ghost limit = { λ teller. length teller.groundwork.now.index.now.packages };

    ghost finds = { λ teller. IsFoundAt teller.installable.now teller.wanted teller.groundwork.now.index.now (before_view teller.before) };

    fn find(
        &self,
        alloc: Global,
        workspace: &mut Workspace,
        place: u32,
    ) -> Result<Told, AllocError> {
        if self.is_marked(place) {
            return Ok(Told::Installable);
        }
        told_in(
            alloc,
            workspace,
            self.groundwork,
            place,
            self.wanted_at(place),
        )
    }
}

/// What the report tells of packages, since an earlier index or not.
fn wanted_of(config: &Config, since: bool) -> Wanted
    ensures { result ≡ wanted_by (settings_of config.now) since }
{
    let cores = if config.tells_all_causes() {
        Cores::All
    } else if config.explain && (since || config.show != Show::Successes) {
        Cores::First
    } else {
        Cores::None
    };
    Wanted {
        sets: config.shows_sets() && !since,
        cores,
    }
}

/// Marks, by place, on what is known to be installable; none where sets are told.
fn marks_for(
    alloc: Global,
    groundwork: &Groundwork<'_>,
    asked: &[u32],
    sets: bool,
) -> Result<Vec<bool>, AllocError>
    requires { All (λ place. place < length groundwork.now.index.now.packages) asked.now }
    ensures none { IfOk result (λ marks. sets ≡ true → marks.items ≡ []) }
    ensures marked { IfOk result (λ marks. (place : ℕ) → slice_index_or marks.items place false ≡ true → IsInstallable groundwork.now.index.now place) }
{
    if sets {
        return Ok(Vec::new(alloc));
    }
    find_installable(alloc, groundwork, asked)
}

/// What is told of the asked places of an index, in their order, on one groundwork for all of them. Where no set is, what `find_installable` marks is
/// looked up.
fn tell_each<'t, G: Gate + Sync, R: Threads + Sync>(
    job: &Job<'_, G, R>,
    index: &'t Index,
    asked: &[u32],
    before: Option<&'t Before<'t>>,
    wanted: Wanted,
) -> Result<Vec<Told>, AllocError>
    requires places { All (λ place. place < length index.now.packages) asked.now }
    requires few { length asked.now < 2 ^ 32 }
    requires before { ForSome before (λ before. before.now.index.now ≡ index.now) }
    ensures { IfOk result (λ told. AnswersEach (IsToldAt wanted index.now (before_view before.entry)) asked.now told.items) }
{
    let groundwork = Groundwork::new(job.alloc, index)?;
    let installable = match marks_for(job.alloc, &groundwork, asked, wanted.sets) {
        Ok(installable) => installable,
        Err(fault) => {
            drop(groundwork);
            return Err(fault);
        }
    };
    let teller = Teller {
        groundwork: &groundwork,
        wanted,
        before,
        installable: installable.as_slice(),
    };
    job.gate.start(asked.len() as u32);
    let chunks = Chunks {
        finder: &teller,
        asked,
        chunk: job.config.chunk,
        gate: job.gate,
    };
    let told = check_each(job.rt, job.alloc, &chunks, job.config.workers);
    job.gate.end();
    drop(groundwork);
    told
}

/// Checks the asked places, and makes the report on these.
fn report_on<G: Gate + Sync, R: Threads + Sync>(
    job: &Job<'_, G, R>,
    index: &Index,
    before: Option<&Before<'_>>,
) -> Result<(Vec<u8>, Summary), RunFault>
    requires before { ForSome before (λ before. before.now.index.now ≡ index.now) }
    ensures report { IfOk result (λ r. IsReportOn (before_view before.entry) (settings_of job.now.config.now) index.now r.0.items r.1) }
    ensures refused { IfErr result (FailsToReport (settings_of job.now.config.now) index.now) }
{
    let asked = asked_places(job.alloc, index, job.config)?;
    let asked = asked.as_slice();
    let wanted = wanted_of(job.config, before.is_some());
    let told = tell_each(job, index, asked, before, wanted)?;
    let told = told.as_slice();
    Ok(report_told(job.alloc, index, asked, told, before, job.config)?)
}

/// The same, since these packages were broken, where an earlier index is told of.
pub(crate) fn check_and_tell<G: Gate + Sync, R: Threads + Sync>(
    job: &Job<'_, G, R>,
    index: &Index,
    before: Option<&[BrokenPackage]>,
) -> Result<(Vec<u8>, Summary), RunFault>
    ensures report { IfOk result (λ r.
        IsReportOn (option_map (λ list. map broken_view list.now) before.entry) (settings_of job.now.config.now) index.now r.0.items r.1) }
    ensures refused { IfErr result (FailsToReport (settings_of job.now.config.now) index.now) }
{
    match before {
        None => report_on(job, index, None),
        Some(packages) => {
            let before = Before::new(job.alloc, index, packages)?;
            let told = report_on(job, index, Some(&before));
            drop(before);
            told
        }
    }
}

/// The packages that are broken in an earlier index, of those that are asked in it.
pub(crate) fn find_broken_packages<G: Gate + Sync, R: Threads + Sync>(
    job: &Job<'_, G, R>,
    index: &Index,
) -> Result<Vec<BrokenPackage>, AllocError>
    ensures { IfOk result (λ before. WereBroken (settings_of job.now.config.now) (map broken_view before.items) index.now) }
{
    let asked = earlier_places(job.alloc, index, job.config)?;
    let asked = asked.as_slice();
    let statuses = Wanted {
        sets: false,
        cores: Cores::None,
    };
    let told = tell_each(job, index, asked, None, statuses)?;
    broken_packages(job.alloc, index, asked, told.as_slice())
}
