//! What similar names are looked for: those of causes, and those of the cores that are walked.

ghost use Rattle.std.specs.Prelude.{◌≡◌, ◌++◌, All, IfOk, OnOk, map};
ghost use Rattle.std.specs.List.{flat_map};
ghost use Rattle.deb_causes.specs.Causes.{IsCauseOf, cause_view};
ghost use Rattle.deb_report.specs.Sought.{FitsCause, IsWalked, constraints_in};
ghost use Rattle.deb_health.specs.Verdicts.{IsAskedOf, shown_view};

use deb_causes::{Cause, Similar};
use deb_health::Shown;
use deb_index::{Constraint, Index};
use run_settings::Config;
use std::alloc::{AllocError, Global};

/// The constraints of causes, one after the other.
fn constraints_of(alloc: Global, causes: &[Cause]) -> Result<Vec<Constraint>, AllocError>
    ensures { IfOk result (λ constraints. constraints.items ≡ flat_map (λ cause. cause.constraints.items) causes.now) }
{
    let mut constraints = Vec::new(alloc);
    for cause in causes {
        constraints.extend_from_slice(cause.constraints.as_slice())?;
    }
    Ok(constraints)
}

/// The names that causes tell as similar.
pub(crate) fn similar_to_causes(
    alloc: Global,
    index: &Index,
    causes: &[Cause],
) -> Result<Similar, AllocError>
    requires { All (λ cause. IsCauseOf index.now (cause_view cause)) causes.now }
    ensures { IfOk result (λ similar. All (FitsCause index.now similar) causes.now) }
{
    let constraints = constraints_of(alloc, causes)?;
    let similar = Similar::find(alloc, index, constraints.as_slice())?;
    Ok(similar)
}

/// Adds the constraints of cores, one after the other.
fn push_constraints(
    cores: &[Vec<Constraint>],
    constraints: &mut Vec<Constraint>,
) -> Result<(), AllocError>
    ensures { OnOk result (constraints.new.items ≡ constraints.old.items ++ flat_map (λ core. core) (map (λ core. core.items) cores.now)) }
{
    for core in cores {
        constraints.extend_from_slice(core.as_slice())?;
    }
    Ok(())
}

/// The constraints of the cores of blocks.
fn constraints_told(alloc: Global, blocks: &[Shown<'_>]) -> Result<Vec<Constraint>, AllocError>
    ensures { IfOk result (λ constraints. constraints.items ≡ flat_map (λ one. constraints_in (shown_view one)) blocks.now) }
{
    let mut constraints = Vec::new(alloc);
    for one in blocks {
        push_constraints(one.told.cores(), &mut constraints)?;
    }
    Ok(constraints)
}

/// The names that the walks of blocks tell as similar: none where no core is walked.
pub(crate) fn similar_to_walks(
    alloc: Global,
    index: &Index,
    config: &Config,
    blocks: &[Shown<'_>],
) -> Result<Similar, AllocError>
    requires { All (λ one. IsAskedOf index.now (shown_view one)) blocks.now }
    ensures { IfOk result (λ similar. All (IsWalked index.now config.now similar) blocks.now) }
{
    if config.explain && config.why {
        let constraints = constraints_told(alloc, blocks)?;
        let similar = Similar::find(alloc, index, constraints.as_slice())?;
        return Ok(similar);
    }
    Similar::find(alloc, index, &[])
}
