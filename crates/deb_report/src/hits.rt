//! The packages that entries of Conflicts and Breaks hit.

ghost use Rattle.std.specs.Prelude.{◌≡◌, ◌==◌, ◌<◌, ◌||◌, ◌++◌, ℕ, All, IfOk, OnOk, filter, length, not};
ghost use Rattle.deb_index.specs.Constraints.{IsOfIndex};
ghost use Rattle.deb_index.specs.Meets.{satisfiers};
ghost use Rattle.deb_index.specs.Packages.{apart_at, is_in};
ghost use Rattle.deb_report.specs.Answers.{hits_of, is_hit_by};

use deb_index::{Constraint, Index};
use number_sets::sort_once;
use std::alloc::{AllocError, Global};

/// Adds these places without one.
fn push_others(places: &[u32], own: u32, hits: &mut Vec<u32>) -> Result<(), AllocError>
    ensures { OnOk result (hits.new.items ≡ hits.old.items ++ filter (λ place. not (place == own)) places.now) }
{
    for place in places {
        if *place != own {
            hits.push(*place)?;
        }
    }
    Ok(())
}

/// Adds the places of the packages that an entry hits, without the package that has it.
pub(crate) fn push_hit(
    alloc: Global,
    index: &Index,
    place: u32,
    number: u32,
    hits: &mut Vec<u32>,
) -> Result<(), AllocError>
    requires { IsOfIndex index.now (Constraint.Apart place number) }
    ensures { OnOk result (hits.new.items ≡
        hits.old.items ++ filter (λ hit. not (hit == place)) (satisfiers index.now (apart_at index.now place number))) }
{
    if let Some(row) = index.hit_row(place, number) {
        return push_others(row, place, hits);
    }
    let found = index.satisfiers(alloc, index.apart(place, number))?;
    push_others(found.as_slice(), place, hits)
}

/// Adds the places of the packages that a constraint hits, where it is an entry.
fn push_hits(
    alloc: Global,
    index: &Index,
    constraint: Constraint,
    hits: &mut Vec<u32>,
) -> Result<(), AllocError>
    requires { IsOfIndex index.now constraint }
    ensures { OnOk result ((place : ℕ) → is_in hits.new.items place ≡ (is_in hits.old.items place || is_hit_by index.now place constraint)) }
{
    if let Constraint::Apart(place, number) = constraint {
        push_hit(alloc, index, place, number, hits)?;
    }
    Ok(())
}

/// The places of the packages that the entries among the constraints hit, rising, each once.
///
/// The constraints are of the index. `AllocError` where there is no memory for it.
pub fn hits_of(
    alloc: Global,
    index: &Index,
    constraints: &[Constraint],
) -> Result<Vec<u32>, AllocError>
    requires { All (IsOfIndex index.now) constraints.now }
    ensures value { IfOk result (λ hits. hits.items ≡ hits_of index.now constraints.now) }
    ensures within { IfOk result (λ hits. All (λ place. place < length index.now.packages) hits.items) }
{
    let mut hits = Vec::new(alloc);
    for constraint in constraints {
        push_hits(alloc, index, *constraint, &mut hits)?;
    }
    sort_once(&mut hits);
    Ok(hits)
}
