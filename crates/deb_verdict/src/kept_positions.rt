//! The positions of the constraints that speak of some places, and the constraints that stand there.

ghost use Rattle.std.specs.Prelude.{◌≡◌, ℕ, ◌<◌, ◌^◌, All, OnOk, Some, length, map, slice_get};
ghost use Rattle.std.specs.List.Sorted.{IsStrictlyIncreasing};
ghost use Rattle.deb_index.specs.Constraints.{IsOfIndex, constraints_of};
ghost use Rattle.number_sets.specs.Sets.{members_of, IsWithin};
ghost use Rattle.deb_verdict.specs.Closure.{kept};
ghost use Rattle.deb_verdict.specs.Formulas.{Lists};

use deb_index::{Constraint, Index};
use number_sets::sort_once;
use std::alloc::AllocError;

/// Lists the positions, rising, of the constraints that speak of all essential names, of the members, and of their names.
///
/// The work is that of the list, whatever the size of the index.
pub(crate) fn list_positions(
    index: &Index,
    members: &[u32],
    positions: &mut Vec<u32>,
) -> Result<(), AllocError>
    requires members { All (λ q. q < length index.now.packages) members.now }
    ensures rising { OnOk result (IsStrictlyIncreasing positions.new.items) }
    ensures all { OnOk result (IsWithin (kept index.now (members_of members.now)) (members_of positions.new.items)) }
    ensures in_list { OnOk result (All (λ k. k < length (constraints_of index.now)) positions.new.items) }
    ensures few { OnOk result (length positions.new.items < 2 ^ 32) }
{
    let _limit = index.len();
    positions.clear();
    for position in 0..index.essential_names().len() {
        positions.push(position as u32)?;
    }
    for place in members {
        for number in 0..index.need_count(*place) {
            positions.push(index.need_position(*place, number))?;
        }
        for number in 0..index.apart_count(*place) {
            positions.push(index.apart_position(*place, number))?;
        }
        positions.push(index.only_position(index.name_of(*place)))?;
    }
    sort_once(positions);
    Ok(())
}

/// Lists the constraints at some positions.
pub(crate) fn list_constraints(
    index: &Index,
    positions: &[u32],
    constraints: &mut Vec<Constraint>,
) -> Result<(), AllocError>
    requires { All (λ k. k < length (constraints_of index.now)) positions.now }
    ensures stand { OnOk result (map (slice_get (constraints_of index.now)) positions.now ≡ map Some constraints.new.items) }
    ensures of_index { OnOk result (All (IsOfIndex index.now) constraints.new.items) }
{
    constraints.clear();
    for position in positions {
        constraints.push(index.constraint_at(*position))?;
    }
    Ok(())
}
