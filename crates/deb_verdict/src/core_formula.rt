//! The formula of a package and the constraints that it speaks of.

ghost use Rattle.std.specs.Prelude.{◌≡◌, ◌<◌, length};

use sat_solve::Formula;

/// A formula with a group for each constraint at these positions, and the variable of the package.
#[derive(Drop)]
pub(crate) struct CoreFormula {
    pub(crate) positions: Vec<u32>,
    pub(crate) formula: Formula,
    pub(crate) must: u32,
    ghost groups: { formula.groups ≡ length positions.items },
    ghost variable: { must < formula.vars },
}
