//! What a core says of each of its packages.

ghost use Rattle.std.specs.Prelude.{◌≡◌, ◌==◌, ◌++◌, ◌∷◌, ℕ, [], IfOk, OnOk, filter, if◌then◌else◌};
ghost use Rattle.deb_report.specs.Walk.{said_at, is_own};

use deb_index::Constraint;
use std::alloc::{AllocError, Global};
use std::collections::HashMap;
use std::marker::Model;

/// A core, with what it says of each of its packages. Contracts see the core.
#[derive(Drop)]
pub(crate) struct OwnTable<'c> {
    core: &'c [Constraint],
    /// By the package's place.
    lists: HashMap<u32, Vec<Constraint>>,
}

impl<'c> Model for OwnTable<'c> {
    ghost use Rattle.std.specs.Prelude.{List};
    ghost use Rattle.deb_index.specs.declared.constraint.Constraint.{Constraint};
    ghost use Rattle.deb_report.specs.Walk.{IsTableOf};

    ghost Value = { List Constraint };

    ghost view = { λ t. t.core.now };

    ghost invariant = { λ t. IsTableOf t.core.now t.lists };
}

/// Puts a constraint to the place of the package that asks for it, where one does.
fn put_own(
    lists: &mut HashMap<u32, Vec<Constraint>>,
    constraint: Constraint,
) -> Result<(), AllocError>
    ensures { OnOk result ((q : ℕ) → said_at lists.new q ≡ said_at lists.old q ++ (if is_own q constraint then constraint ∷ [] else [])) }
{
    match constraint {
        Constraint::Need(place, _) | Constraint::Apart(place, _) => {
            lists.entry(place)?.or_default().push(constraint)?;
        }
        Constraint::Essential(_) | Constraint::Only(_) => (),
    }
    Ok(())
}

impl<'c> OwnTable<'c> {
    /// The table of a core. `AllocError` where there is no memory for it.
    pub(crate) fn new(alloc: Global, core: &'c [Constraint]) -> Result<OwnTable<'c>, AllocError>
        ensures { IfOk result (λ table. table ≡ core.now) }
    {
        let mut lists = HashMap::new(alloc);
        for constraint in core {
            put_own(&mut lists, *constraint)?;
        }
        Ok(OwnTable { core, lists })
    }

    /// What the core says of the package at a place, in the core's order.
    pub(crate) fn said_of(&self, place: u32) -> &[Constraint]
        ensures { result.now ≡ filter (is_own place) self.now }
    {
        match self.lists.get(&place) {
            Some(list) => list.as_slice(),
            None => &[],
        }
    }
}
