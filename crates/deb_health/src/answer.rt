//! What is found of a package.

use deb_index::Constraint;

/// What is found of a package (dose-debcheck(1)).
#[derive(Drop)]
pub enum Verdict {
    /// It can be installed: the places, rising from 0, of the first healthy set that contains it.
    Ok(Vec<u32>),
    /// It cannot be installed: the first set of constraints that no set with it meets, in the order of the index's list. None of them can
    /// be left out.
    Broken(Vec<Constraint>),
}
