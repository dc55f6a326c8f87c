//! Packages that come near to a need that no package meets.

ghost use Rattle.std.specs.Prelude.{◌≡◌, ◌<◌, ◌++◌, All, IfOk, OnOk, filter, length, map};
ghost use Rattle.std.specs.List.{flat_map};
ghost use Rattle.deb_relation.specs.Relationship.{atom_view};
ghost use Rattle.deb_index.specs.Constraints.{IsOfIndex};
ghost use Rattle.deb_index.specs.Meets.{provided_at};
ghost use Rattle.deb_index.specs.Packages.{package_view, places_of};
ghost use Rattle.deb_causes.specs.Near.{alternatives, is_one_of, near_miss, near_miss_at, near_misses, near_places, near_view, provides_one};

use deb_index::{Constraint, Index, Package};
use deb_relation::Atom;
use number_sets::sort_once;
use std::alloc::{AllocError, Global};

/// A package that has the name of an alternative, or provides it.
#[derive(Drop)]
pub struct NearMiss<'i> {
    /// The package.
    pub deb: &'i Package,
    /// The entries of its Provides that have the name; none where the package itself has it.
    pub provides: Vec<&'i Atom>,
}

/// Adds the alternatives of a constraint, where it is a need.
#[tactic(auto, unfolding(crate::specs::Near::alternatives))]
fn push_alternatives<'i>(
    index: &'i Index,
    constraint: Constraint,
    atoms: &mut Vec<&'i Atom>,
) -> Result<(), AllocError>
    requires { IsOfIndex index.now constraint }
    ensures { OnOk result (map (λ atom. atom_view atom.now) atoms.new.items ≡
        map (λ atom. atom_view atom.now) atoms.old.items ++ alternatives index.now constraint) }
{
    if let Constraint::Need(place, number) = constraint {
        let group = index.need(place, number);
        for atom in group {
            atoms.push(atom)?;
        }
    }
    Ok(())
}

/// The alternatives of all needs among the constraints.
pub(crate) fn alternatives_of<'i>(
    alloc: Global,
    index: &'i Index,
    constraints: &[Constraint],
) -> Result<Vec<&'i Atom>, AllocError>
    requires { All (IsOfIndex index.now) constraints.now }
    ensures { IfOk result (λ atoms. map (λ atom. atom_view atom.now) atoms.items ≡ flat_map (alternatives index.now) constraints.now) }
{
    let mut atoms = Vec::new(alloc);
    for constraint in constraints {
        push_alternatives(index, *constraint, &mut atoms)?;
    }
    Ok(atoms)
}

/// Adds the places of the packages that have a name, and of those that provide it.
fn push_near(index: &Index, name: &[u8], places: &mut Vec<u32>) -> Result<(), AllocError>
    ensures { OnOk result (places.new.items ≡ places.old.items ++ (places_of index.now name.now ++ map (λ pair. pair.0) (provided_at index.now name.now))) }
{
    places.extend_from_slice(index.places_of(name))?;
    for pair in index.provides_of(name) {
        places.push(pair.0)?;
    }
    Ok(())
}

/// The places of the packages that have or provide the name of one of the atoms, rising.
fn near_places(alloc: Global, index: &Index, atoms: &[&Atom]) -> Result<Vec<u32>, AllocError>
    ensures value { IfOk result (λ places. places.items ≡ near_places index.now (map (λ atom. atom_view atom.now) atoms.now)) }
    ensures within { IfOk result (λ places. All (λ place. place < length index.now.packages) places.items) }
{
    let mut places = Vec::new(alloc);
    for atom in atoms {
        push_near(index, atom.name.as_slice(), &mut places)?;
    }
    sort_once(&mut places);
    Ok(places)
}

/// Whether one of the atoms has a name.
fn is_one_of(atoms: &[&Atom], name: &[u8]) -> bool
    ensures { result ≡ is_one_of (map (λ atom. atom_view atom.now) atoms.now) name.now }
{
    for atom in atoms {
        if atom.name.as_slice() == name {
            return true;
        }
    }
    false
}

/// Whether an entry of Provides provides the name of one of them.
fn provides_one(arch: &[u8], atoms: &[&Atom], entry: &Atom) -> bool
    ensures { result ≡ provides_one arch.now (map (λ atom. atom_view atom.now) atoms.now) (atom_view entry.now) }
{
    entry.usable(arch) && is_one_of(atoms, entry.name.as_slice())
}

/// The entries that provide the name of one of them.
fn provided_of<'i>(
    alloc: Global,
    arch: &[u8],
    atoms: &[&Atom],
    provides: &'i [Atom],
) -> Result<Vec<&'i Atom>, AllocError>
    ensures { IfOk result (λ provided. map (λ entry. atom_view entry.now) provided.items ≡
        filter (provides_one arch.now (map (λ atom. atom_view atom.now) atoms.now)) (map atom_view provides.now)) }
{
    provides
        .iter()
        .filter(|entry| provides_one(arch, atoms, entry))
        .collect(alloc)
}

/// What is told of a package that comes near.
#[tactic(auto, unfolding(crate::specs::Near::near_miss))]
fn near_miss<'i>(
    alloc: Global,
    arch: &[u8],
    atoms: &[&Atom],
    deb: &'i Package,
) -> Result<NearMiss<'i>, AllocError>
    ensures { IfOk result (λ miss. near_view miss ≡ near_miss arch.now (map (λ atom. atom_view atom.now) atoms.now) (package_view deb.now)) }
{
    let provides = if is_one_of(atoms, deb.name.as_slice()) {
        Vec::new(alloc)
    } else {
        provided_of(alloc, arch, atoms, deb.provides.as_slice())?
    };
    Ok(NearMiss { deb, provides })
}

/// The packages of the index, by place, that have the name of an alternative of a need among these constraints, or provide it.
///
/// The constraints are of the index. `AllocError` where there is no memory for it.
#[tactic(auto, unfolding(crate::specs::Near::near_misses))]
pub fn near_misses<'i>(
    alloc: Global,
    index: &'i Index,
    constraints: &[Constraint],
) -> Result<Vec<NearMiss<'i>>, AllocError>
    requires { All (IsOfIndex index.now) constraints.now }
    ensures { IfOk result (λ misses. map near_view misses.items ≡ near_misses index.now constraints.now) }
{
    let atoms = alternatives_of(alloc, index, constraints)?;
    let mut misses = Vec::new(alloc);
    for place in &near_places(alloc, index, &atoms)? {
        misses.push(near_miss(alloc, index.arch(), &atoms, index.package(*place))?)?;
    }
    Ok(misses)
}
