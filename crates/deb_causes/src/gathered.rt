//! Causes, each with what is gathered of it: the cores of broken packages get its number, and then what has a number is gathered.

ghost use Rattle.std.specs.Prelude.{◌≡◌, ◌<◌, ◌++◌, ◌∷◌, ℕ, List, [], All, IfOk, OnOk, length, map};
ghost use Rattle.std.specs.List.{flat_map, list_all, list_any};
ghost use Rattle.std.specs.List.Sorted.{IsStrictlyIncreasing};
ghost use Rattle.deb_index.specs.declared.constraint.Constraint.{Constraint};
ghost use Rattle.deb_index.specs.Constraints.{IsOfIndex, below};
ghost use Rattle.number_sets.specs.Sets.{members_of};
ghost use Rattle.deb_causes.specs.Gathering.{PartView, has_number, is_alone, part_of, part_view, with_cores, with_share};
ghost use Rattle.deb_causes.specs.Causes.{cores_of};
ghost use Rattle.deb_causes.specs.Numbering.{core_view, package_view, unnumbered};
ghost use Rattle.deb_causes.specs.Wrongs.{AreNumbered};
ghost use Rattle.deb_health.specs.Verdicts.{IsAskedOf, shown_view};

use crate::wrongs::Wrongs;
use deb_health::Shown;
use deb_index::{Constraint, Index};
use number_sets::sort_once;
use std::alloc::{AllocError, Global};

/// What is wrong in the end, whoever needs it, and the packages that it breaks.
#[derive(Drop)]
pub struct Cause {
    /// What is wrong, each once: the constraints of a core without the needs that some package of the index meets, in the core's order.
    pub constraints: Vec<Constraint>,
    /// The places of the packages that have this cause among their causes, in the order in which they were asked.
    pub places: Vec<u32>,
    /// How many of these packages have no other cause.
    pub frees: usize,
    /// The needs that say so in their cores, each once, in the index's order.
    pub needs: Vec<Constraint>,
    /// The places, rising, of packages that these cores ask for, by a name of which there may be one version.
    pub versions: Vec<u32>,
}

/// A core, and the number of its cause.
#[derive(Drop)]
pub(crate) struct NumberedCore<'v> {
    pub(crate) number: u32,
    pub(crate) core: &'v [Constraint],
}

/// An asked place, and the cores that are told of it.
#[derive(Drop)]
pub(crate) struct NumberedPackage<'v> {
    pub(crate) place: u32,
    pub(crate) cores: Vec<NumberedCore<'v>>,
}

/// What has the number of a cause.
#[derive(Drop)]
pub(crate) struct Part<'v> {
    pub(crate) cores: Vec<&'v [Constraint]>,
    /// The places of packages, and of each whether it has no other cause.
    pub(crate) shares: Vec<(u32, bool)>,
}

/// The cores, each with the number of its cause.
fn number_cores<'v>(
    alloc: Global,
    index: &Index,
    cores: &'v [Vec<Constraint>],
    wrongs: &mut Wrongs,
) -> Result<Vec<NumberedCore<'v>>, AllocError>
    requires { All (λ core. All (IsOfIndex index.now) core.items) cores.now }
    ensures cores { IfOk result (λ numbered. map (λ one. one.core.now) numbered.items ≡ map (λ core. core.items) cores.now) }
    ensures numbers { IfOk result (λ numbered. AreNumbered index.now wrongs.old wrongs.new (map core_view numbered.items)) }
{
    let mut numbered = Vec::new(alloc);
    for one in cores {
        let core = one.as_slice();
        let number = wrongs.number(alloc, index, core)?;
        numbered.push(NumberedCore { number, core })?;
    }
    Ok(numbered)
}

/// The cores of broken packages, each with the number of its cause.
pub(crate) fn number_packages<'v>(
    alloc: Global,
    index: &Index,
    broken: &[Shown<'v>],
    wrongs: &mut Wrongs,
) -> Result<Vec<NumberedPackage<'v>>, AllocError>
    requires { All (λ one. IsAskedOf index.now (shown_view one)) broken.now }
    ensures cores { IfOk result (λ packages. map unnumbered (map package_view packages.items)
        ≡ map cores_of (map shown_view broken.now)) }
    ensures numbers { IfOk result (λ packages. AreNumbered index.now wrongs.old wrongs.new
        (flat_map (λ one. one.1) (map package_view packages.items))) }
{
    let mut packages = Vec::new(alloc);
    for one in broken {
        let cores = number_cores(alloc, index, one.told.cores(), wrongs)?;
        packages.push(NumberedPackage {
            place: one.place,
            cores,
        })?;
    }
    Ok(packages)
}

/// As many parts, with nothing in them.
fn no_parts<'v>(alloc: Global, count: usize) -> Result<Vec<Part<'v>>, AllocError>
    ensures { IfOk result (λ parts. map part_view parts.items ≡ map (part_of []) (below count)) }
{
    let mut parts = Vec::new(alloc);
    for _number in 0..count {
        parts.push(Part {
            cores: Vec::new(alloc),
            shares: Vec::new(alloc),
        })?;
    }
    Ok(parts)
}

/// Adds the cores to the parts that have their numbers.
fn add_cores<'v>(cores: &[NumberedCore<'v>], parts: &mut Vec<Part<'v>>) -> Result<(), AllocError>
    requires { All (λ core. core.number < length parts.old.items) cores.now }
    ensures size { OnOk result (length parts.new.items ≡ length parts.old.items) }
    ensures parts { OnOk result ((count : ℕ) (f : ℕ → PartView) → map part_view parts.old.items ≡ map f (below count)
        → map part_view parts.new.items ≡ map (λ k. with_cores (map core_view cores.now) k (f k)) (below count)) }
{
    for one in cores {
        parts[one.number as usize].cores.push(one.core)?;
    }
    Ok(())
}

/// The numbers of the cores, rising, each once.
fn distinct_numbers(alloc: Global, cores: &[NumberedCore]) -> Result<Vec<u32>, AllocError>
    ensures rising { IfOk result (λ numbers. IsStrictlyIncreasing numbers.items) }
    ensures same { IfOk result (λ numbers. (k : ℕ) → members_of numbers.items k ≡ list_any (has_number k) (map core_view cores.now)) }
{
    let mut numbers = Vec::new(alloc);
    for one in cores {
        numbers.push(one.number)?;
    }
    sort_once(&mut numbers);
    Ok(numbers)
}

/// Whether all cores have a number.
fn have_number(cores: &[NumberedCore], number: u32) -> bool
    ensures { result ≡ list_all (has_number number) (map core_view cores.now) }
{
    for one in cores {
        if one.number != number {
            return false;
        }
    }
    true
}

/// Whether all cores have one number.
fn is_alone(cores: &[NumberedCore]) -> bool
    ensures { result ≡ is_alone (map core_view cores.now) }
{
    match cores {
        [] => true,
        [first, others @ ..] => have_number(others, first.number),
    }
}

/// Adds a package to the parts with these numbers.
fn add_shares(
    numbers: &[u32],
    place: u32,
    alone: bool,
    parts: &mut Vec<Part>,
) -> Result<(), AllocError>
    requires rising { IsStrictlyIncreasing numbers.now }
    requires within { All (λ number. number < length parts.old.items) numbers.now }
    ensures size { OnOk result (length parts.new.items ≡ length parts.old.items) }
    ensures parts { OnOk result ((count : ℕ) (f : ℕ → PartView) → map part_view parts.old.items ≡ map f (below count)
        → map part_view parts.new.items ≡ map (λ k. with_share (place, alone) (members_of numbers.now k) (f k)) (below count)) }
{
    for number in numbers {
        parts[*number as usize].shares.push((place, alone))?;
    }
    Ok(())
}

/// Adds a package and its cores.
fn add_package<'v>(
    alloc: Global,
    one: &NumberedPackage<'v>,
    parts: &mut Vec<Part<'v>>,
) -> Result<(), AllocError>
    requires { All (λ core. core.number < length parts.old.items) one.now.cores.items }
    ensures size { OnOk result (length parts.new.items ≡ length parts.old.items) }
    ensures parts { OnOk result ((packages : List (ℕ × List (ℕ × List Constraint))) (count : ℕ)
        → map part_view parts.old.items ≡ map (part_of packages) (below count)
        → map part_view parts.new.items ≡ map (part_of (packages ++ package_view one.now ∷ [])) (below count)) }
{
    let cores = one.cores.as_slice();
    add_cores(cores, parts)?;
    let numbers = distinct_numbers(alloc, cores)?;
    add_shares(numbers.as_slice(), one.place, is_alone(cores), parts)?;
    Ok(())
}

/// What has each number below the count.
pub(crate) fn parts_of<'v>(
    alloc: Global,
    count: usize,
    packages: &[NumberedPackage<'v>],
) -> Result<Vec<Part<'v>>, AllocError>
    requires { All (λ one. All (λ core. core.number < count) one.cores.items) packages.now }
    ensures { IfOk result (λ parts. map part_view parts.items ≡ map (part_of (map package_view packages.now)) (below count)) }
{
    let mut parts = no_parts(alloc, count)?;
    for one in packages {
        add_package(alloc, one, &mut parts)?;
    }
    Ok(parts)
}
