//! One stanza, read as a package.
ghost use Rattle.std.specs.Prelude.{◌≡◌, ◌≢◌, ◌+◌, ◌<◌, ◌≤◌, ◌^◌, [], false, IfErr, IfNone, IfOk, IfSome, map};
ghost use Rattle.std.specs.List.{list_all};
ghost use Rattle.std.specs.Option.{option_map_or};
ghost use Rattle.std.specs.Str.{bytes_eq};
ghost use Rattle.deb_control.specs.Fields.{field_value};
ghost use Rattle.deb_relation.specs.Relationship.{atom_view};
ghost use Rattle.deb_index.specs.Packages.{package_view};
ghost use Rattle.deb_index.specs.Reading.{Gives, Steps, head_view, reading_view, readings, stanza_limit};
ghost use Rattle.deb_index.specs.Reading as spec;

use crate::error::{IndexError, RelField};
use crate::limits::STANZA_LIMIT;
use deb_control::{ControlError, Reader, Stanza};
use deb_relation::{
    Atom, Groups, Op, RelationError, SmallText, Version, VersionError, is_name, parse_list,
};
use std::alloc::Global;

/// A package, as its stanza gives it (Debian Policy 5.3 and 7). A field of relationships that is absent or empty gives an empty list.
#[derive(Drop)]
pub struct Package {
    pub name: SmallText,
    pub version: Version,
    /// The stanza's own value: the checked architecture or `all`.
    pub architecture: SmallText,
    /// Whether the stanza says `Essential: yes` (Debian Policy 3.8); any other value means no.
    pub essential: bool,
    /// Whether the stanza says `Multi-Arch: allowed` (deb-control(5)), and so meets alternatives with the qualifier `any`; any other value counts as none.
    pub multi_arch_allowed: bool,
    /// Groups of alternatives, one of each of which has to be met.
    pub pre_depends: Groups,
    pub depends: Groups,
    pub conflicts: Vec<Atom>,
    pub breaks: Vec<Atom>,
    /// Names that the package stands for, each with no bound or with an exact version (Debian Policy 7.5).
    pub provides: Vec<Atom>,
}

/// What each stanza has, of whatever architecture.
#[derive(Drop)]
pub(crate) struct Head<'s> {
    pub(crate) name: &'s [u8],
    pub(crate) version: Version,
    pub(crate) architecture: &'s [u8],
}

/// What a stanza without a fault is: `Skipped` is one of another architecture.
#[derive(Drop)]
pub(crate) enum Reading {
    Skipped,
    Kept(Package),
}

fn mandatory<'s>(stanza: &'s Stanza, number: u64, name: &str) -> Result<&'s [u8], IndexError>
    ensures { Gives (λ v. v.now) result (spec.mandatory number (field_value stanza.now name.now)) }
{
    stanza
        .field(name)
        .ok_or(IndexError::MissingField { stanza: number })
}

fn read_version(alloc: Global, number: u64, text: &[u8]) -> Result<Version, IndexError>
    ensures { Gives (λ v. v) result (spec.good_version number text.now) }
{
    match Version::parse(alloc, text) {
        Ok(version) => Ok(version),
        Err(VersionError::Memory) => Err(IndexError::Memory),
        Err(_) => Err(IndexError::BadVersion { stanza: number }),
    }
}

#[tactic(auto, unfolding(crate::specs::Reading::head_of))]
fn read_head<'s>(alloc: Global, number: u64, stanza: &'s Stanza) -> Result<Head<'s>, IndexError>
    ensures { Gives head_view result (spec.head_of number stanza.now) }
{
    let name = mandatory(stanza, number, "Package")?;
    let version = mandatory(stanza, number, "Version")?;
    let architecture = mandatory(stanza, number, "Architecture")?;
    if !is_name(name) {
        return Err(IndexError::BadName { stanza: number });
    }
    let version = read_version(alloc, number, version)?;
    Ok(Head {
        name,
        version,
        architecture,
    })
}

fn relation_text<'s>(stanza: &'s Stanza, field: RelField) -> &'s [u8]
    ensures { result.now ≡ spec.relation_text stanza.now field }
{
    stanza.field(field.name()).unwrap_or(&[])
}

fn fault_in(error: RelationError, number: u64, field: RelField) -> IndexError
    ensures { result ≡ spec.relation_fault number field error }
{
    match error {
        RelationError::Memory => IndexError::Memory,
        _ => IndexError::BadRelation {
            stanza: number,
            field,
        },
    }
}

fn read_groups(
    alloc: Global,
    number: u64,
    stanza: &Stanza,
    field: RelField,
) -> Result<Groups, IndexError>
    ensures { Gives (λ g. g) result (spec.groups_in number stanza.now field) }
{
    Groups::parse(alloc, relation_text(stanza, field)).map_err(|error| fault_in(
        error, number, field,
    ))
}

fn read_atoms(
    alloc: Global,
    number: u64,
    stanza: &Stanza,
    field: RelField,
) -> Result<Vec<Atom>, IndexError>
    ensures { Gives (λ v. map atom_view v.items) result (spec.atoms_in number stanza.now field) }
{
    parse_list(alloc, relation_text(stanza, field)).map_err(|error| fault_in(error, number, field))
}

fn is_provided(atom: &Atom) -> bool
    ensures { result ≡ spec.is_provided (atom_view atom.now) }
{
    match &atom.bound {
        None => true,
        Some(bound) => matches!(bound.0, Op::Eq),
    }
}

fn are_provided(atoms: &[Atom]) -> bool
    ensures { result ≡ list_all spec.is_provided (map atom_view atoms.now) }
{
    for atom in atoms {
        if !is_provided(atom) {
            return false;
        }
    }
    true
}

#[tactic(auto, unfolding(crate::specs::Reading::provides_in))]
fn read_provides(alloc: Global, number: u64, stanza: &Stanza) -> Result<Vec<Atom>, IndexError>
    ensures { Gives (λ v. map atom_view v.items) result (spec.provides_in number stanza.now) }
{
    let atoms = read_atoms(alloc, number, stanza, RelField::Provides)?;
    if are_provided(&atoms) {
        Ok(atoms)
    } else {
        Err(IndexError::BadRelation {
            stanza: number,
            field: RelField::Provides,
        })
    }
}

/// Whether a field has just this value. Where the name is known beforehand, so is its slot.
#[inline(always)]
fn says(stanza: &Stanza, name: &str, value: &[u8]) -> bool
    ensures { result ≡ option_map_or (λ v. bytes_eq v value.now) (field_value stanza.now name.now) false }
{
    match stanza.field(name) {
        Some(found) => found == value,
        None => false,
    }
}

#[tactic(auto, unfolding(crate::specs::Reading::package_of))]
fn read_package(
    alloc: Global,
    number: u64,
    stanza: &Stanza,
    head: Head,
) -> Result<Package, IndexError>
    ensures { Gives package_view result (spec.package_of number stanza.now (head_view head.entry)) }
{
    Ok(Package {
        name: SmallText::from_slice(alloc, head.name)?,
        architecture: SmallText::from_slice(alloc, head.architecture)?,
        essential: says(stanza, "Essential", b"yes".as_slice()),
        multi_arch_allowed: says(stanza, "Multi-Arch", b"allowed".as_slice()),
        pre_depends: read_groups(alloc, number, stanza, RelField::PreDepends)?,
        depends: read_groups(alloc, number, stanza, RelField::Depends)?,
        conflicts: read_atoms(alloc, number, stanza, RelField::Conflicts)?,
        breaks: read_atoms(alloc, number, stanza, RelField::Breaks)?,
        provides: read_provides(alloc, number, stanza)?,
        version: head.version,
    })
}

fn is_for(arch: &[u8], architecture: &[u8]) -> bool
    ensures { result ≡ spec.is_for arch.now architecture.now }
{
    architecture == arch || architecture == b"all".as_slice()
}

/// Reads a stanza, the `number`-th of its text.
#[tactic(auto, unfolding(crate::specs::Reading::reading_of))]
fn read_fields(
    alloc: Global,
    arch: &[u8],
    number: u64,
    stanza: &Stanza,
) -> Result<Reading, IndexError>
    ensures { Gives reading_view result (spec.reading_of arch.now number stanza.now) }
{
    let head = read_head(alloc, number, stanza)?;
    if is_for(arch, head.architecture) {
        let package = read_package(alloc, number, stanza, head)?;
        Ok(Reading::Kept(package))
    } else {
        Ok(Reading::Skipped)
    }
}

/// What the fault of the `number`-th stanza is in an index, where so many stood in an earlier text; that there are too many goes first.
fn stanza_fault(before: u32, number: u64, error: ControlError) -> IndexError
    requires { number < 2 ^ 33 }
    ensures { result ≡ spec.stanza_fault before number error }
{
    match error {
        ControlError::Memory => IndexError::Memory,
        _ if u64::from(before) + number > u64::from(STANZA_LIMIT) => {
            IndexError::TooManyStanzas { stanza: number }
        }
        ControlError::BadLine { stanza } => IndexError::BadLine { stanza },
        ControlError::RepeatedField { stanza } => IndexError::RepeatedField { stanza },
    }
}

/// Reads the next stanza of a text, if there is one; so many stood in an earlier text.
pub(crate) fn next_reading(
    alloc: Global,
    arch: &[u8],
    before: u32,
    reader: &mut Reader,
) -> Result<Option<Reading>, IndexError>
    requires { before + reader.old.count ≤ stanza_limit }
    ensures takes { IfOk result (λ found. IfSome found (λ r. Steps arch.now before reader.old (reading_view r) reader.new)) }
    ensures ends { IfOk result (λ found. IfNone found (reader.old.stanzas ≡ [])) }
    ensures refused { IfErr result (λ e. e ≢ IndexError.Memory → readings arch.now before reader.old.count reader.old.stanzas ≡ Err e) }
{
    let number = reader.count() + 1;
    let total = u64::from(before) + number;
    match reader.next_stanza(alloc) {
        Ok(None) => Ok(None),
        Ok(Some(stanza)) => {
            if total > u64::from(STANZA_LIMIT) {
                drop(stanza);
                return Err(IndexError::TooManyStanzas { stanza: number });
            }
            let reading = read_fields(alloc, arch, number, &stanza);
            drop(stanza);
            Ok(Some(reading?))
        }
        Err(error) => Err(stanza_fault(before, number, error)),
    }
}
