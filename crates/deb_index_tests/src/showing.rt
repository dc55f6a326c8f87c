//! What is to be seen of an index, printed, so that a test compares one text.

ghost use Rattle.std.specs.Prelude.{◌<◌, length};

use crate::meeting::{append_each_met, append_places};
use crate::reading::{Texts, read};
use deb_index::{BothError, Index, Package};
use deb_relation::Atom;
use std::alloc::{AllocError, Global};
use std::process::Abort;
use std::slice::from_ref;
use std::str::from_utf8;
use std::thread::Threads;

/// A part of what is to be seen of an index.
#[derive(Clone, Copy)]
pub enum Part {
    /// How many packages, stanzas, skipped ones and duplicates there are.
    Counts,
    /// How many packages are the foreground's.
    Foreground,
    Architecture,
    /// Each package, with its own architecture, the number of its name, the places of its versions, and its mark.
    Packages,
    /// The names of packages by their numbers, each with its places.
    Names,
    /// The number of a name, the places of its packages, and the entries that provide it.
    Name(&'static str),
    EssentialNames,
    Constraints,
    /// How many groups and entries the fields of a package have, and the names in each.
    Groups,
    /// The row of each group of a package, where it has one.
    AnswerRows,
    /// The row of each entry, where it has one.
    HitRows,
    /// The answers to each group. The lent list is filled before, and lent again for each group.
    Answers,
    /// The places that meet each atom of a list, which have to be those of the packages that do, each asked in turn.
    Satisfiers(&'static str),
    /// Those that meet each of the atoms as an alternative of a group, in the same way.
    NeedSatisfiers(&'static str),
}

fn text_of(bytes: &[u8]) -> &str {
    from_utf8(bytes).unwrap_or("no UTF-8")
}

fn append_counts(out: &mut String, index: &Index) -> Result<(), AllocError> {
    write!(
        out,
        "packages {}, stanzas {}, skipped {}, duplicates {}\n",
        index.len(),
        index.stanzas(),
        index.skipped(),
        index.duplicates()
    )
}

fn append_packages(out: &mut String, index: &Index) -> Result<(), AllocError> {
    for place in 0..index.len() {
        let package = index.package(place);
        write!(
            out,
            "{place}: {} {} {}",
            text_of(package.name.as_slice()),
            text_of(package.version.text()),
            text_of(package.architecture.as_slice())
        )?;
        write!(
            out,
            ", name {}, versions {:?}, marked {}\n",
            index.name_of(place),
            index.versions_of(place),
            package.multi_arch_allowed
        )?;
    }
    Ok(())
}

fn append_names(out: &mut String, index: &Index) -> Result<(), AllocError> {
    for number in 0..index.name_count() {
        let (name, places) = (index.name_text(number), index.places_named(number));
        write!(out, "name {number}: {}, places {places:?}\n", text_of(name))?;
    }
    Ok(())
}

fn append_name(out: &mut String, index: &Index, name: &str) -> Result<(), AllocError> {
    write!(
        out,
        "{name}: number {:?}, places {:?}, provided {:?}\n",
        index.name_number(name.as_bytes()),
        index.places_of(name.as_bytes()),
        index.provides_of(name.as_bytes())
    )
}

fn append_constraints(out: &mut String, index: &Index) -> Result<(), AllocError> {
    let constraints = index.constraints(*out.allocator())?;
    write!(out, "{:?}\n", constraints.as_slice())
}

fn append_field_counts(out: &mut String, package: &Package) -> Result<(), AllocError> {
    write!(
        out,
        "Pre-Depends {}, Depends {}, Conflicts {}, Breaks {}\n",
        package.pre_depends.len(),
        package.depends.len(),
        package.conflicts.len(),
        package.breaks.len()
    )
}

fn append_atom_names(out: &mut String, atoms: &[Atom]) -> Result<(), AllocError> {
    for atom in atoms {
        write!(out, " {}", text_of(atom.name.as_slice()))?;
    }
    Ok(())
}

/// Goes before what is told of one of the groups or entries of a package: the place before the first, and a bar before each other one.
fn append_label(out: &mut String, label: &str, place: u32, number: u32) -> Result<(), AllocError> {
    if number == 0 {
        write!(out, "{label} {place}:")
    } else {
        out.push_str(" |")
    }
}

/// Ends the line of a package that has so many groups or entries.
fn append_end(out: &mut String, count: u32) -> Result<(), AllocError> {
    if count > 0 { out.push('\n') } else { Ok(()) }
}

fn append_need_names(out: &mut String, index: &Index, place: u32) -> Result<(), AllocError>
    requires { place < length index.now.packages }
{
    for number in 0..index.need_count(place) {
        append_label(out, "need", place, number)?;
        append_atom_names(out, index.need(place, number))?;
    }
    append_end(out, index.need_count(place))
}

fn append_apart_names(out: &mut String, index: &Index, place: u32) -> Result<(), AllocError>
    requires { place < length index.now.packages }
{
    for number in 0..index.apart_count(place) {
        append_label(out, "apart", place, number)?;
        append_atom_names(out, from_ref(index.apart(place, number)))?;
    }
    append_end(out, index.apart_count(place))
}

fn append_groups(out: &mut String, index: &Index) -> Result<(), AllocError> {
    for place in 0..index.len() {
        append_field_counts(out, index.package(place))?;
        append_need_names(out, index, place)?;
        append_apart_names(out, index, place)?;
    }
    Ok(())
}

fn append_row(out: &mut String, row: Option<&[u32]>) -> Result<(), AllocError> {
    match row {
        Some(places) => append_places(out, places),
        None => out.push_str(" none"),
    }
}

fn append_answer_rows(out: &mut String, index: &Index) -> Result<(), AllocError> {
    for place in 0..index.len() {
        for number in 0..index.need_count(place) {
            append_label(out, "need", place, number)?;
            append_row(out, index.answer_row(place, number))?;
        }
        append_end(out, index.need_count(place))?;
    }
    Ok(())
}

fn append_hit_rows(out: &mut String, index: &Index) -> Result<(), AllocError> {
    for place in 0..index.len() {
        for number in 0..index.apart_count(place) {
            append_label(out, "apart", place, number)?;
            append_row(out, index.hit_row(place, number))?;
        }
        append_end(out, index.apart_count(place))?;
    }
    Ok(())
}

fn append_answers_by(
    out: &mut String,
    index: &Index,
    lent: &mut Vec<u32>,
) -> Result<(), AllocError> {
    for place in 0..index.len() {
        for number in 0..index.need_count(place) {
            append_label(out, "answers", place, number)?;
            append_places(out, index.answers(place, number, lent)?)?;
        }
        append_end(out, index.need_count(place))?;
    }
    Ok(())
}

fn append_answers(out: &mut String, index: &Index) -> Result<(), AllocError> {
    let mut lent = Vec::from_slice(*out.allocator(), &[9, 8])?;
    append_answers_by(out, index, &mut lent)
}

fn append_part(out: &mut String, index: &Index, part: Part) -> Result<(), AllocError> {
    match part {
        Part::Counts => append_counts(out, index),
        Part::Foreground => write!(out, "foreground {}\n", index.foreground()),
        Part::Architecture => write!(out, "architecture {}\n", text_of(index.arch())),
        Part::Packages => append_packages(out, index),
        Part::Names => append_names(out, index),
        Part::Name(name) => append_name(out, index, name),
        Part::EssentialNames => write!(out, "essential {:?}\n", index.essential_names()),
        Part::Constraints => append_constraints(out, index),
        Part::Groups => append_groups(out, index),
        Part::AnswerRows => append_answer_rows(out, index),
        Part::HitRows => append_hit_rows(out, index),
        Part::Answers => append_answers(out, index),
        Part::Satisfiers(atoms) => append_each_met(out, index, atoms, false),
        Part::NeedSatisfiers(atoms) => append_each_met(out, index, atoms, true),
    }
}

fn shown_of(alloc: Global, index: &Index, parts: &[Part]) -> Result<String, AllocError> {
    let mut out = String::new(alloc);
    for part in parts {
        append_part(&mut out, index, *part)?;
    }
    Ok(out)
}

/// What is to be seen of the index of texts.
pub fn shown(
    rt: &(impl Threads + Sync + AllocGlobal),
    texts: Texts,
    parts: &[Part],
) -> Result<String, BothError> {
    let index = read(rt, texts)?;
    let out = shown_of(rt.alloc(), &index, parts);
    drop(index);
    Ok(out?)
}

pub fn expect_text(rt: &impl Abort, name: &str, found: &str, wanted: &str) {
    assert!(rt; found == wanted, "{name}: {found}");
}

/// These parts of what is to be seen of the index of texts are so.
pub fn expect_shown(
    rt: &(impl Abort + Threads + Sync + AllocGlobal),
    name: &str,
    texts: Texts,
    parts: &[Part],
    wanted: &str,
) {
    let found = shown(rt, texts, parts).expect(rt, name);
    expect_text(rt, name, found.as_str(), wanted);
}

/// Texts, parts of what is to be seen of their index, and how these have to be.
pub struct Case {
    pub name: &'static str,
    pub texts: Texts<'static>,
    pub parts: &'static [Part],
    pub wanted: &'static str,
}

pub fn expect_each(rt: &(impl Abort + Threads + Sync + AllocGlobal), cases: &[Case]) {
    for case in cases {
        expect_shown(rt, case.name, case.texts, case.parts, case.wanted);
    }
}
