//! Places, and those of the packages that meet atoms, printed.

use deb_index::Index;
use deb_relation::{Atom, parse_list};
use std::alloc::{AllocError, Global};

/// Adds places: how many there are and the first one, where they are many.
pub fn append_places(out: &mut String, places: &[u32]) -> Result<(), AllocError> {
    if places.len() > 20 {
        write!(out, " {} from {:?}", places.len(), places.first())
    } else {
        write!(out, " {places:?}")
    }
}

/// Whether exactly those packages meet an atom that are at these places.
fn are_met(index: &Index, atom: &Atom, places: &[u32]) -> bool {
    for place in 0..index.len() {
        if index.meets(place, atom) != places.contains(&place) {
            return false;
        }
    }
    true
}

/// The places of the packages that meet an atom as an alternative.
fn met_in_a_group(alloc: Global, index: &Index, atom: &Atom) -> Result<Vec<u32>, AllocError> {
    let mut found = Vec::new(alloc);
    for place in 0..index.len() {
        if index.meets_need(place, atom) {
            found.push(place)?;
        }
    }
    Ok(found)
}

fn append_met_atom(
    out: &mut String,
    index: &Index,
    atom: &Atom,
    as_need: bool,
) -> Result<(), AllocError> {
    if as_need {
        let found = met_in_a_group(*out.allocator(), index, atom)?;
        return append_places(out, &found);
    }
    let found = index.satisfiers(*out.allocator(), atom)?;
    if are_met(index, atom, &found) {
        append_places(out, &found)
    } else {
        out.push_str(" others")
    }
}

fn append_met_atoms(
    out: &mut String,
    index: &Index,
    atoms: &[Atom],
    as_need: bool,
) -> Result<(), AllocError> {
    let mut before = if as_need { "met in a group:" } else { "met:" };
    for atom in atoms {
        out.push_str(before)?;
        append_met_atom(out, index, atom, as_need)?;
        before = " |";
    }
    out.push('\n')
}

/// Adds which packages meet each atom of a list, or meet it as an alternative of a group.
pub fn append_each_met(
    out: &mut String,
    index: &Index,
    list: &str,
    as_need: bool,
) -> Result<(), AllocError> {
    match parse_list(*out.allocator(), list.as_bytes()) {
        Ok(atoms) => append_met_atoms(out, index, &atoms, as_need),
        Err(_) => out.push_str("no atoms\n"),
    }
}
