//! What items are told by, in a line and as members of an object.

ghost use Rattle.std.specs.Prelude.{◌≡◌};
ghost use Rattle.deb_relation.specs.Relationship.{atom_view, printed};
ghost use Rattle.deb_index.specs.Packages.{package_view};
ghost use Rattle.deb_report.specs.Forms.{part_json, part_line, quoted, part_view};
ghost use Rattle.deb_report.specs.Reasons.{package_part};

use crate::json_text::{push_member, push_quoted};
use deb_index::Package;
use deb_relation::{Atom, Plainly, Print, push_group, push_joined, push_texts};
use std::alloc::{AllocError, Global};

/// What an item is told by.
#[derive(Drop)]
pub enum Part<'i> {
    /// Of what kind a constraint is.
    Kind(&'static [u8]),
    Name(&'i [u8]),
    /// A package's name and its version.
    Package(&'i [u8], &'i [u8]),
    Field(&'static [u8]),
    Relation(&'i [Atom]),
    /// Entries that a package provides.
    Provides(&'i Vec<&'i Atom>),
}

/// A package by its name and its version.
pub fn package_part(deb: &Package) -> Part<'_>
    ensures { part_view result ≡ package_part (package_view deb.now) }
{
    Part::Package(deb.name.as_slice(), deb.version.text())
}

/// Parts in a line.
#[derive(Drop)]
pub struct InLine;

impl<'i> Print<Part<'i>> for InLine {
    ghost fits = { λ _ _. Unit {0} };

    ghost text = { λ _ part. part_line (part_view part) };

    #[tactic(auto, unfolding(crate::specs::Forms::part_line))]
    fn print(&self, out: &mut Vec<u8>, part: &Part<'i>) -> Result<(), AllocError> {
        match part {
            Part::Kind(kind) => push_texts(out, &[kind, b": "])?,
            Part::Name(name) => out.extend_from_slice(name)?,
            Part::Package(name, version) => {
                out.extend_from_slice(name)?;
                out.push(b' ')?;
                out.extend_from_slice(version)?;
            }
            Part::Field(field) => {
                out.push(b' ')?;
                push_texts(out, &[field, b": "])?;
            }
            Part::Relation(relation) => push_group(out, relation)?,
            Part::Provides(entries) => {
                out.extend_from_slice(b" (provides ")?;
                push_joined(out, ", ", &Plainly, entries.as_slice())?;
                out.extend_from_slice(b")")?;
            }
        }
        Ok(())
    }
}

/// Parts as members of an object.
#[derive(Drop)]
pub(crate) struct InJson {
    pub(crate) alloc: Global,
}

impl<'i> Print<Part<'i>> for InJson {
    ghost fits = { λ _ _. Unit {0} };

    ghost text = { λ _ part. part_json (part_view part) };

    #[tactic(auto, unfolding(crate::specs::Forms::part_json))]
    fn print(&self, out: &mut Vec<u8>, part: &Part<'i>) -> Result<(), AllocError> {
        match part {
            Part::Kind(kind) => push_member(out, "kind", kind)?,
            Part::Name(name) => push_member(out, "name", name)?,
            Part::Package(name, version) => {
                push_member(out, "package", name)?;
                out.extend_from_slice(b",")?;
                push_member(out, "version", version)?;
            }
            Part::Field(field) => push_member(out, "field", field)?,
            Part::Relation(relation) => {
                let mut text = Vec::new(self.alloc);
                push_group(&mut text, relation)?;
                push_member(out, "relation", text.as_slice())?;
            }
            Part::Provides(entries) => {
                out.extend_from_slice(b"\"provides\":[")?;
                push_joined(out, ",", self, entries.as_slice())?;
                out.extend_from_slice(b"]")?;
            }
        }
        Ok(())
    }
}

impl<'a> Print<&'a Atom> for InJson {
    ghost fits = { λ _ _. Unit {0} };

    ghost text = { λ _ atom. quoted (printed (atom_view atom.now)) };

    fn print(&self, out: &mut Vec<u8>, atom: &&'a Atom) -> Result<(), AllocError> {
        let mut text = Vec::new(self.alloc);
        atom.append_to(&mut text)?;
        push_quoted(out, text.as_slice())
    }
}
