//! What is told of packages and constraints, whatever its form.

ghost use Rattle.std.specs.Prelude.{◌≡◌, ◌++◌, ◌<◌, All, OnOk, length};
ghost use Rattle.deb_relation.specs.Relationship.{atom_view, printed};
ghost use Rattle.deb_index.specs.declared.constraint.Constraint.{Constraint};
ghost use Rattle.deb_index.specs.Constraints.{IsOfIndex};
ghost use Rattle.deb_index.specs.Packages.{package_view};
ghost use Rattle.deb_causes.specs.Near.{near_view, IsSimilarOf, stems_in, AreSought};
ghost use Rattle.deb_report.specs.Sought.{FitsWalk};
ghost use Rattle.deb_report.specs.Forms.{name_in};
ghost use Rattle.deb_report.specs.WalkLines.{links_in};
ghost use Rattle.deb_report.specs.Reasons.{entry_field, group_field, near_in, near_to_in, place_in, reason_front};

use crate::answers::answers_to;
use crate::form::{Lead, Writer, push_list, push_some};
use crate::hits::hits_of;
use crate::parts::{Part, package_part};
use deb_causes::{NearMiss, is_missing, near_misses};
use deb_index::{Constraint, Package, RelField};
use deb_relation::{Atom, Print, push_texts};
use run_settings::Format;
use std::alloc::AllocError;
use std::slice;

/// The field that a group stands in.
#[tactic(auto, unfolding(crate::specs::Reasons::group_field))]
pub fn group_field(deb: &Package, number: u32) -> &'static str
    ensures { result.now ≡ group_field (package_view deb.now) number }
{
    if (number as usize) < deb.pre_depends.len() {
        RelField::PreDepends.name()
    } else {
        RelField::Depends.name()
    }
}

/// The field that an entry stands in.
#[tactic(auto, unfolding(crate::specs::Reasons::entry_field))]
pub(crate) fn entry_field(deb: &Package, number: u32) -> &'static str
    ensures { result.now ≡ entry_field (package_view deb.now) number }
{
    if (number as usize) < deb.conflicts.len() {
        RelField::Conflicts.name()
    } else {
        RelField::Breaks.name()
    }
}

impl<'i> Writer<'i> {
    /// Adds what a constraint is told by, up to the end of its item.
    #[tactic(auto, unfolding(crate::specs::Reasons::reason_parts))]
    pub fn push_reason_front(
        &self,
        out: &mut Vec<u8>,
        constraint: Constraint,
    ) -> Result<(), AllocError>
        requires { IsOfIndex self.now.index.now constraint }
        ensures { OnOk result (out.new.items ≡ out.old.items ++ reason_front self.now.config.now.format self.now.index.now constraint) }
    {
        match constraint {
            Constraint::Essential(name) => {
                let name = Part::Name(self.index.name_text(name));
                self.push_front(out, Lead::Within, &[Part::Kind(b"essential"), name])?;
            }
            Constraint::Need(place, number) => {
                let missing = is_missing(self.alloc, self.index, place, number)?;
                let kind: &[u8] = if missing { b"missing" } else { b"depends" };
                let deb = self.index.package(place);
                let field = Part::Field(group_field(deb, number).as_bytes());
                let relation = Part::Relation(self.index.need(place, number));
                self.push_front(
                    out,
                    Lead::Within,
                    &[Part::Kind(kind), package_part(deb), field, relation],
                )?;
            }
            Constraint::Apart(place, number) => {
                let deb = self.index.package(place);
                let field = Part::Field(entry_field(deb, number).as_bytes());
                let relation = Part::Relation(slice::from_ref(self.index.apart(place, number)));
                self.push_front(
                    out,
                    Lead::Within,
                    &[Part::Kind(b"conflict"), package_part(deb), field, relation],
                )?;
            }
            Constraint::Only(name) => {
                let name = Part::Name(self.index.name_text(name));
                self.push_front(out, Lead::Within, &[Part::Kind(b"versions"), name])?;
            }
        }
        Ok(())
    }
}

impl<'i> Print<u32> for Writer<'i> {
    ghost fits = { λ writer place. place < length writer.index.now.packages };

    ghost text = { λ writer place. place_in writer.config.now.format writer.index.now place };

    // In lines the name and the version are written straight: most of a long report are these.
    #[tactic(auto, unfolding(crate::specs::Forms::item_front, crate::specs::Forms::lead_of, crate::specs::Forms::part_line))]
    fn print(&self, out: &mut Vec<u8>, place: &u32) -> Result<(), AllocError> {
        let deb = self.index.package(*place);
        match self.config.format {
            Format::Text => {
                push_texts(out, &[b"   - ", deb.name.as_slice()])?;
                out.push(b' ')?;
                out.extend_from_slice(deb.version.text())?;
                out.push(b'\n')?;
            }
            Format::Json => self.push_item(out, Lead::Within, &[package_part(deb)])?,
        }
        Ok(())
    }
}

impl<'i, 'm> Print<NearMiss<'m>> for Writer<'i> {
    ghost fits = { λ _ _. Unit {0} };

    ghost text = { λ writer miss. near_in writer.config.now.format (near_view miss) };

    #[tactic(auto, unfolding(crate::specs::Reasons::near_parts))]
    fn print(&self, out: &mut Vec<u8>, miss: &NearMiss<'m>) -> Result<(), AllocError> {
        let deb = miss.deb;
        if miss.provides.is_empty() {
            self.push_item(out, Lead::Within, &[package_part(deb)])?;
        } else {
            let provides = Part::Provides(&miss.provides);
            self.push_item(out, Lead::Within, &[package_part(deb), provides])?;
        }
        Ok(())
    }
}

impl<'i> Print<Atom> for Writer<'i> {
    ghost fits = { λ _ _. Unit {0} };

    ghost text = { λ writer atom. name_in writer.config.now.format (printed (atom_view atom)) };

    fn print(&self, out: &mut Vec<u8>, atom: &Atom) -> Result<(), AllocError> {
        let mut text = Vec::new(self.alloc);
        atom.append_to(&mut text)?;
        self.push_name(out, text.as_slice())
    }
}

impl<'i, 'n> Print<&'n [u8]> for Writer<'i> {
    ghost fits = { λ _ _. Unit {0} };

    ghost text = { λ writer name. name_in writer.config.now.format name.now };

    fn print(&self, out: &mut Vec<u8>, name: &&'n [u8]) -> Result<(), AllocError> {
        self.push_name(out, name)
    }
}

impl<'i> Writer<'i> {
    /// Adds what comes near to the needs among constraints, and the names that are similar to theirs.
    #[tactic(auto, using(crate::proofs::FormLemmas::some_map), unfolding(crate::specs::Reasons::near_to_in))]
    pub(crate) fn push_near_to(
        &self,
        out: &mut Vec<u8>,
        constraints: &[Constraint],
    ) -> Result<(), AllocError>
        requires within { All (IsOfIndex self.now.index.now) constraints.now }
        requires found { IsSimilarOf self.now.index.now self.now.similar.now }
        requires sought { AreSought self.now.index.now (stems_in self.now.similar.now) constraints.now }
        ensures { OnOk result (out.new.items ≡ out.old.items ++ near_to_in self.now.config.now.format self.now.index.now constraints.now) }
    {
        let misses = near_misses(self.alloc, self.index, constraints)?;
        let names = self.similar.names(self.alloc, self.index, constraints)?;
        push_some(self.config.format, out, "present", self, misses.as_slice())?;
        push_some(self.config.format, out, "similar", self, names.as_slice())?;
        Ok(())
    }

    /// Adds the member with what a walk goes on to from a need.
    #[tactic(auto, using(crate::proofs::FormLemmas::list_map), unfolding(crate::specs::WalkLines::links_in))]
    fn push_need_links(&self, out: &mut Vec<u8>, place: u32, number: u32) -> Result<(), AllocError>
        requires { FitsWalk self.now.index.now self.now.similar.now (Constraint.Need place number) }
        ensures { OnOk result (out.new.items ≡ out.old.items ++ links_in self.now.config.now.format self.now.index.now (Constraint.Need place number)) }
    {
        let form = self.config.format;
        let need = Constraint::Need(place, number);
        if is_missing(self.alloc, self.index, place, number)? {
            let group = self.index.need(place, number);
            push_list(form, out, Lead::Within, "alternatives", self, group)?;
            self.push_near_to(out, slice::from_ref(&need))?;
        } else {
            let answers = answers_to(self.alloc, self.index, need)?;
            let answers = answers.as_slice();
            push_list(form, out, Lead::Within, "met-by", self, answers)?;
        }
        Ok(())
    }

    /// Adds where a walk goes on from a constraint, as members of its item.
    #[tactic(auto, unfolding(crate::specs::WalkLines::links_in))]
    pub(crate) fn push_links(
        &self,
        out: &mut Vec<u8>,
        constraint: Constraint,
    ) -> Result<(), AllocError>
        requires { FitsWalk self.now.index.now self.now.similar.now constraint }
        ensures { OnOk result (out.new.items ≡ out.old.items ++ links_in self.now.config.now.format self.now.index.now constraint) }
    {
        let form = self.config.format;
        match constraint {
            Constraint::Essential(_) => (),
            Constraint::Need(place, number) => self.push_need_links(out, place, number)?,
            Constraint::Apart(_, _) => {
                let hits = hits_of(self.alloc, self.index, slice::from_ref(&constraint))?;
                let hits = hits.as_slice();
                push_list(form, out, Lead::Within, "hits", self, hits)?;
            }
            Constraint::Only(name) => {
                let places = self.index.places_named(name);
                push_list(form, out, Lead::Within, "versions", self, places)?;
            }
        }
        Ok(())
    }
}
