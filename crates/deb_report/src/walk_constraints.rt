//! What a walk tells of a constraint, in lines.

ghost use Rattle.std.specs.Prelude.{◌≡◌, ◌<◌, ◌++◌, ◌∷◌, [], OnOk, length, map};
ghost use Rattle.deb_relation.specs.Relationship.{atom_view};
ghost use Rattle.deb_index.specs.Constraints.{IsOfIndex};
ghost use Rattle.deb_index.specs.Packages.{package_view};
ghost use Rattle.deb_causes.specs.Near.{near_misses, near_view, similar_names};
ghost use Rattle.deb_report.specs.Walk.{are_told, brought, places_in};
ghost use Rattle.deb_report.specs.Sought.{FitsWalk};
ghost use Rattle.deb_report.specs.WalkLines.{above_text, asked_text, constraint_text, missing_text, near_text, seen_text};

use crate::own::OwnTable;
use crate::parts::{InLine, Part, package_part};
use crate::reasons::{entry_field, group_field};
use crate::walk::{are_told, brought, hits_in, those_coming};
use deb_causes::{NearMiss, Similar, is_missing, near_misses};
use deb_index::{Constraint, Index, Package};
use deb_relation::{Atom, Print, push_all, push_joined, push_some, push_texts};
use std::alloc::{AllocError, Global};
use std::collections::HashSet;
use std::slice;

/// Adds the mark of what was told already.
#[tactic(auto, unfolding(crate::specs::WalkLines::above_text))]
pub(crate) fn push_above(out: &mut Vec<u8>, told: bool) -> Result<(), AllocError>
    ensures { OnOk result (out.new.items ≡ out.old.items ++ above_text told) }
{
    if told {
        out.extend_from_slice(b" (above)")?;
    }
    Ok(())
}

/// Packages that may be told already.
#[derive(Drop)]
struct Seen<'t> {
    index: &'t Index,
    told: &'t HashSet<u32>,
}

impl<'t> Print<u32> for Seen<'t> {
    ghost fits = { λ seen place. place < length seen.index.now.packages };

    ghost text = { λ seen place. seen_text seen.index.now (places_in seen.told.now) place };

    #[tactic(auto, unfolding(crate::specs::WalkLines::seen_text))]
    fn print(&self, out: &mut Vec<u8>, place: &u32) -> Result<(), AllocError> {
        InLine.print(out, &package_part(self.index.package(*place)))?;
        push_above(out, self.told.contains(place))
    }
}

/// Adds a package, with the entries of its Provides that are told.
#[tactic(auto, unfolding(crate::specs::WalkLines::near_text, crate::specs::Reasons::near_parts))]
pub(crate) fn push_near(
    out: &mut Vec<u8>,
    deb: &Package,
    entries: &Vec<&Atom>,
) -> Result<(), AllocError>
    ensures { OnOk result (out.new.items ≡
        out.old.items ++ near_text (record { deb = package_view deb.now; provides = map (λ entry. atom_view entry.now) entries.now.items })) }
{
    InLine.print(out, &package_part(deb))?;
    if !entries.is_empty() {
        InLine.print(out, &Part::Provides(entries))?;
    }
    Ok(())
}

/// Adds what a package asks for.
fn push_asked<'x>(
    out: &mut Vec<u8>,
    deb: &'x Package,
    field: &'static str,
    relation: &'x [Atom],
) -> Result<(), AllocError>
    ensures { OnOk result (out.new.items ≡ out.old.items ++ asked_text (package_view deb.now) field.now (map atom_view relation.now)) }
{
    let field = Part::Field(field.as_bytes());
    let relation = Part::Relation(relation);
    push_all(out, &InLine, &[package_part(deb), field, relation])
}

impl<'m> Print<NearMiss<'m>> for InLine {
    ghost fits = { λ _ _. Unit {0} };

    ghost text = { λ _ miss. near_text (near_view miss) };

    fn print(&self, out: &mut Vec<u8>, miss: &NearMiss<'m>) -> Result<(), AllocError> {
        push_near(out, miss.deb, &miss.provides)
    }
}

impl<'n> Print<&'n [u8]> for InLine {
    ghost fits = { λ _ _. Unit {0} };

    ghost text = { λ _ name. name.now };

    fn print(&self, out: &mut Vec<u8>, name: &&'n [u8]) -> Result<(), AllocError> {
        out.extend_from_slice(name)
    }
}

/// A walk through a core, and the packages that come in it.
#[derive(Drop)]
pub(crate) struct Walk<'i> {
    pub(crate) alloc: Global,
    pub(crate) index: &'i Index,
    pub(crate) core: &'i OwnTable<'i>,
    pub(crate) coming: &'i HashSet<u32>,
    pub(crate) similar: &'i Similar,
}

impl<'i> Walk<'i> {
    /// Adds the mark of a constraint whose packages all are told already.
    fn push_told(
        &self,
        out: &mut Vec<u8>,
        told: &HashSet<u32>,
        constraint: Constraint,
    ) -> Result<(), AllocError>
        requires { IsOfIndex self.now.index.now constraint }
        ensures { OnOk result (out.new.items ≡ out.old.items ++ above_text (are_told (places_in told.now) (brought self.now.index.now constraint))) }
    {
        let mut found = Vec::new(self.alloc);
        let places = brought(self.index, constraint, &mut found)?;
        push_above(out, are_told(told, places))
    }

    /// Adds that nothing meets a need, with what comes near and what is similar.
    #[tactic(auto, unfolding(crate::specs::WalkLines::missing_text))]
    fn push_missing(&self, out: &mut Vec<u8>, need: Constraint) -> Result<(), AllocError>
        requires { FitsWalk self.now.index.now self.now.similar.now need }
        ensures { OnOk result (out.new.items ≡
            out.old.items ++ missing_text (near_misses self.now.index.now (need ∷ [])) (similar_names self.now.index.now (need ∷ []))) }
    {
        let need = slice::from_ref(&need);
        let misses = near_misses(self.alloc, self.index, need)?;
        let names = self.similar.names(self.alloc, self.index, need)?;
        out.extend_from_slice(b" missing")?;
        push_some(out, "; present: ", &InLine, misses.as_slice())?;
        push_some(out, "; similar: ", &InLine, names.as_slice())?;
        Ok(())
    }

    /// Adds what the core says.
    #[tactic(auto, unfolding(crate::specs::WalkLines::constraint_text))]
    pub(crate) fn push_constraint(
        &self,
        out: &mut Vec<u8>,
        told: &HashSet<u32>,
        constraint: Constraint,
    ) -> Result<(), AllocError>
        requires { FitsWalk self.now.index.now self.now.similar.now constraint }
        ensures { OnOk result (out.new.items ≡
            out.old.items ++ constraint_text self.now.index.now (places_in self.now.coming.now) (places_in told.now) constraint) }
    {
        let index = self.index;
        let seen = Seen { index, told };
        match constraint {
            Constraint::Essential(name) => {
                push_texts(out, &[b"essential: ", index.name_text(name)])?;
                self.push_told(out, told, constraint)?;
            }
            Constraint::Need(place, number) => {
                let deb = index.package(place);
                push_asked(
                    out,
                    deb,
                    group_field(deb, number),
                    index.need(place, number),
                )?;
                if is_missing(self.alloc, index, place, number)? {
                    self.push_missing(out, constraint)?;
                } else {
                    self.push_told(out, told, constraint)?;
                }
            }
            Constraint::Apart(place, number) => {
                let deb = index.package(place);
                let relation = slice::from_ref(index.apart(place, number));
                let hits = hits_in(self.alloc, index, self.coming, place, number)?;
                push_asked(out, deb, entry_field(deb, number), relation)?;
                push_some(out, " hits ", &seen, hits.as_slice())?;
            }
            Constraint::Only(name) => {
                let versions = those_coming(self.alloc, self.coming, index.places_named(name))?;
                out.extend_from_slice(b"versions: ")?;
                push_joined(out, ", ", &seen, versions.as_slice())?;
            }
        }
        Ok(())
    }
}
