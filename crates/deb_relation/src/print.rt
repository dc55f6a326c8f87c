//! Texts of elements, one after the other, and of a group of alternatives.

ghost use Rattle.std.specs.Prelude.{◌≡◌, ◌++◌, ℕ, List, All, OnOk, map};
ghost use Rattle.std.specs.List.{flat_map, join_by};
ghost use Rattle.deb_relation.specs.Relationship.{atom_view, group_text, printed, told_if};

use crate::atom::Atom;
use std::alloc::AllocError;

/// What elements of a type look like in some form.
pub trait Print<T> {
    ghost fits: { Self → T → Type 0 };

    ghost text: { Self → T → List ℕ };

    /// Adds the text of an element. `AllocError` where there is no memory; then some of it may be added.
    fn print(&self, out: &mut Vec<u8>, element: &T) -> Result<(), AllocError>
        requires { fits self.now element.now }
        ensures { OnOk result (out.new.items ≡ out.old.items ++ text self.now element.now) };
}

/// Adds the texts of elements, with a separator between two. `AllocError` where there is no memory; then some of it may be added.
pub fn push_joined<T, P: Print<T>>(
    out: &mut Vec<u8>,
    separator: &str,
    printer: &P,
    elements: &[T],
) -> Result<(), AllocError>
    requires { All (P.fits printer.now) elements.now }
    ensures { OnOk result (out.new.items ≡ out.old.items ++ join_by (P.text printer.now) separator.now elements.now) }
{
    let Some((first, others)) = elements.split_first() else {
        return Ok(());
    };
    printer.print(out, first)?;
    for other in others {
        out.extend_from_slice(separator.as_bytes())?;
        printer.print(out, other)?;
    }
    Ok(())
}

/// Adds the texts of elements. `AllocError` where there is no memory; then some of it may be added.
pub fn push_all<T, P: Print<T>>(
    out: &mut Vec<u8>,
    printer: &P,
    elements: &[T],
) -> Result<(), AllocError>
    requires { All (P.fits printer.now) elements.now }
    ensures { OnOk result (out.new.items ≡ out.old.items ++ flat_map (P.text printer.now) elements.now) }
{
    for element in elements {
        printer.print(out, element)?;
    }
    Ok(())
}

/// Adds the texts of elements with commas between, behind what leads to them, where there are some. `AllocError` where there is no memory;
/// then some of it may be added.
#[tactic(auto, unfolding(crate::specs::Relationship::told_if))]
pub fn push_some<T, P: Print<T>>(
    out: &mut Vec<u8>,
    lead: &str,
    printer: &P,
    elements: &[T],
) -> Result<(), AllocError>
    requires { All (P.fits printer.now) elements.now }
    ensures { OnOk result (out.new.items ≡ out.old.items ++ told_if lead.now (P.text printer.now) elements.now) }
{
    if !elements.is_empty() {
        out.extend_from_slice(lead.as_bytes())?;
        push_joined(out, ", ", printer, elements)?;
    }
    Ok(())
}

/// Adds texts. `AllocError` where there is no memory; then some of it may be added.
pub fn push_texts(out: &mut Vec<u8>, texts: &[&[u8]]) -> Result<(), AllocError>
    ensures { OnOk result (out.new.items ≡ out.old.items ++ flat_map (λ text. text.now) texts.now) }
{
    for text in texts {
        out.extend_from_slice(text)?;
    }
    Ok(())
}

/// Atoms as a control file has them.
#[derive(Drop)]
pub struct Plainly;

impl Print<Atom> for Plainly {
    ghost fits = { λ _ _. Unit {0} };

    ghost text = { λ _ atom. printed (atom_view atom) };

    fn print(&self, out: &mut Vec<u8>, atom: &Atom) -> Result<(), AllocError> {
        atom.append_to(out)
    }
}

impl<'i> Print<&'i Atom> for Plainly {
    ghost fits = { λ _ _. Unit {0} };

    ghost text = { λ _ atom. printed (atom_view atom.now) };

    fn print(&self, out: &mut Vec<u8>, atom: &&'i Atom) -> Result<(), AllocError> {
        atom.append_to(out)
    }
}

/// Adds the atoms of a group, with a bar between two (Debian Policy 7.1). `AllocError` where there is no memory; then some of it may be added.
#[tactic(auto, using(crate::proofs::JoinLemmas::joined_map), unfolding(crate::specs::Relationship::group_text))]
pub fn push_group(out: &mut Vec<u8>, group: &[Atom]) -> Result<(), AllocError>
    ensures { OnOk result (out.new.items ≡ out.old.items ++ group_text (map atom_view group.now)) }
{
    push_joined(out, " | ", &Plainly, group)
}
