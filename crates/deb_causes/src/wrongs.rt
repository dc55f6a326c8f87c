//! What is wrong, and its numbers: of what a constraint says, and of the cause that a core has.

ghost use Rattle.std.specs.Prelude.{◌≡◌, ◌++◌, ◌∷◌, [], ℕ, List, All, IfOk, OnOk, Some, length, map};
ghost use Rattle.deb_index.specs.Constraints.{IsOfIndex};
ghost use Rattle.deb_index.specs.Packages.{need_at};
ghost use Rattle.deb_index.specs.Tables.{number_in};
ghost use Rattle.deb_health.specs.Causes.{cause_in, is_final};
ghost use Rattle.deb_causes.specs.Causes.{says};
ghost use Rattle.deb_causes.specs.Near.{is_missing};
ghost use Rattle.deb_causes.specs.Numbering.{Grows, IsFront, texts_of, with_text};
ghost use Rattle.deb_causes.specs.Wrongs.{number_said};

use deb_index::{Constraint, Index};
use deb_relation::push_group;
use indexmap::IndexSet;
use number_sets::sort_once;
use std::alloc::{AllocError, Global};

/// Whether no package meets a group of a package, as a dependency (Debian Policy 7.2). `AllocError` where there is no memory to look.
pub fn is_missing(alloc: Global, index: &Index, place: u32, number: u32) -> Result<bool, AllocError>
    requires { IsOfIndex index.now (Constraint.Need place number) }
    ensures { IfOk result (λ missing. missing ≡ is_missing index.now (need_at index.now place number)) }
{
    let mut found = Vec::new(alloc);
    Ok(index.answers(place, number, &mut found)?.is_empty())
}

/// Whether a constraint is no need that some package of the index meets. `AllocError` where there is no memory to look.
pub(crate) fn is_final(
    alloc: Global,
    index: &Index,
    constraint: Constraint,
) -> Result<bool, AllocError>
    requires { IsOfIndex index.now constraint }
    ensures { IfOk result (λ last. last ≡ is_final index.now constraint) }
{
    match constraint {
        Constraint::Need(place, number) => is_missing(alloc, index, place, number),
        Constraint::Essential(_) | Constraint::Apart(_, _) | Constraint::Only(_) => Ok(true),
    }
}

/// Adds bytes as numbers.
fn push_bytes(text: &mut Vec<u32>, bytes: &[u8]) -> Result<(), AllocError>
    ensures { OnOk result (text.new.items ≡ text.old.items ++ bytes.now) }
{
    for byte in bytes {
        text.push(*byte as u32)?;
    }
    Ok(())
}

/// What a constraint says is wrong.
#[tactic(auto, unfolding(crate::specs::Causes::says))]
pub(crate) fn says_of(
    alloc: Global,
    index: &Index,
    constraint: Constraint,
) -> Result<Vec<u32>, AllocError>
    requires { IsOfIndex index.now constraint }
    ensures { IfOk result (λ text. text.items ≡ says index.now constraint) }
{
    let mut text = Vec::new(alloc);
    match constraint {
        Constraint::Essential(name) => text.extend_from_slice(&[0, name])?,
        Constraint::Need(place, number) => {
            let mut bytes = Vec::new(alloc);
            push_group(&mut bytes, index.need(place, number))?;
            text.push(1)?;
            push_bytes(&mut text, bytes.as_slice())?;
        }
        Constraint::Apart(place, number) => text.extend_from_slice(&[2, place, number])?,
        Constraint::Only(name) => text.extend_from_slice(&[3, name])?,
    }
    Ok(text)
}

/// The number of a text: its place among some, behind which it goes where it is new.
fn number_of(texts: &mut IndexSet<Vec<u32>>, text: Vec<u32>) -> Result<u32, AllocError>
    ensures texts { OnOk result (texts_of texts.new ≡ with_text (texts_of texts.old) text.items) }
    ensures number { IfOk result (λ number. number_in text.items (texts_of texts.new) ≡ Some number) }
{
    let (place, _) = texts.insert_full(text)?;
    // There is no memory for so many texts that the place of one doesn't fit.
    if place > u32::MAX as usize {
        return Err(AllocError);
    }
    Ok(place as u32)
}

/// The numbers of what the final constraints of a core say, in their order.
fn numbers_said(
    alloc: Global,
    index: &Index,
    core: &[Constraint],
    said: &mut IndexSet<Vec<u32>>,
) -> Result<Vec<u32>, AllocError>
    requires { All (IsOfIndex index.now) core.now }
    ensures numbers { IfOk result (λ numbers. (texts : List (List ℕ)) → IsFront (texts_of said.new) texts
        → map Some numbers.items ≡ map (number_said index.now texts) (cause_in index.now core.now)) }
    ensures grown { OnOk result (Grows (texts_of said.old) (texts_of said.new) (map (says index.now) (cause_in index.now core.now))) }
{
    let mut numbers = Vec::new(alloc);
    for constraint in core {
        if is_final(alloc, index, *constraint)? {
            let text = says_of(alloc, index, *constraint)?;
            numbers.push(number_of(said, text)?)?;
        }
    }
    Ok(numbers)
}

/// What constraints say, and what causes say, each by the numbers of what its constraints say.
#[derive(Drop)]
pub(crate) struct Wrongs {
    said: IndexSet<Vec<u32>>,
    causes: IndexSet<Vec<u32>>,
}

impl Wrongs {
    ghost use Rattle.deb_causes.specs.Wrongs.{AreNumbered, causes_of, said_of};

    /// None so far.
    pub(crate) fn new(alloc: Global) -> Wrongs
        ensures said { said_of result ≡ [] }
        ensures causes { causes_of result ≡ [] }
    {
        Wrongs {
            said: IndexSet::new(alloc),
            causes: IndexSet::new(alloc),
        }
    }

    /// How many causes there are.
    pub(crate) fn count(&self) -> usize
        ensures { result ≡ length (causes_of self.now) }
    {
        self.causes.len()
    }

    /// The number of the cause that a core has.
    pub(crate) fn number(
        &mut self,
        alloc: Global,
        index: &Index,
        core: &[Constraint],
    ) -> Result<u32, AllocError>
        requires { All (IsOfIndex index.now) core.now }
        ensures { IfOk result (λ number. AreNumbered index.now self.old self.new ((number, core.now) ∷ [])) }
    {
        let mut key = numbers_said(alloc, index, core, &mut self.said)?;
        sort_once(&mut key);
        let number = number_of(&mut self.causes, key)?;
        Ok(number)
    }
}
