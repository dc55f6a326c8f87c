//! What is left of names without their numbers.

ghost use Rattle.std.specs.Prelude.{◌≡◌, ◌++◌, ◌||◌, [], ℕ, List, All, IfOk, OnOk, map, not, true};
ghost use Rattle.std.specs.Char.{is_ascii_digit};
ghost use Rattle.std.specs.HashMap.{keys, values};
ghost use Rattle.std.specs.List.{list_any};
ghost use Rattle.std.specs.Str.{bytes_eq};
ghost use Rattle.deb_relation.specs.Relationship.{atom_view};
ghost use Rattle.deb_index.specs.Constraints.{IsOfIndex};
ghost use Rattle.deb_causes.specs.Near.{is_numeric, is_stem, is_sum, stem, stem_of_word, AreSought, has_text};

use crate::near::alternatives_of;
use deb_index::{Constraint, Index};
use deb_relation::Atom;
use std::alloc::{AllocError, Global};
use std::collections::{HashMap, HashSet};

/// Whether a byte is one of a version number.
fn is_numeric(byte: u8) -> bool
    ensures { result ≡ is_numeric byte }
{
    byte.is_ascii_digit() || byte == b'.'
}

/// Whether a word has a digit.
fn has_digit(word: &[u8]) -> bool
    ensures { result ≡ list_any is_ascii_digit word.now }
{
    word.iter().any(|byte| byte.is_ascii_digit())
}

/// Whether a word is a sum that an interface is named by.
fn is_sum(word: &[u8]) -> bool
    ensures { result ≡ is_sum word.now }
{
    word.len() == 5 && has_digit(word)
}

/// Adds what is left of a word without its numbers.
fn push_word(out: &mut Vec<u8>, word: &[u8]) -> Result<(), AllocError>
    ensures { OnOk result (out.new.items ≡ out.old.items ++ stem_of_word word.now) }
{
    if is_sum(word) {
        return Ok(());
    }
    for byte in word {
        if !is_numeric(*byte) {
            out.push(*byte)?;
        }
    }
    Ok(())
}

/// Puts down what is left of a name without its numbers, in the place of what the list held.
pub(crate) fn put_stem(out: &mut Vec<u8>, name: &[u8]) -> Result<(), AllocError>
    ensures { OnOk result (out.new.items ≡ stem name.now) }
{
    out.clear();
    for word in name.split(|byte| *byte == b'-') {
        push_word(out, word)?;
        out.push(b'-')?;
    }
    out.pop();
    Ok(())
}

/// Whether what is left of a name is a stem, which hyphens alone are not.
pub(crate) fn is_stem(left: &[u8]) -> bool
    ensures { result ≡ is_stem left.now }
{
    left.iter().any(|byte| *byte != b'-')
}

/// Adds a text to a set, and says whether the set didn't have it.
pub(crate) fn insert_once(
    alloc: Global,
    text: &[u8],
    texts: &mut HashSet<Vec<u8>>,
) -> Result<bool, AllocError>
    ensures new { IfOk result (λ new. new ≡ not (has_text (map (λ one. one.items) texts.old.keys) text.now)) }
    ensures has { OnOk result ((name : List ℕ) → has_text (map (λ one. one.items) texts.new.keys) name
        ≡ (bytes_eq name text.now || has_text (map (λ one. one.items) texts.old.keys) name)) }
{
    if texts.contains(text) {
        return Ok(false);
    }
    texts.insert(Vec::from_slice(alloc, text)?)?;
    Ok(true)
}

/// Adds a stem with an empty list, unless it is there.
fn add_stem(
    alloc: Global,
    stem: &[u8],
    lists: &mut HashMap<Vec<u8>, Vec<Vec<u8>>>,
) -> Result<(), AllocError>
    ensures has { OnOk result ((one : List ℕ) → has_text (map (λ key. key.items) (keys lists.new)) one
        ≡ (bytes_eq one stem.now || has_text (map (λ key. key.items) (keys lists.old)) one)) }
    ensures none { OnOk result (All (λ list. list.items ≡ []) (values lists.old) → All (λ list. list.items ≡ []) (values lists.new)) }
{
    if lists.contains_key(stem) {
        return Ok(());
    }
    lists.insert(Vec::from_slice(alloc, stem)?, Vec::new(alloc))?;
    Ok(())
}

/// The stems of the alternatives of all needs among the constraints, with an empty list for each.
pub(crate) fn stems_of(
    alloc: Global,
    index: &Index,
    constraints: &[Constraint],
) -> Result<HashMap<Vec<u8>, Vec<Vec<u8>>>, AllocError>
    requires { All (IsOfIndex index.now) constraints.now }
    ensures sought { IfOk result (λ lists. AreSought index.now (map (λ key. key.items) (keys lists)) constraints.now) }
    ensures none { IfOk result (λ lists. All (λ list. list.items ≡ []) (values lists)) }
{
    let atoms = alternatives_of(alloc, index, constraints)?;
    let mut lists = HashMap::new(alloc);
    let mut buffer = Vec::new(alloc);
    for atom in &atoms {
        put_stem(&mut buffer, atom.name.as_slice())?;
        add_stem(alloc, buffer.as_slice(), &mut lists)?;
    }
    Ok(lists)
}
