//! Clauses, lists of exclusions and questions, written as lines of text.
//!
//! The line `0: !2 1` adds a clause to group 0: variable 2 is out, or variable 1 is in. The line `0.3 1.4 excludes 3 4 5` adds a list that
//! variable 3 excludes in group 0, and variable 4 in group 1. The line `10 3 = 1 3` asks for the first set with variable 3 where group 0 is
//! kept and group 1 is not, and says that it has the variables 1 and 3; `= none` says that there is no set.

ghost use Rattle.std.specs.Prelude.{◌<◌, All, IfOk};

use sat_solve::{Formula, Lit, Owner};
use std::alloc::{AllocError, AllocGlobal, Global};
use std::process::Abort;

/// The formula of so many variables and groups that these lines are followed with.
pub fn formula_of(
    rt: &(impl Abort + AllocGlobal),
    vars: u32,
    groups: u32,
    lines: &str,
) -> Result<Formula, AllocError> {
    let mut formula = Formula::new(rt.alloc(), vars, groups)?;
    follow(rt, &mut formula, lines)?;
    Ok(formula)
}

/// Adds the clauses and lists of these lines to a formula and sees that it answers their questions so, in their order.
pub fn follow(
    rt: &(impl Abort + AllocGlobal),
    formula: &mut Formula,
    lines: &str,
) -> Result<(), AllocError> {
    for line in lines.lines() {
        let fine = is_so(rt, formula, line.trim())?;
        assert!(rt; fine, "not so: {line}");
    }
    Ok(())
}

/// Adds what a line says, or tells whether a formula answers its question so.
fn is_so(
    rt: &(impl Abort + AllocGlobal),
    formula: &mut Formula,
    line: &str,
) -> Result<bool, AllocError> {
    if let Some((group, literals)) = line.split_once(':') {
        add(rt, formula, number_of(group), literals)?;
        return Ok(true);
    }
    if let Some((owners, list)) = line.split_once(" excludes ") {
        exclude(rt, formula, owners, list)?;
        return Ok(true);
    }
    match line.split_once(" = ") {
        Some((question, answer)) => answers(rt, formula, question, answer),
        None => Ok(line.is_empty()),
    }
}

/// The number that a word is, and the largest one for a word that is none.
fn number_of(word: &str) -> u32 {
    word.parse::<u32>().unwrap_or(u32::MAX)
}

/// Adds a clause of these literals to a group.
fn add(
    rt: &(impl Abort + AllocGlobal),
    formula: &mut Formula,
    group: u32,
    literals: &str,
) -> Result<(), AllocError> {
    let clause = clause_of(rt, literals, formula.vars())?;
    assert!(rt; group < formula.groups());
    formula.add(group, &clause)
}

/// The literals of a text, with variables below this one.
fn clause_of(
    rt: &(impl Abort + AllocGlobal),
    literals: &str,
    vars: u32,
) -> Result<Vec<Lit>, AllocError>
    ensures { IfOk result (λ clause. All (λ literal. literal.var < vars) clause.items) }
{
    let mut clause = Vec::new(rt.alloc());
    'words: for word in literals.split_whitespace() {
        let literal = literal_of(word);
        assert!(rt; literal.var < vars);
        clause.push(literal)?;
    }
    Ok(clause)
}

fn literal_of(word: &str) -> Lit {
    match word.strip_prefix('!') {
        Some(var) => Lit::out(number_of(var)),
        None => Lit {
            var: number_of(word),
            positive: true,
        },
    }
}

/// Adds a list with its owners.
fn exclude(
    rt: &(impl Abort + AllocGlobal),
    formula: &mut Formula,
    owners: &str,
    list: &str,
) -> Result<(), AllocError> {
    let owners = owners_of(rt, owners, formula.vars(), formula.groups())?;
    let list = list_of(rt, list, formula.vars())?;
    formula.exclude(&owners, &list)
}

/// The owners of a text, with variables and groups below these.
fn owners_of(
    rt: &(impl Abort + AllocGlobal),
    text: &str,
    vars: u32,
    groups: u32,
) -> Result<Vec<Owner>, AllocError>
    ensures groups { IfOk result (λ owners. All (λ owner. owner.group < groups) owners.items) }
    ensures vars { IfOk result (λ owners. All (λ owner. owner.var < vars) owners.items) }
{
    let mut owners = Vec::new(rt.alloc());
    'words: for word in text.split_whitespace() {
        let (group, var) = word.split_once('.').unwrap_or(("", ""));
        let owner = Owner {
            group: number_of(group),
            var: number_of(var),
        };
        assert!(rt; owner.group < groups && owner.var < vars);
        owners.push(owner)?;
    }
    Ok(owners)
}

/// The variables of a text, below this one.
fn list_of(rt: &(impl Abort + AllocGlobal), text: &str, vars: u32) -> Result<Vec<u32>, AllocError>
    ensures { IfOk result (λ list. All (λ var. var < vars) list.items) }
{
    let mut list = Vec::new(rt.alloc());
    'words: for word in text.split_whitespace() {
        let var = number_of(word);
        assert!(rt; var < vars);
        list.push(var)?;
    }
    Ok(list)
}

/// Whether a formula answers so.
fn answers(
    rt: &(impl Abort + AllocGlobal),
    formula: &Formula,
    question: &str,
    answer: &str,
) -> Result<bool, AllocError> {
    let Some((kept, must)) = question.split_once(' ') else {
        return Ok(false);
    };
    let (keep, must) = (marks_of(rt.alloc(), kept)?, number_of(must));
    assert!(rt; keep.len() == formula.groups() as usize && must < formula.vars());
    let found = formula.solve(rt.alloc(), &keep, must)?;
    Ok(is_written(&found, answer))
}

/// The marks of a text, a `1` for each that is set.
fn marks_of(alloc: Global, text: &str) -> Result<Vec<bool>, AllocError> {
    let mut marks = Vec::new(alloc);
    for byte in text.bytes() {
        marks.push(byte == b'1')?;
    }
    Ok(marks)
}

/// Whether this set, or that there is none, is written.
pub fn is_written(found: &Option<Vec<u32>>, text: &str) -> bool {
    match found {
        Some(members) => are_written(members, text),
        None => text == "none",
    }
}

/// Whether a text has these numbers.
fn are_written(numbers: &[u32], text: &str) -> bool {
    let mut left = numbers.iter();
    for word in text.split_whitespace() {
        if left.next().copied() != Some(number_of(word)) {
            return false;
        }
    }
    left.next().is_none()
}
