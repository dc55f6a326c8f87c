//! Literals, where the literals of a clause stand, what a solve is asked, and marks by number.

ghost use Rattle.std.specs.Prelude.{◌≡◌, ◌<◌, true, false, length, slice_set};
ghost use Rattle.std.proofs.Props.{props};
ghost use Rattle.sat_solve.specs.Clauses.{AreClauses};

/// A literal: a variable, or its negation.
///
/// A positive literal holds in the sets that have its variable, a negative one in the others.
#[derive(Clone, Copy, PartialEq, Eq, Debug)]
pub struct Lit {
    /// The variable, counted from 0.
    pub var: u32,
    /// Whether the variable is to be in the set.
    pub positive: bool,
}

impl Lit {
    /// The literal that a variable is out.
    pub fn out(var: u32) -> Lit
        ensures { result ≡ record { var = var; positive = false } }
    {
        Lit {
            var,
            positive: false,
        }
    }
}

/// A variable that excludes the other ones of a list.
#[derive(Clone, Copy, PartialEq, Eq, Debug)]
pub struct Owner {
    /// The group that this is said in.
    pub group: u32,
    /// The variable, counted from 0.
    pub var: u32,
}

/// Where a clause's literals stand, and the group that it is in.
///
/// Where there is an owner, the literals stand for a list of variables, and the span for one clause with each other variable of
/// the list: it and the owner are not both in.
#[derive(Clone, Copy)]
pub(crate) struct Span {
    pub group: u32,
    pub start: usize,
    pub end: usize,
    pub owner: Option<u32>,
}

/// What a solve is asked: a formula's clauses, and which of its sets are looked for.
#[derive(Clone, Copy)]
pub(crate) struct Problem<'a> {
    pub vars: u32,
    /// The literals of all clauses, one clause after another.
    pub literals: &'a [Lit],
    pub spans: &'a [Span],
    /// One mark a group.
    pub keep: &'a [bool],
    /// The variable that is to be in.
    pub must: u32,
    ghost clauses: { AreClauses vars (length keep.now) literals.now spans.now } by { Prim.hlevel props },
    ghost in_range: { must < vars },
}

/// Marks a number, if there is a mark for it.
pub(crate) fn mark(marks: &mut Vec<bool>, number: u32)
    ensures { marks.new.items ≡ slice_set marks.old.items number true }
{
    if (number as usize) < marks.len() {
        marks[number as usize] = true;
    }
}
