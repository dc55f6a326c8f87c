//! Drawn formulas: each solve of one gives the first set that the plain search finds, or none, and marked groups admit no set. Without one
//! that is marked as needed there is a set.

ghost use Rattle.std.specs.Prelude.{◌<◌};

use crate::plain::{Bits, first_set, members_of};
use sat_solve::{Formula, Lit, Owner, Rotation, Workspace};
use std::alloc::AllocGlobal;
use std::env::Env;
use std::process::Abort;

/// Numbers that look random, and are the same in each run.
#[derive(Drop)]
pub(crate) struct Numbers {
    pub(crate) state: u32,
}

impl Numbers {
    fn below(&mut self, bound: u32) -> u32
        requires { 0 < bound }
        ensures { result < bound }
    {
        self.state = self.state.wrapping_mul(1_103_515_245).wrapping_add(12_345);
        (self.state >> 16) % bound
    }

    pub(crate) fn literal(&mut self, vars: u32) -> Lit
        requires { 0 < vars }
        ensures { result.var < vars }
    {
        Lit {
            var: self.below(vars),
            positive: self.below(2) == 0,
        }
    }

    fn owner(&mut self, vars: u32) -> Owner
        requires { 0 < vars }
        ensures group { result.group < 3 }
        ensures var { result.var < vars }
    {
        Owner {
            group: self.below(3),
            var: self.below(vars),
        }
    }
}

/// Adds a drawn clause, of three literals where it is wide, to a formula of three groups and to what the plain search reads.
fn draw_clause(
    rt: &impl Abort,
    numbers: &mut Numbers,
    formula: &mut Formula,
    plain: &mut Vec<Bits>,
    wide: bool,
) {
    let vars = formula.vars();
    assert!(rt; 0 < vars && formula.groups() == 3);
    let group = numbers.below(3);
    let literals = [
        numbers.literal(vars),
        numbers.literal(vars),
        numbers.literal(vars),
    ];
    let count = match numbers.below(30) {
        0 if !wide => 0,
        1..=4 if !wide => 1,
        5..=14 if !wide => 2,
        _ => 3,
    };
    let clause = &literals[..count];
    plain.push(Bits::new(group, clause)).expect(rt, "no memory");
    formula.add(group, clause).expect(rt, "no memory");
}

/// Adds a drawn list of two owners.
fn draw_list(rt: &impl Abort, numbers: &mut Numbers, formula: &mut Formula, plain: &mut Vec<Bits>) {
    let vars = formula.vars();
    assert!(rt; 0 < vars && formula.groups() == 3);
    let owners = [numbers.owner(vars), numbers.owner(vars)];
    let list = [
        numbers.below(vars),
        numbers.below(vars),
        numbers.below(vars),
    ];
    for owner in &owners {
        for other in &list {
            if *other != owner.var {
                plain
                    .push(Bits::apart(*owner, *other))
                    .expect(rt, "no memory");
            }
        }
    }
    formula.exclude(&owners, &list).expect(rt, "no memory");
}

/// Fills a formula: the half that is hard has four to five clauses of three literals to a variable, and no lists.
fn fill(rt: &impl Abort, numbers: &mut Numbers, formula: &mut Formula, plain: &mut Vec<Bits>) {
    let vars = formula.vars();
    assert!(rt; 0 < vars && vars <= 16);
    let hard = numbers.below(2) == 0;
    let (clauses, lists) = if hard {
        (4 * vars + numbers.below(vars), 0)
    } else {
        (numbers.below(3 * vars), numbers.below(3))
    };
    for _ in 0..clauses {
        draw_clause(rt, numbers, formula, plain, hard);
    }
    for _ in 0..lists {
        draw_list(rt, numbers, formula, plain);
    }
}

/// Whether there is a set. Sees that a formula has the first one that the plain search finds, or none, and none by the marked groups.
fn has_first(
    rt: &(impl Abort + AllocGlobal),
    workspace: &mut Workspace,
    formula: &Formula,
    plain: &[Bits],
    keep: &[bool],
    must: u32,
) -> bool {
    assert!(rt; keep.len() == formula.groups() as usize && must < formula.vars());
    let mut marks = Vec::new(rt.alloc());
    let found = formula
        .solve_marked(rt.alloc(), workspace, keep, must, &mut marks)
        .expect(rt, "no memory");
    let first = first_set(plain, formula.vars(), keep, must);
    match first {
        Some(first) => {
            let members = members_of(rt.alloc(), first).expect(rt, "no memory");
            assert!(rt; found == Some(members));
            true
        }
        None => {
            assert!(rt; found.is_none());
            assert!(rt; first_set(plain, formula.vars(), &marks, must).is_none());
            false
        }
    }
}

/// Sees that without each group that is marked as needed there is a set.
fn expect_marks(
    rt: &(impl Abort + AllocGlobal),
    vars: u32,
    plain: &[Bits],
    keep: &[bool; 3],
    must: u32,
    marks: &[bool],
) {
    for group in 0..3 {
        if marks.get(group) == Some(&true) {
            let mut others = *keep;
            others[group] = false;
            assert!(rt; first_set(plain, vars, &others, must).is_some());
        }
    }
}

/// Where there is no set: sees what is marked as needed, from each set that breaks one group alone.
fn expect_needed(
    rt: &(impl Abort + AllocGlobal),
    workspace: &mut Workspace,
    rotation: &mut Rotation,
    formula: &Formula,
    plain: &[Bits],
    keep: &[bool; 3],
    must: u32,
) {
    assert!(rt; formula.groups() == 3 && must < formula.vars());
    for group in 0..3 {
        let mut others = *keep;
        others[group] = false;
        let found = formula
            .solve_in(rt.alloc(), workspace, &others, must)
            .expect(rt, "no memory");
        if let Some(set) = found {
            let marks = formula
                .mark_needed(rotation, keep, must, &set, group as u32)
                .expect(rt, "no memory");
            assert!(rt; marks.get(group) == Some(&true));
            expect_marks(rt, formula.vars(), plain, keep, must, marks);
        }
    }
}

/// Asks the formula of this number, of at most sixteen variables, for some drawn groups and variables.
fn expect_number(
    rt: &(impl Abort + AllocGlobal),
    workspace: &mut Workspace,
    rotation: &mut Rotation,
    number: u32,
) {
    let mut numbers = Numbers { state: number };
    // There are two to the power of the variables of sets: so few formulas have more than eight.
    let most = if number % 64 == 0 { 16 } else { 8 };
    let vars = 1 + numbers.below(most);
    let mut formula = Formula::new(rt.alloc(), vars, 3).expect(rt, "no memory");
    let mut plain = Vec::new(rt.alloc());
    fill(rt, &mut numbers, &mut formula, &mut plain);
    for _ in 0..4 {
        let keep = [
            numbers.below(4) > 0,
            numbers.below(4) > 0,
            numbers.below(4) > 0,
        ];
        let must = numbers.below(vars);
        if !has_first(rt, workspace, &formula, &plain, &keep, must) {
            expect_needed(rt, workspace, rotation, &formula, &plain, &keep, must);
        }
    }
}

/// How many formulas are drawn: 2,000, or as many as the environment's FORMULAS says.
fn count(rt: &impl Env) -> u32 {
    let mut word = [0; 16];
    let length = match rt.var("FORMULAS", &mut word) {
        Ok(length) => length.min(16),
        Err(_) => 0,
    };
    match std::str::from_utf8(&word[..length]) {
        Ok(word) => word.parse::<u32>().unwrap_or(2_000),
        Err(_) => 2_000,
    }
}

#[test]
fn drawn_formulas(rt: HostRuntime) {
    let mut workspace = Workspace::new(rt.alloc());
    let mut rotation = Rotation::new(rt.alloc());
    for number in 0..count(&rt) {
        expect_number(&rt, &mut workspace, &mut rotation, number);
    }
    drop(rotation);
    drop(workspace);
}
