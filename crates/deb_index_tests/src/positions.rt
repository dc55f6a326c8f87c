//! Where constraints stand in the list of all.

ghost use Rattle.std.specs.Prelude.{◌≡◌, ◌<◌, ◌^◌, length};
ghost use Rattle.deb_index.specs.Constraints.{constraints_of};

use crate::reading::{Texts, read};
use crate::showing::{Part, expect_shown};
use deb_index::{Constraint, Index};
use std::process::Abort;

const SEVERAL: &str =
    "a 1 {Pre-Depends: b; Depends: c | b, d; Conflicts: e} / b 1 {Essential: yes} / c 1 {Conflicts: a (<< 1), e; Breaks: d} / b 2 {Depends: c} /
d 1 {Essential: yes}";

/// Whether a constraint's own call gives this position.
fn is_at(index: &Index, constraint: Constraint, position: u32) -> bool {
    match constraint {
        Constraint::Essential(name) => {
            index.essential_names().get(position as usize) == Some(&name)
        }
        Constraint::Need(place, number) => {
            place < index.len()
                && number < index.need_count(place)
                && index.need_position(place, number) == position
        }
        Constraint::Apart(place, number) => {
            place < index.len()
                && number < index.apart_count(place)
                && index.apart_position(place, number) == position
        }
        Constraint::Only(name) => {
            name < index.name_count() && index.only_position(name) == position
        }
    }
}

fn expect_positions(rt: &impl Abort, index: &Index, constraints: &[Constraint])
    requires whole { constraints.now ≡ constraints_of index.now }
    requires few { length constraints.now < 2 ^ 32 }
{
    for number in 0..constraints.len() {
        let position = number as u32;
        let constraint = index.constraint_at(position);
        assert!(rt; constraint == constraints[number]);
        assert!(rt; is_at(index, constraint, position));
    }
}

const SEVERAL_SHOWN: &str =
    "[Essential(1), Essential(3), Need(0, 0), Need(0, 1), Need(0, 2), Apart(0, 0), Apart(2, 0), Apart(2, 1), Apart(2, 2), \
Need(3, 0), Only(0), Only(1), Only(2), Only(3)]
0: a 1 all, name 0, versions [0], marked false
1: b 1 all, name 1, versions [1, 3], marked false
2: c 1 all, name 2, versions [2], marked false
3: b 2 all, name 1, versions [1, 3], marked false
4: d 1 all, name 3, versions [4], marked false
";

fn expect_listed(rt: &(impl Abort + AllocGlobal), index: &Index) {
    let constraints = index.constraints(rt.alloc()).expect(rt, "no memory");
    assert!(rt; constraints.len() == 14);
    expect_positions(rt, index, &constraints);
}

#[test]
fn each_constraint_at_its_position(rt: HostRuntime) {
    let texts = Texts::Short(SEVERAL, "", true);
    expect_shown(
        &rt,
        "constraints and packages",
        texts,
        &[Part::Constraints, Part::Packages],
        SEVERAL_SHOWN,
    );
    let index = read(&rt, texts).expect(&rt, "a good text");
    expect_listed(&rt, &index);
    drop(index);
}
