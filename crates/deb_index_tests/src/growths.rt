//! One test for each call that can want memory; trials/growths runs them with each growth refused in turn.

use crate::backgrounds::{NEEDED, NEEDING, USED, USED_SHOWN};
use crate::reading::{Texts, read};
use crate::rows::{SHARED, providers};
use crate::showing::{Part, expect_text, shown};
use crate::texts::VERSIONED;
use deb_index::{Constraint, Index};
use deb_relation::parse_list;
use std::alloc::{AllocError, Global};
use std::process::Abort;
use std::test::Fail;
use std::thread::Threads;

static READ: [Part; 3] = [Part::Counts, Part::Packages, Part::Name("bar")];

const READ_SHOWN: &str = "packages 3, stanzas 3, skipped 0, duplicates 0
0: foo 1 all, name 0, versions [0], marked false
1: bar 0.9 all, name 1, versions [1], marked false
2: bar-plus 1 all, name 2, versions [2], marked false
bar: number Some(1), places [1], provided [(2, 0)]
";

fn expect_read(
    rt: &(impl Abort + Threads + Sync + AllocGlobal),
    texts: Texts,
    parts: &[Part],
    wanted: &str,
) -> Result<(), Fail> {
    let found = shown(rt, texts, parts)?;
    expect_text(rt, "what was read", found.as_str(), wanted);
    Ok(())
}

#[test]
fn of_read(rt: HostRuntime) -> Result<(), Fail> {
    expect_read(&rt, Texts::One(VERSIONED, true), &READ, READ_SHOWN)
}

#[test]
fn of_read_both(rt: HostRuntime) -> Result<(), Fail> {
    let texts = Texts::Both(NEEDING, NEEDED, true);
    expect_read(&rt, texts, &USED, USED_SHOWN)
}

/// A thread that can't be started for want of memory is no fault: its part is read by the caller.
#[test]
fn of_read_side_by_side(rt: HostRuntime) -> Result<(), Fail> {
    let texts = Texts::Parted(NEEDING, NEEDED, 2);
    expect_read(&rt, texts, &USED, USED_SHOWN)
}

#[test]
fn of_read_in_pieces(rt: HostRuntime) -> Result<(), Fail> {
    let texts = Texts::Pieces(&[b"\n\n", NEEDING], NEEDED, 2);
    expect_read(&rt, texts, &USED, USED_SHOWN)
}

/// How a test ends that went on behind a call that was refused memory.
fn ended(refused: bool) -> Result<(), Fail> {
    if refused {
        return Err(Fail::new("out of memory"));
    }
    Ok(())
}

fn met(alloc: Global, index: &Index, text: &[u8]) -> Result<Vec<u32>, AllocError> {
    let Ok(atoms) = parse_list(alloc, text) else {
        return Err(AllocError);
    };
    let [atom] = atoms.as_slice() else {
        return Ok(Vec::new(alloc));
    };
    index.satisfiers(alloc, atom)
}

/// These places meet an atom. The call that was refused memory may be made again; whether it was.
fn was_refused(
    rt: &(impl Abort + AllocGlobal),
    index: &Index,
    atom: &[u8],
    places: &[u32],
) -> bool {
    let (found, refused) = match met(rt.alloc(), index, atom) {
        Ok(found) => (found, false),
        Err(AllocError) => (met(rt.alloc(), index, atom).expect(rt, "no memory"), true),
    };
    assert!(rt; found.as_slice() == places);
    refused
}

#[test]
fn of_satisfiers(rt: HostRuntime) -> Result<(), Fail> {
    let index = read(&rt, Texts::One(VERSIONED, true))?;
    let bounded = was_refused(&rt, &index, b"bar (>= 1.0)", &[2]);
    let refused = was_refused(&rt, &index, b"bar", &[1, 2]);
    drop(index);
    ended(bounded || refused)
}

/// The list that was lent to a call that was refused memory may be lent again; whether it was.
fn was_refused_answers(rt: &(impl Abort + AllocGlobal), index: &Index) -> bool {
    assert!(rt; index.len() == 263);
    assert!(rt; index.need_count(0) == 5);
    let mut found = Vec::new(rt.alloc());
    let refused = index.answers(0, 0, &mut found).is_err();
    let answers = index.answers(0, 0, &mut found).expect(rt, "no memory");
    assert!(rt; answers.len() == 262);
    refused
}

#[test]
fn of_answers(rt: HostRuntime) -> Result<(), Fail> {
    let text = providers(rt.alloc(), SHARED, 262, false)?;
    let index = read(&rt, Texts::One(text.as_bytes(), true))?;
    let refused = was_refused_answers(&rt, &index);
    drop(index);
    ended(refused)
}

fn was_refused_constraints(rt: &(impl Abort + AllocGlobal), index: &Index) -> bool {
    use Constraint::{Need, Only};
    let (found, refused) = match index.constraints(rt.alloc()) {
        Ok(found) => (found, false),
        Err(AllocError) => (index.constraints(rt.alloc()).expect(rt, "no memory"), true),
    };
    assert!(rt; found.as_slice() == [Need(0, 0), Need(0, 1), Only(0)].as_slice());
    refused
}

#[test]
fn of_constraints(rt: HostRuntime) -> Result<(), Fail> {
    let lacking = b"Package: a\nVersion: 1\nArchitecture: all\nDepends: x, y\n";
    let index = read(&rt, Texts::One(lacking, true))?;
    let refused = was_refused_constraints(&rt, &index);
    drop(index);
    ended(refused)
}
