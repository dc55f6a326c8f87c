//! Lists of the spans that speak of each variable, and behind these of each group.

ghost use Rattle.std.specs.Prelude.{ℕ, ◌<◌, length, OnOk};
ghost use Rattle.sat_solve.specs.Rotation.{HasAt, IsListed, ListsOn};

use crate::clause::Problem;
use std::alloc::{AllocError, Global};

/// Lists a span, where there is a list.
fn push_number(lists: &mut Vec<Vec<u32>>, key: usize, number: u32) -> Result<(), AllocError>
    ensures on { OnOk result (ListsOn lists.old.items lists.new.items) }
    ensures here { OnOk result (HasAt lists.new.items key number) }
{
    if key < lists.len() {
        lists[key].push(number)?;
    }
    Ok(())
}

/// Lists a span at all that it speaks of.
fn push_span(lists: &mut Vec<Vec<u32>>, problem: &Problem, number: u32) -> Result<(), AllocError>
    requires number { number < length problem.now.spans.now }
    ensures on { OnOk result (ListsOn lists.old.items lists.new.items) }
    ensures here { OnOk result (IsListed problem.now lists.new.items number) }
{
    let span = problem.spans[number as usize];
    let literals = &problem.literals[span.start..span.end];
    for literal in literals {
        push_number(lists, literal.var as usize, number)?;
    }
    if let Some(owner) = span.owner {
        push_number(lists, owner as usize, number)?;
    }
    push_number(lists, problem.vars as usize + span.group as usize, number)?;
    Ok(())
}

/// Lists all spans, and nothing else, in a list for each variable and each group.
pub(crate) fn list_spans(
    alloc: Global,
    lists: &mut Vec<Vec<u32>>,
    problem: &Problem,
) -> Result<(), AllocError>
    ensures { OnOk result ((k : ℕ) → k < length problem.now.spans.now → IsListed problem.now lists.new.items k) }
{
    for key in 0..lists.len() {
        lists[key].clear();
    }
    for _ in lists.len()..problem.vars as usize + problem.keep.len() {
        lists.push(Vec::new(alloc))?;
    }
    for number in 0..problem.spans.len() {
        if number > u32::MAX as usize {
            return Err(AllocError);
        }
        push_span(lists, problem, number as u32)?;
    }
    Ok(())
}

/// How many numbers the lists of all spans have.
pub(crate) fn listed_by(problem: &Problem) -> usize {
    let mut count: usize = 0;
    for span in problem.spans {
        count = count.saturating_add(span.end.saturating_sub(span.start).saturating_add(2));
    }
    count
}
