//! Places that some healthy set is seen to have: the base set and a few more are found without a search, and each is looked up to be healthy.

ghost use Rattle.std.specs.Prelude.{◌≡◌, ◌<◌, true, All, IfOk, length};
ghost use Rattle.number_sets.specs.Sets.{MarksOnly};
ghost use Rattle.deb_health.specs.Health.{IsInstallable};
ghost use Rattle.deb_groundwork.specs.BaseSets.{IsBase};

use crate::base_set::BaseSet;
use crate::groundwork::Groundwork;
use crate::growth::Witness;
use crate::large_set::LargeSet;
use crate::limits::{LARGE_SETS, LARGE_SETS_TIMES};
use crate::part::Part;
use crate::witness::is_seen_to_admit;
use deb_index::Index;
use std::alloc::{AllocError, Global};

/// Makes a set of a package, of essential ones, and of asked ones without a mark that fit. `false` where the package doesn't fit by itself.
fn grow(large: &mut LargeSet<'_>, asked: &[u32], marks: &[bool], start: u32) -> bool {
    if !large.add(start) {
        return false;
    }
    if large.add_essentials() {
        for place in asked {
            if marks.get(*place as usize) == Some(&false) {
                large.add(*place);
            }
        }
    }
    true
}

/// Marks the places of a set where it is seen to be healthy.
fn mark_healthy(index: &Index, set: &BaseSet, marks: &mut [bool])
    requires set { IsBase index.now set.now }
    requires count { length marks.old ≡ length index.now.packages }
    requires marks { MarksOnly (IsInstallable index.now) marks.old }
    ensures count { length marks.new ≡ length index.now.packages }
    ensures marks { MarksOnly (IsInstallable index.now) marks.new }
{
    if set.is_healthy(index) {
        for place in set.members.as_slice() {
            marks[*place as usize] = true;
        }
    }
}

/// Makes sets with asked packages that have no mark yet, and marks their places.
fn mark_sets(
    groundwork: &Groundwork<'_>,
    asked: &[u32],
    large: &mut LargeSet<'_>,
    marks: &mut [bool],
)
    requires asked { All (λ place. place < length groundwork.now.index.now.packages) asked.now }
    requires count { length marks.old ≡ length groundwork.now.index.now.packages }
    requires marks { MarksOnly (IsInstallable groundwork.now.index.now) marks.old }
    ensures count { length marks.new ≡ length groundwork.now.index.now.packages }
    ensures marks { MarksOnly (IsInstallable groundwork.now.index.now) marks.new }
{
    let mut sets = 0;
    for place in asked {
        if sets >= LARGE_SETS {
            return;
        }
        if marks[*place as usize] || groundwork.is_hopeless(*place) {
            continue;
        }
        large.clear(sets % 2 == 0);
        if grow(large, asked, marks, *place) {
            if large.set.is_base(groundwork.index) {
                mark_healthy(groundwork.index, &large.set, marks);
            }
            sets += 1;
        }
    }
}

/// Marks, by place, packages of the groundwork's index that some healthy set is seen to have; others may be installable, too. The base set of the
/// groundwork is looked up to be healthy, and then a few large sets with asked packages that have no mark yet, each found without a search (Debian
/// Policy 7.2 to 7.5; dose-debcheck(1) calls such a package installable). How many are marked is no promise.
///
/// `asked` has places of the index, counted from 0 and below its `len()`, in any order.
///
/// The one error is want of memory.
pub fn find_installable(
    alloc: Global,
    groundwork: &Groundwork<'_>,
    asked: &[u32],
) -> Result<Vec<bool>, AllocError>
    requires { All (λ place. place < length groundwork.now.index.now.packages) asked.now }
    ensures marks { IfOk result (λ marks. MarksOnly (IsInstallable groundwork.now.index.now) marks.items) }
    ensures count { IfOk result (λ marks. length marks.items ≡ length groundwork.now.index.now.packages) }
{
    let index = groundwork.index;
    let mut marks = vec![in alloc; false; index.len() as usize]?;
    mark_healthy(index, &groundwork.base, &mut marks);
    let mut large = LargeSet::new(alloc, index, &groundwork.lacking, LARGE_SETS_TIMES);
    mark_sets(groundwork, asked, &mut large, &mut marks);
    drop(large);
    Ok(marks)
}

/// Whether the package at a place is seen to be installable, without a search: by a set that grows for it on the base set.
pub fn is_seen_installable(groundwork: &Groundwork<'_>, p: u32, witness: &mut Witness) -> bool
    requires { p < length groundwork.now.index.now.packages }
    ensures { result ≡ true → IsInstallable groundwork.now.index.now p }
{
    let all = Part {
        index: groundwork.index,
        kept: &[],
        rest: 0,
        out: None,
    };
    is_seen_to_admit(&all, p, &groundwork.base, &groundwork.lacking, witness)
}
