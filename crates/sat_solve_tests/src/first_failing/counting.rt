//! How many questions a reduction asks.

ghost use Rattle.std.specs.Prelude.{◌≡◌};
ghost use Rattle.std.specs.List.Sorted.{IsStrictlyIncreasing};
ghost use Rattle.number_sets.specs.Sets.{members_of};
ghost use Rattle.core_extract.specs.Reduction.{left};

use core_extract::{Question, first_failing, next_of};
use number_sets::sort_once;
use std::alloc::{AllocError, Global};
use std::process::Abort;

/// Whether sets have all needed numbers. Each question is counted, and each refutation uses these numbers, and idly all that aren't settled
/// below one. Of the needed numbers those from one on are known.
#[derive(Drop)]
struct Counting<'a> {
    needed: &'a [u32],
    idle: u32,
    known: u32,
    rest: u32,
    asked: u32,
    ghost rising: { IsStrictlyIncreasing needed.now },
}

/// Whether a number is kept or stands from `rest` on.
fn is_left(kept: &[u32], rest: u32, number: u32) -> bool
    ensures { result ≡ left (members_of kept.now) rest number }
{
    kept.contains(&number) || rest <= number
}

impl<'a> Question for Counting<'a> {
    ghost use Rattle.std.specs.Prelude.{◌≡◌, refl};
    ghost use Rattle.std.proofs.Common.{◌∙◌};
    ghost use Rattle.core_extract.specs.Reduction.{listed};
    ghost use Rattle.sat_solve_tests.specs.Having.{HasAll, having_upward, or_idle};

    ghost is_failing = { λ q. HasAll (listed q.needed.now) };

    ghost used = { λ q. or_idle (listed q.needed.now) q.rest q.idle };

    ghost keeps = { λ before after. before.needed.now ≡ after.needed.now };

    ghost upward = { λ q. having_upward (listed q.needed.now) };

    ghost keeps_itself = { λ q. refl };

    ghost keeps_further = { λ first next last same also. same ∙ also };

    fn refute(&mut self, _alloc: Global, kept: &[u32], rest: u32) -> Result<bool, AllocError> {
        self.asked = self.asked.saturating_add(1);
        let mut at = 0;
        while let Some(number) = next_of(self.needed, at) {
            if !is_left(kept, rest, number) {
                return Ok(false);
            }
            at = number + 1;
        }
        self.rest = rest;
        Ok(true)
    }

    fn next_used(&self, from: u32) -> Option<u32> {
        let needed = next_of(self.needed, from);
        let idle = from.max(self.rest);
        if idle >= self.idle {
            return needed;
        }
        match needed {
            Some(number) => Some(number.min(idle)),
            None => Some(idle),
        }
    }

    fn is_needed(&self, kept: &[u32], number: u32) -> bool {
        self.known <= number
            && next_of(self.needed, number) == Some(number)
            && !kept.contains(&number)
    }
}

/// How many questions it takes where these numbers are needed, all below `idle` are used as long as they are there, and the needed ones from
/// `known` on are known; none, where the answer is another.
pub fn asked_for(
    alloc: Global,
    needed: &[u32],
    idle: u32,
    known: u32,
) -> Result<Option<u32>, AllocError> {
    let mut rising = Vec::from_slice(alloc, needed)?;
    sort_once(&mut rising);
    let mut question = Counting {
        needed: &rising,
        idle,
        known,
        rest: 0,
        asked: 0,
    };
    match first_failing(alloc, &mut question)? {
        Some(kept) if kept.as_slice() == needed => Ok(Some(question.asked)),
        _ => Ok(None),
    }
}

/// None of the needed numbers is known.
const NONE: u32 = u32::MAX;

/// Needed numbers, below which number all are used, from which one on the needed are known, and how many questions it takes.
static QUESTIONS: [(&[u32], u32, u32, u32); 12] = [
    // One question at first, and one for each number that is needed, wherever it stands.
    (&[], 0, NONE, 1),
    (&[0], 0, NONE, 2),
    (&[700], 0, NONE, 2),
    (&[1023], 0, NONE, 2),
    (&[0, 1023], 0, NONE, 3),
    (&[1, 2, 3, 511, 512, 1000], 0, NONE, 7),
    // Where refutations come in a row, one question takes out 1, 1, 2, 4, 8 numbers and so on. Where that takes out a needed one, it begins again.
    // 0, 1, 2 to 3, 4 to 7, and so on, to 512 to 1023
    (&[], 1024, NONE, 1 + 11),
    // 0, 1, 2 to 3 in vain; 2, 3 in vain
    (&[3], 4, NONE, 1 + 3 + 2),
    // 0, 1, 2 to 3, and so on, 64 to 127 in vain; 64, 65, 66 to 67, and so on, 96 to 127 in vain; 96, 97, 98 to 99, 100 to 103 in vain;
    // 100 in vain; 101, 102, 103 to 104, and so on, 613 to 1023
    (&[100], 1024, NONE, 1 + 8 + 7 + 4 + 1 + 11),
    // Of a number that is known to be needed none is asked, and a stride ends before it.
    (&[1, 2, 3, 511, 512, 1000], 0, 0, 1),
    (&[1, 2, 3, 511, 512, 1000], 0, 511, 1 + 3),
    // 0, 1, 2 to 3, and so on, 64 to 99; the strides go on growing: 101 to 228, 229 to 484, 485 to 996, 997 to 1023
    (&[100], 1024, 0, 1 + 8 + 4),
];

fn expect_asked(
    rt: &(impl Abort + AllocGlobal),
    needed: &[u32],
    idle: u32,
    known: u32,
    asked: u32,
) {
    let found = asked_for(rt.alloc(), needed, idle, known).expect(rt, "no memory");
    assert!(rt; found == Some(asked), "{needed:?}, {idle}, {known}");
}

#[test]
fn questions(rt: HostRuntime) {
    for (needed, idle, known, asked) in &QUESTIONS {
        expect_asked(&rt, *needed, *idle, *known, *asked);
    }
}
