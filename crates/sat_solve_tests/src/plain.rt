//! A plain search: all sets of at most sixteen variables, in their order.

use sat_solve::{Lit, Owner};
use std::alloc::{AllocError, Global};

/// The bit of a variable. That of variable 0 is the highest of sixteen: so of two sets the smaller number comes first.
fn bit(var: u32) -> u32 {
    if var < 16 { 0x8000 >> var } else { 0 }
}

/// A clause, its variables as bits.
#[derive(Clone, Copy)]
pub struct Bits {
    group: u32,
    ins: u32,
    outs: u32,
}

impl Bits {
    /// A clause of a group.
    pub fn new(group: u32, clause: &[Lit]) -> Bits {
        let mut bits = Bits {
            group,
            ins: 0,
            outs: 0,
        };
        for literal in clause {
            if literal.positive {
                bits.ins |= bit(literal.var);
            } else {
                bits.outs |= bit(literal.var);
            }
        }
        bits
    }

    /// An owner and another variable aren't both in.
    pub fn apart(owner: Owner, other: u32) -> Bits {
        Bits {
            group: owner.group,
            ins: 0,
            outs: bit(owner.var) | bit(other),
        }
    }

    /// Whether a set makes it true, where its group is kept.
    fn is_met(self, keep: &[bool], set: u32) -> bool {
        keep.get(self.group as usize) != Some(&true) || set & self.ins != 0 || !set & self.outs != 0
    }
}

/// The first set of so many variables, of which it looks at sixteen, that contains `must` and makes each clause of a kept group true, as bits.
pub fn first_set(clauses: &[Bits], vars: u32, keep: &[bool], must: u32) -> Option<u32> {
    let vars = vars.min(16);
    for number in 0..1u32 << vars {
        let set = number << (16 - vars);
        if set & bit(must) != 0 && clauses.iter().all(|clause| clause.is_met(keep, set)) {
            return Some(set);
        }
    }
    None
}

/// The variables of a set, rising.
pub fn members_of(alloc: Global, set: u32) -> Result<Vec<u32>, AllocError> {
    let mut members = Vec::new(alloc);
    for var in 0..16 {
        if set & bit(var) != 0 {
            members.push(var)?;
        }
    }
    Ok(members)
}
