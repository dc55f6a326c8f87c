//! A set of numbers, in the order in which they came: a sparse set (Briggs and Torczon, 1993), of which the list alone need be emptied.

ghost use Rattle.std.specs.Prelude.{◌≡◌, ◌⊎◌, ℕ, ◌<◌, ◌≤◌, ◌^◌, List, [], true, false, All, length, slice_get, Some, IfSome, IfNone, OnOk};
ghost use Rattle.std.specs.List.Sorted.{IsStrictlyIncreasing};
ghost use Rattle.number_sets.specs.Sets.{members_of, Grows, with_number, IsNumbered};

use std::alloc::{AllocError, Global};
use std::marker::Model;

/// Numbers, each once, in the order in which they came. Contracts see the list of them.
///
/// `positions` has, at each number of the list, where in the list it stands. What it has at other numbers means nothing: a position is
/// believed only where the list has the number there.
#[derive(Drop)]
pub struct SparseSet {
    numbers: Vec<u32>,
    positions: Vec<u32>,
}

impl Model for SparseSet {
    ghost use Rattle.std.specs.Prelude.{ℕ, List};

    ghost Value = { List ℕ };

    ghost view = { λ s. s.numbers.items };

    ghost use Rattle.number_sets.specs.Sets.{IsNumbered};

    ghost invariant = { λ s. IsNumbered s.numbers.items s.positions.items };
}

/// Has a position for a number, whatever it is; those of other numbers stay.
fn make_room(positions: &mut Vec<u32>, number: u32) -> Result<(), AllocError>
    ensures room { OnOk result (number < length positions.new.items) }
    ensures kept { (numbers : List ℕ) → IsNumbered numbers positions.old.items → IsNumbered numbers positions.new.items }
{
    if positions.len() <= number as usize {
        positions.resize(number as usize + 1, 0)?;
    }
    Ok(())
}

/// Writes down where each number stands.
fn write_positions(numbers: &[u32], positions: &mut [u32])
    requires rising { IsStrictlyIncreasing numbers.now }
    requires within { All (λ number. number < length positions.old) numbers.now }
    requires few { length positions.old ≤ 2 ^ 32 }
    ensures { IsNumbered numbers.now positions.new }
{
    for (position, number) in numbers.iter().enumerate() {
        positions[*number as usize] = position as u32;
    }
}

impl SparseSet {
    /// No numbers, and no room yet.
    pub fn new(alloc: Global) -> SparseSet
        ensures { result ≡ [] }
    {
        SparseSet {
            numbers: Vec::new(alloc),
            positions: Vec::new(alloc),
        }
    }

    /// Takes all numbers out, and keeps the room.
    pub fn clear(&mut self)
        ensures { self.new ≡ [] }
    {
        self.numbers.clear();
    }

    /// The numbers, in the order in which they came.
    pub fn as_slice(&self) -> &[u32]
        ensures { result.now ≡ self.now }
    {
        self.numbers.as_slice()
    }

    /// Where in the list a number stands, from 0.
    pub fn position_of(&self, number: u32) -> Option<usize>
        ensures some { IfSome result (λ position. slice_get self.now position ≡ Some number) }
        ensures none { IfNone result (members_of self.now number ≡ false) }
    {
        let position = *self.positions.get(number as usize)? as usize;
        match self.numbers.get(position) {
            Some(other) if *other == number => Some(position),
            _ => None,
        }
    }

    /// Whether a number is there.
    pub fn contains(&self, number: u32) -> bool
        ensures { result ≡ members_of self.now number }
    {
        self.position_of(number).is_some()
    }

    /// Puts a number in, last, if it isn't there.
    ///
    /// # Errors
    ///
    /// Want of memory.
    pub fn insert(&mut self, number: u32) -> Result<(), AllocError>
        ensures { OnOk result (self.new ≡ with_number self.old number) }
    {
        if self.contains(number) {
            return Ok(());
        }
        make_room(&mut self.positions, number)?;
        self.numbers.push(number)?;
        self.positions[number as usize] = (self.numbers.len() - 1) as u32;
        Ok(())
    }

    /// Puts in each of these numbers, last, that isn't there.
    ///
    /// # Errors
    ///
    /// Want of memory, with some of them put in.
    pub fn extend(&mut self, numbers: &[u32]) -> Result<(), AllocError>
        ensures grows { OnOk result ((count : ℕ) → All (λ number. number < count) numbers.now → Grows count self.old self.new) }
        ensures has { OnOk result (((q : ℕ) → members_of numbers.now q ≡ true → members_of self.new q ≡ true)) }
        ensures only { OnOk result ((q : ℕ) → members_of self.new q ≡ true → (members_of self.old q ≡ true) ⊎ (members_of numbers.now q ≡ true)) }
    {
        for number in numbers {
            self.insert(*number)?;
        }
        Ok(())
    }

    /// Brings the numbers in rising order.
    pub fn sort(&mut self)
        ensures rising { IsStrictlyIncreasing self.new }
        ensures same { (q : ℕ) → members_of self.new q ≡ members_of self.old q }
    {
        self.numbers.sort_unstable();
        write_positions(&self.numbers, &mut self.positions);
    }
}
