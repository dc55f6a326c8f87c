//! Rising lists of numbers.

ghost use Rattle.std.specs.Prelude.{◌≡◌, ℕ};
ghost use Rattle.std.specs.List.Sorted.{IsStrictlyIncreasing};
ghost use Rattle.number_sets.specs.Sets.{members_of};

/// Brings numbers in rising order, each once.
pub fn sort_once(numbers: &mut Vec<u32>)
    ensures rising { IsStrictlyIncreasing numbers.new.items }
    ensures same { (number : ℕ) → members_of numbers.new.items number ≡ members_of numbers.old.items number }
{
    numbers.sort_unstable();
    numbers.dedup();
}
