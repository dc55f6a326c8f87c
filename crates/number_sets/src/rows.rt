//! Rows of numbers, such as places, one behind the other, of which one serves all who ask for the same.
ghost use Rattle.std.specs.Prelude.{◌≡◌, ◌<◌, ◌+◌, ◌^◌, ◌++◌, ◌∷◌, ℕ, List, [], Option, Some, None, IfOk, OnErr, OnOk};
ghost use Rattle.std.specs.Prelude.{length, map, slice_index_or};
ghost use Rattle.std.specs.List.{All};
ghost use Rattle.std.specs.Option.{option_map};

use std::alloc::{AllocError, Global};
use std::marker::Model;

/// Rows of places, each of which was put down once. Some are left out.
#[derive(Drop)]
struct RowStore {
    /// Where each row ends among the places; it begins where the one before it ends.
    ends: Vec<usize>,
    /// Whether each row is kept. Nothing lies in one that is left out.
    kept: Vec<bool>,
    places: Vec<u32>,
}

impl Model for RowStore {
    ghost use Rattle.std.specs.Prelude.{◌≡◌, ℕ, List, Option, length};
    ghost use Rattle.number_sets.specs.Rows.{AreEnds, rows_from};

    ghost Value = { List (Option (List ℕ)) };

    ghost view = { λ r. rows_from 0 r.places.items r.ends.items r.kept.items };

    ghost invariant = { λ r. AreEnds 0 (length r.places.items) r.ends.items × (length r.ends.items ≡ length r.kept.items) };
}

impl RowStore {
    /// Puts a row down, last, or that it is left out.
    fn push(&mut self, row: Option<&[u32]>) -> Result<(), AllocError>
        ensures ok { OnOk result (self.new ≡ self.old ++ option_map (λ r. r.now) row.entry ∷ []) }
        ensures err { OnErr result (self.new ≡ self.old) }
    {
        // The places come last of what may be refused: none of them lies behind the last end.
        self.ends.reserve(1)?;
        self.kept.reserve(1)?;
        self.places.extend_from_slice(row.unwrap_or(&[]))?;
        self.ends.push_reserved(self.places.len());
        self.kept.push_reserved(row.is_some());
        Ok(())
    }

    /// Puts all rows of another store down, in their order.
    fn append(&mut self, more: &RowStore) -> Result<(), AllocError>
        ensures { OnOk result (self.new ≡ self.old ++ more.now) }
    {
        for number in 0..more.len() {
            self.push(more.get(number))?;
        }
        Ok(())
    }

    /// How many rows were put down or left out.
    fn len(&self) -> usize
        ensures { result ≡ length self.now }
    {
        self.ends.len()
    }

    /// The row with a number, unless it is left out.
    fn get(&self, number: usize) -> Option<&[u32]>
        requires { number < length self.now }
        ensures { option_map (λ r. r.now) result ≡ slice_index_or self.now number None }
    {
        if !self.kept[number] {
            return None;
        }
        let start = start_of(&self.ends, number);
        let end = self.ends[number];
        Some(&self.places[start..end])
    }
}

/// Where a row begins, by the ends of all rows.
fn start_of(ends: &[usize], number: usize) -> usize
    requires { number < length ends.now }
    ensures { result ≡ slice_index_or (0 ∷ ends.now) number 0 }
{
    if number == 0 { 0 } else { ends[number - 1] }
}

/// Adds the numbers of rows whose store stands behind so many rows of another.
fn push_behind(numbers: &mut Vec<u32>, before: u32, more: &[u32]) -> Result<(), AllocError>
    requires { All (λ n. before + n < 2 ^ 32) more.now }
    ensures { OnOk result (numbers.new.items ≡ numbers.old.items ++ map (λ n. before + n) more.now) }
{
    for number in more {
        numbers.push(before + *number)?;
    }
    Ok(())
}

/// Rows of places by number. Some are left out. A row that comes again lies there once.
#[derive(Drop)]
pub struct Rows {
    /// The number of each in the store.
    numbers: Vec<u32>,
    store: RowStore,
}

impl Model for Rows {
    ghost use Rattle.std.specs.Prelude.{◌<◌, ◌≤◌, ℕ, List, Option, length};
    ghost use Rattle.std.specs.List.{All};
    ghost use Rattle.number_sets.specs.Rows.{rows_by};

    ghost Value = { List (Option (List ℕ)) };

    ghost view = { λ r. rows_by r.store r.numbers.items };

    ghost invariant = { λ r. All (λ n. n < length r.store) r.numbers.items × (length r.store ≤ length r.numbers.items) };
}

impl Rows {
    /// No rows.
    pub fn new(alloc: Global) -> Rows
        ensures { result ≡ [] }
    {
        Rows {
            numbers: Vec::new(alloc),
            store: RowStore {
                ends: Vec::new(alloc),
                kept: Vec::new(alloc),
                places: Vec::new(alloc),
            },
        }
    }

    /// Puts a row down, last, or that it is left out. `AllocError` where memory is refused: then no row came.
    pub fn push(&mut self, row: Option<&[u32]>) -> Result<(), AllocError>
        requires { length self.old < 2 ^ 32 }
        ensures ok { OnOk result (self.new ≡ self.old ++ option_map (λ r. r.now) row.entry ∷ []) }
        ensures err { OnErr result (self.new ≡ self.old) }
    {
        self.numbers.reserve(1)?;
        let number = self.store.len() as u32;
        self.store.push(row)?;
        self.numbers.push_reserved(number);
        Ok(())
    }

    /// Puts the row with a number, from 0, down once more, last. `AllocError` where memory is refused: then no row came.
    pub fn push_again(&mut self, number: u32) -> Result<(), AllocError>
        requires { number < length self.old }
        ensures ok { OnOk result (self.new ≡ self.old ++ slice_index_or self.old number None ∷ []) }
        ensures err { OnErr result (self.new ≡ self.old) }
    {
        let number = self.numbers[number as usize];
        self.numbers.push(number)?;
        Ok(())
    }

    /// These rows, and behind them others, in their order. `AllocError` where memory is refused.
    pub fn followed_by(self, more: &Rows) -> Result<Rows, AllocError>
        requires { length self + length more.now < 2 ^ 32 }
        ensures { IfOk result (λ rows. rows ≡ self ++ more.now) }
    {
        let Rows {
            mut numbers,
            mut store,
        } = self;
        push_behind(&mut numbers, store.len() as u32, &more.numbers)?;
        store.append(&more.store)?;
        Ok(Rows { numbers, store })
    }

    /// How many rows were put down or left out.
    pub fn len(&self) -> usize
        ensures { result ≡ length self.now }
    {
        self.numbers.len()
    }

    /// The row with a number, from 0, unless it is left out.
    pub fn get(&self, number: usize) -> Option<&[u32]>
        requires { number < length self.now }
        ensures { option_map (λ r. r.now) result ≡ slice_index_or self.now number None }
    {
        self.store.get(self.numbers[number] as usize)
    }
}
