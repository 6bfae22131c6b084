ghost use Rattle.std.specs.Prelude.{◌≡◌, ◌≢◌, ◌<◌, ◌+◌, ◌++◌, ◌∷◌, [], ◌^◌, ⊤, ℕ, IfOk, MatchOption, OnOk, length};
ghost use Rattle.field_table.specs.Places.{nth_place};

use crate::memory::OutOfMemory;
use std::alloc::Global;
use std::marker::Model;

/// Different places below a width, in the order in which they were added, with a table over the width that finds
/// the number of each. Contracts see the width and the list.
#[derive(Drop)]
pub struct PlaceTable {
    places: Vec<u32>,
    numbers: Vec<Option<u32>>,
}

impl Model for PlaceTable {
    ghost use Rattle.field_table.specs.Places.{PlaceList, FindsPlaces};
    ghost use Rattle.std.specs.Prelude.{length};

    ghost Value = { PlaceList };

    ghost view = { λ t. record { width = length t.numbers.items; places = t.places.items } };

    ghost invariant = { λ t.
        FindsPlaces t.numbers.items (record { width = length t.numbers.items; places = t.places.items }) };
}

impl PlaceTable {
    /// The table of no place.
    pub fn none(alloc: Global, width: u32) -> Result<PlaceTable, OutOfMemory>
        ensures { IfOk result (λ t. t ≡ record { width = width; places = [] }) }
    {
        Ok(PlaceTable {
            places: Vec::new(alloc),
            numbers: vec![in alloc; None; width as usize]?,
        })
    }

    /// How many places there are.
    pub fn count(&self) -> u32
        ensures { result ≡ length self.now.places }
    {
        self.places.len() as u32
    }

    /// Place j of the list.
    pub fn place(&self, j: usize) -> u32
        requires { j < length self.now.places }
        ensures { result ≡ nth_place self.now j }
    {
        self.places[j]
    }

    /// The number of a place in the list. Constant time.
    pub fn number_of(&self, place: u32) -> Option<u32>
        ensures number { MatchOption result ((j : ℕ) → j < length self.now.places → nth_place self.now j ≢ place)
            (λ j. (j < length self.now.places) × (nth_place self.now j ≡ place)) }
        ensures only { MatchOption result ⊤ (λ j.
            (i : ℕ) → i < length self.now.places → nth_place self.now i ≡ place → i ≡ j) }
    {
        self.numbers.get(place as usize).copied().flatten()
    }

    /// Adds a place that is not in the list yet.
    pub fn push(&mut self, place: u32) -> Result<(), OutOfMemory>
        requires within { place < self.old.width }
        requires count { length self.old.places + 1 < 2 ^ 32 }
        requires other { (j : ℕ) → j < length self.old.places → nth_place self.old j ≢ place }
        ensures { OnOk result (self.new
            ≡ record { width = self.old.width; places = self.old.places ++ place ∷ [] }) }
    {
        let number = self.places.len() as u32;
        self.places.push(place)?;
        self.numbers[place as usize] = Some(number);
        Ok(())
    }
}
