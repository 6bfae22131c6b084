ghost use Rattle.std.specs.Prelude.{◌≡◌, ◌<◌, ℕ, All, IfOk, IsOk, IsSome, OnErr, OnOk, Some, length, map, nat_eq, pos, true};
ghost use Rattle.std.specs.Arc.{arc_value};
ghost use Rattle.std.specs.Set.{is_member};
ghost use Rattle.field_table.specs.Residues.{AreResidues};
ghost use Rattle.heilbronn_sets.specs.Merel.{merel_matrices};
ghost use Rattle.p1_normal.specs.Actions.{determinant};
ghost use Rattle.quotient_coords.specs.Quotient.{Ground, dimension};
ghost use Rattle.hecke_columns.specs.Hecke.{AddsColumn};
ghost use Rattle.hecke_columns.specs.Gathering.{FindsSymbols, IsGathered, IsGatheredAt, merel, number_at, symbol_of};

use crate::column::Column;
use crate::source::ColumnSource;
use field_table::{Field, OutOfMemory, axpy};
use quotient_coords::Space;
use std::alloc::Global;
use std::marker::Model;
use std::sync::Arc;

/// A source over shared columns of one determinant n, which gives the symbols of these columns. It finds a column
/// by a look-up in a table over the m symbols, and adds it without memory. Contracts see the ground (the level
/// and the characteristic), n, and the symbols.
#[derive(Drop)]
pub struct GatheredColumns {
    modulus: u32,
    field: Field,
    n: u32,
    columns: Vec<Arc<Column>>,
    numbers: Vec<Option<usize>>,
}

impl Model for GatheredColumns {
    ghost use Rattle.std.specs.Prelude.{All, map};
    ghost use Rattle.std.specs.Arc.{arc_value};
    ghost use Rattle.quotient_coords.specs.Quotient.{ground_of};
    ghost use Rattle.hecke_columns.specs.Gathering.{FindsSymbols, Gathering, IsGathered, symbol_of};

    ghost Value = { Gathering };

    ghost view = { λ s. record { ground = ground_of s.modulus s.field; n = s.n; given = map (λ c. symbol_of (arc_value c)) s.columns.items } };

    ghost invariant = { λ s. All (λ c. IsGathered (ground_of s.modulus s.field) s.n (arc_value c)) s.columns.items
        × FindsSymbols (map (λ c. symbol_of (arc_value c)) s.columns.items) s.numbers.items };
}

// For each of so many symbols the number of its column, if there is one: of the last, if there are several.
fn numbers_of(
    alloc: Global,
    columns: &[Arc<Column>],
    count: u32,
) -> Result<Vec<Option<usize>>, OutOfMemory>
    requires places { All (λ c. symbol_of (arc_value c) < count) columns.now }
    ensures finds { IfOk result (λ numbers.
        FindsSymbols (map (λ c. symbol_of (arc_value c)) columns.now) numbers.items) }
{
    let mut numbers = vec![in alloc; None; count as usize]?;
    for i in 0..columns.len() {
        let symbol = columns[i].symbol() as usize;
        numbers[symbol] = Some(i);
    }
    Ok(numbers)
}

// The number of the column of symbol k, which is there.
fn number_of(numbers: &[Option<usize>], k: u32) -> usize
    requires given { IsSome (number_at numbers.now k) }
    ensures { number_at numbers.now k ≡ Some result }
{
    match numbers.get(k as usize) {
        Some(Some(number)) => *number,
        _ => unreachable!(),
    }
}

// The column of symbol k, which is there.
fn column_at<'a>(columns: &'a [Arc<Column>], numbers: &[Option<usize>], k: u32) -> &'a Column
    requires finds { FindsSymbols (map (λ c. symbol_of (arc_value c)) columns.now) numbers.now }
    requires given { is_member nat_eq (map (λ c. symbol_of (arc_value c)) columns.now) k ≡ true }
    ensures symbol { result.now.symbol ≡ k }
    ensures gathered { (g : Ground) (n : ℕ) → All (λ c. IsGathered g n (arc_value c)) columns.now →
        IsGathered g n result.now }
{
    &columns[number_of(numbers, k)]
}

impl GatheredColumns {
    /// The source over the columns, each of them of determinant n. Of two columns of one symbol it holds the last.
    /// Takes a number for each of the m symbols.
    pub fn of(
        alloc: Global,
        space: &Space,
        columns: Vec<Arc<Column>>,
        n: u32,
    ) -> Result<GatheredColumns, OutOfMemory>
        requires columns { All (λ c. IsGathered space.now n (arc_value c)) columns.items }
        ensures setting { IfOk result (λ s. ⟦<GatheredColumns as ColumnSource>⟧.setting s ≡ space.now) }
        ensures matrices { IfOk result (λ s. ⟦<GatheredColumns as ColumnSource>⟧.matrices s ≡ merel n) }
        ensures can_give { IfOk result (λ s. (k : ℕ) → ⟦<GatheredColumns as ColumnSource>⟧.can_give s k
            ≡ is_member nat_eq (map (λ c. symbol_of (arc_value c)) columns.items) k) }
    {
        let numbers = numbers_of(alloc, columns.as_slice(), space.level().count())?;
        Ok(GatheredColumns {
            modulus: space.level().modulus(),
            field: space.field(),
            n,
            columns,
            numbers,
        })
    }

    // The column of symbol k, which is there.
    fn column(&self, k: u32) -> &Column
        requires given { is_member nat_eq self.now.given k ≡ true }
        ensures { IsGatheredAt self.now.ground self.now.n k result.now }
    {
        column_at(self.columns.as_slice(), self.numbers.as_slice(), k)
    }

    // Adds the coefficient times the column of symbol k to the list, place by place.
    fn add(&self, k: u32, coefficient: u32, into: &mut [u32])
        requires given { is_member nat_eq self.now.given k ≡ true }
        requires coefficient { coefficient < self.now.ground.characteristic }
        requires count { length into.old ≡ dimension self.now.ground.level self.now.ground.characteristic }
        requires residues { AreResidues self.now.ground.characteristic into.old }
        ensures { AddsColumn self.now.ground (merel_matrices self.now.n) k coefficient into.old into.new }
    {
        let column = self.column(k);
        axpy(self.field(), into, coefficient, column.coords());
    }

    // The field of the columns.
    fn field(&self) -> Field
        ensures { result ≡ self.now.ground.characteristic }
    {
        self.field
    }
}

impl ColumnSource for GatheredColumns {
    ghost use Rattle.std.specs.Prelude.{nat_eq};
    ghost use Rattle.std.specs.Set.{is_member};
    ghost use Rattle.hecke_columns.specs.Gathering.{merel};

    ghost setting = { λ s. s.ground };

    ghost matrices = { λ s. merel s.n };

    ghost can_give = { λ s k. is_member nat_eq s.given k };

    fn determinant(&self) -> u32 {
        self.n
    }

    /// Takes no memory, so it is never refused.
    fn add_column(
        &mut self,
        _alloc: Global,
        k: u32,
        coefficient: u32,
        into: &mut [u32],
    ) -> Result<(), OutOfMemory>
        requires given { is_member nat_eq self.old.given k ≡ true }
        requires coefficient { coefficient < self.old.ground.characteristic }
        requires count { length into.old
            ≡ dimension self.old.ground.level self.old.ground.characteristic }
        requires residues { AreResidues self.old.ground.characteristic into.old }
        ensures succeeds { IsOk result }
        ensures added { OnOk result (AddsColumn self.old.ground (merel_matrices self.old.n)
            k coefficient into.old into.new) }
        ensures refused { OnErr result (into.new ≡ into.old) }
        ensures setting { self.new.ground ≡ self.old.ground }
        ensures matrices { merel self.new.n ≡ merel self.old.n }
        ensures can_give { is_member nat_eq self.new.given ≡ is_member nat_eq self.old.given }
    {
        self.add(k, coefficient, into);
        Ok(())
    }
}
