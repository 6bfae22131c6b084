ghost use Rattle.std.specs.Prelude.{◌≡◌, ◌<◌, ◌≤◌, [], ◌∷◌, ℕ, All, IsSome, None, OnOk, length, nat_eq};
ghost use Rattle.std.specs.List.{IsDistinct, range_with_len};
ghost use Rattle.indexmap.specs.IndexMap.{get, keys};
ghost use Rattle.p1_normal.specs.Points.{symbols};
ghost use Rattle.p1_normal.specs.Units.{gcd};
ghost use Rattle.hecke_columns.specs.Walks.{IsWalk, walk_number};
ghost use Rattle.quotient_coords.specs.Quotient.{Ground};
ghost use Rattle.session_core.specs.ColumnTable.{AreColumns, IsColumnAt, determinant_of_demand, merel};
ghost use Rattle.session_core.specs.Demands.{
  Adds,
  Has,
  HasAll,
  HasColumns,
  ServesDemand,
  demand_pairs,
  is_pair,
  symbol_pairs,
};

use crate::demand::Demand;
use field_table::{Field, OutOfMemory, axpy};
use hecke_columns::{Column, ColumnSource, Walk, Walks};
use indexmap::IndexMap;
use quotient_coords::Space;
use std::alloc::Global;
use std::marker::Model;

type Columns = IndexMap<(u32, u32), Column>;

/// The columns that a host has computed, each once, in the order in which they came, and what they are made by.
/// Contracts see the ground (the level and the characteristic), and the pairs (n, symbol) of the columns.
#[derive(Drop)]
pub struct ColumnTable {
    modulus: u32,
    field: Field,
    walks: Walks,
    columns: Columns,
}

impl Model for ColumnTable {
    ghost use Rattle.std.specs.Prelude.{◌≡◌};
    ghost use Rattle.indexmap.specs.IndexMap.{keys};
    ghost use Rattle.quotient_coords.specs.Quotient.{ground_of};
    ghost use Rattle.session_core.specs.ColumnTable.{Gathered, AreColumns};

    ghost Value = { Gathered };

    ghost view = { λ t. record { ground = ground_of t.modulus t.field; pairs = keys t.columns } };

    ghost invariant = { λ t. (t.walks ≡ t.modulus) × AreColumns (ground_of t.modulus t.field) t.columns.entries };
}

// Computes the column of symbol k along the walk, which is not in the table, and takes it in.
fn add_column(
    alloc: Global,
    walk: &Walk<'_>,
    columns: &mut Columns,
    space: &Space,
    n: u32,
    k: u32,
) -> Result<(), OutOfMemory>
    requires walk { IsWalk space.now.level walk.now }
    requires number { walk_number walk.now ≡ n }
    requires coprime { gcd n space.now.level ≡ 1 }
    requires place { k < length (symbols space.now.level) }
    requires columns { AreColumns space.now columns.old.entries }
    requires absent { get is_pair columns.old (n, k) ≡ None }
    ensures columns { AreColumns space.now columns.new.entries }
    ensures adds { Adds ((n, k) ∷ []) (keys columns.old) (keys columns.new) }
    ensures held { OnOk result (Has (keys columns.new) (n, k)) }
{
    let column = walk.column(alloc, space, k)?;
    columns.insert((n, k), column)?;
    Ok(())
}

// Takes the column of symbol k along the walk into the table, if it is not there.
fn hold_column(
    alloc: Global,
    walk: &Walk<'_>,
    columns: &mut Columns,
    space: &Space,
    n: u32,
    k: u32,
) -> Result<(), OutOfMemory>
    requires walk { IsWalk space.now.level walk.now }
    requires number { walk_number walk.now ≡ n }
    requires coprime { gcd n space.now.level ≡ 1 }
    requires place { k < length (symbols space.now.level) }
    requires columns { AreColumns space.now columns.old.entries }
    ensures columns { AreColumns space.now columns.new.entries }
    ensures adds { Adds ((n, k) ∷ []) (keys columns.old) (keys columns.new) }
    ensures held { OnOk result (Has (keys columns.new) (n, k)) }
{
    if columns.contains_key(&(n, k)) {
        return Ok(());
    }
    add_column(alloc, walk, columns, space, n, k)
}

// Takes the columns of these symbols along the walk into the table.
fn hold_columns(
    alloc: Global,
    walk: &Walk<'_>,
    columns: &mut Columns,
    space: &Space,
    n: u32,
    given: &[u32],
) -> Result<(), OutOfMemory>
    requires walk { IsWalk space.now.level walk.now }
    requires number { walk_number walk.now ≡ n }
    requires coprime { gcd n space.now.level ≡ 1 }
    requires places { All (λ k. k < length (symbols space.now.level)) given.now }
    requires columns { AreColumns space.now columns.old.entries }
    ensures columns { AreColumns space.now columns.new.entries }
    ensures adds { Adds (symbol_pairs n given.now) (keys columns.old) (keys columns.new) }
    ensures held { OnOk result (HasAll (keys columns.new) (symbol_pairs n given.now)) }
{
    for k in given {
        hold_column(alloc, walk, columns, space, n, *k)?;
    }
    Ok(())
}

// Takes the columns of all symbols along the walk into the table.
fn hold_all_columns(
    alloc: Global,
    walk: &Walk<'_>,
    columns: &mut Columns,
    space: &Space,
    n: u32,
) -> Result<(), OutOfMemory>
    requires walk { IsWalk space.now.level walk.now }
    requires number { walk_number walk.now ≡ n }
    requires coprime { gcd n space.now.level ≡ 1 }
    requires columns { AreColumns space.now columns.old.entries }
    ensures columns { AreColumns space.now columns.new.entries }
    ensures adds { Adds (symbol_pairs n (range_with_len 0 (length (symbols space.now.level))))
        (keys columns.old) (keys columns.new) }
    ensures held { OnOk result (HasAll (keys columns.new) (symbol_pairs n (range_with_len 0
        (length (symbols space.now.level))))) }
{
    for k in 0..space.level().count() {
        hold_column(alloc, walk, columns, space, n, k)?;
    }
    Ok(())
}

// Takes the columns of a demand into the table, along a walk that is readied for as many.
fn hold_demand(
    alloc: Global,
    walks: &mut Walks,
    columns: &mut Columns,
    space: &Space,
    demand: &Demand,
) -> Result<(), OutOfMemory>
    requires level { walks.old ≡ space.now.level }
    requires demand { HasColumns space.now.level demand.now }
    requires columns { AreColumns space.now columns.old.entries }
    ensures level { walks.new ≡ walks.old }
    ensures columns { AreColumns space.now columns.new.entries }
    ensures adds { Adds (demand_pairs space.now.level demand.now) (keys columns.old) (keys columns.new) }
    ensures held { OnOk result (HasAll (keys columns.new)
        (demand_pairs space.now.level demand.now)) }
{
    match demand {
        Demand::Nothing => Ok(()),
        Demand::Some { n, symbols } => {
            let count = symbols.as_slice().len().min(u32::MAX as usize) as u32;
            walks.hold(alloc, space.level(), *n, count)?;
            hold_columns(
                alloc,
                &walks.walk(*n),
                columns,
                space,
                *n,
                symbols.as_slice(),
            )
        }
        Demand::All { n } => {
            walks.hold(alloc, space.level(), *n, space.level().count())?;
            hold_all_columns(alloc, &walks.walk(*n), columns, space, *n)
        }
    }
}

// The column of a symbol, which is there.
fn column_at(columns: &Columns, n: u32, symbol: u32) -> &Column
    requires held { Has (keys columns.now) (n, symbol) }
    ensures { (g : Ground) → AreColumns g columns.now.entries → IsColumnAt g n symbol result.now }
{
    match columns.get(&(n, symbol)) {
        Some(column) => column,
        None => unreachable!(),
    }
}

// The determinant of a demand, and 1 where it is nothing.
fn determinant_of(demand: &Demand) -> u32
    ensures { result ≡ determinant_of_demand demand.now }
{
    match demand {
        Demand::Nothing => 1,
        Demand::Some { n, .. } => *n,
        Demand::All { n } => *n,
    }
}

impl ColumnTable {
    /// A table of no columns for the space. It takes no memory.
    pub fn new(alloc: Global, space: &Space) -> ColumnTable
        ensures ground { result.ground ≡ space.now }
        ensures none { result.pairs ≡ [] }
    {
        ColumnTable {
            modulus: space.level().modulus(),
            field: space.field(),
            walks: Walks::new(alloc, space.level()),
            columns: IndexMap::new(alloc),
        }
    }

    /// How many columns there are, each with a pair of its own.
    pub fn count(&self) -> u64
        ensures count { result ≡ length self.now.pairs }
        ensures distinct { IsDistinct is_pair self.now.pairs }
    {
        self.columns.len() as u64
    }

    /// Computes the columns of a demand that are not there, and keeps them. A column that is there costs one look-up.
    /// For a demand of many columns it first keeps what makes them cheaper, and for all later demands of the same n.
    pub fn gather(
        &mut self,
        alloc: Global,
        space: &Space,
        demand: &Demand,
    ) -> Result<(), OutOfMemory>
        requires ground { self.old.ground ≡ space.now }
        requires columns { HasColumns space.now.level demand.now }
        ensures ground { self.new.ground ≡ space.now }
        ensures adds { Adds (demand_pairs space.now.level demand.now) self.old.pairs self.new.pairs }
        ensures held { OnOk result (HasAll self.new.pairs
            (demand_pairs space.now.level demand.now)) }
    {
        hold_demand(alloc, &mut self.walks, &mut self.columns, space, demand)
    }

    // The column of a symbol, which is there.
    fn column(&self, n: u32, k: u32) -> &Column
        requires held { Has self.now.pairs (n, k) }
        ensures { IsColumnAt self.now.ground n k result.now }
    {
        column_at(&self.columns, n, k)
    }

    // The field of the columns.
    fn field(&self) -> Field
        ensures { result ≡ self.now.ground.characteristic }
    {
        self.field
    }

    /// A source over what was gathered for a demand. It takes no memory.
    pub fn source<'a>(&'a self, demand: &Demand) -> TableColumns<'a>
        requires held { HasAll self.now.pairs (demand_pairs self.now.ground.level demand.now) }
        ensures { ServesDemand (⟦<TableColumns<'a> as ColumnSource>⟧.setting result)
            (⟦<TableColumns<'a> as ColumnSource>⟧.matrices result) (⟦<TableColumns<'a> as ColumnSource>⟧.can_give result)
            self.now.ground demand.now }
    {
        let n = determinant_of(demand);
        TableColumns { table: self, n }
    }
}

/// A source of the columns over Merel's set of determinant n that a table has.
#[derive(Drop)]
pub struct TableColumns<'a> {
    table: &'a ColumnTable,
    n: u32,
}

impl<'a> ColumnSource for TableColumns<'a> {
    ghost use Rattle.session_core.specs.ColumnTable.{merel};
    ghost use Rattle.session_core.specs.Demands.{is_pair};
    ghost use Rattle.std.specs.Set.{is_member};

    ghost setting = { λ s. s.table.now.ground };

    ghost matrices = { λ s. merel s.n };

    ghost can_give = { λ s k. is_member is_pair s.table.now.pairs (s.n, k) };

    fn determinant(&self) -> u32 {
        self.n
    }

    fn add_column(
        &mut self,
        _alloc: Global,
        k: u32,
        coefficient: u32,
        into: &mut [u32],
    ) -> Result<(), OutOfMemory> {
        let column = self.table.column(self.n, k);
        axpy(self.table.field(), into, coefficient, column.coords());
        Ok(())
    }
}
