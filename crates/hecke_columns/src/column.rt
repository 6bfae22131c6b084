ghost use Rattle.std.specs.Prelude.{◌≡◌, ◌<◌, ◌≤◌, IfOk, length};
ghost use Rattle.field_table.specs.Residues.{AreResidues};
ghost use Rattle.heilbronn_sets.specs.Merel.{merel_matrices};
ghost use Rattle.p1_normal.specs.declared.matrix.TheConstants.{MAX_DET};
ghost use Rattle.p1_normal.specs.Points.{symbols};
ghost use Rattle.p1_normal.specs.Units.{gcd};
ghost use Rattle.quotient_coords.specs.Quotient.{dimension};
ghost use Rattle.hecke_columns.specs.Hecke.{IsHeckeColumn};

use crate::chains::column_by_chains;
use crate::steps::Steps;
use crate::sum::column_of;
use crate::turns::Turns;
use crate::walk::column_by_turns;
use field_table::{OutOfMemory, Residues};
use heilbronn_sets::MatrixSet;
use quotient_coords::Space;
use std::alloc::Global;
use std::marker::Model;

/// A column of a Hecke operator: the coordinates of Merel's sum of determinant n of a symbol, at a level and
/// a characteristic. Its type keeps that they are.
#[derive(Debug, Drop)]
pub struct Column {
    modulus: u32,
    characteristic: u32,
    n: u32,
    symbol: u32,
    coords: Residues,
}

impl Model for Column {
    ghost use Rattle.hecke_columns.specs.Hecke.{HeckeColumn, IsHeckeColumn};

    ghost Value = { HeckeColumn };

    ghost view = { λ c. record { modulus = c.modulus; characteristic = c.characteristic; n = c.n; symbol = c.symbol; coords = c.coords } };

    ghost invariant = { λ c. IsHeckeColumn (record { modulus = c.modulus; characteristic = c.characteristic; n = c.n; symbol = c.symbol; coords = c.coords }) };
}

impl Column {
    /// Computes the column of symbol k, over the set, which is Merel's set of its determinant. Costs what
    /// `column_of` costs.
    pub fn compute(
        alloc: Global,
        space: &Space,
        set: &MatrixSet,
        k: u32,
    ) -> Result<Column, OutOfMemory>
        requires place { k < length (symbols space.now.level) }
        requires coprime { gcd set.now.det space.now.level ≡ 1 }
        requires merel { set.now.list ≡ merel_matrices set.now.det }
        ensures space { IfOk result (λ c. (c.modulus ≡ space.now.level) × (c.characteristic ≡ space.now.characteristic)) }
        ensures n { IfOk result (λ c. c.n ≡ set.now.det) }
        ensures symbol { IfOk result (λ c. c.symbol ≡ k) }
        ensures column { IfOk result IsHeckeColumn }
    {
        let coords = column_of(alloc, space, set, k)?;
        Ok(Column {
            modulus: space.level().modulus(),
            characteristic: space.field().characteristic(),
            n: set.det(),
            symbol: k,
            coords,
        })
    }

    /// Computes the column of symbol k over Merel's set of determinant n, and walks the set's chains in place of
    /// storing it. Takes the starts of the chains, as many matrices as the divisors of n add up to, and m numbers.
    /// Costs a division and an image of the symbol for each matrix, and then what `coords_of_counts` costs.
    pub fn by_chains(alloc: Global, space: &Space, n: u32, k: u32) -> Result<Column, OutOfMemory>
        requires place { k < length (symbols space.now.level) }
        requires some { 0 < n }
        requires limit { n ≤ MAX_DET }
        requires coprime { gcd n space.now.level ≡ 1 }
        ensures space { IfOk result (λ c. (c.modulus ≡ space.now.level) × (c.characteristic ≡ space.now.characteristic)) }
        ensures n { IfOk result (λ c. c.n ≡ n) }
        ensures symbol { IfOk result (λ c. c.symbol ≡ k) }
        ensures column { IfOk result IsHeckeColumn }
    {
        let coords = column_by_chains(alloc, space, n, k)?;
        Ok(Column {
            modulus: space.level().modulus(),
            characteristic: space.field().characteristic(),
            n,
            symbol: k,
            coords,
        })
    }

    /// Computes the column of symbol k over Merel's set whose chains the steps walk, with a table of turns of
    /// the level. Costs an image of the symbol for each chain and a look-up for each other matrix, or an image
    /// where its step is past the limit of the table. Then it costs what `coords_of_terms` costs for the images
    /// where there are less than m / 2, else what `coords_of_counts` costs, and takes a number for each image or
    /// for each symbol. All columns of one n share the steps, and all columns of a level the table.
    pub fn by_turns(
        alloc: Global,
        space: &Space,
        turns: &Turns,
        steps: &Steps,
        k: u32,
    ) -> Result<Column, OutOfMemory>
        requires table { turns.now.level ≡ space.now.level }
        requires place { k < length (symbols space.now.level) }
        requires coprime { gcd steps.now space.now.level ≡ 1 }
        ensures space { IfOk result (λ c. (c.modulus ≡ space.now.level) × (c.characteristic ≡ space.now.characteristic)) }
        ensures n { IfOk result (λ c. c.n ≡ steps.now) }
        ensures symbol { IfOk result (λ c. c.symbol ≡ k) }
        ensures column { IfOk result IsHeckeColumn }
    {
        let coords = column_by_turns(alloc, space, turns, steps, k)?;
        Ok(Column {
            modulus: space.level().modulus(),
            characteristic: space.field().characteristic(),
            n: steps.n(),
            symbol: k,
            coords,
        })
    }

    /// The level N.
    pub fn modulus(&self) -> u32
        ensures { result ≡ self.now.modulus }
    {
        self.modulus
    }

    /// The characteristic p.
    pub fn characteristic(&self) -> u32
        ensures { result ≡ self.now.characteristic }
    {
        self.characteristic
    }

    /// The determinant n of the matrices.
    pub fn n(&self) -> u32
        ensures { result ≡ self.now.n }
    {
        self.n
    }

    /// The number of the symbol.
    pub fn symbol(&self) -> u32
        ensures { result ≡ self.now.symbol }
    {
        self.symbol
    }

    /// The coordinates, d residues.
    pub fn coords(&self) -> &[u32]
        ensures coords { result.now ≡ self.now.coords }
        ensures column { IsHeckeColumn self.now }
        ensures count { length result.now ≡ dimension self.now.modulus self.now.characteristic }
        ensures residues { AreResidues self.now.characteristic result.now }
    {
        self.coords.as_slice()
    }
}
