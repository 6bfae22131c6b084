ghost use Rattle.std.specs.Prelude.{◌≡◌, ◌<◌, ◌≤◌, ◌*◌, ◌↔◌, IfOk, IsTrue, length, slice_index};
ghost use Rattle.field_table.specs.Residues.{AreResidues, HasResidues};
ghost use Rattle.field_table.specs.Terms.{HasPlacesBelow};
ghost use Rattle.linear_algebra.specs.Coordinates.{IsKeptList};
ghost use Rattle.linear_algebra.specs.Dense.{dense};
ghost use Rattle.linear_algebra.specs.Sparse.{sparse};
ghost use Rattle.manin_relations.specs.Relations.{relations};
ghost use Rattle.p1_normal.specs.Points.{symbols};
ghost use Rattle.quotient_coords.specs.Quotient.{AreCoordinates, HasCoordinates, HasKeptCoefficients, IsCertificate, dimension, free_symbols, lifted};

use crate::certificate::{Certificate, adds_up, is_in_range};
use crate::coordinates::lifted_terms;
use crate::free_symbols::places_without_pivot;
use crate::row_sums::{combination_of_counts, combination_of_rows};
use crate::symbol_table::symbol_rows;
use field_table::{Combo, Field, OutOfMemory, PlaceTable, Residues};
use manin_relations::Relations;
use p1_normal::Level;
use sparse_echelon::{Echelon, eliminate};
use std::alloc::Global;
use std::marker::Model;

/// The quotient of the combinations of the symbols of a level by the relations, over a field. Contracts
/// see its level N and its characteristic p; the m symbols, the 2 m relations and the d free symbols are
/// those of N and p.
#[derive(Drop)]
pub struct Space {
    level: Level,
    field: Field,
    echelon: Echelon,
    free: PlaceTable,
    rows: Vec<Combo>,
}

impl Model for Space {
    ghost use Rattle.quotient_coords.specs.Quotient.{Ground};

    ghost Value = { Ground };

    ghost use Rattle.std.specs.Prelude.{length};
    ghost use Rattle.p1_normal.specs.Points.{symbols};
    ghost use Rattle.quotient_coords.specs.Tables.{AreSymbolRows, IsSpace};

    ghost view = { λ s. record { level = s.level; characteristic = s.field } };

    ghost invariant = { λ s. IsSpace s.level s.field s.echelon s.free.places
        × AreSymbolRows s.level s.field (length (symbols s.level)) s.rows.items };
}

impl Space {
    /// Eliminates the relations of the level over the field, and makes a table of the coordinates of each
    /// symbol from the rows of the echelon form.
    pub fn open(alloc: Global, level: Level, field: Field) -> Result<Space, OutOfMemory>
        ensures { IfOk result (λ s. s ≡ record { level = level; characteristic = field }) }
    {
        let relations = Relations::build(alloc, &level, field)?;
        let echelon = eliminate(alloc, field, relations.rows(), level.count())?;
        let free = places_without_pivot(alloc, &echelon, level.count())?;
        let rows = symbol_rows(alloc, field, &echelon, &free, level.count())?;
        Ok(Space {
            level,
            field,
            echelon,
            free,
            rows,
        })
    }

    /// The level N, with its symbols.
    pub fn level(&self) -> &Level
        ensures { result.now ≡ self.now.level }
    {
        &self.level
    }

    /// The field.
    pub fn field(&self) -> Field
        ensures { result ≡ self.now.characteristic }
    {
        self.field
    }

    /// The dimension d: the number of free symbols.
    pub fn dim(&self) -> u32
        ensures dimension { result ≡ dimension self.now.level self.now.characteristic }
        ensures within { result ≤ length (symbols self.now.level) }
    {
        self.free.count()
    }

    /// The j-th free symbol, in rising order, counted from 0.
    pub fn free(&self, j: u32) -> u32
        requires { j < dimension self.now.level self.now.characteristic }
        ensures symbol { result ≡ slice_index (free_symbols self.now.level self.now.characteristic) j }
        ensures below { result < length (symbols self.now.level) }
    {
        self.free.place(j as usize)
    }

    /// The numbers of the relations that are no combination of those before them, rising.
    pub fn kept(&self) -> &[u32]
        ensures { IsKeptList (relations {p = self.now.characteristic} self.now.level)
            (2 * length (symbols self.now.level)) result.now }
    {
        self.echelon.kept()
    }

    /// The coordinates of a combination of symbols: the one list of d residues by which the combination
    /// of the free symbols is congruent to it. Costs a pass over d numbers with a reduction for each, and
    /// one product for each coordinate other than 0 of each symbol that a term names, in sums of 64 bits.
    pub fn coords(&self, alloc: Global, combo: &Combo) -> Result<Residues, OutOfMemory>
        requires places { HasPlacesBelow (length (symbols self.now.level)) combo.now }
        requires residues { HasResidues self.now.characteristic combo.now }
        ensures { IfOk result (HasCoordinates self.now combo.now) }
    {
        self.coords_of_terms(alloc, combo.terms())
    }

    /// The coordinates of a sum of terms in any order, repeats included. Costs what `coords` costs.
    pub fn coords_of_terms(
        &self,
        alloc: Global,
        terms: &[(u32, u32)],
    ) -> Result<Residues, OutOfMemory>
        requires { HasPlacesBelow (length (symbols self.now.level)) terms.now }
        ensures { IfOk result (HasCoordinates self.now terms.now) }
    {
        Ok(Residues::of(combination_of_rows(
            alloc,
            self.field,
            self.rows.as_slice(),
            terms,
            self.dim(),
        )?))
    }

    /// The coordinates of the combination with these m coefficients, which need be no residues. Costs what
    /// `coords` costs, and a pass over m numbers.
    pub fn coords_of_counts(&self, alloc: Global, counts: &[u32]) -> Result<Residues, OutOfMemory>
        requires { length counts.now ≡ length (symbols self.now.level) }
        ensures { IfOk result (AreCoordinates self.now.level (dense self.now.characteristic counts.now)) }
    {
        Ok(Residues::of(combination_of_counts(
            alloc,
            self.field,
            self.rows.as_slice(),
            counts,
            self.dim(),
        )?))
    }

    /// The combination of the free symbols with these d coefficients. Costs d steps.
    pub fn lift(&self, alloc: Global, coords: &[u32]) -> Result<Combo, OutOfMemory>
        requires count { length coords.now ≡ dimension self.now.level self.now.characteristic }
        requires residues { AreResidues self.now.characteristic coords.now }
        ensures vector { IfOk result (λ c.
            sparse self.now.characteristic c ≡ lifted self.now.level self.now.characteristic coords.now) }
        ensures places { IfOk result (HasPlacesBelow (length (symbols self.now.level))) }
        ensures residues { IfOk result (HasResidues self.now.characteristic) }
    {
        Ok(Combo::of(lifted_terms(alloc, &self.free, coords)?))
    }

    /// The one list of coefficients over the kept relations by which these add up to a combination less that of the
    /// free symbols by its coordinates. Costs a pass over 2 m numbers, and one step for each coefficient of the rows
    /// at its bound symbols.
    pub fn kept_coefficients(&self, alloc: Global, combo: &Combo) -> Result<Combo, OutOfMemory>
        requires places { HasPlacesBelow (length (symbols self.now.level)) combo.now }
        requires residues { HasResidues self.now.characteristic combo.now }
        ensures { IfOk result (HasKeptCoefficients self.now combo.now) }
    {
        let coefficients = self.echelon.trace(alloc, combo)?;
        let _rising = coefficients.terms();
        Ok(coefficients)
    }

    /// The combination with its coordinates and its coefficients over the kept relations. Costs what `coords` and
    /// `kept_coefficients` cost, and a copy of the terms.
    pub fn certify(&self, alloc: Global, combo: &Combo) -> Result<Certificate, OutOfMemory>
        requires places { HasPlacesBelow (length (symbols self.now.level)) combo.now }
        requires residues { HasResidues self.now.characteristic combo.now }
        ensures combo { IfOk result (λ c. c.combo ≡ combo.now) }
        ensures coords { IfOk result (λ c. HasCoordinates self.now combo.now c.coords) }
        ensures trace { IfOk result (λ c. HasKeptCoefficients self.now combo.now c.trace) }
        ensures certificate { IfOk result (λ c. IsCertificate self.now c.combo c.coords c.trace) }
    {
        let coords = self.coords(alloc, combo)?;
        let trace = self.echelon.trace(alloc, combo)?;
        let terms = Vec::from_slice(alloc, combo.terms())?;
        Ok(Certificate {
            combo: Combo::of(terms),
            coords,
            trace,
        })
    }

    /// Whether the certificate is in range and adds up: its coordinates are d residues, its places are
    /// symbols and relations, its numbers residues, and the relations add up by its trace to its
    /// combination less that of the free symbols by its coordinates. Sums relations at each symbol, and
    /// takes nothing from the elimination but which symbols are free. Takes no memory. Costs six
    /// searches for each symbol.
    pub fn check(&self, c: &Certificate) -> bool
        ensures { IsTrue result ↔ IsCertificate self.now c.now.combo c.now.coords c.now.trace }
    {
        is_in_range(&self.level, self.field, &self.free, c)
            && adds_up(&self.level, self.field, &self.free, c)
    }
}
