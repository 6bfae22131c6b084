ghost use Rattle.std.specs.Prelude.{◌≡◌, ◌<◌, ◌-◌, ◌^◌, ◌↔◌, All, IfOk, IsTrue, length, map};
ghost use Rattle.field_table.specs.Residues.{HasResidues};
ghost use Rattle.field_table.specs.Terms.{HasPlacesBelow};
ghost use Rattle.linear_algebra.specs.Coordinates.{AreKeptCoefficientsOf, IsKeptList, IsReduction, unit};
ghost use Rattle.linear_algebra.specs.Echelon.{IsPivot};
ghost use Rattle.linear_algebra.specs.Span.{IsRank};
ghost use Rattle.linear_algebra.specs.Vector.{minus};
ghost use Rattle.sparse_echelon.specs.System.{system, vector, vectors};

use crate::elimination::stored_of;
use crate::spreading::{spread_remainder, spread_selected};
use crate::stored::Stored;
use field_table::{Combo, Field, OutOfMemory};
use std::alloc::{AllocError, Global};
use std::marker::Model;
use std::snapshot::Snapshot;

/// Rows that were eliminated. Contracts see the characteristic, the width and the rows as they were given. What is stored
/// beside them answers each question: a basis of their span in which each row is 1 at its greatest place and 0 at those of
/// the others, each with its coefficients over the given rows.
#[derive(Drop)]
pub struct Echelon {
    field: Field,
    width: u32,
    given: Vec<Snapshot<Combo>>,
    stored: Stored,
}

impl Model for Echelon {
    ghost use Rattle.std.specs.Prelude.{map};
    ghost use Rattle.sparse_echelon.specs.System.{System, system};

    ghost Value = { System };

    ghost use Rattle.sparse_echelon.specs.Stored.{IsEchelon};

    ghost view = { λ e. system e.field e.width (map (λ s. s.value) e.given.items) };

    ghost invariant = { λ e.
        IsEchelon (system e.field e.width (map (λ s. s.value) e.given.items)) e.stored };
}

// The rows, for contracts alone: a snapshot has no bytes, so the list takes no memory.
fn snapshots_of(alloc: Global, rows: &[Combo]) -> Result<Vec<Snapshot<Combo>>, AllocError>
    ensures { IfOk result (λ v. map (λ s. s.value) v.items ≡ rows.now) }
{
    let mut given = Vec::new(alloc);
    for row in rows {
        given.push(Snapshot::of(row))?;
    }
    Ok(given)
}

/// Eliminates the rows over the field, whose places are below the width (Cohen, A Course in Computational Algebraic Number
/// Theory, 2.3). A row that earlier ones don't span is kept: what they leave of it is scaled to 1 at its greatest place, and
/// that place is cleared from the stored rows that have it. A row that repeats the last one of the same least place is
/// skipped. Costs two lists over the width, and for each other row a merge of terms for each stored row that a term of it
/// selects, and for each stored row that is cleared. Keeps the terms of the stored rows and of their coefficients.
pub fn eliminate(
    alloc: Global,
    field: Field,
    rows: &[Combo],
    width: u32,
) -> Result<Echelon, OutOfMemory>
    requires count { length rows.now < u32.MAX }
    requires places { All (HasPlacesBelow width) rows.now }
    requires residues { All (HasResidues field) rows.now }
    ensures { IfOk result (λ e. e ≡ system field width rows.now) }
{
    let stored = stored_of(alloc, field, rows, width)?;
    let given = snapshots_of(alloc, rows)?;
    Ok(Echelon {
        field,
        width,
        given,
        stored,
    })
}

impl Echelon {
    /// Whether some combination of the rows has this place as the greatest of its support. Constant time.
    pub fn is_pivot(&self, place: u32) -> bool
        ensures { IsTrue result ↔ IsPivot (vectors self.now) place }
    {
        self.stored.leads.number_of(place).is_some()
    }

    /// The dimension of the span of the rows: the number of pivots, and of kept rows.
    pub fn rank(&self) -> u32
        ensures { IsRank (vectors self.now) result }
    {
        self.stored.kept.len() as u32
    }

    /// The numbers of the rows that are no combination of the rows before them, rising.
    pub fn kept(&self) -> &[u32]
        ensures { IsKeptList (vectors self.now) (length self.now.rows) result.now }
    {
        self.stored.kept.as_slice()
    }

    /// The row of the basis whose greatest place is this pivot: the combination that is 1 there less its reduction. So its
    /// other places are no pivots. Constant time. Takes no memory.
    pub fn row(&self, place: u32) -> &Combo
        requires { IsPivot (vectors self.now) place }
        ensures row { IsReduction (vectors self.now) (unit place) (minus (unit place) (vector self.now result.now)) }
        ensures places { HasPlacesBelow self.now.width result.now }
        ensures residues { HasResidues self.now.characteristic result.now }
    {
        match self.stored.leads.number_of(place) {
            Some(row) => &self.stored.basis[row as usize],
            None => unreachable!(),
        }
    }

    /// The one combination of places without pivots that differs from x by a combination of the rows
    /// (`linear_algebra::reductions_are_unique`). Costs a pass over the width, and a step for each term of
    /// the rows at the pivots of x.
    pub fn reduce(&self, alloc: Global, x: &Combo) -> Result<Combo, OutOfMemory>
        requires places { HasPlacesBelow self.now.width x.now }
        requires residues { HasResidues self.now.characteristic x.now }
        ensures reduction { IfOk result (λ y.
            IsReduction (vectors self.now) (vector self.now x.now) (vector self.now y)) }
        ensures places { IfOk result (λ y. HasPlacesBelow self.now.width y) }
        ensures residues { IfOk result (λ y. HasResidues self.now.characteristic y) }
    {
        let mut left = vec![in alloc; 0; self.width as usize]?;
        spread_remainder(
            self.field,
            &self.stored.leads,
            &self.stored.basis,
            x.terms(),
            &mut left,
        );
        Combo::from_dense(alloc, &left)
    }

    /// The one list of coefficients over kept rows, each at the number of its row, with which the rows add up to x less
    /// its reduction (`linear_algebra::kept_coefficients_are_unique`). Costs a pass over the number of rows, and a step
    /// for each coefficient of the rows at the pivots of x.
    pub fn trace(&self, alloc: Global, x: &Combo) -> Result<Combo, OutOfMemory>
        requires places { HasPlacesBelow self.now.width x.now }
        requires residues { HasResidues self.now.characteristic x.now }
        ensures trace { IfOk result (λ c.
            AreKeptCoefficientsOf (vectors self.now) (vector self.now x.now) (vector self.now c)) }
        ensures rows { IfOk result (λ c. HasPlacesBelow (length self.now.rows) c) }
        ensures residues { IfOk result (λ c. HasResidues self.now.characteristic c) }
    {
        let mut coefficients = vec![in alloc; 0; self.given.len()]?;
        spread_selected(
            self.field,
            1,
            &self.stored.leads,
            &self.stored.logs,
            x.terms(),
            &mut coefficients,
        );
        Combo::from_dense(alloc, &coefficients)
    }
}
