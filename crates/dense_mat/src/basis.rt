ghost use Rattle.std.specs.Prelude.{◌≡◌, ◌↔◌, ◌<◌, ◌≤◌, ℕ, IfOk, IsTrue, length};
ghost use Rattle.std.specs.List.{range_with_len};
ghost use Rattle.dense_mat.specs.Echelon.{AreRows, IsEchelon};
ghost use Rattle.dense_mat.specs.Subspace.{Subspace, subspace, IsBasisOf};
ghost use Rattle.field_table.specs.Residues.{AreResidues};
ghost use Rattle.linear_algebra.specs.Dense.{dense, dense_rows};
ghost use Rattle.linear_algebra.specs.Span.{InSpan, Independent};
ghost use Rattle.linear_algebra.specs.Vector.{EndsBefore};

use crate::constants::scalar_columns;
use crate::copies::copies_of;
use crate::elimination::{Echelon, echelon_of, least_place, remainder_of};
use field_table::{Field, OutOfMemory, Residues};
use std::alloc::Global;
use std::marker::Model;

/// A subspace of the vectors of one width, by the one reduced echelon basis that it has (Hoffman
/// and Kunze, Linear Algebra, 2.5): each row's first nonzero number is 1, these places rise, and
/// the other rows are 0 there. Contracts see the characteristic, the width and the rows.
#[derive(Drop)]
pub struct Basis {
    field: Field,
    width: u32,
    rows: Vec<Residues>,
    leads: Vec<usize>,
}

impl Model for Basis {
    ghost use Rattle.dense_mat.specs.Subspace.{Subspace, subspace, IsStored};

    ghost Value = { Subspace };

    ghost view = { λ b. subspace b.field b.width b.rows.items };

    ghost invariant = { λ b. IsStored (subspace b.field b.width b.rows.items) b.leads.items };
}

// The basis of these rows, which are moved and not copied.
pub fn basis_of(field: Field, width: u32, echelon: Echelon) -> Basis
    requires { IsEchelon field width echelon.rows.items echelon.leads.items }
    ensures { result ≡ subspace field width echelon.rows.items }
{
    let Echelon { rows, leads } = echelon;
    Basis {
        field,
        width,
        rows,
        leads,
    }
}

/// The reduced echelon basis of the combinations of the rows. Costs a pass over the width for each
/// row and each row of the basis before it.
pub fn span_of(
    alloc: Global,
    field: Field,
    rows: &[Residues],
    width: u32,
) -> Result<Basis, OutOfMemory>
    requires rows { AreRows field width rows.now }
    ensures { IfOk result (IsBasisOf field width (InSpan (dense_rows field rows.now))) }
{
    Ok(basis_of(
        field,
        width,
        echelon_of(alloc, field, rows, width as usize)?,
    ))
}

// The places below n, in order.
fn places_below(alloc: Global, n: usize) -> Result<Vec<usize>, OutOfMemory>
    ensures { IfOk result (λ places. places.items ≡ range_with_len 0 n) }
{
    let mut places = Vec::with_capacity(alloc, n)?;
    for k in 0..n {
        places.push(k)?;
    }
    Ok(places)
}

/// The space of all vectors of this width, by its unit vectors.
pub fn whole_space(alloc: Global, field: Field, width: u32) -> Result<Basis, OutOfMemory>
    ensures { IfOk result (IsBasisOf field width (EndsBefore width)) }
{
    let _characteristic = field.characteristic();
    let echelon = Echelon {
        rows: scalar_columns(alloc, width as usize, 1)?,
        leads: places_below(alloc, width as usize)?,
    };
    Ok(basis_of(field, width, echelon))
}

/// Whether only the coefficients 0 combine the rows to 0. Costs the elimination of the rows.
pub fn independent(
    alloc: Global,
    field: Field,
    rows: &[Residues],
    width: u32,
) -> Result<bool, OutOfMemory>
    requires rows { AreRows field width rows.now }
    ensures { IfOk result (λ b. IsTrue b ↔ Independent (dense_rows field rows.now)) }
{
    let basis = span_of(alloc, field, rows, width)?;
    Ok(basis.dim() as usize == rows.len())
}

impl Basis {
    /// How long the vectors are.
    pub fn width(&self) -> u32
        ensures { result ≡ self.now.width }
    {
        self.width
    }

    /// The dimension: the number of rows.
    pub fn dim(&self) -> u32
        ensures count { result ≡ length self.now.rows }
        ensures within { result ≤ self.now.width }
    {
        let _width = self.width;
        self.rows.len() as u32
    }

    /// The rows of the reduced echelon basis.
    pub fn rows(&self) -> &[Residues]
        ensures rows { result.now ≡ self.now.rows }
        ensures basis { IsBasisOf self.now.characteristic self.now.width
            (InSpan (dense_rows self.now.characteristic self.now.rows)) self.now }
    {
        self.rows.as_slice()
    }

    /// Whether the vector is in the subspace. Costs a pass over the width for each row.
    pub fn contains(&self, alloc: Global, field: Field, v: &[u32]) -> Result<bool, OutOfMemory>
        requires field { self.now.characteristic ≡ field }
        requires width { length v.now ≡ self.now.width }
        requires residues { AreResidues field v.now }
        ensures { IfOk result (λ b. IsTrue b
            ↔ InSpan (dense_rows field self.now.rows) (dense field v.now)) }
    {
        let left = remainder_of(alloc, self.field, &self.rows, &self.leads, v)?;
        match least_place(&left) {
            Some(_) => Ok(false),
            None => Ok(true),
        }
    }

    /// A subspace with the same basis.
    pub fn copy(&self, alloc: Global) -> Result<Basis, OutOfMemory>
        ensures same { IfOk result (λ b. b ≡ self.now) }
        ensures basis { IfOk result (λ b. IsBasisOf b.characteristic b.width
            (InSpan (dense_rows b.characteristic b.rows)) b) }
    {
        let echelon = Echelon {
            rows: copies_of(alloc, &self.rows)?,
            leads: Vec::from_slice(alloc, &self.leads)?,
        };
        Ok(basis_of(self.field, self.width, echelon))
    }
}
