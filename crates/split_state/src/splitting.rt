ghost use Rattle.std.specs.Prelude.{◌≡◌, ◌≤◌, [], ℕ, IfOk, IsErrOf, length};
ghost use Rattle.op_polynomials.specs.declared.name.OpName.{OpName};
ghost use Rattle.dense_mat.specs.Matrix.{IsMatrix};
ghost use Rattle.field_table.specs.Residues.{AreResidues};
ghost use Rattle.split_state.specs.Decomposition.{Decomposition, IsSplitting, MatchesListed, decomposition};
ghost use Rattle.split_state.specs.Difference.{AgreesWithListed, IsFirstDifference};
ghost use Rattle.split_state.specs.Refinement.{Refines};
ghost use Rattle.split_state.specs.Step.{IsStep, IsWhole, Listing};

use crate::difference::commuting;
use crate::fault::RefineFault;
use crate::refining::{copies_of_matrices, copies_of_parts, is_listed, push_part, split_parts};
use dense_mat::{Basis, Mat, whole_space};
use field_table::{Field, OutOfMemory};
use op_polynomials::{OpName, Poly};
use std::alloc::Global;
use std::marker::Model;

/// The space of the vectors of length d as the direct sum of parts that each listed operator sends
/// into themselves. The listed operators commute, and every matrix that commutes with all of them
/// sends each part into itself. No part has 0 alone.
#[derive(Drop)]
pub struct Splitting {
    field: Field,
    dim: u32,
    parts: Vec<Basis>,
    names: Vec<OpName>,
    matrices: Vec<Mat>,
}

impl Model for Splitting {
    ghost use Rattle.split_state.specs.Decomposition.{Decomposition, IsSplitting, decomposition};

    ghost Value = { Decomposition };

    ghost view = { λ s. decomposition s.field s.dim s.parts.items s.names.items s.matrices.items };

    ghost invariant = { λ s.
        IsSplitting (decomposition s.field s.dim s.parts.items s.names.items s.matrices.items) };
}

// The splitting of these, which are moved and not copied.
fn splitting_of(
    field: Field,
    dim: u32,
    parts: Vec<Basis>,
    names: Vec<OpName>,
    matrices: Vec<Mat>,
) -> Splitting
    requires { IsSplitting (decomposition field dim parts.items names.items matrices.items) }
    ensures { result ≡ decomposition field dim parts.items names.items matrices.items }
{
    Splitting {
        field,
        dim,
        parts,
        names,
        matrices,
    }
}

// Lists the operator at the end, with a copy of its matrix, if its name is new.
fn list_operator(
    alloc: Global,
    names: &mut Vec<OpName>,
    matrices: &mut Vec<Mat>,
    op: OpName,
    mat: &Mat,
) -> Result<(), OutOfMemory>
    ensures { IfOk result (λ _.
        Listing names.old.items matrices.old.items op mat.now names.new.items matrices.new.items) }
{
    if is_listed(names, op) {
        return Ok(());
    }
    matrices.push(mat.copy(alloc)?)?;
    names.push(op)?;
    Ok(())
}

// What `refine` answers, over the parts and the operators of a splitting.
fn refined(
    alloc: Global,
    field: Field,
    dim: u32,
    parts: &[Basis],
    names: &[OpName],
    matrices: &[Mat],
    op: OpName,
    mat: &Mat,
    poly: &Poly,
) -> Result<Splitting, RefineFault>
    requires splitting { IsSplitting (decomposition field dim parts.now names.now matrices.now) }
    requires size { length mat.now ≡ dim }
    requires matrix { IsMatrix field mat.now }
    requires coefficients { AreResidues field poly.now }
    requires listed { MatchesListed
        (decomposition field dim parts.now names.now matrices.now) op mat.now }
    ensures step { IfOk result (IsStep
        (decomposition field dim parts.now names.now matrices.now) op mat.now poly.now) }
    ensures refines { IfOk result (λ r.
        Refines r (decomposition field dim parts.now names.now matrices.now)) }
    ensures commutes { IfOk result (λ _. AgreesWithListed
        (decomposition field dim parts.now names.now matrices.now) mat.now) }
    ensures commutator { (other : OpName) (row column left right : ℕ) →
        IsErrOf result (RefineFault.Commutator other row column left right) → IsFirstDifference
        (decomposition field dim parts.now names.now matrices.now) mat.now
        other row column left right }
{
    commuting(alloc, field, names, matrices, op, mat)?;
    let value = poly.at_matrix(alloc, field, mat)?;
    let news = split_parts(alloc, field, &value, parts)?;
    let mut listed = Vec::from_slice(alloc, names)?;
    let mut columns = copies_of_matrices(alloc, matrices)?;
    list_operator(alloc, &mut listed, &mut columns, op, mat)?;
    Ok(splitting_of(field, dim, news, listed, columns))
}

impl Splitting {
    /// The space of the vectors of length d as its one part, or no part where d is 0. No operator
    /// is listed. Costs the d rows of the identity.
    pub fn whole(alloc: Global, field: Field, d: u32) -> Result<Splitting, OutOfMemory>
        ensures { IfOk result (IsWhole field d) }
    {
        let space = whole_space(alloc, field, d)?;
        let mut parts = Vec::new(alloc);
        push_part(&mut parts, space)?;
        Ok(splitting_of(field, d, parts, Vec::new(alloc), Vec::new(alloc)))
    }

    /// The length d of the vectors. Takes no memory.
    pub fn dim(&self) -> u32
        ensures { result ≡ self.now.dim }
    {
        self.dim
    }

    /// The parts, in the order in which they were split, each by its reduced echelon basis. Takes
    /// no memory.
    pub fn parts(&self) -> &[Basis]
        ensures parts { result.now ≡ self.now.parts }
        ensures splitting { IsSplitting self.now }
        ensures few { length result.now ≤ self.now.dim }
    {
        &self.parts
    }

    /// The names of the listed operators, in the order in which they were listed. Takes no memory.
    pub fn ops(&self) -> &[OpName]
        ensures { result.now ≡ self.now.names }
    {
        &self.names
    }

    /// A splitting with the same parts and operators. Costs their copy.
    pub fn copy(&self, alloc: Global) -> Result<Splitting, OutOfMemory>
        ensures { IfOk result (λ s. s ≡ self.now) }
    {
        let parts = copies_of_parts(alloc, &self.parts)?;
        let names = Vec::from_slice(alloc, &self.names)?;
        let matrices = copies_of_matrices(alloc, &self.matrices)?;
        Ok(splitting_of(self.field, self.dim, parts, names, matrices))
    }

    /// The splitting in which each part is replaced by its generalised kernel and its eventual
    /// image under f(A), in this order, A being the matrix and f the polynomial; parts with 0 alone
    /// are left out, and the operator is listed at the end if its name is new. Refuses, by
    /// `Commutator`, the first place by listed operators, then columns, then rows at which the
    /// products of A with a listed matrix in both orders differ, with both entries. The splitting
    /// itself stays as it is.
    ///
    /// Costs 2 d products of a matrix and a vector for each listed operator, and none where the
    /// operator is listed itself; as many products of matrices as f has coefficients, less one; the
    /// elimination of each part under f(A); and a copy of the listed matrices, which is small
    /// beside one product.
    pub fn refine(
        &self,
        alloc: Global,
        op: OpName,
        mat: &Mat,
        poly: &Poly,
    ) -> Result<Splitting, RefineFault>
        requires size { length mat.now ≡ self.now.dim }
        requires matrix { IsMatrix self.now.characteristic mat.now }
        requires coefficients { AreResidues self.now.characteristic poly.now }
        requires listed { MatchesListed self.now op mat.now }
        ensures step { IfOk result (IsStep self.now op mat.now poly.now) }
        ensures refines { IfOk result (λ r. Refines r self.now) }
        ensures commutes { IfOk result (λ _. AgreesWithListed self.now mat.now) }
        ensures commutator { (other : OpName) (row column left right : ℕ) →
            IsErrOf result (RefineFault.Commutator other row column left right) →
            IsFirstDifference self.now mat.now other row column left right }
    {
        refined(
            alloc,
            self.field,
            self.dim,
            &self.parts,
            &self.names,
            &self.matrices,
            op,
            mat,
            poly,
        )
    }
}
