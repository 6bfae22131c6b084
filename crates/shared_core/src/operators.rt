ghost use Rattle.std.specs.Prelude.{◌≡◌, ◌<◌, ◌≤◌, ◌++◌, ◌∷◌, [], ℕ, IfErr, IfOk, List, length};
ghost use Rattle.dense_mat.specs.Matrix.{IsMatrix};
ghost use Rattle.field_table.specs.Residues.{AreResidues};
ghost use Rattle.heilbronn_sets.specs.Merel.{merel_matrices};
ghost use Rattle.op_polynomials.specs.declared.entry.SplitEntry.{SplitEntry as Entry};
ghost use Rattle.op_polynomials.specs.declared.name.OpName.{OpName};
ghost use Rattle.quotient_coords.specs.Quotient.{dimension};
ghost use Rattle.split_state.specs.Decomposition.{Decomposition};
ghost use Rattle.split_state.specs.Versions.{IsOperatorMatrix, IsVersion};
ghost use Rattle.shared_core.specs.Verdicts.{FailsFirst, IsOperator, IsVerdict, KeepsRelationsOf, accepted, commutator, relation};

use dense_mat::Mat;
use field_table::OutOfMemory;
use hecke_columns::LocalColumns;
use hecke_ops::{VetFault, vet};
use heilbronn_sets::{MatrixSet, SetFault, merel_set};
use op_polynomials::{OpName, SplitEntry};
use p1_normal::MAX_DET;
use quotient_coords::Space;
use split_state::{RefineFault, Splitting};
use star_map::star_matrix;
use std::alloc::Global;

// Why an entry makes no version.
#[derive(Clone, Copy)]
pub(crate) enum TestFault {
    // The operator does not send this relation to 0. It is the first one.
    Relation { number: u32 },
    // The operator does not commute with a listed one.
    Commutator,
    OutOfMemory,
}

// Merel's set of determinant n.
fn merel(alloc: Global, n: u32) -> Result<MatrixSet, OutOfMemory>
    requires { (0 < n) × (n ≤ MAX_DET) }
    ensures { IfOk result (λ s. s ≡ record { det = n; list = merel_matrices n }) }
{
    match merel_set(alloc, n) {
        Ok(set) => Ok(set),
        Err(SetFault::OutOfMemory) => Err(OutOfMemory),
        Err(_) => unreachable!(),
    }
}

// The matrix of T_n, if it sends each relation to 0.
fn hecke_matrix(alloc: Global, space: &Space, n: u32) -> Result<Mat, TestFault>
    requires operator { IsOperator space.now.level (OpName.T n) }
    ensures keeps { IfOk result (λ _. KeepsRelationsOf space.now (OpName.T n)) }
    ensures matrix { IfOk result (IsOperatorMatrix space.now (OpName.T n)) }
    ensures residues { IfOk result (IsMatrix space.now.characteristic) }
    ensures size { IfOk result (λ m.
        length m ≡ dimension space.now.level space.now.characteristic) }
    ensures relation { IfErr result (λ e. (k : ℕ) → e ≡ TestFault.Relation k →
        FailsFirst space.now (OpName.T n) k) }
    ensures commutes { IfErr result (λ e. ¬ (e ≡ TestFault.Commutator)) }
{
    let Ok(set) = merel(alloc, n) else {
        return Err(TestFault::OutOfMemory);
    };
    let mut columns = LocalColumns::new(space, &set);
    match vet(alloc, space, &mut columns) {
        Ok(operator) => Ok(operator.into_mat()),
        Err(VetFault::Relation { number, coords: _ }) => Err(TestFault::Relation { number }),
        Err(VetFault::OutOfMemory) => Err(TestFault::OutOfMemory),
    }
}

// The matrix of an operator, if it sends each relation to 0.
fn operator_matrix(alloc: Global, space: &Space, op: OpName) -> Result<Mat, TestFault>
    requires operator { IsOperator space.now.level op }
    ensures keeps { IfOk result (λ _. KeepsRelationsOf space.now op) }
    ensures matrix { IfOk result (IsOperatorMatrix space.now op) }
    ensures residues { IfOk result (IsMatrix space.now.characteristic) }
    ensures size { IfOk result (λ m.
        length m ≡ dimension space.now.level space.now.characteristic) }
    ensures relation { IfErr result (λ e. (k : ℕ) → e ≡ TestFault.Relation k →
        FailsFirst space.now op k) }
    ensures commutes { IfErr result (λ e. ¬ (e ≡ TestFault.Commutator)) }
{
    match op {
        OpName::T { n } => hecke_matrix(alloc, space, n),
        OpName::Star => match star_matrix(alloc, space) {
            Ok(mat) => Ok(mat),
            Err(_) => Err(TestFault::OutOfMemory),
        },
    }
}

// The version that an entry makes of this one, by the matrix of its operator, if this commutes with
// each listed one.
fn refined(
    alloc: Global,
    space: &Space,
    last: &Splitting,
    entry: &SplitEntry,
    mat: &Mat,
) -> Result<Splitting, TestFault>
    requires version { (E : List Entry) × IsVersion space.now E last.now }
    requires coefficients { AreResidues space.now.characteristic entry.now.poly }
    requires keeps { KeepsRelationsOf space.now entry.now.op }
    requires operator { IsOperatorMatrix space.now entry.now.op mat.now }
    requires residues { IsMatrix space.now.characteristic mat.now }
    requires size { length mat.now ≡ dimension space.now.level space.now.characteristic }
    ensures relates { IfErr result (λ e. (k : ℕ) → ¬ (e ≡ TestFault.Relation k)) }
    ensures commutator { IfErr result (λ e. e ≡ TestFault.Commutator →
        IsVerdict space.now last.now entry.now.op commutator) }
    ensures accepted { IfOk result (λ _. IsVerdict space.now last.now entry.now.op accepted) }
    ensures version { IfOk result (λ next. (E : List Entry) → IsVersion space.now E last.now →
        IsVersion space.now (E ++ entry.now ∷ []) next) }
{
    let _listed = space.field().characteristic();
    match last.refine(alloc, entry.op, mat, &entry.poly) {
        Ok(next) => Ok(next),
        Err(RefineFault::Commutator { .. }) => Err(TestFault::Commutator),
        Err(RefineFault::OutOfMemory) => Err(TestFault::OutOfMemory),
    }
}

// The version that an entry makes of this one. Its operator is tested first: on the relations, and
// then beside each listed one.
pub(crate) fn next_version(
    alloc: Global,
    space: &Space,
    last: &Splitting,
    entry: &SplitEntry,
) -> Result<Splitting, TestFault>
    requires version { (E : List Entry) × IsVersion space.now E last.now }
    requires operator { IsOperator space.now.level entry.now.op }
    requires residues { AreResidues space.now.characteristic entry.now.poly }
    ensures relation { IfErr result (λ e. (k : ℕ) → e ≡ TestFault.Relation k →
        IsVerdict space.now last.now entry.now.op (relation k)) }
    ensures commutator { IfErr result (λ e. e ≡ TestFault.Commutator →
        IsVerdict space.now last.now entry.now.op commutator) }
    ensures accepted { IfOk result (λ _. IsVerdict space.now last.now entry.now.op accepted) }
    ensures version { IfOk result (λ next. (E : List Entry) → IsVersion space.now E last.now →
        IsVersion space.now (E ++ entry.now ∷ []) next) }
{
    match operator_matrix(alloc, space, entry.op) {
        Ok(mat) => refined(alloc, space, last, entry, &mat),
        Err(fault) => Err(fault),
    }
}
