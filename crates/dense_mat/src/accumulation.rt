ghost use Rattle.std.specs.Prelude.{◌≡◌, ◌<◌, ◌≤◌, ◌+◌, ◌*◌, ◌%◌, ℕ, All, IfOk, length, slice_index};
ghost use Rattle.dense_mat.specs.Accumulation.{HasRoom};
ghost use Rattle.field_table.specs.Residues.{AreResidues};
ghost use Rattle.field_table.specs.declared.products.TheConstants.{STRETCH};
ghost use Rattle.field_table.specs.declared.table.TheConstants.{CHARACTERISTIC_LIMIT};
ghost use Rattle.linear_algebra.specs.Dense.{dense};
ghost use Rattle.linear_algebra.specs.Residue.{residue};
ghost use Rattle.linear_algebra.specs.Vector.{◌⊞◌, ◌⊡◌};

use field_table::{Field, OutOfMemory, Residues, STRETCH};
use std::alloc::Global;

// Adds c times the row, place by place, with no reduction.
fn add_products(sums: &mut [u64], c: u32, row: &[u32])
    requires lengths { length sums.old ≡ length row.now }
    requires factor { c < CHARACTERISTIC_LIMIT }
    requires residues { AreResidues CHARACTERISTIC_LIMIT row.now }
    requires room { All (λ x.
        x ≤ STRETCH * (CHARACTERISTIC_LIMIT * CHARACTERISTIC_LIMIT)) sums.old }
    ensures each { (k : ℕ) → k < length row.now →
        slice_index sums.new k ≡ slice_index sums.old k + c * slice_index row.now k }
{
    for k in 0..sums.len() {
        sums[k] += u64::from(c) * u64::from(row[k]);
    }
}

// The same where c is not 0.
fn add_multiple(field: Field, sums: &mut [u64], c: u32, row: &[u32])
    requires lengths { length sums.old ≡ length row.now }
    requires factor { c < field }
    requires residues { AreResidues field row.now }
    requires room { All (λ x.
        x ≤ STRETCH * (CHARACTERISTIC_LIMIT * CHARACTERISTIC_LIMIT)) sums.old }
    ensures sum { dense field sums.new
        ≡ dense field sums.old ⊞ residue field c ⊡ dense field row.now }
    ensures growth { (b : ℕ) → All (λ x. x ≤ b) sums.old →
        All (λ x. x ≤ b + CHARACTERISTIC_LIMIT * CHARACTERISTIC_LIMIT) sums.new }
{
    let _characteristic = field.characteristic();
    if c != 0 {
        add_products(sums, c, row);
    }
}

// Each sum as a residue.
fn reduce_all(field: Field, sums: &mut [u64])
    ensures { (k : ℕ) → k < length sums.old →
        slice_index sums.new k ≡ slice_index sums.old k % field }
{
    let characteristic = u64::from(field.characteristic());
    for k in 0..sums.len() {
        sums[k] %= characteristic;
    }
}

// The same where the product with this number was the last of a stretch.
fn make_room(field: Field, sums: &mut [u64], number: usize)
    requires room { All (λ x. x
        ≤ (number % STRETCH + 2) * (CHARACTERISTIC_LIMIT * CHARACTERISTIC_LIMIT)) sums.old }
    ensures same { dense field sums.new ≡ dense field sums.old }
    ensures room { HasRoom (number + 1) sums.new }
{
    let _characteristic = field.characteristic();
    if number % STRETCH == STRETCH - 1 {
        reduce_all(field, sums);
    }
}

/// Adds c times the row to sums of so many products, place by place. The sums are reduced once in a
/// stretch of products. Takes no memory.
pub fn add(field: Field, sums: &mut [u64], number: usize, c: u32, row: &[u32])
    requires lengths { length sums.old ≡ length row.now }
    requires factor { c < field }
    requires residues { AreResidues field row.now }
    requires room { HasRoom number sums.old }
    ensures sum { dense field sums.new
        ≡ dense field sums.old ⊞ residue field c ⊡ dense field row.now }
    ensures room { HasRoom (number + 1) sums.new }
{
    add_multiple(field, sums, c, row);
    make_room(field, sums, number);
}

/// The residues of sums.
pub fn residues_of(alloc: Global, field: Field, sums: &[u64]) -> Result<Residues, OutOfMemory>
    ensures vector { IfOk result (λ r. dense field r ≡ dense field sums.now) }
    ensures residues { IfOk result (λ r. AreResidues field r) }
    ensures length { IfOk result (λ r. length r ≡ length sums.now) }
{
    let characteristic = u64::from(field.characteristic());
    let mut list = Vec::with_capacity(alloc, sums.len())?;
    for k in 0..sums.len() {
        list.push((sums[k] % characteristic) as u32)?;
    }
    Ok(Residues::of(list))
}

/// The numbers as the first sums.
pub fn sums_of(alloc: Global, numbers: &[u32]) -> Result<Vec<u64>, OutOfMemory>
    ensures { IfOk result (λ v. v.items ≡ numbers.now) }
{
    let mut sums = Vec::with_capacity(alloc, numbers.len())?;
    for number in numbers {
        sums.push(u64::from(*number))?;
    }
    Ok(sums)
}
