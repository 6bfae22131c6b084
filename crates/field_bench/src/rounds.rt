ghost use Rattle.std.specs.Prelude.{◌≡◌, IfOk, length};
ghost use Rattle.field_table.specs.Residues.{AreResidues};

use field_table::{Field, axpy, dot, scale};
use std::alloc::{AllocError, Global};

/// The length of the lists.
pub const WIDTH: usize = 4096;

/// So many residues, drawn by a multiplicative generator from the seed on.
pub fn residues(alloc: Global, field: Field, seed: u32) -> Result<Vec<u32>, AllocError>
    ensures residues { IfOk result (λ v. AreResidues field v.items) }
    ensures width { IfOk result (λ v. length v.items ≡ WIDTH) }
{
    let mut state = seed;
    let mut list = Vec::with_capacity(alloc, WIDTH)?;
    for _place in 0..WIDTH {
        state = (16807 * u64::from(state) % 2147483647) as u32;
        list.push(field.residue(i64::from(state)))?;
    }
    Ok(list)
}

pub fn axpy_rounds(field: Field, sum: &mut [u32], row: &[u32], rounds: u32)
    requires widths { length sum.old ≡ length row.now }
    requires residues { AreResidues field sum.old }
    requires row { AreResidues field row.now }
{
    for round in 0..rounds {
        axpy(field, sum, field.residue(i64::from(round)), row);
    }
}

pub fn scale_rounds(field: Field, sum: &mut [u32], rounds: u32)
    requires { AreResidues field sum.old }
{
    for round in 0..rounds {
        scale(
            field,
            sum,
            field.neg(field.residue(i64::from(round % 2) + 1)),
        );
    }
}

// Each round puts the product at the next place, so that no two rounds have the same lists.
pub fn dot_rounds(field: Field, sum: &mut [u32], row: &[u32], rounds: u32)
    requires widths { length sum.old ≡ length row.now }
    requires width { length sum.old ≡ WIDTH }
    requires residues { AreResidues field sum.old }
    requires row { AreResidues field row.now }
{
    for round in 0..rounds {
        sum[round as usize % WIDTH] = dot(field, sum, row);
    }
}

/// The sum of the numbers, modulo 2^64.
pub fn total(list: &[u32]) -> u64 {
    let mut total = 0_u64;
    for number in list {
        total = total.wrapping_add(u64::from(*number));
    }
    total
}
