ghost use Rattle.std.specs.Prelude.{◌≡◌, ◌<◌, ◌%◌, length};
ghost use Rattle.field_table.specs.InnerProduct.{inner_product};
ghost use Rattle.field_table.specs.Residues.{AreResidues, HasResidues};
ghost use Rattle.field_table.specs.Terms.{HasPlacesBelow};
ghost use Rattle.linear_algebra.specs.Dense.{dense};
ghost use Rattle.linear_algebra.specs.Residue.{residue};
ghost use Rattle.linear_algebra.specs.Sparse.{sparse};
ghost use Rattle.linear_algebra.specs.Vector.{◌⊞◌, ◌⊡◌};

use crate::field::Field;
use crate::kernel::Kernel;

// The call of the kernel that was built for this characteristic, which is a number of the table.
macro_rules! with_characteristic {
    ($characteristic:expr, $call:ident($($argument:expr),*)) => {
        match $characteristic {
            2 => $call::<2>($($argument),*),
            3 => $call::<3>($($argument),*),
            5 => $call::<5>($($argument),*),
            7 => $call::<7>($($argument),*),
            11 => $call::<11>($($argument),*),
            13 => $call::<13>($($argument),*),
            17 => $call::<17>($($argument),*),
            101 => $call::<101>($($argument),*),
            1009 => $call::<1009>($($argument),*),
            10007 => $call::<10007>($($argument),*),
            32003 => $call::<32003>($($argument),*),
            65521 => $call::<65521>($($argument),*),
            1000003 => $call::<1000003>($($argument),*),
            16777213 => $call::<16777213>($($argument),*),
            _ => unreachable!(),
        }
    };
}

// The kernel of characteristic P, at a field of that characteristic.
#[inline(always)]
fn axpy_at<const P: u32>(field: Field, acc: &mut [u32], c: u32, row: &[u32])
    requires same { field ≡ P }
    requires lengths { length acc.old ≡ length row.now }
    requires factor { c < field }
    requires residues { AreResidues field acc.old }
    requires row_residues { AreResidues field row.now }
    ensures sum { dense field acc.new ≡ dense field acc.old ⊞ residue field c ⊡ dense field row.now }
    ensures residues { AreResidues field acc.new }
{
    Kernel::<P>::axpy(acc, c, row)
}

#[inline(always)]
fn axpy_sparse_at<const P: u32>(field: Field, acc: &mut [u32], c: u32, terms: &[(u32, u32)])
    requires same { field ≡ P }
    requires factor { c < field }
    requires residues { AreResidues field acc.old }
    requires term_residues { HasResidues field terms.now }
    requires places { HasPlacesBelow (length acc.old) terms.now }
    ensures sum { dense field acc.new ≡ dense field acc.old ⊞ residue field c ⊡ sparse field terms.now }
    ensures residues { AreResidues field acc.new }
{
    Kernel::<P>::axpy_sparse(acc, c, terms)
}

#[inline(always)]
fn scale_at<const P: u32>(field: Field, acc: &mut [u32], c: u32)
    requires same { field ≡ P }
    requires factor { c < field }
    requires residues { AreResidues field acc.old }
    ensures product { dense field acc.new ≡ residue field c ⊡ dense field acc.old }
    ensures residues { AreResidues field acc.new }
{
    Kernel::<P>::scale(acc, c)
}

#[inline(always)]
fn dot_at<const P: u32>(field: Field, x: &[u32], y: &[u32]) -> u32
    requires same { field ≡ P }
    requires lengths { length x.now ≡ length y.now }
    requires left { AreResidues field x.now }
    requires right { AreResidues field y.now }
    ensures value { result ≡ inner_product x.now y.now % field }
    ensures below { result < field }
{
    Kernel::<P>::dot(x, y)
}

/// Adds c times the row to `acc`, place by place. Takes no memory.
pub fn axpy(field: Field, acc: &mut [u32], c: u32, row: &[u32])
    requires lengths { length acc.old ≡ length row.now }
    requires factor { c < field }
    requires residues { AreResidues field acc.old }
    requires row_residues { AreResidues field row.now }
    ensures sum { dense field acc.new ≡ dense field acc.old ⊞ residue field c ⊡ dense field row.now }
    ensures residues { AreResidues field acc.new }
{
    with_characteristic!(field.characteristic(), axpy_at(field, acc, c, row))
}

/// Adds c times the terms to `acc`, each at its place. Takes no memory.
pub fn axpy_sparse(field: Field, acc: &mut [u32], c: u32, terms: &[(u32, u32)])
    requires factor { c < field }
    requires residues { AreResidues field acc.old }
    requires term_residues { HasResidues field terms.now }
    requires places { HasPlacesBelow (length acc.old) terms.now }
    ensures sum { dense field acc.new ≡ dense field acc.old ⊞ residue field c ⊡ sparse field terms.now }
    ensures residues { AreResidues field acc.new }
{
    with_characteristic!(field.characteristic(), axpy_sparse_at(field, acc, c, terms))
}

/// Multiplies each number of `acc` by c. Takes no memory.
pub fn scale(field: Field, acc: &mut [u32], c: u32)
    requires factor { c < field }
    requires residues { AreResidues field acc.old }
    ensures product { dense field acc.new ≡ residue field c ⊡ dense field acc.old }
    ensures residues { AreResidues field acc.new }
{
    with_characteristic!(field.characteristic(), scale_at(field, acc, c))
}

/// The sum of the products of the numbers at each place. Takes no memory.
pub fn dot(field: Field, x: &[u32], y: &[u32]) -> u32
    requires lengths { length x.now ≡ length y.now }
    requires left { AreResidues field x.now }
    requires right { AreResidues field y.now }
    ensures value { result ≡ inner_product x.now y.now % field }
    ensures below { result < field }
{
    with_characteristic!(field.characteristic(), dot_at(field, x, y))
}
