ghost use Rattle.std.specs.Prelude.{◌≡◌, ◌<◌, ◌%◌, length};
ghost use Rattle.field_table.specs.InnerProduct.{inner_product};
ghost use Rattle.field_table.specs.Residues.{AreResidues, HasResidues};
ghost use Rattle.field_table.specs.Table.{IsListed};
ghost use Rattle.field_table.specs.Terms.{HasPlacesBelow};
ghost use Rattle.linear_algebra.specs.Dense.{dense};
ghost use Rattle.linear_algebra.specs.Residue.{residue};
ghost use Rattle.linear_algebra.specs.Sparse.{sparse};
ghost use Rattle.linear_algebra.specs.Vector.{◌⊞◌, ◌⊡◌};

use crate::multiple::Multiple;
use crate::products::{STRETCH, sum_of_products};

/// The loops over lists of residues, for a characteristic that is known when they are built.
pub struct Kernel<const P: u32>;

impl<const P: u32> Kernel<P> {
    /// Adds c times the row to `acc`, place by place.
    pub fn axpy(acc: &mut [u32], c: u32, row: &[u32])
        requires listed { IsListed P }
        requires lengths { length acc.old ≡ length row.now }
        requires factor { c < P }
        requires residues { AreResidues P acc.old }
        requires row_residues { AreResidues P row.now }
        ensures sum { dense P acc.new ≡ dense P acc.old ⊞ residue P c ⊡ dense P row.now }
        ensures residues { AreResidues P acc.new }
    {
        let multiple = Multiple::<P>::of(c);
        for i in 0..acc.len() {
            acc[i] = multiple.added(acc[i], row[i]);
        }
    }

    /// Adds c times the terms to `acc`, each at its place.
    pub fn axpy_sparse(acc: &mut [u32], c: u32, terms: &[(u32, u32)])
        requires listed { IsListed P }
        requires factor { c < P }
        requires residues { AreResidues P acc.old }
        requires term_residues { HasResidues P terms.now }
        requires places { HasPlacesBelow (length acc.old) terms.now }
        ensures sum { dense P acc.new ≡ dense P acc.old ⊞ residue P c ⊡ sparse P terms.now }
        ensures residues { AreResidues P acc.new }
    {
        let multiple = Multiple::<P>::of(c);
        for term in terms {
            let place = term.0 as usize;
            acc[place] = multiple.added(acc[place], term.1);
        }
    }

    /// Multiplies each number of `acc` by c.
    pub fn scale(acc: &mut [u32], c: u32)
        requires listed { IsListed P }
        requires factor { c < P }
        requires residues { AreResidues P acc.old }
        ensures product { dense P acc.new ≡ residue P c ⊡ dense P acc.old }
        ensures residues { AreResidues P acc.new }
    {
        let multiple = Multiple::<P>::of(c);
        for i in 0..acc.len() {
            acc[i] = multiple.times(acc[i]);
        }
    }

    /// The sum of the products of the numbers at each place.
    pub fn dot(x: &[u32], y: &[u32]) -> u32
        requires listed { IsListed P }
        requires lengths { length x.now ≡ length y.now }
        requires left { AreResidues P x.now }
        requires right { AreResidues P y.now }
        ensures value { result ≡ inner_product x.now y.now % P }
        ensures below { result < P }
    {
        let mut total = 0;
        let mut start = 0;
        while start < x.len() {
            let end = x.len().min(start + STRETCH);
            total = (u64::from(total) + sum_of_products(x, y, start, end)) % u64::from(P);
            start = end;
        }
        total as u32
    }
}
