ghost use Rattle.std.specs.Prelude.{◌≡◌, ◌<◌, ◌≤◌, ◌+◌, ◌*◌, ◌-◌, length};
ghost use Rattle.field_table.specs.declared.table.TheConstants.{CHARACTERISTIC_LIMIT};
ghost use Rattle.field_table.specs.InnerProduct.{inner_product_before};
ghost use Rattle.field_table.specs.Residues.{AreResidues};

use crate::table::CHARACTERISTIC_LIMIT;

/// So many products of two numbers below the characteristics' limit have a sum of at most 2^63.
pub const STRETCH: usize = 1 << 15;

/// The sum of the products at the places from `start` to before `end`, with no reduction.
pub fn sum_of_products(x: &[u32], y: &[u32], start: usize, end: usize) -> u64
    requires order { start ≤ end }
    requires within { end ≤ length x.now }
    requires lengths { length x.now ≡ length y.now }
    requires stretch { end ≤ start + STRETCH }
    requires left { AreResidues CHARACTERISTIC_LIMIT x.now }
    requires right { AreResidues CHARACTERISTIC_LIMIT y.now }
    ensures sum { inner_product_before x.now y.now start + result ≡ inner_product_before x.now y.now end }
    ensures range { result ≤ STRETCH * (CHARACTERISTIC_LIMIT * CHARACTERISTIC_LIMIT) }
{
    let mut sum = 0;
    for i in start..end {
        sum += u64::from(x[i]) * u64::from(y[i]);
    }
    sum
}
