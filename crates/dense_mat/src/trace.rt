ghost use Rattle.std.specs.Prelude.{◌≡◌, ◌<◌};
ghost use Rattle.dense_mat.specs.Matrix.{IsMatrix, trace_of};

use crate::mat::Mat;
use field_table::Field;

// The sum of the diagonal.
fn diagonal_sum(field: Field, mat: &Mat) -> u32
    requires positive { 0 < field }
    requires matrix { IsMatrix field mat.now }
    ensures sum { result ≡ trace_of field mat.now }
    ensures below { result < field }
{
    let mut trace = 0;
    for i in 0..mat.size() {
        trace = field.add(trace, mat.entry(i, i));
    }
    trace
}

impl Mat {
    /// The trace, a residue. Costs a pass over the diagonal.
    pub fn trace(&self, field: Field) -> u32
        requires matrix { IsMatrix field self.now }
        ensures trace { result ≡ trace_of field self.now }
        ensures below { result < field }
    {
        let _positive = field.characteristic();
        diagonal_sum(field, self)
    }
}
