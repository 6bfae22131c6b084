ghost use Rattle.std.specs.Prelude.{◌≡◌, ◌<◌, ℕ, IfOk};
ghost use Rattle.linear_algebra.specs.Prime.{IsPrime};
ghost use Rattle.linear_algebra.specs.Span.{Each};
ghost use Rattle.linear_algebra.specs.Vector.{EndsBefore};
ghost use Rattle.linear_algebra.specs.Coordinates.{free_places};
ghost use Rattle.sparse_echelon.specs.System.{vectors};
ghost use Rattle.quotient_coords.specs.Tables.{AreSymbolRows, IsSpace, IsSymbolRow};

use crate::coordinates::negated;
use field_table::{Combo, Field, OutOfMemory, PlaceTable};
use sparse_echelon::Echelon;
use std::alloc::Global;

// The coordinates of a symbol, as terms over the numbers of the free symbols.
fn symbol_row(
    alloc: Global,
    field: Field,
    echelon: &Echelon,
    free: &PlaceTable,
    symbol: u32,
) -> Result<Combo, OutOfMemory>
    requires prime { IsPrime echelon.now.characteristic }
    requires field { field ≡ echelon.now.characteristic }
    requires rows { Each (EndsBefore echelon.now.width) (vectors echelon.now) }
    requires free { free.now.places ≡ free_places echelon.now.width (vectors echelon.now) }
    requires place { symbol < echelon.now.width }
    ensures { IfOk result (λ row. (N p : ℕ) → IsSpace N p echelon.now free.now.places → IsSymbolRow N p symbol row) }
{
    let row = match free.number_of(symbol) {
        Some(number) => vec![in alloc; (number, 1); 1]?,
        None => negated(alloc, field, free, echelon.row(symbol).terms())?,
    };
    Ok(Combo::of(row))
}

/// The coordinates of each symbol below the width, as terms over the numbers of the free symbols. Costs a
/// step for each term of the rows of the echelon form.
pub fn symbol_rows(
    alloc: Global,
    field: Field,
    echelon: &Echelon,
    free: &PlaceTable,
    width: u32,
) -> Result<Vec<Combo>, OutOfMemory>
    requires prime { IsPrime echelon.now.characteristic }
    requires field { field ≡ echelon.now.characteristic }
    requires rows { Each (EndsBefore echelon.now.width) (vectors echelon.now) }
    requires free { free.now.places ≡ free_places echelon.now.width (vectors echelon.now) }
    requires width { width ≡ echelon.now.width }
    ensures { IfOk result (λ rows. (N p : ℕ) →
        IsSpace N p echelon.now free.now.places → AreSymbolRows N p width rows.items) }
{
    let mut rows = Vec::with_capacity(alloc, width as usize)?;
    for symbol in 0..width {
        rows.push(symbol_row(alloc, field, echelon, free, symbol)?)?;
    }
    Ok(rows)
}
