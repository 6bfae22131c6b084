use field_table::Field;
use p1_normal::Level;
use quotient_coords::Space;
use std::alloc::Global;
use std::test::Fail;

/// The space at level 11 and characteristic 101.
pub fn space_at_11(alloc: Global) -> Result<Space, Fail> {
    let level = Level::open(alloc, 11)?;
    let field = Field::open(101)?;
    Ok(Space::open(alloc, level, field)?)
}
