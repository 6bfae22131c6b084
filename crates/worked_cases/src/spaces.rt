use field_table::Field;
use p1_normal::Level;
use quotient_coords::Space;
use std::alloc::Global;
use std::test::Fail;

/// The space of a level in a characteristic. At level 11 symbol 0 is (0:1), symbol v + 1 is (1:v), and the free symbols
/// are 0, 3 and 4.
pub fn space_at(alloc: Global, modulus: u32, p: u32) -> Result<Space, Fail> {
    let level = Level::open(alloc, modulus)?;
    let field = Field::open(p)?;
    Ok(Space::open(alloc, level, field)?)
}
