use crate::ranges::are_below;
use crate::spaces::space_at;
use field_table::{CHARACTERISTICS, Combo, Field, OutOfMemory};
use manin_relations::Relations;
use p1_normal::Level;
use quotient_coords::Space;
use sparse_echelon::{Echelon, eliminate};
use std::alloc::Global;
use std::test::Fail;

// Each symbol's number and its coordinates. Symbol 0 is (0:1), and symbol v + 1 is (1:v); the free ones
// are z = (0:1), y = (1:2) and w = (1:3).
const SYMBOLS: [(u32, [i64; 3]); 12] = [
    (0, [1, 0, 0]),
    (1, [-1, 0, 0]),
    (2, [0, 0, 0]),
    (3, [0, 1, 0]),
    (4, [0, 0, 1]),
    (5, [0, -1, 1]),
    (6, [0, -1, 0]),
    (7, [0, -1, 0]),
    (8, [0, 0, -1]),
    (9, [0, 1, -1]),
    (10, [0, 1, 0]),
    (11, [0, 0, 0]),
];

#[test]
fn the_relations_keep_the_same_rows_in_every_characteristic(rt: HostRuntime) -> Result<(), Fail> {
    for p in CHARACTERISTICS {
        let field = Field::open(p)?;
        let level = Level::open(rt.alloc(), 11)?;
        let relations = Relations::build(rt.alloc(), &level, field)?;
        let rows = relations.rows();
        assert_eq!(rt; rows.len(), 24, "at {p}");
        let echelon = eliminate(rt.alloc(), field, rows, level.count())?;
        assert_eq!(rt; echelon.rank(), 9, "at {p}");
        assert!(rt;
            echelon.kept() == [0, 2, 3, 4, 5, 7, 12, 14, 15].as_slice(),
            "at {p}"
        );
    }
    Ok(())
}

// Whether the place is a pivot whose row has these terms.
fn has_row(echelon: &Echelon, place: u32, expected: &[(u32, u32)]) -> bool {
    echelon.is_pivot(place) && echelon.row(place).terms() == expected
}

// Symbol 5 is w - y, so its row is 1 at 5, 1 at y and -1 at w.
#[test]
fn the_row_of_symbol_five_has_its_terms(rt: HostRuntime) -> Result<(), Fail> {
    let field = Field::open(101)?;
    let level = Level::open(rt.alloc(), 11)?;
    let relations = Relations::build(rt.alloc(), &level, field)?;
    let rows = relations.rows();
    assert_eq!(rt; rows.len(), 24);
    let echelon = eliminate(rt.alloc(), field, rows, level.count())?;
    assert!(rt; has_row(&echelon, 5, &[(3, 1), (4, 100), (5, 1)]));
    Ok(())
}

// Whether the space has the free symbols 0, 3 and 4.
fn has_free_symbols(space: &Space) -> bool {
    space.dim() == 3 && space.free(0) == 0 && space.free(1) == 3 && space.free(2) == 4
}

// Whether the symbol has these coordinates.
fn has_coordinates(
    alloc: Global,
    space: &Space,
    symbol: u32,
    expected: [i64; 3],
) -> Result<bool, OutOfMemory> {
    let field = space.field();
    let [z, y, w] = expected;
    let combo = Combo::from_terms(alloc, field, &[(symbol, 1)])?;
    if !are_below(combo.terms(), space.level().count(), field.characteristic()) {
        return Ok(false);
    }
    let coords = space.coords(alloc, &combo)?;
    let residues = [field.residue(z), field.residue(y), field.residue(w)];
    Ok(coords.as_slice() == residues.as_slice())
}

#[test]
fn symbols_have_their_coordinates_in_every_characteristic(rt: HostRuntime) -> Result<(), Fail> {
    for p in CHARACTERISTICS {
        let space = space_at(rt.alloc(), 11, p)?;
        assert!(rt; has_free_symbols(&space), "at {p}");
        for (k, expected) in SYMBOLS {
            assert!(rt;
                has_coordinates(rt.alloc(), &space, k, expected)?,
                "at {p} {k}"
            );
        }
    }
    Ok(())
}
