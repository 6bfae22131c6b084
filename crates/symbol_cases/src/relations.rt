use field_table::{Combo, Field};
use manin_relations::{
    Relations, combination_at, relation, relation_at, relations_are_congruent_to_zero,
    relations_have_length_m,
};
use p1_normal::Level;
use std::alloc::Global;
use std::test::Fail;

// What workers share may be sent and shared.
fn needs<T: Send + Sync>(_: &T) {}

// Relation k and its coefficient at a symbol, where there are such.
fn relation_and_value(
    alloc: Global,
    level: &Level,
    field: Field,
    k: u32,
    symbol: u32,
) -> Option<(Combo, u32)> {
    if k < 2 * level.count() && symbol < level.count() {
        let combo = relation(alloc, level, field, k).ok()?;
        Some((combo, relation_at(level, field, k, symbol)))
    } else {
        None
    }
}

// The laws are calls of their own.
#[test]
fn laws(_rt: HostRuntime) {
    relations_have_length_m();
    relations_are_congruent_to_zero();
}

// Whether the row of a number has these terms.
fn has_terms(rows: &[Combo], k: usize, terms: &[(u32, u32)]) -> bool {
    match rows.get(k) {
        Some(row) => row.terms() == terms,
        None => false,
    }
}

// The relations at level 11: symbol 0 is (0:1), and symbol v + 1 is (1:v).
#[test]
fn relations_at_11(rt: HostRuntime) -> Result<(), Fail> {
    let level = Level::open(rt.alloc(), 11)?;
    let relations = Relations::build(rt.alloc(), &level, Field::open(101)?)?;
    needs(&relations);
    let rows = relations.rows();
    assert_eq!(rt; rows.len(), 24);
    for (a, b) in [(0, 1), (2, 11), (3, 6), (4, 8), (5, 9), (7, 10)] {
        for k in [a, b] {
            assert!(rt;
                has_terms(rows, k, &[(a as u32, 1), (b as u32, 1)]),
                "at {k}"
            );
        }
    }
    for (a, b, c) in [(0, 1, 11), (2, 6, 10), (3, 5, 8), (4, 7, 9)] {
        for k in [a, b, c] {
            let terms = [(a as u32, 1), (b as u32, 1), (c as u32, 1)];
            assert!(rt; has_terms(rows, 12 + k, &terms), "at {k}");
        }
    }
    Ok(())
}

// A symbol that is its own partner, and one that T fixes, are counted modulo the characteristic.
#[test]
fn repeats(rt: HostRuntime) -> Result<(), Fail> {
    for (n, p, k, symbol, count, value) in [
        (11, 101, 15, 5, 3, 1),
        (5, 101, 3, 3, 1, 2),
        (5, 2, 3, 3, 0, 0),
        (7, 101, 11, 3, 1, 3),
        (7, 3, 11, 3, 0, 0),
    ] {
        let level = Level::open(rt.alloc(), n)?;
        let (combo, at) = relation_and_value(rt.alloc(), &level, Field::open(p)?, k, symbol).ok_or(
            "no relation",
        )?;
        assert_eq!(rt; (combo.terms().len(), at), (count, value), "at {n} {p} {k}");
    }
    Ok(())
}

// Relation 15 less relation 4 is (1:4) + (1:2) - (1:3).
#[test]
fn sum_of_a_trace(rt: HostRuntime) -> Result<(), Fail> {
    let level = Level::open(rt.alloc(), 11)?;
    let field = Field::open(101)?;
    let trace = Combo::from_terms(rt.alloc(), field, &[(4, -1), (15, 1)])?;
    for (symbol, value) in [(0, 0), (3, 1), (4, 100), (5, 1), (8, 0)] {
        assert!(rt; symbol < level.count(), "at {symbol}");
        assert_eq!(rt;
            combination_at(&level, field, &trace, symbol),
            value,
            "at {symbol}"
        );
    }
    Ok(())
}
