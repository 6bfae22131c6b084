ghost use Rattle.std.specs.Prelude.{◌≡◌, ◌<◌, ◌≤◌, ◌*◌, IfOk, length, count_by, nat_eq};
ghost use Rattle.linear_algebra.specs.Residue.{residue};
ghost use Rattle.field_table.specs.Terms.{residue_terms};
ghost use Rattle.p1_normal.specs.Points.{symbols};
ghost use Rattle.p1_normal.specs.Relations.{relation_symbols};
ghost use Rattle.manin_relations.specs.Relations.{relation as relation_of, IsRelation, IsSum};

use field_table::{Combo, Field, OutOfMemory};
use p1_normal::Level;
use std::alloc::Global;

// The sum of the terms.
fn sum_of(alloc: Global, field: Field, terms: &[(u32, i64)]) -> Result<Combo, OutOfMemory>
    ensures { IfOk result (IsSum field (residue_terms field terms.now)) }
{
    let combo = Combo::from_terms(alloc, field, terms)?;
    let _rising = combo.terms();
    Ok(combo)
}

/// Relation k: x + xS for symbol k below the number m of symbols, and x + xT + xTT for symbol k - m
/// from there on. A coefficient is the number of times that a symbol occurs, modulo the characteristic.
/// Costs one or two actions on symbols.
pub fn relation(alloc: Global, level: &Level, field: Field, k: u32) -> Result<Combo, OutOfMemory>
    requires place { k < 2 * length (symbols level.now) }
    ensures { IfOk result (IsRelation level.now field k) }
{
    let m = level.count();
    if k < m {
        sum_of(alloc, field, &[(k, 1), (level.s_of(k), 1)])
    } else {
        let t = level.t_of(k - m);
        sum_of(alloc, field, &[(k - m, 1), (t, 1), (level.t_of(t), 1)])
    }
}

// How often the symbol occurs in relation k.
fn occurrences(level: &Level, k: u32, symbol: u32) -> u32
    requires place { k < 2 * length (symbols level.now) }
    ensures count { result ≡ count_by (nat_eq symbol) (relation_symbols level.now k) }
    ensures few { result ≤ 3 }
{
    let m = level.count();
    if k < m {
        u32::from(symbol == k) + u32::from(symbol == level.s_of(k))
    } else {
        let t = level.t_of(k - m);
        u32::from(symbol == k - m) + u32::from(symbol == t) + u32::from(symbol == level.t_of(t))
    }
}

/// The coefficient of relation k at a symbol. Takes no memory.
pub fn relation_at(level: &Level, field: Field, k: u32, symbol: u32) -> u32
    requires place { k < 2 * length (symbols level.now) }
    requires symbol { symbol < length (symbols level.now) }
    ensures value { residue field result ≡ relation_of level.now k symbol }
    ensures below { result < field }
{
    occurrences(level, k, symbol) % field.characteristic()
}
