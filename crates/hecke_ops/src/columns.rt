ghost use Rattle.std.specs.Prelude.{◌≡◌, ◌<◌, ℕ, IfOk, length, true};
ghost use Rattle.p1_normal.specs.Points.{symbols};
ghost use Rattle.quotient_coords.specs.Quotient.{dimension};
ghost use Rattle.hecke_columns.specs.Hecke.{IsColumn};
ghost use Rattle.hecke_ops.specs.Operators.{AreColumns};

use field_table::{OutOfMemory, Residues};
use hecke_columns::ColumnSource;
use std::alloc::Global;

// The column of symbol k.
fn column<C: ColumnSource>(
    alloc: Global,
    source: &mut C,
    k: u32,
    width: u32,
) -> Result<Residues, OutOfMemory>
    requires given { C.can_give source.old k ≡ true }
    requires above_one { 1 < (C.setting source.old).characteristic }
    requires width { width
        ≡ dimension (C.setting source.old).level (C.setting source.old).characteristic }
    ensures column { IfOk result (IsColumn (C.setting source.old) (C.matrices source.old).list k) }
    ensures setting { C.setting source.new ≡ C.setting source.old }
    ensures matrices { C.matrices source.new ≡ C.matrices source.old }
    ensures can_give { C.can_give source.new ≡ C.can_give source.old }
{
    let mut values = vec![in alloc; 0; width as usize]?;
    source.add_column(alloc, k, 1, &mut values)?;
    Ok(Residues::of(values))
}

/// The columns of all symbols in order, each asked for once.
pub fn all_columns<C: ColumnSource>(
    alloc: Global,
    source: &mut C,
    count: u32,
    width: u32,
) -> Result<Vec<Residues>, OutOfMemory>
    requires given { (k : ℕ) → k < length (symbols (C.setting source.old).level) →
        C.can_give source.old k ≡ true }
    requires above_one { 1 < (C.setting source.old).characteristic }
    requires count { count ≡ length (symbols (C.setting source.old).level) }
    requires width { width
        ≡ dimension (C.setting source.old).level (C.setting source.old).characteristic }
    ensures columns { IfOk result (λ v. AreColumns (C.setting source.old).level
        (C.setting source.old).characteristic (C.matrices source.old).list v.items) }
    ensures setting { C.setting source.new ≡ C.setting source.old }
    ensures matrices { C.matrices source.new ≡ C.matrices source.old }
    ensures can_give { C.can_give source.new ≡ C.can_give source.old }
{
    let mut columns = Vec::with_capacity(alloc, count as usize)?;
    for k in 0..count {
        columns.push(column(alloc, source, k, width)?)?;
    }
    Ok(columns)
}
