ghost use Rattle.std.specs.Prelude.{IfOk};
ghost use Rattle.manin_relations.specs.Relations.{AreRelations};

use crate::row::relation;
use field_table::{Combo, Field, OutOfMemory};
use p1_normal::Level;
use std::alloc::Global;
use std::marker::Model;

/// The relations of a level in their order, as sparse rows. Contracts see the list of the rows' terms.
#[derive(Debug, Drop)]
pub struct Relations {
    rows: Vec<Combo>,
}

impl Model for Relations {
    ghost use Rattle.std.specs.Prelude.{ℕ, List};

    ghost Value = { List (List (ℕ × ℕ)) };

    ghost view = { λ r. r.rows.items };
}

impl Relations {
    ghost use Rattle.std.specs.Prelude.{◌≡◌, IfOk};
    ghost use Rattle.manin_relations.specs.Relations.{AreRelations};

    /// All 2 m relations, repeats included.
    pub fn build(alloc: Global, level: &Level, field: Field) -> Result<Relations, OutOfMemory>
        ensures { IfOk result (AreRelations level.now field) }
    {
        Ok(Relations {
            rows: all_rows(alloc, level, field)?,
        })
    }

    /// The rows in the order of the relations.
    pub fn rows(&self) -> &[Combo]
        ensures { result.now ≡ self.now }
    {
        self.rows.as_slice()
    }
}

// The rows of all relations.
fn all_rows(alloc: Global, level: &Level, field: Field) -> Result<Vec<Combo>, OutOfMemory>
    ensures { IfOk result (λ rows. AreRelations level.now field rows.items) }
{
    let count = 2 * level.count();
    let mut rows = Vec::with_capacity(alloc, count as usize)?;
    for k in 0..count {
        rows.push(relation(alloc, level, field, k)?)?;
    }
    Ok(rows)
}
