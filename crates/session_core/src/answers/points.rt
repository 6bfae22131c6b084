ghost use Rattle.std.specs.Prelude.{ℕ, ◌≡◌, ◌<◌, ◌∷◌, [], All, IfOk, List, None, length, map};
ghost use Rattle.p1_normal.specs.Points.{symbol_at, symbols};
ghost use Rattle.quotient_coords.specs.Quotient.{free_symbols};
ghost use Rattle.reply_text.specs.declared.reply.Reply.TheVariants as replies;
ghost use Rattle.script_text.specs.declared.term.Term.{Term};
ghost use Rattle.script_text.specs.declared.command.Command.TheVariants as commands;
ghost use Rattle.session_core.specs.Answers.{IsAnswer};
ghost use Rattle.session_core.specs.Terms.{first_unnamed, symbol_of, symbol_terms};
ghost use Rattle.split_state.specs.Decomposition.{Decomposition};

use field_table::OutOfMemory;
use p1_normal::Point;
use quotient_coords::Space;
use reply_text::{Points, Reply};
use std::alloc::Global;

/// The normal form of a pair, which stands as the one numbered term.
pub fn normal(space: &Space, numbers: &[(u32, i64)]) -> Reply
    requires one { length numbers.now ≡ 1 }
    requires places { All (λ t. t.0 < length (symbols space.now.level)) numbers.now }
    ensures { (term : Term) → first_unnamed space.now.level (term ∷ []) ≡ None →
        numbers.now ≡ symbol_terms space.now.level (term ∷ []) → result ≡ replies.Point (symbol_of space.now.level term) }
{
    // The level is above 0.
    let _level = space.level().modulus();
    Reply::Point(space.level().symbol(numbers[0].0))
}

// The free symbols.
fn free_points(alloc: Global, space: &Space) -> Result<Vec<Point>, OutOfMemory>
    ensures { IfOk result (λ points. points.items
        ≡ map (symbol_at space.now.level) (free_symbols space.now.level space.now.characteristic)) }
{
    let mut points = Vec::with_capacity(alloc, space.dim() as usize)?;
    for j in 0..space.dim() {
        points.push(space.level().symbol(space.free(j)))?;
    }
    Ok(points)
}

/// The free symbols, in rising order.
pub fn basis(alloc: Global, space: &Space) -> Result<Reply, OutOfMemory>
    ensures { (v : ℕ) (s : Decomposition) →
        IfOk result (IsAnswer space.now v s commands.Basis) }
{
    let points = Points::of(free_points(alloc, space)?);
    Ok(Reply::Basis { points })
}
