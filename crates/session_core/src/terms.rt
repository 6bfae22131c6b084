ghost use Rattle.std.specs.Prelude.{◌≡◌, ◌<◌, ◌≤◌, ℕ, All, Err, IfOk, None, Some, length};
ghost use Rattle.field_table.specs.Residues.{HasResidues};
ghost use Rattle.field_table.specs.Terms.{HasPlacesBelow, residue_terms};
ghost use Rattle.linear_algebra.specs.Sparse.{sparse};
ghost use Rattle.p1_normal.specs.Points.{symbols};
ghost use Rattle.reply_text.specs.declared.refusal.Refusal.TheVariants as refusals;
ghost use Rattle.script_text.specs.Commands.{IsWithin};
ghost use Rattle.session_core.specs.Refusals.{unnamed};
ghost use Rattle.session_core.specs.Terms.{first_unnamed, symbol_terms, terms_of};

use field_table::{Combo, Field, OutOfMemory};
use p1_normal::Level;
use script_text::{Command, MAX_TERMS, Term};
use std::alloc::Global;

/// Why terms have no numbers.
#[derive(Clone, Copy, Debug, PartialEq, Eq)]
pub enum TermFault {
    OutOfMemory,
    /// The number, from 1, of the first term whose pair names no point.
    Unnamed(u32),
}

/// The symbols' numbers with the coefficients, or the first term whose pair names no point. Costs a look-up for each
/// term.
pub fn term_numbers(
    alloc: Global,
    level: &Level,
    terms: &[Term],
) -> Result<Vec<(u32, i64)>, TermFault>
    requires few { length terms.now ≤ MAX_TERMS }
    ensures terms { IfOk result (λ v. v.items ≡ symbol_terms level.now terms.now) }
    ensures places { IfOk result (λ v. All (λ t. t.0 < length (symbols level.now)) v.items) }
    ensures named { IfOk result (λ _. first_unnamed level.now terms.now ≡ None) }
    ensures unnamed { (i : ℕ) → result ≡ Err (TermFault.Unnamed i) →
        unnamed (first_unnamed level.now terms.now) ≡ Some (refusals.NotSymbol i) }
{
    let Ok(mut numbers) = Vec::with_capacity(alloc, terms.len()) else {
        return Err(TermFault::OutOfMemory);
    };
    let mut place = 1;
    for term in terms {
        match level.index(term.u, term.v) {
            Ok(number) => {
                numbers.push_reserved((number, term.coefficient));
            }
            Err(_) => return Err(TermFault::Unnamed(place)),
        }
        place += 1;
    }
    Ok(numbers)
}

/// The same for the terms of a command, of which the pair of `normal` is one.
pub fn command_numbers(
    alloc: Global,
    level: &Level,
    command: &Command,
) -> Result<Vec<(u32, i64)>, TermFault>
    requires within { IsWithin command.now }
    ensures terms { IfOk result (λ v. v.items ≡ symbol_terms level.now (terms_of command.now)) }
    ensures places { IfOk result (λ v. All (λ t. t.0 < length (symbols level.now)) v.items) }
    ensures named { IfOk result (λ _. first_unnamed level.now (terms_of command.now) ≡ None) }
    ensures unnamed { (i : ℕ) → result ≡ Err (TermFault.Unnamed i) →
        unnamed (first_unnamed level.now (terms_of command.now)) ≡ Some (refusals.NotSymbol i) }
{
    match command {
        Command::Normal { u, v } => {
            let term = Term {
                coefficient: 1,
                u: *u,
                v: *v,
            };
            term_numbers(alloc, level, &[term])
        }
        Command::Reduce { terms }
        | Command::Certify { terms }
        | Command::Image { terms, .. }
        | Command::Star { terms }
        | Command::Boundary { terms } => term_numbers(alloc, level, terms.as_slice()),
        _ => Ok(Vec::new(alloc)),
    }
}

/// The combination of numbered terms over a field. Costs a sort.
pub fn combination_of(
    alloc: Global,
    level: &Level,
    field: Field,
    numbers: &[(u32, i64)],
) -> Result<Combo, OutOfMemory>
    requires places { All (λ t. t.0 < length (symbols level.now)) numbers.now }
    ensures vector { IfOk result (λ c. sparse field c
        ≡ sparse field (residue_terms field numbers.now)) }
    ensures places { IfOk result (HasPlacesBelow (length (symbols level.now))) }
    ensures residues { IfOk result (HasResidues field) }
{
    let combo = Combo::from_terms(alloc, field, numbers)?;
    let _rising = combo.terms();
    Ok(combo)
}
