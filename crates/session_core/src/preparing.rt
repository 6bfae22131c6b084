ghost use Rattle.std.specs.Prelude.{◌≡◌, ◌⊎◌, ◌<◌, ℕ, ℤ, All, IfErr, IfOk, None, Some, length, map};
ghost use Rattle.p1_normal.specs.Points.{symbols};
ghost use Rattle.quotient_coords.specs.Quotient.{dimension, ground_of};
ghost use Rattle.reply_text.specs.declared.reply.Reply.TheVariants.{Memory};
ghost use Rattle.script_text.specs.Commands.{IsWithin};
ghost use Rattle.session_core.specs.Demands.{AreDistinctOf, HasColumns, IsDemand, operator_demand};
ghost use Rattle.session_core.specs.Refusals.{
  coordinate_count,
  determinant_of,
  full,
  line_refusal,
  mislength,
  no_part,
  part_number,
  refusal_of,
  uncoprime,
};
ghost use Rattle.session_core.specs.Replies.{Prepares, Refuses};
ghost use Rattle.session_core.specs.Terms.{symbol_terms, terms_of};

use crate::demand::Demand;
use crate::prepared::Prepared;
use crate::terms::{TermFault, command_numbers};
use field_table::{OutOfMemory, Residues};
use op_polynomials::OpName;
use p1_normal::{Level, gcd};
use quotient_coords::Space;
use reply_text::{MAX_VERSIONS, Refusal, Reply};
use script_text::{Command, CommandFault, CommandLine, parse_command};
use split_state::Splitting;
use std::alloc::Global;

/// Prepares a command line at a version, which has this number of entries and this splitting: the first refusal that applies,
/// or want of memory, is the reply; else the command is ready to be finished. The refusals are tried in this order: the
/// grammar of the line; its limits; the first term whose pair names no point; a number that is not coprime to the level;
/// coordinates that are not as many as the dimension; a part that is not there; a split where the version has
/// `MAX_VERSIONS` entries. Costs the line's length, a look-up for each term, and for `image` a sort.
pub fn prepare(
    alloc: Global,
    space: &Space,
    line: &CommandLine,
    splitting: &Splitting,
    version: u32,
) -> Result<Prepared, Reply>
    ensures refused { IfErr result (λ reply.
        Refuses (line_refusal space.now version (length splitting.now.parts) line.now.text) reply
        ⊎ (reply ≡ Memory)) }
    ensures prepared { IfOk result
        (Prepares space.now version (length splitting.now.parts) line.now.text) }
{
    // The parts are no more than the vectors are long.
    let _length = splitting.dim();
    let parts = splitting.parts().len() as u32;
    match parse_command(alloc, line) {
        Ok(command) => prepare_command(alloc, space, command, parts, version),
        Err(CommandFault::Grammar { token }) => Err(Reply::Refused(Refusal::Grammar { token })),
        Err(CommandFault::Limit { what }) => Err(Reply::Refused(Refusal::Limit { what })),
        Err(CommandFault::OutOfMemory) => Err(Reply::Memory),
    }
}

// The same for a command that keeps its limits, at a version of so many parts.
fn prepare_command(
    alloc: Global,
    space: &Space,
    command: Command,
    parts: u32,
    version: u32,
) -> Result<Prepared, Reply>
    requires within { IsWithin command }
    ensures refused { IfErr result (λ reply.
        Refuses (refusal_of space.now version parts command) reply ⊎ (reply ≡ Memory)) }
    ensures ground { IfOk result (λ p. p.ground ≡ space.now) }
    ensures version { IfOk result (λ p. p.version ≡ version) }
    ensures parts { IfOk result (λ p. p.parts ≡ parts) }
    ensures command { IfOk result (λ p. p.command ≡ command) }
    ensures unrefused { IfOk result (λ _. refusal_of space.now version parts command ≡ None) }
{
    let numbers = match command_numbers(alloc, space.level(), &command) {
        Ok(numbers) => numbers,
        Err(TermFault::Unnamed(term)) => return Err(Reply::Refused(Refusal::NotSymbol { term })),
        Err(TermFault::OutOfMemory) => return Err(Reply::Memory),
    };
    if let Some(refusal) = uncoprime_refusal(space.level(), &command) {
        return Err(Reply::Refused(refusal));
    }
    if let Some(refusal) = length_refusal(space, &command) {
        return Err(Reply::Refused(refusal));
    }
    if let Some(refusal) = part_refusal(parts, &command) {
        return Err(Reply::Refused(refusal));
    }
    if let Some(refusal) = full_refusal(version, &command) {
        return Err(Reply::Refused(refusal));
    }
    match demand_of(alloc, space.level(), &command, &numbers) {
        Ok(demand) => Ok(Prepared {
            modulus: space.level().modulus(),
            characteristic: space.field().characteristic(),
            version,
            parts,
            command,
            numbers,
            demand,
        }),
        Err(_) => Err(Reply::Memory),
    }
}

// The refusal of a number that is to be coprime to the level and is not.
fn uncoprime_refusal(level: &Level, command: &Command) -> Option<Refusal>
    ensures { result ≡ uncoprime level.now (determinant_of command.now) }
{
    match command {
        Command::Image { n, .. } => uncoprime_index(level, *n),
        Command::Operator { op }
        | Command::Apply { op, .. }
        | Command::Poly { op, .. }
        | Command::Split { op, .. } => match op {
            OpName::T { n } => uncoprime_index(level, *n),
            OpName::Star => None,
        },
        _ => None,
    }
}

// The refusal of this number if it is not coprime to the level.
fn uncoprime_index(level: &Level, n: u32) -> Option<Refusal>
    ensures { result ≡ uncoprime level.now (Some n) }
{
    let divisor = gcd(n, level.modulus());
    if divisor == 1 {
        None
    } else {
        Some(Refusal::NotCoprime { gcd: divisor })
    }
}

// The refusal of coordinates that are not as many as the dimension.
fn length_refusal(space: &Space, command: &Command) -> Option<Refusal>
    requires within { IsWithin command.now }
    ensures { result ≡ mislength (dimension space.now.level space.now.characteristic)
        (coordinate_count command.now) }
{
    match command {
        Command::Apply { coords, .. } | Command::Poly { coords, .. } => {
            let got = coords.as_slice().len() as u32;
            if got == space.dim() {
                None
            } else {
                Some(Refusal::Length {
                    need: space.dim(),
                    got,
                })
            }
        }
        _ => None,
    }
}

// The refusal of a part that a version of so many parts does not have.
fn part_refusal(parts: u32, command: &Command) -> Option<Refusal>
    ensures { result ≡ no_part parts (part_number command.now) }
{
    match command {
        Command::Part { number } => {
            if 1 <= *number && *number <= parts {
                None
            } else {
                Some(Refusal::NoPart { count: parts })
            }
        }
        _ => None,
    }
}

// The refusal of a split where the version of this number has as many entries as a history may have.
fn full_refusal(version: u32, command: &Command) -> Option<Refusal>
    ensures { result ≡ full version command.now }
{
    match command {
        Command::Split { .. } if version >= MAX_VERSIONS => Some(Refusal::VersionsFull),
        _ => None,
    }
}

// The columns that a command demands, with its numbered terms.
fn demand_of(
    alloc: Global,
    level: &Level,
    command: &Command,
    numbers: &[(u32, i64)],
) -> Result<Demand, OutOfMemory>
    requires within { IsWithin command.now }
    requires coprime { uncoprime level.now (determinant_of command.now) ≡ None }
    requires terms { numbers.now ≡ symbol_terms level.now (terms_of command.now) }
    requires places { All (λ t. t.0 < length (symbols level.now)) numbers.now }
    ensures demand { (p : ℕ) → IfOk result (IsDemand (ground_of level.now p) command.now) }
    ensures columns { IfOk result (HasColumns level.now) }
{
    match command {
        Command::Image { n, .. } => {
            let symbols = distinct_symbols(alloc, numbers)?;
            Ok(Demand::Some {
                n: *n,
                symbols: Residues::of(symbols),
            })
        }
        Command::Operator { op }
        | Command::Apply { op, .. }
        | Command::Poly { op, .. }
        | Command::Split { op, .. } => Ok(operator_demand(*op)),
        _ => Ok(Demand::Nothing),
    }
}

// The columns that an operator takes: all of its n.
fn operator_demand(op: OpName) -> Demand
    ensures { result ≡ operator_demand op }
{
    match op {
        OpName::T { n } => Demand::All { n },
        OpName::Star => Demand::Nothing,
    }
}

// The symbols of the terms, rising without repeats.
fn distinct_symbols(alloc: Global, numbers: &[(u32, i64)]) -> Result<Vec<u32>, OutOfMemory>
    ensures { IfOk result (λ symbols. AreDistinctOf (map (λ t. t.0) numbers.now) symbols.items) }
{
    let mut symbols = symbols_of(alloc, numbers)?;
    symbols.sort_unstable();
    symbols.dedup();
    Ok(symbols)
}

// The symbols of the terms, in their order.
fn symbols_of(alloc: Global, numbers: &[(u32, i64)]) -> Result<Vec<u32>, OutOfMemory>
    ensures { IfOk result (λ symbols. symbols.items ≡ map (λ t. t.0) numbers.now) }
{
    Ok(numbers.iter().map(|term| term.0).collect(alloc)?)
}
