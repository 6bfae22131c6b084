ghost use Rattle.std.specs.Prelude.{◌≡◌, IfOk, IfSome, length};
ghost use Rattle.session_core.specs.Answers.{IsAnswer, IsNoSplit};
ghost use Rattle.session_core.specs.Demands.{ServesDemand};
ghost use Rattle.session_core.specs.Replies.{Finishes, IsVersionAt};

use crate::answers::{coordinates, cusps, hecke, operators, points, splits};
use crate::outcome::Finish;
use crate::prepared::Prepared;
use cusps_boundary::Cusps;
use field_table::OutOfMemory;
use hecke_columns::ColumnSource;
use quotient_coords::Space;
use reply_text::Reply;
use script_text::Command;
use split_state::Splitting;
use std::alloc::Global;

/// Finishes a command that was prepared for the space at the version that is lent, from a source of the columns that it
/// demands; any source serves where it demands none. Want of memory is a reply. Costs for `image` a pass over d numbers
/// for each term, for `reduce`, `certify` and `star` what the space's own calls cost, for `chains` a walk along the chains, for
/// `boundary` and `cusps` the making of the cusps, which a host keeps, for `operator`, `apply`, `poly` and `split` the test
/// of the operator: a pass or two over d numbers for each kept relation, and a pass for each symbol; and for `split` what
/// `Splitting::refine` costs.
pub fn finish<C: ColumnSource>(
    alloc: Global,
    space: &Space,
    prepared: &Prepared,
    splitting: &Splitting,
    columns: &mut C,
) -> Finish
    requires ground { prepared.now.ground ≡ space.now }
    requires version { IsVersionAt space.now prepared.now.version splitting.now }
    requires parts { prepared.now.parts ≡ length splitting.now.parts }
    requires source { ServesDemand (C.setting columns.old) (C.matrices columns.old)
        (C.can_give columns.old)
        space.now prepared.now.demand }
    ensures { Finishes space.now prepared.now.version splitting.now prepared.now.command result }
{
    let mut table = None;
    finish_over(alloc, space, &mut table, prepared, splitting, columns)
}

// The same with a table of the cusps, which are made where they are first told of, and stay.
pub(crate) fn finish_over<C: ColumnSource>(
    alloc: Global,
    space: &Space,
    table: &mut Option<Cusps>,
    prepared: &Prepared,
    splitting: &Splitting,
    columns: &mut C,
) -> Finish
    requires ground { prepared.now.ground ≡ space.now }
    requires version { IsVersionAt space.now prepared.now.version splitting.now }
    requires parts { prepared.now.parts ≡ length splitting.now.parts }
    requires cusps { IfSome table.old (λ c. c ≡ space.now.level) }
    requires source { ServesDemand (C.setting columns.old) (C.matrices columns.old)
        (C.can_give columns.old)
        space.now prepared.now.demand }
    ensures finishes { Finishes space.now prepared.now.version splitting.now prepared.now.command result }
    ensures cusps { IfSome table.new (λ c. c ≡ space.now.level) }
{
    match outcome(alloc, space, table, prepared, splitting, columns) {
        Ok(finish) => finish,
        Err(_) => Finish::Reply(Reply::Memory),
    }
}

// What the command comes to, but for want of memory.
fn outcome<C: ColumnSource>(
    alloc: Global,
    space: &Space,
    table: &mut Option<Cusps>,
    prepared: &Prepared,
    splitting: &Splitting,
    columns: &mut C,
) -> Result<Finish, OutOfMemory>
    requires ground { prepared.now.ground ≡ space.now }
    requires version { IsVersionAt space.now prepared.now.version splitting.now }
    requires parts { prepared.now.parts ≡ length splitting.now.parts }
    requires cusps { IfSome table.old (λ c. c ≡ space.now.level) }
    requires source { ServesDemand (C.setting columns.old) (C.matrices columns.old)
        (C.can_give columns.old)
        space.now prepared.now.demand }
    ensures finishes { IfOk result (Finishes space.now prepared.now.version splitting.now prepared.now.command) }
    ensures cusps { IfSome table.new (λ c. c ≡ space.now.level) }
{
    let _demand = prepared.demand();
    match prepared.command() {
        Command::Split { op, coefficients } => splits::split(
            alloc,
            space,
            splitting,
            *op,
            coefficients.as_slice(),
            columns,
        ),
        _ => Ok(Finish::Reply(answer(alloc, space, table, prepared, splitting, columns)?)),
    }
}

// The answer to a command that is no split.
fn answer<C: ColumnSource>(
    alloc: Global,
    space: &Space,
    table: &mut Option<Cusps>,
    prepared: &Prepared,
    splitting: &Splitting,
    columns: &mut C,
) -> Result<Reply, OutOfMemory>
    requires ground { prepared.now.ground ≡ space.now }
    requires version { IsVersionAt space.now prepared.now.version splitting.now }
    requires parts { prepared.now.parts ≡ length splitting.now.parts }
    requires cusps { IfSome table.old (λ c. c ≡ space.now.level) }
    requires no_split { IsNoSplit prepared.now.command }
    requires source { ServesDemand (C.setting columns.old) (C.matrices columns.old)
        (C.can_give columns.old)
        space.now prepared.now.demand }
    ensures answer { IfOk result (IsAnswer space.now prepared.now.version splitting.now prepared.now.command) }
    ensures cusps { IfSome table.new (λ c. c ≡ space.now.level) }
{
    let numbers = prepared.numbers();
    let _demand = prepared.demand();
    match prepared.command() {
        Command::Normal { .. } => Ok(points::normal(space, numbers)),
        Command::Basis => points::basis(alloc, space),
        Command::Reduce { .. } => coordinates::reduce(alloc, space, numbers),
        Command::Certify { .. } => coordinates::certify(alloc, space, numbers),
        Command::Image { .. } => hecke::image(alloc, space, numbers, columns),
        Command::Star { .. } => coordinates::star(alloc, space, numbers),
        Command::Boundary { .. } => cusps::boundary(alloc, space, table, numbers),
        Command::Cusps => cusps::cusps(alloc, space.level(), table),
        Command::Operator { op } => operators::operator(alloc, space, *op, columns),
        Command::Apply { op, coords } => {
            operators::apply(alloc, space, *op, coords.as_slice(), columns)
        }
        Command::Poly {
            op,
            coefficients,
            coords,
        } => operators::poly(
            alloc,
            space,
            *op,
            coefficients.as_slice(),
            coords.as_slice(),
            columns,
        ),
        Command::Chains { n } => hecke::chains(alloc, *n),
        Command::Show => splits::show(alloc, splitting, prepared.version()),
        Command::Part { number } => splits::part(alloc, splitting, *number),
        // A split has no answer alone.
        Command::Split { .. } => unreachable!(),
    }
}
