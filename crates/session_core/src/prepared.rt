ghost use Rattle.std.specs.Prelude.{◌≡◌, ◌<◌, All, List, None, length};
ghost use Rattle.op_polynomials.specs.declared.entry.SplitEntry.{SplitEntry};
ghost use Rattle.p1_normal.specs.Points.{symbols};
ghost use Rattle.script_text.specs.Commands.{IsWithin};
ghost use Rattle.session_core.specs.Demands.{HasColumns, IsDemand};
ghost use Rattle.session_core.specs.Refusals.{refusal_of};
ghost use Rattle.session_core.specs.Terms.{symbol_terms, terms_of};

use crate::demand::Demand;
use script_text::Command;
use std::marker::Model;

/// A command that nothing refuses at a version, made ready for its answer: its terms by the numbers of their symbols, and
/// the columns that it demands. Contracts see the ground (the level and the characteristic), the version's number and its
/// number of parts, the command and the demand.
#[derive(Drop)]
pub struct Prepared {
    pub(crate) modulus: u32,
    pub(crate) characteristic: u32,
    pub(crate) version: u32,
    pub(crate) parts: u32,
    pub(crate) command: Command,
    pub(crate) numbers: Vec<(u32, i64)>,
    pub(crate) demand: Demand,
}

impl Model for Prepared {
    ghost use Rattle.quotient_coords.specs.Quotient.{ground_of};
    ghost use Rattle.session_core.specs.Demands.{Preparation};
    ghost use Rattle.session_core.specs.Prepared.{IsPrepared};

    ghost Value = { Preparation };

    ghost view = { λ p. record {
      ground = ground_of p.modulus p.characteristic;
      version = p.version;
      parts = p.parts;
      command = p.command;
      demand = p.demand;
    } };

    ghost invariant = { λ p. IsPrepared
        (ground_of p.modulus p.characteristic) p.version p.parts p.command p.numbers.items p.demand };
}

impl Prepared {
    /// The columns that the command demands: those of the symbols that `image` names, a zero coefficient included;
    /// those of all symbols where the command has an operator T_n; and none of another command. Takes no memory.
    pub fn demand(&self) -> &Demand
        ensures value { result.now ≡ self.now.demand }
        ensures demand { IsDemand self.now.ground self.now.command result.now }
        ensures columns { HasColumns self.now.ground.level result.now }
    {
        &self.demand
    }

    /// The command.
    pub fn command(&self) -> &Command
        ensures value { result.now ≡ self.now.command }
        ensures within { IsWithin result.now }
        ensures unrefused { refusal_of self.now.ground self.now.version self.now.parts result.now ≡ None }
    {
        &self.command
    }

    /// The number of the version at which the command was prepared.
    pub fn version(&self) -> u32
        ensures { result ≡ self.now.version }
    {
        self.version
    }

    // The terms of the command, each by the number of its symbol.
    pub(crate) fn numbers(&self) -> &[(u32, i64)]
        ensures terms { result.now ≡ symbol_terms self.now.ground.level
            (terms_of self.now.command) }
        ensures places { All (λ t. t.0 < length (symbols self.now.ground.level)) result.now }
    {
        &self.numbers
    }
}
