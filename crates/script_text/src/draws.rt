//! Draws, and what they choose: a generator that no one has to trust, since anyone can repeat it.

ghost use Rattle.std.specs.Prelude.{◌≡◌, ◌<◌, ◌≤◌};
ghost use Rattle.script_text.specs.Draws.{
  first_state,
  pick,
  term,
  terms,
  index_from,
  index,
  operator,
  drawn_space,
  command_of_kind,
  drawn_command,
};

use crate::drawn::{DrawnCommand, DrawnTerm};
use crate::space::SpaceLine;
use field_table::CHARACTERISTICS;
use op_polynomials::OpName;
use p1_normal::gcd;

/// The draws of a number, from some draw on, for commands at a level. They take no memory.
#[derive(Debug, Drop)]
pub struct Draws {
    level: u32,
    state: u32,
    ghost least: { 100 ≤ level },
    ghost most: { level ≤ 200 },
    ghost below: { state < 2147483647 },
}

impl Draws {
    /// The level and the characteristic that a number draws, and the draws after them.
    pub fn of(seed: u64) -> (SpaceLine, Draws)
        ensures space { result.0 ≡ (drawn_space (first_state seed)).0 }
        ensures state { result.1.state ≡ (drawn_space (first_state seed)).1 }
        ensures level { result.1.level ≡ result.0.modulus }
    {
        let mut draws = Draws {
            level: 100,
            state: 1 + (seed % 2_147_483_646) as u32,
        };
        let level = 100 + draws.pick(101);
        let characteristic = CHARACTERISTICS[draws.pick(12) as usize];
        draws.level = level;
        (
            SpaceLine {
                modulus: level,
                characteristic,
            },
            draws,
        )
    }

    /// The command that the next draws choose.
    pub fn next_command(&mut self) -> DrawnCommand
        ensures value { result ≡ (drawn_command self.old.level self.old.state).0 }
        ensures state { self.new.state ≡ (drawn_command self.old.level self.old.state).1 }
        ensures level { self.new.level ≡ self.old.level }
    {
        let kind = self.pick(8);
        self.command_of_kind(kind)
    }

    /// The command of a kind that the next draws choose.
    fn command_of_kind(&mut self, kind: u32) -> DrawnCommand
        ensures value { result ≡ (command_of_kind self.old.level kind self.old.state).0 }
        ensures state { self.new.state ≡ (command_of_kind self.old.level kind self.old.state).1 }
        ensures level { self.new.level ≡ self.old.level }
    {
        match kind {
            0 => {
                let level = self.level;
                DrawnCommand::Normal {
                    v: self.pick(level),
                }
            }
            1 => {
                let (first, second) = self.terms();
                DrawnCommand::Reduce { first, second }
            }
            2 => {
                let n = self.index();
                let (first, second) = self.terms();
                DrawnCommand::Image {
                    n,
                    first,
                    second: Some(second),
                }
            }
            3 => {
                let n = self.index();
                DrawnCommand::Image {
                    n,
                    first: self.term(),
                    second: None,
                }
            }
            4 => DrawnCommand::Star { term: self.term() },
            5 => {
                let (first, second) = self.terms();
                DrawnCommand::Boundary { first, second }
            }
            6 => DrawnCommand::Show,
            _ => {
                let op = self.operator();
                DrawnCommand::Split {
                    op,
                    constant: self.pick(10),
                }
            }
        }
    }

    /// One draw, modulo a bound.
    fn pick(&mut self, bound: u32) -> u32
        requires { 0 < bound }
        ensures value { result ≡ (pick bound self.old.state).0 }
        ensures state { self.new.state ≡ (pick bound self.old.state).1 }
        ensures level { self.new.level ≡ self.old.level }
    {
        self.state = (16807 * u64::from(self.state) % 2_147_483_647) as u32;
        self.state % bound
    }

    /// A term.
    fn term(&mut self) -> DrawnTerm
        ensures value { result ≡ (term self.old.level self.old.state).0 }
        ensures state { self.new.state ≡ (term self.old.level self.old.state).1 }
        ensures level { self.new.level ≡ self.old.level }
    {
        let coefficient = 1 + self.pick(9);
        let level = self.level;
        let v = self.pick(level);
        DrawnTerm { coefficient, v }
    }

    /// Two terms.
    fn terms(&mut self) -> (DrawnTerm, DrawnTerm)
        ensures value { result ≡ (terms self.old.level self.old.state).0 }
        ensures state { self.new.state ≡ (terms self.old.level self.old.state).1 }
        ensures level { self.new.level ≡ self.old.level }
    {
        let first = self.term();
        let second = self.term();
        (first, second)
    }

    /// The index of an operator T_n.
    fn index(&mut self) -> u32
        ensures value { result ≡ (index self.old.level self.old.state).0 }
        ensures state { self.new.state ≡ (index self.old.level self.old.state).1 }
        ensures level { self.new.level ≡ self.old.level }
    {
        let least = 1 + self.pick(20);
        index_from(self.level, least)
    }

    /// The operator of a split.
    fn operator(&mut self) -> OpName
        ensures value { result ≡ (operator self.old.level self.old.state).0 }
        ensures state { self.new.state ≡ (operator self.old.level self.old.state).1 }
        ensures level { self.new.level ≡ self.old.level }
    {
        if self.pick(4) == 0 {
            OpName::Star
        } else {
            OpName::T { n: self.index() }
        }
    }
}

/// The least number from this one on that is coprime to the level.
fn index_from(level: u32, least: u32) -> u32
    requires low { least ≤ 20 }
    requires high { level ≤ 200 }
    ensures { result ≡ index_from level least }
{
    for n in least..least + level + 1 {
        if gcd(n, level) == 1 {
            return n;
        }
    }
    1
}
