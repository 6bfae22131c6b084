ghost use Rattle.std.specs.Prelude.{◌≡◌, [], ◌∷◌, ◌++◌, OnOk, OnErr};

use crate::line::CommandLine;
use std::alloc::{AllocError, Global};
use std::marker::Model;

/// The command lines of a session, in order. Contracts see it as their list.
#[derive(Debug, Drop)]
pub struct SessionText {
    commands: Vec<CommandLine>,
}

impl Model for SessionText {
    ghost use Rattle.std.specs.Prelude.{List};
    ghost use Rattle.script_text.specs.Numbered.{NumberedLine};

    ghost Value = { List NumberedLine };

    ghost view = { λ s. s.commands.items };
}

impl SessionText {
    /// A session without a command.
    pub(crate) fn new(alloc: Global) -> SessionText
        ensures { result ≡ [] }
    {
        SessionText {
            commands: Vec::new(alloc),
        }
    }

    /// Adds a command line at the end.
    pub(crate) fn push(&mut self, line: CommandLine) -> Result<(), AllocError>
        ensures { OnOk result (self.new ≡ self.old ++ line ∷ []) }
    {
        self.commands.push(line)?;
        Ok(())
    }

    /// The command lines in their order.
    pub fn commands(&self) -> &[CommandLine]
        ensures { result.now ≡ self.now }
    {
        self.commands.as_slice()
    }
}
