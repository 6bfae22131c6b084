ghost use Rattle.std.specs.Prelude.{◌≡◌, ◌≤◌, length};
ghost use Rattle.script_text.specs.Valid.{IsSpace, command_count};

use crate::limits::{MAX_COMMANDS, MAX_SESSIONS};
use crate::session::SessionText;
use crate::space::SpaceLine;
use std::marker::Model;

/// A script: its space, which has a level from 1 to `MAX_LEVEL` and a listed
/// characteristic, and its sessions, at most `MAX_SESSIONS` of them with at most
/// `MAX_COMMANDS` commands in all. Contracts see it as that data.
#[derive(Debug, Drop)]
pub struct Script {
    pub(crate) space: SpaceLine,
    pub(crate) sessions: Vec<SessionText>,
}

impl Model for Script {
    ghost use Rattle.script_text.specs.Valid.{ScriptText, IsScript};

    ghost Value = { ScriptText };

    ghost view = { λ s. record { space = s.space; sessions = s.sessions.items } };

    ghost invariant = { λ s. IsScript s.space s.sessions.items };
}

impl Script {
    /// The level and the characteristic.
    pub fn space(&self) -> SpaceLine
        ensures value { result ≡ self.now.space }
        ensures is_space { IsSpace result }
    {
        self.space
    }

    /// The sessions in their order.
    pub fn sessions(&self) -> &[SessionText]
        ensures value { result.now ≡ self.now.sessions }
        ensures few_sessions { length result.now ≤ MAX_SESSIONS }
        ensures few_commands { command_count result.now ≤ MAX_COMMANDS }
    {
        self.sessions.as_slice()
    }
}
