use std::marker::Model;

/// A command's line: its bytes, fewer than 2^32 - 1 of them, and its number in the
/// script, from 1. Contracts see the bytes as a list.
#[derive(Debug, Drop)]
pub struct CommandLine {
    pub line: u32,
    pub text: Vec<u8>,
}

impl Model for CommandLine {
    ghost use Rattle.script_text.specs.Numbered.{NumberedLine, IsShort};

    ghost Value = { NumberedLine };

    ghost view = { λ l. record { line = l.line; text = l.text.items } };

    ghost invariant = { λ l. IsShort l.text.items };
}
