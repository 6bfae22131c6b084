//! Scripts as users write them: a text is read into its space and its sessions of
//! command lines, and a line into its command. Both are exact, for what is accepted
//! and for what is refused. A script is made from a number too, by draws that anyone
//! can repeat.
#![tactic(auto)]

mod command;
mod command_fault;
mod drawn;
mod drawn_laws;
mod draws;
mod fields;
mod generation;
mod items;
mod kind;
mod laws;
mod limits;
mod line;
mod reading;
mod script;
mod script_fault;
mod script_line;
mod session;
mod space;
mod term;
mod tokens;
mod word;

pub use command::{Command, parse_command};
pub use command_fault::{CommandFault, LimitWord};
pub use drawn::{DrawnCommand, DrawnTerm};
pub use drawn_laws::{drawn_commands_fit, drawn_lines_are_read};
pub use draws::Draws;
pub use items::{Integers, Items, Terms};
pub use kind::Kind;
pub use laws::{generated_scripts_have_four_sessions, indices_are_least};
pub use limits::{MAX_COMMANDS, MAX_MAGNITUDE, MAX_SESSIONS, MAX_TERMS, limit_values};
pub use line::CommandLine;
pub use reading::parse_script;
pub use script::Script;
pub use script_fault::{ScriptCause, ScriptFault};
pub use session::SessionText;
pub use space::SpaceLine;
pub use term::Term;
pub use word::Word;
