ghost use Rattle.std.specs.Prelude.{◌<◌, ◌^◌, ◌-◌, length};

use script_text::{
    Command, CommandFault, CommandLine, LimitWord, ScriptCause, ScriptFault, parse_command,
    parse_script,
};
use std::alloc::Global;

fn needs<T: Send + Sync>(_: &T) {}

/// The line and the cause of a text that is no script.
fn fault(rt: &HostRuntime, text: &[u8]) -> Option<(u32, ScriptCause)>
    requires { length text.now < u32.MAX }
{
    match parse_script(rt.alloc(), text) {
        Err(ScriptFault::BadScript { line, cause }) => Some((line, cause)),
        _ => None,
    }
}

#[test]
fn faults_of_scripts(rt: HostRuntime) {
    assert_eq!(rt;
        fault(&rt, b"space 11 6"),
        Some((1, ScriptCause::Characteristic))
    );
    assert_eq!(rt; fault(&rt, b"space 1001 5"), Some((1, ScriptCause::Level)));
    assert_eq!(rt; fault(&rt, b""), Some((1, ScriptCause::Header)));
    assert_eq!(rt; fault(&rt, b"# x\n"), Some((2, ScriptCause::Header)));
    assert_eq!(rt;
        fault(&rt, b"space 11 101\nnormal 3 1"),
        Some((2, ScriptCause::NoSession))
    );
    assert_eq!(rt;
        fault(&rt, b"space 11 101\nsession 1"),
        Some((2, ScriptCause::Session))
    );
}

/// A script with carriage returns, a blank line, a comment and no last line end.
#[test]
fn a_script(rt: HostRuntime) {
    let text = b"space 11 101\r\n\r\n# note\r\nsession\r\nnormal 3 1";
    match parse_script(rt.alloc(), text) {
        Ok(script) => {
            needs(&script);
            assert_eq!(rt; script.space().modulus, 11);
            assert_eq!(rt; script.sessions().len(), 1);
            for session in script.sessions() {
                assert_eq!(rt; session.commands().len(), 1, "in the one session");
                for line in session.commands() {
                    assert_eq!(rt; line.line, 5, "the one command");
                    let command = parse_command(rt.alloc(), line);
                    assert!(rt; matches!(&command, Ok(Command::Normal { u: 3, v: 1 })));
                }
            }
        }
        Err(_) => assert!(rt; false),
    }
}

/// How many sessions a header and a comment of this many letters have.
fn commented(rt: &HostRuntime, letters: usize) -> Option<usize> {
    let mut text = Vec::from_slice(rt.alloc(), b"space 11 101\n#").ok()?;
    let comment = vec![in rt.alloc(); b'x'; letters].ok()?;
    text.extend_from_slice(&comment).ok()?;
    if u32::MAX as usize <= text.len() {
        return None;
    }
    let script = parse_script(rt.alloc(), &text).ok()?;
    Some(script.sessions().len())
}

/// A comment that makes a megabyte with the header.
#[test]
fn a_long_comment(rt: HostRuntime) {
    assert_eq!(rt; commented(&rt, 1_048_562), Some(0));
}

/// What a line is refused for.
fn refusal(rt: &HostRuntime, text: &[u8]) -> Option<CommandFault>
    requires { length text.now < u32.MAX }
{
    let text = match Vec::from_slice(rt.alloc(), text) {
        Ok(text) => text,
        Err(_) => return None,
    };
    match parse_command(rt.alloc(), &CommandLine { line: 1, text }) {
        Ok(_) => None,
        Err(fault) => Some(fault),
    }
}

#[test]
fn faults_of_commands(rt: HostRuntime) {
    let n = Some(CommandFault::Limit { what: LimitWord::N });
    let number = Some(CommandFault::Limit {
        what: LimitWord::Number,
    });
    assert_eq!(rt; refusal(&rt, b"image 401 1:0:1"), n);
    assert_eq!(rt; refusal(&rt, b"image 0 1:0:1"), n);
    assert_eq!(rt; refusal(&rt, b"chains 401"), n);
    assert_eq!(rt; refusal(&rt, b"reduce 1:1:5000000000"), number);
    assert_eq!(rt;
        refusal(&rt, b"image 2 1:0"),
        Some(CommandFault::Grammar { token: 3 })
    );
    assert_eq!(rt;
        refusal(&rt, b"frob"),
        Some(CommandFault::Grammar { token: 1 })
    );
    assert_eq!(rt;
        refusal(&rt, b"split"),
        Some(CommandFault::Grammar { token: 2 })
    );
    assert_eq!(rt; refusal(&rt, b"reduce 2:1:5 -1:0:1 1:1:7"), None);
    assert_eq!(rt; refusal(&rt, b"poly T2 -3,1 1 81 0"), None);
    assert_eq!(rt; refusal(&rt, b"split star -1,1"), None);
}

/// A header, so many session lines, and so many commands after them.
fn text_of(alloc: Global, sessions: usize, commands: usize) -> Option<Vec<u8>> {
    let mut text = Vec::from_slice(alloc, b"space 11 101\n").ok()?;
    for _ in 0..sessions {
        text.extend_from_slice(b"session\n").ok()?;
    }
    for _ in 0..commands {
        text.extend_from_slice(b"basis\n").ok()?;
    }
    if u32::MAX as usize <= text.len() {
        return None;
    }
    Some(text)
}

/// How many sessions its script has.
fn sessions_of(rt: &HostRuntime, sessions: usize, commands: usize) -> Option<usize> {
    let text = text_of(rt.alloc(), sessions, commands)?;
    if u32::MAX as usize <= text.len() {
        return None;
    }
    let script = parse_script(rt.alloc(), &text).ok()?;
    Some(script.sessions().len())
}

/// The line and the cause for which it is no script.
fn fault_of(rt: &HostRuntime, sessions: usize, commands: usize) -> Option<(u32, ScriptCause)> {
    let text = text_of(rt.alloc(), sessions, commands)?;
    if u32::MAX as usize <= text.len() {
        return None;
    }
    fault(rt, &text)
}

/// Eight sessions, and two thousand commands.
#[test]
fn limits_of_scripts(rt: HostRuntime) {
    assert_eq!(rt; sessions_of(&rt, 8, 2000), Some(8));
    assert_eq!(rt; fault_of(&rt, 9, 0), Some((10, ScriptCause::Sessions)));
    assert_eq!(rt; fault_of(&rt, 1, 2001), Some((2003, ScriptCause::Commands)));
}

/// What a command of so many terms is refused for; whether it is one.
fn refusal_of_terms(rt: &HostRuntime, terms: usize) -> Option<(Option<CommandFault>, bool)> {
    let mut text = Vec::from_slice(rt.alloc(), b"reduce").ok()?;
    for _ in 0..terms {
        text.extend_from_slice(b" 1:0:1").ok()?;
    }
    if u32::MAX as usize <= text.len() {
        return None;
    }
    Some((refusal(rt, &text), is_command(rt, &text)))
}

/// Whether a line is a command.
fn is_command(rt: &HostRuntime, text: &[u8]) -> bool
    requires { length text.now < u32.MAX }
{
    let text = match Vec::from_slice(rt.alloc(), text) {
        Ok(text) => text,
        Err(_) => return false,
    };
    parse_command(rt.alloc(), &CommandLine { line: 1, text }).is_ok()
}

/// Sixty-four terms.
#[test]
fn limit_of_terms(rt: HostRuntime) {
    let terms = CommandFault::Limit {
        what: LimitWord::Terms,
    };
    assert_eq!(rt; refusal_of_terms(&rt, 64), Some((None, true)));
    assert_eq!(rt; refusal_of_terms(&rt, 65), Some((Some(terms), false)));
}

/// Magnitudes up to four thousand millions, and seventeen coefficients.
#[test]
fn limits_of_numbers(rt: HostRuntime) {
    let number = Some(CommandFault::Limit {
        what: LimitWord::Number,
    });
    let degree = Some(CommandFault::Limit {
        what: LimitWord::Degree,
    });
    assert!(rt; is_command(&rt, b"normal 4000000000 -4000000000"));
    assert_eq!(rt; refusal(&rt, b"normal 4000000001 1"), number);
    assert_eq!(rt; refusal(&rt, b"normal 1 -4000000001"), number);
    assert!(rt; is_command(&rt, b"split star 1,1,1,1,1,1,1,1,1,1,1,1,1,1,1,1,1"));
    assert_eq!(rt;
        refusal(&rt, b"split star 1,1,1,1,1,1,1,1,1,1,1,1,1,1,1,1,1,1"),
        degree
    );
}
