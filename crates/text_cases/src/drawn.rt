use script_text::{DrawnCommand, DrawnTerm, Draws, Script, SpaceLine};

fn needs<T: Send + Sync>(_: &T) {}

/// What a number draws before its commands, and the first of these.
fn drawn(seed: u64) -> (SpaceLine, DrawnCommand) {
    let (space, mut draws) = Draws::of(seed);
    needs(&draws);
    (space, draws.next_command())
}

#[test]
fn draws_of_nought(rt: HostRuntime) {
    let (space, command) = drawn(0);
    let first = DrawnTerm {
        coefficient: 3,
        v: 103,
    };
    let second = DrawnTerm {
        coefficient: 9,
        v: 57,
    };
    assert_eq!(rt;
        space,
        SpaceLine {
            modulus: 141,
            characteristic: 3
        }
    );
    assert_eq!(rt; command, DrawnCommand::Reduce { first, second });
}

#[test]
fn draws_of_one(rt: HostRuntime) {
    let (space, command) = drawn(1);
    let first = DrawnTerm {
        coefficient: 8,
        v: 152,
    };
    assert_eq!(rt;
        space,
        SpaceLine {
            modulus: 182,
            characteristic: 5
        }
    );
    assert_eq!(rt;
        command,
        DrawnCommand::Image {
            n: 17,
            first,
            second: None
        }
    );
}

/// Whether a command of the script of a number has this line number and this text.
fn has_line(rt: &HostRuntime, seed: u64, place: (usize, usize), line: u32, text: &[u8]) -> bool {
    match Script::generate(rt.alloc(), seed) {
        Ok(script) => match script.sessions().get(place.0) {
            Some(session) => match session.commands().get(place.1) {
                Some(command) => command.line == line && command.text.as_slice() == text,
                None => false,
            },
            None => false,
        },
        Err(_) => false,
    }
}

#[test]
fn the_script_of_nought(rt: HostRuntime) {
    assert!(rt; has_line(&rt, 0, (0, 0), 3, b"reduce 3:1:103 9:1:57"));
    assert!(rt; has_line(&rt, 0, (0, 4), 7, b"split T10 -0,1"));
    assert!(rt; has_line(&rt, 0, (1, 0), 44, b"image 14 9:1:114 2:1:123"));
}

/// Each number of 64 bits makes a script.
#[test]
fn the_script_of_the_greatest_number(rt: HostRuntime) {
    assert!(rt; has_line(&rt, u64::MAX, (0, 1), 4, b"image 7 2:1:148"));
}
