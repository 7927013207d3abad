// Rows of what comes on standard input of a served cluster: which lines are commands.
use crate::check::Check;
use serve_lines::{Command, Commands};
use std::process::Abort;
use test_checks::check_eq;

// What comes, and the commands among its lines: `s` for a status, `o` for any other line.
const INPUTS: &[(&str, &str)] = &[
    ("", ""),
    ("status", ""),
    ("status\n", "s"),
    ("status\nstatus\n", "ss"),
    ("\n", "o"),
    ("status\r\n", "o"),
    (
        "statu\nstatuss\nstatus \n status\nSTATUS\nstatus\n",
        "ooooos",
    ),
    ("statusstatus\nstatus\nx", "os"),
    ("xstatus\nstat\nus\n", "ooo"),
];

// Adds to `found` what each line of this input is.
fn read(rt: &impl Abort, found: &mut String, input: &str) {
    let mut commands = Commands::new();
    for octet in input.as_bytes() {
        match commands.take(*octet) {
            Some(Command::Status) => found.push('s').expect(rt, "memory"),
            Some(Command::Other) => found.push('o').expect(rt, "memory"),
            None => {}
        }
    }
}

fn is_found(rt: &impl Abort, found: &str, wanted: &str, input: &str) {
    check_eq!(rt; found, wanted, input);
}

#[test]
fn lines_are_commands(rt: HostRuntime) {
    for (input, wanted) in INPUTS {
        let mut found = String::new(rt.alloc());
        read(&rt, &mut found, input);
        is_found(&rt, found.as_str(), wanted, input);
    }
}
