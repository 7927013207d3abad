// Rows of command lines: which order each is, the hints of faults, and the texts of help and version.
use crate::check::Check;
use cluster_program::{Order, UsageFault, help_of, order_of, unreadable_words};
use std::alloc::{AllocError, Global};
use std::process::Abort;
use test_checks::{check, check_eq};

// The words of a command line.
fn words_of(rt: &impl Abort, alloc: Global, line: &str) -> Vec<String> {
    let mut words = Vec::new(alloc);
    for word in line.split_whitespace() {
        put_word(alloc, &mut words, word).expect(rt, "room for a word");
    }
    words
}

fn put_word(alloc: Global, words: &mut Vec<String>, word: &str) -> Result<(), AllocError> {
    words.push(String::from_str(alloc, word)?)?;
    Ok(())
}

// What a command line asks for.
fn asked(rt: &impl Abort, alloc: Global, line: &str) -> Result<Order, UsageFault> {
    let words = words_of(rt, alloc, line);
    let asked = order_of(alloc, &words);
    drop(words);
    asked
}

// The order in words, or the status of the fault.
fn read(rt: &impl Abort, alloc: Global, line: &str) -> String {
    let asked = asked(rt, alloc, line);
    let read = match &asked {
        Ok(order) => told(alloc, order),
        Err(fault) => format!(in alloc; "{}", fault.status()),
    };
    drop(asked);
    read.expect(rt, "room for the order or the status")
}

// Asserts that these are the orders of these command lines, or the status of their faults.
pub(crate) fn are_read(rt: &impl Abort, alloc: Global, lines: &[(&str, &str)]) {
    for (line, answer) in lines {
        is_read(rt, alloc, line, answer);
    }
}

fn is_read(rt: &impl Abort, alloc: Global, line: &str, answer: &str) {
    let read = read(rt, alloc, line);
    is_answer(rt, read.as_str(), answer, line);
}

fn is_answer(rt: &impl Abort, read: &str, answer: &str, line: &str) {
    check_eq!(rt; read, answer, line);
}

fn told(alloc: Global, order: &Order) -> Result<String, AllocError> {
    match order {
        Order::Stream { realm } => format!(in alloc; "stream {realm}"),
        Order::Script { members, realm } => {
            format!(in alloc; "script {} {realm}", members.count())
        }
        Order::Serve {
            members,
            port,
            key,
            dir,
            realm,
        } => {
            let dir = match dir {
                Some(name) => name.as_str(),
                None => "-",
            };
            format!(in alloc; "serve {} {port} {key} {dir} {realm}", members.count())
        }
    }
}

// What is wrong with the command line.
fn cause(rt: &impl Abort, alloc: Global, line: &str) -> String {
    let asked = asked(rt, alloc, line);
    let cause = match &asked {
        Ok(order) => told(alloc, order),
        Err(fault) => format!(in alloc; "{fault}"),
    };
    drop(asked);
    cause.expect(rt, "room for the cause")
}

// The text that a command line asks for, if it asks for one.
fn help(rt: &impl Abort, alloc: Global, line: &str) -> Option<String> {
    let words = words_of(rt, alloc, line);
    let told = help_of(alloc, &words);
    drop(words);
    told.expect(rt, "a text or none")
}

// Command lines, and what they ask for or the status of their fault.
const LINES: &[(&str, &str)] = &[
    ("stream", "stream realm1"),
    ("stream --realm a.b", "stream a.b"),
    ("stream --realm=a.b", "stream a.b"),
    ("", "2"),
    ("stream --realm", "2"),
    ("stream --realm -x", "2"),
    ("stream --realm=-x", "2"),
    ("stream --realm=", "2"),
    ("stream --realm a --realm b", "2"),
    ("stream --nodes 3", "2"),
    ("stream more", "2"),
    ("script --nodes 3", "script 3 realm1"),
    ("script --nodes 7", "script 7 realm1"),
    ("script --nodes=03", "script 3 realm1"),
    ("script --nodes 5 --realm a", "script 5 a"),
    ("script --realm a --nodes 5", "script 5 a"),
    ("script", "2"),
    ("script --realm a", "2"),
    ("script --nodes", "2"),
    ("script --nodes 2", "2"),
    ("script --nodes 8", "2"),
    ("script --nodes 259", "2"),
    ("script --nodes 18446744073709551619", "2"),
    ("script --nodes +3", "2"),
    ("script --nodes -3", "2"),
    ("script --nodes=-3", "2"),
    ("script --nodes three", "2"),
    ("script --nodes=", "2"),
    ("script --nodes 3 --nodes 3", "2"),
    ("script --nodes 3 --realm a --realm a", "2"),
    ("script --nodes 3 --realm -a", "2"),
    ("script --nodes 3 --port 9000", "2"),
    ("script --nodes 3 4", "2"),
    ("--nodes 3 script", "2"),
    ("script stream --nodes 3", "2"),
    ("help", "2"),
    ("--help", "2"),
    ("--version", "2"),
];

#[test]
fn reads_command_lines(rt: HostRuntime) {
    are_read(&rt, rt.alloc(), LINES);
}

// Command lines, and the words that say what may have been meant.
const HINTS: &[(&str, &str)] = &[
    ("steam", "tip: a similar subcommand exists: 'stream'"),
    (
        "stream --relam a",
        "tip: a similar argument exists: '--realm'",
    ),
    (
        "help",
        "error: unrecognized subcommand 'help'\n\nUsage: wampd stream [--realm NAME]\n",
    ),
    ("script --nodes 8", "error: a cluster has 3 to 7 nodes"),
    (
        "serve --nodes 8 --port 9000 --key 7",
        "error: a cluster has 3 to 7 nodes",
    ),
    (
        "serve --nodes 3 --port 1023 --key 7",
        "error: a port is a number from 1024 to 65529",
    ),
    (
        "serve --nodes 3 --port 9000 --key seven",
        "error: a key is a number from 0 to 18446744073709551615",
    ),
    (
        "serve --nodes 3 --port 9000 --key 7 --dir=",
        "error: the name of a folder is not empty and does not begin with '-'",
    ),
    (
        "serve --nodes 3 --prot 9000 --key 7",
        "tip: a similar argument exists: '--port'",
    ),
];

fn is_hinted(rt: &impl Abort, alloc: Global, line: &str, hint: &str) {
    let cause = cause(rt, alloc, line);
    check!(rt; cause.contains(hint), line);
}

#[test]
fn says_what_may_have_been_meant(rt: HostRuntime) {
    for (line, hint) in HINTS {
        is_hinted(&rt, rt.alloc(), line, hint);
    }
    let unreadable = unreadable_words(rt.alloc());
    check_eq!(&rt; unreadable.status(), 2);
}

// Command lines that ask for a text, and a part of it.
const TEXTS: &[(&str, &str)] = &[
    ("--version", "wampd 0.1.0\n"),
    ("--help", "Usage: wampd <COMMAND>\n"),
    ("stream --help", "Usage: wampd stream [OPTIONS]\n"),
    (
        "script --help",
        "Usage: wampd script [OPTIONS] --nodes <N>\n",
    ),
    (
        "serve --help",
        "wampd serve --nodes 3 --port 9000 --key 7 --dir data",
    ),
    (
        "serve --help",
        "A line `status` on standard input is answered",
    ),
    ("--help", "\n  serve "),
    (
        "--help",
        "\n  4  a node of the cluster failed, or its store; or the folder is of another cluster\n",
    ),
    ("--help", "\ndocs/OPERATING.md explains each status"),
];

fn is_helped(rt: &impl Abort, alloc: Global, line: &str, text: &str) {
    let told = help(rt, alloc, line).expect(rt, "the text is told");
    check!(rt; told.contains(text), line);
}

#[test]
fn tells_what_is_asked_for(rt: HostRuntime) {
    for (line, text) in TEXTS {
        is_helped(&rt, rt.alloc(), line, text);
    }
    let told = help(&rt, rt.alloc(), "stream");
    check!(&rt; told.is_none());
}
