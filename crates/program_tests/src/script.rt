// Rows of scripts and the texts that they write; bad lines, failed reads and writes, and a long text.
use crate::check::Check;
use cluster_program::{Members, RunFault, script_run};
use std::alloc::{AllocError, Global};
use std::fmt::Write;
use std::process::Abort;
use test_checks::{Paper, Pieces, check, check_eq, new_paper, reader_of};

// What WELCOME announces; a row says W in its place.
const FEATURES: &str =
    "{\"roles\":{\"broker\":{\"features\":{\"pattern_based_subscription\":true,\"publisher_exclusion\":true}},\
\"dealer\":{\"features\":{\"call_canceling\":true,\"caller_identification\":true,\"pattern_based_registration\":true,\
\"progressive_call_results\":true,\"shared_registration\":true}}}}";

// A script in a cluster of `nodes` nodes, and the text that it writes: each node's, and what was said to transports.
pub(crate) struct Row {
    pub(crate) nodes: u8,
    pub(crate) script: &'static str,
    pub(crate) logs: &'static [&'static str],
    pub(crate) told: &'static str,
}

const SESSION: &str =
    "1 boot 1 1 took\n2 boot 2 1 took\n3 item 2 1 1 1 took\n4 item 2 1 2 1 took\n";

const SKIPPED: &str = "1 boot 1 1 took\n2 noop\n3 item 1 1 2 1 skipped\n4 boot 2 1 took\n";

const LOST: &str =
    "1 boot 1 1 took\n2 boot 3 1 took\n3 item 3 1 1 1 took\n4 item 3 1 2 1 took\n5 item 3 1 3 1 took\n\
6 lost 3 1 took\n7 boot 3 2 took\n8 boot 2 1 took\n9 item 2 1 1 1 took\n10 item 2 1 2 1 took\n11 item 2 1 3 1 took\n";

const ROWS: &[Row] = &[
    Row {
        nodes: 3,
        script: "",
        logs: &["up\n", "up\n", "up\n"],
        told: "",
    },
    Row {
        nodes: 7,
        script: "\n\n",
        logs: &["up\n", "up\n", "up\n", "up\n", "up\n", "up\n", "up\n"],
        told: "",
    },
    Row {
        nodes: 3,
        script: "start 1\nflush\ntake 2 1 connect\ntake 2 1 say [1,\"realm1\",{}]\nflush\n",
        logs: &["up\n", SESSION, "up\n", SESSION, "up\n", SESSION],
        told: "to 2 1 1 [2,1,W]\n",
    },
    // a leader crashes
    Row {
        nodes: 3,
        script: "start 1\ndeliver 1\ndeliver 3\ndeliver 5\ncrash 1\nstart 2\ndeliver 11\ndeliver 12\nflush 2 3",
        logs: &[
            "down\n",
            "up\n",
            "1 boot 1 1 took\n2 boot 2 1 took\n",
            "up\n",
            "1 boot 1 1 took\n2 boot 2 1 took\n",
        ],
        told: "",
    },
    // hung before its boot
    Row {
        nodes: 3,
        script: "start 1\ndeliver 1\ndeliver 3\ntake 1 1 connect\ntake 1 1 hung\ndeliver 5\ndeliver 13\ncrash 1\nstart 2\n\
deliver 21\ndeliver 22\ndeliver 9\nflush 2 3\n",
        logs: &["down\n", "up\n", SKIPPED, "up\n", SKIPPED],
        told: "",
    },
    // one callee asked in vain
    Row {
        nodes: 4,
        script: "start 1\ndeliver 1\ndeliver 4\ndeliver 2\ndeliver 5\ndeliver 6\ndeliver 12\n",
        logs: &["up\n", "up\n", "up\n", "up\n"],
        told: "",
    },
    Row {
        nodes: 4,
        script: "start 1\ndeliver 1\ndeliver 4\ndeliver 2\ndeliver 5\ndeliver 6\ndeliver 12\ndeliver 7\ndeliver 15\n",
        logs: &["up\n1 boot 1 1 took\n", "up\n", "up\n", "up\n"],
        told: "",
    },
    // a node is lost and comes back
    Row {
        nodes: 3,
        script: "start 1\nflush\ntake 3 1 connect\ntake 3 1 say [1,\"realm1\",{}]\ntake 3 1 say [64,1,{},\"a.b\"]\nflush\n\
suspect 1 3\nflush\nrestart 3\ntick 3\nflush\ntake 2 1 connect\ntake 2 1 say [1,\"realm1\",{}]\n\
take 2 1 say [64,1,{},\"a.b\"]\nflush\n",
        logs: &["up\n", LOST, "up\n", LOST, "up\n", LOST],
        told: "to 2 1 1 [2,3,W]\nto 2 1 1 [65,1,2]\nto 3 1 1 [2,1,W]\nto 3 1 1 [65,1,1]\n\
to 3 1 1 [6,{},\"wamp.close.system_shutdown\"]\nto 3 1 1 close\n",
    },
    // two nodes want to lead
    Row {
        nodes: 3,
        script: "start 1\nstart 2\ndeliver 1\ndeliver 5\ndeliver 3\ndeliver 6\nstart 1\ndeliver 11\ndeliver 13\ndeliver 7\nflush\n",
        logs: &[
            "up\n1 boot 2 1 took\n2 boot 1 1 took\n",
            "up\n1 boot 2 1 took\n2 boot 1 1 took\n",
            "up\n1 boot 2 1 took\n2 boot 1 1 took\n",
        ],
        told: "",
    },
    // what goes to a node that is down counts as delivered
    Row {
        nodes: 3,
        script: "start 1\nflush 1 2\ncrash 3\nflush\nrestart 3\nflush\n",
        logs: &["up\n1 boot 1 1 took\n", "up\n1 boot 1 1 took\n", "up\n"],
        told: "",
    },
];

// Puts the text of a row.
fn put_row(row: &Row, text: &mut String) -> Result<(), AllocError> {
    put_logs(row.logs, text)?;
    for line in row.told.lines() {
        put_told(line, text)?;
    }
    Ok(())
}

// Puts the nodes' logs, each node's first line after its number.
fn put_logs(logs: &[&str], text: &mut String) -> Result<(), AllocError> {
    let mut node = 0_u8;
    for log in logs {
        if log.starts_with("up") || log.starts_with("down") {
            node = node.wrapping_add(1);
            write!(text, "node {node} ").or(Err(AllocError))?;
        }
        text.push_str(log)?;
    }
    Ok(())
}

// Puts a line of what was said to transports.
fn put_told(line: &str, text: &mut String) -> Result<(), AllocError> {
    let written = match line.strip_suffix("W]") {
        Some(front) => writeln!(text, "{front}{FEATURES}]"),
        None => writeln!(text, "{line}"),
    };
    written.or(Err(AllocError))
}

// A run from the one to the other.
fn run(
    alloc: Global,
    reader: &mut Pieces<'_>,
    paper: &mut Paper,
    members: Members,
) -> Result<(), RunFault> {
    script_run(alloc, reader, paper, members, "realm1")
}

// What a script writes that is read by `most` octets at a time, and how it ends.
fn play(
    rt: &impl Abort,
    alloc: Global,
    nodes: u8,
    script: &[u8],
    most: usize,
) -> (Vec<u8>, Result<(), RunFault>) {
    let members = Members::new(nodes).expect(rt, "a number of nodes");
    let mut paper = new_paper(alloc, None);
    let outcome = run(alloc, &mut reader_of(script, most), &mut paper, members);
    (paper.octets, outcome)
}

pub(crate) fn is_played(rt: &impl Abort, alloc: Global, row: &Row, most: usize) {
    let (written, outcome) = play(rt, alloc, row.nodes, row.script.as_bytes(), most);
    let mut text = String::new(alloc);
    put_row(row, &mut text).expect(rt, "room for a text");
    is_due(rt, outcome, written.as_slice(), text.as_bytes(), row.script);
}

fn is_due(
    rt: &impl Abort,
    outcome: Result<(), RunFault>,
    written: &[u8],
    due: &[u8],
    script: &str,
) {
    check_eq!(rt; outcome, Ok(()), script);
    check_eq!(rt; written, due, script);
}

#[test]
fn plays_scripts(rt: HostRuntime) {
    for row in ROWS {
        is_played(&rt, rt.alloc(), row, 7);
        is_played(&rt, rt.alloc(), row, 65536);
    }
}

#[test]
fn counts_draws_by_what_is_said(rt: HostRuntime) {
    let script =
        "crash 3\ntake 3 1 say {\nstart 1\nflush\ntake 1 1 connect\ntake 1 1 say [1,\"realm1\",{}]\nflush\n";
    let (written, outcome) = play(&rt, rt.alloc(), 3, script.as_bytes(), 64);
    check_eq!(&rt; outcome, Ok(()));
    let mut end = String::from_str(rt.alloc(), "node 3 down\n").expect(&rt, "room for a text");
    put_told("to 1 1 1 [2,2,W]", &mut end).expect(&rt, "room for a line");
    check!(&rt; written.as_slice().ends_with(end.as_bytes()));
}

// Scripts of which a line is no event, and its number.
const BAD: &[(&[u8], u64)] = &[
    (b"jump 1", 1),
    (b"start 1\n\njump 1\n", 3),
    (b"start 1\nflush\ntick  1\nsay", 3),
    (b"\n\n\ntake 4 1 connect", 4),
    (b"take 1 1 connect\xff", 1),
    (b"tick 1\r\n", 1),
];

pub(crate) fn is_bad(rt: &impl Abort, alloc: Global, script: &[u8], number: u64) {
    let (written, outcome) = play(rt, alloc, 3, script, 5);
    check_eq!(rt; outcome, Err(RunFault::Line(number)), script);
    check!(rt; written.is_empty(), script);
}

#[test]
fn writes_nothing_where_a_line_is_bad(rt: HostRuntime) {
    for (script, number) in BAD {
        is_bad(&rt, rt.alloc(), script, *number);
    }
}

// A script that fails in a read or a write.
const SCRIPT: &[u8] =
    b"start 1\nflush\ntake 2 1 connect\ntake 2 1 say [1,\"realm1\",{}]\nflush\ncrash 3\n";

fn stops_after_reads(rt: &impl Abort, alloc: Global, members: Members, reads: u32) {
    let mut reader = reader_of(SCRIPT, 16);
    reader.reads_before_failure = Some(reads);
    let mut paper = new_paper(alloc, None);
    let outcome = run(alloc, &mut reader, &mut paper, members);
    if reader.reads_before_failure.is_none() {
        check_eq!(rt; outcome, Err(RunFault::Transport(83)), reads);
        check!(rt; paper.octets.is_empty(), reads);
    } else {
        check_eq!(rt; outcome, Ok(()), reads);
    }
}

#[test]
fn stops_at_a_failed_read_of_a_script(rt: HostRuntime) {
    let members = Members::new(3).expect(&rt, "a number of nodes");
    for reads in 0..10 {
        stops_after_reads(&rt, rt.alloc(), members, reads);
    }
}

fn ends_after_writes(
    rt: &impl Abort,
    alloc: Global,
    members: Members,
    calls: u32,
    outcome: Result<(), RunFault>,
) {
    let mut paper = new_paper(alloc, Some(calls));
    let mut reader = reader_of(SCRIPT, 64);
    let ended = run(alloc, &mut reader, &mut paper, members);
    check_eq!(rt; ended, outcome, calls);
}

#[test]
fn stops_at_a_failed_write_of_a_script(rt: HostRuntime) {
    let members = Members::new(3).expect(&rt, "a number of nodes");
    let failed = Err(RunFault::Transport(84));
    ends_after_writes(&rt, rt.alloc(), members, 0, failed);
    ends_after_writes(&rt, rt.alloc(), members, 1, failed);
    ends_after_writes(&rt, rt.alloc(), members, 2, Ok(()));
}

// Puts a script of `turns` turns of a client that opens a session and leaves.
fn put_turns(script: &mut Vec<u8>, turns: u16) -> Result<(), AllocError> {
    script.extend_from_slice(b"start 1\nflush\ntake 2 1 connect\n")?;
    for _ in 0..turns {
        script.extend_from_slice(
            b"take 2 1 say [1,\"realm1\",{}]\ntake 2 1 say [6,{},\"x\"]\nflush\n",
        )?;
    }
    Ok(())
}

#[test]
fn writes_before_much_text_waits(rt: HostRuntime) {
    let members = Members::new(3).expect(&rt, "a number of nodes");
    let mut script = Vec::new(rt.alloc());
    put_turns(&mut script, 400).expect(&rt, "room for a script");
    let mut paper = new_paper(rt.alloc(), None);
    let mut reader = reader_of(script.as_slice(), 1 << 20);
    let outcome = run(rt.alloc(), &mut reader, &mut paper, members);
    check_eq!(&rt; outcome, Ok(()));
    check!(&rt; paper.longest >= 65536 && paper.longest < 65536 + 512);
    check!(&rt; paper.octets.len() > 400 * (274 + 39));
}
