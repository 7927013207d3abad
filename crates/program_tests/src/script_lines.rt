// Which lines scripts spell, told by the text that a run writes.
use crate::script::{Row, is_bad, is_played};

const BOOTED: &str = "up\n1 boot 1 1 took\n";

const WELCOMED: &str = "up\n1 boot 2 1 took\n2 item 2 1 1 1 took\n3 item 2 1 2 1 took\n";

const GREATEST: &str =
    "up\n1 boot 1 1 took\n2 boot 3 1 took\n3 item 3 1 1 4294967295 took\n4 item 3 1 2 4294967295 took\n";

const LOST_TWICE: &str =
    "up\n1 boot 1 1 took\n2 boot 3 1 took\n3 item 3 1 1 1 took\n4 lost 3 1 took\n5 boot 2 1 took\n\
6 lost 3 1 skipped\n";

// Scripts whose lines are all events, and what they write, worked out by hand.
const SCRIPTS: &[Row] = &[
    Row {
        nodes: 3,
        script: "\n\n",
        logs: &["up\n", "up\n", "up\n"],
        told: "",
    },
    // the last line feed may be missing
    Row {
        nodes: 3,
        script: "start 1\nflush",
        logs: &[BOOTED, BOOTED, BOOTED],
        told: "",
    },
    Row {
        nodes: 3,
        script: "start 1\nflush\n",
        logs: &[BOOTED, BOOTED, BOOTED],
        told: "",
    },
    Row {
        nodes: 3,
        script: "tick 1\nstart 2\nsuspect 3 1\ncrash 1\nrestart 3\n",
        logs: &["down\n", "up\n", "up\n"],
        told: "",
    },
    Row {
        nodes: 3,
        script: "deliver 1\ndeliver 18446744073709551615",
        logs: &["up\n", "up\n", "up\n"],
        told: "",
    },
    // between nodes 2 and 3 nothing waits, nor from node 1 to itself
    Row {
        nodes: 3,
        script: "start 1\nflush 2 3\nflush 1 1",
        logs: &["up\n", "up\n", "up\n"],
        told: "",
    },
    Row {
        nodes: 3,
        script: "start 1\nflush 2 3\nflush 1 1\nflush",
        logs: &[BOOTED, BOOTED, BOOTED],
        told: "",
    },
    Row {
        nodes: 3,
        script: "start 1\nflush\ntake 3 4294967295 connect\ntake 3 4294967295 hung\nflush",
        logs: &[GREATEST, GREATEST, GREATEST],
        told: "",
    },
    // each line that says something has a draw of its own, also at a node that is down
    Row {
        nodes: 3,
        script: "crash 1\ntake 1 1 say [6,{}]\ntake 1 1 hung\n\ntake 1 7 say \ntake 1 1 say x y\nstart 2\nflush\n\
take 2 1 connect\ntake 2 1 say [1,\"realm1\",{}]\nflush",
        logs: &["down\n", WELCOMED, WELCOMED],
        told: "to 2 1 1 [2,4,W]\n",
    },
    // a boot is lost twice; node 1 learns of the first loss from node 3, which goes down by it
    Row {
        nodes: 3,
        script: "start 1\nflush\ntake 3 1 connect\nflush\nsuspect 1 3\nsuspect 2 3\nflush 1 3\nflush",
        logs: &[LOST_TWICE, LOST_TWICE, "down\n"],
        told: "to 3 1 1 close\n",
    },
    Row {
        nodes: 7,
        script: "crash 7",
        logs: &["up\n", "up\n", "up\n", "up\n", "up\n", "up\n", "down\n"],
        told: "",
    },
];

// Scripts of which a line is not an event, and its number.
const BAD: &[(&[u8], u64)] = &[
    (b"jump 1", 1),
    (b"start 1\n\njump 1\nhop", 3),
    (b"take 1 0 connect", 1),
    (b"take 1 4294967296 connect", 1),
    (b"take 4 1 connect", 1),
    (b"take 0 1 connect", 1),
    (b"take 1 1 say", 1),
    (b"take 1 1 sa x", 1),
    (b"take 1 1 connect ", 1),
    (b"take 01 1 connect", 1),
    (b"take +1 1 connect", 1),
    (b"take", 1),
    (b"tick  1", 1),
    (b"tick 1\r", 1),
    (b"tick 1\r\n", 1),
    (b"tick 1 2", 1),
    (b"tick 1\xff", 1),
    (b"suspect 1", 1),
    (b"deliver 0", 1),
    (b"deliver 18446744073709551616", 1),
    (b"flush ", 1),
    (b"flush 0", 1),
    (b"flush 4", 1),
    (b" ", 1),
    (b" start 1", 1),
];

#[test]
fn events_are_read(rt: HostRuntime) {
    for row in SCRIPTS {
        is_played(&rt, rt.alloc(), row, 4096);
    }
}

#[test]
fn other_lines_are_refused(rt: HostRuntime) {
    for (script, number) in BAD {
        is_bad(&rt, rt.alloc(), script, *number);
    }
}
