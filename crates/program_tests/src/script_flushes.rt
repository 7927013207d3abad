// Which packets a flush delivers, told by the logs to which they lead.
use crate::script::{Row, is_played};

const BOOTED: &str = "up\n1 boot 1 1 took\n";

// Scripts in a cluster of three nodes, and the nodes' logs, worked out by hand. A start sends packets 1 and 2 to the two others.
const SCRIPTS: &[Row] = &[
    Row {
        nodes: 3,
        script: "flush",
        logs: &["up\n", "up\n", "up\n"],
        told: "",
    },
    // lowest number first, until none is left
    Row {
        nodes: 3,
        script: "start 1\nflush\nflush",
        logs: &[BOOTED, BOOTED, BOOTED],
        told: "",
    },
    // only between the nodes that are listed
    Row {
        nodes: 3,
        script: "start 1\nflush 2 3",
        logs: &["up\n", "up\n", "up\n"],
        told: "",
    },
    Row {
        nodes: 3,
        script: "start 1\nflush 1 3",
        logs: &[BOOTED, "up\n", BOOTED],
        told: "",
    },
    Row {
        nodes: 3,
        script: "start 3\nflush 2 3",
        logs: &["up\n", "up\n1 boot 3 1 took\n", "up\n1 boot 3 1 took\n"],
        told: "",
    },
    Row {
        nodes: 3,
        script: "start 1\nflush 1 2\nflush",
        logs: &[BOOTED, BOOTED, BOOTED],
        told: "",
    },
    // a list of one node
    Row {
        nodes: 3,
        script: "start 1\nflush 1\nflush 2\nflush 3",
        logs: &["up\n", "up\n", "up\n"],
        told: "",
    },
    // what a line delivered is not delivered again; what it sent is
    Row {
        nodes: 3,
        script: "start 1\ndeliver 1\nflush 1 2",
        logs: &[BOOTED, BOOTED, "up\n"],
        told: "",
    },
    Row {
        nodes: 3,
        script: "start 1\ncrash 2\ndeliver 1\nrestart 2\nflush 1 2",
        logs: &["up\n", "up\n", "up\n"],
        told: "",
    },
    // delivered once more, and before it is sent
    Row {
        nodes: 3,
        script: "start 1\ndeliver 1\ndeliver 1\nflush 1 2",
        logs: &[BOOTED, BOOTED, "up\n"],
        told: "",
    },
    Row {
        nodes: 3,
        script: "deliver 1\nstart 1\nflush 1 2",
        logs: &[BOOTED, BOOTED, "up\n"],
        told: "",
    },
    // out of order: the later of two is delivered first
    Row {
        nodes: 3,
        script: "start 1\nstart 1\ndeliver 3\nflush 1 2",
        logs: &[BOOTED, BOOTED, "up\n"],
        told: "",
    },
];

#[test]
fn flushes_deliver_what_is_due(rt: HostRuntime) {
    for row in SCRIPTS {
        is_played(&rt, rt.alloc(), row, 4096);
    }
}
