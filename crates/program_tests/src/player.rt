// Scripts that are played, and the text of the world after them: a crate that owns a world proves the drop of each type in it.
use crate::script::{Row, is_played};

// Scripts in a cluster of three nodes, and the nodes with their logs after them, worked out by hand.
const SCRIPTS: &[Row] = &[
    Row {
        nodes: 3,
        script: "",
        logs: &["up\n", "up\n", "up\n"],
        told: "",
    },
    // one session through three nodes
    Row {
        nodes: 3,
        script: "start 1\nflush\ntake 2 1 connect\ntake 2 1 say [1,\"realm1\",{}]\nflush",
        logs: &[
            "up\n1 boot 1 1 took\n2 boot 2 1 took\n3 item 2 1 1 1 took\n4 item 2 1 2 1 took\n",
            "up\n1 boot 1 1 took\n2 boot 2 1 took\n3 item 2 1 1 1 took\n4 item 2 1 2 1 took\n",
            "up\n1 boot 1 1 took\n2 boot 2 1 took\n3 item 2 1 1 1 took\n4 item 2 1 2 1 took\n",
        ],
        told: "to 2 1 1 [2,1,W]\n",
    },
    // a leader crashes after one other has voted; another one leads
    Row {
        nodes: 3,
        script: "start 1\ndeliver 1\ndeliver 3\ndeliver 5\ncrash 1\nstart 2\ndeliver 11\ndeliver 12\nflush 2 3",
        logs: &[
            "down\n",
            "up\n1 boot 1 1 took\n2 boot 2 1 took\n",
            "up\n1 boot 1 1 took\n2 boot 2 1 took\n",
        ],
        told: "",
    },
    // a packet that was not sent is not delivered; what went to a node that was down counts as delivered
    Row {
        nodes: 3,
        script: "start 1\nflush 1 2\ndeliver 99\ncrash 3\nflush\nrestart 3\nflush",
        logs: &["up\n1 boot 1 1 took\n", "up\n1 boot 1 1 took\n", "up\n"],
        told: "",
    },
];

#[test]
fn scripts_are_played(rt: HostRuntime) {
    for row in SCRIPTS {
        is_played(&rt, rt.alloc(), row, 4096);
    }
}
