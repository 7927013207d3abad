// Rows of scripts that cut: what nodes keep at a floor, and whom they send it to.
use crate::script::{Row, is_played};

// Schedules over floors, worked out by hand.
const ROWS: &[Row] = &[
    // a node that was down for long
    Row {
        nodes: 3,
        script: "crash 3\nstart 1\nflush\ntake 1 1 connect\nflush\ncut 1\ncut 2\nrestart 3\ntick 3\nflush\nstart 2\n\
flush\ntick 3\nflush\n",
        logs: &[
            "up\n2 snapshot\n3 boot 2 1 took\n4 boot 3 2 took\n",
            "up\n2 snapshot\n3 boot 2 1 took\n4 boot 3 2 took\n",
            "up\n2 snapshot\n3 boot 2 1 took\n4 boot 3 2 took\n",
        ],
        told: "",
    },
    // a cut raises a leader's next slot
    Row {
        nodes: 3,
        script: "start 1\ndeliver 1\nstart 3\ndeliver 5\ndeliver 6\ntake 3 1 connect\ndeliver 8\ndeliver 12\ndeliver 9\n\
deliver 13\ndeliver 15\ndeliver 17\ndeliver 3\ncut 1\ntake 1 1 connect\nstart 2\nflush 1 2\n",
        logs: &[
            "up\n2 snapshot\n3 boot 1 1 took\n4 item 1 1 1 1 took\n5 boot 2 1 took\n",
            "up\n",
            "up\n",
        ],
        told: "",
    },
    // a cut between a start and its majority
    Row {
        nodes: 3,
        script: "start 1\ndeliver 1\ndeliver 3\ndeliver 4\nstart 1\ndeliver 8\ncut 1\ndeliver 11\ndeliver 12\n\
take 1 1 connect\nflush\n",
        logs: &[
            "up\n1 snapshot\n2 item 1 1 1 1 took\n",
            "up\n1 boot 1 1 took\n2 item 1 1 1 1 took\n",
            "up\n1 boot 1 1 took\n2 item 1 1 1 1 took\n",
        ],
        told: "",
    },
    // a node takes no snapshot in which its present boot stands
    Row {
        nodes: 3,
        script: "start 1\nflush\ntick 3\nflush\ntake 1 1 connect\nflush 1 2\ncut 1\ntick 3\ndeliver 30\ndeliver 32\n",
        logs: &[
            "up\n3 snapshot\n",
            "up\n1 boot 1 1 took\n2 boot 3 1 took\n3 item 1 1 1 1 took\n",
            "up\n1 boot 1 1 took\n2 boot 3 1 took\n",
        ],
        told: "",
    },
    // it does after a restart
    Row {
        nodes: 3,
        script: "start 1\nflush\ntick 3\nflush\ntake 1 1 connect\nflush 1 2\ncut 1\ntick 3\ndeliver 30\ndeliver 32\n\
crash 3\nrestart 3\ntick 3\ndeliver 32\n",
        logs: &[
            "up\n3 snapshot\n",
            "up\n1 boot 1 1 took\n2 boot 3 1 took\n3 item 1 1 1 1 took\n",
            "up\n3 snapshot\n",
        ],
        told: "",
    },
    // two floors in one majority
    Row {
        nodes: 5,
        script: "start 1\nflush 1 2 3\ntake 1 1 connect\nflush 1 2 3\ncut 2\ntake 1 1 connect\nflush 1 2 3\ncut 3\n\
crash 1\nstart 5\nflush 2 3 5\n",
        logs: &[
            "down\n",
            "up\n2 snapshot\n3 item 1 1 2 1 took\n4 boot 5 1 took\n",
            "up\n3 snapshot\n4 boot 5 1 took\n",
            "up\n",
            "up\n",
        ],
        told: "",
    },
    // and a node that asks takes the one that comes first
    Row {
        nodes: 5,
        script: "start 1\nflush 1 2 3\ntake 1 1 connect\nflush 1 2 3\ncut 2\ntake 1 1 connect\nflush 1 2 3\ncut 3\n\
crash 1\nstart 5\nflush 2 3 5\ntick 5\nflush 2 3 5\n",
        logs: &[
            "down\n",
            "up\n2 snapshot\n3 item 1 1 2 1 took\n4 boot 5 1 took\n",
            "up\n3 snapshot\n4 boot 5 1 took\n",
            "up\n",
            "up\n2 snapshot\n3 item 1 1 2 1 took\n4 boot 5 1 took\n",
        ],
        told: "",
    },
    // an Accept at a floor is answered by the snapshot
    Row {
        nodes: 3,
        script: "start 1\nflush 1 2\ntake 1 1 connect\nflush 1 2\ncut 2\nstart 3\ndeliver 16\ndeliver 18\ndeliver 20\n\
deliver 31\nflush\n",
        logs: &[
            "up\n1 boot 1 1 took\n2 item 1 1 1 1 took\n3 boot 3 1 took\n",
            "up\n2 snapshot\n3 boot 3 1 took\n",
            "up\n2 snapshot\n3 boot 3 1 took\n",
        ],
        told: "",
    },
    // a snapshot that is repeated, and one that others overtook
    Row {
        nodes: 3,
        script: "crash 3\nstart 1\nflush\ncut 1\ntake 1 1 connect\nflush\ncut 2\nrestart 3\ntick 3\ndeliver 16\n\
deliver 17\ndeliver 20\ndeliver 20\ndeliver 18\ndeliver 19\n",
        logs: &[
            "up\n1 snapshot\n2 item 1 1 1 1 took\n",
            "up\n2 snapshot\n",
            "up\n2 snapshot\n",
        ],
        told: "",
    },
    // its own Lost above a snapshot
    Row {
        nodes: 3,
        script: "start 1\nflush\ncut 1\ncrash 3\nrestart 3\ntick 3\ndeliver 13\nflush 1 2\nsuspect 1 3\nflush 1 2\n\
deliver 17\ndeliver 19\ndeliver 23\ndeliver 25\ndeliver 14\ndeliver 32\n",
        logs: &[
            "up\n1 snapshot\n2 boot 3 2 took\n3 lost 3 2 took\n",
            "up\n1 boot 1 1 took\n2 boot 3 2 took\n3 lost 3 2 took\n",
            "down\n",
        ],
        told: "",
    },
    // a snapshot settles a Lost that was pending
    Row {
        nodes: 3,
        script: "start 1\nflush\ntick 3\nflush\nsuspect 2 3\ncrash 3\nrestart 3\ntick 3\nflush 1 3\ncut 1\ntick 2\n\
deliver 37\ndeliver 39\ntick 2\ndeliver 40\ndeliver 43\ndeliver 45\ndeliver 47\n",
        logs: &[
            "up\n3 snapshot\n4 boot 2 1 took\n",
            "up\n3 snapshot\n4 boot 2 1 took\n",
            "up\n1 boot 1 1 took\n2 boot 3 1 took\n3 boot 3 2 took\n",
        ],
        told: "",
    },
    // a restart at the floor
    Row {
        nodes: 3,
        script: "start 1\nflush\ncut 2\ncrash 2\ntake 1 1 connect\nrestart 2\nflush\n",
        logs: &[
            "up\n1 boot 1 1 took\n2 item 1 1 1 1 took\n",
            "up\n1 snapshot\n2 item 1 1 1 1 took\n",
            "up\n1 boot 1 1 took\n2 item 1 1 1 1 took\n",
        ],
        told: "",
    },
    // a leader takes a snapshot
    Row {
        nodes: 3,
        script: "start 3\ndeliver 1\ndeliver 3\nstart 1\ndeliver 8\ndeliver 10\ntake 1 1 connect\nflush 1 2\ncut 1\n\
tick 3\ndeliver 25\ndeliver 27\ntake 3 1 connect\ncrash 1\nstart 2\nflush 2 3\n",
        logs: &[
            "down\n",
            "up\n1 boot 1 1 took\n2 item 1 1 1 1 took\n3 boot 3 1 took\n4 item 3 1 1 1 took\n5 boot 2 1 took\n",
            "up\n2 snapshot\n3 boot 3 1 took\n4 item 3 1 1 1 took\n5 boot 2 1 took\n",
        ],
        told: "",
    },
    // the vote above a cut stays
    Row {
        nodes: 3,
        script: "start 1\nflush\ntake 1 1 connect\ndeliver 13\ncut 2\ncrash 1\nstart 3\nflush 2 3\n",
        logs: &[
            "down\n",
            "up\n1 snapshot\n2 item 1 1 1 1 took\n3 boot 3 1 took\n",
            "up\n1 boot 1 1 took\n2 item 1 1 1 1 took\n3 boot 3 1 took\n",
        ],
        told: "",
    },
    // a snapshot that is lost
    Row {
        nodes: 3,
        script: "crash 3\nstart 1\nflush\ntake 1 1 connect\nflush\ncut 1\ncut 2\nrestart 3\ntick 3\ndeliver 16\ncrash 3\n\
deliver 18\nrestart 3\ntick 3\nflush\nstart 1\nflush\ntick 3\nflush\n",
        logs: &[
            "up\n2 snapshot\n3 boot 3 3 took\n",
            "up\n2 snapshot\n3 boot 3 3 took\n",
            "up\n2 snapshot\n3 boot 3 3 took\n",
        ],
        told: "",
    },
    // a learned entry above a floor waits for the snapshot
    Row {
        nodes: 3,
        script: "crash 3\nstart 1\nflush\ntake 1 1 connect\nflush\ncut 1\nrestart 3\ntake 1 1 hung\nflush\ntick 3\n\
deliver 25\ndeliver 27\n",
        logs: &[
            "up\n2 snapshot\n3 item 1 1 2 1 took\n",
            "up\n1 boot 1 1 took\n2 item 1 1 1 1 took\n3 item 1 1 2 1 took\n",
            "up\n2 snapshot\n3 item 1 1 2 1 took\n",
        ],
        told: "",
    },
    // seven nodes with three floors
    Row {
        nodes: 7,
        script: "start 1\nflush 1 2 3 4\ntake 1 1 connect\nflush 1 2 3 4\ncut 2\ntake 1 1 hung\nflush 1 2 3 4\ncut 3\n\
take 1 2 connect\nflush 1 2 3 4\ncut 4\ncrash 1\nstart 5\nflush 2 3 4 5\n",
        logs: &[
            "down\n",
            "up\n2 snapshot\n3 item 1 1 2 1 took\n4 item 1 1 3 2 took\n5 boot 5 1 took\n",
            "up\n3 snapshot\n4 item 1 1 3 2 took\n5 boot 5 1 took\n",
            "up\n4 snapshot\n5 boot 5 1 took\n",
            "up\n",
            "up\n",
            "up\n",
        ],
        told: "",
    },
    // and a node that asks there
    Row {
        nodes: 7,
        script: "start 1\nflush 1 2 3 4\ntake 1 1 connect\nflush 1 2 3 4\ncut 2\ntake 1 1 hung\nflush 1 2 3 4\ncut 3\n\
take 1 2 connect\nflush 1 2 3 4\ncut 4\ncrash 1\nstart 5\nflush 2 3 4 5\ntick 5\nflush 2 3 4 5\n",
        logs: &[
            "down\n",
            "up\n2 snapshot\n3 item 1 1 2 1 took\n4 item 1 1 3 2 took\n5 boot 5 1 took\n",
            "up\n3 snapshot\n4 item 1 1 3 2 took\n5 boot 5 1 took\n",
            "up\n4 snapshot\n5 boot 5 1 took\n",
            "up\n2 snapshot\n3 item 1 1 2 1 took\n4 item 1 1 3 2 took\n5 boot 5 1 took\n",
            "up\n",
            "up\n",
        ],
        told: "",
    },
    // a cut of a node that is preparing
    Row {
        nodes: 3,
        script: "start 1\nflush\ntake 1 1 connect\nflush\nstart 2\ncut 2\ntick 2\nflush\n",
        logs: &[
            "up\n1 boot 1 1 took\n2 item 1 1 1 1 took\n3 boot 2 1 took\n",
            "up\n2 snapshot\n3 boot 2 1 took\n",
            "up\n1 boot 1 1 took\n2 item 1 1 1 1 took\n3 boot 2 1 took\n",
        ],
        told: "",
    },
    // a cut and a crash at each node in turn
    Row {
        nodes: 3,
        script: "start 1\nflush\ntake 1 1 connect\nflush\ncut 1\ncrash 1\nrestart 1\ncut 2\ncrash 2\nrestart 2\ncut 3\n\
crash 3\nrestart 3\nstart 1\nflush\ntick 2\ntick 3\nflush\n",
        logs: &[
            "up\n2 snapshot\n3 boot 1 2 took\n4 boot 2 2 took\n5 boot 3 2 took\n",
            "up\n2 snapshot\n3 boot 1 2 took\n4 boot 2 2 took\n5 boot 3 2 took\n",
            "up\n2 snapshot\n3 boot 1 2 took\n4 boot 2 2 took\n5 boot 3 2 took\n",
        ],
        told: "",
    },
    // a realm speaks across a cut
    Row {
        nodes: 3,
        script: "crash 3\nstart 1\nflush\ntake 1 1 connect\ntake 1 1 say [1,\"realm1\",{}]\n\
take 1 1 say [32,1,{},\"a.b\"]\nflush\ncut 1\ncut 2\nrestart 3\ntick 3\nflush\nstart 2\nflush\ntick 3\n\
flush\ntake 3 1 connect\ntake 3 1 say [1,\"realm1\",{}]\nflush\ntake 3 1 say [16,1,{},\"a.b\",[7]]\n\
flush\n",
        logs: &[
            "up\n4 snapshot\n5 boot 2 1 took\n6 boot 3 2 took\n7 item 3 2 1 1 took\n8 item 3 2 2 1 took\n\
9 item 3 2 3 1 took\n",
            "up\n4 snapshot\n5 boot 2 1 took\n6 boot 3 2 took\n7 item 3 2 1 1 took\n8 item 3 2 2 1 took\n\
9 item 3 2 3 1 took\n",
            "up\n4 snapshot\n5 boot 2 1 took\n6 boot 3 2 took\n7 item 3 2 1 1 took\n8 item 3 2 2 1 took\n\
9 item 3 2 3 1 took\n",
        ],
        told: "to 1 1 1 [2,1,W]\nto 1 1 1 [33,1,1]\nto 1 1 1 [36,1,4,{},[7]]\nto 3 2 1 [2,3,W]\n",
    },
];

#[test]
fn plays_scripts_that_cut(rt: HostRuntime) {
    for row in ROWS {
        is_played(&rt, rt.alloc(), row, 9);
    }
}
