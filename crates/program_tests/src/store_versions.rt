// Stores of version 1, as earlier programs wrote them: they open with the same rows, in version 2. What is left alone, and what is refused.
use crate::check::Check;
use crate::sql::{Ask, Row, in_memory, life};
use sqlite::{Alter, Connection};
use std::alloc::Global;
use std::process::Abort;
use test_checks::check_eq;

// The tables of version 1.
const TABLES: &str =
    "CREATE TABLE meta (k INTEGER PRIMARY KEY, version INTEGER NOT NULL, boot INTEGER NOT NULL, round INTEGER NOT NULL, node INTEGER NOT NULL) STRICT; CREATE TABLE vote (slot INTEGER PRIMARY KEY, round INTEGER NOT NULL, node INTEGER NOT NULL, entry BLOB NOT NULL) STRICT";

// A text that is run over these tables, what the store over them is asked for then, and what the tables show after that: the number that
// each query gives.
struct Case<'a> {
    text: &'a str,
    rows: &'a [Row<'a>],
    shown: &'a [(&'a str, i64)],
}

fn shown<S: Alter>(rt: &impl Abort, conn: &mut Connection<S>, query: &str) -> i64 {
    let row = conn.query_row(query, &[]).expect(rt, "a row");
    row.get(0).expect(rt, "a number")
}

fn are_shown<S: Alter>(rt: &impl Abort, conn: &mut Connection<S>, numbers: &[(&str, i64)]) {
    for (query, number) in numbers {
        let found = shown(rt, conn, query);
        check_eq!(rt; found, *number, *query);
    }
}

fn filled<S: Alter>(rt: &impl Abort, conn: Connection<S>, text: &str) -> Connection<S> {
    let mut conn = conn;
    conn.execute_batch(TABLES).expect(rt, "the tables");
    conn.execute_batch(text).expect(rt, "a text that runs");
    conn
}

fn lives<S: Alter + Drop>(rt: &impl Abort, alloc: Global, conn: Connection<S>, case: &Case<'_>) {
    let conn = filled(rt, conn, case.text);
    let mut conn = life(rt, alloc, conn, case.rows);
    are_shown(rt, &mut conn, case.shown);
    drop(conn);
}

const VERSION: &str = "SELECT version FROM meta";

const VOTES: &str = "SELECT count(*) FROM vote";

const CASES: &[Case<'static>] = &[
    // Opening is enough.
    Case {
        text: "INSERT INTO meta VALUES (1, 1, 3, 2, 1); INSERT INTO vote VALUES (1, 1, 1, X'00'), (2, 2, 1, X'00')",
        rows: &[],
        shown: &[
            (VERSION, 2),
            ("SELECT k FROM meta", 1),
            ("SELECT boot FROM meta", 3),
            ("SELECT round FROM meta", 2),
            ("SELECT node FROM meta", 1),
            (VOTES, 2),
            ("SELECT count(*) FROM snapshot", 1),
            ("SELECT k FROM snapshot", 1),
            ("SELECT floor FROM snapshot", 0),
            ("SELECT length(bytes) FROM snapshot", 0),
        ],
    },
    // It goes on from its rows.
    Case {
        text: "INSERT INTO meta VALUES (1, 1, 3, 2, 1); INSERT INTO vote VALUES (1, 1, 1, X'00'), (2, 2, 1, X'00')",
        rows: &[
            (Ask::Load, (0, 3, 2, [1, 2, 0])),
            (Ask::Floor, (0, 0, 0, [0, 0, 0])),
            (Ask::Boot, (0, 4, 2, [1, 2, 0])),
            (Ask::Commit(3, 8, &[3]), (0, 0, 0, [0, 0, 0])),
            (Ask::Cut(1), (0, 0, 0, [0, 0, 0])),
            (Ask::Load, (0, 4, 3, [0, 2, 3])),
            (Ask::Commit(2, 8, &[4]), (62, 0, 0, [0, 0, 0])),
        ],
        shown: &[(VERSION, 2), (VOTES, 2)],
    },
    // A node that was never started.
    Case {
        text: "INSERT INTO meta VALUES (1, 1, 0, 0, 0)",
        rows: &[(Ask::Load, (0, 0, 0, [0, 0, 0]))],
        shown: &[(VERSION, 2), (VOTES, 0)],
    },
    // No vote is judged as the tables are changed.
    Case {
        text: "INSERT INTO meta VALUES (1, 1, 3, 2, 1); INSERT INTO vote VALUES (1, 3, 1, X'00')",
        rows: &[(Ask::Load, (62, 0, 0, [0, 0, 0]))],
        shown: &[(VERSION, 2), (VOTES, 1)],
    },
    // Other versions.
    Case {
        text: "INSERT INTO meta VALUES (1, 3, 3, 2, 1)",
        rows: &[(Ask::Load, (63, 0, 0, [0, 0, 0]))],
        shown: &[(VERSION, 3)],
    },
    Case {
        text: "INSERT INTO meta VALUES (1, 0, 3, 9, 9); INSERT INTO vote VALUES (0, 9, 9, X'09')",
        rows: &[(Ask::Boot, (63, 0, 0, [0, 0, 0]))],
        shown: &[(VERSION, 0)],
    },
    // Damages, which are left as they are.
    Case {
        text: "INSERT INTO meta VALUES (1, 2, 3, 2, 1)",
        rows: &[(Ask::Load, (62, 0, 0, [0, 0, 0]))],
        shown: &[(VERSION, 2)],
    },
    Case {
        text: "INSERT INTO meta VALUES (1, 1, 281474976710656, 2, 1)",
        rows: &[(Ask::Load, (62, 0, 0, [0, 0, 0]))],
        shown: &[(VERSION, 1)],
    },
    Case {
        text: "INSERT INTO meta VALUES (1, 1, 3, 0, 1)",
        rows: &[(Ask::Load, (62, 0, 0, [0, 0, 0]))],
        shown: &[(VERSION, 1)],
    },
    Case {
        text: "INSERT INTO meta VALUES (2, 1, 3, 2, 1)",
        rows: &[(Ask::Load, (62, 0, 0, [0, 0, 0]))],
        shown: &[(VERSION, 1)],
    },
    Case {
        text: "INSERT INTO meta VALUES (1, 1, 3, 2, 1), (2, 1, 3, 2, 1)",
        rows: &[(Ask::Load, (62, 0, 0, [0, 0, 0]))],
        shown: &[("SELECT count(*) FROM meta", 2)],
    },
    Case {
        text: "DELETE FROM meta",
        rows: &[(Ask::Boot, (62, 0, 0, [0, 0, 0]))],
        shown: &[("SELECT count(*) FROM meta", 0)],
    },
];

#[test]
fn version_one(rt: HostRuntime) {
    for case in CASES {
        lives(&rt, rt.alloc(), in_memory(&rt, rt.alloc()), case);
    }
}
