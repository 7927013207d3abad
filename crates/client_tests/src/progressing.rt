// Rows on progressive results and on callers that are named.
use crate::calling::CANCELING;
use crate::realm::{HELLO, Row, check};

const PROGRESSIVE_RESULTS: &[Row] = &[
    (1, 3, "[64,1,{},\"p.q\"]", "1 [65,1,1];"),
    (
        2,
        21,
        HELLO,
        "2 [2,21,{\"roles\":{\"broker\":{\"features\":{\"pattern_based_subscri;",
    ),
    (
        2,
        3,
        "[48,7,{\"disclose_me\":true,\"receive_progress\":true},\"p.q\"]",
        "1 [68,1,1,{\"caller\":21,\"receive_progress\":true}];",
    ),
    (
        1,
        3,
        "[70,1,{\"progress\":true},[1]]",
        "2 [50,7,{\"progress\":true},[1]];",
    ),
    (1, 3, "[70,1,{},[2]]", "2 [50,7,{},[2]];"),
    (1, 3, "[70,1,{\"progress\":true}]", ""),
    (2, 3, "[48,8,{},\"p.q\"]", "1 [68,2,1,{}];"),
    (1, 3, "[70,2,{\"progress\":true},[1]]", ""),
    (1, 3, "[70,2,{}]", "2 [50,8,{}];"),
    (
        2,
        3,
        "[48,9,{\"disclose_me\":1},\"p.q\"]",
        "2 [8,48,9,{},\"wamp.error.invalid_argument\"];",
    ),
    (1, 3, "[64,2,{\"match\":\"prefix\"},\"x\"]", "1 [65,2,2];"),
    (
        2,
        3,
        "[48,9,{\"disclose_me\":true,\"receive_progress\":false},\"x.y\"]",
        "1 [68,3,2,{\"caller\":21,\"procedure\":\"x.y\"}];",
    ),
    (1, 3, "[70,3,{\"progress\":false}]", "2 [50,9,{}];"),
];

#[test]
fn progressive_results(rt: HostRuntime) {
    check(
        &rt,
        rt.alloc(),
        4096,
        &[Some(HELLO), None],
        PROGRESSIVE_RESULTS,
    );
}

const PROGRESSIVE_RESULTS_UNTIL_A_CALL_ENDS: &[Row] = &[
    (1, 3, "[64,1,{},\"p\"]", "1 [65,1,1];"),
    (
        2,
        3,
        "[48,7,{\"receive_progress\":true},\"p\"]",
        "1 [68,1,1,{\"receive_progress\":true}];",
    ),
    (
        1,
        3,
        "[70,1,{\"progress\":true},[1]]",
        "2 [50,7,{\"progress\":true},[1]];",
    ),
    (
        2,
        3,
        "[49,7,{\"mode\":\"kill\"}]",
        "1 [69,1,{\"mode\":\"kill\"}];",
    ),
    (
        1,
        3,
        "[70,1,{\"progress\":true},[2]]",
        "2 [50,7,{\"progress\":true},[2]];",
    ),
    (1, 3, "[70,1,{},[3]]", "2 [50,7,{},[3]];"),
    (
        2,
        3,
        "[48,8,{\"receive_progress\":true},\"p\"]",
        "1 [68,2,1,{\"receive_progress\":true}];",
    ),
    (
        2,
        3,
        "[49,8,{}]",
        "1 [69,2,{\"mode\":\"killnowait\"}];2 [8,48,8,{},\"wamp.error.canceled\"];",
    ),
    (1, 3, "[70,2,{\"progress\":true}]", ""),
    (
        2,
        3,
        "[48,9,{\"receive_progress\":true},\"p\"]",
        "1 [68,3,1,{\"receive_progress\":true}];",
    ),
    (
        1,
        3,
        "[70,3,{\"progress\":1}]",
        "2 [8,48,9,{},\"wamp.error.invalid_argument\"];",
    ),
    (1, 3, "[70,3,{\"progress\":true}]", ""),
    (
        2,
        3,
        "[48,10,{\"receive_progress\":true},\"p\"]",
        "1 [68,4,1,{\"receive_progress\":true}];",
    ),
    (
        1,
        3,
        "[70,4,{\"progress\":true}]",
        "2 [50,10,{\"progress\":true}];",
    ),
    (
        1,
        3,
        "[8,68,4,{},\"a.failure\"]",
        "2 [8,48,10,{},\"a.failure\"];",
    ),
    (
        2,
        3,
        "[48,11,{\"receive_progress\":true},\"p\"]",
        "1 [68,5,1,{\"receive_progress\":true}];",
    ),
    (2, 3, "hang up", "1 [69,5,{\"mode\":\"killnowait\"}];"),
    (1, 3, "[70,5,{\"progress\":true}]", ""),
];

#[test]
fn progressive_results_until_a_call_ends(rt: HostRuntime) {
    check(
        &rt,
        rt.alloc(),
        4096,
        &[Some(CANCELING), Some(HELLO)],
        PROGRESSIVE_RESULTS_UNTIL_A_CALL_ENDS,
    );
}
