//! The checks of tests. What `assert!` and `assert_eq!` write out is proved anew at each place; what `check!` and `check_eq!` write
//! out is a call of a function of `Check`, which each crate of tests has, since no library may end the process. Besides, a reader and a
//! writer that tests see into.
#![tactic(auto)]

mod ends;

pub use ends::{Paper, Pieces, new_paper, reader_of};

/// Like `assert!`, but over a reference to what may end the process, and with a note that is one value.
#[macro_export]
macro_rules! check {
    ($rt:expr; $condition:expr $(,)?) => {
        Check::holds($rt, $condition, stringify!($condition))
    };
    ($rt:expr; $condition:expr, $note:expr $(,)?) => {
        Check::holds($rt, $condition, (stringify!($condition), $note))
    };
}

/// Like `assert_eq!`, but over values that are copied, a reference to what may end the process, and with a note that is one value.
#[macro_export]
macro_rules! check_eq {
    ($rt:expr; $found:expr, $wanted:expr $(,)?) => {
        Check::equal($rt, $found, $wanted, stringify!($found))
    };
    ($rt:expr; $found:expr, $wanted:expr, $note:expr $(,)?) => {
        Check::equal($rt, $found, $wanted, (stringify!($found), $note))
    };
}
