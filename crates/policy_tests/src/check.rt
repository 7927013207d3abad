// The functions that `check!` and `check_eq!` call: each ends the process where a check fails.
use std::fmt::Debug;
use std::process::Abort;

// Has what the checks of tests call.
pub struct Check;

impl Check {
    // Ends the process unless the condition holds; `what` is shown with it.
    pub fn holds<R: Abort, W: Copy + Debug>(rt: &R, condition: bool, what: W) {
        assert!(rt; condition, "does not hold: {what:?}");
    }

    // Ends the process unless both are equal, and shows them; `what` is shown with them.
    pub fn equal<R: Abort, T: Copy + Debug + PartialEq, W: Copy + Debug>(
        rt: &R,
        found: T,
        wanted: T,
        what: W,
    ) {
        Check::holds(
            rt,
            found == wanted,
            (what, "found", found, "wanted", wanted),
        );
    }
}
