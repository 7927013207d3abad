// The state of a client after a step.
#[derive(Clone, Copy, Debug, PartialEq, Eq)]
pub(crate) enum Progress {
    // The transport stays open.
    Onward,
    // Nothing is to be done before more is read.
    Waiting,
    // The transport is closed.
    Closed,
}
