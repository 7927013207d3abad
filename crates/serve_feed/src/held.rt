// Why a node holds its clients' acts back.

/// Why a node holds its clients' acts back.
#[derive(Clone, Copy, Debug, PartialEq, Eq)]
pub enum Held {
    /// Another node falls behind, or catches up.
    Peer,
    /// As many acts are under way as may be, or as many were given as a round may have.
    UnderWay,
}
