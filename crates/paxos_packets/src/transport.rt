/// A client's connection: the node that took it, that node's boot at the time, and its number in that boot, from 1. It is new with each
/// boot.
#[derive(Clone, Copy, Debug, PartialEq, Eq, PartialOrd, Ord, Hash)]
pub struct Transport {
    /// The member that took the connection.
    pub node: u8,
    /// That member's boot when it took the connection.
    pub boot: u64,
    /// The number of the connection in that boot.
    pub number: u32,
}
