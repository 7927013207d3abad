//! The size of a table.

/// How large a table is: the number of its nodes, and how many packets a box holds at most.
#[derive(Drop)]
pub struct Size {
    pub nodes: u64,
    pub most: u64,
}
