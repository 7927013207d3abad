/// What a run asks before each turn or round. It is the only place where a run may wait.
pub trait Gate {
    /// Returns whether `node` may take its next turn or round, after `turn` of them; `false` ends the run.
    fn pass(&self, node: u8, turn: u64) -> bool;
}
