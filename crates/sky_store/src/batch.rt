//! What a provider hands to a leaf's worker.

/// A batch of a leaf's consumer.
#[derive(Clone, Copy, Debug, PartialEq, Eq)]
pub struct NodeBatch {
    /// Its id.
    pub id: u64,
    /// The id of its opening tick.
    pub prev: u64,
    /// The id of its closing tick.
    pub cur: u64,
}
