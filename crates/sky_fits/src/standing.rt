/// A session's transaction block.
#[derive(Clone, Copy, Debug, PartialEq, Eq)]
pub enum Block {
    /// It is in no transaction block.
    Outside,
    /// It is in one.
    Inside,
    /// It is in one that a refusal has aborted.
    Failed,
}

/// The state of a session in a database, as far as it decides which statements are allowed.
#[derive(Clone, Copy, Debug)]
pub struct Standing {
    /// Whether it has the database open.
    pub is_open: bool,
    pub block: Block,
}
