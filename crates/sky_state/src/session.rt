use sky_fits::Block;
use sky_txid::Snapshot;

/// Which snapshot a session's statements read by.
#[derive(Debug)]
pub enum Sight {
    /// Each by the one at its start.
    AtEach,
    /// All by the one at the start of the first, which hasn't been made yet.
    AtFirst,
    /// By this one.
    AtPlace(Snapshot),
}

impl Drop for Sight {
    fn drop(self) {
        match self {
            Sight::AtEach => {}
            Sight::AtFirst => {}
            Sight::AtPlace(_) => {}
        }
    }
}

/// A session, as its statements left it.
#[derive(Debug, Drop)]
pub struct Session {
    /// Whether it has the database open.
    pub is_open: bool,
    pub block: Block,
    /// The id of its running transaction, if it has one.
    pub txid: Option<u64>,
    pub sight: Sight,
}
