use sky_val::Row;

/// A row, or its deletion, as a transaction left it.
#[derive(Debug, Drop)]
pub struct Version {
    /// The transaction.
    pub txid: u64,
    /// The row; none for a deletion.
    pub row: Option<Row>,
}
