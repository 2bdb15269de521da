/// Where a key is found: its row in its table, and its slot among the locks, if it has them. It is found there until the
/// table or the locks change.
#[derive(Clone, Copy, Debug)]
pub struct Places {
    pub row: Option<usize>,
    pub lock: Option<usize>,
}
