ghost use Rattle.std.specs.Prelude.{◌≡◌, ℕ, ◌<◌, ◌≤◌, length};
ghost use Rattle.std.specs.List.{list_any, insert};
ghost use Rattle.std.specs.Vec.{vec_len, vec_capacity};
ghost use Rattle.pgq_tables.specs.Kept.{txid_at, AreInOrder};

/// The place of an event in its table, with the transaction that inserted it.
#[derive(Clone, Copy)]
pub(crate) struct Placed {
    pub(crate) txid: u64,
    pub(crate) place: usize,
}

/// How many places are of transactions up to this one. If all are, none is searched.
pub(crate) fn count_up_to(places: &[Placed], txid: u64) -> usize
    requires { AreInOrder places.now }
    ensures within { result ≤ length places.now }
    ensures below { (j : ℕ) → j < result → txid_at places.now j ≤ txid }
    ensures above { (j : ℕ) → result ≤ j → j < length places.now → txid < txid_at places.now j }
{
    match places.last() {
        Some(last) if last.txid > txid => halve(places, txid),
        _ => places.len(),
    }
}

/// The same, by halving.
fn halve(places: &[Placed], txid: u64) -> usize
    requires { AreInOrder places.now }
    ensures within { result ≤ length places.now }
    ensures below { (j : ℕ) → j < result → txid_at places.now j ≤ txid }
    ensures above { (j : ℕ) → result ≤ j → j < length places.now → txid < txid_at places.now j }
{
    let (mut low, mut high) = (0, places.len());
    while low < high {
        let middle = low + (high - low) / 2;
        if places[middle].txid <= txid {
            low = middle + 1;
        } else {
            high = middle;
        }
    }
    low
}

/// How many places are of transactions below this one.
pub(crate) fn count_below(places: &[Placed], txid: u64) -> usize
    requires { AreInOrder places.now }
    ensures within { result ≤ length places.now }
    ensures below { (j : ℕ) → j < result → txid_at places.now j < txid }
    ensures above { (j : ℕ) → result ≤ j → j < length places.now → txid ≤ txid_at places.now j }
{
    if txid == 0 {
        return 0;
    }
    count_up_to(places, txid - 1)
}

/// Inserts a place, for which there is room. It usually comes after all others.
pub(crate) fn insert_reserved(places: &mut Vec<Placed>, at: usize, placed: Placed)
    requires at { at ≤ length places.old.items }
    requires room { vec_len places.old < vec_capacity places.old }
    ensures { places.new.items ≡ insert places.old.items at placed }
{
    if at == places.len() {
        places.push_reserved(placed);
        return;
    }
    match places.insert(at, placed) {
        Ok(()) => {}
        Err(_) => unreachable!(),
    }
}
