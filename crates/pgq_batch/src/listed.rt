ghost use Rattle.std.specs.Prelude.{◌≡◌};
ghost use Rattle.pgq_tables.specs.Listed.{is_for, is_listed};

use pgq_tables::Stored;
use sky_txid::Snapshot;

/// Whether a batch of a subscription lists a stored event.
pub(crate) fn is_listed(stored: &Stored, prev: &Snapshot, cur: &Snapshot, sub: u64) -> bool
    ensures { result ≡ is_listed prev.now cur.now sub stored.now }
{
    let txid = stored.txid();
    cur.sees(txid) && !prev.sees(txid) && !stored.is_dead() && is_for(sub, stored.owner())
}

fn is_for(sub: u64, owner: Option<u64>) -> bool
    ensures { result ≡ is_for sub owner }
{
    match owner {
        Some(owner) => owner == sub,
        None => true,
    }
}
