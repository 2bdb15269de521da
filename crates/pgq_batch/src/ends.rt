ghost use Rattle.std.specs.Prelude.{◌≡◌, ◌+◌, ◌*◌, ◌<◌, ◌≤◌, [], IsTrue, length, slice_index_or};
ghost use Rattle.sky_txid.specs.Snapshot.{is_snapshot};
ghost use Rattle.pgq_batch.specs.Bound.{digits};
ghost use Rattle.pgq_batch.specs.Looked.{count_below};

use pgq_tables::EventTables;
use sky_txid::Snapshot;

/// How many events of a table have a transaction below the lower bound of one snapshot, and how many below the upper
/// bound of another. In order of transactions, a batch between these lists no event before the first count or from the
/// second on.
pub(crate) fn ends_between(
    tables: &mut EventTables,
    table: usize,
    prev: &Snapshot,
    cur: &Snapshot,
) -> (usize, usize)
    requires { table < length tables.old.tables.lists }
    ensures first { result.0 ≡ count_below prev.now.xmin (slice_index_or tables.old.tables.lists table []) }
    ensures end { result.1 ≡ count_below cur.now.xmax (slice_index_or tables.old.tables.lists table []) }
    ensures sound { IsTrue (is_snapshot cur.now) }
    ensures same { tables.new.tables ≡ tables.old.tables }
    ensures upper { tables.new.reads ≤ tables.old.reads + 2 * digits (length (slice_index_or tables.old.tables.lists table [])) }
    ensures lower { tables.old.reads ≤ tables.new.reads }
{
    let first = count_below(tables, table, prev.xmin());
    let end = count_below(tables, table, cur.xmax());
    (first, end)
}

/// How many events of a table have a transaction below this one. In order of transactions, these come first.
fn count_below(tables: &mut EventTables, table: usize, txid: u64) -> usize
    requires { table < length tables.old.tables.lists }
    ensures count { result ≡ count_below txid (slice_index_or tables.old.tables.lists table []) }
    ensures same { tables.new.tables ≡ tables.old.tables }
    ensures upper { tables.new.reads ≤ tables.old.reads + digits (length (slice_index_or tables.old.tables.lists table [])) }
    ensures lower { tables.old.reads ≤ tables.new.reads }
{
    let mut low = 0;
    let mut high = tables.count(table);
    while low < high {
        let middle = low + (high - low) / 2;
        let (_, stored) = tables.by_txid(table, middle);
        if stored.txid() < txid {
            low = middle + 1;
        } else {
            high = middle;
        }
    }
    low
}
