//! The keys that one transaction wrote, in the order of its writes. They are read only to roll it back. Adding a key
//! takes no search, and none is looked up here.

ghost use Rattle.std.specs.Prelude.{◌≡◌, ◌≤◌, ◌<◌, ◌&&◌, ◌||◌, ◌==◌, not, ℕ, true, false, None, Some, List, OnOk, IfNone, IfSome};
ghost use Rattle.std.specs.List.{list_any};
ghost use Rattle.std.specs.BTreeMap.{is_at};
ghost use Rattle.sky_val.specs.Order.{key_cmp};
ghost use Rattle.sky_val.specs.declared.val.Val.{Val};
ghost use Rattle.sky_rows.specs.Written.{wrote, logged};

use crate::written::Written;
use sky_val::{Key, NoMemory};
use std::alloc::Global;

/// The keys that a transaction wrote.
#[derive(Debug, Drop)]
pub(crate) struct Log {
    txid: u64,
    pub(crate) keys: Vec<Key>,
}

/// Logs the key among those that the transaction wrote, if it has the log.
pub(crate) fn log_own(
    log: &mut Option<Log>,
    alloc: Global,
    txid: u64,
    key: &Key,
) -> Result<(), NoMemory>
    ensures logged { OnOk result (logged log.new txid key.now ≡ true) }
    ensures kept { (t : ℕ) (q : List Val) → logged log.new t q ≡ false → logged log.old t q ≡ false }
{
    match log {
        Some(log) if log.txid == txid => {
            let key = key.copy(alloc)?;
            log.keys.push(key)?;
        }
        _ => {}
    }
    Ok(())
}

/// Indexes the key among those that the transaction wrote, or logs it, if the transaction has the log or can have it.
pub(crate) fn index_or_log(
    written: &mut Written,
    log: &mut Option<Log>,
    alloc: Global,
    txid: u64,
    key: Key,
) -> Result<(), NoMemory>
    ensures indexed { OnOk result (wrote written.new txid key ≡ true) }
    ensures logged { OnOk result (logged log.new txid key ≡ true) }
    ensures kept { (t : ℕ) (q : List Val) → wrote written.new t q ≡ false → wrote written.old t q ≡ false }
    ensures kept_log { (t : ℕ) (q : List Val) → logged log.new t q ≡ false → (wrote written.old t q && logged log.old t q) ≡ false }
{
    if written.unindex(txid) {
        return begin(log, alloc, txid, key);
    }
    written.add(alloc, txid, &key)?;
    match log {
        Some(log) if log.txid == txid => log.keys.push(key)?,
        _ => {}
    }
    Ok(())
}

/// The log of a transaction that has written this key.
fn begin(log: &mut Option<Log>, alloc: Global, txid: u64, key: Key) -> Result<(), NoMemory>
    ensures logged { OnOk result (logged log.new txid key ≡ true) }
    ensures others { (t : ℕ) (q : List Val) → (t == txid) ≡ false → logged log.new t q ≡ false → logged log.old t q ≡ false }
{
    let mut keys = Vec::new(alloc);
    keys.push(key)?;
    *log = Some(Log { txid, keys });
    Ok(())
}

/// Drops the log, if its transaction is below this one.
pub(crate) fn drop_below(log: &mut Option<Log>, below: u64)
    ensures kept { (t : ℕ) (q : List Val) → logged log.new t q ≡ false → logged log.old t q ≡ false }
    ensures dropped { (t : ℕ) (q : List Val) → t < below → logged log.new t q ≡ true }
    ensures others { (t : ℕ) (q : List Val) → below ≤ t → logged log.new t q ≡ logged log.old t q }
{
    let is_below = match log {
        Some(log) => log.txid < below,
        None => false,
    };
    if is_below {
        *log = None;
    }
}

/// Takes the keys that the transaction wrote out of the log, if it has the log.
pub(crate) fn take_logged(log: &mut Option<Log>, txid: u64) -> Option<Vec<Key>>
    ensures taken { IfSome result (λ keys. (t : ℕ) (q : List Val) → logged log.old t q ≡ (not (t == txid) || list_any (is_at (key_cmp q)) keys.items)) }
    ensures gone { IfSome result (λ _. log.new ≡ None) }
    ensures none { IfNone result (log.new ≡ log.old) }
{
    match log.take() {
        Some(found) if found.txid == txid => Some(found.keys),
        other => {
            *log = other;
            None
        }
    }
}
