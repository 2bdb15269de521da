ghost use Rattle.std.specs.Prelude.{◌≡◌, IfOk};

use crate::text::{Text, copy_option};
use std::alloc::{AllocError, Global};

/// An event of a queue, with PgQ's fields. `ev_time` is in microseconds since 2012-01-01 00:00:00,
/// `ev_txid` is the transaction that inserted it, `ev_owner` the one subscription that it is for,
/// and `ev_retry` how often it was retried.
#[derive(Debug, Drop)]
pub struct Event {
    pub ev_id: u64,
    pub ev_time: i64,
    pub ev_txid: u64,
    pub ev_owner: Option<u64>,
    pub ev_retry: Option<u64>,
    pub ev_type: Option<Text>,
    pub ev_data: Option<Text>,
    pub ev_extra1: Option<Text>,
    pub ev_extra2: Option<Text>,
    pub ev_extra3: Option<Text>,
    pub ev_extra4: Option<Text>,
}

impl Event {
    /// An equal event.
    pub fn copy(&self, alloc: Global) -> Result<Event, AllocError>
        ensures { IfOk result (λ event. event ≡ self.now) }
    {
        Ok(Event {
            ev_id: self.ev_id,
            ev_time: self.ev_time,
            ev_txid: self.ev_txid,
            ev_owner: self.ev_owner,
            ev_retry: self.ev_retry,
            ev_type: copy_option(alloc, &self.ev_type)?,
            ev_data: copy_option(alloc, &self.ev_data)?,
            ev_extra1: copy_option(alloc, &self.ev_extra1)?,
            ev_extra2: copy_option(alloc, &self.ev_extra2)?,
            ev_extra3: copy_option(alloc, &self.ev_extra3)?,
            ev_extra4: copy_option(alloc, &self.ev_extra4)?,
        })
    }
}
