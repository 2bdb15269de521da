ghost use Rattle.std.specs.Prelude.{◌≡◌};
ghost use Rattle.pgq_tables.specs.Tables.{recorded_part};

use sky_val::{Event, Text};
use std::marker::Model;

/// The parts of an event that record a change of a row: its id and transaction, what was done, the row, and the table's
/// name. It is seen as an event at the moment 0 of which all else is missing.
#[derive(Drop)]
pub struct Recorded<'a> {
    pub ev_id: u64,
    pub ev_txid: u64,
    pub ev_type: Option<&'a Text>,
    pub ev_data: Option<&'a Text>,
    pub ev_extra1: Option<&'a Text>,
}

impl<'a> Model for Recorded<'a> {
    ghost use Rattle.std.specs.Prelude.{pos, None, option_copied};
    ghost use Rattle.sky_val.specs.declared.event.Event.{Event};

    ghost Value = { Event };

    ghost view = { λ r. record {
      ev_id = r.ev_id;
      ev_time = pos 0;
      ev_txid = r.ev_txid;
      ev_owner = None;
      ev_retry = None;
      ev_type = option_copied r.ev_type;
      ev_data = option_copied r.ev_data;
      ev_extra1 = option_copied r.ev_extra1;
      ev_extra2 = None;
      ev_extra3 = None;
      ev_extra4 = None;
    } };
}

impl Recorded<'_> {
    /// That of an event.
    pub fn of(event: &Event) -> Recorded<'_>
        ensures { result ≡ recorded_part event.now }
    {
        Recorded {
            ev_id: event.ev_id,
            ev_txid: event.ev_txid,
            ev_type: event.ev_type.as_ref(),
            ev_data: event.ev_data.as_ref(),
            ev_extra1: event.ev_extra1.as_ref(),
        }
    }
}
