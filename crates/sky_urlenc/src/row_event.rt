use sky_val::Text;
use std::marker::Model;

/// An event that records a write, but for its id, its time and its transaction.
#[derive(Debug, Drop)]
pub struct RowEvent {
    /// The number of its queue.
    pub queue: usize,
    pub ev_type: Text,
    pub ev_data: Option<Text>,
    pub ev_extra1: Text,
    pub ev_extra2: Option<Text>,
}

impl Model for RowEvent {
    ghost use Rattle.sky_urlenc.specs.RowEvents as events;

    ghost Value = { events.RowEvent };

    ghost view = { λ e. record {
      queue = e.queue;
      ev_type = e.ev_type;
      ev_data = e.ev_data;
      ev_extra1 = e.ev_extra1;
      ev_extra2 = e.ev_extra2;
    } };
}
