//! The events of the batches of a set's queue, and which queue that is.

ghost use Rattle.std.specs.Prelude.{◌≡◌, true, Some, IfOk, OnOk, IfSome, is_some, option_map};
ghost use Rattle.sky_model.specs.DatabaseSteps.{ShowsEvents};
ghost use Rattle.sky_model.specs.Printed.{EventsHaveMoments};
ghost use Rattle.sky_model.specs.Reader.{shown_by};
ghost use Rattle.sky_model.specs.StepNode.{set_queue};
ghost use Rattle.pgq_queues.specs.Seen.{Stands, batch_at};
ghost use Rattle.pgq_parts.specs.Looks.{LooksFor, LooksFrom, LooksAtNoOther};
ghost use Rattle.pgq_parts.specs.Seen.{seen_database};

use crate::db::Db;
use sky_row_store::RowStore;
use sky_val::{Event, NoMemory};

impl<R: RowStore> Db<R> {
    /// The events of an active batch. Nothing changes but how many events of the batch's queue were looked at.
    pub fn batch_events(&mut self, batch: u64) -> Result<Vec<Event>, NoMemory>
        requires provider { is_some (set_queue (seen_database self.old)) ≡ true }
        requires active { is_some ((seen_database self.old).batch batch) ≡ true }
        ensures events { IfOk result (λ events. (shown_by (seen_database self.old)).events batch ≡ Some events.items) }
        ensures histories { IfOk result (λ events. ShowsEvents (seen_database self.old) batch events.items) }
        ensures same { seen_database self.new ≡ seen_database self.old }
        ensures looks { OnOk result (LooksFor self.old.queues self.new.queues batch) }
        ensures lists { IfOk result (λ events. LooksFrom self.old.queues self.new.queues events.items (batch_at self.old.queues batch)) }
        ensures others { LooksAtNoOther self.old.queues self.new.queues (batch_at self.old.queues batch) }
    {
        match self.events_of(batch)? {
            Some(events) => Ok(events),
            None => unreachable!(),
        }
    }

    /// The events of the active batch of this id, if there is one. The same holds.
    pub(crate) fn events_of(&mut self, id: u64) -> Result<Option<Vec<Event>>, NoMemory>
        ensures events { IfOk result (λ found. option_map (λ events. events.items) found ≡ (shown_by (seen_database self.old)).events id) }
        ensures moments { IfOk result (λ found. IfSome found (λ events. EventsHaveMoments events.items)) }
        ensures same { seen_database self.new ≡ seen_database self.old }
        ensures looks { OnOk result (LooksFor self.old.queues self.new.queues id) }
        ensures lists { IfOk result (λ found. IfSome found (λ events. LooksFrom self.old.queues self.new.queues events.items (batch_at self.old.queues id))) }
        ensures others { LooksAtNoOther self.old.queues self.new.queues (batch_at self.old.queues id) }
    {
        let Some(batch) = self.queues.batch(id) else {
            return Ok(None);
        };
        let span = batch.span();
        let events = self.queues.batch_events(span)?;
        Ok(Some(events))
    }

    /// The number of the set's queue.
    pub(crate) fn provided_queue(&self) -> usize
        requires { is_some (set_queue (seen_database self.now)) ≡ true }
        ensures queue { set_queue (seen_database self.now) ≡ Some result }
        ensures stands { Stands self.now.queues.queues result }
    {
        match self.set_queue() {
            Some(queue) => queue,
            None => unreachable!(),
        }
    }
}
