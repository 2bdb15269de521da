//! The statement that makes a trigger.

ghost use Rattle.std.specs.Prelude.{Ok};
ghost use Rattle.sky_model.specs.declared.reply.Reply.TheVariants.{Done};
ghost use Rattle.sky_model.specs.StepTrigger.{add_trigger};
ghost use Rattle.pgq_parts.specs.Seen.{seen_database};
ghost use Rattle.pgq_parts.specs.Gives.{Ran};

use crate::db::Db;
use pgq_parts::new_trigger;
use sky_model::{AddedTrigger, Replies, Reply, Stop};
use sky_row_store::RowStore;
use sky_val::SessionId;

impl<R: RowStore> Db<R> {
    /// `add_trigger NAME TABLE NAME`: from now on events of the queue record the table's writes.
    pub(crate) fn add_trigger(
        &mut self,
        who: SessionId,
        asked: &AddedTrigger,
        replies: &mut Replies,
    ) -> Result<(), Stop>
        ensures { Ran self.old self.new replies.old replies.new who result (add_trigger (seen_database self.old) asked.now) }
    {
        let (trigger, schema) = new_trigger(
            self.alloc,
            &self.rows,
            &self.queues,
            &self.node,
            asked,
        )?;
        self.queues.trace(&asked.table, schema, trigger)?;
        replies.push(who, Reply::Done)?;
        Ok(())
    }
}
