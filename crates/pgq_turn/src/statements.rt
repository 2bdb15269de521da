//! What a turn needs of a database.

ghost use Rattle.std.specs.Prelude.{◌≡◌, None, IfOk, OnOk, OnErr};
ghost use Rattle.sky_model.specs.InForm.{IsRowInForm, IsQueueInForm};
ghost use Rattle.sky_model.specs.Moment.{IsTime};
ghost use Rattle.sky_model.specs.Outcome.{reply_of};
ghost use Rattle.sky_model.specs.State.{after_marks};
ghost use Rattle.sky_model.specs.Printed.{HaveMoments};
ghost use Rattle.sky_model.specs.Reader.{shown_by, database_by_itself, within_part};
ghost use Rattle.sky_model.specs.declared.stmt.DbStmt.TheVariants.{Row, Queue};
ghost use Rattle.sky_model.specs.Settling.{ready, settling};
ghost use Rattle.sky_model.specs.Calls.{form, database_turn};
ghost use Rattle.sky_model.specs.SessionMarks.{Enters, entry, entry_place, failing};
ghost use Rattle.sky_model.specs.DatabaseCalls.{entered};
ghost use Rattle.sky_model.specs.DatabaseSteps.{DatabaseSteps};
ghost use Rattle.pgq_parts.specs.Gives.{Adds, Ran};
ghost use Rattle.pgq_parts.specs.Looks.{RanWithin, ListsLooked, ReadsNone};
ghost use Rattle.pgq_parts.specs.Seen.{seen_database};
ghost use Rattle.pgq_parts.specs.Views.{DbView};

use sky_model::{QueueStmt, Refusal, Replies, RowStmt, Stop};
use sky_val::{NoMemory, SessionId};

/// A database, as a turn uses it. Once memory has run out in a call whose contract says nothing of that, nothing is
/// said of it.
pub trait Statements {
    // What contracts see of it.
    ghost view: { Self → DbView };

    /// Lets the session make a statement that isn't on rows, or refuses it. One that is allowed only `outside` blocks
    /// reads nothing; any other takes the sight of a repeatable read block, if it isn't taken yet.
    fn enter(&mut self, who: SessionId, outside: bool) -> Result<Option<Refusal>, NoMemory>
        ensures enters { IfOk result (λ refusal. Enters (seen_database (view self.old)).part (seen_database (view self.new)).part who (entry_place outside) refusal) }
        ensures but { seen_database (view self.new) ≡ record (seen_database (view self.old)) { part = (seen_database (view self.new)).part } }
        ensures queues { OnOk result ((view self.new).queues ≡ (view self.old).queues) }
        ensures err { OnErr result (seen_database (view self.new) ≡ seen_database (view self.old)) }
        ensures steps { OnOk result (DatabaseSteps (seen_database (view self.old)) (seen_database (view self.new)) (entered who outside)
            (entry (seen_database (view self.old)).part who (entry_place outside))) };

    /// Runs a statement on queues, which its session may make. A refusal is handed back and isn't among the answers.
    fn run_form(
        &mut self,
        now: i64,
        who: SessionId,
        stmt: &QueueStmt,
        replies: &mut Replies,
    ) -> Result<(), Stop>
        requires time { IsTime now }
        requires form { IsQueueInForm stmt.now }
        ensures ran { Ran (view self.old) (view self.new) replies.old replies.new who result (form (seen_database (view self.old)) (shown_by (seen_database (view self.old))) now who (Queue stmt.now)) }
        ensures looks { RanWithin (view self.old).queues (view self.new).queues (Queue stmt.now) result }
        ensures lists { OnOk result (ListsLooked (view self.old).queues (view self.new).queues (Queue stmt.now) (reply_of (form (seen_database (view self.old)) (shown_by (seen_database (view self.old))) now who (Queue stmt.now)))) };

    /// Rolls back the block that the session is in, which stays aborted. What this unblocks isn't run yet.
    fn roll_back(&mut self, who: SessionId) -> Result<(), NoMemory>
        ensures marks { OnOk result (seen_database (view self.new) ≡ after_marks (seen_database (view self.old)) (failing (seen_database (view self.old)).part who).marks) }
        ensures reads { OnOk result (ReadsNone (view self.old).queues (view self.new).queues) };

    /// Runs a statement on rows, and those that it unblocks. Events record their writes.
    fn step_rows(
        &mut self,
        now: i64,
        who: SessionId,
        stmt: &RowStmt,
        replies: &mut Replies,
    ) -> Result<(), NoMemory>
        requires time { IsTime now }
        requires form { IsRowInForm stmt.now }
        ensures adds { OnOk result (Adds (seen_database (view self.old)) (seen_database (view self.new)) replies.old replies.new
            (database_turn database_by_itself (seen_database (view self.old)) now who (Row stmt.now))) }
        ensures rests { OnOk result (ready (seen_database (view self.new)).part ≡ None) }
        ensures moments { OnOk result (HaveMoments (database_turn database_by_itself (seen_database (view self.old)) now who (Row stmt.now)).answers) };

    /// Runs the statements that may resume. Events record their writes.
    fn settle(&mut self, now: i64, replies: &mut Replies) -> Result<(), NoMemory>
        requires { IsTime now }
        ensures adds { OnOk result (Adds (seen_database (view self.old)) (seen_database (view self.new)) replies.old replies.new (settling (within_part database_by_itself now) (seen_database (view self.old)))) }
        ensures rests { OnOk result (ready (seen_database (view self.new)).part ≡ None) }
        ensures moments { OnOk result (HaveMoments (settling (within_part database_by_itself now) (seen_database (view self.old))).answers) }
        ensures reads { OnOk result (ReadsNone (view self.old).queues (view self.new).queues) };
}
