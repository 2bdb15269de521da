use crate::event_store::EventStore;
use crate::statements::statement;
use sky_val::SessionId;
use std::alloc::Global;
use trials::{first_number, line, no_command, shown};

/// A database, whose clock is at its start.
#[derive(Drop)]
pub struct Database<D: EventStore> {
    db: D,
}

impl<D: EventStore> Database<D> {
    pub fn new(alloc: Global) -> Database<D> {
        Database { db: D::new(alloc) }
    }

    pub fn answer(&mut self, alloc: Global, command: &str, words: &str) -> anyhow::Result<String> {
        let (who, words) = first_number(words)?;
        match command {
            "step" => step(alloc, &mut self.db, who, words),
            "enter" => shown(alloc, self.db.enter(who, false)),
            "enter_outside" => shown(alloc, self.db.enter(who, true)),
            "fail" => self.fail(alloc, who),
            _ => self.answer_of_session(alloc, command, who),
        }
    }

    // What the database answers of the session.
    fn answer_of_session(
        &self,
        alloc: Global,
        command: &str,
        who: SessionId,
    ) -> anyhow::Result<String> {
        match command {
            "waits" => shown(alloc, Ok(self.db.waits(who))),
            "in_transaction" => shown(alloc, Ok(self.db.in_transaction(who))),
            _ => Err(no_command()),
        }
    }

    fn fail(&mut self, alloc: Global, who: SessionId) -> anyhow::Result<String> {
        shown(alloc, self.db.fail(who, 0))
    }
}

/// What a database answers to a statement of the session.
pub fn step<D: EventStore>(
    alloc: Global,
    db: &mut D,
    who: SessionId,
    words: &str,
) -> anyhow::Result<String> {
    let line = line(alloc, words)?;
    let stmt = statement(&line)?;
    shown(alloc, db.step(who, stmt, 0))
}
