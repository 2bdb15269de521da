use anyhow::bail;
use sky_model::{Line, Replies, Reply};
use sky_script::parse_line;
use sky_store::Store;
use sky_val::{Event, Text};
use sky_world::World;
use std::alloc::Global;

/// A world with a queue of letters, over databases of any type.
#[derive(Drop)]
pub struct Post<D: Store> {
    alloc: Global,
    world: World<D>,
}

impl<D: Store> Post<D> {
    pub fn new(alloc: Global) -> Post<D> {
        Post {
            alloc,
            world: World::new(alloc),
        }
    }

    /// Runs a statement, which is written as in a script, with the name of its session in front. The answers are its
    /// own and those of the statements that resume.
    pub fn run(&mut self, line: &str) -> anyhow::Result<Replies> {
        // What is parsed is in form, as `World::step` requires. A program may make a `Stmt` itself, too.
        match &parse_line(self.alloc, line.as_bytes())? {
            Line::Run(session, stmt) => Ok(self.world.step(session, stmt)?),
            Line::Blank => bail!("no statement"),
        }
    }

    /// The id of the worker's next batch, if there is one.
    pub fn next_batch(&mut self) -> anyhow::Result<Option<u64>> {
        let replies = self.run("w: next_batch letters worker")?;
        match replies.as_slice().first() {
            Some((_, Reply::Number(batch))) => Ok(Some(*batch)),
            Some((_, Reply::Null)) => Ok(None),
            _ => bail!("refused"),
        }
    }

    /// Sends the letters of a batch, and asks for a retry of each that can't be sent.
    pub fn send(&mut self, rt: &(impl Print + AllocGlobal), batch: u64) -> anyhow::Result<()> {
        let replies = self.run_on(batch, "get_batch_events")?;
        if let Some((_, Reply::Events(events))) = replies.as_slice().first() {
            self.send_each(rt, batch, events.as_slice())?;
        }
        self.run_on(batch, "finish_batch")?;
        Ok(())
    }

    // Runs a statement of the worker on a batch.
    fn run_on(&mut self, batch: u64, statement: &str) -> anyhow::Result<Replies> {
        let line = format!(in self.alloc; "w: {statement} {batch}")?;
        self.run(line.as_str())
    }

    fn send_each(
        &mut self,
        rt: &(impl Print + AllocGlobal),
        batch: u64,
        events: &[Event],
    ) -> anyhow::Result<()> {
        for event in events {
            let letter = event.ev_data.as_ref().map_or("", Text::as_str);
            if is_sent(event) {
                println!(rt; "{letter} is sent")?;
            } else {
                println!(rt; "{letter} is retried")?;
                self.retry(batch, event.ev_id)?;
            }
        }
        Ok(())
    }

    fn retry(&mut self, batch: u64, event: u64) -> anyhow::Result<()> {
        let line = format!(in self.alloc; "w: event_retry {batch} {event} 30")?;
        self.run(line.as_str())?;
        Ok(())
    }
}

// The second letter can't be sent before its retry.
fn is_sent(event: &Event) -> bool {
    event.ev_id != 2 || event.ev_retry.is_some()
}
