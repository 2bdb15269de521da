ghost use Rattle.std.specs.Prelude.{◌≡◌, true, IfOk, IfSome, OnOk, is_some};
ghost use Rattle.sky_model.specs.StepNode.{set_queue};

use crate::event_store::EventStore;
use anyhow::bail;
use londiste_calls::JoinFault;
use pgq_db::{NodeBatch, Store};
use sky_val::{Event, Text};
use std::alloc::Global;
use trials::{no_command, ok, shown};

/// What a root's database answers of a consumer.
pub fn answer<D: EventStore>(
    alloc: Global,
    db: &mut D,
    command: &str,
    consumer: &Text,
) -> anyhow::Result<String> {
    check_provider(db)?;
    match command {
        "join" => shown(alloc, Ok(db.join(consumer))),
        "full" => shown(alloc, Ok(db.is_full(consumer))),
        "part" => {
            db.part(consumer);
            ok(alloc)
        }
        "fetch" => shown(alloc, Ok(fetch(db, consumer)?)),
        "events" => shown(alloc, Ok(events(db, consumer)?)),
        "finish" => finish(alloc, db, consumer),
        _ => Err(no_command()),
    }
}

/// What it answers of a tick.
pub fn snapshot<D: Store>(alloc: Global, db: &D, words: &str) -> anyhow::Result<String> {
    let tick = words.parse::<u64>()?;
    check_provider(db)?;
    shown(alloc, Ok(db.tick_snapshot(tick)))
}

// The batch of a consumer. If it may not join once more, it is registered.
fn fetch<D: Store>(db: &mut D, consumer: &Text) -> anyhow::Result<Option<NodeBatch>>
    requires { is_some (set_queue (D.seen db.old)) ≡ true }
    ensures { IfOk result (λ batch. IfSome batch (λ b. is_some ((D.seen db.new).batch b.id) ≡ true)) }
{
    match db.join(consumer) {
        Err(JoinFault::ConsumerExists) => {
            check_provider(db)?;
            Ok(db.fetch(consumer)?)
        }
        _ => bail!("not registered"),
    }
}

// The events of its batch.
fn events<D: EventStore>(db: &mut D, consumer: &Text) -> anyhow::Result<Vec<Event>>
    requires { is_some (set_queue (D.seen db.old)) ≡ true }
{
    let batch = active_batch(db, consumer)?;
    Ok(db.batch_events(batch)?)
}

fn finish<D: Store>(alloc: Global, db: &mut D, consumer: &Text) -> anyhow::Result<String>
    requires { is_some (set_queue (D.seen db.old)) ≡ true }
{
    let batch = active_batch(db, consumer)?;
    db.finish(batch);
    ok(alloc)
}

// The id of its batch, which is active.
fn active_batch<D: Store>(db: &mut D, consumer: &Text) -> anyhow::Result<u64>
    requires { is_some (set_queue (D.seen db.old)) ≡ true }
    ensures provider { OnOk result (is_some (set_queue (D.seen db.new)) ≡ true) }
    ensures active { IfOk result (λ batch. is_some ((D.seen db.new).batch batch) ≡ true) }
{
    let Some(batch) = fetch(db, consumer)? else {
        bail!("no batch");
    };
    check_provider(db)?;
    Ok(batch.id)
}

// Whether the database is a root's.
fn check_provider<D: Store>(db: &D) -> anyhow::Result<()>
    ensures { OnOk result (is_some (set_queue (D.seen db.now)) ≡ true) }
{
    if !db.is_provider() {
        bail!("no root");
    }
    Ok(())
}
