//! The crates as a library: a world of one's own, which runs statements and gives their answers as values.
//!
//! Three letters are put into a queue, and a worker sends those of each batch. One can't be sent at first; the worker
//! asks for a retry half a minute later, and the daemon brings it back.
#![tactic(auto)]

mod post;

use pgq_db::Db;
use post::Post;
use sky_session::RowDb;
use sky_store::Store;
use std::mem;

/// What is done before the worker begins.
const LINES: [&str; 10] = [
    "a: open d",
    "a: create_queue letters",
    "a: register_consumer letters worker",
    "a: begin",
    "a: insert_event letters 'letter' 'to=ann'",
    "a: insert_event letters 'letter' 'to=bob'",
    "a: insert_event letters 'letter' 'to=cid'",
    "a: commit",
    "a: pgqd on",
    "w: open d",
];

/// How many times the worker looks for a batch, ten seconds apart.
const TURNS: u32 = 12;

fn main(rt: HostRuntime) -> anyhow::Result<()> {
    run::<Db<RowDb>>(&rt)
}

// Over databases of any type, so that the proof looks at nothing that a database is made of.
fn run<D: Store>(rt: &(impl Print + AllocGlobal)) -> anyhow::Result<()> {
    let mut post = Post::<D>::new(rt.alloc());
    let delivered = deliver(rt, &mut post);
    // The program ends after this, and then all memory is freed at once.
    mem::forget(post);
    delivered
}

// Puts the letters into the queue, and sends those of each batch.
fn deliver<D: Store>(rt: &(impl Print + AllocGlobal), post: &mut Post<D>) -> anyhow::Result<()> {
    for line in LINES.iter() {
        post.run(line)?;
    }
    for _turn in 0..TURNS {
        post.run("w: clock +10s")?;
        if let Some(batch) = post.next_batch()? {
            println!(rt; "batch {batch}")?;
            post.send(rt, batch)?;
        }
    }
    Ok(())
}
