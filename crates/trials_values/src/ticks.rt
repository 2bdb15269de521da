ghost use Rattle.std.specs.Prelude.{IfOk};
ghost use Rattle.sky_model.specs.Moment.{IsTime};

use anyhow::{Context, bail};
use pgq_tick::{Tick, TickFault, Ticks};
use sky_txid::Snapshot;
use std::alloc::Global;
use trials::{first_number, no_command, ok, shown};

/// The ticks of a queue.
#[derive(Drop)]
pub struct Kept {
    ticks: Option<Ticks>,
}

impl Kept {
    pub fn new() -> Kept {
        Kept { ticks: None }
    }

    pub fn answer(&mut self, alloc: Global, command: &str, words: &str) -> anyhow::Result<String> {
        match command {
            "faults" => faults(alloc),
            "new" => self.renew(alloc, words),
            "add" => self.add(alloc, words),
            "drop_below" => self.drop_below(alloc, words.parse::<u64>().context(words)?),
            _ => self.tell(alloc, command, words.parse::<u64>().context(words)?),
        }
    }

    // Other ticks, of which this is the first.
    fn renew(&mut self, alloc: Global, words: &str) -> anyhow::Result<String> {
        let (time, seq, snapshot) = parts(alloc, words)?;
        let first = Tick {
            id: 1,
            time,
            snapshot,
            seq,
        };
        self.ticks = Some(Ticks::new(alloc, first)?);
        ok(alloc)
    }

    fn add(&mut self, alloc: Global, words: &str) -> anyhow::Result<String> {
        let (time, seq, snapshot) = parts(alloc, words)?;
        let ticks = self.ticks.as_mut().context("no ticks")?;
        shown(alloc, Ok(ticks.add(time, snapshot, seq)))
    }

    fn drop_below(&mut self, alloc: Global, txid: u64) -> anyhow::Result<String> {
        let ticks = self.ticks.as_mut().context("no ticks")?;
        if ticks.newest().snapshot.xmin() <= txid {
            bail!("the newest tick would go");
        }
        ticks.drop_below(txid);
        ok(alloc)
    }

    // What the ticks answer for a number.
    fn tell(&self, alloc: Global, command: &str, number: u64) -> anyhow::Result<String> {
        let ticks = self.ticks.as_ref().context("no ticks")?;
        match command {
            "get" => shown(alloc, Ok(ticks.get(number))),
            "next_after" => shown(alloc, Ok(ticks.next_after(number))),
            "least" => shown(alloc, Ok(ticks.least(number))),
            _ => Err(no_command()),
        }
    }
}

// The time of a tick, the value of the sequence and the snapshot.
fn parts(alloc: Global, words: &str) -> anyhow::Result<(i64, u64, Snapshot)>
    ensures { IfOk result (λ parts. IsTime parts.0) }
{
    let (time, words) = first_number(words)?;
    let (seq, words) = first_number(words)?;
    let snapshot = Snapshot::parse(alloc, words.as_bytes())?;
    Ok((i64::from(time), u64::from(seq), snapshot))
}

fn faults(alloc: Global) -> anyhow::Result<String> {
    let (spent, memory) = (TickFault::IdsSpent, TickFault::NoMemory);
    Ok(format!(in alloc; "{spent}; {memory}")?)
}
