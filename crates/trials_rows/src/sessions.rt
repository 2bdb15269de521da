ghost use Rattle.std.specs.Prelude.{◌-◌, nat_lt};

use sky_session::{RowDb, RowStep, RowStore, WriteGate};
use sky_val::{NoMemory, Op, Row, SessionId};
use std::alloc::Global;
use std::mem;
use trials::{first_number, line, no_command, ok, row_statement, shown};

/// Sessions of one database, and the gate for their writes.
#[derive(Drop)]
pub struct Sessions {
    db: RowDb,
    gate: Few,
}

impl Sessions {
    pub fn new(alloc: Global) -> Sessions {
        Sessions {
            db: RowDb::new(alloc),
            gate: Few { left: 0 },
        }
    }

    pub fn answer(&mut self, alloc: Global, command: &str, words: &str) -> anyhow::Result<String> {
        let (number, statement) = first_number(words)?;
        match command {
            "new" => self.renew(alloc, number),
            "step" => self.step(alloc, number, statement),
            "step_with" => self.step_with(alloc, number, statement),
            _ => self.answer_from_outside(alloc, command, number),
        }
    }

    // The answer to a call that is made for a statement of another kind.
    fn answer_from_outside(
        &mut self,
        alloc: Global,
        command: &str,
        who: SessionId,
    ) -> anyhow::Result<String> {
        match command {
            "enter" => shown(alloc, self.db.enter(who, false)),
            "enter_outside" => shown(alloc, self.db.enter(who, true)),
            "fail" => shown(alloc, self.db.fail(who)),
            "fail_with" => shown(alloc, self.db.fail_with(who, &mut self.gate)),
            "settle_into" => self.settle(alloc),
            _ => Err(no_command()),
        }
    }

    fn settle(&mut self, alloc: Global) -> anyhow::Result<String> {
        let mut step = RowStep::ends(alloc);
        self.db.settle_into(&mut self.gate, &mut step)?;
        shown(alloc, Ok(step))
    }

    // Another database, and a gate with room for so many writes.
    fn renew(&mut self, alloc: Global, left: u32) -> anyhow::Result<String> {
        mem::forget(mem::replace(&mut self.db, RowDb::new(alloc)));
        self.gate = Few { left };
        ok(alloc)
    }

    fn step(&mut self, alloc: Global, who: SessionId, statement: &str) -> anyhow::Result<String> {
        let line = line(alloc, statement)?;
        let stmt = row_statement(&line)?;
        shown(alloc, self.db.step(who, stmt))
    }

    fn step_with(
        &mut self,
        alloc: Global,
        who: SessionId,
        statement: &str,
    ) -> anyhow::Result<String> {
        let line = line(alloc, statement)?;
        let stmt = row_statement(&line)?;
        shown(alloc, self.db.step_with(who, stmt, &mut self.gate))
    }
}

// A gate with room for so many writes.
#[derive(Drop)]
struct Few {
    left: u32,
}

impl WriteGate for Few {
    ghost rule = { record {
      has_room = λ gate write. nat_lt 0 gate.left;
      after = λ gate t write. record { left = gate.left - 1 };
      undone = λ gate t. gate;
    } };

    fn room(&self, _table: u32, _op: Op, _old: Option<&Row>, _new: Option<&Row>) -> bool {
        self.left > 0
    }

    fn wrote(
        &mut self,
        _txid: u64,
        _table: u32,
        _op: Op,
        _old: Option<&Row>,
        _new: Option<&Row>,
    ) -> Result<(), NoMemory> {
        self.left -= 1;
        Ok(())
    }

    fn rolled_back(&mut self, _txid: u64) {}
}
