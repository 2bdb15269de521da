ghost use Rattle.std.specs.Prelude.{◌≡◌, true, OnOk, OnErr, option_copied};
ghost use Rattle.sky_urlenc.specs.RowEvents.{op_of};
ghost use Rattle.sky_model.specs.Gates.{Gate, open_gate};

use sky_val::{NoMemory, Op, Row};
use std::marker::Model;

/// Guards the writes of rows: it is asked whether it has room for each, and notified of it, and of each transaction
/// that is rolled back.
pub trait WriteGate {
    // For which writes it has room, in its state; and its state after it was notified of a write or a rollback.
    ghost rule: { Gate Self };

    /// Whether there is room for the write in the table of this number: `old` is the row that the key has, `new` the
    /// one that it is to have. If there is none, the statement is refused as `EventIdsSpent`.
    fn room(&self, table: u32, op: Op, old: Option<&Row>, new: Option<&Row>) -> bool
        requires { op ≡ op_of (option_copied old) (option_copied new) }
        ensures { result ≡ rule.has_room self.now (record { table = table; old = option_copied old.entry; new = option_copied new.entry }) };

    /// Notifies it of the write, which the transaction of this id makes.
    fn wrote(
        &mut self,
        txid: u64,
        table: u32,
        op: Op,
        old: Option<&Row>,
        new: Option<&Row>,
    ) -> Result<(), NoMemory>
        requires op { op ≡ op_of (option_copied old) (option_copied new) }
        requires room { rule.has_room self.old (record { table = table; old = option_copied old; new = option_copied new }) ≡ true }
        ensures ok { OnOk result (self.new ≡ rule.after self.old txid (record { table = table; old = option_copied old.entry; new = option_copied new.entry })) }
        ensures err { OnErr result (self.new ≡ self.old) };

    /// Notifies it that the transaction of this id was rolled back.
    fn rolled_back(&mut self, txid: u64)
        ensures { self.new ≡ rule.undone self.old txid };
}

/// The gate that always has room, and keeps nothing.
#[derive(Debug, Drop)]
pub struct OpenGate;

impl Model for OpenGate {
    ghost Value = { Unit {0} };

    ghost view = { λ gate. tt };
}

impl WriteGate for OpenGate {
    ghost rule = { open_gate };

    fn room(&self, _table: u32, _op: Op, _old: Option<&Row>, _new: Option<&Row>) -> bool {
        true
    }

    fn wrote(
        &mut self,
        _txid: u64,
        _table: u32,
        _op: Op,
        _old: Option<&Row>,
        _new: Option<&Row>,
    ) -> Result<(), NoMemory> {
        Ok(())
    }

    fn rolled_back(&mut self, _txid: u64) {}
}
