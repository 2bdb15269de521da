ghost use Rattle.std.specs.Prelude.{◌≡◌, ◌<◌, [], true, false, None, OnOk, OnErr, length, unwrap_or};
ghost use Rattle.std.specs.Option.{option_copied};
ghost use Rattle.sky_txid.specs.Snapshot.{SnapshotView};
ghost use Rattle.sky_model.specs.Sessions.{outside, failed, place_of_sight};
ghost use Rattle.sky_model.specs.State.{changed_at, with_open, with_txid, with_sight, with_block, without_sight};
ghost use Rattle.sky_model.specs.declared.stmt.Where.TheVariants.{WhenReading};
ghost use Rattle.sky_model.specs.Made.{takes_sight};
ghost use Rattle.sky_fits.specs.Blocks.{seen_block};
ghost use Rattle.sky_state.specs.Seen.{seen_sight, session_of};

use crate::session::{Session, Sight};
use sky_fits::{Block, Standing};
use sky_txid::Snapshot;
use sky_val::{NoMemory, SessionId};
use std::alloc::Global;
use std::marker::Model;

/// The sessions of a database, each at its number. Those beyond the list are at rest.
#[derive(Debug, Drop)]
pub struct Sessions {
    items: Vec<Session>,
}

impl Model for Sessions {
    ghost use Rattle.std.specs.Prelude.{List};
    ghost use Rattle.sky_state.specs.declared.session.Session.{Session};

    ghost Value = { List Session };

    ghost view = { λ s. s.items.items };
}

impl Sessions {
    /// All are at rest.
    pub(crate) fn new(alloc: Global) -> Sessions
        ensures { result ≡ [] }
    {
        Sessions {
            items: Vec::new(alloc),
        }
    }

    /// Whether the session has the database open, and its transaction block.
    pub(crate) fn standing(&self, who: SessionId) -> Standing
        ensures opened { result.is_open ≡ (session_of self.now who).is_open }
        ensures block { seen_block result.block ≡ (session_of self.now who).block }
    {
        match self.items.get(who as usize) {
            Some(session) => Standing {
                is_open: session.is_open,
                block: session.block,
            },
            None => Standing {
                is_open: false,
                block: Block::Outside,
            },
        }
    }

    /// Whether the session is in no block, in one, or in an aborted one.
    pub(crate) fn block(&self, who: SessionId) -> Block
        ensures { seen_block result ≡ (session_of self.now who).block }
    {
        match self.items.get(who as usize) {
            Some(session) => session.block,
            None => Block::Outside,
        }
    }

    /// The id of the session's running transaction, if it has one.
    pub(crate) fn txid(&self, who: SessionId) -> Option<u64>
        ensures { result ≡ (session_of self.now who).txid }
    {
        match self.items.get(who as usize) {
            Some(session) => session.txid,
            None => None,
        }
    }

    /// Whether the session's next statement that reads is to take its block's snapshot.
    pub(crate) fn is_first(&self, who: SessionId) -> bool
        ensures { result ≡ takes_sight WhenReading (session_of self.now who).sight }
    {
        match self.items.get(who as usize) {
            Some(session) => matches!(session.sight, Sight::AtFirst),
            None => false,
        }
    }

    /// The snapshot that the session reads by, if not each statement takes its own.
    pub(crate) fn place(&self, who: SessionId) -> Option<&Snapshot>
        ensures { (own : SnapshotView) → place_of_sight own (session_of self.now who).sight ≡ unwrap_or (option_copied result) own }
    {
        match &self.items.get(who as usize)?.sight {
            Sight::AtPlace(snapshot) => Some(snapshot),
            Sight::AtEach | Sight::AtFirst => None,
        }
    }

    /// Makes a place for the session, so that nothing after this takes memory for it.
    pub(crate) fn make_room(&mut self, who: SessionId) -> Result<(), NoMemory>
        ensures room { OnOk result (who < length self.new) }
        ensures same { session_of self.new ≡ session_of self.old }
    {
        while self.items.len() <= who as usize {
            self.items.push(Session {
                is_open: false,
                block: Block::Outside,
                txid: None,
                sight: Sight::AtEach,
            })?;
        }
        Ok(())
    }

    /// The session has opened the database.
    pub(crate) fn connect(&mut self, who: SessionId) -> Result<(), NoMemory>
        ensures ok { OnOk result (session_of self.new ≡ changed_at who (with_open true) (session_of self.old)) }
        ensures err { OnErr result (session_of self.new ≡ session_of self.old) }
    {
        self.make_room(who)?;
        self.items[who as usize].is_open = true;
        Ok(())
    }

    /// The session has closed it.
    pub(crate) fn disconnect(&mut self, who: SessionId)
        ensures { session_of self.new ≡ changed_at who (with_open false) (session_of self.old) }
    {
        let who = who as usize;
        if who < self.items.len() {
            self.items[who].is_open = false;
        }
    }

    /// The session's transaction gets this id.
    pub(crate) fn begin_txid(&mut self, who: SessionId, txid: u64)
        requires { who < length self.old }
        ensures { session_of self.new ≡ changed_at who (with_txid (Some txid)) (session_of self.old) }
    {
        self.items[who as usize].txid = Some(txid);
    }

    /// Sets the session's block; the snapshot that it reads by stays as it is.
    pub(crate) fn set_block(&mut self, who: SessionId, block: Block) -> Result<(), NoMemory>
        ensures ok { OnOk result (session_of self.new ≡ changed_at who (with_block (seen_block block)) (session_of self.old)) }
        ensures err { OnErr result (session_of self.new ≡ session_of self.old) }
    {
        self.make_room(who)?;
        self.items[who as usize].block = block;
        Ok(())
    }

    /// Sets the snapshot that the session's statements read by from now on.
    pub(crate) fn set_sight(&mut self, who: SessionId, sight: Sight) -> Result<(), NoMemory>
        ensures ok { OnOk result (session_of self.new ≡ changed_at who (with_sight (seen_sight sight)) (session_of self.old)) }
        ensures err { OnErr result (session_of self.new ≡ session_of self.old) }
    {
        self.make_room(who)?;
        self.items[who as usize].sight = sight;
        Ok(())
    }

    /// The session's transaction has ended.
    pub(crate) fn end_txid(&mut self, who: SessionId)
        ensures { session_of self.new ≡ changed_at who (with_txid None) (session_of self.old) }
    {
        let who = who as usize;
        if who < self.items.len() {
            self.items[who].txid = None;
        }
    }

    /// The session's block is aborted.
    pub(crate) fn fail(&mut self, who: SessionId) -> Result<(), NoMemory>
        ensures ok { OnOk result (session_of self.new ≡ changed_at who (without_sight failed) (session_of self.old)) }
        ensures err { OnErr result (session_of self.new ≡ session_of self.old) }
    {
        self.make_room(who)?;
        let session = &mut self.items[who as usize];
        session.block = Block::Failed;
        session.sight = Sight::AtEach;
        Ok(())
    }

    /// The session's block is over.
    pub(crate) fn leave(&mut self, who: SessionId)
        ensures { session_of self.new ≡ changed_at who (without_sight outside) (session_of self.old) }
    {
        let who = who as usize;
        if who < self.items.len() {
            let session = &mut self.items[who];
            session.block = Block::Outside;
            session.sight = Sight::AtEach;
        }
    }
}
