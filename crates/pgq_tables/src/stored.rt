ghost use Rattle.std.specs.Prelude.{◌≡◌, true, false, None, IfOk, if◌then◌else◌, Some, option_and_then, option_copied};
ghost use Rattle.pgq_tables.specs.Tables.{full_event, recorded_part};

use crate::recorded::Recorded;
use sky_val::{Event, NoMemory, Text, copy_option};
use std::alloc::Global;
use std::marker::Model;
use std::sync::Arc;

/// An event as a table keeps it, and whether its transaction was rolled back. What most events lack is apart, takes no
/// room if it is missing, and is shared with the event before if that has the same.
#[derive(Drop)]
pub struct Stored {
    ev_id: u64,
    ev_time: i64,
    ev_txid: u64,
    // Each is empty if it is missing: three marks take less room than the two texts as options.
    ev_type: Text,
    ev_data: Text,
    has_type: bool,
    has_data: bool,
    dead: bool,
    rest: Option<Arc<Rest>>,
}

/// An event that has no owner, was never brought back and has no further texts, as most are.
#[derive(Debug, Drop)]
pub struct PlainEvent {
    pub ev_id: u64,
    pub ev_time: i64,
    pub ev_txid: u64,
    pub ev_type: Option<Text>,
    pub ev_data: Option<Text>,
}

/// What few events have.
#[derive(Drop)]
struct Rest {
    ev_owner: Option<u64>,
    ev_retry: Option<u64>,
    ev_extra1: Option<Text>,
    ev_extra2: Option<Text>,
    ev_extra3: Option<Text>,
    ev_extra4: Option<Text>,
}

impl Model for Stored {
    ghost use Rattle.pgq_tables.specs.Tables.{Stored};

    ghost Value = { Stored };

    ghost use Rattle.std.specs.Prelude.{option_and_then, if◌then◌else◌, Some, None};

    ghost view = { λ s. record {
      event = record {
        ev_id = s.ev_id;
        ev_time = s.ev_time;
        ev_txid = s.ev_txid;
        ev_owner = option_and_then (λ rest. rest.value.ev_owner) s.rest;
        ev_retry = option_and_then (λ rest. rest.value.ev_retry) s.rest;
        ev_type = if s.has_type then Some s.ev_type else None;
        ev_data = if s.has_data then Some s.ev_data else None;
        ev_extra1 = option_and_then (λ rest. rest.value.ev_extra1) s.rest;
        ev_extra2 = option_and_then (λ rest. rest.value.ev_extra2) s.rest;
        ev_extra3 = option_and_then (λ rest. rest.value.ev_extra3) s.rest;
        ev_extra4 = option_and_then (λ rest. rest.value.ev_extra4) s.rest;
      };
      dead = s.dead;
    } };
}

impl Rest {
    /// All of it is missing.
    fn nothing() -> Rest
        ensures { result ≡ record { ev_owner = None; ev_retry = None; ev_extra1 = None; ev_extra2 = None; ev_extra3 = None; ev_extra4 = None } }
    {
        Rest {
            ev_owner: None,
            ev_retry: None,
            ev_extra1: None,
            ev_extra2: None,
            ev_extra3: None,
            ev_extra4: None,
        }
    }

    /// Whether all of it is missing.
    fn is_empty(&self) -> bool
        ensures { result ≡ true → self.now ≡ record { ev_owner = None; ev_retry = None; ev_extra1 = None; ev_extra2 = None; ev_extra3 = None; ev_extra4 = None } }
    {
        self.ev_owner.is_none()
            && self.ev_retry.is_none()
            && self.ev_extra1.is_none()
            && self.ev_extra2.is_none()
            && self.ev_extra3.is_none()
            && self.ev_extra4.is_none()
    }

    /// Whether another is the same.
    fn is_same(&self, other: &Rest) -> bool
        ensures { result ≡ true → self.now ≡ other.now }
    {
        self.ev_owner == other.ev_owner
            && self.ev_retry == other.ev_retry
            && self.ev_extra1 == other.ev_extra1
            && self.ev_extra2 == other.ev_extra2
            && self.ev_extra3 == other.ev_extra3
            && self.ev_extra4 == other.ev_extra4
    }

    /// The same, copied.
    fn copy(&self, alloc: Global) -> Result<Rest, NoMemory>
        ensures { IfOk result (λ rest. rest ≡ self.now) }
    {
        Ok(Rest {
            ev_owner: self.ev_owner,
            ev_retry: self.ev_retry,
            ev_extra1: copy_option(alloc, &self.ev_extra1)?,
            ev_extra2: copy_option(alloc, &self.ev_extra2)?,
            ev_extra3: copy_option(alloc, &self.ev_extra3)?,
            ev_extra4: copy_option(alloc, &self.ev_extra4)?,
        })
    }
}

/// What few events have, as an event keeps it that comes after this one, if there is one.
// Never inlined, so that an event that has none of it is stored by short code.
#[inline(never)]
fn kept_after(alloc: Global, last: Option<&Stored>, rest: Rest) -> Result<Arc<Rest>, NoMemory>
    ensures { IfOk result (λ kept. kept.value ≡ rest) }
{
    match last {
        Some(last) => last.shared_or_new(alloc, rest),
        None => Ok(Arc::new(alloc, rest)?),
    }
}

/// A text, which is empty if it is missing, and whether there is one.
#[inline(always)]
fn text_or_empty(alloc: Global, text: Option<Text>) -> Result<(Text, bool), NoMemory>
    ensures { IfOk result (λ kept. (if kept.1 then Some kept.0 else None) ≡ text) }
{
    match text {
        Some(text) => Ok((text, true)),
        None => Ok((Text::from_str(alloc, "")?, false)),
    }
}

/// A text, if there is one.
fn text_if(has: bool, text: &Text) -> Option<&Text>
    ensures { option_copied result ≡ (if has then Some text.now else None) }
{
    if has { Some(text) } else { None }
}

/// An equal text, if there is one.
fn copy_if(alloc: Global, has: bool, text: &Text) -> Result<Option<Text>, NoMemory>
    ensures { IfOk result (λ copy. copy ≡ (if has then Some text.now else None)) }
{
    if has {
        Ok(Some(text.copy(alloc)?))
    } else {
        Ok(None)
    }
}

impl Stored {
    /// Takes over an event's texts. It comes after this one, if there is one.
    #[inline(always)]
    pub(crate) fn new(
        alloc: Global,
        event: Event,
        last: Option<&Stored>,
    ) -> Result<Stored, NoMemory>
        ensures { IfOk result (λ stored. stored ≡ record { event = event; dead = false }) }
    {
        let rest = Rest {
            ev_owner: event.ev_owner,
            ev_retry: event.ev_retry,
            ev_extra1: event.ev_extra1,
            ev_extra2: event.ev_extra2,
            ev_extra3: event.ev_extra3,
            ev_extra4: event.ev_extra4,
        };
        let rest = if rest.is_empty() {
            None
        } else {
            Some(kept_after(alloc, last, rest)?)
        };
        let plain = PlainEvent {
            ev_id: event.ev_id,
            ev_time: event.ev_time,
            ev_txid: event.ev_txid,
            ev_type: event.ev_type,
            ev_data: event.ev_data,
        };
        Stored::with_rest(alloc, plain, rest)
    }

    /// Takes over the texts of an event that has no more than these.
    #[inline(always)]
    pub(crate) fn plain(alloc: Global, event: PlainEvent) -> Result<Stored, NoMemory>
        ensures { IfOk result (λ stored. stored ≡ record { event = full_event event; dead = false }) }
    {
        Stored::with_rest(alloc, event, None)
    }

    /// Takes over the texts of an event, and what few events have.
    #[inline(always)]
    fn with_rest(
        alloc: Global,
        event: PlainEvent,
        rest: Option<Arc<Rest>>,
    ) -> Result<Stored, NoMemory>
        ensures { IfOk result (λ stored. stored ≡ record {
          event = record (full_event event) {
            ev_owner = option_and_then (λ kept. kept.value.ev_owner) rest;
            ev_retry = option_and_then (λ kept. kept.value.ev_retry) rest;
            ev_extra1 = option_and_then (λ kept. kept.value.ev_extra1) rest;
            ev_extra2 = option_and_then (λ kept. kept.value.ev_extra2) rest;
            ev_extra3 = option_and_then (λ kept. kept.value.ev_extra3) rest;
            ev_extra4 = option_and_then (λ kept. kept.value.ev_extra4) rest;
          };
          dead = false;
        }) }
    {
        let (ev_type, has_type) = text_or_empty(alloc, event.ev_type)?;
        let (ev_data, has_data) = text_or_empty(alloc, event.ev_data)?;
        Ok(Stored {
            ev_id: event.ev_id,
            ev_time: event.ev_time,
            ev_txid: event.ev_txid,
            ev_type,
            ev_data,
            has_type,
            has_data,
            dead: false,
            rest,
        })
    }

    /// What few events have, as an event keeps it that comes after this one.
    fn shared_or_new(&self, alloc: Global, rest: Rest) -> Result<Arc<Rest>, NoMemory>
        ensures { IfOk result (λ kept. kept.value ≡ rest) }
    {
        match &self.rest {
            Some(kept) if kept.is_same(&rest) => Ok(kept.clone()?),
            _ => Ok(Arc::new(alloc, rest)?),
        }
    }

    /// Its id.
    pub fn id(&self) -> u64
        ensures { result ≡ self.now.event.ev_id }
    {
        self.ev_id
    }

    /// The id of the transaction that inserted it.
    pub fn txid(&self) -> u64
        ensures { result ≡ self.now.event.ev_txid }
    {
        self.ev_txid
    }

    /// The subscription for which alone it is, if there is one.
    pub fn owner(&self) -> Option<u64>
        ensures { result ≡ self.now.event.ev_owner }
    {
        match &self.rest {
            Some(rest) => rest.ev_owner,
            None => None,
        }
    }

    /// Whether its transaction was rolled back.
    pub fn is_dead(&self) -> bool
        ensures { result ≡ self.now.dead }
    {
        self.dead
    }

    /// Its transaction was rolled back.
    pub(crate) fn mark_dead(&mut self)
        ensures { self.new ≡ record self.old { dead = true } }
    {
        self.dead = true;
    }

    /// What of it records a change of a row.
    pub fn recorded(&self) -> Recorded<'_>
        ensures { result ≡ recorded_part self.now.event }
    {
        let ev_extra1 = match &self.rest {
            Some(rest) => rest.ev_extra1.as_ref(),
            None => None,
        };
        Recorded {
            ev_id: self.ev_id,
            ev_txid: self.ev_txid,
            ev_type: text_if(self.has_type, &self.ev_type),
            ev_data: text_if(self.has_data, &self.ev_data),
            ev_extra1,
        }
    }

    /// An equal event.
    pub fn event(&self, alloc: Global) -> Result<Event, NoMemory>
        ensures { IfOk result (λ event. event ≡ self.now.event) }
    {
        let ev_type = copy_if(alloc, self.has_type, &self.ev_type)?;
        let ev_data = copy_if(alloc, self.has_data, &self.ev_data)?;
        let rest = match &self.rest {
            Some(rest) => rest.copy(alloc)?,
            None => Rest::nothing(),
        };
        Ok(Event {
            ev_id: self.ev_id,
            ev_time: self.ev_time,
            ev_txid: self.ev_txid,
            ev_owner: rest.ev_owner,
            ev_retry: rest.ev_retry,
            ev_type,
            ev_data,
            ev_extra1: rest.ev_extra1,
            ev_extra2: rest.ev_extra2,
            ev_extra3: rest.ev_extra3,
            ev_extra4: rest.ev_extra4,
        })
    }
}
