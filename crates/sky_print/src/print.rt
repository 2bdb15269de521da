ghost use Rattle.std.specs.Prelude.{◌≡◌, [], ◌∷◌, ◌++◌, map, flat_map, length, codes, OnOk, OnErr};
ghost use Rattle.std.specs.Fmt.{decimal};
ghost use Rattle.sky_model.specs.Moment.{moment, HasMoment};
ghost use Rattle.sky_model.specs.Printed.{event_text, row_text, count_text, queue_text, batch_text, consumer_text, held_text, name_at, refusal_text, line_text, reply_text, printed, HaveNames, EventsHaveMoments, ReplyHasMoments, HaveMoments};
ghost use Rattle.sky_txid.specs.SnapshotText.{snapshot_text};
ghost use Rattle.londiste_state.specs.StateText.{state_text};
ghost use Rattle.sky_print.specs.Kept.{Keeps};
ghost use Rattle.sky_print.specs.Single.{text_of};

use crate::event::append_event;
use crate::held::append_held_back;
use crate::moment::print_moment;
use crate::queue::{append_batch_info, append_consumer_info, append_queue};
use crate::refusal::append_refusal;
use crate::row::append_row;
use itoa::Buffer;
use londiste_state::TableState;
use sky_model::{Refusal, Replies, Reply};
use sky_val::{Event, NoMemory, Row, SessionId, Text, Val};

/// Appends the lines of these answers, each after its session's name. A session's number is its
/// name's place in `names`.
pub fn print_replies(names: &[Text], replies: &Replies, into: &mut Vec<u8>) -> Result<(), NoMemory>
    requires named { HaveNames names.now replies.now }
    requires moments { HaveMoments replies.now }
    ensures ok { OnOk result (into.new.items ≡ into.old.items ++ printed names.now replies.now) }
    ensures err { OnErr result (into.new.items ≡ into.old.items) }
{
    let start = into.len();
    let appended = append_replies(names, replies.as_slice(), into);
    if appended.is_err() {
        into.truncate(start);
    }
    appended
}

// If memory runs out, each of the following may leave a part of its text, after all that was there
// before.

fn append_replies(
    names: &[Text],
    replies: &[(SessionId, Reply)],
    into: &mut Vec<u8>,
) -> Result<(), NoMemory>
    requires named { HaveNames names.now replies.now }
    requires moments { HaveMoments replies.now }
    ensures ok { OnOk result (into.new.items ≡ into.old.items ++ printed names.now replies.now) }
    ensures kept { OnErr result (Keeps into.old.items into.new.items) }
{
    for (session, reply) in replies {
        append_reply(names, names[*session as usize].bytes(), reply, into)?;
    }
    Ok(())
}

// The lines of an answer of the session of this name, if the sessions have these names.
fn append_reply(
    names: &[Text],
    name: &[u8],
    reply: &Reply,
    into: &mut Vec<u8>,
) -> Result<(), NoMemory>
    requires { ReplyHasMoments reply.now }
    ensures ok { OnOk result (into.new.items ≡ into.old.items ++ reply_text names.now name.now reply.now) }
    ensures kept { OnErr result (Keeps into.old.items into.new.items) }
{
    match reply {
        Reply::Events(events) => append_batch(name, events.as_slice(), into),
        Reply::Rows(rows) => append_listing(name, rows.as_slice(), into),
        _ => append_line(names, name, reply, into),
    }
}

// An answer as one line.
fn append_line(
    names: &[Text],
    name: &[u8],
    reply: &Reply,
    into: &mut Vec<u8>,
) -> Result<(), NoMemory>
    requires { ReplyHasMoments reply.now }
    ensures ok { OnOk result (into.new.items ≡ into.old.items ++ line_text name.now (text_of names.now reply.now)) }
    ensures kept { OnErr result (Keeps into.old.items into.new.items) }
{
    append_name(name, into)?;
    append_text(names, reply, into)?;
    into.push(b'\n')?;
    Ok(())
}

// The text of an answer of one line.
fn append_text(names: &[Text], reply: &Reply, into: &mut Vec<u8>) -> Result<(), NoMemory>
    requires { ReplyHasMoments reply.now }
    ensures ok { OnOk result (into.new.items ≡ into.old.items ++ text_of names.now reply.now) }
    ensures kept { OnErr result (Keeps into.old.items into.new.items) }
{
    match reply {
        Reply::Done => into.extend_from_slice(b"ok"),
        Reply::Number(number) => append_number(*number, into),
        Reply::Null => into.extend_from_slice(b"null"),
        Reply::Bool(true) => into.extend_from_slice(b"true"),
        Reply::Bool(false) => into.extend_from_slice(b"false"),
        Reply::Begin => into.extend_from_slice(b"BEGIN"),
        Reply::AlreadyInTransaction => into.extend_from_slice(b"WARNING already in a transaction"),
        Reply::Commit => into.extend_from_slice(b"COMMIT"),
        Reply::Rollback => into.extend_from_slice(b"ROLLBACK"),
        Reply::NoTransaction => into.extend_from_slice(b"WARNING no transaction"),
        Reply::NotWaiting => into.extend_from_slice(b"not waiting"),
        Reply::Waits(holder) => append_after(b"waits for ", name_of(names, *holder), into),
        Reply::Snapshot(snapshot) => snapshot.print(into),
        // These have several lines.
        Reply::Events(_) | Reply::Rows(_) => Ok(()),
        Reply::Row(row) => append_row(row.values(), into),
        Reply::NoRow => into.extend_from_slice(b"none"),
        Reply::Moment(now) => print_moment(*now, into),
        Reply::QueueInfo(queue) => append_queue(queue, into),
        Reply::BatchInfo(batch) => append_batch_info(batch.as_info(), into),
        Reply::ConsumerInfo(consumer) => append_consumer_info(consumer, into),
        Reply::HeldBack(held) => append_held_back(held, into),
        Reply::State(state) => state.print(into),
        Reply::TableMoved(table, state) => append_move(table, *state, into),
        Reply::RowsCopied(count) => append_counted(b"copied ", *count, into),
        Reply::AwaitsTable(table) => append_after(b"wait ", table.bytes(), into),
        Reply::BatchTaken(id, prev, cur) => append_taken(*id, *prev, *cur, into),
        Reply::BatchApplied(cur, many) => append_applied(*cur, *many, into),
        Reply::BatchSkipped(cur) => append_counted(b"skipped ", *cur, into),
        Reply::BatchFinished(id) => append_counted(b"finished ", *id, into),
        Reply::Idle => into.extend_from_slice(b"idle"),
        Reply::Refused(refusal) => append_refused(names, refusal, into),
    }
}

// A word with a space after it, and a name.
fn append_after(word: &[u8], name: &[u8], into: &mut Vec<u8>) -> Result<(), NoMemory>
    ensures ok { OnOk result (into.new.items ≡ into.old.items ++ (word.now ++ name.now)) }
    ensures kept { OnErr result (Keeps into.old.items into.new.items) }
{
    into.extend_from_slice(word)?;
    into.extend_from_slice(name)
}

// The events of a batch, and how many they are.
fn append_batch(name: &[u8], events: &[Event], into: &mut Vec<u8>) -> Result<(), NoMemory>
    requires { EventsHaveMoments events.now }
    ensures ok { OnOk result (into.new.items ≡ into.old.items
        ++ flat_map (line_text name.now) (map event_text events.now ++ count_text (length events.now) ∷ [])) }
    ensures kept { OnErr result (Keeps into.old.items into.new.items) }
{
    for event in events {
        append_event_line(name, event, into)?;
    }
    append_count(name, events.len() as u64, into)
}

fn append_event_line(name: &[u8], event: &Event, into: &mut Vec<u8>) -> Result<(), NoMemory>
    requires { HasMoment event.now.ev_time }
    ensures ok { OnOk result
        (into.new.items ≡ into.old.items ++ line_text name.now (event_text event.now)) }
    ensures kept { OnErr result (Keeps into.old.items into.new.items) }
{
    append_name(name, into)?;
    append_event(event, into)?;
    into.push(b'\n')?;
    Ok(())
}

// The rows of a table, and how many they are.
fn append_listing(name: &[u8], rows: &[Row], into: &mut Vec<u8>) -> Result<(), NoMemory>
    ensures ok { OnOk result (into.new.items ≡ into.old.items
        ++ flat_map (line_text name.now) (map row_text rows.now ++ count_text (length rows.now) ∷ [])) }
    ensures kept { OnErr result (Keeps into.old.items into.new.items) }
{
    for row in rows {
        append_row_line(name, row.values(), into)?;
    }
    append_count(name, rows.len() as u64, into)
}

fn append_row_line(name: &[u8], values: &[Val], into: &mut Vec<u8>) -> Result<(), NoMemory>
    ensures ok { OnOk result
        (into.new.items ≡ into.old.items ++ line_text name.now (row_text values.now)) }
    ensures kept { OnErr result (Keeps into.old.items into.new.items) }
{
    append_name(name, into)?;
    append_row(values, into)?;
    into.push(b'\n')?;
    Ok(())
}

fn append_count(name: &[u8], count: u64, into: &mut Vec<u8>) -> Result<(), NoMemory>
    ensures ok { OnOk result
        (into.new.items ≡ into.old.items ++ line_text name.now (count_text count)) }
    ensures kept { OnErr result (Keeps into.old.items into.new.items) }
{
    append_name(name, into)?;
    into.extend_from_slice(b"rows ")?;
    append_number(count, into)?;
    into.push(b'\n')?;
    Ok(())
}

// A table, and the state into which it went.
fn append_move(table: &Text, state: TableState, into: &mut Vec<u8>) -> Result<(), NoMemory>
    ensures ok { OnOk result (into.new.items ≡ into.old.items ++ (codes "state " ++ table.now ++ 32 ∷ state_text state)) }
    ensures kept { OnErr result (Keeps into.old.items into.new.items) }
{
    into.extend_from_slice(b"state ")?;
    into.extend_from_slice(table.bytes())?;
    into.push(b' ')?;
    state.print(into)
}

// A word with a space after it, and a number.
fn append_counted(word: &[u8], number: u64, into: &mut Vec<u8>) -> Result<(), NoMemory>
    ensures ok { OnOk result (into.new.items ≡ into.old.items ++ (word.now ++ decimal number)) }
    ensures kept { OnErr result (Keeps into.old.items into.new.items) }
{
    into.extend_from_slice(word)?;
    append_number(number, into)
}

// A batch that was taken, and its ticks.
fn append_taken(id: u64, prev: u64, cur: u64, into: &mut Vec<u8>) -> Result<(), NoMemory>
    ensures ok { OnOk result (into.new.items
        ≡ into.old.items ++ (codes "batch " ++ decimal id ++ 32 ∷ decimal prev ++ 32 ∷ decimal cur)) }
    ensures kept { OnErr result (Keeps into.old.items into.new.items) }
{
    append_counted(b"batch ", id, into)?;
    append_spaced(prev, into)?;
    append_spaced(cur, into)
}

// A space, and a number.
fn append_spaced(number: u64, into: &mut Vec<u8>) -> Result<(), NoMemory>
    ensures ok { OnOk result (into.new.items ≡ into.old.items ++ 32 ∷ decimal number) }
    ensures kept { OnErr result (Keeps into.old.items into.new.items) }
{
    into.push(b' ')?;
    append_number(number, into)
}

// The tick up to which a batch was applied, and how many of its events were picked.
fn append_applied(cur: u64, many: u64, into: &mut Vec<u8>) -> Result<(), NoMemory>
    ensures ok { OnOk result (into.new.items ≡ into.old.items ++ (codes "applied " ++ decimal cur ++ 32 ∷ decimal many)) }
    ensures kept { OnErr result (Keeps into.old.items into.new.items) }
{
    append_counted(b"applied ", cur, into)?;
    append_spaced(many, into)
}

fn append_refused(names: &[Text], refusal: &Refusal, into: &mut Vec<u8>) -> Result<(), NoMemory>
    ensures ok { OnOk result (into.new.items ≡ into.old.items ++ (codes "error " ++ refusal_text names.now refusal.now)) }
    ensures kept { OnErr result (Keeps into.old.items into.new.items) }
{
    into.extend_from_slice(b"error ")?;
    append_refusal(names, refusal, into)
}

// What comes before a line of the session of this name.
// Always inlined: each line begins with it, and a call takes as many steps as its work.
#[inline(always)]
fn append_name(name: &[u8], into: &mut Vec<u8>) -> Result<(), NoMemory>
    ensures ok { OnOk result (into.new.items ≡ into.old.items ++ (name.now ++ codes ": ")) }
    ensures kept { OnErr result (Keeps into.old.items into.new.items) }
{
    into.extend_from_slice(name)?;
    into.push(b':')?;
    into.push(b' ')?;
    Ok(())
}

/// The name of a session, or no byte if it has none.
pub(crate) fn name_of(names: &[Text], session: SessionId) -> &[u8]
    ensures { result.now ≡ name_at names.now session }
{
    match names.get(session as usize) {
        Some(name) => name.bytes(),
        None => b"",
    }
}

/// Appends a number in decimal. At `Err` it appends nothing.
pub(crate) fn append_number(number: u64, into: &mut Vec<u8>) -> Result<(), NoMemory>
    ensures ok { OnOk result (into.new.items ≡ into.old.items ++ decimal number) }
    ensures err { OnErr result (into.new.items ≡ into.old.items) }
{
    into.extend_from_slice(Buffer::new().format(number).as_bytes())
}
