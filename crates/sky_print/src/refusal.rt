ghost use Rattle.std.specs.Prelude.{◌≡◌, true, ◌||◌, ℕ, List, ◌∷◌, ◌++◌, map, codes, OnOk, OnErr};
ghost use Rattle.std.specs.Fmt.{decimal};
ghost use Rattle.sky_model.specs.Printed.{spaced, limit_name, limit_text, bad_row_text, name_at, refusal_text};
ghost use Rattle.sky_print.specs.Fields.{has_no_field, is_on_node};
ghost use Rattle.sky_print.specs.Kept.{Keeps};

use crate::event::append_number_word;
use crate::print::{append_number, name_of};
use sky_model::{BadRow, Limit, Refusal};
use sky_val::{NoMemory, SessionId, Text};

/// Appends the refusal's name and its fields. Sessions are printed by these names. If memory runs
/// out a part of them may be left, after all that was there before.
pub(crate) fn append_refusal(
    names: &[Text],
    refusal: &Refusal,
    into: &mut Vec<u8>,
) -> Result<(), NoMemory>
    ensures ok { OnOk result (into.new.items ≡ into.old.items ++ refusal_text names.now refusal.now) }
    ensures kept { OnErr result (Keeps into.old.items into.new.items) }
{
    match refusal {
        Refusal::BadColumn(column) => append_named(b"BadColumn ", column.bytes(), into),
        Refusal::BadRow(why) => append_bad_row(why, into),
        Refusal::BadValue(param) => append_named(b"BadValue ", param.bytes(), into),
        Refusal::Deadlock(waiters) => append_deadlock(names, waiters.as_slice(), into),
        Refusal::HasConsumers(count) => append_numbered(b"HasConsumers ", *count, into),
        Refusal::HasTriggers(name) => append_named(b"HasTriggers ", name.bytes(), into),
        Refusal::KeyChange(column) => append_named(b"KeyChange ", column.bytes(), into),
        Refusal::NoConsumer(name) => append_named(b"NoConsumer ", name.bytes(), into),
        Refusal::NoParam(param) => append_named(b"NoParam ", param.bytes(), into),
        Refusal::NoQueue(name) => append_named(b"NoQueue ", name.bytes(), into),
        Refusal::NoTable(name) => append_named(b"NoTable ", name.bytes(), into),
        Refusal::NoTick(tick, newest) => append_numbers(b"NoTick ", *tick, *newest, into),
        Refusal::OutOfRange(column) => append_named(b"OutOfRange ", column.bytes(), into),
        Refusal::QueueBusy(txid) => append_numbered(b"QueueBusy ", *txid, into),
        Refusal::ReservedColumn(column) => append_named(b"ReservedColumn ", column.bytes(), into),
        Refusal::Serialize(txid) => append_numbered(b"Serialize ", *txid, into),
        Refusal::TableBusy(txid) => append_numbered(b"TableBusy ", *txid, into),
        Refusal::TableExists(name) => append_named(b"TableExists ", name.bytes(), into),
        Refusal::TickTooOld(tick, least) => append_numbers(b"TickTooOld ", *tick, *least, into),
        Refusal::TooMany(limit) => append_limit(*limit, into),
        Refusal::TriggerExists(name) => append_named(b"TriggerExists ", name.bytes(), into),
        Refusal::TwiceNamed(column) => append_named(b"TwiceNamed ", column.bytes(), into),
        _ => append_on_node(refusal, into),
    }
}

// A refusal on nodes, with a name after it, or one that is printed without fields.
fn append_on_node(refusal: &Refusal, into: &mut Vec<u8>) -> Result<(), NoMemory>
    requires { (is_on_node refusal.now || has_no_field refusal.now) ≡ true }
    ensures ok { (names : List (List ℕ)) → OnOk result (into.new.items ≡ into.old.items ++ refusal_text names refusal.now) }
    ensures kept { OnErr result (Keeps into.old.items into.new.items) }
{
    match refusal {
        Refusal::AlreadyInSet(table) => append_named(b"AlreadyInSet ", table.bytes(), into),
        Refusal::ConsumerExists(name) => append_named(b"ConsumerExists ", name.bytes(), into),
        Refusal::NodeExists(name) => append_named(b"NodeExists ", name.bytes(), into),
        Refusal::NoNode(name) => append_named(b"NoNode ", name.bytes(), into),
        Refusal::NotInSet(table) => append_named(b"NotInSet ", table.bytes(), into),
        Refusal::NotLeaf(name) => append_named(b"NotLeaf ", name.bytes(), into),
        Refusal::NotProvider(name) => append_named(b"NotProvider ", name.bytes(), into),
        Refusal::QueueExists(name) => append_named(b"QueueExists ", name.bytes(), into),
        Refusal::SchemaDiffers(table) => append_named(b"SchemaDiffers ", table.bytes(), into),
        Refusal::TableInUse(node) => append_named(b"TableInUse ", node.bytes(), into),
        _ => into.extend_from_slice(name_alone(refusal)),
    }
}

// The name of a refusal that is printed without fields.
fn name_alone(refusal: &Refusal) -> &'static [u8]
    requires { has_no_field refusal.now ≡ true }
    ensures { (names : List (List ℕ)) → result.now ≡ refusal_text names refusal.now }
{
    match refusal {
        Refusal::Aborted => b"Aborted",
        Refusal::AlreadyOpen => b"AlreadyOpen",
        Refusal::BadSnapshot => b"BadSnapshot",
        Refusal::Busy => b"Busy",
        Refusal::Canceled => b"Canceled",
        Refusal::ClockSpent => b"ClockSpent",
        Refusal::Duplicate => b"Duplicate",
        Refusal::EventIdsSpent => b"EventIdsSpent",
        Refusal::IdsSpent => b"IdsSpent",
        Refusal::InTransaction => b"InTransaction",
        Refusal::NoBatch => b"NoBatch",
        Refusal::NoEvent => b"NoEvent",
        Refusal::NodeConsumer => b"NodeConsumer",
        Refusal::NoKey => b"NoKey",
        Refusal::NotOpen => b"NotOpen",
        Refusal::ReadOnly => b"ReadOnly",
        Refusal::ReservedType => b"ReservedType",
        Refusal::SetQueue => b"SetQueue",
        Refusal::TxidsSpent => b"TxidsSpent",
        _ => unreachable!(),
    }
}

// The refusal of a row's values.
fn append_bad_row(why: &BadRow, into: &mut Vec<u8>) -> Result<(), NoMemory>
    ensures ok { OnOk result (into.new.items ≡ into.old.items ++ (codes "BadRow " ++ bad_row_text why.now)) }
    ensures kept { OnErr result (Keeps into.old.items into.new.items) }
{
    match why {
        BadRow::Count => into.extend_from_slice(b"BadRow count"),
        BadRow::Type(column) => append_named(b"BadRow type ", column.bytes(), into),
        BadRow::NullKey(column) => append_named(b"BadRow nullkey ", column.bytes(), into),
        BadRow::NoColumn(column) => append_named(b"BadRow nocolumn ", column.bytes(), into),
        BadRow::Twice(column) => append_named(b"BadRow twice ", column.bytes(), into),
    }
}

// The refusal that names these sessions, a space before each.
fn append_deadlock(
    names: &[Text],
    waiters: &[SessionId],
    into: &mut Vec<u8>,
) -> Result<(), NoMemory>
    ensures ok { OnOk result (into.new.items
        ≡ into.old.items ++ (codes "Deadlock" ++ spaced (map (name_at names.now) waiters.now))) }
    ensures kept { OnErr result (Keeps into.old.items into.new.items) }
{
    into.extend_from_slice(b"Deadlock")?;
    for waiter in waiters {
        append_name_word(name_of(names, *waiter), into)?;
    }
    Ok(())
}

// A name, after a space.
fn append_name_word(name: &[u8], into: &mut Vec<u8>) -> Result<(), NoMemory>
    ensures ok { OnOk result (into.new.items ≡ into.old.items ++ 32 ∷ name.now) }
    ensures kept { OnErr result (Keeps into.old.items into.new.items) }
{
    into.push(b' ')?;
    into.extend_from_slice(name)
}

/// Appends a name, which ends in a space, and the text after it.
pub(crate) fn append_named(name: &[u8], field: &[u8], into: &mut Vec<u8>) -> Result<(), NoMemory>
    ensures ok { OnOk result (into.new.items ≡ into.old.items ++ (name.now ++ field.now)) }
    ensures kept { OnErr result (Keeps into.old.items into.new.items) }
{
    into.extend_from_slice(name)?;
    into.extend_from_slice(field)
}

/// Appends a name, which ends in a space, and the number after it.
pub(crate) fn append_numbered(name: &[u8], number: u64, into: &mut Vec<u8>) -> Result<(), NoMemory>
    ensures ok { OnOk result (into.new.items ≡ into.old.items ++ (name.now ++ decimal number)) }
    ensures kept { OnErr result (Keeps into.old.items into.new.items) }
{
    into.extend_from_slice(name)?;
    append_number(number, into)
}

/// Appends a name, which ends in a space, and the two numbers after it.
pub(crate) fn append_numbers(
    name: &[u8],
    number: u64,
    other: u64,
    into: &mut Vec<u8>,
) -> Result<(), NoMemory>
    ensures ok { OnOk result (into.new.items
        ≡ into.old.items ++ (name.now ++ decimal number ++ 32 ∷ decimal other)) }
    ensures kept { OnErr result (Keeps into.old.items into.new.items) }
{
    append_numbered(name, number, into)?;
    append_number_word(other, into)
}

// The refusal that a limit is reached.
fn append_limit(limit: Limit, into: &mut Vec<u8>) -> Result<(), NoMemory>
    ensures ok { OnOk result (into.new.items ≡ into.old.items ++ (codes "TooMany " ++ limit_text limit)) }
    ensures kept { OnErr result (Keeps into.old.items into.new.items) }
{
    append_named(b"TooMany ", limit_name(limit), into)?;
    append_numbered(b" ", limit.most() as u64, into)
}

fn limit_name(limit: Limit) -> &'static [u8]
    ensures { result.now ≡ limit_name limit }
{
    match limit {
        Limit::Sessions => b"sessions",
        Limit::Databases => b"databases",
        Limit::Queues => b"queues",
        Limit::Consumers => b"consumers",
        Limit::Tables => b"tables",
        Limit::Columns => b"columns",
        Limit::Triggers => b"triggers",
    }
}
