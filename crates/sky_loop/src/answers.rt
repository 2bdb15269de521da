ghost use Rattle.std.specs.Prelude.{◌≡◌, [], ◌∷◌, ◌++◌, ◌<◌, ◌≤◌, ◌↔◌, All, IfOk, IsTrue, OnOk, OnErr, length};
ghost use Rattle.sky_model.specs.Printed.{printed, sessions_in, AllNamed, HaveMoments};

use sky_model::{Refusal, Replies, Reply};
use sky_print::print_replies;
use sky_val::{NoMemory, SessionId, Text};
use std::alloc::Global;

/// Appends what a call's answers print. A session that exceeds the limit has no number of its own,
/// and its name comes after the others.
pub fn print_answers(
    alloc: Global,
    names: &[Text],
    who: &str,
    replies: &Replies,
    into: &mut Vec<u8>,
) -> Result<(), NoMemory>
    requires numbered { All (λ answer. answer.0 ≤ length names.now) replies.now }
    requires moments { HaveMoments replies.now }
    ensures ok { OnOk result (into.new.items ≡ into.old.items ++ printed (names.now ++ who.now ∷ []) replies.now) }
    ensures err { OnErr result (into.new.items ≡ into.old.items) }
{
    if have_names(names, replies) {
        return print_replies(names, replies, into);
    }
    let names = names_with(alloc, names, who)?;
    print_replies(names.as_slice(), replies, into)
}

fn have_names(names: &[Text], replies: &Replies) -> bool
    ensures { IsTrue result ↔ AllNamed names.now replies.now }
{
    replies
        .as_slice()
        .iter()
        .all(|(session, reply)| is_named(names, *session, reply))
}

// Whether the session has a name, and each session that its answer names.
fn is_named(names: &[Text], session: SessionId, reply: &Reply) -> bool
    ensures { IsTrue result
        ↔ ((session < length names.now) × All (λ who. who < length names.now) (sessions_in reply.now)) }
{
    has_name(names, session) && speaks_of_named(names, reply)
}

fn speaks_of_named(names: &[Text], reply: &Reply) -> bool
    ensures { IsTrue result ↔ All (λ who. who < length names.now) (sessions_in reply.now) }
{
    match reply {
        Reply::Waits(holder) => has_name(names, *holder),
        Reply::Refused(Refusal::Deadlock(waiters)) => all_have_names(names, waiters.as_slice()),
        _ => true,
    }
}

fn all_have_names(names: &[Text], sessions: &[SessionId]) -> bool
    ensures { IsTrue result ↔ All (λ who. who < length names.now) sessions.now }
{
    sessions.iter().all(|session| has_name(names, *session))
}

fn has_name(names: &[Text], session: SessionId) -> bool
    ensures { IsTrue result ↔ session < length names.now }
{
    (session as usize) < names.len()
}

// The names, and one more.
fn names_with(alloc: Global, names: &[Text], name: &str) -> Result<Vec<Text>, NoMemory>
    ensures { IfOk result (λ all. all.items ≡ names.now ++ name.now ∷ []) }
{
    let mut all = Vec::new(alloc);
    for other in names {
        all.push(other.copy(alloc)?)?;
    }
    all.push(Text::from_str(alloc, name)?)?;
    Ok(all)
}
