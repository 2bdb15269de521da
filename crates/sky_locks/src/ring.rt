ghost use Rattle.std.specs.Prelude.{◌≡◌};

use sky_val::SessionId;
use std::marker::Model;

/// The sessions of a deadlock cycle: the one that asked for a key, its holder, and on from each to
/// the one that it waits for. The last waits for the first.
#[derive(Debug, Drop)]
pub struct Ring {
    sessions: Vec<SessionId>,
}

impl Model for Ring {
    ghost use Rattle.std.specs.Prelude.{ℕ, List};

    ghost Value = { List ℕ };

    ghost view = { λ r. r.sessions.items };
}

impl Ring {
    /// The cycle of these sessions.
    pub(crate) fn new(sessions: Vec<SessionId>) -> Ring
        ensures { result ≡ sessions.items }
    {
        Ring { sessions }
    }

    /// The list of the sessions, beginning with the one that asked.
    pub fn into_sessions(self) -> Vec<SessionId>
        ensures { result.items ≡ self }
    {
        self.sessions
    }
}
