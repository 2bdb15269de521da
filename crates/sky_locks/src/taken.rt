use crate::ring::Ring;
use sky_val::SessionId;

/// The answer to asking for a key.
#[derive(Debug, Drop)]
pub enum Taken {
    /// The asking session holds the key.
    Got,
    /// It waits for this one, which holds the key.
    Waits(SessionId),
    /// Its wait would have closed this cycle.
    Cycle(Ring),
}
