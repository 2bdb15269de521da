/// A part of what the daemon of a database does.
#[derive(Clone, Copy, Debug, PartialEq, Eq)]
pub enum DaemonPart {
    /// It makes the ticks that are due.
    Tick,
    /// It puts back events whose retry is due.
    Retry,
    /// It rotates event tables.
    Maintain,
}
