use sky_model::Cause;

/// Why a run ends.
#[derive(Clone, Copy, Debug, PartialEq, Eq)]
pub enum End {
    /// The script ended.
    Whole,
    /// The line of this number is bad, for this cause.
    Bad(u64, Cause),
    /// The source failed.
    Read,
    /// The sink failed.
    Write,
    /// Memory ran out.
    NoMemory,
}
