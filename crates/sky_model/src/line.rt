use crate::stmt::Stmt;
use sky_val::Text;

/// The words that a statement has as they are, after its first word.
#[derive(Clone, Copy, Debug, PartialEq, Eq)]
pub enum Fixed {
    /// `repeatable`
    Repeatable,
    /// `read`
    Read,
    /// `table`
    Table,
    /// `set`
    Set,
    /// `backup`
    Backup,
    /// `on`
    On,
    /// `off`
    Off,
}

/// Why a line is bad.
#[derive(Clone, Copy, Debug, PartialEq, Eq)]
pub enum Cause {
    /// It has more bytes than a line may have.
    TooLong,
    /// It is the last line, and doesn't end with a line feed.
    Truncated,
    /// It ends after more bytes than a script may have.
    ScriptTooLong,
    /// Its bytes are not UTF-8.
    NotUtf8,
    /// No line of the grammar begins with its words up to this one, of which the first is 1.
    BadWord(usize),
}

/// What a line of a script says.
#[derive(Debug)]
pub enum Line {
    /// Nothing: the line is empty or a comment.
    Blank,
    /// The session of this name is to run the statement.
    Run(Text, Stmt),
}

impl Drop for Line {
    fn drop(self) {
        match self {
            Line::Blank => {}
            Line::Run(_, _) => {}
        }
    }
}
