ghost use Rattle.std.specs.Prelude.{◌≡◌, Result, Ok, Err, true, IfErr, OnOk};
ghost use Rattle.sky_model.specs.Allowed as spec;
ghost use Rattle.sky_fits.specs.Blocks.{seen_block};

use crate::standing::{Block, Standing};
use sky_model::{Refusal, RowStmt, Where};

/// Where the statement is allowed.
pub fn where_of(stmt: &RowStmt) -> Where
    ensures { result ≡ spec.where_of_row stmt.now }
{
    match stmt {
        RowStmt::Cancel => Where::Always,
        RowStmt::OpenDb { .. } => Where::Anywhere,
        RowStmt::Close | RowStmt::Commit | RowStmt::Rollback => Where::WhenOpen,
        RowStmt::Begin | RowStmt::BeginRepeatableRead => Where::WhenSound,
        RowStmt::TxidCurrent
        | RowStmt::TxidCurrentSnapshot
        | RowStmt::TxidVisibleInSnapshot { .. }
        | RowStmt::Insert { .. }
        | RowStmt::Update { .. }
        | RowStmt::Delete { .. }
        | RowStmt::Get { .. }
        | RowStmt::Scan { .. } => Where::WhenReading,
        RowStmt::CreateTable { .. } => Where::WhenOutside,
    }
}

/// Refuses a statement that its session can't make now. The tests come in the order of the refusals: a session that
/// waits is busy, whatever it asks for; then the database has to be open; then the statement has to be allowed in the
/// session's block. `Always` (`cancel`) passes all of them, and `Anywhere` (`open`) needs no open database.
pub fn allow(waits: bool, standing: Standing, place: Where) -> Result<(), Refusal>
    ensures ok { OnOk result (spec.allowed waits standing.is_open (seen_block standing.block) place ≡ Ok tt) }
    ensures err { IfErr result (λ refusal. spec.allowed waits standing.is_open (seen_block standing.block) place ≡ Err refusal) }
{
    if waits && place != Where::Always {
        return Err(Refusal::Busy);
    }
    if !standing.is_open && !matches!(place, Where::Always | Where::Anywhere) {
        return Err(Refusal::NotOpen);
    }
    match (standing.block, place) {
        (Block::Inside, Where::WhenOutside) => Err(Refusal::InTransaction),
        (Block::Failed, Where::WhenSound | Where::WhenReading | Where::WhenOutside) => {
            Err(Refusal::Aborted)
        }
        _ => Ok(()),
    }
}
