//! An event that is to be retried, and the transaction in which retries come back.

ghost use Rattle.std.specs.Prelude.{◌≡◌, ◌+◌, ◌<◌, ◌^◌, [], ◌∷◌, true, Ok, IfOk, IfErr, OnErr, unwrap_or};
ghost use Rattle.sky_model.specs.History.{of_worker, began, ended};
ghost use Rattle.sky_model.specs.OwnTransaction.{next_id};
ghost use Rattle.sky_model.specs.Retries.{retried};
ghost use Rattle.sky_model.specs.State.{after_part_marks};
ghost use Rattle.sky_model.specs.Stops.{Stops};
ghost use Rattle.sky_state.specs.Seen.{seen};

use sky_model::{Refusal, Stop};
use sky_row_store::RowStore;
use sky_trans::TransFault;
use sky_val::Event;

/// An event as a subscription is to get it again.
pub fn retried(sub: u64, mut event: Event) -> Event
    requires { unwrap_or event.ev_retry 0 + 1 < 2 ^ 64 }
    ensures { result ≡ retried sub event }
{
    let times = event.ev_retry.unwrap_or(0);
    event.ev_owner = Some(sub);
    event.ev_retry = Some(times + 1);
    event
}

/// A transaction of a worker, which commits at once, or a refusal if no id is left for it.
pub fn work_alone<R: RowStore>(rows: &mut R) -> Result<u64, Stop>
    ensures id { IfOk result (λ txid. next_id (seen (R.state rows.old)) ≡ Ok txid) }
    ensures marks { IfOk result (λ txid. seen (R.state rows.new) ≡ after_part_marks (seen (R.state rows.old)) (began of_worker txid ∷ ended of_worker txid true ∷ [])) }
    ensures stops { IfErr result (λ stop. Stops stop (seen (R.state rows.old)) (seen (R.state rows.new)) (next_id (seen (R.state rows.old)))) }
    ensures err { OnErr result (seen (R.state rows.new) ≡ seen (R.state rows.old)) }
{
    match rows.begin_worker() {
        Ok(txid) => {
            rows.end_worker(txid, true);
            Ok(txid)
        }
        Err(TransFault::TxidsSpent) => Err(Stop::Refused(Refusal::TxidsSpent)),
        Err(TransFault::NoMemory) => Err(Stop::NoMemory),
    }
}
