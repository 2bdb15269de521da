//! Why a database refuses a call for a node.

use sky_trans::TransFault;
use std::alloc::AllocError;
use thiserror::Error;

/// Why the consumer of a leaf doesn't join the queue of a set.
#[derive(Clone, Copy, Debug, PartialEq, Eq, Error)]
pub enum JoinFault {
    #[error("the consumer is registered")]
    ConsumerExists,
    #[error("the queue has as many consumers as it may")]
    TooManyConsumers,
    #[error("the last subscription id was given")]
    IdsSpent,
    #[error("out of memory")]
    NoMemory,
}

impl From<AllocError> for JoinFault {
    ghost use Rattle.std.specs.Prelude.{◌≡◌};
    ghost use Rattle.londiste_calls.specs.declared.faults.JoinFault.TheVariants.{NoMemory};

    ghost from_gives = { λ _ fault. fault ≡ NoMemory };

    fn from(_: AllocError) -> JoinFault {
        JoinFault::NoMemory
    }
}

/// Why the root of a set isn't made.
#[derive(Clone, Copy, Debug, PartialEq, Eq, Error)]
pub enum MakeRootFault {
    #[error("the queue exists")]
    QueueExists,
    #[error("the database has as many queues as it may")]
    TooManyQueues,
    #[error("the last transaction id was given")]
    TxidsSpent,
    #[error("out of memory")]
    NoMemory,
}

impl From<AllocError> for MakeRootFault {
    ghost use Rattle.std.specs.Prelude.{◌≡◌};
    ghost use Rattle.londiste_calls.specs.declared.faults.MakeRootFault.TheVariants.{NoMemory};

    ghost from_gives = { λ _ fault. fault ≡ NoMemory };

    fn from(_: AllocError) -> MakeRootFault {
        MakeRootFault::NoMemory
    }
}

impl From<TransFault> for MakeRootFault {
    ghost use Rattle.std.specs.Prelude.{◌≡◌};
    ghost use Rattle.londiste_calls.specs.Faults.{make_root_fault_of};

    ghost from_gives = { λ from fault. fault ≡ make_root_fault_of from };

    fn from(fault: TransFault) -> MakeRootFault {
        match fault {
            TransFault::TxidsSpent => MakeRootFault::TxidsSpent,
            TransFault::NoMemory => MakeRootFault::NoMemory,
        }
    }
}

/// Why a table doesn't join a set.
#[derive(Clone, Copy, Debug, PartialEq, Eq, Error)]
pub enum RootFault {
    #[error("the table has as many triggers as it may")]
    TooManyTriggers,
    #[error("out of memory")]
    NoMemory,
}

impl From<AllocError> for RootFault {
    ghost use Rattle.std.specs.Prelude.{◌≡◌};
    ghost use Rattle.londiste_calls.specs.declared.faults.RootFault.TheVariants.{NoMemory};

    ghost from_gives = { λ _ fault. fault ≡ NoMemory };

    fn from(_: AllocError) -> RootFault {
        RootFault::NoMemory
    }
}

/// Why a consumer gets no batch.
#[derive(Clone, Copy, Debug, PartialEq, Eq, Error)]
pub enum FetchFault {
    #[error("the last batch id was given")]
    IdsSpent,
    #[error("out of memory")]
    NoMemory,
}

impl From<AllocError> for FetchFault {
    ghost use Rattle.std.specs.Prelude.{◌≡◌};
    ghost use Rattle.londiste_calls.specs.declared.faults.FetchFault.TheVariants.{NoMemory};

    ghost from_gives = { λ _ fault. fault ≡ NoMemory };

    fn from(_: AllocError) -> FetchFault {
        FetchFault::NoMemory
    }
}

/// Why the copy of a table doesn't begin.
#[derive(Clone, Copy, Debug, PartialEq, Eq, Error)]
pub enum CopyFault {
    #[error("the last transaction id was given")]
    TxidsSpent,
    #[error("out of memory")]
    NoMemory,
}

impl From<AllocError> for CopyFault {
    ghost use Rattle.std.specs.Prelude.{◌≡◌};
    ghost use Rattle.londiste_calls.specs.declared.faults.CopyFault.TheVariants.{NoMemory};

    ghost from_gives = { λ _ fault. fault ≡ NoMemory };

    fn from(_: AllocError) -> CopyFault {
        CopyFault::NoMemory
    }
}

impl From<TransFault> for CopyFault {
    ghost use Rattle.std.specs.Prelude.{◌≡◌};
    ghost use Rattle.londiste_calls.specs.Faults.{copy_fault_of};

    ghost from_gives = { λ from fault. fault ≡ copy_fault_of from };

    fn from(fault: TransFault) -> CopyFault {
        match fault {
            TransFault::TxidsSpent => CopyFault::TxidsSpent,
            TransFault::NoMemory => CopyFault::NoMemory,
        }
    }
}

/// Why a batch isn't applied.
#[derive(Clone, Copy, Debug, PartialEq, Eq, Error)]
pub enum ApplyFault {
    #[error("the last transaction id was given")]
    TxidsSpent,
    /// The first of the picked events that can't be applied, by its id.
    #[error("event {0} can't be applied")]
    BadEvent(u64),
    #[error("out of memory")]
    NoMemory,
}

impl From<AllocError> for ApplyFault {
    ghost use Rattle.std.specs.Prelude.{◌≡◌};
    ghost use Rattle.londiste_calls.specs.declared.faults.ApplyFault.TheVariants.{NoMemory};

    ghost from_gives = { λ _ fault. fault ≡ NoMemory };

    fn from(_: AllocError) -> ApplyFault {
        ApplyFault::NoMemory
    }
}

impl From<TransFault> for ApplyFault {
    ghost use Rattle.std.specs.Prelude.{◌≡◌};
    ghost use Rattle.londiste_calls.specs.Faults.{apply_fault_of};

    ghost from_gives = { λ from fault. fault ≡ apply_fault_of from };

    fn from(fault: TransFault) -> ApplyFault {
        match fault {
            TransFault::TxidsSpent => ApplyFault::TxidsSpent,
            TransFault::NoMemory => ApplyFault::NoMemory,
        }
    }
}

/// Why a worker of a leaf makes no move. Nothing has changed then, unless memory ran out.
#[derive(Clone, Copy, Debug, PartialEq, Eq, Error)]
pub enum WorkerFault {
    /// The consumer of its copies can't register.
    #[error("the provider's queue has as many consumers as it may")]
    TooManyConsumers,
    /// The provider has no id left for the batch or the subscription that the move needs.
    #[error("the last id of a batch or a subscription was given")]
    IdsSpent,
    /// The leaf's database has no id left for the transaction that the move needs.
    #[error("the last transaction id was given")]
    TxidsSpent,
    /// Out of memory.
    #[error("out of memory")]
    NoMemory,
}

impl From<AllocError> for WorkerFault {
    ghost use Rattle.std.specs.Prelude.{◌≡◌};
    ghost use Rattle.londiste_calls.specs.declared.faults.WorkerFault.TheVariants.{NoMemory};

    ghost from_gives = { λ _ fault. fault ≡ NoMemory };

    fn from(_: AllocError) -> WorkerFault {
        WorkerFault::NoMemory
    }
}

impl From<CopyFault> for WorkerFault {
    ghost use Rattle.std.specs.Prelude.{◌≡◌};
    ghost use Rattle.londiste_calls.specs.Faults.{worker_fault_of};

    ghost from_gives = { λ from fault. fault ≡ worker_fault_of from };

    fn from(fault: CopyFault) -> WorkerFault {
        match fault {
            CopyFault::TxidsSpent => WorkerFault::TxidsSpent,
            CopyFault::NoMemory => WorkerFault::NoMemory,
        }
    }
}
