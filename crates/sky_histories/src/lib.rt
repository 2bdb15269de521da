//! What every history that calls make has: lemmas about the definitions of sky_model, no code.
//!
//! They say which marks a statement, a daemon or a worker may leave, and at which places such marks may come; and what
//! follows for the transactions, rows, locks, queues and nodes of a database that calls have made. The proofs of the
//! crates that run statements cite them, and so do the laws.
#![tactic(auto)]
