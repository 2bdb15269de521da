ghost use Rattle.std.specs.Prelude.{◌≡◌, ℕ, [], ◌<◌, ◌≤◌, ◌↔◌, IfOk, IsErrOf, OnOk, Some, length};
ghost use Rattle.std.specs.Io.{WritesAtMost};
ghost use Rattle.std.specs.Io.KnownBytes.{WriteAppends};
ghost use Rattle.sky_io.specs.Faults.{Rose, count_of};
ghost use Rattle.sky_io.specs.Store.{Store, FailsNext, after_writing, after_failing, after_no_memory};
ghost use Rattle.std.proofs.Common.{rules};

use crate::sink::{Sink, SinkFault};
use std::alloc::Global;
use std::marker::Model;

/// A sink that keeps its bytes in memory, with failures at chosen calls.
#[derive(Drop)]
pub struct MemSink {
    held: Vec<u8>,
    failing: Vec<u64>,
    calls: u64,
    faults: u64,
}

impl Model for MemSink {
    ghost use Rattle.sky_io.specs.Store.{Store};

    ghost Value = { Store };

    ghost view = { λ s. record { held = s.held.items; failing = s.failing.items; calls = s.calls; faults = s.faults } };
}

impl MemSink {
    /// A sink that holds nothing yet. The calls whose numbers, counted from 1, are in `failing` fail.
    pub fn new(alloc: Global, failing: Vec<u64>) -> MemSink
        ensures { result ≡ record { held = []; failing = failing.items; calls = 0; faults = 0 } }
    {
        MemSink {
            held: Vec::new(alloc),
            failing,
            calls: 0,
            faults: 0,
        }
    }

    /// What was written.
    pub fn bytes(&self) -> &[u8]
        ensures { result.now ≡ self.now.held }
    {
        &self.held
    }
}

impl Sink for MemSink {
    ghost held = { λ sink. Some sink.held };

    ghost faults = { λ sink. count_of sink.faults };

    ghost reliable = { λ sink. sink.failing ≡ [] };

    ghost bounded = { Prim.search rules };

    fn write(&mut self, piece: &[u8]) -> Result<usize, SinkFault>
        requires { 0 < length piece.now }
        ensures at_least { IfOk result (λ count. 1 ≤ count) }
        ensures at_most { WritesAtMost result piece.now }
        ensures appends { WriteAppends (Some self.old.held) (Some self.new.held) result piece.now }
        ensures failed { IsErrOf result SinkFault.Failed → Rose (count_of self.old.faults) (count_of self.new.faults) }
        ensures never_falls { count_of self.old.faults ≤ count_of self.new.faults }
        ensures relied { IsErrOf result SinkFault.Failed → ¬ (self.old.failing ≡ []) }
        ensures stays { self.old.failing ≡ [] → self.new.failing ≡ [] }

        // What this sink promises besides.
        ensures fails { IsErrOf result SinkFault.Failed ↔ FailsNext self.old }
        ensures whole { IfOk result (λ count. count ≡ length piece.now) }
        ensures ok { OnOk result (self.new ≡ after_writing self.old piece.now) }
        ensures err_failed { IsErrOf result SinkFault.Failed → self.new ≡ after_failing self.old }
        ensures err_no_memory { IsErrOf result SinkFault.NoMemory → self.new ≡ after_no_memory self.old }
    {
        self.calls = self.calls.saturating_add(1);
        if self.failing.contains(&self.calls) {
            self.faults = self.faults.saturating_add(1);
            return Err(SinkFault::Failed);
        }
        let Ok(()) = self.held.extend_from_slice(piece) else {
            return Err(SinkFault::NoMemory);
        };
        Ok(piece.len())
    }
}
