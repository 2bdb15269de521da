ghost use Rattle.std.specs.Prelude.{◌≡◌, ℕ, [], ◌++◌, ◌<◌, ◌≤◌, ◌↔◌, IfOk, IsErr, OnErr, Some, take, drop, length};
ghost use Rattle.std.specs.Io.{ReadsAtMost};
ghost use Rattle.std.specs.Io.KnownBytes.{ReadConsumes};
ghost use Rattle.sky_io.specs.Faults.{Rose, count_of};
ghost use Rattle.sky_io.specs.Supply.{Supply, FailsNext, given_count, after_giving, after_failing};
ghost use Rattle.std.proofs.Common.{rules};

use crate::source::{Failed, Source};
use std::marker::Model;

/// Bytes in memory, given a few at a time, with failures at chosen calls.
#[derive(Drop)]
pub struct MemSource {
    bytes: Vec<u8>,
    given: usize,
    most: usize,
    failing: Vec<u64>,
    calls: u64,
    faults: u64,
}

impl Model for MemSource {
    ghost use Rattle.std.specs.Prelude.{◌≤◌, drop, vec_len};
    ghost use Rattle.sky_io.specs.Supply.{Supply};

    ghost Value = { Supply };

    ghost view = { λ s. record { left = drop s.given s.bytes.items; most = s.most; failing = s.failing.items; calls = s.calls; faults = s.faults } };

    ghost invariant = { λ s. (1 ≤ s.most) × (s.given ≤ vec_len s.bytes) };
}

impl MemSource {
    /// A source that gives `bytes`, at most `most` of them per call. The calls whose numbers, counted
    /// from 1, are in `failing` fail.
    pub fn new(bytes: Vec<u8>, most: usize, failing: Vec<u64>) -> MemSource
        requires { 1 ≤ most }
        ensures { result ≡ record { left = bytes.items; most = most; failing = failing.items; calls = 0; faults = 0 } }
    {
        MemSource {
            bytes,
            given: 0,
            most,
            failing,
            calls: 0,
            faults: 0,
        }
    }
}

impl Source for MemSource {
    ghost left = { λ source. Some source.left };

    ghost faults = { λ source. count_of source.faults };

    ghost reliable = { λ source. source.failing ≡ [] };

    ghost bounded = { Prim.search rules };

    fn read(&mut self, buf: &mut [u8]) -> Result<usize, Failed>
        requires { 0 < length buf.old }
        ensures at_most { ReadsAtMost result buf.new }
        ensures consumes { ReadConsumes (Some self.old.left) (Some self.new.left) result buf.new }
        ensures failed { OnErr result (Rose (count_of self.old.faults) (count_of self.new.faults)) }
        ensures never_falls { count_of self.old.faults ≤ count_of self.new.faults }
        ensures relied { OnErr result (¬ (self.old.failing ≡ [])) }
        ensures stays { self.old.failing ≡ [] → self.new.failing ≡ [] }

        // What this source promises besides.
        ensures fails { IsErr result ↔ FailsNext self.old }
        ensures count { IfOk result (λ count. count ≡ given_count self.old (length buf.old)) }
        ensures bytes { IfOk result (λ count. buf.new ≡ take count self.old.left ++ drop count buf.old) }
        ensures ok { IfOk result (λ count. self.new ≡ after_giving self.old count) }
        ensures err { OnErr result ((self.new ≡ after_failing self.old) × (buf.new ≡ buf.old)) }
    {
        self.calls = self.calls.saturating_add(1);
        if self.failing.contains(&self.calls) {
            self.faults = self.faults.saturating_add(1);
            return Err(Failed);
        }
        let left = &self.bytes[self.given..];
        let count = self.most.min(buf.len()).min(left.len());
        buf[..count].copy_from_slice(&left[..count]);
        self.given += count;
        Ok(count)
    }
}
