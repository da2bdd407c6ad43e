ghost use Rattle.std.specs.Prelude.{◌≡◌, ◌+◌, ◌-◌, ◌^◌, ◌≤◌, ◌++◌, ◌↔◌, [], min, OnOk, OnErr, IsErrOf, Contains, if◌then◌else◌};
ghost use Rattle.sd_io.specs.Calls.{is_failed};

use crate::sink::{Sink, SinkError};
use std::alloc::Global;
use std::marker::Model;

/// A sink in memory that fails at the listed calls, counted from 0, and takes nothing there.
#[derive(Drop)]
pub struct MemSink {
    taken: Vec<u8>,
    failing: Vec<u64>,
    calls: u64,
    faults: u64,
}

impl Model for MemSink {
    ghost use Rattle.sd_io.specs.Calls.{FailingSink};

    ghost Value = { FailingSink };

    ghost view = { λ s. record { taken = s.taken.items; failing = s.failing.items; calls = s.calls; faults = s.faults } };
}

impl MemSink {
    /// A sink that took nothing yet and fails at these calls.
    pub fn new(alloc: Global, failing: Vec<u64>) -> MemSink
        ensures { result ≡ record { taken = []; failing = failing.items; calls = 0; faults = 0 } }
    {
        MemSink {
            taken: Vec::new(alloc),
            failing,
            calls: 0,
            faults: 0,
        }
    }

    /// All the bytes that were taken.
    pub fn bytes(&self) -> &[u8]
        ensures { result.now ≡ self.now.taken }
    {
        &self.taken
    }
}

impl Sink for MemSink {
    ghost use Rattle.std.specs.Prelude.{Some};

    ghost taken = { λ sink. Some sink.taken };

    ghost faults = { λ sink. sink.faults };

    fn write(&mut self, piece: &[u8]) -> Result<(), SinkError>
        ensures fails { IsErrOf result SinkError.Failed ↔ Contains self.old.failing self.old.calls }
        ensures ok { OnOk result (self.new.taken ≡ self.old.taken ++ piece.now) }
        ensures err { OnErr result (self.new.taken ≡ self.old.taken) }
        ensures calls { self.new.calls ≡ min (self.old.calls + 1) (2 ^ 64 - 1) }
        ensures faults { self.new.faults ≡ (if is_failed result then min (self.old.faults + 1) (2 ^ 64 - 1) else self.old.faults) }
        ensures faults_never_fall { self.old.faults ≤ self.new.faults }
        ensures stays { self.new.failing ≡ self.old.failing }
    {
        let call = self.calls;
        self.calls = call.saturating_add(1);
        if self.failing.contains(&call) {
            self.faults = self.faults.saturating_add(1);
            return Err(SinkError::Failed);
        }
        self.taken
            .extend_from_slice(piece)
            .map_err(|_| SinkError::Memory)
    }
}
